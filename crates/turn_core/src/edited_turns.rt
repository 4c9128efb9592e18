//! Turns whose edits are made, without their posts.
ghost use Rattle.std.specs.Prelude.{◌≡◌, IfOk, length};
ghost use Rattle.nav_types.specs.Regions.{HasRelabelled};
ghost use Rattle.posts.specs.Posts.{jobs};
ghost use Rattle.grid_versions.specs.Passing.{passable_at};
ghost use Rattle.turn_core.specs.Solving.{AreAnswersTo};
ghost use Rattle.turn_core.specs.Turns.{IsTurnTold};
ghost use Rattle.turn_core.specs.ReadyTurns.{after_edits_of};

use crate::ready_turns::AnsweredTurn;
use crate::reply_lists;
use crate::turn_versions::{self, Advanced};
use grid_versions::Version;
use nav_types::NoMemory;
use posts::{Answers, Jobs, Replies, TurnPosts, TurnReplies};
use std::alloc::Global;
use std::marker::Model;
use std::snapshot::Snapshot;

/// What a turn whose edits are made holds besides its posts: the version after the edits, the jobs, and the replies to
/// the edits, among which stand-ins keep the places of the answers. Contracts see the map, what stood before the turn,
/// and the turn (`Ready`).
#[derive(Drop)]
pub(crate) struct EditedTurn {
    alloc: Global,
    base: Snapshot<Version>,
    turn: Snapshot<TurnPosts>,
    version: Version,
    relabelled: u32,
    jobs: Jobs,
    replies: Vec<Replies>,
}

impl Model for EditedTurn {
    ghost use Rattle.posts.specs.contracts.posts.Post.{the_row as post_row};
    ghost use Rattle.grid_versions.specs.contracts.versions.Version.{the_row as version_row};
    ghost use Rattle.turn_core.specs.ReadyTurns.{Ready};
    ghost use Rattle.turn_core.specs.inner.Codes.{ready_code};
    ghost use Rattle.turn_core.specs.inner.EditedTurns.{ready_of, HoldsEdited};

    ghost Value = { Ready };

    ghost coded = { ready_code version_row.coded post_row.coded };

    ghost view = { ready_of };

    ghost invariant = { HoldsEdited };
}

impl EditedTurn {
    /// Makes the edits of a turn on the version before it.
    pub(crate) fn new(
        alloc: Global,
        base: &Version,
        turn: &TurnPosts,
    ) -> Result<EditedTurn, NoMemory>
        ensures { IfOk result (λ edited.
            edited ≡ record { map = base.now.map; before = base.now.standing; turn = turn.now }) }
    {
        let Advanced {
            version,
            edits,
            relabelled,
        } = turn_versions::after_turn(alloc, base, turn)?;
        let replies = reply_lists::lists_ahead(alloc, turn.as_slice(), edits)?;
        let jobs = turn_versions::jobs_of(alloc, turn)?;
        Ok(EditedTurn {
            alloc,
            base: Snapshot::of(base),
            turn: Snapshot::of(turn),
            version,
            relabelled,
            jobs,
            replies,
        })
    }

    /// The version after the edits.
    pub(crate) fn version(&self) -> &Version
        ensures map { result.now.map ≡ self.now.map }
        ensures standing { result.now.standing ≡ after_edits_of self.now }
    {
        &self.version
    }

    /// The version after the edits, by value.
    pub(crate) fn into_version(self) -> Version
        ensures map { result.map ≡ self.map }
        ensures standing { result.standing ≡ after_edits_of self }
    {
        self.version
    }

    /// The requests of the turn, by their job numbers.
    pub(crate) fn jobs(&self) -> &Jobs
        ensures { result.now ≡ jobs self.now.turn }
    {
        &self.jobs
    }

    /// The number of pairs of class and chunk of which the edits changed some cell.
    pub(crate) fn relabelled(&self) -> u32
        ensures { HasRelabelled (length self.now.map.classes) (passable_at self.now.map self.now.before)
            (passable_at self.now.map (after_edits_of self.now)) result }
    {
        self.relabelled
    }

    /// The replies to the turn, with the version after it. The answers are moved into their places.
    pub(crate) fn answered(self, answers: Answers) -> AnsweredTurn
        requires { AreAnswersTo self.map (after_edits_of self) (jobs self.turn) answers }
        ensures map { result.after.map ≡ self.map }
        ensures standing { result.after.standing ≡ after_edits_of self }
        ensures told { IsTurnTold self.map self.before self.turn result.replies }
    {
        let EditedTurn {
            alloc,
            version,
            relabelled,
            replies,
            ..
        } = self;
        AnsweredTurn {
            replies: TurnReplies {
                tallies: version.tallies(),
                relabelled,
                replies: reply_lists::lists_filled(alloc, replies, answers),
            },
            after: version,
        }
    }
}
