//! Turns whose edits are made and whose requests wait for their answers.
ghost use Rattle.std.specs.Prelude.{◌≡◌, IfOk, IfErr, length};
ghost use Rattle.nav_types.specs.Regions.{HasRelabelled};
ghost use Rattle.posts.specs.Posts.{jobs};
ghost use Rattle.grid_versions.specs.Passing.{passable_at};
ghost use Rattle.turn_core.specs.Solving.{AreAnswersTo};
ghost use Rattle.turn_core.specs.Turns.{IsTurnTold};
ghost use Rattle.turn_core.specs.ReadyTurns.{after_edits_of};

use crate::edited_turns::EditedTurn;
use grid_versions::Version;
use nav_types::NoMemory;
use posts::{Answers, Jobs, TurnPosts, TurnReplies};
use std::alloc::Global;
use std::marker::Model;

/// The replies to a turn, and the version after it.
#[derive(Drop)]
pub struct AnsweredTurn {
    pub replies: TurnReplies,
    pub after: Version,
}

/// A turn whose edits are made and whose requests wait for their answers, by whoever finds them. Contracts see the map,
/// what stood before the turn, and the turn (`Ready`).
#[derive(Drop)]
pub struct ReadyTurn {
    posts: TurnPosts,
    edited: EditedTurn,
}

impl Model for ReadyTurn {
    ghost use Rattle.std.specs.Prelude.{◌≡◌};
    ghost use Rattle.posts.specs.contracts.posts.Post.{the_row as post_row};
    ghost use Rattle.grid_versions.specs.contracts.versions.Version.{the_row as version_row};
    ghost use Rattle.turn_core.specs.ReadyTurns.{Ready};
    ghost use Rattle.turn_core.specs.inner.Codes.{ready_code};

    ghost Value = { Ready };

    ghost coded = { ready_code version_row.coded post_row.coded };

    ghost view = { λ ready. ready.edited };

    ghost invariant = { λ ready. ready.posts ≡ ready.edited.turn };
}

impl ReadyTurn {
    /// Makes the edits of a turn on the version before it, caller by caller and post by post, and takes all memory that
    /// its replies need besides the answers. It refuses for want of memory alone, and hands the posts back.
    pub fn new(
        alloc: Global,
        base: &Version,
        posts: TurnPosts,
    ) -> Result<ReadyTurn, (NoMemory, TurnPosts)>
        ensures ready { IfOk result (λ ready.
            ready ≡ record { map = base.now.map; before = base.now.standing; turn = posts }) }
        ensures posts { IfErr result (λ refused. refused.1 ≡ posts) }
    {
        match EditedTurn::new(alloc, base, &posts) {
            Ok(edited) => Ok(ReadyTurn { posts, edited }),
            Err(NoMemory) => Err((NoMemory, posts)),
        }
    }

    /// The posts of the turn, by the callers' numbers.
    pub fn posts(&self) -> &TurnPosts
        ensures { result.now ≡ self.now.turn }
    {
        &self.posts
    }

    /// The version after all edits of the turn: on it its requests are answered, and the next turn stands.
    pub fn version(&self) -> &Version
        ensures map { result.now.map ≡ self.now.map }
        ensures standing { result.now.standing ≡ after_edits_of self.now }
    {
        self.edited.version()
    }

    /// The requests of the turn, by their job numbers.
    pub fn jobs(&self) -> &Jobs
        ensures { result.now ≡ jobs self.now.turn }
    {
        self.edited.jobs()
    }

    /// The number of pairs of class and chunk of which the edits changed some cell, over the map's classes alone.
    pub fn relabelled(&self) -> u32
        ensures { HasRelabelled (length self.now.map.classes) (passable_at self.now.map self.now.before)
            (passable_at self.now.map (after_edits_of self.now)) result }
    {
        self.edited.relabelled()
    }

    /// The posts, and the replies to them with the version after the turn (`IsTurnTold`). The answers, one to each job in
    /// its place, are moved into the replies. It takes no memory.
    pub fn answered(self, answers: Answers) -> (TurnPosts, AnsweredTurn)
        requires { AreAnswersTo self.map (after_edits_of self) (jobs self.turn) answers }
        ensures posts { result.0 ≡ self.turn }
        ensures map { result.1.after.map ≡ self.map }
        ensures standing { result.1.after.standing ≡ after_edits_of self }
        ensures told { IsTurnTold self.map self.before self.turn result.1.replies }
    {
        let ReadyTurn { posts, edited } = self;
        (posts, edited.answered(answers))
    }

    /// The posts, and the version after all edits of the turn.
    pub fn into_parts(self) -> (TurnPosts, Version)
        ensures posts { result.0 ≡ self.turn }
        ensures map { result.1.map ≡ self.map }
        ensures standing { result.1.standing ≡ after_edits_of self }
    {
        let ReadyTurn { posts, edited } = self;
        (posts, edited.into_version())
    }
}
