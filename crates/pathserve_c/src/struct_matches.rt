//! Matches by structs.
ghost use Rattle.std.specs.Prelude.{◌≡◌, IfOk, IsSome, List, None, OnErr, OnOk, Some, []};
ghost use Rattle.posts.specs.declared.posts.Post.{Post};
ghost use Rattle.posts.specs.declared.replies.TurnReplies.{TurnReplies};
ghost use Rattle.script_text.specs.ReadsBack.{IsWithinLimits, ReadsAs, canon_script};
ghost use Rattle.match_play.specs.Posted.{journal_of, standing_in, turns_of, without_journal};
ghost use Rattle.match_play.specs.Replays.{script_of};
ghost use Rattle.match_play.specs.Saved.{forgetting};
ghost use Rattle.pathserve_c.specs.Saves.{OpensAs};
ghost use Rattle.pathserve_c.specs.Structs.{Ends, IsNew, PostsAs, has_room};

use crate::openings::OpenFault;
use crate::statuses::PostFault;
use flat_posts::{CallerPosts, FlatPost, PostsFault, read_posts, turn_of};
use grid_versions::Version;
use match_play::{EndedTurn, OpenedMatch, PostedMatch, open_script};
use nav_types::{Bytes, NoMemory, Sequence};
use posts::{MapSpec, Report, Tallies, TurnReplies};
use std::alloc::Global;
use std::marker::Model;

/// The version of the scripts of matches by structs, which has lines for all posts.
const NEWEST_VERSION: u8 = 3;

/// A match by structs. Contracts see the match, the posts of the turn, the replies of the last one and
/// how many posts may wait (`StructState`).
#[derive(Drop)]
pub struct StructMatch {
    game: PostedMatch,
    posted: CallerPosts,
    told: TurnReplies,
    most: usize,
}

impl Model for StructMatch {
    ghost use Rattle.std.specs.Prelude.{ℕ, ◌≡◌, ◌<◌, All};
    ghost use Rattle.posts.specs.declared.posts.Post.{Post};
    ghost use Rattle.posts.specs.contracts.posts.Post.{the_row as post_row};
    ghost use Rattle.posts.specs.contracts.replies.TurnReplies.{the_row as told_row};
    ghost use Rattle.match_play.specs.contracts.posted.PostedMatch.{the_row as game_row};
    ghost use Rattle.pathserve_c.specs.Structs.{StructState};
    ghost use Rattle.pathserve_c.specs.inner.Codes.{struct_code};

    ghost Value = { StructState };

    ghost coded = { struct_code game_row.coded post_row.coded told_row.coded };

    ghost view = { λ m. record { game = m.game; posted = m.posted; told = m.told; most = m.most } };

    ghost invariant = { λ m. (m.game.map.version ≡ 3)
        × All (λ (entry : ℕ × Post). entry.0 < m.game.map.callers) m.posted };
}

impl StructMatch {
    /// A match on a map of version 3, before its first turn.
    pub fn open(alloc: Global, map: &MapSpec) -> Result<StructMatch, NoMemory>
        requires { map.now.version ≡ 3 }
        ensures { IfOk result (IsNew map.now) }
    {
        let game = PostedMatch::open(alloc, map)?;
        Ok(StructMatch {
            game,
            posted: Sequence::new(alloc),
            told: nothing_told(alloc),
            most: usize::MAX,
        })
    }

    /// A match in which a whole script of version 3 was played (`OpensAs`).
    pub fn open_script(alloc: Global, script: &[u8]) -> Result<StructMatch, OpenFault>
        ensures { OpensAs script.now result }
    {
        let OpenedMatch { game, told } = match open_script(alloc, script) {
            Ok(opened) => opened,
            Err(fault) => return Err(OpenFault::Script(fault)),
        };
        if game.version().map().version() != NEWEST_VERSION {
            return Err(OpenFault::OldVersion);
        }
        Ok(StructMatch {
            game,
            posted: Sequence::new(alloc),
            told: told_or_nothing(alloc, told),
            most: usize::MAX,
        })
    }

    /// Lets at most so many posts wait for the end of a turn. Those that wait already stay.
    pub fn limit(&mut self, most: usize)
        ensures { self.new ≡ record self.old { most = most } }
    {
        self.most = most;
    }

    /// Whether so many more posts may wait.
    pub fn has_room(&self, count: usize) -> bool
        ensures { result ≡ has_room self.now count }
    {
        self.posted.len() as u128 + count as u128 <= self.most as u128
    }

    /// Takes posts, behind those that the turn has: all of them or none.
    pub fn post_all(&mut self, alloc: Global, flats: &[FlatPost]) -> Result<(), PostFault>
        ensures { PostsAs self.old self.new flats.now result }
    {
        let mut read = match read_posts(alloc, self.game.version().map(), flats) {
            Ok(read) => read,
            Err(PostsFault::NotPost) => return Err(PostFault::BadValue),
            Err(PostsFault::NoMemory) => return Err(PostFault::NoMemory),
        };
        match self.posted.append(&mut read) {
            Ok(()) => Ok(()),
            Err(NoMemory) => Err(PostFault::NoMemory),
        }
    }

    /// Ends the turn. Where there is no memory it has not ended, and has its posts.
    pub fn end_turn(&mut self, alloc: Global) -> Result<(), NoMemory>
        ensures ended { OnOk result (Ends self.old self.new) }
        ensures same { OnErr result (self.new ≡ self.old) }
    {
        let callers = usize::from(self.game.version().map().callers());
        let turn = turn_of(alloc, callers, self.posted.as_slice())?;
        match self.game.end_turn(alloc, Report::Answers, turn) {
            Ok(EndedTurn { replies, .. }) => {
                self.told = replies;
                self.posted.clear();
                Ok(())
            }
            Err(_) => Err(NoMemory),
        }
    }

    /// Begins the journal anew, with one turn that adds what stands (`forgetting`).
    pub fn forget(&mut self, alloc: Global) -> Result<(), NoMemory>
        ensures ok { OnOk result (self.new ≡ record self.old { game = forgetting self.old.game }) }
        ensures stands { standing_in self.new.game ≡ standing_in self.old.game }
        ensures err { OnErr result (self.new ≡ self.old) }
    {
        self.game.forget(alloc)
    }

    /// Lets go of the journal, and keeps none from then on (`without_journal`).
    pub fn keep_no_journal(&mut self)
        ensures { self.new ≡ record self.old { game = without_journal self.old.game } }
    {
        self.game.keep_no_journal();
    }

    /// The replies of the turn that ended last.
    pub fn told(&self) -> &TurnReplies
        ensures { result.now ≡ self.now.told }
    {
        &self.told
    }

    /// The version after the turns that have ended.
    pub fn version(&self) -> &Version
        ensures map { result.now.map ≡ self.now.game.map }
        ensures standing { result.now.standing ≡ standing_in self.now.game }
    {
        self.game.version()
    }

    /// How many turns have ended.
    pub fn turns(&self) -> u64
        ensures { result ≡ turns_of self.now.game.past }
    {
        self.game.turns()
    }

    /// The match as a script: the canonical text of its map and of the turns that have ended. None exactly where it keeps no
    /// journal.
    pub fn script(&self, alloc: Global) -> Result<Option<Bytes>, NoMemory>
        ensures text { IfOk result (λ text. text ≡ script_of self.now.game) }
        ensures reads_back { OnOk result ((journal : List (List (List Post))) → journal_of self.now.game.past ≡ Some journal
            → IsWithinLimits (canon_script self.now.game.map journal)
            → ReadsAs self.now.game.map journal (canon_script self.now.game.map journal)) }
        ensures kept { OnErr result (IsSome (journal_of self.now.game.past)) }
    {
        self.game.script(alloc)
    }
}

/// The replies of the last turn, if there is one.
fn told_or_nothing(alloc: Global, told: Option<TurnReplies>) -> TurnReplies
    ensures some { (last : TurnReplies) → told ≡ Some last → result ≡ last }
    ensures none { told ≡ None → result.replies ≡ [] }
{
    match told {
        Some(last) => last,
        None => nothing_told(alloc),
    }
}

/// The replies where no turn has ended: none.
fn nothing_told(alloc: Global) -> TurnReplies
    ensures { result.replies ≡ [] }
{
    TurnReplies {
        tallies: Tallies {
            regions: 0,
            edges: 0,
            areas: 0,
        },
        relabelled: 0,
        replies: Sequence::new(alloc),
    }
}
