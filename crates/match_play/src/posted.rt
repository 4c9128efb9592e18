//! Matches whose turns are posts as data.
ghost use Rattle.std.specs.Prelude.{◌≡◌, ◌≢◌, ◌≤◌, ◌++◌, [], All, IfErr, IfNone, IfOk, IfSome, IsSome, List, None, OnErr, OnOk, Some, length};
ghost use Rattle.posts.specs.declared.posts.Post.{Post};
ghost use Rattle.posts.specs.Posts.{jobs};
ghost use Rattle.script_text.specs.Canon.{HaveLines};
ghost use Rattle.script_text.specs.ReadsBack.{ArePostValues, IsWithinLimits, ReadsAs, canon_script, canon_turns};
ghost use Rattle.turn_core.specs.Notes.{AreNotes};
ghost use Rattle.turn_core.specs.Turns.{IsTurnTold, after_turn};
ghost use Rattle.match_play.specs.Posted.{Kept, journal_of, standing_in, turns_of, with_turn, without_journal};
ghost use Rattle.match_play.specs.Replays.{script_of};
ghost use Rattle.match_play.specs.Saved.{begun_anew, forgetting};
ghost use Rattle.match_play.specs.inner.Kept.{one_more};

use crate::saved::adding_turn;
use grid_versions::Version;
use nav_types::{Bytes, NoMemory};
use posts::{Journal, MapSpec, Notes, Report, TurnPosts, TurnReplies};
use script_text::{write_journal, write_map};
use std::alloc::Global;
use std::marker::Model;
use turn_core::{NotedTurn, OneThread, bare_version, noted_turn};

/// What a turn is answered: the replies to its posts with the turn's numbers, and the notes of its requests.
#[derive(Drop)]
pub struct EndedTurn {
    pub replies: TurnReplies,
    pub notes: Notes,
}

/// The turns that have ended: all of them, or how many they were.
#[derive(Drop)]
pub enum EndedTurns {
    Kept(Journal),
    Counted(u64),
}

impl EndedTurns {
    /// Takes a turn more, and keeps it where turns are kept. The count stays at its greatest number.
    fn push(&mut self, posts: TurnPosts) -> Result<(), (NoMemory, TurnPosts)>
        ensures ok { OnOk result (self.new ≡ one_more self.old posts) }
        ensures err { OnErr result (self.new ≡ self.old) }
        ensures posts { IfErr result (λ refused. refused.1 ≡ posts) }
    {
        match self {
            EndedTurns::Kept(journal) => journal.push(posts),
            EndedTurns::Counted(turns) => {
                *turns = turns.saturating_add(1);
                Ok(())
            }
        }
    }
}

/// A match on a map that was made of its parts, whose turns are posts as data. Contracts see the map, and what is kept of the
/// turns that have ended (`PostedState`): the journal of a match has them all, and a match that keeps no journal knows what
/// stands after them and how many they were.
#[derive(Drop)]
pub struct PostedMatch {
    version: Version,
    ended: EndedTurns,
    thread: OneThread,
}

impl Model for PostedMatch {
    ghost use Rattle.grid_versions.specs.contracts.versions.Version.{the_row as version_row};
    ghost use Rattle.posts.specs.contracts.posts.Post.{the_row as post_row};
    ghost use Rattle.match_play.specs.Posted.{PostedState};
    ghost use Rattle.match_play.specs.inner.Kept.{HoldsTurns, past_of, posted_code};

    ghost Value = { PostedState };

    ghost coded = { posted_code version_row.coded post_row.coded };

    ghost view = { λ m. record { map = m.version.map; past = past_of m.version.standing m.ended } };

    ghost invariant = { λ m. HoldsTurns m.version m.ended };
}

impl PostedMatch {
    /// A match on a map, before its first turn, which keeps a journal. It refuses for want of memory alone.
    pub fn open(alloc: Global, map: &MapSpec) -> Result<PostedMatch, NoMemory>
        ensures { IfOk result (λ made. made ≡ record { map = map.now; past = Kept [] }) }
    {
        let version = bare_version(alloc, map)?;
        Ok(PostedMatch {
            version,
            ended: EndedTurns::Kept(Journal::new(alloc)),
            thread: OneThread::new(),
        })
    }

    /// Ends a turn of these posts, caller by caller: its edits are made on what the turns before left, its requests are
    /// answered on what they leave, and the next turn stands on that. What the turn is answered is what one thread answers
    /// (`IsTurnTold`), with what the report tells of each request.
    ///
    /// There is a list for each caller of the map, and the map's version has lines for the posts, which `have_lines` of
    /// `script_text` tests. Where there is no memory the posts come back, and the match is as it was.
    pub fn end_turn(
        &mut self,
        alloc: Global,
        report: Report,
        posts: TurnPosts,
    ) -> Result<EndedTurn, (NoMemory, TurnPosts)>
        requires lists { length posts ≡ self.old.map.callers }
        requires lines { HaveLines self.old.map.version posts }
        ensures told { IfOk result (λ ended. IsTurnTold self.old.map (standing_in self.old) posts ended.replies) }
        ensures notes { IfOk result (λ ended. AreNotes self.old.map
            (after_turn self.old.map (standing_in self.old) posts) report (jobs posts) ended.notes) }
        ensures map { self.new.map ≡ self.old.map }
        ensures ok { OnOk result (self.new.past ≡ with_turn self.old.map self.old.past posts) }
        ensures err { OnErr result (self.new.past ≡ self.old.past) }
        ensures posts { IfErr result (λ refused. refused.1 ≡ posts) }
    {
        let NotedTurn {
            posts,
            replies,
            notes,
            after,
        } = noted_turn(alloc, &mut self.thread, &self.version, posts, report)?;
        self.ended.push(posts)?;
        self.version = after;
        Ok(EndedTurn { replies, notes })
    }

    /// Lets go of the journal, and keeps no turn from then on. What stands is as it was, and the number of the next turn.
    pub fn keep_no_journal(&mut self)
        ensures { self.new ≡ without_journal self.old }
    {
        self.ended = EndedTurns::Counted(self.turns());
    }

    /// Forgets how what stands came to stand: the journal begins anew, with one turn in which caller 0 adds all that stands
    /// (`forgetting`), unless no turn has ended. What stands is as it was, and the next turn is the second. A match that kept
    /// no journal keeps one from then on.
    pub fn forget(&mut self, alloc: Global) -> Result<(), NoMemory>
        requires newest { self.old.map.version ≡ 3 }
        ensures ok { OnOk result (self.new ≡ forgetting self.old) }
        ensures stands { standing_in self.new ≡ standing_in self.old }
        ensures err { OnErr result (self.new ≡ self.old) }
    {
        let journal = begun_anew(alloc, &self.version, self.turns())?;
        self.ended = EndedTurns::Kept(journal);
        Ok(())
    }

    /// The version after the turns that have ended.
    pub fn version(&self) -> &Version
        ensures map { result.now.map ≡ self.now.map }
        ensures standing { result.now.standing ≡ standing_in self.now }
    {
        &self.version
    }

    /// How many turns have ended.
    pub fn turns(&self) -> u64
        ensures { result ≡ turns_of self.now.past }
    {
        match &self.ended {
            EndedTurns::Kept(journal) => journal.len() as u64,
            EndedTurns::Counted(turns) => *turns,
        }
    }

    /// The turns that have ended. None exactly where the match keeps no journal.
    pub fn journal(&self) -> Option<&Journal>
        ensures some { IfSome result (λ journal. journal_of self.now.past ≡ Some journal.now) }
        ensures none { IfNone result (journal_of self.now.past ≡ None) }
    {
        match &self.ended {
            EndedTurns::Kept(journal) => Some(journal),
            EndedTurns::Counted(_) => None,
        }
    }

    /// The match as a script: the canonical text of its map and its turns (`script_of`), which gives another match the
    /// same map and the same turns where the text is within the limits of an input (`ReadsAs`). None exactly where the match
    /// keeps no journal, which takes no memory.
    pub fn script(&self, alloc: Global) -> Result<Option<Bytes>, NoMemory>
        ensures text { IfOk result (λ text. text ≡ script_of self.now) }
        ensures reads_back { OnOk result ((journal : List (List (List Post))) → journal_of self.now.past ≡ Some journal
            → IsWithinLimits (canon_script self.now.map journal) → ReadsAs self.now.map journal (canon_script self.now.map journal)) }
        ensures kept { OnErr result (IsSome (journal_of self.now.past)) }
    {
        match &self.ended {
            EndedTurns::Kept(journal) => {
                let mut text = write_map(alloc, self.version.map())?;
                push_turns(alloc, &mut text, self.version.map(), journal.as_slice())?;
                Ok(Some(text))
            }
            EndedTurns::Counted(_) => Ok(None),
        }
    }
}

/// The journal that begins anew on a version, where so many turns have ended.
fn begun_anew(alloc: Global, version: &Version, turns: u64) -> Result<Journal, NoMemory>
    ensures journal { IfOk result (λ journal. journal ≡ begun_anew version.now.map version.now.standing turns) }
    ensures callers { OnOk result (turns ≢ 0 → 1 ≤ version.now.map.callers) }
{
    let mut journal = Journal::new(alloc);
    if turns > 0 {
        let turn = adding_turn(alloc, version)?;
        journal.push(turn)?;
    }
    Ok(journal)
}

/// Appends the canonical text of turns, from turn 1 on.
fn push_turns(
    alloc: Global,
    text: &mut Bytes,
    map: &MapSpec,
    turns: &[TurnPosts],
) -> Result<(), NoMemory>
    requires lines { All (HaveLines map.now.version) turns.now }
    ensures text { OnOk result (text.new ≡ text.old ++ canon_turns map.now 1 turns.now) }
    ensures values { OnOk result (All ArePostValues turns.now) }
{
    for (before, posts) in turns.iter().enumerate() {
        let turn = write_journal(alloc, map, before as u64 + 1, posts)?;
        text.extend(turn.as_slice())?;
    }
    Ok(())
}
