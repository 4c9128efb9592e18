//! Matches.
ghost use Rattle.std.specs.Prelude.{◌≡◌, ◌≢◌, ◌↔◌, [], Err, IfOk, IsFalse, IsTrue};
ghost use Rattle.match_play.specs.declared.faults.MatchFault.TheVariants.{Ended, NoMemory as no_memory};
ghost use Rattle.match_play.specs.Playing.{FeedPlays, FinishPlays, HasPlayed, HasTaken, IsOver, IsView, TakesAll, TellsWhy, bad_cause, said_of};

use crate::faults::MatchFault;
use crate::match_states;
use crate::states::{MatchProgress, MatchState, NextItem};
use crate::views::view_of;
use grid_versions::Version;
use nav_types::{Bytes, NoMemory};
use posts::Report;
use script_text::{Cause, PushedScript};
use std::alloc::Global;
use std::marker::Model;
use std::mem;
use turn_core::OneThread;

/// A match that a game plays by the text of a script.
///
/// ```
/// let mut game = Match::open(alloc, Report::Answers);
/// let mut left = bytes;
/// game.feed(alloc, &mut left)?;
/// show(game.waiting());
/// game.clear();
/// ```
#[derive(Drop)]
pub struct Match {
    match_state: MatchState,
    thread: OneThread,
}

impl Model for Match {
    ghost use Rattle.match_play.specs.declared.states.MatchState.{MatchState};
    ghost use Rattle.match_play.specs.contracts.states.MatchState.{the_row as course_row};
    ghost use Rattle.match_play.specs.inner.Fitting.{IsFit};

    ghost Value = { MatchState };

    ghost coded = { course_row.coded };

    ghost view = { λ m. m.match_state };

    ghost invariant = { λ m. IsFit m.match_state };
}

impl Match {
    /// A match of whose script no byte has come, and what it tells beside the answers.
    pub fn open(alloc: Global, report: Report) -> Match
        ensures played { HasPlayed result [] [] }
        ensures unended { IsFalse result.ended }
        ensures report { result.report ≡ report }
        ensures waiting { result.waiting ≡ [] }
    {
        Match {
            match_state: MatchState {
                report,
                script: PushedScript::new(alloc),
                ended: false,
                next_item: NextItem::Lines,
                progress: MatchProgress::Nothing,
                waiting: Bytes::new(alloc),
            },
            thread: OneThread::new(),
        }
    }

    /// Takes the next bytes of the script, which may be cut anywhere, and tells the text of each turn whose end line has
    /// come. What is left of the bytes is behind what was taken: nothing, unless there was no memory.
    ///
    /// With no refusal, what the match has told is the text of what the whole lines give (`IsLinesText`). At a bad line, or
    /// one that is too long, the match stops: what it has told is the output text of the script, whatever comes behind
    /// (`IsStopText`), and each later call answers the same. Where there was no memory nothing is lost: the call may come
    /// again with the bytes that are left. Behind a call of `finish` it answers that the script has ended, and nothing is
    /// taken or told.
    pub fn feed(&mut self, alloc: Global, bytes: &mut &[u8]) -> Result<(), MatchFault>
        ensures plays { FeedPlays self.old self.new bytes.old.now bytes.new.now result }
        ensures all { TakesAll bytes.new.now result }
        ensures ended { (result ≡ Err Ended) ↔ IsTrue self.old.ended }
        ensures kept { result ≡ Err Ended → (self.new ≡ self.old) × (bytes.new.now ≡ bytes.old.now) }
        ensures stays { self.new.ended ≡ self.old.ended }
        ensures why { TellsWhy result (bad_cause self.new) }
    {
        match_states::feed(alloc, &mut self.thread, &mut self.match_state, bytes)
    }

    /// Ends the script: it has no more bytes, as the end of its input tells `replay`. What stands behind the last newline
    /// is then a line, and a turn that has begun lacks its end line, which is bad.
    ///
    /// What the match has told is then the output text of exactly the bytes that it was fed with, and the answer says how
    /// they stop: with no refusal they are a whole script (`FinishTold`). Each later call of `feed` and `finish` answers
    /// that the script has ended. Where there was no memory nothing is lost: this call may come again, and none of `feed`.
    pub fn finish(&mut self, alloc: Global) -> Result<(), MatchFault>
        ensures plays { FinishPlays self.old self.new result }
        ensures ended { IsTrue self.new.ended }
        ensures over { result ≢ Err no_memory → IsOver self.new }
        ensures again { (result ≡ Err Ended) ↔ IsOver self.old }
        ensures kept { result ≡ Err Ended → self.new ≡ self.old }
        ensures why { TellsWhy result (bad_cause self.new) }
    {
        match_states::finish(alloc, &mut self.thread, &mut self.match_state)
    }

    /// Why the line is bad at which the match has stopped. None where it has met no bad line; after a call that answered
    /// `BadLine` there is a cause (`TellsWhy`). By the law [`crate::one_cause`] it is that of the first bad line of all that
    /// the match was fed with.
    pub fn cause(&self, alloc: Global) -> Result<Option<Cause>, NoMemory>
        ensures { IfOk result (λ why. why ≡ bad_cause self.now) }
    {
        match_states::cause(alloc, &self.match_state)
    }

    /// The text that was told and not taken yet.
    pub fn waiting(&self) -> &[u8]
        ensures { result.now ≡ self.now.waiting }
    {
        self.match_state.waiting.as_slice()
    }

    /// Gives the text that waits. None waits then.
    pub fn take(&mut self, alloc: Global) -> Bytes
        ensures text { result ≡ self.old.waiting }
        ensures taken { HasTaken self.old self.new }
    {
        mem::replace(&mut self.match_state.waiting, Bytes::new(alloc))
    }

    /// Lets go of the text that waits, and keeps its memory for what is told next.
    pub fn clear(&mut self)
        ensures { HasTaken self.old self.new }
    {
        self.match_state.waiting.clear();
    }

    /// What stands after the turns that were told, as a version of its own, to be asked beside the match: which cells are
    /// passable, regions and areas, and by `solve` and `flow_of` of `turn_core` paths and fields. It shares all that it has
    /// with the match's, which goes on meanwhile. None exactly where the map has not come.
    pub fn view(&self, alloc: Global) -> Result<Option<Version>, NoMemory>
        ensures { IfOk result (IsView (said_of self.now.progress)) }
    {
        view_of(alloc, &self.match_state.progress)
    }
}
