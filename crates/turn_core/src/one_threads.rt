//! One thread that answers turns.
ghost use Rattle.std.specs.Prelude.{◌≡◌, IfOk};
ghost use Rattle.turn_core.specs.Turns.{after_turn, IsTurnTold};

use crate::answerers::{Answerer, NotedAnswers};
use crate::edited_turns::EditedTurn;
use crate::ready_turns::AnsweredTurn;
use crate::solving::Solver;
use grid_versions::Version;
use jump_search::Pool;
use nav_types::NoMemory;
use posts::{Answers, Jobs, Noted, Notes, Report, TurnPosts};
use std::alloc::Global;

/// One thread that answers turns, one after another. From turn to turn it keeps the room of its searches (`Pool`), unless
/// one long search has made that large (`Pool::is_small`). What it answers does not depend on what it answered before.
///
/// ```
/// let mut thread = OneThread::new();
/// let mut version = bare_version(alloc, &map)?;
/// for posts in journal.as_slice() {
///     let AnsweredTurn { replies, after } = thread.answer_turn(alloc, &version, posts)?;
///     all.push(replies)?;
///     version = after;
/// }
/// ```
#[derive(Drop)]
pub struct OneThread {
    room: Option<Pool>,
}

impl OneThread {
    /// A thread without a room, which it makes when it is first asked. It takes no memory.
    pub fn new() -> OneThread {
        OneThread { room: None }
    }

    /// Answers a turn on the version before it (`IsTurnTold`), as [`answer_turn`](crate::answer_turn) does. It refuses for
    /// want of memory alone, and can be asked again.
    pub fn answer_turn(
        &mut self,
        alloc: Global,
        version: &Version,
        turn: &TurnPosts,
    ) -> Result<AnsweredTurn, NoMemory>
        ensures map { IfOk result (λ answered. answered.after.map ≡ version.now.map) }
        ensures standing { IfOk result (λ answered.
            answered.after.standing ≡ after_turn version.now.map version.now.standing turn.now) }
        ensures told { IfOk result (λ answered. IsTurnTold version.now.map version.now.standing turn.now answered.replies) }
    {
        let edited = EditedTurn::new(alloc, version, turn)?;
        let noted = self.noted_answers(alloc, edited.version(), edited.jobs(), Report::Answers)?;
        Ok(edited.answered(noted.answers))
    }

    /// One who answers on a version in the room that is kept, or in a new one.
    fn solver<'v>(
        &mut self,
        alloc: Global,
        version: &'v Version,
        report: Report,
    ) -> Result<Solver<'v>, NoMemory>
        ensures { IfOk result (λ solver. solver ≡ record { state = version.now; report = report }) }
    {
        match self.room.take() {
            Some(room) => Ok(Solver::in_pool(version, report, room)),
            None => Solver::new(alloc, version, report),
        }
    }

    /// Keeps a room for the next turn, where it is small.
    fn keep(&mut self, room: Pool) {
        if room.is_small() {
            self.room = Some(room);
        }
    }
}

impl Answerer for OneThread {
    ghost use Rattle.std.specs.Prelude.{⊤};

    ghost takes = { λ thread count. ⊤ };

    fn noted_answers(
        &mut self,
        alloc: Global,
        version: &Version,
        jobs: &Jobs,
        report: Report,
    ) -> Result<NotedAnswers, NoMemory> {
        let requests = jobs.as_slice();
        let mut answers = Vec::with_capacity(alloc, requests.len())?;
        let mut notes = Vec::with_capacity(alloc, requests.len())?;
        let mut solver = self.solver(alloc, version, report)?;
        for job in requests {
            let Noted { answer, note } = solver.solve(alloc, job)?;
            answers.push_reserved(answer);
            notes.push_reserved(note);
        }
        self.keep(solver.into_pool());
        Ok(NotedAnswers {
            answers: Answers::from(answers),
            notes: Notes::from(notes),
        })
    }
}
