//! Who answers the jobs of a turn, and a turn that was answered.
ghost use Rattle.std.specs.Prelude.{◌≡◌, ℕ, IfErr, IfOk, length};
ghost use Rattle.posts.specs.Posts.{jobs};
ghost use Rattle.turn_core.specs.Notes.{AreNotes};
ghost use Rattle.turn_core.specs.Turns.{after_turn, IsTurnTold};

use crate::ready_turns::{AnsweredTurn, ReadyTurn};
use grid_versions::Version;
use nav_types::NoMemory;
use posts::{Answers, Jobs, Notes, Report, TurnPosts, TurnReplies};
use std::alloc::Global;

/// The answers to the jobs of a turn, and their notes, each in the place of its job.
#[derive(Debug, Drop)]
pub struct NotedAnswers {
    pub answers: Answers,
    pub notes: Notes,
}

/// Who answers the jobs of a turn, on one thread or on many.
pub trait Answerer {
    ghost use Rattle.std.specs.Prelude.{ℕ, IfOk, length};
    ghost use Rattle.turn_core.specs.Notes.{AreNotes};
    ghost use Rattle.turn_core.specs.Solving.{AreAnswersTo};

    // So many jobs may be asked for at once.
    ghost takes: { Self → ℕ → Type 0 };

    /// The answers to the jobs on a version, each in the place of its job (`AreAnswersTo`), with what the report tells of
    /// each (`AreNotes`). It refuses for want of memory alone, and can be asked again.
    fn noted_answers(
        &mut self,
        alloc: Global,
        version: &Version,
        jobs: &Jobs,
        report: Report,
    ) -> Result<NotedAnswers, NoMemory>
        requires takes { takes self.old (length jobs.now) }
        ensures answers { IfOk result (λ noted. AreAnswersTo version.now.map version.now.standing jobs.now noted.answers) }
        ensures notes { IfOk result (λ noted. AreNotes version.now.map version.now.standing report jobs.now noted.notes) }
        ensures takes { (count : ℕ) → takes self.old count → takes self.new count };
}

/// A turn that was answered: its posts, the replies to them, the notes of its requests, each in the place of its job, and
/// the version after it.
#[derive(Drop)]
pub struct NotedTurn {
    pub posts: TurnPosts,
    pub replies: TurnReplies,
    pub notes: Notes,
    pub after: Version,
}

/// Has someone answer a turn on the version before it (`IsTurnTold`), with what the report tells of each request. It
/// refuses for want of memory alone, and hands the posts back.
pub fn noted_turn<A: Answerer>(
    alloc: Global,
    answerer: &mut A,
    version: &Version,
    posts: TurnPosts,
    report: Report,
) -> Result<NotedTurn, (NoMemory, TurnPosts)>
    requires takes { A.takes answerer.old (length (jobs posts)) }
    ensures told { IfOk result (λ turn. IsTurnTold version.now.map version.now.standing posts turn.replies) }
    ensures notes { IfOk result (λ turn. AreNotes version.now.map
        (after_turn version.now.map version.now.standing posts) report (jobs posts) turn.notes) }
    ensures posts { IfOk result (λ turn. turn.posts ≡ posts) }
    ensures map { IfOk result (λ turn. turn.after.map ≡ version.now.map) }
    ensures standing { IfOk result (λ turn. turn.after.standing
        ≡ after_turn version.now.map version.now.standing posts) }
    ensures back { IfErr result (λ refused. refused.1 ≡ posts) }
    ensures takes { (count : ℕ) → A.takes answerer.old count → A.takes answerer.new count }
{
    let ready = ReadyTurn::new(alloc, version, posts)?;
    match answerer.noted_answers(alloc, ready.version(), ready.jobs(), report) {
        Ok(NotedAnswers { answers, notes }) => {
            let (posts, AnsweredTurn { replies, after }) = ready.answered(answers);
            Ok(NotedTurn {
                posts,
                replies,
                notes,
                after,
            })
        }
        Err(NoMemory) => Err((NoMemory, ready.into_parts().0)),
    }
}
