//! Answers, from the order in which they were made into the places of their jobs.
ghost use Rattle.std.specs.Prelude.{◌≡◌, ◌<◌, All, IfOk, List, length, slice_set};
ghost use Rattle.nav_types.specs.Counting.{Lists};
ghost use Rattle.posts.specs.declared.posts.Request.{Request};
ghost use Rattle.posts.specs.Maps.{Map};
ghost use Rattle.posts.specs.declared.notes.Report.{Report};
ghost use Rattle.turn_core.specs.Words.{Standing};
ghost use Rattle.turn_core.specs.Solving.{AreAnswersTo};
ghost use Rattle.turn_core.specs.Notes.{AreNotes};
ghost use Rattle.path_workers.specs.inner.Working.{job_numbers, AnswerTheirJobs};
ghost use Rattle.path_workers.specs.inner.Placing.{IsBelow, answer_of, note_of, placed};

use nav_types::{NoMemory, Sequence};
use std::alloc::Global;
use turn_core::{Answer, Answers, Note, Noted, NotedAnswers, Notes};

/// The answer to a job with its note, and the job's number.
#[derive(Drop)]
pub(crate) struct Answered {
    pub job: u32,
    pub noted: Noted,
}

/// Places for the answers to jobs and for their notes.
#[derive(Drop)]
pub(crate) struct Places {
    pub answers: Vec<Answer>,
    pub notes: Vec<Note>,
}

/// So many places, made before the first job is drawn, so that no answer that was found is lost for want of its place.
pub(crate) fn blank_places(alloc: Global, count: usize) -> Result<Places, NoMemory>
    ensures answers { IfOk result (λ places. length places.answers.items ≡ count) }
    ensures notes { IfOk result (λ places. length places.notes.items ≡ count) }
{
    let mut answers = Vec::with_capacity(alloc, count)?;
    let mut notes = Vec::with_capacity(alloc, count)?;
    for _ in 0..count {
        answers.push_reserved(Answer::Nowhere);
        notes.push_reserved(Note::Nothing);
    }
    Ok(Places { answers, notes })
}

/// The answers and the notes in the places of their jobs, whose numbers are those of the places, each once. It takes no
/// memory.
pub(crate) fn in_order(places: Places, answered: Sequence<Answered>) -> NotedAnswers
    requires jobs { Lists (λ job. job < length places.answers.items) (job_numbers answered) }
    requires notes { length places.notes.items ≡ length places.answers.items }
    ensures answers { (map : Map) (standing : Standing) (report : Report) (jobs : List Request)
        → length jobs ≡ length places.answers.items → AnswerTheirJobs map standing report jobs answered
        → AreAnswersTo map standing jobs result.answers }
    ensures notes { (map : Map) (standing : Standing) (report : Report) (jobs : List Request)
        → length jobs ≡ length places.answers.items → AnswerTheirJobs map standing report jobs answered
        → AreNotes map standing report jobs result.notes }
{
    let Places { answers, notes } = placed(places, answered.into_items());
    NotedAnswers {
        answers: Answers::from(answers),
        notes: Notes::from(notes),
    }
}

/// The places with each answer, and each note, in that of its job.
fn placed(mut places: Places, mut answered: Vec<Answered>) -> Places
    requires answers { All (IsBelow (length places.answers.items)) answered.items }
    requires notes { All (IsBelow (length places.notes.items)) answered.items }
    ensures answers { result.answers.items ≡ placed answer_of places.answers.items answered.items }
    ensures notes { result.notes.items ≡ placed note_of places.notes.items answered.items }
{
    while let Some(next) = answered.pop() {
        place(&mut places, next);
    }
    places
}

/// Puts one answer, and its note, in the place of its job.
fn place(places: &mut Places, one: Answered)
    requires answers { IsBelow (length places.old.answers.items) one }
    requires notes { IsBelow (length places.old.notes.items) one }
    ensures answers { places.new.answers.items ≡ slice_set places.old.answers.items one.job one.noted.answer }
    ensures notes { places.new.notes.items ≡ slice_set places.old.notes.items one.job one.noted.note }
{
    let Answered { job, noted } = one;
    let Noted { answer, note } = noted;
    places.answers[job as usize] = answer;
    places.notes[job as usize] = note;
}
