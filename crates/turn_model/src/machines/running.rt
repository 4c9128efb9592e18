//! Turns that are ready to run, and the running one.
ghost use Rattle.std.specs.Prelude.{◌≡◌, ◌+◌, ◌<◌, ◌≤◌, [], IfOk, None, Some, length, replicate, slice_set};
ghost use Rattle.std.specs.Prelude.{vec_capacity};
ghost use Rattle.posts.specs.Posts.{jobs};
ghost use Rattle.path_service.specs.machine.Table.{why_unanswered};
ghost use Rattle.path_service.specs.machine.Effects.{begun, known};
ghost use Rattle.turn_model.specs.inner.Runs.{run_of, version_for_next, posts_held, answers_held, with_claim, IsHeldOn, HasUnclaimed};
ghost use Rattle.turn_model.specs.inner.Runs.{HasJob, HasPlace, AnswersHeld, PutsAnswer};

use grid_versions::Version;
use nav_types::{NoMemory, Sequence};
use posts::{Answer, Answers, TurnPosts};
use std::alloc::Global;
use turn_core::{ReadyTurn, solve};

/// A turn that is ready to run or runs: how many of its jobs are claimed, and the answer to each, where there is one.
#[derive(Drop)]
pub(crate) struct RunningTurn {
    pub ready: ReadyTurn,
    pub claimed: u64,
    pub answers: Vec<Option<Answer>>,
}

/// The turn as it begins to run on a version: no job is claimed, and none is answered.
pub(crate) fn begin(
    alloc: Global,
    version: &Version,
    posts: TurnPosts,
) -> Result<RunningTurn, NoMemory>
    ensures held { IfOk result (λ run. IsHeldOn version.now run) }
    ensures run { IfOk result (λ run. run_of run ≡ begun posts) }
    ensures posts { IfOk result (λ run. run.ready.turn ≡ posts) }
{
    let ready = ReadyTurn::new(alloc, version, posts)?;
    let answers = blank_answers(alloc, ready.jobs().len())?;
    Ok(RunningTurn {
        ready,
        claimed: 0,
        answers,
    })
}

/// The version on which the next turn stands.
pub(crate) fn version_for_next<'a>(
    version: &'a Version,
    running: &'a Option<RunningTurn>,
) -> &'a Version
    ensures map { result.now.map ≡ (version_for_next version.now running.now).map }
    ensures standing { result.now.standing ≡ (version_for_next version.now running.now).standing }
{
    match running {
        None => version,
        Some(run) => run.ready.version(),
    }
}

/// How many posts a caller has in a turn; none where there is no turn.
pub(crate) fn post_count(turn: &Option<RunningTurn>, caller: usize) -> u64
    ensures { result ≡ length (posts_held turn.now caller) }
{
    let Some(run) = turn else {
        return 0;
    };
    match run.ready.posts().get(caller) {
        Some(posts) => posts.len() as u64,
        None => 0,
    }
}

/// No answer to each of so many jobs.
fn blank_answers(alloc: Global, count: usize) -> Result<Vec<Option<Answer>>, NoMemory>
    ensures { IfOk result (λ answers. answers.items ≡ replicate count None) }
{
    let mut answers = Vec::new(alloc);
    for _job in 0..count {
        answers.push(None)?;
    }
    Ok(answers)
}

/// Claims the least job that is not claimed.
pub(crate) fn claim(running: &mut Option<RunningTurn>)
    requires { HasUnclaimed running.old }
    ensures { running.new ≡ with_claim running.old }
{
    if let Some(run) = running {
        claim_next(run);
    }
}

/// Claims the next job of a turn.
fn claim_next(run: &mut RunningTurn)
    requires { run.old.claimed < length (jobs run.old.ready.turn) }
    ensures { run.new ≡ record run.old { claimed = run.old.claimed + 1 } }
{
    if run.claimed < run.ready.jobs().len() as u64 {
        run.claimed += 1;
    }
}

/// The answer to a job of the running turn.
pub(crate) fn answer_to(
    alloc: Global,
    running: &Option<RunningTurn>,
    job: u64,
) -> Result<Answer, NoMemory>
    requires { HasJob running.now job }
    ensures { IfOk result (AnswersHeld running.now job) }
{
    let Some(run) = running else {
        unreachable!();
    };
    let request = &run.ready.jobs().as_slice()[job as usize];
    solve(alloc, run.ready.version(), request)
}

/// Puts the answer to a job of the running turn.
pub(crate) fn put_answer(running: &mut Option<RunningTurn>, job: u64, answer: Answer)
    requires { HasPlace running.old job }
    ensures { PutsAnswer running.old running.new job answer }
{
    if let Some(run) = running {
        put_at(&mut run.answers, job, answer);
    }
}

/// Puts the answer in the place of its job.
fn put_at(answers: &mut Vec<Option<Answer>>, job: u64, answer: Answer)
    requires { job < length answers.old.items }
    ensures { answers.new.items ≡ slice_set answers.old.items job (Some answer) }
{
    answers[job as usize] = Some(answer);
}

/// Room for the answers to all jobs of the running turn.
pub(crate) fn answer_room(
    alloc: Global,
    running: &Option<RunningTurn>,
) -> Result<Vec<Answer>, NoMemory>
    ensures empty { IfOk result (λ room. room.items ≡ []) }
    ensures room { IfOk result (λ room. length (answers_held running.now) ≤ vec_capacity room) }
{
    match running {
        None => Ok(Vec::new(alloc)),
        Some(run) => Ok(Vec::with_capacity(alloc, run.answers.len())?),
    }
}

/// The answers to all jobs, moved into the room that was taken for them.
pub(crate) fn given_answers(answers: Vec<Option<Answer>>, room: Vec<Answer>) -> Answers
    requires given { why_unanswered 0 answers.items ≡ None }
    requires empty { room.items ≡ [] }
    requires room { length answers.items ≤ vec_capacity room }
    ensures { result ≡ known answers.items }
{
    let mut given = room;
    for answer in answers {
        let Some(answer) = answer else {
            unreachable!();
        };
        given.push_reserved(answer);
    }
    Sequence::from(given)
}
