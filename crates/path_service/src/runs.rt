//! The running turn.
ghost use Rattle.std.specs.Prelude.{◌≡◌, ◌≤◌, ℕ, All, IfOk, Ok, length};
ghost use Rattle.nav_types.specs.declared.limits.TheConstants.{MAX_STAGED_POSTS as MOST};
ghost use Rattle.posts.specs.Posts.{jobs, post_count};
ghost use Rattle.grid_versions.specs.Versions.{map_state};
ghost use Rattle.turn_core.specs.Solving.{AreAnswersTo};
ghost use Rattle.turn_core.specs.ReadyTurns.{after_edits_of};
ghost use Rattle.path_service.specs.inner.Channels.{IsInRoom};
ghost use Rattle.path_service.specs.inner.Intakes.{HasTakenIn};
ghost use Rattle.path_service.specs.inner.Running.{version_for_next, HoldsRun};

use crate::channels::Channel;
use crate::intakes::{TurnIntake, next_turn};
use grid_versions::Version;
use io_edges::Gate;
use nav_types::NoMemory;
use std::alloc::Global;
use std::mem;
use std::snapshot::Snapshot;
use std::sync::Wait;
use std::thread::{Threads, join_mut};
use turn_core::{
    AnsweredTurn, Answerer, Answers, Posts, ReadyTurn, Report, TurnPosts, TurnReplies,
};

/// A running turn whose jobs are answered: its posts, the replies to them and the version after it.
#[derive(Drop)]
pub(crate) struct AnsweredRun {
    pub posts: TurnPosts,
    pub answers: Snapshot<Answers>,
    pub replies: TurnReplies,
    pub after: Version,
}

/// What came of running a turn beside the intake of the next.
#[derive(Drop)]
pub(crate) struct Beside {
    pub answers: Result<Answers, NoMemory>,
    pub intake: TurnIntake,
}

/// The answers to a turn, and the number of posts in the next.
#[derive(Drop)]
pub(crate) struct RunAndNext {
    pub answers: Answers,
    pub count: u64,
}

impl AnsweredRun {
    /// The turn with the answers to its jobs.
    pub(crate) fn new(ready: ReadyTurn, answers: Answers) -> AnsweredRun
        requires { AreAnswersTo ready.map (after_edits_of ready) (jobs ready.turn) answers }
        ensures posts { result.posts ≡ ready.turn }
        ensures answers { result.answers.value ≡ answers }
        ensures holds { HoldsRun (map_state ready.map ready.before) result }
    {
        let answered = Snapshot::of(&answers);
        let (posts, turn) = ready.answered(answers);
        let AnsweredTurn { replies, after } = turn;
        AnsweredRun {
            posts,
            answers: answered,
            replies,
            after,
        }
    }
}

/// The version on which the next turn stands: the one after the running turn, where there is one.
pub(crate) fn version_for_next<'a>(
    version: &'a Version,
    running: &'a Option<AnsweredRun>,
) -> &'a Version
    ensures map { result.now.map ≡ (version_for_next version.now running.now).map }
    ensures standing { result.now.standing ≡ (version_for_next version.now running.now).standing }
{
    match running {
        None => version,
        Some(run) => &run.after,
    }
}

/// What is taken in beside a turn that runs: the channels of the callers, what is pending, and the gate that is told of it.
#[derive(Drop)]
pub(crate) struct Incoming<'a, G> {
    pub channels: Vec<Channel>,
    pub all_pending: Vec<Posts>,
    pub gate: &'a G,
}

/// Has someone answer the jobs of a turn on its version, and beside that takes in the next turn, which stands on it. The
/// gate is then told of the posts of the next turn.
pub(crate) fn run_beside<A: Answerer + Send, G: Gate, R: Threads + Wait + Sync>(
    rt: &R,
    alloc: Global,
    answerer: &mut A,
    ready: &ReadyTurn,
    incoming: Incoming<'_, G>,
) -> Beside
    requires takes { A.takes answerer.old (length (jobs ready.now.turn)) }
    requires wide { length incoming.all_pending.items ≡ length incoming.channels.items }
    requires room { All IsInRoom incoming.channels.items }
    requires few { post_count incoming.all_pending.items ≤ MOST }
    ensures answers { IfOk result.answers
        (AreAnswersTo ready.now.map (after_edits_of ready.now) (jobs ready.now.turn)) }
    ensures intake { HasTakenIn ready.now.map (after_edits_of ready.now) incoming.entry.channels.items
        incoming.entry.all_pending.items result.intake }
    ensures takes { (count : ℕ) → A.takes answerer.old count → A.takes answerer.new count }
{
    let Incoming {
        mut channels,
        mut all_pending,
        gate,
    } = incoming;
    let version = ready.version();
    let asked = ready.jobs();
    let (answers, intake) = join_mut(
        rt,
        &mut || -> Result<Answers, NoMemory>
            requires { A.takes answerer.now (length asked.now) }
            ensures answers { IfOk result
                (AreAnswersTo version.entry.now.map version.entry.now.standing asked.entry.now) }
            ensures takes { (count : ℕ) → A.takes answerer.entry.now count → A.takes answerer.exit.now count }
        {
            let noted = answerer.noted_answers(alloc, version, asked, Report::Answers)?;
            Ok(noted.answers)
        },
        &mut || -> TurnIntake
            requires { (length all_pending.items ≡ length channels.items) × All IsInRoom channels.items
                × (post_count all_pending.items ≤ MOST) }
            ensures { HasTakenIn version.entry.now.map version.entry.now.standing channels.entry.items
                all_pending.entry.items result }
        {
            let channels = mem::replace(&mut channels, Vec::new(alloc));
            let all_pending = mem::replace(&mut all_pending, Vec::new(alloc));
            take_in(rt, alloc, gate, version, channels, all_pending)
        },
    );
    Beside { answers, intake }
}

/// Takes in the next turn on a version, and tells the gate of its posts.
fn take_in<G: Gate, R: Wait>(
    rt: &R,
    alloc: Global,
    gate: &G,
    version: &Version,
    channels: Vec<Channel>,
    all_pending: Vec<Posts>,
) -> TurnIntake
    requires wide { length all_pending.items ≡ length channels.items }
    requires room { All IsInRoom channels.items }
    requires few { post_count all_pending.items ≤ MOST }
    ensures { HasTakenIn version.now.map version.now.standing channels.items all_pending.items result }
{
    let intake = next_turn(rt, alloc, version, channels, all_pending);
    if let Ok(count) = &intake.count {
        gate.staged(*count);
    }
    intake
}

/// Both, where there was memory for both.
pub(crate) fn both(
    answers: Result<Answers, NoMemory>,
    count: Result<u64, NoMemory>,
) -> Result<RunAndNext, NoMemory>
    ensures answers { IfOk result (λ both. answers ≡ Ok both.answers) }
    ensures count { IfOk result (λ both. count ≡ Ok both.count) }
{
    let Ok(answers) = answers else {
        return Err(NoMemory);
    };
    let Ok(count) = count else {
        return Err(NoMemory);
    };
    Ok(RunAndNext { answers, count })
}
