//! Matches made out of numbers, answered and summed up.
ghost use Rattle.std.specs.Prelude.{◌≡◌, ◌≢◌, ◌<◌, ◌≤◌, ◌^◌, ℕ, IfOk, length};
ghost use Rattle.std.specs.List.{AllByRecursion};
ghost use denote.Param.Send.{IsSync};
ghost use Rattle.nav_types.specs.declared.limits.TheConstants.{MAX_WORKERS};
ghost use Rattle.posts.specs.Posts.{jobs};
ghost use Rattle.turn_core.specs.Notes.{AreNotes};
ghost use Rattle.turn_core.specs.Solving.{AreAnswersTo};
ghost use Rattle.turn_core.specs.Turns.{IsOneThread};
ghost use Rattle.pathserve.specs.Output.{IsSummary, MakesTold, ComesByMaking};
ghost use Rattle.pathserve.specs.Runs.{WritesTo};

use crate::status::Status;
use crate::teams::Team;
use crate::writing::{status_of, write_text};
use answer_text::summary_text;
use grid_versions::{MapSpec, Version};
use io_edges::{Gate, Sink};
use made_match::{Made, make_script};
use nav_types::{Bytes, NoMemory};
use path_workers::{PoolCache, Workers};
use std::alloc::Global;
use std::thread::Threads;
use turn_core::{
    AllReplies, Answerer, Jobs, Journal, NotedAnswers, NotedTurn, Report, bare_version, noted_turn,
};

/// Makes a match out of a number ([`make_script`]), answers it turn by turn, and writes its summary (`IsSummary`) as one
/// piece. It waits for nobody, and returns where the gate returns.
///
/// So many workers, 1 to 64, answer the jobs of a turn, and each passes the gate once before it solves a job. The
/// summary is the same for any number of them.
pub fn run_make<R: Threads + Sync, K: Sink, G: Gate + Sync>(
    rt: &R,
    alloc: Global,
    seed: u64,
    workers: u8,
    sink: &mut K,
    gate: &G,
) -> Status
    requires some { 1 ≤ workers }
    requires few { workers ≤ MAX_WORKERS }
    ensures told { MakesTold seed (K.kept sink.old) (K.kept sink.new) result }
    ensures status { ComesByMaking (K.faults sink.old) (K.faults sink.new) result }
    ensures usage { result ≢ Status.Usage }
    ensures sink { WritesTo (K.kept sink.old) (K.kept sink.new) (K.faults sink.old) (K.faults sink.new) result }
    ensures read { result ≢ Status.ReadFault }
{
    let workers = Workers::new(workers, gate);
    let mut team = Team {
        pool_cache: PoolCache::new(alloc),
        run: move |alloc: Global, pool_cache: PoolCache, version: &Version, jobs: &Jobs, report: Report| -> (
            PoolCache,
            Result<NotedAnswers, NoMemory>,
        )
            requires { IsSync R.row × IsSync G.row × (length jobs.now < 2 ^ 32) }
            ensures { IfOk result.1 (λ noted. AreAnswersTo version.now.map version.now.standing jobs.now noted.answers
                × AreNotes version.now.map version.now.standing report jobs.now noted.notes) }
        { workers.answer_in(rt, alloc, pool_cache, version, jobs, report) },
    };
    match write_text(sink, summary(alloc, &mut team, seed)) {
        Ok(()) => Status::Done,
        Err(refusal) => status_of(refusal),
    }
}

/// The summary of the match that a number makes.
fn summary<A: Answerer>(alloc: Global, answerer: &mut A, seed: u64) -> Result<Bytes, NoMemory>
    requires takes { (count : ℕ) → count < 2 ^ 32 → A.takes answerer.old count }
    ensures { IfOk result (IsSummary seed) }
{
    let Made { map, journal } = make_script(alloc, seed)?;
    let replies = all_replies(alloc, answerer, &map, journal)?;
    summary_text(alloc, &replies)
}

/// The replies to a journal on a map, turn by turn, by someone who takes the jobs of each turn.
fn all_replies<A: Answerer>(
    alloc: Global,
    answerer: &mut A,
    map: &MapSpec,
    journal: Journal,
) -> Result<AllReplies, NoMemory>
    requires few { AllByRecursion (λ turn. length (jobs turn) < 2 ^ 32) journal }
    requires takes { (count : ℕ) → count < 2 ^ 32 → A.takes answerer.old count }
    ensures { IfOk result (IsOneThread map.now journal) }
{
    let mut all = Vec::with_capacity(alloc, journal.len())?;
    let mut version = bare_version(alloc, map)?;
    for posts in journal.into_items() {
        let NotedTurn { replies, after, .. } = noted_turn(
            alloc,
            answerer,
            &version,
            posts,
            Report::Answers,
        )?;
        all.push_reserved(replies);
        version = after;
    }
    Ok(AllReplies::from(all))
}
