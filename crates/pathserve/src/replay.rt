//! Scripts that are answered turn by turn: each turn's text is written once its end line was read.
ghost use Rattle.std.specs.Prelude.{◌≡◌, ◌<◌, ◌≤◌, ◌^◌, ℕ, IfOk, IsErrOf, OnOk, length};
ghost use denote.Param.Send.{IsSync};
ghost use Rattle.io_edges.specs.Faults.{Rose};
ghost use Rattle.turn_core.specs.Notes.{AreNotes};
ghost use Rattle.turn_core.specs.Solving.{AreAnswersTo};
ghost use Rattle.script_text.specs.Pushed.{item_of};
ghost use Rattle.match_play.specs.Grounds.{Becomes, FitsItem, TakesItem, said_of};
ghost use Rattle.pathserve.specs.Output.{ReplaysTold, Says};
ghost use Rattle.pathserve.specs.Runs.{RunsScript};
ghost use Rattle.pathserve.specs.inner.Writing.{WritesSome};

use crate::reasons::Reason;
use crate::scripts::stop_at;
use crate::status::Status;
use crate::teams::Team;
use crate::writing::{status_of, write_all};
use grid_versions::Version;
use io_edges::{Gate, Sink, Source, WriteRefusal};
use match_play::{MatchProgress, play_item};
use nav_types::{Bytes, NoMemory};
use path_workers::{PoolCache, Workers};
use script_text::{ScriptItem, ScriptReader};
use std::alloc::Global;
use std::thread::Threads;
use turn_core::{Answerer, Jobs, NotedAnswers, Report};

/// Who answers the turns of a script, what is told beside the answers, and the pools that are kept from turn to turn.
#[derive(Drop)]
pub struct Reporter<'a, R, G> {
    pub rt: &'a R,
    pub workers: Workers<'a, G>,
    pub report: Report,
    pub pool_cache: PoolCache,
}

/// Answers a script turn by turn: the text of a turn, with what the report tells beside the answers, is written as one
/// piece when its end line was read. It waits for nobody. What was written is the output text of the input (`IsOut`)
/// where the reading of it stops, and else a beginning of that (`IsBeginning`).
///
/// The reporter's workers answer the jobs of a turn, and each passes their gate once before it solves a job. The text is
/// the same for any number of them. It returns where the gate returns.
///
/// `why` has at the end what it has behind `run`.
pub fn run_replay<R: Threads + Sync, S: Source, K: Sink, G: Gate + Sync>(
    alloc: Global,
    reporter: Reporter<'_, R, G>,
    source: &mut S,
    sink: &mut K,
    why: &mut Option<Reason>,
) -> Status
    ensures run { RunsScript (S.left source.old) (S.left source.new) (S.faults source.old) (S.faults source.new)
        (K.kept sink.old) (K.kept sink.new) (K.faults sink.old) (K.faults sink.new) why.new result }
    ensures told { ReplaysTold reporter.entry.report (S.left source.old) (S.left source.new) (K.kept sink.old)
        (K.kept sink.new) result }
{
    let Reporter {
        rt,
        workers,
        report,
        pool_cache,
    } = reporter;
    let mut team = Team {
        pool_cache,
        run: move |alloc: Global, pool_cache: PoolCache, version: &Version, jobs: &Jobs, report: Report| -> (
            PoolCache,
            Result<NotedAnswers, NoMemory>,
        )
            requires { IsSync R.row × IsSync G.row × (length jobs.now < 2 ^ 32) }
            ensures { IfOk result.1 (λ noted. AreAnswersTo version.now.map version.now.standing jobs.now noted.answers
                × AreNotes version.now.map version.now.standing report jobs.now noted.notes) }
        { workers.answer_in(rt, alloc, pool_cache, version, jobs, report) },
    };
    replay_by(alloc, &mut team, report, source, sink, why)
}

/// Answers a script turn by turn, by someone who takes the jobs of each turn.
fn replay_by<A: Answerer, S: Source, K: Sink>(
    alloc: Global,
    answerer: &mut A,
    report: Report,
    source: &mut S,
    sink: &mut K,
    why: &mut Option<Reason>,
) -> Status
    requires takes { (count : ℕ) → count < 2 ^ 32 → A.takes answerer.old count }
    ensures run { RunsScript (S.left source.old) (S.left source.new) (S.faults source.old) (S.faults source.new)
        (K.kept sink.old) (K.kept sink.new) (K.faults sink.old) (K.faults sink.new) why.new result }
    ensures told { ReplaysTold report (S.left source.old) (S.left source.new) (K.kept sink.old) (K.kept sink.new) result }
{
    *why = None;
    let Ok(mut reader) = ScriptReader::new(alloc) else {
        return Status::NoMemory;
    };
    let mut progress = MatchProgress::Nothing;
    'items: loop {
        match reader.next_item(alloc, source) {
            Ok(Some(item)) => match write_item(alloc, answerer, report, &mut progress, item, sink) {
                Ok(()) => {}
                Err(refusal) => return status_of(refusal),
            },
            Ok(None) => return Status::Done,
            Err(fault) => return stop_at(alloc, sink, &reader, fault, why),
        }
    }
}

/// Plays an item, and writes its text. Nothing is written for a part of the map.
fn write_item<A: Answerer, K: Sink>(
    alloc: Global,
    answerer: &mut A,
    report: Report,
    progress: &mut MatchProgress,
    item: ScriptItem,
    sink: &mut K,
) -> Result<(), WriteRefusal>
    requires fits { FitsItem progress.old item }
    requires takes { TakesItem (A.takes answerer.old) item }
    ensures written { WritesSome (λ text. Says report (said_of progress.old) (item_of item) text (said_of progress.new))
        (K.kept sink.old) (K.kept sink.new) result }
    ensures progress { OnOk result (Becomes progress.old item progress.new) }
    ensures later { K.faults sink.old ≤ K.faults sink.new }
    ensures fault { IsErrOf result WriteRefusal.Failed → Rose (K.faults sink.old) (K.faults sink.new) }
    ensures takes { (count : ℕ) → A.takes answerer.old count → A.takes answerer.new count }
{
    let mut text = Bytes::new(alloc);
    match play_item(alloc, answerer, report, progress, item, &mut text) {
        Ok(()) => write_all(sink, text.as_slice()),
        Err((NoMemory, _item)) => Err(WriteRefusal::NoMemory),
    }
}
