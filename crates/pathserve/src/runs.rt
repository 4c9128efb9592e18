//! The program as one call: words, a source and a sink in, a status out.
ghost use Rattle.std.specs.Prelude.{◌≡◌, ◌↔◌, ℕ, List, Some, None};
ghost use Rattle.pathserve.specs.declared.commands.Command.TheVariants.{Replay, Serve, Make};
ghost use Rattle.pathserve.specs.Commands.{command_of};
ghost use Rattle.script_text.specs.Script.{reading, beginning};
ghost use Rattle.posts.specs.declared.notes.Report.{Report};
ghost use Rattle.pathserve.specs.Output.{ReplaysTold, ComesByStop, MakesTold, ComesByMaking};
ghost use Rattle.pathserve.specs.Serving.{ServesTold};
ghost use Rattle.pathserve.specs.Runs.{ReadsFrom, WritesTo, NamesReason};

use crate::commands::{Command, NotWords, read_words};
use crate::reasons::Reason;
use crate::replay::{Reporter, run_replay};
use crate::serving::run_serve;
use crate::status::Status;
use crate::summing::run_make;
use io_edges::{Gate, Sink, Source};
use nav_types::Words;
use path_workers::{PoolCache, Workers};
use std::alloc::Global;
use std::sync::Wait;
use std::thread::Threads;

/// All that the program does: reads the words, and does what they ask for. Where the words are not in the grammar the
/// status is Usage, and nothing is read or written. `make` reads nothing. Under `serve` it may wait.
///
/// At every status what was read and what is left in the source are what was left in it before, the sink keeps what it
/// took behind what it had kept, and neither count of faults has fallen.
///
/// At the status BadLine `why` has the line's number, and its cause too, unless there was no memory to find that. At the
/// status TooLong it has the number of the line that is past a limit. At every other status it has none.
///
/// ```
/// let mut source = MemorySource::new(alloc, bytes, 4096, &[])?;
/// let mut sink = MemorySink::new(alloc, 4096, &[])?;
/// let mut why = None;
/// let status = run(rt, alloc, &words, &mut source, &mut sink, &OpenGate, &mut why);
/// ```
#[tactic(auto, using(crate::proofs::Passes::reads_nothing, crate::proofs::Passes::writes_nothing, crate::proofs::Passes::none_named))]
pub fn run<R: Threads + Wait + Sync, S: Source, K: Sink, G: Gate + Sync>(
    rt: &R,
    alloc: Global,
    words: &Words,
    source: &mut S,
    sink: &mut K,
    gate: &G,
    why: &mut Option<Reason>,
) -> Status
    ensures usage { (result ≡ Status.Usage) ↔ (command_of words.now ≡ None) }
    ensures untouched { result ≡ Status.Usage → (source.new ≡ source.old) × (sink.new ≡ sink.old) }
    ensures replay { (report : Report) (workers : ℕ) → command_of words.now ≡ Some (Replay report workers)
        → ReplaysTold report (S.left source.old) (S.left source.new) (K.kept sink.old) (K.kept sink.new) result }
    ensures stop { (report : Report) (workers : ℕ) (bytes : List ℕ)
        → command_of words.now ≡ Some (Replay report workers) → S.left source.old ≡ Some bytes
        → ComesByStop (S.faults source.old) (S.faults source.new) (K.faults sink.old) (K.faults sink.new)
        (reading bytes beginning).ends result }
    ensures serve { (workers : ℕ) → command_of words.now ≡ Some (Serve workers)
        → ServesTold (S.left source.old) (S.left source.new) (K.kept sink.old) (K.kept sink.new) result }
    ensures serve_stop { (workers : ℕ) (bytes : List ℕ) → command_of words.now ≡ Some (Serve workers)
        → S.left source.old ≡ Some bytes
        → ComesByStop (S.faults source.old) (S.faults source.new) (K.faults sink.old) (K.faults sink.new)
        (reading bytes beginning).ends result }
    ensures make { (seed workers : ℕ) → command_of words.now ≡ Some (Make seed workers)
        → MakesTold seed (K.kept sink.old) (K.kept sink.new) result }
    ensures make_status { (seed workers : ℕ) → command_of words.now ≡ Some (Make seed workers)
        → ComesByMaking (K.faults sink.old) (K.faults sink.new) result }
    ensures make_unread { (seed workers : ℕ) → command_of words.now ≡ Some (Make seed workers)
        → source.new ≡ source.old }
    ensures source { ReadsFrom (S.left source.old) (S.left source.new) (S.faults source.old) (S.faults source.new) result }
    ensures sink { WritesTo (K.kept sink.old) (K.kept sink.new) (K.faults sink.old) (K.faults sink.new) result }
    ensures why { NamesReason (S.left source.old) why.new result }
{
    match read_words(words) {
        Ok(Command::Replay { report, workers }) => {
            let reporter = Reporter {
                rt,
                workers: Workers::new(workers, gate),
                report,
                pool_cache: PoolCache::new(alloc),
            };
            run_replay(alloc, reporter, source, sink, why)
        }
        Ok(Command::Serve { workers }) => run_serve(rt, alloc, workers, source, sink, gate, why),
        Ok(Command::Make { seed, workers }) => {
            *why = None;
            run_make(rt, alloc, seed, workers, sink, gate)
        }
        Err(NotWords) => {
            *why = None;
            Status::Usage
        }
    }
}
