//! How a run of a script ends where no more of it comes.
ghost use Rattle.std.specs.Prelude.{◌≡◌, ◌≤◌, ◌↔◌, IfSome, IsSome, IsTrue};
ghost use Rattle.io_edges.specs.Faults.{Rose};
ghost use Rattle.script_text.specs.Reader.{HoldsRefused};
ghost use Rattle.pathserve.specs.Runs.{names_line, reason_status};
ghost use Rattle.pathserve.specs.inner.Stopping.{IsHeldReason};
ghost use Rattle.pathserve.specs.inner.Writing.{StopsWith};

use crate::reasons::{Reason, reason_of};
use crate::status::Status;
use crate::writing::write_stop;
use io_edges::Sink;
use script_text::{ScriptFault, ScriptReader};
use std::alloc::Global;

/// The status where no part of the script came. A bad line is named, here and in what is written, and then it is found
/// why it is bad. A line past a limit is named here.
#[tactic(auto, using(crate::proofs::Passes::stop_reason, crate::proofs::Passes::stop_named))]
pub(crate) fn stop_at<K: Sink>(
    alloc: Global,
    sink: &mut K,
    reader: &ScriptReader,
    fault: ScriptFault,
    why: &mut Option<Reason>,
) -> Status
    requires held { HoldsRefused reader.now fault }
    ensures stops { StopsWith fault (K.kept sink.old) (K.kept sink.new) result }
    ensures later { K.faults sink.old ≤ K.faults sink.new }
    ensures write { result ≡ Status.WriteFault → Rose (K.faults sink.old) (K.faults sink.new) }
    ensures why { IfSome why.new (IsHeldReason reader.now fault) }
    ensures status { IfSome why.new (λ reason. result ≡ reason_status reason) }
    ensures named { (IsSome why.new) ↔ IsTrue (names_line result) }
{
    let status = write_stop(alloc, sink, fault);
    *why = match status {
        Status::BadLine | Status::TooLong => reason_of(alloc, reader, fault),
        _ => None,
    };
    status
}
