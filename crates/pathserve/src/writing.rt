//! Writes to a sink: a piece whole, a text where there was memory for it, and what a stop of the input leaves.
ghost use Rattle.std.specs.Prelude.{◌≡◌, ◌≤◌, IsErrOf};
ghost use Rattle.io_edges.specs.Faults.{Rose};
ghost use Rattle.pathserve.specs.inner.Writing.{WritesPiece, WritesText, StopsWith, refused_status, status_after};

use crate::status::Status;
use answer_text::bad_line_text;
use io_edges::{Sink, WriteRefusal};
use nav_types::{Bytes, NoMemory};
use script_text::ScriptFault;
use std::alloc::Global;

/// Writes the whole piece, in as many writes as the sink needs. After a refusal the sink has kept its first bytes.
/// A write that takes nothing of bytes that are left is a failed one.
pub(crate) fn write_all<K: Sink>(sink: &mut K, piece: &[u8]) -> Result<(), WriteRefusal>
    ensures written { WritesPiece (K.kept sink.old) (K.kept sink.new) piece.now result }
    ensures later { K.faults sink.old ≤ K.faults sink.new }
    ensures fault { IsErrOf result WriteRefusal.Failed → Rose (K.faults sink.old) (K.faults sink.new) }
{
    let mut rest = piece;
    // A sink may take less than it was given, as a pipe does.
    while !rest.is_empty() {
        match sink.write(rest) {
            // Or a sink that takes nothing more would be asked for ever.
            Ok(0) => return Err(WriteRefusal::Failed),
            Ok(count) => rest = &rest[count..],
            Err(refusal) => return Err(refusal),
        }
    }
    Ok(())
}

/// Writes a text as one piece, where there was memory for it.
pub(crate) fn write_text<K: Sink>(
    sink: &mut K,
    text: Result<Bytes, NoMemory>,
) -> Result<(), WriteRefusal>
    ensures written { WritesText (K.kept sink.old) (K.kept sink.new) text result }
    ensures later { K.faults sink.old ≤ K.faults sink.new }
    ensures fault { IsErrOf result WriteRefusal.Failed → Rose (K.faults sink.old) (K.faults sink.new) }
{
    match text {
        Ok(text) => write_all(sink, text.as_slice()),
        Err(NoMemory) => Err(WriteRefusal::NoMemory),
    }
}

/// The status of a refused write.
pub(crate) fn status_of(refusal: WriteRefusal) -> Status
    ensures { result ≡ refused_status refusal }
{
    match refusal {
        WriteRefusal::Failed => Status::WriteFault,
        WriteRefusal::NoMemory => Status::NoMemory,
    }
}

/// The status of a run that ends with a write.
pub(crate) fn status_written(written: Result<(), WriteRefusal>) -> Status
    ensures { result ≡ status_after written Status.Done }
{
    match written {
        Ok(()) => Status::Done,
        Err(refusal) => status_of(refusal),
    }
}

/// The status where no part of the script came. A bad line is named; nothing else is written.
pub(crate) fn write_stop<K: Sink>(alloc: Global, sink: &mut K, fault: ScriptFault) -> Status
    ensures stops { StopsWith fault (K.kept sink.old) (K.kept sink.new) result }
    ensures later { K.faults sink.old ≤ K.faults sink.new }
    ensures write { result ≡ Status.WriteFault → Rose (K.faults sink.old) (K.faults sink.new) }
{
    match fault {
        ScriptFault::BadLine(number) => match write_text(sink, bad_line_text(alloc, number)) {
            Ok(()) => Status::BadLine,
            Err(refusal) => status_of(refusal),
        },
        ScriptFault::TooLong(_) => Status::TooLong,
        ScriptFault::ReadFault => Status::ReadFault,
        ScriptFault::NoMemory => Status::NoMemory,
    }
}
