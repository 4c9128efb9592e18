//! A source over a reader of std, and a sink over a writer of std.
ghost use Rattle.std.specs.Prelude.{◌≡◌, ◌≢◌, ◌≤◌, Err};
ghost use Rattle.std.specs.Io.{ReadsAtMost, WritesAtMost};
ghost use Rattle.std.specs.Io.KnownBytes.{ReadConsumes, WriteAppends};
ghost use Rattle.io_edges.specs.Faults.{Rose, ReadHasCause, WriteHasCause};
ghost use Rattle.io_edges.specs.Counts.{raised, faults_after, read_meets_fault, write_meets_fault};

use crate::counts::raise;
use crate::edges::{Failed, Sink, Source, WriteRefusal};
use std::io::{Read, Write};
use std::marker::Model;

/// A source over a reader of std. Each error of the reader is a fault, an interrupted read too.
///
/// Contracts see the bytes that the reader has left, where it tells them, and the count of faults.
#[derive(Drop)]
pub struct StdSource<R: Read> {
    reader: R,
    faults: u64,
}

impl<R: Read> Model for StdSource<R> {
    ghost use Rattle.io_edges.specs.Adapters.{Known};

    ghost Value = { Known };

    ghost view = { λ s. record { bytes = R.remaining s.reader; faults = s.faults } };
}

impl<R: Read> StdSource<R> {
    /// A source over the reader, with no fault so far.
    pub fn new(reader: R) -> StdSource<R>
        ensures { result ≡ record { bytes = R.remaining reader; faults = 0 } }
    {
        StdSource { reader, faults: 0 }
    }
}

impl<R: Read> Source for StdSource<R> {
    ghost left = { λ s. s.bytes };

    ghost faults = { λ s. s.faults };

    /// Reads once. Where the reader fails, one fault is counted.
    fn read(&mut self, buf: &mut [u8]) -> Result<usize, Failed>
        ensures count { ReadsAtMost result buf.new }
        ensures bytes { ReadConsumes self.old.bytes self.new.bytes result buf.new }
        ensures cause { ReadHasCause self.old.faults self.new.faults result }
        ensures counted { self.new.faults ≡ faults_after (read_meets_fault result) self.old.faults }
    {
        match self.reader.read(buf) {
            Ok(n) => Ok(n),
            Err(_) => {
                raise(&mut self.faults);
                Err(Failed)
            }
        }
    }
}

/// A sink over a writer of std, which it flushes after each write. Each error of the writer is a fault, and so is a
/// write of which the writer takes nothing although the piece has some.
///
/// Contracts see the bytes kept, where the writer tells its own, and the count of faults. Bytes that the writer took
/// and whose flush failed are in doubt: they do not count as kept (`undoubted`), and each later write fails. A failed
/// flush behind no bytes fails its own write alone.
#[derive(Drop)]
pub struct StdSink<W: Write> {
    writer: W,
    faults: u64,
    doubtful: usize,
}

impl<W: Write> Model for StdSink<W> {
    ghost use Rattle.io_edges.specs.Adapters.{Known, undoubted};

    ghost Value = { Known };

    ghost view = { λ s. record { bytes = undoubted (W.contents s.writer) s.doubtful; faults = s.faults } };
}

impl<W: Write> StdSink<W> {
    /// A sink over the writer, with no fault so far.
    pub fn new(writer: W) -> StdSink<W>
        ensures { result ≡ record { bytes = W.contents writer; faults = 0 } }
    {
        StdSink {
            writer,
            faults: 0,
            doubtful: 0,
        }
    }

    /// Counts one fault, and answers that the write failed.
    fn fail(&mut self) -> Result<usize, WriteRefusal>
        ensures failed { result ≡ Err WriteRefusal.Failed }
        ensures counted { self.new ≡ record self.old { faults = raised self.old.faults } }
        ensures later { self.old.faults ≤ self.new.faults }
        ensures rose { Rose self.old.faults self.new.faults }
    {
        raise(&mut self.faults);
        Err(WriteRefusal::Failed)
    }
}

impl<W: Write> Sink for StdSink<W> {
    ghost kept = { λ s. s.bytes };

    ghost faults = { λ s. s.faults };

    /// Writes once and flushes. It fails where the writer or the flush fails, or where bytes are in doubt, and one
    /// fault is counted there; one is counted too where the writer takes nothing of a piece that has some.
    fn write(&mut self, piece: &[u8]) -> Result<usize, WriteRefusal>
        ensures count { WritesAtMost result piece.now }
        ensures bytes { WriteAppends self.old.bytes self.new.bytes result piece.now }
        ensures cause { WriteHasCause self.old.faults self.new.faults piece.now result }
        ensures counted { self.new.faults ≡ faults_after (write_meets_fault piece.now result) self.old.faults }
        ensures no_memory { result ≢ Err WriteRefusal.NoMemory }
    {
        // Behind bytes that may be lost nothing more may be taken, or the text kept would have a gap.
        if self.doubtful > 0 {
            return self.fail();
        }
        let taken = match self.writer.write(piece) {
            Ok(taken) => taken,
            Err(_) => return self.fail(),
        };
        if self.writer.flush().is_err() {
            self.doubtful = taken;
            return self.fail();
        }
        if taken == 0 && !piece.is_empty() {
            raise(&mut self.faults);
        }
        Ok(taken)
    }
}
