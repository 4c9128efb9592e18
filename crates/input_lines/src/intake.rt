//! What is taken from a source: its bytes, cut into lines.
ghost use Rattle.std.specs.Prelude.{◌≡◌, ◌≢◌, ◌≤◌, ◌<◌, ◌↔◌, ◌==◌, [], length, false, position};
ghost use Rattle.std.specs.Prelude.{IsTrue, IfErr, IfOk, IfSome, OnOk, OnErr, IsErrOf, vec_len};
ghost use Rattle.std.specs.Io.{ReadsAtMost};
ghost use Rattle.std.specs.Io.KnownBytes.{ReadConsumes};
ghost use Rattle.io_edges.specs.Faults.{Rose, ReadHasCause};
ghost use Rattle.input_lines.specs.Lines.{first_line};

use crate::faults::LineFault;
use io_edges::{Failed, Source};
use memchr::memchr;
use nav_types::NoMemory;
use std::alloc::Global;
use std::marker::Model;

/// The most bytes of one read.
pub const READ_SIZE: usize = 65_536;

/// Where a line ended.
#[derive(Clone, Copy)]
pub enum LineEnd {
    /// At its newline.
    Newline,
    /// At the end of the input. What stands there may be empty.
    Input,
}

/// The bytes taken from a source that were not used yet, and whether the end of the input was met.
#[derive(Drop)]
pub struct Intake {
    buffer: Vec<u8>,
    from: usize,
    to: usize,
    ended: bool,
}

impl Model for Intake {
    ghost use Rattle.std.specs.Prelude.{◌≡◌, ◌≤◌, drop, take, vec_len};
    ghost use Rattle.input_lines.specs.declared.intake.TheConstants.{READ_SIZE};
    ghost use Rattle.input_lines.specs.Held.{Taken};

    ghost Value = { Taken };

    ghost view = { λ i. record { bytes = drop i.from (take i.to i.buffer.items); ended = i.ended } };

    ghost invariant = { λ i. (i.from ≤ i.to) × (i.to ≤ READ_SIZE) × (vec_len i.buffer ≡ READ_SIZE) };
}

impl Intake {
    ghost use Rattle.input_lines.specs.Held.{Taken, ReadsByNeedTold, RefillAnswer, WhereTold};
    ghost use Rattle.std.specs.Prelude.{drop};

    /// Nothing is taken yet. The buffer of one read is taken here, once.
    pub fn new(alloc: Global) -> Result<Intake, NoMemory>
        ensures { IfOk result (λ made. made ≡ record { bytes = []; ended = false }) }
    {
        let buffer = read_buffer(alloc)?;
        Ok(Intake {
            buffer,
            from: 0,
            to: 0,
            ended: false,
        })
    }

    /// How many bytes are held.
    pub fn len(&self) -> usize
        ensures bytes { result ≡ length self.now.bytes }
        ensures few { result ≤ READ_SIZE }
    {
        self.to - self.from
    }

    /// Whether the end of the input was met.
    pub fn has_ended(&self) -> bool
        ensures { result ≡ self.now.ended }
    {
        self.ended
    }

    /// Whether each byte that was taken was used.
    pub fn is_used_up(&self) -> bool
        ensures { IsTrue result ↔ (self.now.bytes ≡ []) }
    {
        self.from == self.to
    }

    /// The bytes that were not used yet.
    pub fn held(&self) -> &[u8]
        ensures { result.now ≡ self.now.bytes }
    {
        &self.buffer[self.from..self.to]
    }

    /// The first line of these bytes, without its newline, and all of them where there is none.
    pub fn first_line(&self) -> &[u8]
        ensures { result.now ≡ first_line self.now.bytes }
    {
        up_to_newline(self.held())
    }

    /// Lets go of the first bytes that are held.
    pub fn use_first(&mut self, count: usize)
        requires held { count ≤ length self.old.bytes }
        ensures { self.new ≡ record { bytes = drop count self.old.bytes; ended = self.old.ended } }
    {
        self.from += count;
    }

    /// Takes the next bytes from the source where none are held, and none once the end of the input was met.
    pub fn refill<S: Source>(&mut self, source: &mut S) -> Result<(), LineFault>
        ensures told { WhereTold (S.left source.old) (S.left source.new) (RefillAnswer self.old self.new result) }
        ensures still { self.old.bytes ≢ [] → source.new ≡ source.old }
        ensures reads { ReadsByNeedTold self.old.bytes self.old.ended (S.left source.old) (S.left source.new) }
        ensures kept { self.old.bytes ≢ [] → self.new ≡ self.old }
        ensures ended { OnOk result (self.new.bytes ≡ [] → IsTrue self.new.ended) }
        ensures stays { IsTrue self.old.ended → IsTrue self.new.ended }
        ensures going { OnOk result (0 < length self.new.bytes → self.new.ended ≡ self.old.ended) }
        ensures few { length self.new.bytes ≤ READ_SIZE }
        ensures failed { IfErr result (λ fault. fault ≡ LineFault.ReadFault) }
        ensures nothing { OnErr result (self.new.bytes ≡ []) }
        ensures later { S.faults source.old ≤ S.faults source.new }
        ensures fault { IsErrOf result LineFault.ReadFault → Rose (S.faults source.old) (S.faults source.new) }
    {
        // A read that took nothing met the end, and a source may have bytes again after it: it is not asked again.
        if self.ended {
            return Ok(());
        }
        if self.from < self.to {
            return Ok(());
        }
        self.from = 0;
        self.to = 0;
        match read_into(source, &mut self.buffer) {
            Ok(count) => {
                self.to = count;
                self.ended = count == 0;
                Ok(())
            }
            Err(Failed) => Err(LineFault::ReadFault),
        }
    }
}

/// The place of the first newline.
pub(crate) fn first_newline(bytes: &[u8]) -> Option<usize>
    ensures place { result ≡ position (λ byte. byte == 10) bytes.now }
    ensures within { IfSome result (λ at. at < length bytes.now) }
{
    memchr(b'\n', bytes)
}

/// The bytes up to the first newline, and all where there is none.
pub(crate) fn up_to_newline(bytes: &[u8]) -> &[u8]
    ensures { result.now ≡ first_line bytes.now }
{
    match first_newline(bytes) {
        Some(at) => &bytes[..at],
        None => bytes,
    }
}

/// A buffer of the size of one read.
fn read_buffer(alloc: Global) -> Result<Vec<u8>, NoMemory>
    ensures { IfOk result (λ made. vec_len made ≡ READ_SIZE) }
{
    let mut buffer = Vec::new(alloc);
    buffer.resize(READ_SIZE, 0)?;
    Ok(buffer)
}

/// One read into the buffer.
fn read_into<S: Source>(source: &mut S, buffer: &mut Vec<u8>) -> Result<usize, Failed>
    ensures size { vec_len buffer.new ≡ vec_len buffer.old }
    ensures count { ReadsAtMost result buffer.new.items }
    ensures bytes { ReadConsumes (S.left source.old) (S.left source.new) result buffer.new.items }
    ensures cause { ReadHasCause (S.faults source.old) (S.faults source.new) result }
{
    source.read(buffer.as_mut_slice())
}
