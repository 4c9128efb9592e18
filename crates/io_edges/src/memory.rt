//! A source and a sink in memory, whose failing calls are listed.
ghost use Rattle.std.specs.Prelude.{◌≡◌, ◌+◌, min, Contains, ◌≤◌, ◌↔◌, [], take, drop, length, IsTrue, IsErr, IfOk, OnErr, Ok, Err, Some};
ghost use Rattle.std.specs.Io.{ReadsAtMost, WritesAtMost};
ghost use Rattle.std.specs.Io.KnownBytes.{ReadConsumes, WriteAppends};
ghost use Rattle.io_edges.specs.Faults.{Rose, ReadHasCause, WriteHasCause};
ghost use Rattle.io_edges.specs.Counts.{raised, read_meets_fault, write_meets_fault};
ghost use Rattle.io_edges.specs.Memory.{no_calls, NextFails, after_call, read_count, write_count};

use crate::counts::raise;
use crate::edges::{Failed, Sink, Source, WriteRefusal};
use nav_types::{Bytes, NoMemory, Sequence};
use std::alloc::Global;
use std::marker::Model;

/// How the calls of a source or sink in memory go: those that fail, by their numbers counted from 1, how many were
/// made, the faults met, and the most bytes that one call takes.
#[derive(Debug, Drop)]
struct Calls {
    fails: Sequence<u64>,
    made: u64,
    faults: u64,
    piece: usize,
}

impl Model for Calls {
    ghost use Rattle.io_edges.specs.Memory.{Calls as calls_record};

    ghost Value = { calls_record };

    ghost view = { λ c. record { piece = c.piece; fails = c.fails; made = c.made; faults = c.faults } };
}

impl Calls {
    fn new(alloc: Global, piece: usize, fails: &[u64]) -> Result<Calls, NoMemory>
        ensures { IfOk result (λ made. made ≡ no_calls piece fails.now) }
    {
        let mut listed = Sequence::new(alloc);
        listed.extend(fails)?;
        Ok(Calls {
            fails: listed,
            made: 0,
            faults: 0,
            piece,
        })
    }

    /// Counts one more call, and says whether it is listed to fail.
    fn begin(&mut self) -> bool
        ensures listed { IsTrue result ↔ NextFails self.old }
        ensures made { self.new ≡ record self.old { made = raised self.old.made } }
    {
        let fails = is_listed(self.fails.as_slice(), self.made);
        self.made = self.made.saturating_add(1);
        fails
    }

    /// Counts one more fault.
    fn raise(&mut self)
        ensures counted { self.new ≡ record self.old { faults = raised self.old.faults } }
        ensures later { self.old.faults ≤ self.new.faults }
        ensures rose { Rose self.old.faults self.new.faults }
    {
        raise(&mut self.faults);
    }
}

/// Whether the number of the call after so many is listed.
fn is_listed(fails: &[u64], made: u64) -> bool
    ensures { IsTrue result ↔ Contains fails.now (made + 1) }
{
    match made.checked_add(1) {
        Some(number) => fails.contains(&number),
        None => false,
    }
}

/// Copies the first bytes, so many at most, to the front of the buffer, and says how many.
fn copy_first(from: &[u8], most: usize, buf: &mut [u8]) -> usize
    ensures count { result ≡ min (min (length buf.old) most) (length from.now) }
    ensures given { take result buf.new ≡ take result from.now }
    ensures rest { drop result buf.new ≡ drop result buf.old }
{
    let n = buf.len().min(most).min(from.len());
    buf[..n].copy_from_slice(&from[..n]);
    n
}

/// The bytes that a source in memory has left.
#[derive(Debug, Drop)]
struct Unread {
    bytes: Bytes,
    at: usize,
}

impl Model for Unread {
    ghost use Rattle.std.specs.Prelude.{ℕ, List, ◌≤◌, drop, length};

    ghost Value = { List ℕ };

    ghost view = { λ u. drop u.at u.bytes };

    ghost invariant = { λ u. u.at ≤ length u.bytes };
}

impl Unread {
    /// Puts the next bytes into the buffer, so many at most, and says how many.
    fn give(&mut self, most: usize, buf: &mut [u8]) -> usize
        ensures count { result ≡ min (min (length buf.old) most) (length self.old) }
        ensures given { take result buf.new ≡ take result self.old }
        ensures rest { drop result buf.new ≡ drop result buf.old }
        ensures left { self.new ≡ drop result self.old }
    {
        let (_, left) = self.bytes.as_slice().split_at(self.at);
        let n = copy_first(left, most, buf);
        self.at += n;
        n
    }
}

/// A source in memory: it gives the bytes that it was made of, in pieces, and fails at the calls that are listed.
///
/// Contracts see the bytes left and how its calls go (`Input`). A count at its last value, 18446744073709551615, stays
/// there.
#[derive(Debug, Drop)]
pub struct MemorySource {
    unread: Unread,
    calls: Calls,
}

impl Model for MemorySource {
    ghost use Rattle.std.specs.Prelude.{◌≤◌};
    ghost use Rattle.io_edges.specs.Memory.{Input};

    ghost Value = { Input };

    ghost view = { λ s. record { left = s.unread; calls = s.calls } };

    ghost invariant = { λ s. 1 ≤ s.calls.piece };
}

impl MemorySource {
    /// A source of these bytes. A read gives at most `piece` bytes, at least 1, and the reads whose numbers stand in
    /// `fails`, counted from 1, fail.
    pub fn new(
        alloc: Global,
        bytes: &[u8],
        piece: usize,
        fails: &[u64],
    ) -> Result<MemorySource, NoMemory>
        requires some { 1 ≤ piece }
        ensures { IfOk result (λ made. made ≡ record { left = bytes.now; calls = no_calls piece fails.now }) }
    {
        let mut held = Bytes::new(alloc);
        held.extend(bytes)?;
        Ok(MemorySource {
            unread: Unread { bytes: held, at: 0 },
            calls: Calls::new(alloc, piece, fails)?,
        })
    }
}

impl Source for MemorySource {
    ghost left = { λ s. Some s.left };

    ghost faults = { λ s. s.calls.faults };

    /// Gives the next bytes: the least of the buffer's length, the greatest piece and the bytes left (`read_count`). It
    /// fails exactly where the number of the call is listed (`NextFails`); then it gives nothing and counts one fault
    /// (`after_call`). What it does not fill of the buffer stays.
    fn read(&mut self, buf: &mut [u8]) -> Result<usize, Failed>
        ensures count { ReadsAtMost result buf.new }
        ensures bytes { ReadConsumes (Some self.old.left) (Some self.new.left) result buf.new }
        ensures cause { ReadHasCause self.old.calls.faults self.new.calls.faults result }
        ensures failed { IsErr result ↔ NextFails self.old.calls }
        ensures taken { IfOk result (λ n. n ≡ read_count self.old buf.old) }
        ensures calls { self.new.calls ≡ after_call self.old.calls (read_meets_fault result) }
        ensures rest { IfOk result (λ n. drop n buf.new ≡ drop n buf.old) }
        ensures refused { OnErr result (buf.new ≡ buf.old) }
    {
        if self.calls.begin() {
            self.calls.raise();
            return Err(Failed);
        }
        Ok(self.unread.give(self.calls.piece, buf))
    }
}

/// A sink in memory: it keeps the bytes that it takes, in pieces, and fails at the calls that are listed.
///
/// Contracts see the bytes kept and how its calls go (`Output`). A count at its last value, 18446744073709551615, stays
/// there.
#[derive(Debug, Drop)]
pub struct MemorySink {
    bytes: Bytes,
    calls: Calls,
}

impl Model for MemorySink {
    ghost use Rattle.io_edges.specs.Memory.{Output};

    ghost Value = { Output };

    ghost view = { λ s. record { kept = s.bytes; calls = s.calls } };
}

impl MemorySink {
    /// An empty sink. A write takes at most `piece` bytes, which may be 0, and the writes whose numbers stand in
    /// `fails`, counted from 1, fail.
    pub fn new(alloc: Global, piece: usize, fails: &[u64]) -> Result<MemorySink, NoMemory>
        ensures { IfOk result (λ made. made ≡ record { kept = []; calls = no_calls piece fails.now }) }
    {
        Ok(MemorySink {
            bytes: Bytes::new(alloc),
            calls: Calls::new(alloc, piece, fails)?,
        })
    }

    /// The bytes kept so far.
    pub fn kept(&self) -> &[u8]
        ensures { result.now ≡ self.now.kept }
    {
        self.bytes.as_slice()
    }
}

impl Sink for MemorySink {
    ghost kept = { λ s. Some s.kept };

    ghost faults = { λ s. s.calls.faults };

    /// Takes the first bytes of the piece: the least of its length and the greatest piece (`write_count`). It fails
    /// exactly where the number of the call is listed (`NextFails`). It counts one fault there, and where it takes none
    /// of a piece that has some (`write_meets_fault`).
    fn write(&mut self, piece: &[u8]) -> Result<usize, WriteRefusal>
        ensures count { WritesAtMost result piece.now }
        ensures bytes { WriteAppends (Some self.old.kept) (Some self.new.kept) result piece.now }
        ensures cause { WriteHasCause self.old.calls.faults self.new.calls.faults piece.now result }
        ensures failed { (result ≡ Err WriteRefusal.Failed) ↔ NextFails self.old.calls }
        ensures taken { IfOk result (λ n. n ≡ write_count self.old piece.now) }
        ensures calls { self.new.calls ≡ after_call self.old.calls (write_meets_fault piece.now result) }
    {
        if self.calls.begin() {
            self.calls.raise();
            return Err(WriteRefusal::Failed);
        }
        let n = piece.len().min(self.calls.piece);
        if n == 0 && !piece.is_empty() {
            self.calls.raise();
            return Ok(0);
        }
        let Ok(()) = self.bytes.extend(&piece[..n]) else {
            return Err(WriteRefusal::NoMemory);
        };
        Ok(n)
    }
}
