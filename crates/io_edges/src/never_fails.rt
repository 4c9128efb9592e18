//! A source or sink in memory that never fails.
ghost use Rattle.std.specs.Prelude.{◌≡◌, false, IsOk, IfOk, OnErr, Err, Some};
ghost use Rattle.std.specs.Io.{ReadsAtMost, WritesAtMost};
ghost use Rattle.std.specs.Io.KnownBytes.{ReadConsumes, WriteAppends};
ghost use Rattle.io_edges.specs.Faults.{ReadHasCause, WriteHasCause};
ghost use Rattle.io_edges.specs.Memory.{IsFaultless, after_call, read_count, write_count};

use crate::edges::{Failed, Sink, Source, WriteRefusal};
use crate::memory::{MemorySink, MemorySource};
use std::marker::Model;

/// A source or sink in memory, whose calls go as it was made.
pub trait InMemory {
    ghost use Rattle.io_edges.specs.Memory.{Calls};

    ghost calls: { Self → Calls };
}

impl InMemory for MemorySource {
    ghost calls = { λ s. s.calls };
}

impl InMemory for MemorySink {
    ghost calls = { λ s. s.calls };
}

/// A source or sink in memory none of whose calls fail. Contracts see the wrapped object; its count of faults is
/// always 0.
#[derive(Debug, Drop)]
pub struct NeverFails<T: InMemory> {
    inner: T,
}

impl<T: InMemory> Model for NeverFails<T> {
    ghost use Rattle.io_edges.specs.Memory.{IsFaultless};

    ghost Value = { T };

    ghost view = { λ n. n.inner };

    ghost invariant = { λ n. IsFaultless (T.calls n.inner) };
}

impl<T: InMemory> NeverFails<T> {
    /// Wraps an object that was made with no failing call and a greatest piece of at least 1.
    pub fn new(inner: T) -> NeverFails<T>
        requires faultless { IsFaultless (T.calls inner) }
        ensures { result ≡ inner }
    {
        NeverFails { inner }
    }

    /// The wrapped object.
    pub fn inner(&self) -> &T
        ensures { result.now ≡ self.now }
    {
        &self.inner
    }
}

impl Source for NeverFails<MemorySource> {
    ghost left = { λ s. Some s.left };

    ghost faults = { λ s. 0 };

    /// Reads as the wrapped source does, and never fails.
    fn read(&mut self, buf: &mut [u8]) -> Result<usize, Failed>
        ensures count { ReadsAtMost result buf.new }
        ensures bytes { ReadConsumes (Some self.old.left) (Some self.new.left) result buf.new }
        ensures cause { ReadHasCause 0 0 result }
        ensures read { IsOk result }
        ensures taken { IfOk result (λ n. n ≡ read_count self.old buf.old) }
        ensures calls { self.new.calls ≡ after_call self.old.calls false }
    {
        self.inner.read(buf)
    }
}

impl Sink for NeverFails<MemorySink> {
    ghost kept = { λ s. Some s.kept };

    ghost faults = { λ s. 0 };

    /// Writes as the wrapped sink does: it is refused only for want of memory.
    fn write(&mut self, piece: &[u8]) -> Result<usize, WriteRefusal>
        ensures count { WritesAtMost result piece.now }
        ensures bytes { WriteAppends (Some self.old.kept) (Some self.new.kept) result piece.now }
        ensures cause { WriteHasCause 0 0 piece.now result }
        ensures taken { IfOk result (λ n. n ≡ write_count self.old piece.now) }
        ensures calls { self.new.calls ≡ after_call self.old.calls false }
        ensures refused { OnErr result (result ≡ Err WriteRefusal.NoMemory) }
    {
        self.inner.write(piece)
    }
}
