//! The edges of the service: traits for what it reads, what it writes and where its threads pass.

/// A read failed. The count of faults of its source rose.
#[derive(Clone, Copy, Debug, PartialEq, Eq)]
pub struct Failed;

/// Why a write took nothing.
#[derive(Clone, Copy, Debug, PartialEq, Eq)]
pub enum WriteRefusal {
    /// The write failed. The count of faults of its sink rose.
    Failed,
    /// A sink in memory could not grow.
    NoMemory,
}

/// Where bytes come from.
///
/// `left` has the bytes not read yet, where the source tells them: what a read gives and what is left after it are what
/// was left before it (`HasGiven`). `faults` counts the faults that the source met. The count never falls; where it
/// stands at its last value, 18446744073709551615, it counts as one that rose.
pub trait Source {
    ghost use Rattle.std.specs.Prelude.{ℕ, List, Option};
    ghost use Rattle.std.specs.Io.{ReadsAtMost};
    ghost use Rattle.std.specs.Io.KnownBytes.{ReadConsumes};
    ghost use Rattle.io_edges.specs.Faults.{ReadHasCause};

    ghost left: { Self → Option (List ℕ) };

    ghost faults: { Self → ℕ };

    /// Puts the next bytes into the buffer and answers how many: 0 for a buffer with room only at the end of input.
    /// A failed read takes nothing, and comes only where the count of faults rose.
    fn read(&mut self, buf: &mut [u8]) -> Result<usize, Failed>
        ensures count { ReadsAtMost result buf.new }
        ensures bytes { ReadConsumes (left self.old) (left self.new) result buf.new }
        ensures cause { ReadHasCause (faults self.old) (faults self.new) result };
}

/// Where bytes go to.
///
/// `kept` has the bytes taken, where the sink tells them: a write leaves those kept before it at the front
/// (`HasTaken`).
/// `faults` counts the faults that the sink met, as for a source.
pub trait Sink {
    ghost use Rattle.std.specs.Prelude.{ℕ, List, Option};
    ghost use Rattle.std.specs.Io.{WritesAtMost};
    ghost use Rattle.std.specs.Io.KnownBytes.{WriteAppends};
    ghost use Rattle.io_edges.specs.Faults.{WriteHasCause};

    ghost kept: { Self → Option (List ℕ) };

    ghost faults: { Self → ℕ };

    /// Takes the first bytes of the piece and answers how many. A refused write takes none. A failed one, and one that
    /// takes none of a piece that has some, comes only where the count of faults rose.
    fn write(&mut self, piece: &[u8]) -> Result<usize, WriteRefusal>
        ensures count { WritesAtMost result piece.now }
        ensures bytes { WriteAppends (kept self.old) (kept self.new) result piece.now }
        ensures cause { WriteHasCause (faults self.old) (faults self.new) piece.now result };
}

/// Where callers and workers pass. Its calls answer nothing, so none can change an answer.
pub trait Gate {
    /// A worker is about to solve this job.
    fn pass(&self, job: u64);

    /// A turn was staged with so many posts.
    fn staged(&self, posts: u64);

    /// The work of this caller begins.
    fn begun(&self, caller: u8);
}
