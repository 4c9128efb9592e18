//! How a run ends.
use std::fmt;

/// How a run ended. The numbers are the exit statuses of the program.
#[derive(Clone, Copy, Debug, PartialEq, Eq)]
pub enum Status {
    /// The whole input was answered.
    Done = 0,
    /// The words are not in the grammar. Nothing was read or written.
    Usage = 2,
    /// A line is not in the grammar in its place. The text ends with `bad line` and its number.
    BadLine = 3,
    /// The source met a fault.
    ReadFault = 4,
    /// The sink met a fault.
    WriteFault = 5,
    /// There was no memory.
    NoMemory = 6,
    /// A line or the input is past its limit.
    TooLong = 7,
}

impl fmt::Display for Status {
    ghost use Rattle.std.specs.Prelude.{Some};
    ghost use Rattle.pathserve.specs.Words.{status_text};

    ghost output = { λ status. Some (status_text status) };

    fn fmt<W: fmt::Write>(&self, f: &mut fmt::Formatter<W>) -> fmt::Result {
        match *self {
            Status::Done => f.write_str("the whole input was answered"),
            Status::Usage => f.write_str(
                "usage: pathserve replay|profile|flow|smooth|serve [--workers N] < SCRIPT > ANSWERS, or pathserve make SEED [--workers N]",
            ),
            Status::BadLine => f.write_str("a line is bad"),
            Status::ReadFault => f.write_str("reading the script failed"),
            Status::WriteFault => f.write_str("writing the answers failed"),
            Status::NoMemory => f.write_str("there was no memory"),
            Status::TooLong => f.write_str(
                "a line is longer than 8388608 bytes, or the script longer than 4294967296",
            ),
        }
    }
}
