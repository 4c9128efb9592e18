//! At which line a script stops before its end, and why.
ghost use Rattle.std.specs.Prelude.{◌≡◌, ℕ, IfSome, IsSome};
ghost use Rattle.script_text.specs.Reader.{HoldsRefused};
ghost use Rattle.pathserve.specs.inner.Stopping.{IsHeldReason};

use crate::bad_lines::BadLine;
use nav_types::NoMemory;
use script_text::{ScriptFault, ScriptReader};
use std::alloc::Global;
use std::fmt;

/// Why a script stops before its end (`IsReason`).
#[derive(Clone, Copy, Debug, PartialEq, Eq)]
pub enum Reason {
    /// A line is bad.
    BadLine(BadLine),
    /// The line of this number, from 1, is past the limit of a line, or the script with it past its own.
    TooLong { number: u64 },
}

impl fmt::Display for Reason {
    ghost use Rattle.std.specs.Prelude.{Some};
    ghost use Rattle.pathserve.specs.Reasons.{reason_text};

    ghost output = { λ reason. Some (reason_text reason) };

    fn fmt<W: fmt::Write>(&self, f: &mut fmt::Formatter<W>) -> fmt::Result {
        match *self {
            Reason::BadLine(bad) => write!(f, "{bad}"),
            Reason::TooLong { number } => write!(
                f,
                "line {number} is longer than 8388608 bytes, or the script up to it longer than 4294967296"
            ),
        }
    }
}

/// Why a call of the reader refused a line. None where it refused none.
pub(crate) fn reason_of(alloc: Global, reader: &ScriptReader, fault: ScriptFault) -> Option<Reason>
    requires held { HoldsRefused reader.now fault }
    ensures why { IfSome result (IsHeldReason reader.now fault) }
    ensures bad { (number : ℕ) → fault ≡ ScriptFault.BadLine number → IsSome result }
    ensures too_long { (number : ℕ) → fault ≡ ScriptFault.TooLong number → IsSome result }
{
    match fault {
        ScriptFault::BadLine(number) => {
            let cause = match reader.cause(alloc) {
                Ok(cause) => Some(cause),
                Err(NoMemory) => None,
            };
            Some(Reason::BadLine(BadLine { number, cause }))
        }
        ScriptFault::TooLong(number) => Some(Reason::TooLong { number }),
        ScriptFault::ReadFault | ScriptFault::NoMemory => None,
    }
}
