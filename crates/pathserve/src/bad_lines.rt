//! Why the line is bad at which a script stops.
use script_text::Cause;
use std::fmt;

/// The line at which a script stops, and why it is bad there, where there was memory to find that (`IsWhyBad`).
#[derive(Clone, Copy, Debug, PartialEq, Eq)]
pub struct BadLine {
    /// The number of the line, from 1. A line that is missing at the end has the number behind the last.
    pub number: u64,
    /// Why the line is not in the grammar in its place, or why the script may not end there. None where there was no
    /// memory to find it.
    pub cause: Option<Cause>,
}

impl fmt::Display for BadLine {
    ghost use Rattle.std.specs.Prelude.{Some};
    ghost use Rattle.pathserve.specs.Reasons.{bad_line_reason};

    ghost output = { λ bad. Some (bad_line_reason bad) };

    fn fmt<W: fmt::Write>(&self, f: &mut fmt::Formatter<W>) -> fmt::Result {
        match self.cause {
            Some(cause) => write!(f, "line {} is bad: {cause}", self.number),
            None => write!(f, "line {} is bad", self.number),
        }
    }
}
