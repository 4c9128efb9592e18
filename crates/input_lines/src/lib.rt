//! The lines of an input, found in bytes that come part by part.
//!
//! [`Intake`] takes pieces of an input from a source, and [`PushedLine`] is given pieces, cut anywhere, and keeps the
//! beginning of one line. A line ends at its newline, or at the end of the input. A line or an input that is longer than
//! its limit is refused before it fills the memory. What a line says is unknown here.
#![tactic(auto)]

mod faults;
mod intake;
mod pushed_line;

pub use faults::LineFault;
pub use intake::{Intake, LineEnd, READ_SIZE};
pub use pushed_line::PushedLine;
