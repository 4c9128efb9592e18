//! Lanes: queues without a bound, each from one end to another, on which no item is lost, doubled or overtaken.
//!
//! ```text
//!    LaneIn --post--> [ item, item, .. ] --take--> LaneOut
//! ```
//!
//! The two ends may be with two threads, and neither holds up the other. What was taken, followed by what is queued, is
//! what was posted. A [`Notice`] says how many items were posted so far; an end that heard it finds them all. What the
//! items are is unknown here.
#![tactic(auto)]

mod ends;
mod queue;
mod rule;
mod whole;

pub use ends::{Ended, LaneIn, LaneOut, Notice, lane};
pub use whole::Whole;
