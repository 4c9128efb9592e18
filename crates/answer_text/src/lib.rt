//! The texts of a run: the answers of each turn with their notes, the summary of a made match, and the line that names a
//! bad line. Each text is a list of ASCII bytes.
//!
//! ```text
//!    turn 1 regions 3 edges 0 areas 3 relabelled 2       one line a turn,
//!    0 0 added 1                                         one line a post: its caller, its place, its reply
//! ```
//!
//! What each line says is a definition (`specs/Answers.antt`), written by concatenation. Nothing here decides an answer.
#![tactic(auto)]

mod counting;
mod laws;
mod lines;
mod noted;
mod pieces;
mod summary;
mod turns;

pub use laws::{notes_of_nothing, waypoint_is_canonical};
pub use lines::{bad_line_text, write_reply};
pub use noted::push_noted_text;
pub use summary::summary_text;
pub use turns::turn_text;
