//! Laws of whole matches: what scripts are in the grammar's words, that there is an output text and what its lines are,
//! what an output under `serve` tells, how a match goes on from what stands, and what shapes and turns to a side are.
//!
//! ```text
//!    text of a turn = its line, then caller by caller and post by post a line, and one more for each note
//!    out = canonical script of the journal ++ answers        both are found in `out`, and replaying the first
//!                                                            gives the second
//!    map + standing obstructions --one turn of adds--> a match whose further turns have the same text
//! ```
//!
//! Nothing here runs: each function is a theorem of the crates below.
#![tactic(auto)]

mod lines;
mod matches;
mod outputs;
mod scripts;
mod served;
mod shapes;
mod texts;
mod turns;

pub use lines::{answer_lines, outputs_are_lines, turns_have_a_line_a_post};
pub use matches::{
    further_turns, saved_matches_go_on, saved_obstructions_are_added, saved_standing,
    saved_turns_can_be_written,
};
pub use outputs::{each_input_has_an_output_text, has_out};
pub use scripts::{bad_lines, scripts_are_read};
pub use served::{journal_is_told, one_journal, served_answers_are_replayed, served_values};
pub use shapes::{blocked_cells, circle_cells, square_remoteness};
pub use texts::{further_texts, saved_texts_go_on};
pub use turns::{eighths, quarters};
