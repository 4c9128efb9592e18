//! Laws that what is asked has an answer: each request, turn and journal, on every map and with whatever stands on it.
//!
//! ```text
//!    the passable cells of a map are on a list --> walks, distances, groups and searches are decided
//!    --> starts, targets, chosen walks, numbers --> answers, notes, replies of turns and journals
//! ```
//!
//! That there is at most one of each is a law of `turn_core`. Nothing here runs: each function is a theorem.
#![tactic(auto)]

mod laws;
mod walking;

pub use laws::{
    answers_fit, each_journal_has_an_answer, each_request_has_a_note, each_request_has_an_answer,
    each_turn_has_an_answer, each_turn_has_numbers, notes_fit, numbers_fit,
};
pub use walking::{
    cells_are_numbered, classes_are_tallied, corners_are_smoothed, distances_exist,
    fields_are_summed, searches_have_answers,
};
