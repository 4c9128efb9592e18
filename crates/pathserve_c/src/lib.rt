//! The library that games link: what crosses to C.
//!
//! ```text
//!    C: pathserve_match, pathserve_view --> Handle --> a match by text | a match by structs | what stands
//! ```
//!
//! `include/pathserve.h` says what each call owes and gives. A [`Handle`] lies in C's memory and owns a box of a state. Each
//! call takes the state out, works on it, and puts it back. Nothing here starts threads, and no state is global.
#![tactic(auto)]

mod causes;
mod checks;
mod digests;
mod endings;
mod fields;
mod finder_calls;
mod finders;
mod finds;
mod grids;
mod handles;
mod held;
mod limits;
mod line_limits;
mod listings;
mod near_finds;
mod openings;
mod questions;
mod raw_box;
mod sights;
mod snapshots;
mod states;
mod statuses;
mod struct_matches;
mod structs;
mod text_matches;
mod texts;
mod versions;
mod views;
mod words;

pub use causes::{pathserve_cause, pathserve_script_cause};
pub use checks::{NOT_ZERO, WRONG_CALLER, WRONG_CLASS, WRONG_GOAL, WRONG_KIND, pathserve_check};
pub use digests::{pathserve_turn_digest, pathserve_view_digest};
pub use endings::{PathEnd, pathserve_reachable};
pub use fields::pathserve_field;
pub use finder_calls::{
    pathserve_find_all, pathserve_find_with, pathserve_finder_close, pathserve_finder_open,
};
pub use finders::Finder;
pub use finds::pathserve_find;
pub use grids::pathserve_open_grid;
pub use handles::{Handle, handles_may_cross};
pub use held::Held;
pub use limits::{pathserve_limit_line, pathserve_limit_posts};
pub use line_limits::LineLimit;
pub use listings::pathserve_standing;
pub use near_finds::pathserve_find_within;
pub use openings::{OpenFault, pathserve_open_script};
pub use questions::{pathserve_nearest, pathserve_standing_at, pathserve_view_size};
pub use raw_box::RawBox;
pub use sights::{pathserve_clear, pathserve_smooth};
pub use snapshots::{pathserve_forget, pathserve_keep_no_journal, pathserve_snapshot};
pub use states::State;
pub use statuses::{
    BAD_LINE, BAD_VALUE, CLOSED, DONE, ENDED, NO_JOURNAL, NO_MAP, NO_MEMORY, OPEN, OTHER,
    PAST_LIMIT, PostFault, SMALL, TOO_LONG, status_of, status_of_posts,
};
pub use struct_matches::StructMatch;
pub use structs::{
    pathserve_end_turn, pathserve_journal, pathserve_open_map, pathserve_post_all,
    pathserve_replies, pathserve_waypoints,
};
pub use text_matches::TextMatch;
pub use texts::{
    pathserve_close, pathserve_feed, pathserve_finish, pathserve_open, pathserve_take,
    pathserve_waiting,
};
pub use versions::{ANSWERS, VERSION, pathserve_answers, pathserve_size_of, pathserve_version};
pub use views::{
    pathserve_area, pathserve_passable, pathserve_region, pathserve_row, pathserve_view_again,
    pathserve_view_close, pathserve_view_of,
};
pub use words::{
    pathserve_fault_text, pathserve_refusal_text, pathserve_status_text, pathserve_version_text,
};
