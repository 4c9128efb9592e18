//! Tables of landmarks: bounds on the cost of a walk that know the walls of a map.
//!
//! ```text
//!     L . . #         0 12 24  #        the table of a landmark L says how far each cell is from it, with 12 units for
//!     # # . #         #  # 36  #        a straight step and 17 for a diagonal one: a walk between two cells costs at
//!     . . . .        72 60 48 60        least the difference of their numbers, in any table
//! ```
//!
//! In the literature this is ALT (Goldberg and Harrelson, "Computing the shortest path: A* search meets graph theory",
//! 2005), and on grids differential heuristics (Sturtevant and others, "Memory-based heuristics for explicit state spaces",
//! 2009).
//!
//! Of the tables is asked only that they are *gentle*: along a legal straight step the numbers differ by at most 12, along
//! a diagonal one by at most 17 (`AreGentle`). That is looked at step by step before a table is taken, so that nothing
//! rests on how its numbers were found, and a table for which it fails is left out. Tables that are gentle on a map are so
//! on each map that lacks some of its steps: those of a map without obstructions serve with any.
//!
//! [`Landmarks`] keeps up to eight tables, 16 bytes a cell. [`Landmarks::at_least`] is the bound between two cells and
//! [`Landmarks::at_least_to`] that to the nearest of several, by a [`NumberSpan`]. [`bound_falls`], [`span_bound_falls`] and the
//! laws beside them say what a search rests on.
#![tactic(auto)]

mod fields;
mod half_tables;
mod laws;
mod marks;
mod queues;
mod spans;
mod tables;
mod units;

pub use half_tables::HalfTable;
pub use laws::{
    bound_falls, bound_is_small, bound_of_one_cell, bound_of_walk, gentle_where_fewer_pass,
    span_bound_falls, span_bound_of_spanned, span_of_spans, widened_spans,
};
pub use spans::NumberSpan;
pub use tables::Landmarks;
pub use units::{DIAGONAL_UNITS, MAX_TABLES, STRAIGHT_UNITS, UNIT_COST};
