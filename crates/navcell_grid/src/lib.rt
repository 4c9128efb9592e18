//! The grid of navcells: one number of 16 bits for each cell, one bit a passability class.
//!
//! A set bit means that the cell is impassable for the class. A [`Grid`] covers a map, and a [`Patch`] a rectangle of
//! one, such as the 96 by 96 cells of a chunk; both are row after row, from the south. Memory is taken once, when one is
//! made. What sets the bits is `clearance_raster`; which cells are joined is no question here.
#![tactic(auto)]

mod grids;
mod patches;

pub use grids::{Grid, one_grid};
pub use patches::Patch;
