//! Areas: the regions of all chunks, joined by their edges (connected components, by union-find).
//!
//! An [`AreaTable`] has a number for each region; two regions have the same exactly where one can be reached from the
//! other. Areas are numbered from 1 in the order of their first regions, so that a number depends on nothing else. Cells
//! are unknown here: a [`RegionId`] is a chunk and a region in it.
#![tactic(auto)]

mod forests;
mod linked;
mod marks;
mod offsets;
mod regions;
mod tables;

pub use regions::{Links, RegionId};
pub use tables::{AreaTable, one_table};
