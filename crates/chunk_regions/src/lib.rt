//! The regions of one chunk: its passable cells, grouped by straight steps inside the chunk.
//!
//! ```text
//!    1 1 . 2 2        regions are numbered from 1 in the order of their first cells, by row, then by column;
//!    1 . 3 . .        2 and 3 meet at a corner alone, which joins nothing
//!    1 1 . . 4
//! ```
//!
//! [`label`] finds them in one pass, row by row: a span of passable cells gets the region of a span that it touches in the
//! row before. Where it touches two regions, the later is linked to the earlier (disjoint sets), and at the end each region
//! gets its number once. [`Labels`] keeps the spans of each row, and finds the region of a cell among them. Which regions touch across chunks is `region_edges`, and
//! what they join is `reach_sets`.
#![tactic(auto)]

mod bits;
mod label_spans;
mod labels;
mod laws;
mod spans;

pub use bits::ChunkBits;
pub use labels::{Labels, Stretch, label, label_bits, relabel};
pub use laws::{one_area, one_region, same_area, same_region, straight_steps_join};
