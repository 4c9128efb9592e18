//! Obstructions: squares and rotated rectangles on a map, which cells they block, and how far they reach.
//!
//! A cell is blocked for a class where its middle is at most the class's clearance away from the shape:
//!
//! ```text
//!     . . x x . .      #  the middle of the cell is in the rectangle
//!     . x # # x .      x  it is within the clearance
//!     . x # # x .
//!     . . x x . .
//! ```
//!
//! So the cells of one row are one run ([`blocked_cells_are_one_run`]). [`check`] refuses a shape whose middle, half
//! sides or axes are off the limits. All numbers are raw fixed-point, and exact. Nothing here takes memory.
#![tactic(auto)]

mod blocking;
mod laws;
mod reaching;
mod shapes;

pub use blocking::blocks;
pub use laws::blocked_cells_are_one_run;
pub use reaching::reach_rect;
pub use shapes::{BadShape, Obstruction, Shape, check};
