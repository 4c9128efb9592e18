//! Lines of sight over a view of a map, and the fewest waypoints of a walk that clear straight segments join.
//!
//! ```text
//!    a . . # .        a segment is clear where it touches no blocked cell, corners included
//!    . . . # .        a-b is clear here, and of all waypoints between the two none is kept
//!    . . . . b
//! ```
//!
//! [`smooth`] gives the chosen shortest list of waypoints of a walk. Segments run between middles of cells, and a unit's
//! width is in its class's clearance already. Costs are not looked at: a smoothed path may be longer than another one.
#![tactic(auto)]

mod laws;
mod segments;
mod smoothing;

pub use laws::{clear_legs, one_smoothed, touches_by_offsets};
pub use segments::{blocker, clear};
pub use smoothing::{MAX_RISE, smooth};
