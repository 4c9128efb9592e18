//! Ways as numbers: what a game holds of flow fields and of walks.
//!
//! ```text
//!    Field  -->  steps and distances of cells, row by row, in buffers
//!    cells  -->  whether they are the waypoints of a legal walk
//! ```
//!
//! A field is told as plain numbers, which any thread of a game reads in its own memory. Waypoints that come from outside
//! are tested before they are smoothed: [`are_corners`] says exactly where a legal walk has them.
#![tactic(auto)]

mod corners;
mod legs;
mod steps;

pub use corners::are_corners;
pub use steps::{ARRIVED, NO_DISTANCE, NO_STEP, write_distances, write_steps};
