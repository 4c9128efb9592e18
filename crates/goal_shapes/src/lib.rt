//! Goals: points, circles and rotated squares, plain or inverted; which cells are goal cells, how remote a cell is, and
//! the bounding box of goal cells.
//!
//! ```text
//!    . . g g .     g  goal cell: the shape meets it       an inverted goal has the other cells
//!    . g g g g     .  remoteness: how far its middle is from the shape, as a number to compare
//!    . . g g .
//! ```
//!
//! A [`Goal`] is a shape, and a [`GoalSpec`] what a request names: a shape, or an obstruction with a distance about it.
//! All numbers are raw fixed-point, and exact. Nothing here looks at a map, and nothing takes memory.
//!
//! ```rust
//! let map = Size::new(12, 8).expect(&rt, "sides from 1 to 2048");
//! let navcells = |count: i32| Fixed::from_raw(65_536 * count);
//! let circle = Goal::Circle {
//!     x: navcells(6),
//!     z: navcells(4),
//!     r: navcells(2),
//! };
//! assert!(rt; check(circle, map) == Ok(circle));
//! assert!(rt; contains(&circle, Cell::new(4, 4)) && !contains(&circle, Cell::new(2, 4)));
//! // Of cells that are no goal cells the one closer to the goal is less remote.
//! assert!(rt; remoteness(&circle, Cell::new(2, 4)) < remoteness(&circle, Cell::new(1, 4)));
//! ```
#![tactic(auto)]

mod aiming;
mod boxes;
mod checking;
mod circles;
mod containing;
mod corners;
mod goals;
mod growing;
mod laws;
mod points;
mod squares;

pub use checking::{GoalRefusal, check};
pub use circles::squared_distance;
pub use containing::{cell_box, contains, remoteness};
pub use goals::{Goal, GoalSpec};
pub use growing::{BadShape, grown};
pub use laws::{grown_goals_are_sound, middle_is_a_goal_cell, one_cell_holds_a_point};
pub use points::cell_of_point;
