//! A walk, its waypoints, and what a search found.
use nav_types::{Cell, Cost, Dir, Sequence};

/// A walk, as the list of its directions.
pub type Walk = Sequence<Dir>;

/// The waypoints of a walk: the cells where its direction changes, and then its last cell.
pub type Waypoints = Sequence<Cell>;

/// The answer of a search: the end of the chosen walk, its cost and its waypoints.
#[derive(Debug, Drop)]
pub struct Found {
    pub end: Cell,
    pub cost: Cost,
    pub waypoints: Waypoints,
}
