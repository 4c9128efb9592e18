//! Walks over a view of a map: cost, waypoints, and the plain search for the chosen walk.
//!
//! Of the cheapest legal walks one is *chosen*: back from the end it goes straight on N, E, S or W where a cheapest walk
//! may, else by the first in a fixed order of directions (`specs/Chosen.antt`). [`plain_search`] finds it by distances of
//! all cells (Dijkstra): slow, short, and what the jump search is held to. A [`Walk`] is a list of directions; its waypoints are
//! the middles of the cells where the direction changes.
#![tactic(auto)]

mod distances;
mod found_walk;
mod measures;
mod places;
mod search;
mod sweeps;

pub use distances::reversed;
pub use found_walk::{Found, Walk, Waypoints};
pub use measures::{cost, waypoints};
pub use search::{one_answer, plain_search};
