//! Jump point search: the chosen cheapest walk from a cell to a target.
//!
//! ```text
//!    open list --> jump state (cell, direction) --> its successors' runs --> jump points --> open list
//! ```
//!
//! A [`Question`] is answered by [`JumpSearch`]: `trace` gives the very walk of `walks::plain_search` and counts all jump
//! states within its cost, `find` gives the walk alone, for less. Both keep their memory in a [`Pool`]. A [`Guided`] question
//! is found by an [`Estimate`] of its own. `jump_search_in` and `jump_find_in` are the same for a caller who counts each
//! opened jump state as a tick.
//!
//! A walk is traced back from the end by costs, so it does not depend on the order of equal estimates. The rules are those
//! of Harabor and Grastien, "Online Graph Pruning for Pathfinding on Grid Maps", AAAI 2011, for legal steps, which cut no
//! corner.
#![tactic(auto)]

mod bounded_aims;
mod estimates;
mod frontier;
mod known_successors;
mod laws;
mod looks;
mod near_searches;
mod nodes;
mod octile;
mod pages;
mod problems;
mod rooms;
mod search;
mod searching;
mod states;
mod tracing;
mod ways_out;

pub use estimates::{CostlyEstimate, Estimate, Marked, TargetEstimate};
pub use laws::{one_opened_number, one_pruned_cost};
pub use problems::{Guided, Question};
pub use rooms::{Disc, TurnedRoom};
pub use search::{JumpSearch, Pool, Traced, jump_search, jump_search_with};
pub use searching::Best;
pub use states::JumpState;
