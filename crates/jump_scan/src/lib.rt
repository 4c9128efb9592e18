//! What a jump search scans: the successors of a cell, and where straight and diagonal runs stop (jump points).
//!
//! ```text
//!    . . # f .        a run to the east passes the wall; beside the wall's end f is forced,
//!    > > > s .        so the run stops at s
//! ```
//!
//! The rules are those of Harabor and Grastien, "Online Graph Pruning for Pathfinding on Grid Maps", AAAI 2011, for
//! legal steps, which cut no corner: a neighbour is forced one cell past the blocked one. [`Runs`] answers where a run
//! stops; [`CellRuns`] does it cell by cell over any view, `class_planes` by bitboards.
#![tactic(auto)]

mod cell_runs;
mod laws;
mod pruning;
mod run_views;
mod scans;
mod turns;

pub use cell_runs::CellRuns;
pub use laws::{forced_where_a_side_opens, one_stop};
pub use pruning::{beside, successors, successors_among};
pub use run_views::Runs;
pub use scans::{diagonal, diagonal_within, straight};
