//! Jump states: a cell and the direction of arrival.
use nav_types::{Cell, Dir};

/// A jump state: a cell, and the direction of the run that came to it. The start has none.
#[derive(Clone, Copy, Debug, PartialEq, Eq, Hash)]
pub struct JumpState {
    pub cell: Cell,
    pub arrived: Option<Dir>,
}
