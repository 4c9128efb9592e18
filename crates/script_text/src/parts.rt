//! The parts of a script.
use nav_types::Size;

/// What the lines after the map line keep to: the size of the map, the version of the script and the number of callers.
#[derive(Clone, Copy)]
pub struct Rules {
    pub size: Size,
    pub version: u8,
    pub callers: u8,
}

/// The part of a script that a place lies in.
#[derive(Clone, Copy)]
pub enum Part {
    /// Before the map line.
    BeforeMap,
    /// Where base lines may stand.
    InBase(Rules),
    /// Among the lines of turns.
    InTurns(Rules),
}
