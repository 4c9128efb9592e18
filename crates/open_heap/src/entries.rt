//! What an open list holds.

/// A key with its estimate.
///
/// The estimate is a plain number to the open list. A search gives the estimated cost of a walk, in cost units of 65536
/// for each straight step.
#[derive(Clone, Copy, Debug, PartialEq, Eq)]
pub struct Entry {
    pub estimate: u64,
    pub key: u32,
}
