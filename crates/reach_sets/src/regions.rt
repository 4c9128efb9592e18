//! The numbers of regions, and pairs of them that touch.
use nav_types::Sequence;

/// A region of a chunk. Regions are ordered by chunk, then by number.
#[derive(Clone, Copy, Debug, PartialEq, Eq, PartialOrd, Ord)]
pub struct RegionId {
    /// The chunk's place in the order chunk row, chunk column, from 0.
    pub chunk: u32,
    /// The region's number in its chunk, from 1. The number 0 is no region: it stands for impassable cells.
    pub region: u16,
}

/// Pairs of regions that touch. Each link is read both ways.
pub type Links = Sequence<(RegionId, RegionId)>;
