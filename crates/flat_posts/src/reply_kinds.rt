//! The kinds of replies.

/// An obstruction was added.
pub const ADDED: u8 = 1;

/// An obstruction was removed.
pub const REMOVED: u8 = 2;

/// An obstruction was moved.
pub const MOVED: u8 = 3;

/// The post was refused.
pub const REFUSED: u8 = 4;

/// No cell of the map is passable for the class.
pub const NOWHERE: u8 = 5;

/// A path that ends at a goal cell.
pub const AT_GOAL: u8 = 6;

/// A path that ends as near to the goal as it can.
pub const NEAR_GOAL: u8 = 7;

/// The region and the area at a point.
pub const IN_REGION: u8 = 8;

/// A path costs more than it may: of a find within a greatest cost, and never of a turn.
pub const TOO_FAR: u8 = 9;
