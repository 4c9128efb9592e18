//! The kinds of posts.

/// Adds an obstruction: a square along the axes of the map.
pub const ADD_UNIT: u8 = 1;

/// Adds an obstruction: a rectangle along a unit vector.
pub const ADD_SQUARE: u8 = 2;

/// Removes an obstruction.
pub const REMOVE: u8 = 3;

/// Moves an obstruction.
pub const MOVE: u8 = 4;

/// Asks for a path.
pub const PATH: u8 = 5;

/// Asks for the region and the area at a point.
pub const REGION: u8 = 6;
