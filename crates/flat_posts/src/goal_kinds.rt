//! The kinds of goals of a path.

/// The cell that holds a point.
pub const POINT: u8 = 1;

/// The cells of a circle.
pub const CIRCLE: u8 = 2;

/// The cells outside a circle.
pub const NOT_CIRCLE: u8 = 3;

/// The cells of a rectangle along a unit vector.
pub const SQUARE: u8 = 4;

/// The cells outside such a rectangle.
pub const NOT_SQUARE: u8 = 5;

/// The cells about an obstruction.
pub const OBSTRUCTION: u8 = 6;
