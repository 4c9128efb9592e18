//! The units of the numbers in a table, and how many tables there are.

/// The most tables of a class.
pub const MAX_TABLES: usize = 8;

/// The units of a straight step.
pub const STRAIGHT_UNITS: u16 = 12;

/// The units of a diagonal step.
pub const DIAGONAL_UNITS: u16 = 17;

/// The cost of a unit: 12 of them cost no more than a straight step, and 17 no more than a diagonal one.
pub const UNIT_COST: u64 = 5_451;

/// The greatest number in a table: that of a cell that is farther than this, or can't be walked to.
pub const FARTHEST: u16 = 65_534;
