//! Why a post is refused.

/// A shape or a goal is not within its limits.
pub const BAD_SHAPE: u8 = 1;

/// An obstruction stands under the number already.
pub const DUPLICATE_ID: u8 = 2;

/// As many obstructions stand as may at one time.
pub const STORE_FULL: u8 = 3;

/// No obstruction stands under the number.
pub const UNKNOWN_ID: u8 = 4;

/// The map has no class of the name.
pub const UNKNOWN_CLASS: u8 = 5;

/// The start lies outside the map.
pub const START_OUTSIDE: u8 = 6;

/// The goal lies outside the map.
pub const GOAL_OUTSIDE: u8 = 7;
