//! The limits of the service, the sides of its chunks and the costs of its steps: each of these numbers stands here alone.

/// The most navcells along one side of a map.
pub const MAX_SIDE: u16 = 2048;

/// The navcells along one side of a chunk.
pub const CHUNK_SIDE: u16 = 96;

/// The most chunks along one side of a map.
pub const MAX_CHUNKS_ALONG: u16 = (MAX_SIDE + CHUNK_SIDE - 1) / CHUNK_SIDE;

/// The most chunks of a map.
pub const MAX_CHUNKS: u16 = MAX_CHUNKS_ALONG * MAX_CHUNKS_ALONG;

/// The navcells of a whole chunk.
pub const CHUNK_CELLS: u16 = CHUNK_SIDE * CHUNK_SIDE;

/// The cost of a straight step: the unit of costs is 1/65536 of it.
pub const STRAIGHT_COST: u64 = 65_536;

/// The cost of a diagonal step: the square root of 2 straight steps, rounded to the nearest unit.
pub const DIAGONAL_COST: u64 = 92_682;

/// The most passability classes of a map.
pub const MAX_CLASSES: u8 = 16;

/// The most callers of a script.
pub const MAX_CALLERS: u8 = 64;

/// The most workers that solve a turn.
pub const MAX_WORKERS: u8 = 64;

/// The greatest clearance of a passability class, in navcells.
pub const MAX_CLEARANCE: u16 = 64;

/// The greatest half side of an obstruction, in navcells.
pub const MAX_HALF_SIDE: u16 = 256;

/// The greatest radius or half side of a goal, in navcells.
pub const MAX_GOAL_EXTENT: u16 = 4096;

/// The greatest distance about an obstruction that is a goal, in navcells: a half side of [`MAX_HALF_SIDE`] grows
/// to at most [`MAX_GOAL_EXTENT`].
pub const MAX_GROWTH: u16 = 3840;

/// The most standing obstructions.
pub const MAX_OBSTRUCTIONS: u32 = 65_536;

/// The most posts in one turn that the running service stages.
pub const MAX_STAGED_POSTS: u64 = 2_147_483_648;

/// The most bytes of a line, without its newline.
pub const MAX_LINE_BYTES: u64 = 8_388_608;

/// The most bytes of a whole input.
pub const MAX_INPUT_BYTES: u64 = 4_294_967_296;
