//! The region edges of two neighbouring chunks: which regions of the one touch which of the other.
//!
//! ```text
//!    chunk   | east of it
//!    1 1 1   | 4 4 . .        edges: 1-4, 2-5; each pair once, in order
//!    . . .   | . . . .
//!    2 2 2   | 5 5 . .
//! ```
//!
//! [`between`] walks along the common border. A step across a corner joins nothing, as inside a chunk.
#![tactic(auto)]

mod borders;
mod laws;
mod neighbours;

pub use laws::one_edge_list;
pub use neighbours::{ChunkSide, Edges, between};
