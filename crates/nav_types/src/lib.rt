//! Cells, directions, limits, and views of a map: the words that every other crate speaks.
//!
//! A [`Cell`] is a navcell by column `i` and row `j`; row 0 is the southern edge, and north is up:
//!
//! ```text
//!    NW  N  NE        j
//!     W  .  E         ^
//!    SW  S  SE        +--> i
//! ```
//!
//! [`View`] is all that a search asks of a map: its size, and whether a cell is passable. [`FreeCells`] also finds the
//! next passable or blocked cell along a line, and [`Rows`] gives a row's cells as bits. [`Sequence`] is a list whose
//! growth may be refused for memory. The costs of a step and every limit stand in [`limits`]. Nothing here keeps a map.
//!
//! ```rust
//! let size = Size::new(120, 80).expect(&rt, "sides from 1 to 2048");
//! let corner = Cell::new(0, 0);
//! assert!(rt; neighbour(size, corner, Dir::NE) == Some(Cell::new(1, 1)));
//! assert!(rt; neighbour(size, corner, Dir::W).is_none());
//! // Costs are in 65,536ths of a navcell. A chunk has 96 by 96 navcells.
//! assert!(rt; Dir::N.cost() == 65_536 && Dir::NE.cost() == 92_682);
//! assert!(rt; Cell::new(100, 7).chunk() == Chunk { ci: 1, cj: 0 });
//! ```
#![tactic(auto)]

mod cells;
mod directions;
pub mod limits;
mod lines;
mod rects;
mod sequences;
mod straights;
mod ticks;
mod views;

pub use cells::{Cell, Chunk, Class, Cost, Rect, Size};
pub use directions::{Dir, DirSet};
pub use lines::{CellByCell, cell_on, line_on, place_on, side_along};
pub use sequences::{Bytes, NoMemory, Sequence, Words};
pub use straights::{Axis, Diagonal, Heading, Straight, Way};
pub use ticks::Ticks;
pub use views::{Aim, Areas, FreeCells, Rows, View, is_free_beside, legal_steps, neighbour, step};
