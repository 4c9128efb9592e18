//! Cells.
ghost use Rattle.std.specs.Prelude.{◌≡◌};

use nav_types::Cell;
use std::mem::size_of;

/// A navcell by its column `i` and its row `j`, or a chunk by its column and its row among the chunks.
#[repr(C)]
#[derive(Clone, Copy, Debug, PartialEq, Eq)]
pub struct FlatCell {
    pub i: u16,
    pub j: u16,
}

const _: () = prove!(size_of::<FlatCell>() == 4);

impl FlatCell {
    ghost use Rattle.flat_posts.specs.Cells.{flat_cell};

    /// The flat form of a cell.
    pub fn of(cell: Cell) -> FlatCell
        ensures { result ≡ flat_cell cell }
    {
        FlatCell {
            i: cell.i,
            j: cell.j,
        }
    }
}
