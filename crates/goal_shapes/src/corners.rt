//! The corners of cells, as raw numbers.
ghost use Rattle.std.specs.Prelude.{◌≡◌, ◌≤◌, ◌^◌, unsigned_abs};
ghost use Rattle.goal_shapes.specs.Goals.{from_edge, corners_of};

use fixed_point::Fixed;
use nav_types::Cell;

/// The four corners of a cell, each by its numbers of navcells along the axes.
pub(crate) fn corners(cell: Cell) -> [(u32, u32); 4]
    ensures { result ≡ corners_of cell }
{
    let west = u32::from(cell.i);
    let south = u32::from(cell.j);
    [
        (west, south),
        (west + 1, south),
        (west, south + 1),
        (west + 1, south + 1),
    ]
}

/// From a coordinate to the edge after `count` columns (or rows), as a raw number.
pub(crate) fn edge_offset(count: u32, x: Fixed) -> i64
    requires { count ≤ 2 ^ 16 }
    ensures value { result ≡ from_edge count x }
    ensures bounded { unsigned_abs result ≤ 2 ^ 33 }
{
    65536 * i64::from(count) - i64::from(x.raw())
}
