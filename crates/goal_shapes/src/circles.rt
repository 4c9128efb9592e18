//! Cells and circles: which they meet, and how far away they are.
ghost use Rattle.std.specs.Prelude.{◌≡◌, ◌≤◌, ◌-◌, ◌^◌, unsigned_abs};
ghost use Rattle.std.specs.List.{list_any};
ghost use Rattle.goal_shapes.specs.Goals.{gap, corners_of, squared_length, squared_distance, meets_circle, is_off_circle};

use crate::corners::{corners, edge_offset};
use fixed_point::{Fixed, magnitude, offset, squared};
use nav_types::Cell;

/// The squared distance from the point (`x`, `z`) to the middle of a cell, as a raw number squared.
pub fn squared_distance(x: Fixed, z: Fixed, cell: Cell) -> u128
    ensures { result ≡ squared_distance x z cell }
{
    length_squared(offset(cell.i, x), offset(cell.j, z))
}

/// Whether a circle meets the cell.
pub(crate) fn circle_meets(x: Fixed, z: Fixed, r: Fixed, cell: Cell) -> bool
    ensures { result ≡ meets_circle x z r cell }
{
    squared(gap_of(cell.i, x)) + squared(gap_of(cell.j, z)) <= squared(magnitude(r))
}

/// Whether some corner of the cell lies no nearer than `r` to the point (`x`, `z`).
pub(crate) fn leaves_circle(x: Fixed, z: Fixed, r: Fixed, cell: Cell) -> bool
    ensures { result ≡ list_any (is_off_circle x z r) (corners_of cell) }
{
    corners(cell)
        .iter()
        .any(|corner| is_corner_off(x, z, r, corner.0, corner.1))
}

/// Whether the corner after so many columns and rows lies no nearer than `r` to the point (`x`, `z`).
fn is_corner_off(x: Fixed, z: Fixed, r: Fixed, columns: u32, rows: u32) -> bool
    requires columns { columns ≤ 2 ^ 16 }
    requires rows { rows ≤ 2 ^ 16 }
    ensures { result ≡ is_off_circle x z r (columns, rows) }
{
    squared(magnitude(r)) <= length_squared(edge_offset(columns, x), edge_offset(rows, z))
}

/// By how much column (or row) `i` lies away from a coordinate, as a raw number: 0 where it holds it.
pub(crate) fn gap_of(i: u16, x: Fixed) -> u64
    ensures value { result ≡ gap i x }
    ensures bounded { result ≤ 2 ^ 33 }
{
    offset(i, x).unsigned_abs().saturating_sub(32768)
}

/// The squared raw length of the way (`px`, `pz`).
fn length_squared(px: i64, pz: i64) -> u128
    requires column { unsigned_abs px ≤ 2 ^ 33 }
    requires row { unsigned_abs pz ≤ 2 ^ 33 }
    ensures { result ≡ squared_length px pz }
{
    squared(px.unsigned_abs()) + squared(pz.unsigned_abs())
}
