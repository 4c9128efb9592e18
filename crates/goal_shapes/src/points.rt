//! Cells and points: which holds one, and how far away the others are.
ghost use Rattle.std.specs.Prelude.{◌≡◌, ◌≤◌, ◌+◌, ◌*◌, ◌^◌, ◌↔◌, pos, ◌≤ℤ◌, IsSome, IfSome};
ghost use Rattle.fixed_point.specs.Raw.{floor_of};
ghost use Rattle.fixed_point.specs.Plane.{square, IsOnAxis};
ghost use Rattle.nav_types.specs.Cells.{IsInside};
ghost use Rattle.goal_shapes.specs.Goals.{HoldsPoint, holds_point, columns_from};

use fixed_point::{Fixed, is_on_axis, magnitude, squared};
use nav_types::{Cell, Size};

/// The cell of a map that holds the point (`HoldsPoint`). `None` exactly where the point does not lie on the
/// map (`IsOnAxis`).
pub fn cell_of_point(x: Fixed, z: Fixed, size: Size) -> Option<Cell>
    ensures on_map { IsSome result ↔ (IsOnAxis size.w x × IsOnAxis size.h z) }
    ensures holds { IfSome result (λ cell. HoldsPoint x z cell) }
    ensures inside { IfSome result (λ cell. IsInside size cell) }
{
    if is_on_axis(x, size.w) && is_on_axis(z, size.h) {
        Some(Cell::new(column_of(x), column_of(z)))
    } else {
        None
    }
}

/// The column (or row) that holds a coordinate that is not negative.
fn column_of(x: Fixed) -> u16
    requires { pos 0 ≤ℤ x }
    ensures { floor_of x ≡ pos result }
{
    (magnitude(x) / 65536) as u16
}

/// Whether the cell holds the point.
pub(crate) fn is_held(x: Fixed, z: Fixed, cell: Cell) -> bool
    ensures { result ≡ holds_point x z cell }
{
    x.floor() == i32::from(cell.i) && z.floor() == i32::from(cell.j)
}

/// The squared distance of the cell from the one that holds the point, times 2^32.
pub(crate) fn squared_cells_from(x: Fixed, z: Fixed, cell: Cell) -> u128
    ensures { result ≡ 2 ^ 32 * (square (columns_from cell.i x) + square (columns_from cell.j z)) }
{
    (1 << 32) * (squared_columns_from(cell.i, x) + squared_columns_from(cell.j, z))
}

/// The squared number of columns (or rows) from the one that holds a coordinate to column `i`.
fn squared_columns_from(i: u16, x: Fixed) -> u128
    ensures value { result ≡ square (columns_from i x) }
    ensures bounded { result ≤ 2 ^ 34 }
{
    squared(columns_away(i, x))
}

/// The number of columns (or rows) from the one that holds a coordinate to column `i`.
fn columns_away(i: u16, x: Fixed) -> u64
    ensures value { result ≡ columns_from i x }
    ensures bounded { result ≤ 2 ^ 17 }
{
    (i64::from(i) - i64::from(x.floor())).unsigned_abs()
}
