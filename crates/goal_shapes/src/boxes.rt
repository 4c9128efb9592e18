//! The rectangle of cells that a point, a circle or a square can hold.
ghost use Rattle.std.specs.Prelude.{◌≤◌, ◌<◌, ◌^◌, ◌↔◌, ℕ, unsigned_abs};
ghost use Rattle.nav_types.specs.declared.cells.Cell.{Cell};
ghost use Rattle.nav_types.specs.Cells.{IsInside, IsInRect, IsRectInside};
ghost use Rattle.nav_types.specs.Frames.{IsFrame};
ghost use Rattle.fixed_point.specs.Plane.{from_centre, IsOnAxis};
ghost use Rattle.goal_shapes.specs.Limits.{IsWellFormedSquare};
ghost use Rattle.goal_shapes.specs.Goals.{holds_point, is_near_circle, meets_axes};

use crate::points::cell_of_point;
use crate::squares::axis_reach;
use fixed_point::{Fixed, Rectangle, columns_near, magnitude};
use nav_types::{Rect, Size};

/// The box of the one cell that holds a point of the map.
pub(crate) fn point_box(x: Fixed, z: Fixed, size: Size) -> Rect
    requires column { IsOnAxis size.w x }
    requires row { IsOnAxis size.h z }
    ensures { IsFrame (holds_point x z) size result }
{
    match cell_of_point(x, z, size) {
        Some(cell) => Rect::of_cell(cell),
        None => unreachable!(),
    }
}

/// The box of the cells whose column and row lie no further than `r` from a point of the map.
pub(crate) fn circle_box(x: Fixed, z: Fixed, r: Fixed, size: Size) -> Rect
    requires column { IsOnAxis size.w x }
    requires row { IsOnAxis size.h z }
    ensures { IsFrame (is_near_circle x z r) size result }
{
    let reach = 32768 + magnitude(r);
    near_box(x, z, reach, reach, size)
}

/// The box of the cells that no axis of the map separates from a rectangle whose middle lies on the map.
pub(crate) fn square_box(rectangle: &Rectangle, size: Size) -> Rect
    requires sides { IsWellFormedSquare rectangle.now }
    requires column { IsOnAxis size.w rectangle.now.x }
    requires row { IsOnAxis size.h rectangle.now.z }
    ensures { IsFrame (meets_axes rectangle.now) size result }
{
    let Rectangle {
        x,
        z,
        ux,
        uz,
        hw,
        hh,
    } = *rectangle;
    near_box(
        x,
        z,
        axis_reach(ux, uz, hw, hh),
        axis_reach(uz, ux, hw, hh),
        size,
    )
}

/// The box of the cells whose middle is no further than the reaches from a point of the map along the axes.
fn near_box(x: Fixed, z: Fixed, reach_x: u64, reach_z: u64, size: Size) -> Rect
    requires column { IsOnAxis size.w x }
    requires row { IsOnAxis size.h z }
    requires columns { (32768 ≤ reach_x) × (reach_x ≤ 2 ^ 34) }
    requires rows { (32768 ≤ reach_z) × (reach_z ≤ 2 ^ 34) }
    ensures inside { IsRectInside size result }
    ensures near { (cell : Cell) → IsInside size cell
        → (IsInRect result cell
        ↔ ((unsigned_abs (from_centre cell.i x) ≤ reach_x) × (unsigned_abs (from_centre cell.j z) ≤ reach_z))) }
{
    let (i0, i1) = reached(x, reach_x, size.w);
    let (j0, j1) = reached(z, reach_z, size.h);
    Rect { i0, j0, i1, j1 }
}

/// The first and the last of `count` columns (or rows) whose middle is no further than the reach from a
/// coordinate on the map. That of the column that holds it is.
fn reached(x: Fixed, reach: u64, count: u16) -> (u16, u16)
    requires on_map { IsOnAxis count x }
    requires reach { (32768 ≤ reach) × (reach ≤ 2 ^ 34) }
    ensures order { result.0 ≤ result.1 }
    ensures inside { result.1 < count }
    ensures near { (i : ℕ) → i < count
        → (((result.0 ≤ i) × (i ≤ result.1)) ↔ (unsigned_abs (from_centre i x) ≤ reach)) }
{
    match columns_near(x, reach, count) {
        Some(span) => span,
        // The column that holds the coordinate is within its reach, which is half a navcell or more.
        None => unreachable!(),
    }
}
