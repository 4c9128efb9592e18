//! Cells and squares, turned or not: which they meet, and how far away they are.
ghost use Rattle.std.specs.Prelude.{◌≡◌, ◌≤◌, ◌+◌, ◌*◌, ◌^◌, ◌↔◌, ℤ, unsigned_abs, IsTrue};
ghost use Rattle.std.specs.List.{list_any};
ghost use Rattle.nav_types.specs.declared.limits.TheConstants.{MAX_GOAL_EXTENT};
ghost use Rattle.fixed_point.specs.Plane.{IsUnitVector, IsUpTo};
ghost use Rattle.goal_shapes.specs.Limits.{IsWellFormedSquare};
ghost use Rattle.goal_shapes.specs.Goals.{corners_of, squared_length, meets_axis, meets_axes, meets_side, meets_sides, meets_square, is_off_square, within, depth};

use crate::corners::{corners, edge_offset};
use fixed_point::{Fixed, Rectangle, magnitude, offset, scaled, squared};
use nav_types::Cell;

/// Whether no axis of the map or of the rectangle separates it from the cell.
pub(crate) fn square_meets(rectangle: &Rectangle, cell: Cell) -> bool
    requires { IsWellFormedSquare rectangle.now }
    ensures { result ≡ meets_square rectangle.now cell }
{
    are_axes_met(rectangle, cell) && are_sides_met(rectangle, cell)
}

/// Whether no axis of the map separates the rectangle from the cell.
fn are_axes_met(rectangle: &Rectangle, cell: Cell) -> bool
    requires { IsWellFormedSquare rectangle.now }
    ensures { result ≡ meets_axes rectangle.now cell }
{
    let Rectangle {
        x,
        z,
        ux,
        uz,
        hw,
        hh,
    } = *rectangle;
    is_axis_met(offset(cell.i, x), ux, uz, hw, hh) && is_axis_met(offset(cell.j, z), uz, ux, hw, hh)
}

/// Whether no axis of the rectangle separates it from the cell.
fn are_sides_met(rectangle: &Rectangle, cell: Cell) -> bool
    requires { IsUnitVector rectangle.now.ux rectangle.now.uz }
    ensures { result ≡ meets_sides rectangle.now cell }
{
    is_side_met(
        rectangle,
        rectangle.hw,
        rectangle.centre_along(cell.i, cell.j),
    ) && is_side_met(
        rectangle,
        rectangle.hh,
        rectangle.centre_across(cell.i, cell.j),
    )
}

/// Whether some corner of the cell does not lie within the rectangle, off its rim.
pub(crate) fn leaves_square(rectangle: &Rectangle, cell: Cell) -> bool
    requires { IsUnitVector rectangle.now.ux rectangle.now.uz }
    ensures { result ≡ list_any (is_off_square rectangle.now) (corners_of cell) }
{
    corners(cell)
        .iter()
        .any(|corner| is_corner_off(rectangle, corner.0, corner.1))
}

/// Whether the corner after so many columns and rows does not lie within the rectangle, off its rim.
fn is_corner_off(rectangle: &Rectangle, columns: u32, rows: u32) -> bool
    requires unit_vector { IsUnitVector rectangle.now.ux rectangle.now.uz }
    requires columns { columns ≤ 2 ^ 16 }
    requires rows { rows ≤ 2 ^ 16 }
    ensures { result ≡ is_off_square rectangle.now (columns, rows) }
{
    let px = edge_offset(columns, rectangle.x);
    let pz = edge_offset(rows, rectangle.z);
    scaled(rectangle.hw) <= rectangle.length_along(px, pz).unsigned_abs()
        || scaled(rectangle.hh) <= rectangle.length_across(px, pz).unsigned_abs()
}

/// How deep the cell's middle lies within the sides, as a raw number times 65536, and 0 past them.
pub(crate) fn depth(rectangle: &Rectangle, cell: Cell) -> u64
    requires { IsUnitVector rectangle.now.ux rectangle.now.uz }
    ensures { result ≡ depth rectangle.now cell }
{
    let along = depth_within(rectangle.centre_along(cell.i, cell.j), rectangle.hw);
    let across = depth_within(rectangle.centre_across(cell.i, cell.j), rectangle.hh);
    along.min(across)
}

/// Whether an axis of the map separates no rectangle with these half sides from a cell whose middle is
/// `p` away along the axis, where the unit vector has the component `main` along that axis.
#[tactic(auto, unfolding(crate::specs::Goals::meets_axis))]
fn is_axis_met(p: i64, main: Fixed, other: Fixed, hw: Fixed, hh: Fixed) -> bool
    requires length { unsigned_abs p ≤ 2 ^ 33 }
    requires unit_vector { IsUnitVector main other }
    requires width { IsUpTo MAX_GOAL_EXTENT hw }
    requires height { IsUpTo MAX_GOAL_EXTENT hh }
    ensures { result ≡ meets_axis p main other hw hh }
{
    times_length(p.unsigned_abs(), main, other) <= axis_extent(main, other, hw, hh)
}

/// How far from a rectangle's middle along an axis of the map the middle of a cell lies at most, as a raw
/// number, where that axis does not separate the two.
pub(crate) fn axis_reach(main: Fixed, other: Fixed, hw: Fixed, hh: Fixed) -> u64
    requires unit_vector { IsUnitVector main other }
    requires width { IsUpTo MAX_GOAL_EXTENT hw }
    requires height { IsUpTo MAX_GOAL_EXTENT hh }
    ensures met { (p : ℤ) → IsTrue (meets_axis p main other hw hh) ↔ (unsigned_abs p ≤ result) }
    ensures half { 32768 ≤ result }
    ensures bounded { result ≤ 2 ^ 34 }
{
    (axis_extent(main, other, hw, hh) / times_length(1, main, other)) as u64
}

/// A length times the squared length of a unit vector.
fn times_length(length: u64, ux: Fixed, uz: Fixed) -> u128
    requires length { length ≤ 2 ^ 33 }
    requires unit_vector { IsUnitVector ux uz }
    ensures value { result ≡ length * squared_length ux uz }
    ensures bounded { result ≤ 2 ^ 66 }
{
    u128::from(length) * (squared(magnitude(ux)) + squared(magnitude(uz)))
}

/// What a rectangle and half a cell span along an axis of the map, times the squared length of the unit
/// vector.
fn axis_extent(main: Fixed, other: Fixed, hw: Fixed, hh: Fixed) -> u128
    requires unit_vector { IsUnitVector main other }
    requires width { IsUpTo MAX_GOAL_EXTENT hw }
    requires height { IsUpTo MAX_GOAL_EXTENT hh }
    ensures value { result
        ≡ 32768 * squared_length main other
        + 65536 * (unsigned_abs hw * unsigned_abs main + unsigned_abs hh * unsigned_abs other) }
    ensures bounded { result ≤ 2 ^ 63 }
{
    let sides = turned_side(hw, main) + turned_side(hh, other);
    times_length(32768, main, other) + 65536 * u128::from(sides)
}

/// A half side times a component of a unit vector.
fn turned_side(half: Fixed, component: Fixed) -> u64
    requires half { IsUpTo MAX_GOAL_EXTENT half }
    requires component { unsigned_abs component ≤ 65792 }
    ensures value { result ≡ unsigned_abs half * unsigned_abs component }
    ensures bounded { result ≤ 2 ^ 28 * 65792 }
{
    magnitude(half) * magnitude(component)
}

/// Whether an axis of a rectangle, with this half side along it, separates it from no cell whose middle
/// has this place along the axis.
fn is_side_met(rectangle: &Rectangle, half: Fixed, length: i64) -> bool
    ensures { result ≡ meets_side rectangle.now half length }
{
    length.unsigned_abs()
        <= scaled(half) + 32768 * (magnitude(rectangle.ux) + magnitude(rectangle.uz))
}

/// How deep a length times 65536 lies within a half side, and 0 past it.
fn depth_within(length: i64, half: Fixed) -> u64
    ensures { result ≡ within length half }
{
    scaled(half).saturating_sub(length.unsigned_abs())
}
