//! The rows of a part of the map outside which a shape blocks no cell of it.
//!
//! A long and thin shape that is turned blocks cells in few of the rows of most chunks that its reach meets. The middle of a blocked cell lies no further past a half side than the clearance, along the unit vector and across it. Both
//! lengths change by one amount from row to row, and by so much at most from the rectangle's first column to another, so each
//! leaves the rows between two quotients.
ghost use Rattle.std.specs.Prelude.{◌≡◌, ◌≤◌, ◌+◌, ◌-◌, ◌*◌, ◌^◌, ℕ, unsigned_abs, IfSome, IfNone, IsTrue};
ghost use Rattle.nav_types.specs.declared.cells.Cell.{Cell};
ghost use Rattle.nav_types.specs.Cells.{IsInRect, IsRectInside, cell_at};
ghost use Rattle.nav_types.specs.Rects.{IsPartOf};
ghost use Rattle.obstruction_shapes.specs.Shapes.{FitsMap, HasUnitVector};
ghost use Rattle.obstruction_shapes.specs.Blocking.{blocked};

use crate::reaches::reach_in;
use crate::windows::{slope, steps_near};
use fixed_point::{Fixed, scaled};
use nav_types::{Rect, Size};
use obstruction_shapes::Shape;

/// A rectangle of the part that holds each cell of it that the shape blocks with this clearance: its reach, without rows at the
/// south and the north in which a turned shape blocks none. None only where there is no such cell.
pub fn met_part(shape: &Shape, clearance: Fixed, part: Rect, size: Size) -> Option<Rect>
    requires fits { FitsMap size shape.now }
    requires inside { IsRectInside size part }
    ensures part { IfSome result (IsPartOf part) }
    ensures blocked { IfSome result (λ rect. (cell : Cell) → IsInRect part cell
        → IsTrue (blocked shape.now clearance cell) → IsInRect rect cell) }
    ensures none { IfNone result ((cell : Cell) → IsInRect part cell → ¬ IsTrue (blocked shape.now clearance cell)) }
{
    let reach = reach_in(shape, clearance, part, size)?;
    met_rows(shape, clearance, reach)
}

/// The rectangle without rows at its south and north in which the shape blocks no cell of it, with this clearance: each cell
/// of the rectangle that it blocks lies in the answer. None only where it blocks none.
///
/// Of a shape along the axes of the map the rectangle is left as it is: it is hardly ever higher than what the shape blocks.
fn met_rows(shape: &Shape, clearance: Fixed, rect: Rect) -> Option<Rect>
    requires vector { HasUnitVector shape.now }
    requires columns { rect.i0 ≤ rect.i1 }
    requires rows { rect.j0 ≤ rect.j1 }
    ensures part { IfSome result (IsPartOf rect) }
    ensures blocked { IfSome result (λ rows. (cell : Cell) → IsInRect rect cell
        → IsTrue (blocked shape.now clearance cell) → IsInRect rows cell) }
    ensures none { IfNone result ((cell : Cell) → IsInRect rect cell → ¬ IsTrue (blocked shape.now clearance cell)) }
{
    if is_upright(shape) {
        return Some(rect);
    }
    let along = rows_along(shape, clearance, rect)?;
    let across = rows_across(shape, clearance, rect)?;
    let first = along.0.max(across.0);
    let last = along.1.min(across.1);
    if first <= last {
        let j0 = rect.j0 + first;
        let j1 = rect.j0 + last;
        Some(Rect { j0, j1, ..rect })
    } else {
        None
    }
}

/// Whether the shape lies along the axes of the map.
fn is_upright(shape: &Shape) -> bool {
    let turned = shape.turned();
    turned.ux.raw() == 0 || turned.uz.raw() == 0
}

/// The first and the last number of rows, after which a row of the rectangle has a column that is near enough to the shape
/// along its unit vector, counted from the rectangle's first row.
fn rows_along(shape: &Shape, clearance: Fixed, rect: Rect) -> Option<(u16, u16)>
    requires vector { HasUnitVector shape.now }
    requires columns { rect.i0 ≤ rect.i1 }
    requires rows { rect.j0 ≤ rect.j1 }
    ensures within { IfSome result (λ run. run.1 ≤ rect.j1 - rect.j0) }
    ensures blocked { IfSome result (λ run. (i k : ℕ) → rect.i0 ≤ i → i ≤ rect.i1 → k ≤ rect.j1 - rect.j0
        → IsTrue (blocked shape.now clearance (cell_at i (rect.j0 + k))) → (run.0 ≤ k) × (k ≤ run.1)) }
    ensures none { IfNone result ((i k : ℕ) → rect.i0 ≤ i → i ≤ rect.i1 → k ≤ rect.j1 - rect.j0
        → ¬ IsTrue (blocked shape.now clearance (cell_at i (rect.j0 + k)))) }
{
    let turned = shape.turned();
    let most = scaled(turned.hw) + scaled(clearance) + change(turned.ux, rect.i1 - rect.i0);
    steps_near(
        turned.centre_along(rect.i0, rect.j0),
        slope(turned.uz),
        most,
        rect.j1 - rect.j0,
    )
}

/// The same across the unit vector.
fn rows_across(shape: &Shape, clearance: Fixed, rect: Rect) -> Option<(u16, u16)>
    requires vector { HasUnitVector shape.now }
    requires columns { rect.i0 ≤ rect.i1 }
    requires rows { rect.j0 ≤ rect.j1 }
    ensures within { IfSome result (λ run. run.1 ≤ rect.j1 - rect.j0) }
    ensures blocked { IfSome result (λ run. (i k : ℕ) → rect.i0 ≤ i → i ≤ rect.i1 → k ≤ rect.j1 - rect.j0
        → IsTrue (blocked shape.now clearance (cell_at i (rect.j0 + k))) → (run.0 ≤ k) × (k ≤ run.1)) }
    ensures none { IfNone result ((i k : ℕ) → rect.i0 ≤ i → i ≤ rect.i1 → k ≤ rect.j1 - rect.j0
        → ¬ IsTrue (blocked shape.now clearance (cell_at i (rect.j0 + k)))) }
{
    let turned = shape.turned();
    let most = scaled(turned.hh) + scaled(clearance) + change(turned.uz, rect.i1 - rect.i0);
    steps_near(
        turned.centre_across(rect.i0, rect.j0),
        slope(turned.ux),
        most,
        rect.j1 - rect.j0,
    )
}

/// By how much a length changes over so many columns, which has this component of the unit vector along them.
fn change(component: Fixed, columns: u16) -> u64
    requires { unsigned_abs component ≤ 65792 }
    ensures value { result ≡ 65536 * unsigned_abs component * columns }
    ensures bounded { result ≤ 2 ^ 49 }
{
    scaled(component) * u64::from(columns)
}
