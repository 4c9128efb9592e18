//! The window of columns of one row, outside which a shape blocks nothing.
//!
//! The middle of a blocked cell lies no further past a half side than the clearance, along the unit vector and across
//! it. Both lengths change by one amount from column to column, so each leaves the columns between two quotients.
ghost use Rattle.std.specs.Prelude.{◌≡◌, ◌≤◌, ◌<◌, ◌*◌, ◌+◌, ◌-◌, ◌^◌, ◌+ℤ◌, ◌*ℤ◌, ◌↔◌, ℕ, pos, neg_ℤ, unsigned_abs, IfSome, IfNone, IsTrue, IsFalse};
ghost use Rattle.nav_types.specs.Cells.{cell_at};
ghost use Rattle.obstruction_shapes.specs.Shapes.{HasUnitVector};
ghost use Rattle.obstruction_shapes.specs.Blocking.{blocked};

use fixed_point::{Fixed, scaled};
use nav_types::Rect;
use obstruction_shapes::Shape;

/// The first and the last column of the rectangle that the shape can block in row `j`, with this clearance: each
/// column of the rectangle that it blocks is one of them or between them. None only where it blocks no column of it.
pub fn window(shape: &Shape, clearance: Fixed, rect: Rect, j: u16) -> Option<(u16, u16)>
    requires vector { HasUnitVector shape.now }
    requires ordered { rect.i0 ≤ rect.i1 }
    ensures within { IfSome result (λ columns. (rect.i0 ≤ columns.0) × (columns.0 ≤ columns.1) × (columns.1 ≤ rect.i1)) }
    ensures blocked { IfSome result (λ columns. (i : ℕ) → rect.i0 ≤ i → i ≤ rect.i1 → IsTrue (blocked shape.now clearance (cell_at i j)) → (columns.0 ≤ i) × (i ≤ columns.1)) }
    ensures none { IfNone result ((i : ℕ) → rect.i0 ≤ i → i ≤ rect.i1 → IsFalse (blocked shape.now clearance (cell_at i j))) }
{
    let end = rect.i1 - rect.i0;
    let along = steps_along(shape, clearance, rect.i0, j, end)?;
    let across = steps_across(shape, clearance, rect.i0, j, end)?;
    let first = along.0.max(across.0);
    let last = along.1.min(across.1);
    if first <= last {
        Some((rect.i0 + first, rect.i0 + last))
    } else {
        None
    }
}

/// The first and the last number of columns from 0 to `end`, after which a column of row `j` is near enough to the
/// shape along its unit vector, counted from the column `first`.
fn steps_along(shape: &Shape, clearance: Fixed, first: u16, j: u16, end: u16) -> Option<(u16, u16)>
    requires vector { HasUnitVector shape.now }
    ensures within { IfSome result (λ run. run.1 ≤ end) }
    ensures blocked { IfSome result (λ run. (k : ℕ) → k ≤ end → IsTrue (blocked shape.now clearance (cell_at (first + k) j)) → (run.0 ≤ k) × (k ≤ run.1)) }
    ensures none { IfNone result ((k : ℕ) → k ≤ end → ¬ IsTrue (blocked shape.now clearance (cell_at (first + k) j))) }
{
    let turned = shape.turned();
    let most = scaled(turned.hw) + scaled(clearance);
    steps_near(turned.centre_along(first, j), slope(turned.ux), most, end)
}

/// The same across the unit vector.
fn steps_across(shape: &Shape, clearance: Fixed, first: u16, j: u16, end: u16) -> Option<(u16, u16)>
    requires vector { HasUnitVector shape.now }
    ensures within { IfSome result (λ run. run.1 ≤ end) }
    ensures blocked { IfSome result (λ run. (k : ℕ) → k ≤ end → IsTrue (blocked shape.now clearance (cell_at (first + k) j)) → (run.0 ≤ k) × (k ≤ run.1)) }
    ensures none { IfNone result ((k : ℕ) → k ≤ end → ¬ IsTrue (blocked shape.now clearance (cell_at (first + k) j))) }
{
    let turned = shape.turned();
    let most = scaled(turned.hh) + scaled(clearance);
    steps_near(
        turned.centre_across(first, j),
        opposite(turned.uz),
        most,
        end,
    )
}

/// The raw number of a component of a unit vector.
pub fn slope(component: Fixed) -> i64
    ensures value { result ≡ component }
    ensures bounded { unsigned_abs result ≤ 2 ^ 31 }
{
    i64::from(component.raw())
}

/// The raw number of a component of a unit vector, with the other sign.
fn opposite(component: Fixed) -> i64
    ensures value { result ≡ neg_ℤ component }
    ensures bounded { unsigned_abs result ≤ 2 ^ 31 }
{
    -slope(component)
}

/// The first and the last number of columns from 0 to `end`, after which a length is at most `most` on either side of
/// 0. It is `start` at first and changes by 65536 times `slope` a column. None exactly where there is no such number.
pub fn steps_near(start: i64, slope: i64, most: u64, end: u16) -> Option<(u16, u16)>
    requires start { unsigned_abs start ≤ 2 ^ 51 }
    requires slope { unsigned_abs slope ≤ 2 ^ 31 }
    requires most { most ≤ 2 ^ 50 }
    ensures within { IfSome result (λ run. (run.0 ≤ run.1) × (run.1 ≤ end)) }
    ensures near { IfSome result (λ run. (k : ℕ) → k ≤ end → (((run.0 ≤ k) × (k ≤ run.1)) ↔ (unsigned_abs (start +ℤ pos (65536 * k) *ℤ slope) ≤ most))) }
    ensures none { IfNone result ((k : ℕ) → k ≤ end → ¬ (unsigned_abs (start +ℤ pos (65536 * k) *ℤ slope) ≤ most)) }
{
    let (least, greatest) = moves_near(rising(start, slope), most)?;
    multiples_between(least, greatest, 65536 * slope.unsigned_abs(), end)
}

/// Where a length begins that rises as fast as this one changes, and is always as far from 0: at `start`, or where the
/// length falls, at its mirror image.
fn rising(start: i64, slope: i64) -> i64
    requires { unsigned_abs start ≤ 2 ^ 51 }
    ensures far { (n : ℕ) → unsigned_abs (result +ℤ pos (n * unsigned_abs slope)) ≡ unsigned_abs (start +ℤ pos n *ℤ slope) }
    ensures bounded { unsigned_abs result ≤ 2 ^ 51 }
{
    if slope < 0 { -start } else { start }
}

/// The least and the greatest amount by which a length may rise to be at most `most` on either side of 0. None exactly
/// where it is more already.
fn moves_near(start: i64, most: u64) -> Option<(u64, u64)>
    requires start { unsigned_abs start ≤ 2 ^ 51 }
    requires most { most ≤ 2 ^ 50 }
    ensures near { IfSome result (λ moves. (n : ℕ) → (((moves.0 ≤ n) × (n ≤ moves.1)) ↔ (unsigned_abs (start +ℤ pos n) ≤ most))) }
    ensures none { IfNone result ((n : ℕ) → ¬ (unsigned_abs (start +ℤ pos n) ≤ most)) }
{
    let away = start.unsigned_abs();
    if start < 0 {
        Some((away.saturating_sub(most), away + most))
    } else if away <= most {
        Some((0, most - away))
    } else {
        None
    }
}

/// The first and the last number from 0 to `end` whose product with `step` is from `least` to `greatest`. None exactly
/// where there is no such number.
fn multiples_between(least: u64, greatest: u64, step: u64, end: u16) -> Option<(u16, u16)>
    ensures within { IfSome result (λ run. (run.0 ≤ run.1) × (run.1 ≤ end)) }
    ensures between { IfSome result (λ run. (k : ℕ) → k ≤ end → (((run.0 ≤ k) × (k ≤ run.1)) ↔ ((least ≤ k * step) × (k * step ≤ greatest)))) }
    ensures none { IfNone result ((k : ℕ) → k ≤ end → ¬ ((least ≤ k * step) × (k * step ≤ greatest))) }
{
    if step == 0 {
        return if least == 0 { Some((0, end)) } else { None };
    }
    let first = least.div_ceil(step);
    let last = (greatest / step).min(u64::from(end));
    if first <= last {
        Some((first as u16, last as u16))
    } else {
        None
    }
}
