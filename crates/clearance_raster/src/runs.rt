//! The run of cells that a shape blocks in one row.
ghost use Rattle.std.specs.Prelude.{◌≤◌, ◌<◌, ◌↔◌, ℕ, IfSome, IfNone, IsTrue, IsFalse};
ghost use Rattle.nav_types.specs.Cells.{cell_at};
ghost use Rattle.obstruction_shapes.specs.Shapes.{HasUnitVector};
ghost use Rattle.obstruction_shapes.specs.Blocking.{blocked};

use crate::windows::window;
use fixed_point::Fixed;
use nav_types::{Cell, Rect};
use obstruction_shapes::{Shape, blocks};

/// The first and the last column of the rectangle that the shape blocks in row `j`, with this clearance.
/// A column of the rectangle is blocked exactly where it is one of them or between them. None exactly
/// where no column of the rectangle is blocked.
pub fn run_in_row(shape: &Shape, clearance: Fixed, rect: Rect, j: u16) -> Option<(u16, u16)>
    requires vector { HasUnitVector shape.now }
    requires ordered { rect.i0 ≤ rect.i1 }
    ensures run { IfSome result (λ run. (i : ℕ) → rect.i0 ≤ i → i ≤ rect.i1 → (IsTrue (blocked shape.now clearance (cell_at i j)) ↔ ((run.0 ≤ i) × (i ≤ run.1)))) }
    ensures within { IfSome result (λ run. (rect.i0 ≤ run.0) × (run.0 ≤ run.1) × (run.1 ≤ rect.i1)) }
    ensures none { IfNone result ((i : ℕ) → rect.i0 ≤ i → i ≤ rect.i1 → IsFalse (blocked shape.now clearance (cell_at i j))) }
{
    if is_full(shape, clearance, rect, j) {
        return Some((rect.i0, rect.i1));
    }
    let (west, east) = window(shape, clearance, rect, j)?;
    let first = first_blocked(shape, clearance, west, east, j)?;
    Some((first, last_blocked(shape, clearance, first, east, j)))
}

/// Whether the shape blocks each column of the rectangle in row `j`, which the first and the last one tell. It says so of
/// squares along the axes of the map alone, whose rows mostly are blocked as a whole.
fn is_full(shape: &Shape, clearance: Fixed, rect: Rect, j: u16) -> bool
    requires { HasUnitVector shape.now }
    ensures { IsTrue result → (i : ℕ) → rect.i0 ≤ i → i ≤ rect.i1 → IsTrue (blocked shape.now clearance (cell_at i j)) }
{
    match shape {
        Shape::Unit { .. } => has_both_ends(shape, clearance, rect, j),
        Shape::Square(_) => false,
    }
}

/// Whether the shape blocks the first and the last column of the rectangle in row `j`.
fn has_both_ends(shape: &Shape, clearance: Fixed, rect: Rect, j: u16) -> bool
    requires { HasUnitVector shape.now }
    ensures first { IsTrue result → IsTrue (blocked shape.now clearance (cell_at rect.i0 j)) }
    ensures last { IsTrue result → IsTrue (blocked shape.now clearance (cell_at rect.i1 j)) }
{
    let first = blocks(shape, clearance, Cell::new(rect.i0, j));
    first && blocks(shape, clearance, Cell::new(rect.i1, j))
}

/// The first column from `start` to `end` that the shape blocks in row `j`. None exactly where there is none.
fn first_blocked(shape: &Shape, clearance: Fixed, start: u16, end: u16, j: u16) -> Option<u16>
    requires { HasUnitVector shape.now }
    ensures within { IfSome result (λ first. (start ≤ first) × (first ≤ end)) }
    ensures blocked { IfSome result (λ first. IsTrue (blocked shape.now clearance (cell_at first j))) }
    ensures before { IfSome result (λ first. (i : ℕ) → start ≤ i → i < first → IsFalse (blocked shape.now clearance (cell_at i j))) }
    ensures none { IfNone result ((i : ℕ) → start ≤ i → i ≤ end → IsFalse (blocked shape.now clearance (cell_at i j))) }
{
    for i in start..=end {
        if blocks(shape, clearance, Cell::new(i, j)) {
            return Some(i);
        }
    }
    None
}

/// The last column up to `end` that the shape blocks in row `j`, where it blocks the column `first`.
fn last_blocked(shape: &Shape, clearance: Fixed, first: u16, end: u16, j: u16) -> u16
    requires vector { HasUnitVector shape.now }
    requires ordered { first ≤ end }
    requires blocked { IsTrue (blocked shape.now clearance (cell_at first j)) }
    ensures within { (first ≤ result) × (result ≤ end) }
    ensures blocked { IsTrue (blocked shape.now clearance (cell_at result j)) }
    ensures after { (i : ℕ) → result < i → i ≤ end → IsFalse (blocked shape.now clearance (cell_at i j)) }
{
    let mut last = end;
    'walk: while last > first && !blocks(shape, clearance, Cell::new(last, j)) {
        last -= 1;
    }
    last
}
