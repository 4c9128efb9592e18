//! Fewer rectangles that hold the same cells: two are made one where that is no more work.
ghost use Rattle.std.specs.Prelude.{ℕ, ◌≤◌, All, IfOk, OnOk};
ghost use Rattle.nav_types.specs.declared.cells.Cell.{Cell};
ghost use Rattle.nav_types.specs.Cells.{IsInRect};
ghost use Rattle.class_planes.specs.Planes.{IsOutside};
ghost use Rattle.class_planes.specs.inner.StopLines.{IsRectOf};

use nav_types::{NoMemory, Rect};
use std::alloc::Global;

/// Rectangles that hold all cells of these: each one is joined with the one before it in the list where that is no more
/// work. Those of the chunks of a map, row by row, become those of whole rows of chunks, and these the map's.
pub fn joined(alloc: Global, rects: Vec<Rect>) -> Result<Vec<Rect>, NoMemory>
    ensures inside { IfOk result (λ fewer. (count words : ℕ) → All (IsRectOf count words) rects.items
        → All (IsRectOf count words) fewer.items) }
    ensures outside { IfOk result (λ fewer. (cell : Cell) → IsOutside fewer.items cell → IsOutside rects.items cell) }
{
    if rects.len() < 2 {
        return Ok(rects);
    }
    let mut fewer = Vec::with_capacity(alloc, rects.len())?;
    let mut last = rects[0];
    for rect in &rects {
        last = with_next(&mut fewer, last, *rect)?;
    }
    fewer.push(last)?;
    Ok(fewer)
}

/// The last rectangle joined with the next one where that is no more work. Else the last one is appended to those before
/// it, and the next one is the last.
fn with_next(fewer: &mut Vec<Rect>, last: Rect, next: Rect) -> Result<Rect, NoMemory>
    ensures inside { IfOk result (λ rect. (count words : ℕ) → All (IsRectOf count words) fewer.old.items
        → IsRectOf count words last → IsRectOf count words next
        → All (IsRectOf count words) fewer.new.items × IsRectOf count words rect) }
    ensures outside { IfOk result (λ rect. (cell : Cell) → IsOutside fewer.new.items cell → ¬ IsInRect rect cell
        → IsOutside fewer.old.items cell × (¬ IsInRect last cell × ¬ IsInRect next cell)) }
{
    let both = about(last, next);
    if touched_words(both) <= touched_words(last) + touched_words(next) {
        return Ok(both);
    }
    fewer.push(last)?;
    Ok(next)
}

/// The least rectangle that holds both.
fn about(one: Rect, other: Rect) -> Rect
    ensures first { (cell : Cell) → IsInRect one cell → IsInRect result cell }
    ensures second { (cell : Cell) → IsInRect other cell → IsInRect result cell }
    ensures inside { (count words : ℕ) → IsRectOf count words one → IsRectOf count words other
        → IsRectOf count words result }
{
    Rect {
        i0: one.i0.min(other.i0),
        j0: one.j0.min(other.j0),
        i1: one.i1.max(other.i1),
        j1: one.j1.max(other.j1),
    }
}

/// How many words a rectangle meets, with the places and lines beside it: its share of the work.
fn touched_words(rect: Rect) -> u64
    ensures { result ≤ 4294967296 }
{
    let first = u64::from(rect.i0.saturating_sub(1)) / 64;
    let last = (u64::from(rect.i1) + 1) / 64;
    let lines = u64::from(rect.j1.saturating_sub(rect.j0)) + 3;
    (last.saturating_sub(first) + 1) * lines
}
