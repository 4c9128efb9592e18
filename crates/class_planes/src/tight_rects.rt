//! Rectangles without those of their first and last lines that have not changed.
ghost use Rattle.std.specs.Prelude.{◌≡◌, ◌<◌, ◌≤◌, ◌+◌, All, IfOk, IsTrue};
ghost use Rattle.class_planes.specs.inner.StopLines.{AreAlike, AreSameIn, AreSameOutside, IsRectOf, map_lines};

use crate::line_sets::LineSet;
use nav_types::{NoMemory, Rect};
use std::alloc::Global;

/// The rectangles without their first and last lines that are as before, where nothing has changed outside of them.
pub fn tight_rects(
    alloc: Global,
    before: &LineSet,
    lines: &LineSet,
    count: u16,
    rects: &[Rect],
) -> Result<Vec<Rect>, NoMemory>
    requires alike { AreAlike count (map_lines before.now) (map_lines lines.now) }
    requires inside { All (IsRectOf count lines.now.words) rects.now }
    requires same { AreSameOutside count (map_lines before.now) (map_lines lines.now) rects.now }
    ensures inside { IfOk result (λ tight. All (IsRectOf count lines.now.words) tight.items) }
    ensures same { IfOk result (λ tight. AreSameOutside count (map_lines before.now) (map_lines lines.now) tight.items) }
{
    let mut tight = Vec::with_capacity(alloc, rects.len())?;
    for rect in rects {
        let changed = tight_rect(before, lines, count, *rect);
        tight.push(changed)?;
    }
    Ok(tight)
}

/// The rectangle without its first and last lines that are as before.
fn tight_rect(before: &LineSet, lines: &LineSet, count: u16, rect: Rect) -> Rect
    requires alike { AreAlike count (map_lines before.now) (map_lines lines.now) }
    requires rect { IsRectOf count lines.now.words rect }
    ensures inside { IsRectOf count lines.now.words result }
    ensures west { result.i0 ≡ rect.i0 }
    ensures east { result.i1 ≡ rect.i1 }
    ensures south { AreSameIn (map_lines before.now) (map_lines lines.now) rect rect.j0 result.j0 }
    ensures north { AreSameIn (map_lines before.now) (map_lines lines.now) rect (result.j1 + 1) (rect.j1 + 1) }
{
    let first = first_changed(before, lines, count, rect);
    let last = last_changed(before, lines, count, rect, first);
    Rect {
        i0: rect.i0,
        j0: first,
        i1: rect.i1,
        j1: last,
    }
}

/// The first line of the rectangle that is not as before, or its last one.
fn first_changed(before: &LineSet, lines: &LineSet, count: u16, rect: Rect) -> u16
    requires alike { AreAlike count (map_lines before.now) (map_lines lines.now) }
    requires rect { IsRectOf count lines.now.words rect }
    ensures low { rect.j0 ≤ result }
    ensures high { result ≤ rect.j1 }
    ensures same { AreSameIn (map_lines before.now) (map_lines lines.now) rect rect.j0 result }
{
    for n in rect.j0..rect.j1 {
        if !is_same(before, lines, count, rect, n) {
            return n;
        }
    }
    rect.j1
}

/// The last line of the rectangle from `first` on that is not as before, or that one.
fn last_changed(before: &LineSet, lines: &LineSet, count: u16, rect: Rect, first: u16) -> u16
    requires alike { AreAlike count (map_lines before.now) (map_lines lines.now) }
    requires rect { IsRectOf count lines.now.words rect }
    requires first { first ≤ rect.j1 }
    ensures low { first ≤ result }
    ensures high { result ≤ rect.j1 }
    ensures same { AreSameIn (map_lines before.now) (map_lines lines.now) rect (result + 1) (rect.j1 + 1) }
{
    let mut n = rect.j1;
    'lines: while first < n {
        if !is_same(before, lines, count, rect, n) {
            return n;
        }
        n -= 1;
    }
    n
}

/// Whether the words of line `n` that the rectangle meets are as before.
fn is_same(before: &LineSet, lines: &LineSet, count: u16, rect: Rect, n: u16) -> bool
    requires alike { AreAlike count (map_lines before.now) (map_lines lines.now) }
    requires rect { IsRectOf count lines.now.words rect }
    requires line { n ≤ rect.j1 }
    ensures { IsTrue result → AreSameIn (map_lines before.now) (map_lines lines.now) rect n (n + 1) }
{
    let old = before.line(n);
    let new = lines.line(n);
    let from = usize::from(rect.i0 / 64);
    let to = usize::from(rect.i1 / 64) + 1;
    for w in from..to {
        if old[w] != new[w] {
            return false;
        }
    }
    true
}
