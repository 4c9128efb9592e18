//! The numbers of a map's cells under its base rectangles alone.
//!
//! A rectangle is marked in two of its rows, and a mark stands for the cells of its column in so many rows from its own
//! on. The rectangles that have the most rows come first; then each mark becomes two that stand for half as many rows,
//! and the rectangles of fewer rows come in. So the work grows with the rectangles and their columns, and with the cells
//! of the map, and not with the areas of the rectangles.
ghost use Rattle.std.specs.Prelude.{ℕ, ◌≡◌, ◌≤◌, ◌<◌, ◌+◌, ◌-◌, ◌*◌, ◌⊎◌, All, Contains, bit_or, IfOk, IsTrue};
ghost use Rattle.nav_types.specs.declared.limits.TheConstants.{MAX_SIDE};
ghost use Rattle.nav_types.specs.declared.cells.Cell.{Cell};
ghost use Rattle.nav_types.specs.declared.cells.Rect.{Rect};
ghost use Rattle.nav_types.specs.Cells.{cell_at, IsInside, IsInRect, IsRectInside};
ghost use Rattle.nav_types.specs.Numbering.{rows};
ghost use Rattle.lane_rows.specs.Rows.{has_class};
ghost use Rattle.navcell_grid.specs.Grids.{number_at};
ghost use Rattle.grid_versions.specs.Passing.{has_base};
ghost use Rattle.grid_versions.specs.inner.Marking.{IsMarked, IsRectMarked, AreMarksWithin};

use nav_types::{NoMemory, Rect};
use navcell_grid::Grid;
use posts::MapSpec;
use std::alloc::Global;

/// The numbers of a map's cells under its base rectangles alone: bit k is set exactly where a base rectangle covers the
/// cell for class k.
pub fn base_grid(alloc: Global, map: &MapSpec) -> Result<Grid, NoMemory>
    ensures size { IfOk result (λ grid. grid.size ≡ map.now.size) }
    ensures bits { IfOk result (λ grid. (k : ℕ) (cell : Cell) → IsInside map.now.size cell
        → has_class k (number_at grid cell) ≡ has_base map.now k cell) }
{
    let base = map.base().as_slice();
    let mut grid = Grid::new(alloc, map.size())?;
    let mut run = most_rows(base);
    mark_all(&mut grid, base, run);
    'halve: while run > 1 {
        let step = run / 2;
        spread(&mut grid, step);
        run -= step;
        mark_all(&mut grid, base, run);
    }
    Ok(grid)
}

/// How many rows the rectangles have at most, or 1.
fn most_rows(base: &[(Rect, u16)]) -> u16
    requires ordered { All (λ entry. entry.0.j0 ≤ entry.0.j1) base.now }
    requires north { All (λ entry. entry.0.j1 < MAX_SIDE) base.now }
    ensures some { 1 ≤ result }
    ensures most { (rect : Rect) (mask : ℕ) → Contains base.now (rect, mask) → rows rect ≤ result }
{
    let mut most = 1;
    for entry in base {
        most = most.max(entry.0.j1 - entry.0.j0 + 1);
    }
    most
}

/// Marks each rectangle that has from `run` to twice as many rows, by marks that stand for `run` rows.
fn mark_all(grid: &mut Grid, base: &[(Rect, u16)], run: u16)
    requires some { 1 ≤ run }
    requires inside { All (λ entry. IsRectInside grid.old.size entry.0) base.now }
    requires within { AreMarksWithin base.now run grid.old }
    ensures size { grid.new.size ≡ grid.old.size }
    ensures within { AreMarksWithin base.now run grid.new }
    ensures kept { (k : ℕ) (cell : Cell) → IsInside grid.old.size cell → IsMarked grid.old run k cell
        → IsMarked grid.new run k cell }
    ensures marked { (rect : Rect) (mask : ℕ) → Contains base.now (rect, mask) → run ≤ rows rect → rows rect ≤ 2 * run
        → IsRectMarked grid.new run rect mask }
{
    for entry in base {
        mark_if(grid, entry.0, entry.1, run);
    }
}

/// Marks the rectangle, if it has from `run` to twice as many rows.
fn mark_if(grid: &mut Grid, rect: Rect, mask: u16, run: u16)
    requires some { 1 ≤ run }
    requires inside { IsRectInside grid.old.size rect }
    ensures size { grid.new.size ≡ grid.old.size }
    ensures kept { (k : ℕ) (cell : Cell) → IsInside grid.old.size cell → IsMarked grid.old run k cell
        → IsMarked grid.new run k cell }
    ensures marked { run ≤ rows rect → rows rect ≤ 2 * run → IsRectMarked grid.new run rect mask }
    ensures within { (k : ℕ) (cell : Cell) → IsInside grid.old.size cell → IsMarked grid.new run k cell
        → IsMarked grid.old run k cell ⊎ (IsTrue (has_class k mask) × IsInRect rect cell) }
{
    let rows = rect.j1 - rect.j0 + 1;
    if run <= rows && rows - run <= run {
        mark(grid, rect, mask, run);
    }
}

/// Marks a rectangle that has from `run` to twice as many rows.
fn mark(grid: &mut Grid, rect: Rect, mask: u16, run: u16)
    requires some { 1 ≤ run }
    requires inside { IsRectInside grid.old.size rect }
    requires least { run ≤ rows rect }
    requires most { rows rect ≤ 2 * run }
    ensures size { grid.new.size ≡ grid.old.size }
    ensures kept { (k : ℕ) (cell : Cell) → IsInside grid.old.size cell → IsMarked grid.old run k cell
        → IsMarked grid.new run k cell }
    ensures marked { IsRectMarked grid.new run rect mask }
    ensures within { (k : ℕ) (cell : Cell) → IsInside grid.old.size cell → IsMarked grid.new run k cell
        → IsMarked grid.old run k cell ⊎ (IsTrue (has_class k mask) × IsInRect rect cell) }
{
    mark_row(grid, rect.j0, rect, mask, run);
    mark_row(grid, rect.j1 + 1 - run, rect, mask, run);
}

/// Marks the rectangle's columns in a row of it, from which on it has `run` rows.
fn mark_row(grid: &mut Grid, j: u16, rect: Rect, mask: u16, run: u16)
    requires some { 1 ≤ run }
    requires inside { IsRectInside grid.old.size rect }
    requires south { rect.j0 ≤ j }
    requires north { j + run ≤ rect.j1 + 1 }
    ensures size { grid.new.size ≡ grid.old.size }
    ensures kept { (k : ℕ) (cell : Cell) → IsInside grid.old.size cell → IsMarked grid.old run k cell
        → IsMarked grid.new run k cell }
    ensures marked { (k : ℕ) (cell : Cell) → IsTrue (has_class k mask) → IsInRect rect cell → j ≤ cell.j → cell.j < j + run
        → IsMarked grid.new run k cell }
    ensures within { (k : ℕ) (cell : Cell) → IsInside grid.old.size cell → IsMarked grid.new run k cell
        → IsMarked grid.old run k cell ⊎ (IsTrue (has_class k mask) × IsInRect rect cell) }
{
    grid.or_span(j, rect.i0, rect.i1, mask);
}

/// Gives each row the bits of the row that is `step` rows before it, besides its own: each mark becomes two.
fn spread(grid: &mut Grid, step: u16)
    requires some { 1 ≤ step }
    ensures size { grid.new.size ≡ grid.old.size }
    ensures first { (cell : Cell) → IsInside grid.old.size cell → cell.j < step
        → number_at grid.new cell ≡ number_at grid.old cell }
    ensures later { (cell : Cell) → IsInside grid.old.size cell → step ≤ cell.j
        → number_at grid.new cell ≡ bit_or (number_at grid.old cell) (number_at grid.old (cell_at cell.i (cell.j - step))) }
{
    let mut j = grid.size().h;
    'north: while j > step {
        j -= 1;
        grid.or_row(j, j - step);
    }
}
