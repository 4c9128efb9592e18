//! Patches: the numbers of a small rectangle of a map.
ghost use Rattle.std.specs.Prelude.{◌≡◌, ◌≤◌, ◌<◌, ◌+◌, ◌-◌, ◌*◌, ◌↔◌, ℕ, length, not, replicate, slice_index, bit_or, IfOk};
ghost use Rattle.std.specs.Int.{bit_at};
ghost use Rattle.nav_types.specs.declared.cells.Cell.{Cell};
ghost use Rattle.nav_types.specs.Cells.{cell_at, IsInRect, IsRectInside};
ghost use Rattle.nav_types.specs.Numbering.{Numbering, IsPatch, columns, rows, number_of};
ghost use Rattle.lane_rows.specs.Rows.{has_class};
ghost use Rattle.navcell_grid.specs.Grids.{IsInSpan, number_at};
ghost use Rattle.navcell_grid.specs.Patches.{IsWholePatch, DiffersIn, free_count};
ghost use Rattle.nav_types.specs.Rects.{IsPartOf};
ghost use Rattle.navcell_grid.specs.inner.Framing.{IsFramed};

use crate::grids::Grid;
use nav_types::{Cell, Class, NoMemory, Rect, Size};
use std::alloc::Global;
use std::marker::Model;

/// The numbers of the navcells of a rectangle no larger than a chunk of a map: bit k of a number is set where the
/// navcell is impassable for class k. Contracts see the rectangle and the list of the numbers in the order of cells
/// (`Numbering`).
#[derive(Debug, Drop)]
pub struct Patch {
    rect: Rect,
    grid: Grid,
}

impl Model for Patch {
    ghost use Rattle.nav_types.specs.Numbering.{Numbering};
    ghost use Rattle.navcell_grid.specs.inner.Framing.{IsFramed};

    ghost Value = { Numbering };

    ghost view = { λ p. record { rect = p.rect; numbers = p.grid.cells } };

    ghost invariant = { λ p. IsFramed p.rect p.grid };
}

impl Patch {
    /// A patch of this rectangle in which each number is 0, so that every cell is passable for every class.
    pub fn new(alloc: Global, rect: Rect) -> Result<Patch, NoMemory>
        requires { IsPatch rect }
        ensures rect { IfOk result (λ patch. patch.rect ≡ rect) }
        ensures numbers { IfOk result (λ patch. patch.numbers ≡ replicate (columns rect * rows rect) 0) }
    {
        let size = Size {
            w: rect.i1 - rect.i0 + 1,
            h: rect.j1 - rect.j0 + 1,
        };
        Ok(Patch {
            rect,
            grid: Grid::new(alloc, size)?,
        })
    }

    /// The numbers that a grid has in this rectangle.
    pub fn cut(alloc: Global, from: &Grid, rect: Rect) -> Result<Patch, NoMemory>
        requires patch { IsPatch rect }
        requires inside { IsRectInside from.now.size rect }
        ensures rect { IfOk result (λ patch. patch.rect ≡ rect) }
        ensures numbers { IfOk result (λ patch. (cell : Cell) → IsInRect rect cell
            → number_of patch cell ≡ number_at from.now cell) }
    {
        let mut patch = Patch::new(alloc, rect)?;
        for j in rect.j0..rect.j1 + 1 {
            let row = from.row(j);
            patch.write_span(
                j,
                rect.i0,
                rect.i1,
                &row[usize::from(rect.i0)..usize::from(rect.i1) + 1],
            );
        }
        Ok(patch)
    }

    /// A patch of the same rectangle and the same numbers.
    pub fn copy(&self, alloc: Global) -> Result<Patch, NoMemory>
        ensures { IfOk result (λ patch. patch ≡ self.now) }
    {
        Ok(Patch {
            rect: self.rect,
            grid: self.grid.copy(alloc)?,
        })
    }

    /// The rectangle. The patch has exactly one number for each cell of it (`IsWholePatch`).
    pub fn rect(&self) -> Rect
        ensures rect { result ≡ self.now.rect }
        ensures whole { IsWholePatch self.now }
    {
        let _ = self.grid.size();
        self.rect
    }

    /// The number of a cell of the rectangle (`number_of`).
    pub fn at(&self, cell: Cell) -> u16
        requires { IsInRect self.now.rect cell }
        ensures { result ≡ number_of self.now cell }
    {
        self.grid.get(local(self.rect, cell))
    }

    /// Whether the cell of the rectangle is free for the class: the class's bit of its number is clear.
    pub fn is_free(&self, class: Class, cell: Cell) -> bool
        requires { IsInRect self.now.rect cell }
        ensures { result ≡ not (has_class class (number_of self.now cell)) }
    {
        (self.at(cell) >> class.number()) & 1 == 0
    }

    /// The numbers of row `j` from the rectangle's first column to its last, for a row of the rectangle.
    pub fn row(&self, j: u16) -> &[u16]
        requires south { self.now.rect.j0 ≤ j }
        requires north { j ≤ self.now.rect.j1 }
        ensures width { length result.now ≡ columns self.now.rect }
        ensures cells { (cell : Cell) → IsInRect self.now.rect cell → cell.j ≡ j
            → slice_index result.now (cell.i - self.now.rect.i0) ≡ number_of self.now cell }
    {
        self.grid.row(j - self.rect.j0)
    }

    /// Gives the cells of row `j` from column `i0` to column `i1`, both of them in it, the mask's bits besides their
    /// own. The columns are in order, and the cells lie in the rectangle.
    pub fn or_span(&mut self, j: u16, i0: u16, i1: u16, mask: u16)
        requires ordered { i0 ≤ i1 }
        requires first { IsInRect self.old.rect (cell_at i0 j) }
        requires last { IsInRect self.old.rect (cell_at i1 j) }
        ensures rect { self.new.rect ≡ self.old.rect }
        ensures span { (cell : Cell) → IsInSpan j i0 i1 cell
            → number_of self.new cell ≡ bit_or (number_of self.old cell) mask }
        ensures others { (cell : Cell) → IsInRect self.old.rect cell → ¬ IsInSpan j i0 i1 cell
            → number_of self.new cell ≡ number_of self.old cell }
    {
        let rect = self.rect;
        self.grid
            .or_span(j - rect.j0, i0 - rect.i0, i1 - rect.i0, mask);
    }

    /// Gives each cell of `rect` the number that the other patch has there. The rectangle lies in both patches.
    pub fn copy_rect(&mut self, from: &Patch, rect: Rect)
        requires inside { IsPartOf self.old.rect rect }
        requires source { IsPartOf from.now.rect rect }
        ensures rect { self.new.rect ≡ self.old.rect }
        ensures copied { (cell : Cell) → IsInRect rect cell → number_of self.new cell ≡ number_of from.now cell }
        ensures others { (cell : Cell) → IsInRect self.old.rect cell → ¬ IsInRect rect cell
            → number_of self.new cell ≡ number_of self.old cell }
    {
        let _ = &self.rect;
        for j in rect.j0..rect.j1 + 1 {
            self.write_span(j, rect.i0, rect.i1, from.span(j, rect.i0, rect.i1));
        }
    }

    /// The bits that differ between the two in some cell of their one rectangle (`DiffersIn`).
    pub fn differs(&self, other: &Patch) -> u16
        requires { other.now.rect ≡ self.now.rect }
        ensures { (k : ℕ) → (bit_at result k ≡ 1) ↔ DiffersIn k self.now.rect self.now other.now }
    {
        lane_rows::differs(self.grid.numbers(), other.grid.numbers())
    }

    /// The bits that differ between the two in some cell of `rect`, which lies in both.
    pub fn differs_in(&self, other: &Patch, rect: Rect) -> u16
        requires inside { IsPartOf self.now.rect rect }
        requires other { IsPartOf other.now.rect rect }
        ensures { (k : ℕ) → (bit_at result k ≡ 1) ↔ DiffersIn k rect self.now other.now }
    {
        let _ = &self.rect;
        let mut bits = 0;
        for j in rect.j0..rect.j1 + 1 {
            bits |= lane_rows::differs(
                self.span(j, rect.i0, rect.i1),
                other.span(j, rect.i0, rect.i1),
            );
        }
        bits
    }

    /// How many cells of the rectangle are free for the class. The numbers are counted anew at each call.
    pub fn free(&self, class: Class) -> u16
        ensures { result ≡ free_count class self.now.numbers }
    {
        let numbers = self.grid.numbers();
        (numbers.len() - lane_rows::count_bit(numbers, class.number())) as u16
    }

    /// The numbers of row `j` from column `i0` to column `i1`.
    fn span(&self, j: u16, i0: u16, i1: u16) -> &[u16]
        requires ordered { i0 ≤ i1 }
        requires first { IsInRect self.now.rect (cell_at i0 j) }
        requires last { IsInRect self.now.rect (cell_at i1 j) }
        ensures width { length result.now ≡ i1 - i0 + 1 }
        ensures cells { (cell : Cell) → IsInSpan j i0 i1 cell
            → slice_index result.now (cell.i - i0) ≡ number_of self.now cell }
    {
        let row = self.row(j);
        let first = usize::from(i0 - self.rect.i0);
        &row[first..first + usize::from(i1 - i0) + 1]
    }

    /// Gives the cells of row `j` from column `i0` to column `i1` the numbers of the list, one after another.
    fn write_span(&mut self, j: u16, i0: u16, i1: u16, numbers: &[u16])
        requires ordered { i0 ≤ i1 }
        requires first { IsInRect self.old.rect (cell_at i0 j) }
        requires last { IsInRect self.old.rect (cell_at i1 j) }
        requires each { length numbers.now ≡ i1 - i0 + 1 }
        ensures rect { self.new.rect ≡ self.old.rect }
        ensures span { (cell : Cell) → IsInSpan j i0 i1 cell
            → number_of self.new cell ≡ slice_index numbers.now (cell.i - i0) }
        ensures others { (cell : Cell) → IsInRect self.old.rect cell → ¬ IsInSpan j i0 i1 cell
            → number_of self.new cell ≡ number_of self.old cell }
    {
        let rect = self.rect;
        self.grid
            .write_span(j - rect.j0, i0 - rect.i0, i1 - rect.i0, numbers);
    }
}

/// The cell of a patch's grid that stands for a cell of its rectangle.
fn local(rect: Rect, cell: Cell) -> Cell
    requires { IsInRect rect cell }
    ensures { result ≡ cell_at (cell.i - rect.i0) (cell.j - rect.j0) }
{
    Cell::new(cell.i - rect.i0, cell.j - rect.j0)
}
