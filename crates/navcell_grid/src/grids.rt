//! The grid: for each navcell the classes for which it is impassable.
ghost use Rattle.std.specs.Prelude.{◌≡◌, ◌≢◌, ◌≤◌, ◌<◌, ◌+◌, ◌-◌, ◌*◌, ◌⊎◌, ℕ, length, replicate, slice_index, slice_range, bit_or, IfOk};
ghost use Rattle.nav_types.specs.Cells.{cell_at, IsInside, IsInRect, IsRectInside};
ghost use Rattle.nav_types.specs.Places.{place_of};
ghost use Rattle.navcell_grid.specs.Grids.{GridCells, IsWholeGrid, number_at, IsInSpan, is_free_for};

use nav_types::limits::MAX_CLASSES;
use nav_types::{Cell, Class, NoMemory, Rect, Size, View};
use std::alloc::Global;
use std::marker::Model;

/// The navcells of a map: for each cell a number of 16 bits, whose bit k is set where the cell is
/// impassable for class k. Contracts see the size and the list of the numbers in the order of cells.
#[derive(Debug, Drop)]
pub struct Grid {
    cells: Vec<u16>,
    size: Size,
}

impl Model for Grid {
    ghost use Rattle.std.specs.Prelude.{◌≡◌, ◌*◌, length};
    ghost use Rattle.navcell_grid.specs.Grids.{GridCells};

    ghost Value = { GridCells };

    ghost view = { λ g. record { size = g.size; cells = g.cells.items } };

    ghost invariant = { λ g. length g.cells.items ≡ g.size.w * g.size.h };
}

impl Grid {
    /// A grid of this size in which each number is 0, so that every cell is passable for every class.
    pub fn new(alloc: Global, size: Size) -> Result<Grid, NoMemory>
        ensures size { IfOk result (λ grid. grid.size ≡ size) }
        ensures cells { IfOk result (λ grid. grid.cells ≡ replicate (size.w * size.h) 0) }
    {
        let count = usize::from(size.w) * usize::from(size.h);
        Ok(Grid {
            cells: vec![in alloc; 0; count]?,
            size,
        })
    }

    /// A grid of the same size and the same numbers.
    pub(crate) fn copy(&self, alloc: Global) -> Result<Grid, NoMemory>
        ensures { IfOk result (λ grid. grid ≡ self.now) }
    {
        Ok(Grid {
            cells: copied(alloc, &self.cells)?,
            size: self.size,
        })
    }

    /// The numbers of all cells in their order.
    pub(crate) fn numbers(&self) -> &[u16]
        ensures cells { result.now ≡ self.now.cells }
        ensures whole { IsWholeGrid self.now }
    {
        &self.cells
    }

    /// The size of the map, in navcells. The grid has exactly one number for each cell of it
    /// (`IsWholeGrid`).
    pub fn size(&self) -> Size
        ensures size { result ≡ self.now.size }
        ensures whole { IsWholeGrid self.now }
    {
        let _ = &self.cells;
        self.size
    }

    /// The number of a cell inside the map (`number_at`).
    pub fn get(&self, cell: Cell) -> u16
        requires { IsInside self.now.size cell }
        ensures { result ≡ number_at self.now cell }
    {
        self.cells[place(self.size, cell.i, cell.j)]
    }

    /// The numbers of row `j` by column, for a row inside the map.
    pub fn row(&self, j: u16) -> &[u16]
        requires { j < self.now.size.h }
        ensures slice { let w = self.now.size.w in result.now ≡ slice_range self.now.cells (j * w) (j * w + w) }
        ensures width { length result.now ≡ self.now.size.w }
        ensures cells { (i : ℕ) → i < self.now.size.w → slice_index result.now i ≡ number_at self.now (cell_at i j) }
    {
        let start = place(self.size, 0, j);
        &self.cells[start..start + usize::from(self.size.w)]
    }

    /// Gives the cells of row `j` from column `i0` to column `i1`, both of them in it, the mask's bits
    /// besides their own. The columns are in order and inside the map, and so is the row.
    pub fn or_span(&mut self, j: u16, i0: u16, i1: u16, mask: u16)
        requires ordered { i0 ≤ i1 }
        requires column { i1 < self.old.size.w }
        requires row { j < self.old.size.h }
        ensures size { self.new.size ≡ self.old.size }
        ensures span { (cell : Cell) → IsInSpan j i0 i1 cell → number_at self.new cell ≡ bit_or (number_at self.old cell) mask }
        ensures others { (cell : Cell) → IsInside self.old.size cell → ¬ IsInSpan j i0 i1 cell → number_at self.new cell ≡ number_at self.old cell }
    {
        let from = place(self.size, i0, j);
        let to = place(self.size, i1, j) + 1;
        lane_rows::or_span(&mut self.cells, from, to, mask);
    }

    /// Gives each cell of row `j` the bits of the cell of its column in the row `from` besides its own. That row comes
    /// before it.
    pub fn or_row(&mut self, j: u16, from: u16)
        requires before { from < j }
        requires row { j < self.old.size.h }
        ensures size { self.new.size ≡ self.old.size }
        ensures row { (i : ℕ) → i < self.old.size.w → number_at self.new (cell_at i j)
            ≡ bit_or (number_at self.old (cell_at i j)) (number_at self.old (cell_at i from)) }
        ensures others { (cell : Cell) → IsInside self.old.size cell → cell.j ≢ j → number_at self.new cell ≡ number_at self.old cell }
    {
        let to = place(self.size, 0, j);
        let before = place(self.size, 0, from);
        or_places(&mut self.cells, to, before, usize::from(self.size.w));
    }

    /// Gives each cell of the rectangle, which lies inside the map, the number 0.
    pub fn clear_rect(&mut self, rect: Rect)
        requires { IsRectInside self.old.size rect }
        ensures size { self.new.size ≡ self.old.size }
        ensures cleared { (cell : Cell) → IsInRect rect cell → number_at self.new cell ≡ 0 }
        ensures others { (cell : Cell) → IsInside self.old.size cell → ¬ IsInRect rect cell → number_at self.new cell ≡ number_at self.old cell }
    {
        for j in rect.j0..rect.j1 + 1 {
            self.clear_span(j, rect.i0, rect.i1);
        }
    }

    /// Gives each cell of the rectangle the number that the other grid has there. The grids are of one
    /// size, and the rectangle lies inside it.
    pub fn copy_rect(&mut self, from: &Grid, rect: Rect)
        requires sizes { from.now.size ≡ self.old.size }
        requires inside { IsRectInside self.old.size rect }
        ensures size { self.new.size ≡ self.old.size }
        ensures copied { (cell : Cell) → IsInRect rect cell → number_at self.new cell ≡ number_at from.now cell }
        ensures others { (cell : Cell) → IsInside self.old.size cell → ¬ IsInRect rect cell → number_at self.new cell ≡ number_at self.old cell }
    {
        for j in rect.j0..rect.j1 + 1 {
            self.copy_span(from, j, rect.i0, rect.i1);
        }
    }

    /// Gives the cells of row `j` from column `i0` to column `i1` the number 0.
    fn clear_span(&mut self, j: u16, i0: u16, i1: u16)
        requires ordered { i0 ≤ i1 }
        requires column { i1 < self.old.size.w }
        requires row { j < self.old.size.h }
        ensures size { self.new.size ≡ self.old.size }
        ensures span { (cell : Cell) → IsInSpan j i0 i1 cell → number_at self.new cell ≡ 0 }
        ensures others { (cell : Cell) → IsInside self.old.size cell → ¬ IsInSpan j i0 i1 cell → number_at self.new cell ≡ number_at self.old cell }
    {
        let from = place(self.size, i0, j);
        let to = place(self.size, i1, j) + 1;
        clear_places(&mut self.cells, from, to);
    }

    /// Gives the cells of row `j` from column `i0` to column `i1` the numbers of the other grid.
    fn copy_span(&mut self, other: &Grid, j: u16, i0: u16, i1: u16)
        requires sizes { other.now.size ≡ self.old.size }
        requires ordered { i0 ≤ i1 }
        requires column { i1 < self.old.size.w }
        requires row { j < self.old.size.h }
        ensures size { self.new.size ≡ self.old.size }
        ensures span { (cell : Cell) → IsInSpan j i0 i1 cell → number_at self.new cell ≡ number_at other.now cell }
        ensures others { (cell : Cell) → IsInside self.old.size cell → ¬ IsInSpan j i0 i1 cell → number_at self.new cell ≡ number_at self.old cell }
    {
        let row = other.row(j);
        self.write_span(j, i0, i1, &row[usize::from(i0)..usize::from(i1) + 1]);
    }

    /// Gives the cells of row `j` from column `i0` to column `i1` the numbers of the list, one after another.
    pub(crate) fn write_span(&mut self, j: u16, i0: u16, i1: u16, numbers: &[u16])
        requires ordered { i0 ≤ i1 }
        requires column { i1 < self.old.size.w }
        requires row { j < self.old.size.h }
        requires each { length numbers.now ≡ i1 - i0 + 1 }
        ensures size { self.new.size ≡ self.old.size }
        ensures span { (cell : Cell) → IsInSpan j i0 i1 cell → number_at self.new cell ≡ slice_index numbers.now (cell.i - i0) }
        ensures others { (cell : Cell) → IsInside self.old.size cell → ¬ IsInSpan j i0 i1 cell → number_at self.new cell ≡ number_at self.old cell }
    {
        let from = place(self.size, i0, j);
        write_places(&mut self.cells, from, numbers);
    }
}

impl View for Grid {
    ghost use Rattle.navcell_grid.specs.Grids.{is_free_for};
    ghost use Rattle.std.proofs.Common.{rules};

    ghost extent = { λ g. g.size };

    ghost class_count = { λ _. 16 };

    ghost passes = { is_free_for };

    ghost within = { λ g class cell passes. Prim.search rules };

    /// The size of the map, in navcells.
    fn size(&self) -> Size {
        self.size
    }

    /// All 16 classes.
    fn classes(&self) -> u8 {
        MAX_CLASSES
    }

    /// Whether the class's bit of the cell's number is clear (`is_free_for`).
    fn passable(&self, class: Class, cell: Cell) -> bool {
        (self.get(cell) >> class.number()) & 1 == 0
    }
}

/// A law: two grids of one size are equal where each cell of the map has one number in both. So the
/// clauses of a call that name each cell's number say the whole list.
pub fn one_grid()
    ensures { (a b : GridCells) → IsWholeGrid a → IsWholeGrid b → a.size ≡ b.size
        → ((cell : Cell) → IsInside a.size cell → number_at a cell ≡ number_at b cell) → a ≡ b }
{}

/// How many cells of a map of this size come before the cell of column `i` and row `j`.
fn place(size: Size, i: u16, j: u16) -> usize
    requires { IsInside size (cell_at i j) }
    ensures place { result ≡ place_of size (cell_at i j) }
    ensures within { result < size.w * size.h }
{
    usize::from(j) * usize::from(size.w) + usize::from(i)
}

/// Gives so many places from `to` on the bits of as many from `from` on, besides their own. The latter come before the
/// former.
fn or_places(cells: &mut [u16], to: usize, from: usize, count: usize)
    requires apart { from + count ≤ to }
    requires within { to + count ≤ length cells.old }
    ensures inside { (k : ℕ) → k < count
        → slice_index cells.new (to + k) ≡ bit_or (slice_index cells.old (to + k)) (slice_index cells.old (from + k)) }
    ensures outside { (k : ℕ) → (k < to) ⊎ (to + count ≤ k) → slice_index cells.new k ≡ slice_index cells.old k }
{
    for k in 0..count {
        cells[to + k] |= cells[from + k];
    }
}

/// Writes 0 to each place from `from` up to and without `to`.
fn clear_places(cells: &mut [u16], from: usize, to: usize)
    requires ordered { from ≤ to }
    requires within { to ≤ length cells.old }
    ensures inside { (k : ℕ) → from ≤ k → k < to → slice_index cells.new k ≡ 0 }
    ensures outside { (k : ℕ) → (k < from) ⊎ (to ≤ k) → slice_index cells.new k ≡ slice_index cells.old k }
{
    cells[from..to].fill(0);
}

/// Writes the numbers to the places from `from` on.
fn write_places(cells: &mut [u16], from: usize, numbers: &[u16])
    requires { from + length numbers.now ≤ length cells.old }
    ensures inside { (k : ℕ) → k < length numbers.now → slice_index cells.new (from + k) ≡ slice_index numbers.now k }
    ensures outside { (k : ℕ) → (k < from) ⊎ (from + length numbers.now ≤ k) → slice_index cells.new k ≡ slice_index cells.old k }
{
    cells[from..from + numbers.len()].copy_from_slice(numbers);
}

/// How many numbers are copied at once.
const PIECE: usize = 1024;

/// A copy of the numbers. It is made piece by piece, since a long piece costs more for each number.
fn copied(alloc: Global, numbers: &[u16]) -> Result<Vec<u16>, NoMemory>
    ensures { IfOk result (λ copy. copy.items ≡ numbers.now) }
{
    let mut copy = Vec::with_capacity(alloc, numbers.len())?;
    let mut rest = numbers;
    while !rest.is_empty() {
        let (piece, others) = rest.split_at(rest.len().min(PIECE));
        copy.extend_from_slice(piece)?;
        rest = others;
    }
    Ok(copy)
}
