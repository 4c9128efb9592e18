//! Rows and columns of a map, and the passable cells along them, cell by cell.
ghost use Rattle.std.specs.Prelude.{◌≡◌, ◌<◌};
ghost use Rattle.nav_types.specs.Cells.{IsInside};
ghost use Rattle.nav_types.specs.Lines.{IsFirstFree, is_sought, cell_on, line_on, place_on, side_along};

use crate::cells::{Cell, Class, Size};
use crate::straights::Axis;
use crate::views::{Areas, FreeCells, View};

/// The cell at a place of a line.
#[inline(always)]
pub fn cell_on(axis: Axis, line: u16, place: u16) -> Cell
    ensures { result ≡ cell_on axis line place }
{
    match axis {
        Axis::Row => Cell::new(place, line),
        Axis::Column => Cell::new(line, place),
    }
}

/// The place of the cell on its line: its column in a row, its row in a column.
#[inline(always)]
pub fn place_on(axis: Axis, cell: Cell) -> u16
    ensures { result ≡ place_on axis cell }
{
    match axis {
        Axis::Row => cell.i,
        Axis::Column => cell.j,
    }
}

/// The line of the cell: its row, or its column.
#[inline(always)]
pub fn line_on(axis: Axis, cell: Cell) -> u16
    ensures { result ≡ line_on axis cell }
{
    match axis {
        Axis::Row => cell.j,
        Axis::Column => cell.i,
    }
}

/// How many cells a line has.
#[inline(always)]
pub fn side_along(axis: Axis, size: Size) -> u16
    ensures { result ≡ side_along axis size }
{
    match axis {
        Axis::Row => size.w,
        Axis::Column => size.h,
    }
}

/// Whether what is looked for, a passable cell or an impassable one, is what is there.
fn is_sought(passable: bool, here: bool) -> bool
    ensures { result ≡ is_sought passable here }
{
    if passable { here } else { !here }
}

/// Any view as a map that finds the cells along its lines: it asks one cell after another.
#[derive(Drop)]
pub struct CellByCell<'a, V: View> {
    pub view: &'a V,
}

impl<'a, V: View> CellByCell<'a, V> {
    /// The place of the first cell of the line, from this one up, that is passable, or impassable, as is sought.
    fn first(&self, class: Class, axis: Axis, cell: Cell, passable: bool) -> u16
        requires class { class < V.class_count self.now.view.now }
        requires inside { IsInside (V.extent self.now.view.now) cell }
        ensures { IsFirstFree
            (λ k. is_sought passable (V.passes self.now.view.now class (cell_on axis (line_on axis cell) k)))
            (place_on axis cell) (side_along axis (V.extent self.now.view.now)) result }
    {
        let end = side_along(axis, self.view.size());
        let line = line_on(axis, cell);
        for place in place_on(axis, cell)..end {
            let here = self.view.passable(class, cell_on(axis, line, place));
            if is_sought(passable, here) {
                return place;
            }
        }
        end
    }
}

impl<'a, V: View> View for CellByCell<'a, V> {
    ghost extent = { λ cells. V.extent cells.view.now };

    ghost class_count = { λ cells. V.class_count cells.view.now };

    ghost passes = { λ cells. V.passes cells.view.now };

    fn size(&self) -> Size {
        self.view.size()
    }

    fn classes(&self) -> u8 {
        self.view.classes()
    }

    fn passable(&self, class: Class, cell: Cell) -> bool {
        self.view.passable(class, cell)
    }

    ghost within = { λ cells. V.within cells.view.now };
}

impl<'a, V: View> FreeCells for CellByCell<'a, V> {
    fn next_free(&self, class: Class, axis: Axis, cell: Cell) -> u16 {
        self.first(class, axis, cell, true)
    }

    fn next_blocked(&self, class: Class, axis: Axis, cell: Cell) -> u16 {
        self.first(class, axis, cell, false)
    }
}

impl<'a, V: Areas> Areas for CellByCell<'a, V> {
    ghost has_area = { λ cells. V.has_area cells.view.now };

    fn area(&self, class: Class, cell: Cell) -> u32 {
        self.view.area(class, cell)
    }

    ghost blocked = { λ cells. V.blocked cells.view.now };

    ghost joined = { λ cells. V.joined cells.view.now };
}
