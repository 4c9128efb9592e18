//! The marks of a field: which cells are passable, and whether the numbers of neighbours are near each other.
ghost use Rattle.std.specs.Prelude.{Bool, ◌≡◌, ◌+◌, ◌<◌, ◌≤◌, ◌*◌, ◌^◌, length, OnOk, IsTrue};
ghost use Rattle.std.specs.Int.{abs_diff, bit_at};
ghost use Rattle.nav_types.specs.Cells.{IsInside};
ghost use Rattle.nav_types.specs.Rows.{bit_of};
ghost use Rattle.landmarks.specs.Landmarks.{spot_of};
ghost use Rattle.landmarks.specs.inner.Fields.{spots, AreMarks, AreGentleBefore, IsSquareGentle, Spreads};

use crate::units::{DIAGONAL_UNITS, FARTHEST, STRAIGHT_UNITS};
use nav_types::{Cell, Class, NoMemory, Rows, Size};
use std::alloc::Global;

/// The mark of a passable cell that is not reached: its number is the greatest.
pub const FREE: u16 = FARTHEST + 1;

/// The place of a cell among those of the map and its border.
#[inline(always)]
pub fn spot(size: Size, cell: Cell) -> usize
    ensures value { result ≡ spot_of size cell }
    ensures within { IsInside size cell → result + size.w + 3 < spots size }
    ensures few { result < 2 ^ 33 }
{
    let width = size.w as usize + 2;
    (cell.j as usize + 1) * width + cell.i as usize + 1
}

/// Whether a cell with these bits is passable: bit k is set where class k can't pass it.
#[inline(always)]
fn is_free(bits: u16, class: Class) -> bool
    ensures { (passable : Bool) → bit_at bits class ≡ bit_of passable → result ≡ passable }
{
    (bits >> class.number()) & 1 == 0
}

/// Marks the passable cells of a row, whose bits are read into `row`.
fn mark_row<V: Rows>(marks: &mut Vec<u16>, view: &V, class: Class, j: u16, row: &mut [u16])
    requires class { class < V.class_count view.now }
    requires row { j < (V.extent view.now).h }
    requires wide { length row.old ≡ (V.extent view.now).w }
    requires before { AreMarks (V.passes view.now class) (V.extent view.now) 0 j marks.old.items }
    ensures stays { length row.new ≡ length row.old }
    ensures marks { AreMarks (V.passes view.now class) (V.extent view.now) 0 (j + 1) marks.new.items }
{
    let size = view.size();
    view.row_bits(j, 0, row);
    for i in 0..size.w {
        if is_free(row[usize::from(i)], class) {
            marks[spot(size, Cell::new(i, j))] = FREE;
        }
    }
}

/// Marks the passable cells of the rows from one on and before another.
pub fn mark_rows<V: Rows>(
    alloc: Global,
    marks: &mut Vec<u16>,
    view: &V,
    class: Class,
    from: u16,
    end: u16,
) -> Result<(), NoMemory>
    requires class { class < V.class_count view.now }
    requires rows { end ≤ (V.extent view.now).h }
    requires order { from ≤ end }
    requires before { AreMarks (V.passes view.now class) (V.extent view.now) 0 from marks.old.items }
    ensures { OnOk result (AreMarks (V.passes view.now class) (V.extent view.now) 0 end marks.new.items) }
{
    let size = view.size();
    let mut row = vec![in alloc; 0; usize::from(size.w)]?;
    for j in from..end {
        mark_row(marks, view, class, j, &mut row);
    }
    Ok(())
}

/// Takes back all that was reached.
pub fn clear(marks: &mut Vec<u16>)
    ensures { Spreads marks.old.items marks.new.items }
{
    for at in 0..marks.len() {
        if marks[at] != 0 {
            marks[at] = FREE;
        }
    }
}

/// Whether each square of two by two places from one on and before another is gentle: its cells' numbers differ by no more
/// than the steps between them allow. `width` is that of a row of the table.
pub fn are_gentle(marks: &[u16], width: usize, from: usize, end: usize) -> bool
    requires order { from ≤ end }
    requires within { end + width + 1 ≤ length marks.now }
    ensures { IsTrue result → AreGentleBefore width from marks.now → AreGentleBefore width end marks.now }
{
    let mut most = 0;
    for at in from..end {
        let above = at + width;
        let here = square_excess(marks[at], marks[at + 1], marks[above], marks[above + 1]);
        most = here.max(most);
    }
    most == 0
}

/// By how much the numbers of four cells that share a corner lie farther apart than the steps between them allow, at most.
/// No square is asked whether it is the first such one, so that many are looked at at once.
#[inline(always)]
fn square_excess(south_west: u16, south_east: u16, north_west: u16, north_east: u16) -> u16
    ensures { result ≡ 0 → IsSquareGentle south_west south_east north_west north_east }
{
    let row = excess(south_west, south_east, STRAIGHT_UNITS);
    let column = excess(south_west, north_west, STRAIGHT_UNITS);
    let rising = excess(south_west, north_east, DIAGONAL_UNITS);
    let falling = excess(south_east, north_west, DIAGONAL_UNITS);
    let straight = row.max(column);
    if south_west == 0 || south_east == 0 || north_west == 0 || north_east == 0 {
        return straight;
    }
    straight.max(rising.max(falling))
}

/// By how much two marks, where both are some, lie farther apart than is allowed.
#[inline(always)]
fn excess(a: u16, b: u16, allowed: u16) -> u16
    ensures { result ≡ 0 → 0 < a → 0 < b → abs_diff a b ≤ allowed }
{
    if a == 0 || b == 0 {
        return 0;
    }
    a.abs_diff(b).saturating_sub(allowed)
}
