//! The table of marks before they spread: what is passable, and the targets.
ghost use Rattle.std.specs.Prelude.{ℕ, ◌≡◌, ◌+◌, ◌*◌, ◌<◌, ◌≤◌, ◌^◌, [], length, IfOk, OnOk, IsTrue, IsFalse};
ghost use Rattle.nav_types.specs.declared.cells.Cell.{Cell};
ghost use Rattle.nav_types.specs.declared.cells.Rect.{Rect};
ghost use Rattle.nav_types.specs.Cells.{IsInside, cell_at, IsBefore};
ghost use Rattle.flow_field.specs.inner.Marks.{spot_of, IsRunCleared, IsCleared, IsFilled, IsSpreading, NoStep, Every};
ghost use Rattle.flow_field.specs.inner.Spreads.{WaitsIn, FoundBefore, FoundTo};

use crate::spreading::{FREE, FieldSpread};
use nav_types::{Aim, Areas, Axis, Cell, Class, FreeCells, NoMemory, Size};
use std::alloc::Global;

/// The place of a cell in a table of marks with a border of one cell round the map.
pub fn spot(size: Size, cell: Cell) -> usize
    requires { IsInside size cell }
    ensures value { result ≡ spot_of size cell }
    ensures within { result + size.w + 3 < (size.w + 2) * (size.h + 2) + 1 }
{
    let width = size.w as usize + 2;
    (cell.j as usize + 1) * width + cell.i as usize + 1
}

/// A run of columns: the first, and the one behind the last.
#[derive(Clone, Copy)]
struct Run {
    from: u16,
    end: u16,
}

/// The first run of impassable cells of a row, from the cell on; an empty one at the row's end where there is none.
fn next_run<M: FreeCells>(map: &M, class: Class, cell: Cell) -> Run
    requires class { class < M.class_count map.now }
    requires inside { IsInside (M.extent map.now) cell }
    ensures on { cell.i < result.end }
    ensures order { result.from ≤ result.end }
    ensures within { result.end ≤ (M.extent map.now).w }
    ensures passable { (k : ℕ) → cell.i ≤ k → k < result.from → IsTrue (M.passes map.now class (cell_at k cell.j)) }
    ensures blocked { (k : ℕ) → result.from ≤ k → k < result.end → IsFalse (M.passes map.now class (cell_at k cell.j)) }
{
    let width = map.size().w;
    let from = map.next_blocked(class, Axis::Row, cell);
    if from >= width {
        return Run {
            from: width,
            end: width,
        };
    }
    let end = map.next_free(class, Axis::Row, Cell::new(from, cell.j));
    Run { from, end }
}

/// Marks a run of places as those where no cell is passable.
fn clear_run(marks: &mut Vec<u64>, from: usize, end: usize)
    requires within { end ≤ length marks.old.items }
    requires order { from ≤ end }
    ensures { IsRunCleared from end marks.old.items marks.new.items }
{
    for at in from..end {
        marks[at] = 0;
    }
}

/// Clears the impassable cells of a row, and the border behind it up to the next row.
fn clear_row<M: FreeCells>(marks: &mut Vec<u64>, map: &M, class: Class, j: u16)
    requires class { class < M.class_count map.now }
    requires row { j < (M.extent map.now).h }
    requires cleared { IsCleared (M.passes map.now class) (M.extent map.now)
        (spot_of (M.extent map.now) (cell_at 0 j)) marks.old.items }
    ensures { IsCleared (M.passes map.now class) (M.extent map.now)
        (spot_of (M.extent map.now) (cell_at 0 (j + 1))) marks.new.items }
{
    let size = map.size();
    let row = spot(size, Cell::new(0, j));
    let mut i = 0;
    'runs: while i < size.w {
        let run = next_run(map, class, Cell::new(i, j));
        clear_run(marks, row + run.from as usize, row + run.end as usize);
        i = run.end;
    }
    let end = row + size.w as usize;
    clear_run(marks, end, end + 2);
}

/// The table where nothing is reached. Most cells are passable on most maps, so that all places begin as passable ones and
/// the others are cleared.
pub fn free_marks<M: FreeCells>(alloc: Global, map: &M, class: Class) -> Result<Vec<u64>, NoMemory>
    requires class { class < M.class_count map.now }
    ensures { IfOk result (λ marks. IsFilled (M.passes map.now class) (M.extent map.now) marks.items) }
{
    let size = map.size();
    let width = size.w as usize + 2;
    let count = width * (size.h as usize + 2);
    let mut marks = vec![in alloc; FREE; count]?;
    clear_run(&mut marks, 0, width + 1);
    for j in 0..size.h {
        clear_row(&mut marks, map, class, j);
    }
    clear_run(&mut marks, count - width + 1, count);
    Ok(marks)
}

impl FieldSpread {
    /// Marks a cell as a target where it is one: a hit cell of the start's area, which is `home`.
    fn find_target<M: Areas, A: Aim>(
        &mut self,
        map: &M,
        class: Class,
        aim: &A,
        home: u32,
        cell: Cell,
    ) -> Result<(), NoMemory>
        requires class { class < M.class_count map.now }
        requires aim { A.sound aim.now (M.extent map.now) }
        requires inside { IsInside (M.extent map.now) cell }
        requires long { length self.old.marks.items ≡ ((M.extent map.now).w + 2) * ((M.extent map.now).h + 2) }
        ensures { OnOk result ((start : Cell) (rect : Rect) → IsTrue (M.passes map.now class start)
            → M.has_area map.now class start home
            → IsSpreading (M.passes map.now class) (A.hit aim.now (M.extent map.now)) start (M.extent map.now)
            (FoundBefore rect cell) NoStep self.old.marks.items (WaitsIn self.old)
            → IsSpreading (M.passes map.now class) (A.hit aim.now (M.extent map.now)) start (M.extent map.now)
            (FoundTo rect cell) NoStep self.new.marks.items (WaitsIn self.new)) }
    {
        let size = map.size();
        let at = spot(size, cell);
        if self.marks[at] != 0 && aim.hits(size, cell) && map.area(class, cell) == home {
            self.lower_straight(at, 1)?;
        }
        Ok(())
    }

    /// Marks the targets: the hit cells of the start's area.
    pub fn find_targets<M: Areas, A: Aim>(
        &mut self,
        map: &M,
        class: Class,
        start: Cell,
        aim: &A,
    ) -> Result<(), NoMemory>
        requires class { class < M.class_count map.now }
        requires start { IsTrue (M.passes map.now class start) }
        requires aim { A.sound aim.now (M.extent map.now) }
        requires filled { IsFilled (M.passes map.now class) (M.extent map.now) self.old.marks.items }
        requires straight { self.old.straight ≡ [] }
        requires diagonal { self.old.diagonal ≡ [] }
        ensures { OnOk result (IsSpreading (M.passes map.now class) (A.hit aim.now (M.extent map.now)) start
            (M.extent map.now) Every NoStep self.new.marks.items (WaitsIn self.new)) }
    {
        let size = map.size();
        let home = map.area(class, start);
        let bounds = aim.bounds(size);
        for j in bounds.j0..bounds.j1 + 1 {
            for i in bounds.i0..bounds.i1 + 1 {
                self.find_target(map, class, aim, home, Cell::new(i, j))?;
            }
        }
        Ok(())
    }
}
