//! Runs of legal steps in one direction, cell by cell.
ghost use Rattle.std.specs.Prelude.{◌<◌, ◌↔◌, ◌⊎◌, IsTrue, IsFalse, IfSome, IfNone};
ghost use Rattle.nav_types.specs.declared.cells.Cell.{Cell};
ghost use Rattle.nav_types.specs.Cells.{IsInside};
ghost use Rattle.nav_types.specs.Directions.{is_straight, row_part, column_part};
ghost use Rattle.jump_scan.specs.Stops.{HaltsStraight, HaltsDiagonal, IsStraightStop, HasStraightStop, IsDiagonalStop};
ghost use Rattle.jump_scan.specs.Stops.{IsDiagonalStopWithin};

use crate::pruning::has_forced;
use nav_types::{Aim, Cell, Class, Dir, View, step};

/// Whether a straight run in the direction stops at the cell.
fn halts_straight<V: View, A: Aim>(view: &V, class: Class, cell: Cell, dir: Dir, aim: &A) -> bool
    requires class { class < V.class_count view.now }
    requires passable { IsTrue (V.passes view.now class cell) }
    requires inside { IsInside (V.extent view.now) cell }
    requires aim { A.sound aim.now (V.extent view.now) }
    ensures { IsTrue result ↔ HaltsStraight (V.passes view.now class) (A.hit aim.now (V.extent view.now)) dir cell }
{
    aim.hits(view.size(), cell) || has_forced(view, class, cell, dir)
}

/// The stop of the straight run from the cell: the first cell after it, by legal steps in the direction, that the aim
/// hits or that has a forced successor. None exactly where the run ends without a stop.
pub fn straight<V: View, A: Aim>(
    view: &V,
    class: Class,
    from: Cell,
    dir: Dir,
    aim: &A,
) -> Option<Cell>
    requires class { class < V.class_count view.now }
    requires start { IsTrue (V.passes view.now class from) }
    requires straight { IsTrue (is_straight dir) }
    requires aim { A.sound aim.now (V.extent view.now) }
    ensures some { IfSome result
        (IsStraightStop (V.passes view.now class) (A.hit aim.now (V.extent view.now)) dir from) }
    ensures none { IfNone result
        ((stop : Cell) → ¬ IsStraightStop (V.passes view.now class) (A.hit aim.now (V.extent view.now)) dir from stop) }
{
    let mut cell = from;
    'run: while let Some(next) = step(view, class, cell, dir) {
        if halts_straight(view, class, next, dir, aim) {
            return Some(next);
        }
        cell = next;
    }
    None
}

/// Whether the straight run from the cell has a stop.
fn has_straight_stop<V: View, A: Aim>(view: &V, class: Class, cell: Cell, dir: Dir, aim: &A) -> bool
    requires class { class < V.class_count view.now }
    requires passable { IsTrue (V.passes view.now class cell) }
    requires straight { IsTrue (is_straight dir) }
    requires aim { A.sound aim.now (V.extent view.now) }
    ensures { IsTrue result ↔ HasStraightStop (V.passes view.now class) (A.hit aim.now (V.extent view.now)) dir cell }
{
    straight(view, class, cell, dir, aim).is_some()
}

/// Whether the straight run in one of the two straight parts of the direction has a stop.
fn has_stop_aside<V: View, A: Aim>(view: &V, class: Class, cell: Cell, dir: Dir, aim: &A) -> bool
    requires class { class < V.class_count view.now }
    requires passable { IsTrue (V.passes view.now class cell) }
    requires aim { A.sound aim.now (V.extent view.now) }
    ensures { IsTrue result
        ↔ (HasStraightStop (V.passes view.now class) (A.hit aim.now (V.extent view.now)) (row_part dir) cell
        ⊎ HasStraightStop (V.passes view.now class) (A.hit aim.now (V.extent view.now)) (column_part dir) cell) }
{
    has_straight_stop(view, class, cell, dir.row_part(), aim)
        || has_straight_stop(view, class, cell, dir.column_part(), aim)
}

/// Whether a diagonal run in the direction stops at the cell.
fn halts_diagonal<V: View, A: Aim>(view: &V, class: Class, cell: Cell, dir: Dir, aim: &A) -> bool
    requires class { class < V.class_count view.now }
    requires passable { IsTrue (V.passes view.now class cell) }
    requires inside { IsInside (V.extent view.now) cell }
    requires aim { A.sound aim.now (V.extent view.now) }
    ensures { IsTrue result ↔ HaltsDiagonal (V.passes view.now class) (A.hit aim.now (V.extent view.now)) dir cell }
{
    aim.hits(view.size(), cell) || has_stop_aside(view, class, cell, dir, aim)
}

/// The stop of the diagonal run from the cell: the first cell after it, by legal steps in the direction, that the aim
/// hits or from which the straight run in one of the direction's two straight parts has a stop. None exactly where the
/// run ends without a stop.
pub fn diagonal<V: View, A: Aim>(
    view: &V,
    class: Class,
    from: Cell,
    dir: Dir,
    aim: &A,
) -> Option<Cell>
    requires class { class < V.class_count view.now }
    requires start { IsTrue (V.passes view.now class from) }
    requires diagonal { IsFalse (is_straight dir) }
    requires aim { A.sound aim.now (V.extent view.now) }
    ensures some { IfSome result
        (IsDiagonalStop (V.passes view.now class) (A.hit aim.now (V.extent view.now)) dir from) }
    ensures none { IfNone result
        ((stop : Cell) → ¬ IsDiagonalStop (V.passes view.now class) (A.hit aim.now (V.extent view.now)) dir from stop) }
{
    let mut cell = from;
    'run: while let Some(next) = step(view, class, cell, dir) {
        if halts_diagonal(view, class, next, dir, aim) {
            return Some(next);
        }
        cell = next;
    }
    None
}

/// The stop of the diagonal run from the cell where it is at most so many steps away. None exactly where the run has no
/// stop within them.
pub fn diagonal_within<V: View, A: Aim>(
    view: &V,
    class: Class,
    from: Cell,
    dir: Dir,
    aim: &A,
    most: u16,
) -> Option<Cell>
    requires class { class < V.class_count view.now }
    requires start { IsTrue (V.passes view.now class from) }
    requires diagonal { IsFalse (is_straight dir) }
    requires aim { A.sound aim.now (V.extent view.now) }
    ensures some { IfSome result
        (IsDiagonalStopWithin (V.passes view.now class) (A.hit aim.now (V.extent view.now)) dir most from) }
    ensures none { IfNone result ((stop : Cell)
        → ¬ IsDiagonalStopWithin (V.passes view.now class) (A.hit aim.now (V.extent view.now)) dir most from stop) }
{
    let mut cell = from;
    for _steps in 0..most {
        let Some(next) = step(view, class, cell, dir) else {
            return None;
        };
        if halts_diagonal(view, class, next, dir, aim) {
            return Some(next);
        }
        cell = next;
    }
    None
}
