//! Maps that answer runs.

use nav_types::{Aim, Cell, Class, Dir, DirSet, View};

/// A map that answers the stops of runs. A search asks it alone, so a map that keeps rows of bits can scan many cells
/// at once.
pub trait Runs: View {
    ghost use Rattle.std.specs.Prelude.{◌<◌, IsTrue, IsFalse, IfSome, IfNone};
    ghost use Rattle.nav_types.specs.declared.cells.Cell.{Cell};
    ghost use Rattle.nav_types.specs.Directions.{is_straight};
    ghost use Rattle.jump_scan.specs.Stops.{IsStraightStop, IsDiagonalStop, IsDiagonalStopWithin};
    ghost use Rattle.jump_scan.specs.Successors.{AreFreeBeside};

    /// The directions in which the cell beside is passable. Off the map no cell is.
    fn beside(&self, class: Class, cell: Cell) -> DirSet
        requires class { class < Self.class_count self.now }
        requires passable { IsTrue (Self.passes self.now class cell) }
        ensures { AreFreeBeside (Self.passes self.now class) cell result };

    /// The stop of the straight run from the cell, as the function `straight` gives it.
    fn straight<A: Aim>(&self, class: Class, from: Cell, dir: Dir, aim: &A) -> Option<Cell>
        requires class { class < Self.class_count self.now }
        requires start { IsTrue (Self.passes self.now class from) }
        requires straight { IsTrue (is_straight dir) }
        requires aim { A.sound aim.now (Self.extent self.now) }
        ensures some { IfSome result
            (IsStraightStop (Self.passes self.now class) (A.hit aim.now (Self.extent self.now)) dir from) }
        ensures none { IfNone result
            ((stop : Cell) → ¬ IsStraightStop (Self.passes self.now class) (A.hit aim.now (Self.extent self.now)) dir
            from stop) };

    /// The stop of the diagonal run from the cell, as the function `diagonal` gives it.
    fn diagonal<A: Aim>(&self, class: Class, from: Cell, dir: Dir, aim: &A) -> Option<Cell>
        requires class { class < Self.class_count self.now }
        requires start { IsTrue (Self.passes self.now class from) }
        requires diagonal { IsFalse (is_straight dir) }
        requires aim { A.sound aim.now (Self.extent self.now) }
        ensures some { IfSome result
            (IsDiagonalStop (Self.passes self.now class) (A.hit aim.now (Self.extent self.now)) dir from) }
        ensures none { IfNone result
            ((stop : Cell) → ¬ IsDiagonalStop (Self.passes self.now class) (A.hit aim.now (Self.extent self.now)) dir
            from stop) };

    /// The stop of the diagonal run from the cell within so many steps, as the function `diagonal_within` gives it.
    fn diagonal_within<A: Aim>(
        &self,
        class: Class,
        from: Cell,
        dir: Dir,
        aim: &A,
        most: u16,
    ) -> Option<Cell>
        requires class { class < Self.class_count self.now }
        requires start { IsTrue (Self.passes self.now class from) }
        requires diagonal { IsFalse (is_straight dir) }
        requires aim { A.sound aim.now (Self.extent self.now) }
        ensures some { IfSome result
            (IsDiagonalStopWithin (Self.passes self.now class) (A.hit aim.now (Self.extent self.now)) dir most from) }
        ensures none { IfNone result
            ((stop : Cell) → ¬ IsDiagonalStopWithin (Self.passes self.now class) (A.hit aim.now (Self.extent self.now))
            dir most from stop) };
}
