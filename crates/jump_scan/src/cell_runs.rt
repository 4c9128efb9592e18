//! Runs over any view, cell by cell.
ghost use Rattle.std.specs.Prelude.{◌≡◌};

use crate::run_views::Runs;
use crate::{pruning, scans};
use nav_types::{Aim, Cell, Class, Dir, DirSet, Size, View};

/// A view whose runs are scanned cell by cell.
#[derive(Drop)]
pub struct CellRuns<'a, V: View> {
    pub view: &'a V,
}

impl<'a, V: View> CellRuns<'a, V> {
    /// The runs over the view.
    pub fn new(view: &'a V) -> CellRuns<'a, V>
        ensures { result.view.now ≡ view.now }
    {
        CellRuns { view }
    }
}

impl<'a, V: View> View for CellRuns<'a, V> {
    ghost extent = { λ runs. V.extent runs.view.now };

    ghost class_count = { λ runs. V.class_count runs.view.now };

    ghost passes = { λ runs. V.passes runs.view.now };

    fn size(&self) -> Size {
        self.view.size()
    }

    fn classes(&self) -> u8 {
        self.view.classes()
    }

    fn passable(&self, class: Class, cell: Cell) -> bool {
        self.view.passable(class, cell)
    }

    ghost within = { λ runs class cell passing. V.within runs.view.now class cell passing };
}

impl<'a, V: View> Runs for CellRuns<'a, V> {
    fn beside(&self, class: Class, cell: Cell) -> DirSet {
        pruning::beside(self.view, class, cell)
    }

    fn straight<A: Aim>(&self, class: Class, from: Cell, dir: Dir, aim: &A) -> Option<Cell> {
        scans::straight(self.view, class, from, dir, aim)
    }

    fn diagonal<A: Aim>(&self, class: Class, from: Cell, dir: Dir, aim: &A) -> Option<Cell> {
        scans::diagonal(self.view, class, from, dir, aim)
    }

    fn diagonal_within<A: Aim>(
        &self,
        class: Class,
        from: Cell,
        dir: Dir,
        aim: &A,
        most: u16,
    ) -> Option<Cell> {
        scans::diagonal_within(self.view, class, from, dir, aim, most)
    }
}
