//! The start cell of a point: the nearest passable cell.
ghost use Rattle.std.specs.Prelude.{◌<◌, ◌↔◌, IsTrue, IsFalse, IfSome, IsNone};
ghost use Rattle.nav_types.specs.declared.cells.Cell.{Cell};
ghost use Rattle.fixed_point.specs.Plane.{IsOnAxis};
ghost use Rattle.goal_shapes.specs.Goals.{HoldsPoint, squared_distance};
ghost use Rattle.goal_reach.specs.Starts.{IsStartCell};

use crate::choices::{Choice, Ranked, RowStretch};
use crate::rings::least_cell;
use fixed_point::{Fixed, squared};
use goal_shapes::{cell_of_point, squared_distance};
use nav_types::{Axis, Cell, Class, FreeCells, Rect, Size, View, cell_on};

/// The start cell of the point (`x`, `z`) for a class (`IsStartCell`): the cell that holds the point, where
/// that is passable, else the passable cell whose middle is nearest to the point, the first in cell order
/// among equals. None exactly where no cell is passable for the class.
///
/// It looks at the cells near the point alone: at square rings round the cell that holds it, until none beyond can
/// be as near as the best. The impassable cells along a side of a ring are passed over at once. The point lies on the
/// map.
pub fn nearest_passable<V: FreeCells>(view: &V, class: Class, x: Fixed, z: Fixed) -> Option<Cell>
    requires class { class < V.class_count view.now }
    requires column { IsOnAxis (V.extent view.now).w x }
    requires row { IsOnAxis (V.extent view.now).h z }
    ensures start { IfSome result (IsStartCell (V.passes view.now class) x z) }
    ensures none { IsNone result ↔ ((cell : Cell) → IsFalse (V.passes view.now class cell)) }
{
    let Some(holder) = cell_of_point(x, z, view.size()) else {
        unreachable!()
    };
    if view.passable(class, holder) {
        return Some(holder);
    }
    least_cell(&PassableCells {
        view,
        class,
        x,
        z,
        holder,
    })
}

/// The passable cells of a map, ranked by their distance from a point, which the cell `holder` holds.
#[derive(Drop)]
struct PassableCells<'a, V: FreeCells> {
    view: &'a V,
    class: Class,
    x: Fixed,
    z: Fixed,
    holder: Cell,
}

impl<V: FreeCells> Choice for PassableCells<'_, V> {
    ghost use Rattle.std.specs.Prelude.{◌<◌, IsTrue};
    ghost use Rattle.nav_types.specs.Cells.{IsInside};
    ghost use Rattle.goal_shapes.specs.Goals.{HoldsPoint, squared_distance};
    ghost use Rattle.nav_types.specs.Rects.{cell_rect};

    ghost extent = { λ c. V.extent c.view.now };

    ghost sound = { λ c. (c.class < V.class_count c.view.now) × HoldsPoint c.x c.z c.holder
        × IsInside (V.extent c.view.now) c.holder };

    ghost offered = { λ c cell. IsTrue (V.passes c.view.now c.class cell) };

    ghost free = { λ c cell. IsTrue (V.passes c.view.now c.class cell) };

    ghost rank_of = { λ c cell. squared_distance c.x c.z cell };

    ghost core_of = { λ c. cell_rect c.holder };

    fn size(&self) -> Size {
        self.view.size()
    }

    fn core(&self) -> Rect {
        Rect::of_cell(self.holder)
    }

    fn next_along(&self, axis: Axis, cell: Cell) -> u16 {
        self.view.next_free(self.class, axis, cell)
    }

    // A free cell is passable.
    fn best_from(&self, axis: Axis, line: u16, from: u16, _end: u16) -> RowStretch {
        let cell = cell_on(axis, line, from);
        let rank = squared_distance(self.x, self.z, cell);
        RowStretch {
            best: Some(Ranked { cell, rank }),
            past: from + 1,
        }
    }

    // The point is at most half a navcell from the middle of the cell that holds it, so the middle of a cell beyond
    // is half a navcell further away than the rings are wide, or more.
    fn least_beyond(&self, rings: u16) -> u128 {
        squared(65536 * u64::from(rings) + 32768)
    }
}
