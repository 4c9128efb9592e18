//! Flow fields.
ghost use Rattle.std.specs.Prelude.{Bool, ℕ, ◌≡◌, Some, IfOk, IsSome, option_map};
ghost use Rattle.nav_types.specs.declared.cells.Cell.{Cell};
ghost use Rattle.nav_types.specs.declared.cells.Cost.{Cost};
ghost use Rattle.nav_types.specs.Cells.{IsInside};
ghost use Rattle.flow_field.specs.Flows.{LeadsToTarget, IsFar, IsNext, IsFieldOf, far_in, Follows, HasSummary};
ghost use Rattle.flow_field.specs.inner.Marks.{cells_of};

use crate::filling::spot;
use crate::tables::Table;
use nav_types::{Cell, Cost, Dir, NoMemory};
use posts::FlowSummary;
use std::alloc::Global;
use std::marker::Model;
use walks::Walk;

/// For each cell of a map its distance to the nearest target that can be walked to from a start. Contracts see the size of
/// the map and the distances, row by row; a cell of another area than the start's has none.
///
/// It keeps eight bytes a cell.
#[derive(Drop)]
pub struct Field {
    table: Table,
}

impl Model for Field {
    ghost use Rattle.flow_field.specs.Flows.{FieldCells};
    ghost use Rattle.flow_field.specs.inner.Marks.{cells_of};

    ghost Value = { FieldCells };

    ghost view = { λ f. cells_of f.table.size f.table.marks.items };
}

impl Field {
    /// The field of a finished table.
    pub(crate) fn of(table: Table) -> Field
        ensures { result ≡ cells_of table.size table.marks.items }
    {
        Field { table }
    }

    /// The distance of a cell to the nearest target. None exactly where the cell is not in the start's area.
    pub fn far(&self, cell: Cell) -> Option<Cost>
        requires inside { IsInside self.now.size cell }
        ensures value { option_map (λ (cost : Cost). cost.0) result ≡ far_in self.now cell }
        ensures far { (passes hit : Cell → Bool) (start : Cell) → IsFieldOf passes hit start self.now
            → IsFar passes hit start cell (option_map (λ (cost : Cost). cost.0) result) }
    {
        match self.table.distance(cell) {
            Some(distance) => Some(Cost(distance)),
            None => None,
        }
    }

    /// The step to take: of the legal steps that lead nearer by all that they cost the first by preference, straight ones
    /// first. None exactly where the cell is a target or not in the start's area.
    pub fn next(&self, cell: Cell) -> Option<Dir>
        requires inside { IsInside self.now.size cell }
        ensures { (passes hit : Cell → Bool) (start : Cell) → IsFieldOf passes hit start self.now
            → IsNext passes hit start cell result }
    {
        match self.table.distance(cell) {
            Some(_) => self.table.step_from(spot(self.table.size, cell)),
            None => None,
        }
    }

    /// The walk from a cell of the start's area by the steps to take, until there is none: it is legal, ends on a target and
    /// costs the cell's distance.
    pub fn follow(&self, alloc: Global, cell: Cell) -> Result<Walk, NoMemory>
        requires inside { IsInside self.now.size cell }
        requires far { IsSome (far_in self.now cell) }
        ensures steps { IfOk result (λ walk. (passes hit : Cell → Bool) (start : Cell)
            → IsFieldOf passes hit start self.now → Follows passes hit start cell walk) }
        ensures arrives { IfOk result (λ walk. (passes hit : Cell → Bool) (start : Cell) (cost : ℕ)
            → IsFieldOf passes hit start self.now → far_in self.now cell ≡ Some cost
            → LeadsToTarget passes hit cell walk cost) }
    {
        let mut walk = Walk::new(alloc);
        let mut at = spot(self.table.size, cell);
        'steps: while let Some(dir) = self.table.step_from(at) {
            walk.push(dir)?;
            at = self.table.beside(at, dir);
        }
        Ok(walk)
    }

    /// How many cells have a distance, the greatest of the distances, and their sum.
    pub fn summary(&self) -> FlowSummary
        ensures { (passes hit : Cell → Bool) (start : Cell) → IsFieldOf passes hit start self.now
            → HasSummary passes hit start result }
    {
        self.table.summary()
    }
}
