//! Marks that spread from the targets over a map.
ghost use Rattle.std.specs.Prelude.{◌≡◌, ◌+◌, ◌<◌, ◌≤◌, ◌^◌, ℕ, length, slice_index, IfSome, IfNone, OnOk};
ghost use Rattle.nav_types.specs.declared.limits.TheConstants.{STRAIGHT_COST, DIAGONAL_COST};
ghost use Rattle.flow_field.specs.inner.Marks.{free};
ghost use Rattle.flow_field.specs.inner.Spreads.{WaitsIn, IsLowered, IsTaken, IsInner, Relaxes, RelaxesAll, IsSpreadingForSome, KeepsSpreading};

use crate::queues::FieldQueue;
use nav_types::NoMemory;
use nav_types::limits::{DIAGONAL_COST, MAX_SIDE, STRAIGHT_COST};

/// The mark of a passable cell that is not reached: more than that of any cell that is.
pub const FREE: u64 = 1_099_511_627_776;

// A mark is one more than a distance, and the shortest way meets no cell of the largest map twice.
const _: () = prove!(MAX_SIDE as u64 * MAX_SIDE as u64 * DIAGONAL_COST < FREE);

/// Marks that spread from the targets, and the places whose marks fell and whose neighbours wait to be looked at: those
/// that a straight step reached, and those that a diagonal one did.
///
/// In each of the two queues marks rise, so that the smaller of their heads is the least mark that waits, and nearly
/// every place is taken once.
#[derive(Drop)]
pub struct FieldSpread {
    pub marks: Vec<u64>,
    pub straight: FieldQueue,
    pub diagonal: FieldQueue,
}

impl FieldSpread {
    /// Lowers a mark to one that is less, as a straight step does.
    #[inline(always)]
    pub fn lower_straight(&mut self, at: usize, mark: u64) -> Result<(), NoMemory>
        requires within { at < length self.old.marks.items }
        requires few { length self.old.marks.items < 2 ^ 32 }
        ensures { OnOk result (IsLowered at at at mark self.old self.new) }
    {
        if mark < self.marks[at] {
            self.marks[at] = mark;
            self.straight.push(at as u32)?;
        }
        Ok(())
    }

    /// Lowers a mark to one that is less, as a diagonal step does where both cells beside it are passable.
    #[inline(always)]
    fn lower_diagonal(
        &mut self,
        at: usize,
        row: usize,
        column: usize,
        mark: u64,
    ) -> Result<(), NoMemory>
        requires within { at < length self.old.marks.items }
        requires row { row < length self.old.marks.items }
        requires column { column < length self.old.marks.items }
        requires few { length self.old.marks.items < 2 ^ 32 }
        ensures { OnOk result (IsLowered at row column mark self.old self.new) }
    {
        if mark < self.marks[at] && self.marks[row] != 0 && self.marks[column] != 0 {
            self.marks[at] = mark;
            self.diagonal.push(at as u32)?;
        }
        Ok(())
    }

    /// Takes out a place that waits: of the two heads the one with the smaller mark. None exactly where none waits.
    fn take(&mut self) -> Option<usize>
        requires { (spot : ℕ) → WaitsIn self.old spot → spot < length self.old.marks.items }
        ensures some { IfSome result (λ at. IsTaken at self.old self.new) }
        ensures none { IfNone result ((spot : ℕ) → WaitsIn self.old spot → ⊥) }
        ensures same { IfNone result (self.new ≡ self.old) }
    {
        let is_straight = match (self.straight.first(), self.diagonal.first()) {
            (None, None) => return None,
            (Some(_), None) => true,
            (None, Some(_)) => false,
            (Some(straight), Some(diagonal)) => {
                self.marks[straight as usize] <= self.marks[diagonal as usize]
            }
        };
        let place = if is_straight {
            self.straight.take_first()
        } else {
            self.diagonal.take_first()
        };
        Some(place as usize)
    }

    /// Lowers the marks round a place by the four straight steps.
    fn relax_straight(&mut self, width: usize, at: usize, mark: u64) -> Result<(), NoMemory>
        requires { IsInner width at self.old }
        ensures { OnOk result (Relaxes width at mark STRAIGHT_COST 0 4 self.old self.new) }
    {
        self.lower_straight(at + width, mark)?;
        self.lower_straight(at + 1, mark)?;
        self.lower_straight(at - width, mark)?;
        self.lower_straight(at - 1, mark)
    }

    /// Lowers the marks round a place by the four diagonal steps.
    fn relax_diagonal(&mut self, width: usize, at: usize, mark: u64) -> Result<(), NoMemory>
        requires { IsInner width at self.old }
        ensures { OnOk result (Relaxes width at mark DIAGONAL_COST 4 8 self.old self.new) }
    {
        let north = at + width;
        let south = at - width;
        self.lower_diagonal(north + 1, at + 1, north, mark)?;
        self.lower_diagonal(south + 1, at + 1, south, mark)?;
        self.lower_diagonal(south - 1, at - 1, south, mark)?;
        self.lower_diagonal(north - 1, at - 1, north, mark)
    }

    /// Lowers the marks round a place by all steps from it.
    fn relax(&mut self, width: usize, at: usize) -> Result<(), NoMemory>
        requires inner { IsInner width at self.old }
        requires reached { slice_index self.old.marks.items at < free }
        ensures { OnOk result (RelaxesAll width at self.old self.new) }
    {
        let mark = self.marks[at];
        self.relax_straight(width, at, mark + STRAIGHT_COST)?;
        self.relax_diagonal(width, at, mark + DIAGONAL_COST)
    }

    /// Spreads the marks until no place waits. `width` is that of a row of the table.
    pub fn run(&mut self, width: usize) -> Result<(), NoMemory>
        requires { IsSpreadingForSome width self.old }
        ensures keeps { OnOk result (KeepsSpreading width self.old self.new) }
        ensures none { OnOk result ((spot : ℕ) → WaitsIn self.new spot → ⊥) }
    {
        'places: while let Some(at) = self.take() {
            self.relax(width, at)?;
        }
        Ok(())
    }
}
