//! Fields of distances from a landmark, in units.
ghost use Rattle.std.specs.Prelude.{◌≡◌, ◌+◌, ◌<◌, ◌≤◌, ◌^◌, length, IfOk, OnOk, IsTrue};
ghost use Rattle.landmarks.specs.inner.Fields.{Spreads, IsInner, HasRoom};

use crate::marks::clear;
use crate::queues::{Reached, TableQueue};
use crate::units::{DIAGONAL_UNITS, STRAIGHT_UNITS};
use nav_types::{Dir, NoMemory};
use std::alloc::Global;

/// Marks that spread from a landmark, and the places whose marks fell: those that a straight step reached, and those that
/// a diagonal one did. In each of the two queues marks rise, so that the smaller of their heads is the least that waits.
///
/// No contract says which marks are reached: they count for nothing until each step was looked at.
#[derive(Drop)]
pub struct TableSpread {
    pub marks: Vec<u16>,
    straight: TableQueue,
    diagonal: TableQueue,
    /// The place that was reached last.
    pub last: usize,
}

/// An eighth of a turn to the left: of N it is NW.
#[inline(always)]
fn left_of(dir: Dir) -> Dir {
    match dir {
        Dir::N => Dir::NW,
        Dir::NW => Dir::W,
        Dir::W => Dir::SW,
        Dir::SW => Dir::S,
        Dir::S => Dir::SE,
        Dir::SE => Dir::E,
        Dir::E => Dir::NE,
        Dir::NE => Dir::N,
    }
}

/// An eighth of a turn to the right: of N it is NE.
#[inline(always)]
fn right_of(dir: Dir) -> Dir {
    match dir {
        Dir::N => Dir::NE,
        Dir::NE => Dir::E,
        Dir::E => Dir::SE,
        Dir::SE => Dir::S,
        Dir::S => Dir::SW,
        Dir::SW => Dir::W,
        Dir::W => Dir::NW,
        Dir::NW => Dir::N,
    }
}

/// A side of a straight step: the directions an eighth, a quarter and three eighths of a turn from its own.
#[derive(Clone, Copy)]
struct StepSide {
    ahead: Dir,
    aside: Dir,
    behind: Dir,
}

/// The left side.
#[inline(always)]
fn turn_left(dir: Dir) -> StepSide {
    let ahead = left_of(dir);
    let aside = left_of(ahead);
    let behind = left_of(aside);
    StepSide {
        ahead,
        aside,
        behind,
    }
}

/// The right side.
#[inline(always)]
fn turn_right(dir: Dir) -> StepSide {
    let ahead = right_of(dir);
    let aside = right_of(ahead);
    let behind = right_of(aside);
    StepSide {
        ahead,
        aside,
        behind,
    }
}

/// The next place in a direction. `width` is that of a row of the table.
#[inline(always)]
fn beside(width: usize, at: usize, dir: Dir) -> usize
    requires low { width + 1 ≤ at }
    requires room { at + width + 1 < 2 ^ 63 }
    ensures { result ≤ at + width + 1 }
{
    match dir {
        Dir::N => at + width,
        Dir::E => at + 1,
        Dir::S => at - width,
        Dir::W => at - 1,
        Dir::NE => at + width + 1,
        Dir::SE => at - width + 1,
        Dir::SW => at - width - 1,
        Dir::NW => at + width - 1,
    }
}

impl TableSpread {
    /// The marks, where no place waits.
    pub fn over(alloc: Global, marks: Vec<u16>) -> TableSpread
        ensures { result.marks.items ≡ marks.items }
    {
        TableSpread {
            marks,
            straight: TableQueue::new(alloc),
            diagonal: TableQueue::new(alloc),
            last: 0,
        }
    }

    /// The same once more.
    pub fn copy(&self, alloc: Global) -> Result<TableSpread, NoMemory>
        ensures { IfOk result (λ same. same.marks.items ≡ self.now.marks.items) }
    {
        Ok(TableSpread {
            marks: Vec::from_slice(alloc, self.marks.as_slice())?,
            straight: self.straight.copy(alloc)?,
            diagonal: self.diagonal.copy(alloc)?,
            last: self.last,
        })
    }

    /// Takes back all that was reached, when no place waits.
    pub fn clear(&mut self)
        ensures { Spreads self.old.marks.items self.new.marks.items }
    {
        clear(&mut self.marks);
    }

    /// Lowers a mark to one that is less, as a straight step does.
    #[inline(always)]
    fn lower_straight(&mut self, at: usize, mark: u16, arrived: Dir) -> Result<(), NoMemory>
        requires within { at < length self.old.marks.items }
        requires room { HasRoom self.old.marks.items }
        requires mark { 0 < mark }
        ensures { OnOk result (Spreads self.old.marks.items self.new.marks.items) }
    {
        if mark < self.marks[at] {
            self.marks[at] = mark;
            let place = at as u32;
            self.straight.push(Reached {
                place,
                mark,
                arrived,
            })?;
        }
        Ok(())
    }

    /// Lowers a mark to one that is less, as a diagonal step does.
    #[inline(always)]
    fn lower_diagonal(&mut self, at: usize, mark: u16, arrived: Dir) -> Result<(), NoMemory>
        requires within { at < length self.old.marks.items }
        requires room { HasRoom self.old.marks.items }
        requires mark { 0 < mark }
        ensures { OnOk result (Spreads self.old.marks.items self.new.marks.items) }
    {
        if mark < self.marks[at] {
            self.marks[at] = mark;
            let place = at as u32;
            self.diagonal.push(Reached {
                place,
                mark,
                arrived,
            })?;
        }
        Ok(())
    }

    /// Takes out a place that waits: of the two heads the one with the smaller mark. None where none waits.
    #[inline(always)]
    fn take(&mut self) -> Option<Reached>
        ensures { self.new.marks.items ≡ self.old.marks.items }
    {
        let Some(straight) = self.straight.first() else {
            let diagonal = self.diagonal.first()?;
            self.diagonal.drop_first();
            return Some(diagonal);
        };
        if let Some(diagonal) = self.diagonal.first() {
            if diagonal.mark < straight.mark {
                self.diagonal.drop_first();
                return Some(diagonal);
            }
        }
        self.straight.drop_first();
        Some(straight)
    }

    /// Lowers the mark of the next place in the direction, where a step leads there from the place.
    #[inline(always)]
    fn step(&mut self, width: usize, at: usize, dir: Dir) -> Result<(), NoMemory>
        requires inner { IsInner width at self.old.marks.items }
        requires room { HasRoom self.old.marks.items }
        ensures { OnOk result (Spreads self.old.marks.items self.new.marks.items) }
    {
        let mark = self.marks[at];
        let to = beside(width, at, dir);
        if dir.is_straight() {
            return self.lower_straight(to, mark.saturating_add(STRAIGHT_UNITS), dir);
        }
        let (row, column) = (
            beside(width, at, left_of(dir)),
            beside(width, at, right_of(dir)),
        );
        if self.marks[row] == 0 || self.marks[column] == 0 {
            return Ok(());
        }
        self.lower_diagonal(to, mark.saturating_add(DIAGONAL_UNITS), dir)
    }

    /// Goes on to a side, where a wall on that side of the place before forces it.
    #[inline(always)]
    fn turn(&mut self, width: usize, at: usize, turn: StepSide) -> Result<(), NoMemory>
        requires inner { IsInner width at self.old.marks.items }
        requires room { HasRoom self.old.marks.items }
        ensures { OnOk result (Spreads self.old.marks.items self.new.marks.items) }
    {
        if self.marks[beside(width, at, turn.behind)] != 0 {
            return Ok(());
        }
        self.step(width, at, turn.aside)?;
        self.step(width, at, turn.ahead)
    }

    /// Goes on from a place that a straight step reached.
    #[inline(always)]
    fn after_straight(&mut self, width: usize, at: usize, arrived: Dir) -> Result<(), NoMemory>
        requires inner { IsInner width at self.old.marks.items }
        requires room { HasRoom self.old.marks.items }
        ensures { OnOk result (Spreads self.old.marks.items self.new.marks.items) }
    {
        self.step(width, at, arrived)?;
        self.turn(width, at, turn_left(arrived))?;
        self.turn(width, at, turn_right(arrived))
    }

    /// Goes on from a place that a diagonal step reached.
    #[inline(always)]
    fn after_diagonal(&mut self, width: usize, at: usize, arrived: Dir) -> Result<(), NoMemory>
        requires inner { IsInner width at self.old.marks.items }
        requires room { HasRoom self.old.marks.items }
        ensures { OnOk result (Spreads self.old.marks.items self.new.marks.items) }
    {
        self.step(width, at, left_of(arrived))?;
        self.step(width, at, right_of(arrived))?;
        self.step(width, at, arrived)
    }

    /// Goes on from a place that was reached. Steps by which no place is reached at less cost are left out, as by the pruning of
    /// a jump search.
    #[inline(always)]
    fn relax(&mut self, width: usize, at: usize, arrived: Dir) -> Result<(), NoMemory>
        requires inner { IsInner width at self.old.marks.items }
        requires room { HasRoom self.old.marks.items }
        ensures { OnOk result (Spreads self.old.marks.items self.new.marks.items) }
    {
        match arrived {
            Dir::N => self.after_straight(width, at, Dir::N),
            Dir::E => self.after_straight(width, at, Dir::E),
            Dir::S => self.after_straight(width, at, Dir::S),
            Dir::W => self.after_straight(width, at, Dir::W),
            Dir::NE => self.after_diagonal(width, at, Dir::NE),
            Dir::SE => self.after_diagonal(width, at, Dir::SE),
            Dir::SW => self.after_diagonal(width, at, Dir::SW),
            Dir::NW => self.after_diagonal(width, at, Dir::NW),
        }
    }

    /// Whether the place has one on each side.
    #[inline(always)]
    fn is_inner(&self, width: usize, at: usize) -> bool
        requires wide { width + 1 < length self.now.marks.items }
        ensures { IsTrue result → IsInner width at self.now.marks.items }
    {
        at > width && at < self.marks.len() - width - 1
    }

    /// Begins a spread: lowers the marks round the place from which it goes, by all steps from there. `width` is that of a row
    /// of the table.
    pub fn begin(&mut self, width: usize, from: usize) -> Result<(), NoMemory>
        requires wide { width + 1 < length self.old.marks.items }
        requires room { HasRoom self.old.marks.items }
        ensures { OnOk result (Spreads self.old.marks.items self.new.marks.items) }
    {
        self.last = from;
        if !self.is_inner(width, from) || self.marks[from] == 0 {
            return Ok(());
        }
        self.marks[from] = 1;
        self.after_diagonal(width, from, Dir::NE)?;
        self.after_diagonal(width, from, Dir::SW)?;
        self.step(width, from, Dir::SE)?;
        self.step(width, from, Dir::NW)
    }

    /// Spreads the marks on from places that wait, so many at most, and gives how many these were: fewer only where none
    /// waits any more.
    pub fn run(&mut self, width: usize, most: usize) -> Result<usize, NoMemory>
        requires wide { width + 1 < length self.old.marks.items }
        requires room { HasRoom self.old.marks.items }
        ensures spreads { OnOk result (Spreads self.old.marks.items self.new.marks.items) }
        ensures few { IfOk result (λ done. done ≤ most) }
    {
        for done in 0..most {
            let Some(reached) = self.take() else {
                return Ok(done);
            };
            let at = reached.place as usize;
            if self.is_inner(width, at) {
                self.relax(width, at, reached.arrived)?;
                self.last = at;
            }
        }
        Ok(most)
    }

    /// A place far from another: of those of passable cells the last, or the first where the other is nearer to that.
    pub fn far_from(&self, place: usize) -> usize
        requires { place < length self.now.marks.items }
        ensures { result < length self.now.marks.items }
    {
        let count = self.marks.len();
        for nth in 0..count {
            let at = if place < count / 2 {
                count - 1 - nth
            } else {
                nth
            };
            if self.marks[at] != 0 {
                return at;
            }
        }
        place
    }
}
