//! The table of a finished field.
ghost use Rattle.std.specs.Prelude.{ℕ, ◌≡◌, ◌+◌, ◌*◌, ◌<◌, ◌≤◌, ◌⊎◌, ◌^◌, ◌↔◌, length, max, IfSome, IfNone, IsTrue};
ghost use Rattle.nav_types.specs.Cells.{IsInside};
ghost use Rattle.walks.specs.Chosen.{preference, IsFirstIn};
ghost use Rattle.flow_field.specs.inner.Marks.{mark_of, is_reached, far_of, IsBesideSpot, IsCellSpot, IsTable};
ghost use Rattle.flow_field.specs.inner.Ways.{IsReachedBeside, LeadsNearer, IsSummaryOf};
ghost use Rattle.nav_types.specs.declared.directions.Dir.{Dir};

use crate::filling::spot;
use crate::spreading::FREE;
use nav_types::{Cell, Dir, Size};
use posts::FlowSummary;

/// What is known of each cell of a map, row by row, with a border of one cell round it: 0 where no cell is passable, `FREE`
/// where a passable cell is not reached, and else one more than its distance.
#[derive(Drop)]
pub struct Table {
    pub size: Size,
    pub marks: Vec<u64>,
    pub ghost sound: { IsTable size marks.items },
}

/// Whether a mark is that of a reached cell.
fn is_reached(mark: u64) -> bool
    ensures { result ≡ is_reached mark }
{
    0 < mark && mark < FREE
}

/// The summary with one distance more.
fn with_distance(summary: FlowSummary, distance: u64) -> FlowSummary
    requires cells { summary.cells + 1 < 2 ^ 64 }
    requires sum { summary.sum + distance < 2 ^ 64 }
    ensures cells { result.cells ≡ summary.cells + 1 }
    ensures sum { result.sum ≡ summary.sum + distance }
    ensures farthest { result.farthest ≡ max summary.farthest distance }
{
    FlowSummary {
        cells: summary.cells + 1,
        farthest: summary.farthest.max(distance),
        sum: summary.sum + distance,
    }
}

impl Table {
    /// The distance of a cell. None exactly where it is not reached.
    pub fn distance(&self, cell: Cell) -> Option<u64>
        requires { IsInside self.now.size cell }
        ensures { result ≡ far_of (mark_of self.now.size self.now.marks.items cell) }
    {
        let mark = self.marks[spot(self.size, cell)];
        if is_reached(mark) {
            Some(mark - 1)
        } else {
            None
        }
    }

    /// The place that a step in the direction leads to.
    pub fn beside(&self, at: usize, dir: Dir) -> usize
        requires { IsCellSpot self.now.size at }
        ensures value { IsBesideSpot (self.now.size.w + 2) dir at result }
        ensures within { result < length self.now.marks.items }
    {
        let width = self.size.w as usize + 2;
        let ahead = at + dir.north() as usize * width + dir.east() as usize;
        ahead - dir.south() as usize * width - dir.west() as usize
    }

    /// Whether the cell is reached to which a step in the direction leads.
    fn is_reached_beside(&self, at: usize, dir: Dir) -> bool
        requires { IsCellSpot self.now.size at }
        ensures { IsTrue result ↔ IsReachedBeside self.now.size self.now.marks.items at dir }
    {
        is_reached(self.marks[self.beside(at, dir)])
    }

    /// Whether a step in the direction leads nearer by all that it costs. A straight step from a reached cell is legal
    /// exactly where it leads to a reached cell, a diagonal one exactly where both cells beside it are reached, too.
    fn leads_nearer(&self, at: usize, dir: Dir) -> bool
        requires { IsCellSpot self.now.size at }
        ensures { IsTrue result ↔ LeadsNearer self.now.size self.now.marks.items at dir }
    {
        if !self.is_reached_beside(at, dir.row_part()) {
            return false;
        }
        if !self.is_reached_beside(at, dir.column_part()) {
            return false;
        }
        let mark = self.marks[self.beside(at, dir)];
        if !is_reached(mark) {
            return false;
        }
        mark + dir.cost() == self.marks[at]
    }

    /// The step to take from a reached cell: the first by preference that leads nearer. None where there is none.
    pub fn step_from(&self, at: usize) -> Option<Dir>
        requires { IsCellSpot self.now.size at }
        ensures some { IfSome result
            (IsFirstIn (LeadsNearer self.now.size self.now.marks.items at) preference) }
        ensures none { IfNone result ((dir : Dir) → LeadsNearer self.now.size self.now.marks.items at dir → ⊥) }
    {
        for dir in Dir::ALL {
            if self.leads_nearer(at, dir) {
                return Some(dir);
            }
        }
        None
    }

    /// How many cells are reached, the greatest of their distances, and their sum.
    pub fn summary(&self) -> FlowSummary
        ensures { IsSummaryOf self.now.marks.items result }
    {
        let mut summary = FlowSummary {
            cells: 0,
            farthest: 0,
            sum: 0,
        };
        for mark in &self.marks {
            if is_reached(*mark) {
                summary = with_distance(summary, *mark - 1);
            }
        }
        summary
    }
}
