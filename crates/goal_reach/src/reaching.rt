//! Goals made reachable: the goal where it can be walked to, else the closest cell that can.
ghost use Rattle.std.specs.Prelude.{◌≡◌, ◌<◌, ◌≤◌, ◌↔◌, IsTrue, IsFalse};
ghost use Rattle.nav_types.specs.declared.cells.Cell.{Cell};
ghost use Rattle.nav_types.specs.declared.straights.Axis.TheVariants.{Row};
ghost use Rattle.nav_types.specs.Cells.{cell_at, IsInside, IsRectInside};
ghost use Rattle.nav_types.specs.Frames.{IsFrame};
ghost use Rattle.nav_types.specs.Lines.{cell_on};
ghost use Rattle.nav_types.specs.Walks.{Joined};
ghost use Rattle.goal_shapes.specs.Goals.{contains, remoteness, framed};
ghost use Rattle.goal_shapes.specs.Limits.{IsWellFormed, IsSoundGoal};
ghost use Rattle.goal_reach.specs.Targets.{hit_by, IsSoundTarget, AreTargets};
ghost use Rattle.goal_reach.specs.inner.Ranking.{with_rank, IsBest};
ghost use Rattle.goal_reach.specs.inner.Rings.{IsInRun};
ghost use Rattle.goal_reach.specs.inner.StartAreas.{IsAreaOf};
ghost use Rattle.goal_reach.specs.inner.Stretches.{is_inside_out, IsStretch};
ghost use Rattle.nav_types.specs.Walks.{CanReach};

use crate::choices::{Choice, Ranked, RowStretch, preferred};
use crate::remote::least_remoteness;
use crate::rings::least_cell;
use crate::targets::Target;
use goal_shapes::{Goal, cell_box, contains, remoteness};
use nav_types::{Areas, Axis, Cell, Class, FreeCells, Rect, Size, cell_on};

/// The targets of a goal that can be walked to from a start cell (`AreTargets`): the goal itself exactly
/// where a legal walk joins one of its cells to the start. Else the near cell: of the cells that are
/// joined to the start the least remote from the goal, the first in cell order among equals.
///
/// So the target is sound for the map, and it hits a cell that is joined to the start. It looks at the goal's box
/// alone, and for a near cell at rings round the box until none beyond can be as little remote as the best. The
/// impassable cells along a row of the box and along a side of a ring are passed over at once.
/// For a goal that is turned inside out it looks only at the first and the last of the passable cells that lie side by
/// side in a row.
///
/// The start is passable, and the goal is sound for the map.
pub fn made_reachable<M: Areas + FreeCells>(
    map: &M,
    class: Class,
    start: Cell,
    goal: &Goal,
) -> Target
    requires class { class < M.class_count map.now }
    requires start { IsTrue (M.passes map.now class start) }
    requires goal { IsSoundGoal (M.extent map.now) goal.now }
    ensures targets { AreTargets (M.passes map.now class) start goal.now result }
    ensures sound { IsSoundTarget (M.extent map.now) result }
    ensures reached { CanReach (M.passes map.now class) start (hit_by result) }
{
    let cells = AreaCells {
        map,
        class,
        start,
        area: map.area(class, start),
        goal,
        frame: cell_box(goal, map.size()),
    };
    if cells.has_goal_cell() {
        return Target::Goal(*goal);
    }
    match least_cell(&cells) {
        Some(cell) => Target::Near(cell),
        // the start is joined to itself
        None => unreachable!(),
    }
}

/// The cells of a start's area, ranked by their remoteness from a goal, whose box on the map is `frame`.
#[derive(Drop)]
struct AreaCells<'a, M: Areas> {
    map: &'a M,
    class: Class,
    start: Cell,
    area: u32,
    goal: &'a Goal,
    frame: Rect,
}

impl<M: Areas + FreeCells> AreaCells<'_, M> {
    /// Whether a legal walk joins the cell to the start: two passable cells are joined exactly where their
    /// areas have one number, and 0 is the number of no passable cell.
    fn has(&self, cell: Cell) -> bool
        requires class { self.now.class < M.class_count self.now.map.now }
        requires area { IsAreaOf (M.passes self.now.map.now self.now.class) (M.has_area self.now.map.now self.now.class)
            self.now.start self.now.area }
        requires inside { IsInside (M.extent self.now.map.now) cell }
        ensures { IsTrue result ↔ Joined (M.passes self.now.map.now self.now.class) self.now.start cell }
    {
        self.map.area(self.class, cell) == self.area
    }

    /// Whether some cell of the goal is joined to the start. They all lie in the goal's box.
    fn has_goal_cell(&self) -> bool
        requires class { self.now.class < M.class_count self.now.map.now }
        requires area { IsAreaOf (M.passes self.now.map.now self.now.class) (M.has_area self.now.map.now self.now.class)
            self.now.start self.now.area }
        requires goal { IsWellFormed self.now.goal.now }
        requires frame { IsFrame (framed self.now.goal.now) (M.extent self.now.map.now) self.now.frame }
        ensures { IsTrue result
            ↔ CanReach (M.passes self.now.map.now self.now.class) self.now.start (contains self.now.goal.now) }
    {
        for j in self.frame.j0..self.frame.j1 + 1 {
            if self.has_goal_cell_in_row(j) {
                return true;
            }
        }
        false
    }

    /// Whether some cell in row `j` of the goal's box is the goal's and joined to the start.
    fn has_goal_cell_in_row(&self, j: u16) -> bool
        requires class { self.now.class < M.class_count self.now.map.now }
        requires area { IsAreaOf (M.passes self.now.map.now self.now.class) (M.has_area self.now.map.now self.now.class)
            self.now.start self.now.area }
        requires goal { IsWellFormed self.now.goal.now }
        requires frame { IsRectInside (M.extent self.now.map.now) self.now.frame }
        requires row { j < (M.extent self.now.map.now).h }
        ensures some { IsTrue result
            → CanReach (M.passes self.now.map.now self.now.class) self.now.start (contains self.now.goal.now) }
        ensures none { IsFalse result → (cell : Cell) → cell.j ≡ j → self.now.frame.i0 ≤ cell.i
            → cell.i ≤ self.now.frame.i1
            → IsTrue (contains self.now.goal.now cell)
            → Joined (M.passes self.now.map.now self.now.class) self.now.start cell → ⊥ }
    {
        if self.is_row_missed(j) {
            return false;
        }
        let end = self.frame.i1 + 1;
        let mut i = self.frame.i0;
        'row: while i < end {
            let next = self.map.next_free(self.class, Axis::Row, Cell::new(i, j));
            i = next.min(end);
            if i < end {
                let past = self.past_alike(Axis::Row, j, i, end);
                if self.has_goal_cell_at_ends(j, i, past) {
                    return true;
                }
                i = past;
            }
        }
        false
    }

    /// Whether the ends of row `j` of the goal's box say that no cell of the row is the goal's: a goal that is turned
    /// inside out has none between two cells that it does not have.
    fn is_row_missed(&self, j: u16) -> bool
        requires { IsWellFormed self.now.goal.now }
        ensures { IsTrue result → (cell : Cell) → cell.j ≡ j → self.now.frame.i0 ≤ cell.i
            → cell.i ≤ self.now.frame.i1
            → IsTrue (contains self.now.goal.now cell) → ⊥ }
    {
        if !is_inside_out(self.goal) {
            return false;
        }
        let first = Cell::new(self.frame.i0, j);
        if contains(self.goal, first) {
            return false;
        }
        let last = Cell::new(self.frame.i1, j);
        !contains(self.goal, last)
    }

    /// Whether the first or the last cell of the stretch of row `j` from column `from` up to `past`, without that one, is
    /// the goal's, where the stretch is joined to the start. If none of the two is, no cell between them is.
    fn has_goal_cell_at_ends(&self, j: u16, from: u16, past: u16) -> bool
        requires class { self.now.class < M.class_count self.now.map.now }
        requires area { IsAreaOf (M.passes self.now.map.now self.now.class) (M.has_area self.now.map.now self.now.class)
            self.now.start self.now.area }
        requires goal { IsWellFormed self.now.goal.now }
        requires stretch { IsStretch (M.passes self.now.map.now self.now.class) self.now.goal.now Row j from past }
        requires inside { IsInside (M.extent self.now.map.now) (cell_at from j) }
        requires last { past ≤ (M.extent self.now.map.now).w }
        ensures some { IsTrue result
            → CanReach (M.passes self.now.map.now self.now.class) self.now.start (contains self.now.goal.now) }
        ensures none { IsFalse result → (cell : Cell) → IsInRun Row j from past cell
            → IsTrue (contains self.now.goal.now cell)
            → Joined (M.passes self.now.map.now self.now.class) self.now.start cell → ⊥ }
    {
        let first = Cell::new(from, j);
        if !self.has(first) {
            return false;
        }
        if contains(self.goal, first) {
            return true;
        }
        if past == from + 1 {
            return false;
        }
        contains(self.goal, Cell::new(past - 1, j))
    }

    /// The first place past the stretch of the line from place `from` on that its two ends stand for: the passable cells
    /// up to `end`, without that one, along a row for a goal that is turned inside out, and else one cell alone.
    fn past_alike(&self, axis: Axis, line: u16, from: u16, end: u16) -> u16
        requires class { self.now.class < M.class_count self.now.map.now }
        requires inside { IsInside (M.extent self.now.map.now) (cell_on axis line from) }
        requires free { IsTrue (M.passes self.now.map.now self.now.class (cell_on axis line from)) }
        requires end { from < end }
        ensures stretch { IsStretch (M.passes self.now.map.now self.now.class) self.now.goal.now axis line from result }
        ensures within { result ≤ end }
    {
        if !stand_ends(axis, self.goal) {
            return from + 1;
        }
        let first = cell_on(axis, line, from);
        self.map.next_blocked(self.class, axis, first).min(end)
    }

    /// The best cell of a stretch, which is one of its ends.
    fn best_of_stretch(&self, axis: Axis, line: u16, from: u16, past: u16) -> Option<Ranked>
        requires class { self.now.class < M.class_count self.now.map.now }
        requires area { IsAreaOf (M.passes self.now.map.now self.now.class) (M.has_area self.now.map.now self.now.class)
            self.now.start self.now.area }
        requires goal { IsWellFormed self.now.goal.now }
        requires unreached { CanReach (M.passes self.now.map.now self.now.class) self.now.start
            (contains self.now.goal.now) → ⊥ }
        requires stretch { IsStretch (M.passes self.now.map.now self.now.class) self.now.goal.now axis line from past }
        requires inside { (cell : Cell) → IsInRun axis line from past cell → IsInside (M.extent self.now.map.now) cell }
        ensures { IsBest (remoteness self.now.goal.now)
            (λ cell. Joined (M.passes self.now.map.now self.now.class) self.now.start cell
            × IsInRun axis line from past cell) result }
    {
        let first = cell_on(axis, line, from);
        if !self.has(first) {
            return None;
        }
        if past == from + 1 {
            return Some(self.ranked(first));
        }
        let last = cell_on(axis, line, past - 1);
        Some(preferred(self.ranked(first), self.ranked(last)))
    }

    /// The cell with its remoteness.
    fn ranked(&self, cell: Cell) -> Ranked
        requires { IsWellFormed self.now.goal.now }
        ensures { result ≡ with_rank (remoteness self.now.goal.now) cell }
    {
        let rank = remoteness(self.goal, cell);
        Ranked { cell, rank }
    }
}

/// Whether the ends of a stretch along the axis stand for the cells between them: along a row, where the goal is a circle
/// or a square turned inside out.
fn stand_ends(axis: Axis, goal: &Goal) -> bool
    ensures { IsTrue result → (axis ≡ Row) × IsTrue (is_inside_out goal.now) }
{
    match axis {
        Axis::Row => is_inside_out(goal),
        Axis::Column => false,
    }
}

/// Whether the goal is a circle or a square turned inside out.
pub(crate) fn is_inside_out(goal: &Goal) -> bool
    ensures { result ≡ is_inside_out goal.now }
{
    match *goal {
        Goal::Point { .. } => false,
        Goal::Circle { .. } => false,
        Goal::NotCircle { .. } => true,
        Goal::Square(_) => false,
        Goal::NotSquare(_) => true,
    }
}

impl<M: Areas + FreeCells> Choice for AreaCells<'_, M> {
    ghost use Rattle.std.specs.Prelude.{◌<◌, IsTrue};
    ghost use Rattle.nav_types.specs.Walks.{Joined, CanReach};
    ghost use Rattle.nav_types.specs.Frames.{IsFrame};
    ghost use Rattle.goal_shapes.specs.Goals.{contains, remoteness, framed};
    ghost use Rattle.goal_shapes.specs.Limits.{IsSoundGoal};
    ghost use Rattle.goal_reach.specs.inner.StartAreas.{IsAreaOf};

    ghost extent = { λ c. M.extent c.map.now };

    ghost sound = { λ c. (c.class < M.class_count c.map.now)
        × IsAreaOf (M.passes c.map.now c.class) (M.has_area c.map.now c.class) c.start c.area
        × IsSoundGoal (M.extent c.map.now) c.goal.now × IsFrame (framed c.goal.now) (M.extent c.map.now) c.frame
        × (CanReach (M.passes c.map.now c.class) c.start (contains c.goal.now) → ⊥) };

    ghost offered = { λ c cell. Joined (M.passes c.map.now c.class) c.start cell };

    ghost free = { λ c cell. IsTrue (M.passes c.map.now c.class cell) };

    ghost rank_of = { λ c cell. remoteness c.goal.now cell };

    ghost core_of = { λ c. c.frame };

    fn size(&self) -> Size {
        self.map.size()
    }

    fn core(&self) -> Rect {
        self.frame
    }

    // A cell joined to the start is passable.
    fn next_along(&self, axis: Axis, cell: Cell) -> u16 {
        self.map.next_free(self.class, axis, cell)
    }

    fn best_from(&self, axis: Axis, line: u16, from: u16, end: u16) -> RowStretch {
        let past = self.past_alike(axis, line, from, end);
        RowStretch {
            best: self.best_of_stretch(axis, line, from, past),
            past,
        }
    }

    fn least_beyond(&self, rings: u16) -> u128 {
        least_remoteness(self.goal, rings)
    }
}
