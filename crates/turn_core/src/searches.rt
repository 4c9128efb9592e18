//! Searches on a version.
ghost use Rattle.std.specs.Prelude.{◌≡◌, IfOk, IfSome, IfNone};
ghost use Rattle.nav_types.specs.declared.cells.Cell.{Cell};
ghost use Rattle.goal_reach.specs.Targets.{hit_by, framed_by};
ghost use Rattle.jump_search.specs.Estimates.{IsEstimate, least_ahead};
ghost use Rattle.grid_versions.specs.Versions.{passes_of};
ghost use Rattle.turn_core.specs.Solving.{is_near};
ghost use Rattle.turn_core.specs.inner.Searching.{CanFind, IsFoundTo, IsMarkedFor, IsOnlyCell, IsRoomFor, IsWayOut, path_by};

use class_planes::PlaneRuns;
use goal_reach::{Target, room_in};
use goal_shapes::Goal;
use grid_versions::Version;
use jump_search::{
    CostlyEstimate, Disc, Guided, JumpSearch, Marked, Pool, Question, TargetEstimate, TurnedRoom,
};
use nav_types::{Aim, Cell, Class, NoMemory, Rect, View};
use posts::{Note, PathAnswer};
use std::alloc::Global;
use walks::Found;

/// A path, and what a report tells of it.
#[derive(Drop)]
pub(crate) struct NotedPath {
    pub path: PathAnswer,
    pub note: Note,
}

/// A search on a version for the chosen walk of a class from a start cell to a target.
#[derive(Drop)]
pub(crate) struct TargetSearch<'a> {
    pub version: &'a Version,
    pub class: Class,
    pub start: Cell,
    pub target: &'a Target,
}

impl<'a> TargetSearch<'a> {
    /// The chosen walk, by the room of the pool. What the search has opened is noted in the version.
    pub(crate) fn find(&self, alloc: Global, pool: &mut Pool) -> Result<Found, NoMemory>
        requires { CanFind self.now.version.now self.now.class self.now.start self.now.target.now }
        ensures { IfOk result (IsFoundTo self.now.version.now self.now.class self.now.start self.now.target.now) }
    {
        let found = self.found(alloc, pool)?;
        self.version
            .note_search(self.class, self.start, pool.opened());
        Ok(found)
    }

    /// The chosen walk, by what the search knows of the way.
    fn found(&self, alloc: Global, pool: &mut Pool) -> Result<Found, NoMemory>
        requires { CanFind self.now.version.now self.now.class self.now.start self.now.target.now }
        ensures { IfOk result (IsFoundTo self.now.version.now self.now.class self.now.start self.now.target.now) }
    {
        let runs = self.runs();
        let question = self.question(&runs);
        match self.ahead() {
            Some(way) => {
                let ahead = &way;
                Guided { question, ahead }.find(pool, alloc)
            }
            None => question.find(pool, alloc),
        }
    }

    /// What the search goes by where it knows more than octile distances: the way out of the room that the goal leaves about
    /// the start, the way out of the goal's shape, or tables of landmarks.
    pub(crate) fn ahead(&self) -> Option<TargetEstimate<'a>>
        requires { CanFind self.now.version.now self.now.class self.now.start self.now.target.now }
        ensures { IfSome result (λ ahead. IsEstimate (passes_of self.now.version.now self.now.class) (hit_by self.now.target.now)
            (framed_by self.now.target.now) self.now.version.now.map.size (least_ahead ahead)) }
    {
        if let Some(rect) = self.room() {
            return Some(TargetEstimate::Leaving(rect));
        }
        if let Some(out) = self.way_out() {
            return Some(TargetEstimate::Costly(out));
        }
        let marked = self.marked()?;
        Some(TargetEstimate::Costly(CostlyEstimate::Past(marked)))
    }

    /// The way out of a circle or a square, where the target is what lies outside of it.
    fn way_out(&self) -> Option<CostlyEstimate<'a>>
        requires { CanFind self.now.version.now self.now.class self.now.start self.now.target.now }
        ensures { IfSome result (IsWayOut self.now.target.now) }
    {
        let Target::Goal(goal) = self.target else {
            return None;
        };
        match *goal {
            Goal::NotCircle { x, z, r } => Some(CostlyEstimate::OutOfDisc(Disc { x, z, r })),
            Goal::NotSquare(rectangle) => {
                Some(CostlyEstimate::OutOfTurned(TurnedRoom::new(rectangle)))
            }
            _ => None,
        }
    }

    /// What the version's tables of landmarks tell of the way to the target. None where the class has no tables, and where
    /// the target's rectangle has more cells than one.
    fn marked(&self) -> Option<Marked<'a>>
        requires { CanFind self.now.version.now self.now.class self.now.start self.now.target.now }
        ensures { IfSome result (IsMarkedFor (passes_of self.now.version.now self.now.class) self.now.version.now.map.size
            self.now.target.now) }
    {
        let tables = self.version.landmarks(self.class)?;
        let rect = self.target.bounds(self.version.size());
        let cell = only_cell(&rect)?;
        let span = tables.span_of(cell);
        Some(Marked { rect, tables, span })
    }

    /// A rectangle about the start in which the target has no cell, where it is a goal that is turned inside out.
    fn room(&self) -> Option<Rect>
        requires { CanFind self.now.version.now self.now.class self.now.start self.now.target.now }
        ensures { IfSome result (IsRoomFor self.now.target.now) }
    {
        let Target::Goal(goal) = self.target else {
            return None;
        };
        let rect = room_in(goal, self.version.size())?;
        if rect.contains(self.start) {
            Some(rect)
        } else {
            None
        }
    }

    /// The path of a walk that this search found.
    pub(crate) fn path_of(&self, found: Found) -> PathAnswer
        ensures { result ≡ path_by self.now.start self.now.target.now found }
    {
        let Found {
            end,
            cost,
            waypoints,
        } = found;
        PathAnswer {
            start: self.start,
            end,
            near: is_near(self.target),
            cost,
            waypoints,
        }
    }

    /// The runs of the class over the version, by its planes.
    pub(crate) fn runs(&self) -> PlaneRuns<'_, Version>
        ensures { result ≡ self.now.version.now }
    {
        PlaneRuns::new(self.version, self.version.planes(), self.class)
    }

    /// What the jump search is asked over these runs.
    pub(crate) fn question<'q>(
        &'q self,
        runs: &'q PlaneRuns<'q, Version>,
    ) -> Question<'q, PlaneRuns<'q, Version>, Target>
        ensures runs { result.runs.now ≡ runs.now }
        ensures class { result.class ≡ self.now.class }
        ensures start { result.start ≡ self.now.start }
        ensures aim { result.aim.now ≡ self.now.target.now }
    {
        Question {
            runs,
            class: self.class,
            start: self.start,
            aim: self.target,
        }
    }
}

/// The cell of a rectangle that has no other.
fn only_cell(rect: &Rect) -> Option<Cell>
    ensures some { IfSome result (IsOnlyCell rect.now) }
    ensures none { IfNone result ((cell : Cell) → IsOnlyCell rect.now cell → ⊥) }
{
    if rect.i0 == rect.i1 && rect.j0 == rect.j1 {
        Some(Cell::new(rect.i0, rect.j0))
    } else {
        None
    }
}

/// Whether the target is a near cell.
fn is_near(target: &Target) -> bool
    ensures { result ≡ is_near target.now }
{
    match target {
        Target::Goal(_) => false,
        Target::Near(_) => true,
    }
}
