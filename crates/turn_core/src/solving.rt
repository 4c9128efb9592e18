//! The answers to requests on a version.
ghost use Rattle.std.specs.Prelude.{◌≡◌, ◌<◌, ℤ, IfErr, IfNone, IfOk, IfSome, length};
ghost use Rattle.fixed_point.specs.Plane.{IsOnAxis};
ghost use Rattle.nav_types.specs.Cells.{IsInside};
ghost use Rattle.goal_shapes.specs.Goals.{HoldsPoint};
ghost use Rattle.goal_shapes.specs.Limits.{IsSoundGoal};
ghost use Rattle.posts.specs.declared.notes.Note.{Note};
ghost use Rattle.posts.specs.declared.notes.Report.TheVariants.{Flows};
ghost use Rattle.grid_versions.specs.Passing.{passable_at};
ghost use Rattle.grid_versions.specs.Versions.{passes_of};
ghost use Rattle.turn_core.specs.Solving.{IsPathTo, IsPathAsked, IsRegionAnswer, IsRegionAsked};
ghost use Rattle.goal_reach.specs.Starts.{IsStartCell};
ghost use Rattle.turn_core.specs.Solving.{IsAnswerTo, IsImpassable};
ghost use Rattle.turn_core.specs.Notes.{IsNoteBy, IsNoteTo, IsNote, IsNotedTo, IsPathNote, flow_in};
ghost use Rattle.turn_core.specs.inner.Asked.{IsAskedAt, IsRefusedAt};
ghost use Rattle.turn_core.specs.inner.Searching.{CanFind, IsNotedPath};

use crate::last_fields::LastField;
use crate::named_goals::goal_of;
use crate::searches::{NotedPath, TargetSearch};
use class_config::ClassName;
use fixed_point::Fixed;
use goal_reach::{Target, made_reachable, nearest_passable};
use goal_shapes::{Goal, cell_of_point};
use grid_versions::{Refusal, Version};
use jump_search::Pool;
use nav_types::{Areas, Cell, Class, NoMemory};
use posts::{
    Answer, FlowLine, Note, Noted, PathRequest, RegionAnswer, RegionQuery, Report, Request,
};
use std::alloc::Global;
use std::marker::Model;

/// The answer to a request on a version (`IsAnswerTo`). It refuses for want of memory alone.
///
/// A path is refused `UnknownClass` exactly where the map has no class of the name, else `StartOutside` exactly where
/// its point does not lie on the map, else as its goal is (`goal_of`). Else the answer is `Nowhere` exactly where no
/// cell is passable for the class, and a path where one is. A region query is refused by the first two alone.
pub fn solve(alloc: Global, version: &Version, request: &Request) -> Result<Answer, NoMemory>
    ensures { IfOk result (λ answer. IsAnswerTo version.now.map version.now.standing request.now answer) }
{
    let noted = solve_noted(alloc, version, request, Report::Answers)?;
    Ok(noted.answer)
}

/// The answer that [`solve`] gives, with what the report tells of it (`IsNotedTo`). It refuses for want of memory alone.
///
/// A [`Solver`] does the same for the requests of a turn, and keeps what the next of them can use.
pub fn solve_noted(
    alloc: Global,
    version: &Version,
    request: &Request,
    report: Report,
) -> Result<Noted, NoMemory>
    ensures { IfOk result (IsNotedTo version.now.map version.now.standing report request.now) }
{
    let mut solver = Solver::new(alloc, version, report)?;
    solver.solve(alloc, request)
}

/// What the flow field of a path tells of it (`IsFlowLine`), and None exactly where the answer is not a path. It refuses
/// for want of memory alone.
pub fn flow_of(
    alloc: Global,
    version: &Version,
    request: &Request,
) -> Result<Option<FlowLine>, NoMemory>
    ensures { IfOk result (λ flow. (note : Note)
        × (IsNote version.now.map version.now.standing Flows request.now note × (flow ≡ flow_in note))) }
{
    let noted = solve_noted(alloc, version, request, Report::Flows)?;
    Ok(flow_in(&noted.note))
}

/// What a note tells of a flow field, if anything.
fn flow_in(note: &Note) -> Option<FlowLine>
    ensures { result ≡ flow_in note.now }
{
    match note {
        Note::Flow(line) => Some(*line),
        _ => None,
    }
}

/// Answers the requests of a turn, one after another, with what a report tells of each. Contracts see the version's map
/// with what stands on it, and the report (`SolverState`).
///
/// It keeps the last flow field, so that requests of one class for one goal in one area share it, and the room of its
/// searches, so that a search takes no memory that an earlier one had.
#[derive(Drop)]
pub struct Solver<'a> {
    version: &'a Version,
    report: Report,
    kept: Option<LastField>,
    pool: Pool,
}

impl<'a> Model for Solver<'a> {
    ghost use Rattle.grid_versions.specs.contracts.versions.Version.{the_row as version_row};
    ghost use Rattle.posts.specs.contracts.notes.Report.{the_row as report_row};
    ghost use Rattle.turn_core.specs.Solvers.{SolverState};
    ghost use Rattle.turn_core.specs.inner.Codes.{solver_code};
    ghost use Rattle.turn_core.specs.inner.Searching.{IsKeptOn};

    ghost Value = { SolverState };

    ghost coded = { solver_code version_row.coded report_row.coded };

    ghost view = { λ s. record { state = s.version.now; report = s.report } };

    ghost invariant = { λ s. IsKeptOn s.version.now s.kept };
}

impl<'a> Solver<'a> {
    /// One who answers requests on a version, with what the report tells beside the answers. It refuses for want of memory
    /// alone.
    pub fn new(alloc: Global, version: &'a Version, report: Report) -> Result<Solver<'a>, NoMemory>
        ensures { IfOk result (λ solver. solver ≡ record { state = version.now; report = report }) }
    {
        Ok(Solver::in_pool(version, report, Pool::new(alloc)?))
    }

    /// The same, whose searches are in a pool that others have searched in. It takes no memory.
    pub fn in_pool(version: &'a Version, report: Report, pool: Pool) -> Solver<'a>
        ensures { result ≡ record { state = version.now; report = report } }
    {
        Solver {
            version,
            report,
            kept: None,
            pool,
        }
    }

    /// The pool of its searches, for the next who answers.
    pub fn into_pool(self) -> Pool {
        self.pool
    }

    /// The answer to a request with what the report tells of it (`IsNotedTo`). It refuses for want of memory alone, and can
    /// be asked again.
    pub fn solve(&mut self, alloc: Global, request: &Request) -> Result<Noted, NoMemory>
        ensures noted { IfOk result (IsNotedTo self.old.state.map self.old.state.standing self.old.report request.now) }
        ensures same { self.new ≡ self.old }
    {
        match request {
            Request::Path(request) => self.path_asked(alloc, request),
            Request::Region(query) => Ok(Noted {
                answer: region_asked(self.version, query),
                note: Note::Nothing,
            }),
        }
    }

    /// The answer to a request for a path.
    fn path_asked(&mut self, alloc: Global, request: &PathRequest) -> Result<Noted, NoMemory>
        ensures answer { IfOk result (λ noted. IsPathAsked self.old.state.map self.old.state.standing request.now
            noted.answer) }
        ensures note { IfOk result (λ noted. IsNoteBy (IsPathNote self.old.state.map self.old.state.standing self.old.report
            request.now) noted.answer noted.note) }
        ensures same { self.new ≡ self.old }
    {
        match asked_at(self.version, &request.class, request.x, request.z) {
            Ok(asked) => match goal_of(self.version, &request.goal) {
                Ok(goal) => self.path_to(alloc, asked.class, request.x, request.z, &goal),
                Err(refusal) => Ok(Noted {
                    answer: Answer::Refused(refusal),
                    note: Note::Nothing,
                }),
            },
            Err(refusal) => Ok(Noted {
                answer: Answer::Refused(refusal),
                note: Note::Nothing,
            }),
        }
    }

    /// The answer to a path of a class from a point on the map to a goal.
    fn path_to(
        &mut self,
        alloc: Global,
        class: Class,
        x: Fixed,
        z: Fixed,
        goal: &Goal,
    ) -> Result<Noted, NoMemory>
        requires class { class < length self.old.state.map.classes }
        requires column { IsOnAxis self.old.state.map.size.w x }
        requires row { IsOnAxis self.old.state.map.size.h z }
        requires goal { IsSoundGoal self.old.state.map.size goal.now }
        ensures answer { IfOk result (λ noted. IsPathTo (passable_at self.old.state.map self.old.state.standing class) x z
            goal.now noted.answer) }
        ensures note { IfOk result (λ noted. IsNoteBy (IsNoteTo self.old.report
            (passable_at self.old.state.map self.old.state.standing class) self.old.state.map.size goal.now)
            noted.answer noted.note) }
        ensures same { self.new ≡ self.old }
    {
        let Some(start) = start_cell(self.version, class, x, z) else {
            return Ok(Noted {
                answer: Answer::Nowhere,
                note: Note::Nothing,
            });
        };
        let target = made_reachable(self.version, class, start, goal);
        let NotedPath { path, note } = self.path_from(alloc, class, start, &target)?;
        Ok(Noted {
            answer: Answer::Path(path),
            note,
        })
    }

    /// The path of a class from a start cell to a target, and what the report tells of it.
    fn path_from(
        &mut self,
        alloc: Global,
        class: Class,
        start: Cell,
        target: &Target,
    ) -> Result<NotedPath, NoMemory>
        requires { CanFind self.old.state class start target.now }
        ensures path { IfOk result (IsNotedPath self.old.state self.old.report class start target.now) }
        ensures same { self.new ≡ self.old }
    {
        let search = TargetSearch {
            version: self.version,
            class,
            start,
            target,
        };
        search.noted(alloc, self.report, &mut self.pool, &mut self.kept)
    }
}

/// The start cell of a point on the map. None exactly where no cell is passable for the class, which the version tells
/// without a search.
pub(crate) fn start_cell(version: &Version, class: Class, x: Fixed, z: Fixed) -> Option<Cell>
    requires class { class < length version.now.map.classes }
    requires column { IsOnAxis version.now.map.size.w x }
    requires row { IsOnAxis version.now.map.size.h z }
    ensures start { IfSome result (IsStartCell (passes_of version.now class) x z) }
    ensures none { IfNone result (IsImpassable (passes_of version.now class)) }
{
    if !version.has_passable(class) {
        return None;
    }
    nearest_passable(version, class, x, z)
}

/// The class that a request names, and the cell in which its point lies.
#[derive(Clone, Copy)]
pub(crate) struct Asked {
    pub class: Class,
    pub cell: Cell,
}

/// The class of a name, and the cell that holds the point (`x`, `z`); or why what is asked of them is refused.
pub(crate) fn asked_at(
    version: &Version,
    name: &ClassName,
    x: Fixed,
    z: Fixed,
) -> Result<Asked, Refusal>
    ensures asked { IfOk result (λ asked. IsAskedAt version.now.map name.now x z asked.class asked.cell) }
    ensures refused { IfErr result (IsRefusedAt version.now.map name.now x z) }
{
    let Some(class) = version.map().classes().find(name) else {
        return Err(Refusal::UnknownClass);
    };
    let Some(cell) = cell_of_point(x, z, version.map().size()) else {
        return Err(Refusal::StartOutside);
    };
    Ok(Asked { class, cell })
}

/// The answer to a region query.
pub(crate) fn region_asked(version: &Version, query: &RegionQuery) -> Answer
    ensures { IsRegionAsked version.now.map version.now.standing query.now result }
{
    match asked_at(version, &query.class, query.x, query.z) {
        Ok(asked) => Answer::Region(region_at(version, asked.class, asked.cell)),
        Err(refusal) => Answer::Refused(refusal),
    }
}

/// The chunk, the region and the area of a cell for a class.
fn region_at(version: &Version, class: Class, cell: Cell) -> RegionAnswer
    requires class { class < length version.now.map.classes }
    requires inside { IsInside version.now.map.size cell }
    ensures { (x : ℤ) (z : ℤ) → HoldsPoint x z cell
        → IsRegionAnswer (passable_at version.now.map version.now.standing class) x z result }
{
    let chunk = cell.chunk();
    RegionAnswer {
        ci: chunk.ci,
        cj: chunk.cj,
        region: version.region(class, cell).region,
        area: version.area(class, cell),
    }
}
