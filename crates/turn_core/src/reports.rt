//! What a report tells of a path.
ghost use Rattle.std.specs.Prelude.{◌<◌, IfOk, length};
ghost use Rattle.goal_reach.specs.Targets.{hit_by};
ghost use Rattle.line_smooth.specs.Smoothed.{AreCorners, IsSmoothing};
ghost use Rattle.posts.specs.declared.notes.Report.TheVariants.{OpenedNumbers};
ghost use Rattle.grid_versions.specs.Versions.{passes_of};
ghost use Rattle.turn_core.specs.Notes.{IsFlowLine, IsOpenedNumber};
ghost use Rattle.turn_core.specs.inner.Searching.{CanFind, IsFoundTo, IsKeptOn, IsNotedPath, path_by};

use crate::last_fields::{LastField, field_for};
use crate::searches::{NotedPath, TargetSearch};
use grid_versions::Version;
use jump_search::{JumpSearch, Pool, Traced};
use line_smooth::smooth;
use nav_types::{Aim, Cell, Class, NoMemory, View};
use posts::{FlowLine, Note, Report};
use std::alloc::Global;
use walks::Waypoints;

/// All reports. Where a report is named by a number, as in the library, the number is its place here.
pub const REPORTS: [Report; 4] = [
    Report::Answers,
    Report::OpenedNumbers,
    Report::Flows,
    Report::Smoothed,
];

impl<'a> TargetSearch<'a> {
    /// The path of the chosen walk, by the room of the pool, and what the report tells of it. The last flow field is kept.
    pub(crate) fn noted(
        &self,
        alloc: Global,
        report: Report,
        pool: &mut Pool,
        kept: &mut Option<LastField>,
    ) -> Result<NotedPath, NoMemory>
        requires search { CanFind self.now.version.now self.now.class self.now.start self.now.target.now }
        requires kept { IsKeptOn self.now.version.now kept.old }
        ensures path { IfOk result (IsNotedPath self.now.version.now report self.now.class self.now.start self.now.target.now) }
        ensures kept { IsKeptOn self.now.version.now kept.new }
    {
        match report {
            Report::Answers => {
                let path = self.path_of(self.find(alloc, pool)?);
                Ok(NotedPath {
                    path,
                    note: Note::Nothing,
                })
            }
            Report::OpenedNumbers => self.counted(alloc, pool),
            Report::Flows => {
                let path = self.path_of(self.find(alloc, pool)?);
                let line = self.flow_line(alloc, kept)?;
                Ok(NotedPath {
                    path,
                    note: Note::Flow(line),
                })
            }
            Report::Smoothed => {
                let path = self.path_of(self.find(alloc, pool)?);
                let points = smoothed(
                    alloc,
                    self.version,
                    self.class,
                    self.start,
                    &path.waypoints,
                )?;
                Ok(NotedPath {
                    path,
                    note: Note::Smoothed(points),
                })
            }
        }
    }

    /// The path of the chosen walk, by the room of the pool, with its opened number.
    fn counted(&self, alloc: Global, pool: &mut Pool) -> Result<NotedPath, NoMemory>
        requires { CanFind self.now.version.now self.now.class self.now.start self.now.target.now }
        ensures { IfOk result (IsNotedPath self.now.version.now OpenedNumbers self.now.class self.now.start self.now.target.now) }
    {
        let Traced { found, opened } = self.trace(alloc, pool)?;
        let path = self.path_of(found);
        Ok(NotedPath {
            path,
            note: Note::Opened(opened),
        })
    }

    /// The walk of a search, by the room of the pool, and the opened number of its path.
    fn trace(&self, alloc: Global, pool: &mut Pool) -> Result<Traced, NoMemory>
        requires { CanFind self.now.version.now self.now.class self.now.start self.now.target.now }
        ensures found { IfOk result (λ traced.
            IsFoundTo self.now.version.now self.now.class self.now.start self.now.target.now traced.found) }
        ensures opened { IfOk result (λ traced. IsOpenedNumber (passes_of self.now.version.now self.now.class)
            self.now.version.now.map.size self.now.target.now (path_by self.now.start self.now.target.now traced.found)
            traced.opened) }
    {
        // The rectangle that the jump states are counted by.
        let _box = self.target.bounds(self.version.size());
        self.question(&self.runs()).trace(pool, alloc)
    }

    /// What the flow field of the target's cells in the start's area tells of the start. The field is kept.
    fn flow_line(&self, alloc: Global, kept: &mut Option<LastField>) -> Result<FlowLine, NoMemory>
        requires search { CanFind self.now.version.now self.now.class self.now.start self.now.target.now }
        requires kept { IsKeptOn self.now.version.now kept.old }
        ensures line { IfOk result (IsFlowLine (passes_of self.now.version.now self.now.class) (hit_by self.now.target.now)
            self.now.start) }
        ensures kept { IsKeptOn self.now.version.now kept.new }
    {
        let last = field_for(
            alloc,
            self.version,
            kept.take(),
            self.class,
            self.start,
            self.target,
        )?;
        let line = last.line(self.start);
        *kept = Some(last);
        Ok(line)
    }
}

/// The smoothed waypoints of corners on a version, by the plane of the class.
fn smoothed(
    alloc: Global,
    version: &Version,
    class: Class,
    start: Cell,
    corners: &Waypoints,
) -> Result<Waypoints, NoMemory>
    requires class { class < length version.now.map.classes }
    requires corners { AreCorners (passes_of version.now class) start corners.now }
    ensures { IfOk result (IsSmoothing (passes_of version.now class) start corners.now) }
{
    let view = version.class_view(class);
    smooth(alloc, &view, class, start, corners)
}
