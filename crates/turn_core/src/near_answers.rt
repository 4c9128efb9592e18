//! Answers to requests within a greatest cost.
ghost use Rattle.std.specs.Prelude.{◌<◌, IfOk, length};
ghost use Rattle.fixed_point.specs.Plane.{IsOnAxis};
ghost use Rattle.goal_shapes.specs.Limits.{IsSoundGoal};
ghost use Rattle.grid_versions.specs.Passing.{passable_at};
ghost use Rattle.grid_versions.specs.Versions.{passes_of};
ghost use Rattle.turn_core.specs.Solving.{IsAnswerTo, IsPathAsked, IsPathTo};
ghost use Rattle.turn_core.specs.Within.{IsAnswerWithin};
ghost use Rattle.turn_core.specs.inner.Searching.{CanFind};
ghost use Rattle.turn_core.specs.inner.Wanted.{IsFoundWithin, IsWalkedWithin, IsWanted};

use crate::named_goals::goal_of;
use crate::searches::TargetSearch;
use crate::solving::{asked_at, region_asked, start_cell};
use fixed_point::Fixed;
use goal_reach::{Target, made_reachable};
use goal_shapes::Goal;
use grid_versions::Version;
use jump_search::{Guided, JumpSearch, Pool};
use nav_types::{Cell, Class, NoMemory};
use posts::{Answer, PathRequest, Request};
use std::alloc::Global;
use walks::Found;

/// A walk of a class from a start cell to a target.
#[derive(Drop)]
pub(crate) struct Walk {
    pub class: Class,
    pub start: Cell,
    pub target: Target,
}

/// What a request wants: an answer that no search makes, or a walk.
#[derive(Drop)]
pub(crate) enum Wanted {
    Known(Answer),
    Walked(Walk),
}

/// The answer to a request on a version that costs at most `most`, by the room of a pool (`IsAnswerWithin`): *too far*, which
/// is None, exactly where the answer of [`crate::solve`] is a path that costs more, and else that answer. It refuses for want
/// of memory alone, and can be asked again.
///
/// Its search opens no jump state whose cost and estimate are together more than `most`. That the goal is made reachable comes
/// before, and is not bounded by `most`.
pub fn solve_within(
    alloc: Global,
    version: &Version,
    pool: &mut Pool,
    request: &Request,
    most: u64,
) -> Result<Option<Answer>, NoMemory>
    ensures { IfOk result (IsAnswerWithin version.now.map version.now.standing request.now most) }
{
    match want_of(version, request) {
        Wanted::Known(answer) => Ok(Some(answer)),
        Wanted::Walked(walk) => walked_within(alloc, version, pool, &walk, most),
    }
}

/// What a request on a version wants.
fn want_of(version: &Version, request: &Request) -> Wanted
    ensures { IsWanted version.now (IsAnswerTo version.now.map version.now.standing request.now) result }
{
    match request {
        Request::Path(request) => want_of_path(version, request),
        Request::Region(query) => Wanted::Known(region_asked(version, query)),
    }
}

/// What a request for a path wants.
fn want_of_path(version: &Version, request: &PathRequest) -> Wanted
    ensures { IsWanted version.now (IsPathAsked version.now.map version.now.standing request.now) result }
{
    match asked_at(version, &request.class, request.x, request.z) {
        Ok(asked) => match goal_of(version, &request.goal) {
            Ok(goal) => walk_to(version, asked.class, request.x, request.z, &goal),
            Err(refusal) => Wanted::Known(Answer::Refused(refusal)),
        },
        Err(refusal) => Wanted::Known(Answer::Refused(refusal)),
    }
}

/// The walk of a class from a point on the map to a goal; nowhere where no cell is passable.
fn walk_to(version: &Version, class: Class, x: Fixed, z: Fixed, goal: &Goal) -> Wanted
    requires class { class < length version.now.map.classes }
    requires column { IsOnAxis version.now.map.size.w x }
    requires row { IsOnAxis version.now.map.size.h z }
    requires goal { IsSoundGoal version.now.map.size goal.now }
    ensures { IsWanted version.now (IsPathTo (passes_of version.now class) x z goal.now) result }
{
    let Some(start) = start_cell(version, class, x, z) else {
        return Wanted::Known(Answer::Nowhere);
    };
    let target = made_reachable(version, class, start, goal);
    Wanted::Walked(Walk {
        class,
        start,
        target,
    })
}

/// The path of a walk within the greatest cost.
fn walked_within(
    alloc: Global,
    version: &Version,
    pool: &mut Pool,
    walk: &Walk,
    most: u64,
) -> Result<Option<Answer>, NoMemory>
    requires { CanFind version.now walk.now.class walk.now.start walk.now.target }
    ensures { IfOk result (IsWalkedWithin version.now walk.now most) }
{
    let search = TargetSearch {
        version,
        class: walk.class,
        start: walk.start,
        target: &walk.target,
    };
    let Some(found) = search.find_within(alloc, pool, most)? else {
        return Ok(None);
    };
    Ok(Some(Answer::Path(search.path_of(found))))
}

impl<'a> TargetSearch<'a> {
    /// The chosen walk within the greatest cost, by the room of the pool. What the search has opened is noted in the version.
    fn find_within(
        &self,
        alloc: Global,
        pool: &mut Pool,
        most: u64,
    ) -> Result<Option<Found>, NoMemory>
        requires { CanFind self.now.version.now self.now.class self.now.start self.now.target.now }
        ensures { IfOk result (IsFoundWithin self.now.version.now self.now.class self.now.start self.now.target.now most) }
    {
        let found = self.found_within(alloc, pool, most)?;
        self.version
            .note_search(self.class, self.start, pool.opened());
        Ok(found)
    }

    /// The chosen walk within the greatest cost, by what the search knows of the way.
    fn found_within(
        &self,
        alloc: Global,
        pool: &mut Pool,
        most: u64,
    ) -> Result<Option<Found>, NoMemory>
        requires { CanFind self.now.version.now self.now.class self.now.start self.now.target.now }
        ensures { IfOk result (IsFoundWithin self.now.version.now self.now.class self.now.start self.now.target.now most) }
    {
        let runs = self.runs();
        let question = self.question(&runs);
        match self.ahead() {
            Some(way) => {
                let ahead = &way;
                Guided { question, ahead }.find_within(pool, alloc, most)
            }
            None => question.find_within(pool, alloc, most),
        }
    }
}
