//! How a path would end, which a view says without a search.
ghost use Rattle.std.specs.Prelude.{◌≡◌, ◌<◌, ℕ, Some, IfNone, IfSome, IsTrue, length};
ghost use Rattle.fixed_point.specs.Plane.{IsOnAxis};
ghost use Rattle.goal_reach.specs.declared.targets.Target.{Target};
ghost use Rattle.goal_reach.specs.Targets.{AreTargets};
ghost use Rattle.goal_shapes.specs.Limits.{IsSoundGoal};
ghost use Rattle.grid_versions.specs.Passing.{passable_at};
ghost use Rattle.grid_versions.specs.Versions.{passes_of};
ghost use Rattle.posts.specs.declared.posts.Request.TheVariants.{Path as AsksPath};
ghost use Rattle.posts.specs.declared.replies.Answer.{Answer};
ghost use Rattle.turn_core.specs.NamedGoals.{class_named, goal_found, is_on_map};
ghost use Rattle.turn_core.specs.Solving.{IsAnswerAt, IsAnswerTo, IsPathFound, IsPathTo};
ghost use Rattle.pathserve_c.specs.Endings.{EndsAs, EndsSo, IsEndSaid, IsEndTold, IsNoPath, cell_told, end_to, kind_of};
ghost use Rattle.pathserve_c.specs.Handles.{IsHandle, state_of};
ghost use Rattle.pathserve_c.specs.inner.PathFields.{asks_path};

use crate::fields::path_asked;
use crate::handles::Handle;
use crate::questions::{is_on_map, start_of};
use crate::states::State;
use class_config::ClassName;
use fixed_point::Fixed;
use flat_posts::reply_kinds::{AT_GOAL, NEAR_GOAL, NOWHERE, REFUSED};
use flat_posts::{FlatCell, FlatPost};
use goal_reach::{Target, made_reachable};
use goal_shapes::{Goal, GoalSpec};
use grid_versions::Version;
use nav_types::{Cell, Class};
use posts::{PathRequest, Request};
use std::alloc::Global;
use turn_core::goal_of;

/// How a path ends.
#[derive(Clone, Copy, Debug, PartialEq, Eq)]
pub enum PathEnd {
    /// It is refused.
    Refused,
    /// No cell is passable for its class.
    Nowhere,
    /// In a cell of its goal.
    AtGoal,
    /// In this cell, the closest to its goal that can be reached.
    Near(Cell),
}

/// Says how the path of a post would end: the kind of the reply to it, and the cell where it ends near its goal. 0 for what
/// asks for no path.
#[unsafe(no_mangle)]
pub extern "C" fn pathserve_reachable(
    alloc: Global,
    view: &mut Handle,
    post: &FlatPost,
    cell: &mut FlatCell,
) -> u32
    requires handle { IsHandle view.old }
    ensures handle { IsHandle view.new }
    ensures same { state_of view.new ≡ state_of view.old }
    ensures told { IsEndTold (state_of view.old) post.now cell.old cell.new result }
{
    let Some(state) = view.take(alloc) else {
        return 0;
    };
    let said = say_end(&state, post, cell);
    view.put(state);
    said
}

/// Says how a path would end on what a handle shows; anything else than a view says nothing.
fn say_end(state: &State, post: &FlatPost, cell: &mut FlatCell) -> u32
    ensures { IsEndTold (Some state.now) post.now cell.old cell.new result }
{
    match state {
        State::View(version) => say_end_on(version, post, cell),
        State::Text(_) | State::Structs(_) | State::Finder(_) => 0,
    }
}

/// Says how a path would end on a version.
fn say_end_on(version: &Version, post: &FlatPost, cell: &mut FlatCell) -> u32
    ensures { IsEndSaid version.now post.now cell.old cell.new result }
{
    match path_end(version, post) {
        Some(end) => {
            *cell = cell_told(end, *cell);
            kind_of(end)
        }
        None => 0,
    }
}

/// The kind of the reply to a path that ends so.
fn kind_of(end: PathEnd) -> u32
    ensures { result ≡ kind_of end }
{
    match end {
        PathEnd::Refused => u32::from(REFUSED),
        PathEnd::Nowhere => u32::from(NOWHERE),
        PathEnd::AtGoal => u32::from(AT_GOAL),
        PathEnd::Near(_) => u32::from(NEAR_GOAL),
    }
}

/// The cell in which a path ends near its goal, and else what was there.
fn cell_told(end: PathEnd, old: FlatCell) -> FlatCell
    ensures { result ≡ cell_told end old }
{
    match end {
        PathEnd::Near(cell) => FlatCell::of(cell),
        PathEnd::Refused | PathEnd::Nowhere | PathEnd::AtGoal => old,
    }
}

/// How the path of a post ends. None exactly where it asks for no path.
#[tactic(auto, using(crate::proofs::PathEnds::ends_asked))]
fn path_end(version: &Version, post: &FlatPost) -> Option<PathEnd>
    ensures some { IfSome result (EndsSo version.now post.now) }
    ensures none { IfNone result (IsNoPath version.now post.now) }
{
    match path_asked(version, post) {
        Some((_, request)) => Some(end_of(version, &request)),
        None => None,
    }
}

/// How the path of a request for one ends.
#[tactic(auto, using(crate::proofs::PathEnds::region_is_no_path))]
fn end_of(version: &Version, request: &Request) -> PathEnd
    requires { IsTrue (asks_path request.now) }
    ensures { (told : Answer) → IsAnswerTo version.now.map version.now.standing request.now told → EndsAs told result }
{
    match request {
        Request::Path(request) => end_by_name(version, request),
        Request::Region(_) => unreachable!(),
    }
}

/// How the path of a request ends.
fn end_by_name(version: &Version, request: &PathRequest) -> PathEnd
    ensures { (told : Answer) → IsAnswerTo version.now.map version.now.standing (AsksPath request.now) told → EndsAs told result }
{
    let Some(class) = class_by(version, &request.class) else {
        return PathEnd::Refused;
    };
    end_by_point(version, class, request.x, request.z, &request.goal)
}

/// How a path of a class from the point (x, z) ends.
fn end_by_point(version: &Version, class: Class, x: Fixed, z: Fixed, goal: &GoalSpec) -> PathEnd
    requires { class < length version.now.map.classes }
    ensures { (told : Answer) → IsAnswerAt (Some class) (is_on_map version.now.map.size x z)
        (λ k. IsPathFound (passable_at version.now.map version.now.standing k) x z
        (goal_found version.now.map version.now.standing goal.now)) told → EndsAs told result }
{
    if is_on_map(version, x, z) {
        end_by_goal(version, class, x, z, goal)
    } else {
        PathEnd::Refused
    }
}

/// How a path of a class from a point on the map ends.
fn end_by_goal(version: &Version, class: Class, x: Fixed, z: Fixed, goal: &GoalSpec) -> PathEnd
    requires class { class < length version.now.map.classes }
    requires column { IsOnAxis version.now.map.size.w x }
    requires row { IsOnAxis version.now.map.size.h z }
    ensures { (told : Answer) → IsPathFound (passable_at version.now.map version.now.standing class) x z
        (goal_found version.now.map version.now.standing goal.now) told → EndsAs told result }
{
    match goal_of(version, goal) {
        Ok(goal) => end_at(version, class, x, z, &goal),
        Err(_) => PathEnd::Refused,
    }
}

/// The class of a name.
fn class_by(version: &Version, name: &ClassName) -> Option<Class>
    ensures found { result ≡ class_named version.now.map name.now }
    ensures below { IfSome result (λ class. class < length version.now.map.classes) }
{
    version.map().classes().find(name)
}

/// How a path of a class from a point on the map to a goal ends.
fn end_at(version: &Version, class: Class, x: Fixed, z: Fixed, goal: &Goal) -> PathEnd
    requires class { class < length version.now.map.classes }
    requires column { IsOnAxis version.now.map.size.w x }
    requires row { IsOnAxis version.now.map.size.h z }
    requires goal { IsSoundGoal version.now.map.size goal.now }
    ensures { (told : Answer) → IsPathTo (passable_at version.now.map version.now.standing class) x z goal.now told
        → EndsAs told result }
{
    match start_of(version, class, x, z) {
        Some(start) => end_from(version, class, start, goal),
        None => PathEnd::Nowhere,
    }
}

/// How a path of a class from a start cell to a goal ends.
fn end_from(version: &Version, class: Class, start: Cell, goal: &Goal) -> PathEnd
    requires class { class < length version.now.map.classes }
    requires start { IsTrue (passes_of version.now class start) }
    requires goal { IsSoundGoal version.now.map.size goal.now }
    ensures { (target : Target) × (AreTargets (passes_of version.now class) start goal.now target × (result ≡ end_to target)) }
{
    match made_reachable(version, class, start, goal) {
        Target::Goal(_) => PathEnd::AtGoal,
        Target::Near(cell) => PathEnd::Near(cell),
    }
}
