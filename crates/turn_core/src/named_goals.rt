//! What a request names on a version: a point of the map, and its goal.
ghost use Rattle.std.specs.Prelude.{◌≡◌, IfOk};
ghost use Rattle.nav_types.specs.declared.limits.TheConstants.{MAX_GROWTH, MAX_HALF_SIDE};
ghost use Rattle.obstruction_shapes.specs.Shapes.{turned_of};
ghost use Rattle.fixed_point.specs.Plane.{IsUpTo, is_up_to};
ghost use Rattle.goal_shapes.specs.declared.goals.Goal.TheVariants.{Square};
ghost use Rattle.goal_shapes.specs.Limits.{IsSoundGoal, grown};
ghost use Rattle.turn_core.specs.NamedGoals.{plain_goal, goal_found};

use fixed_point::Fixed;
use goal_shapes::{BadShape, Goal, GoalRefusal, GoalSpec, check, grown, grown_goals_are_sound};
use grid_versions::{Refusal, Version};
use nav_types::Size;
use nav_types::limits::MAX_GROWTH;
use obstruction_shapes::Shape;

/// The goal that a request names on a version (`goal_found`). It takes no memory.
///
/// A plain goal is itself. It is refused `BadShape` exactly where its radius, a half side or its unit vector is
/// out of its limits, else `GoalOutside` exactly where its middle does not lie on the map. A goal by obstruction is
/// the square of the obstruction that stands under the number, each half side longer by the distance. It is refused
/// `BadShape` exactly where the distance is not from 0 to 3840 navcells, else `UnknownId` exactly where no obstruction
/// stands under the number.
pub fn goal_of(version: &Version, spec: &GoalSpec) -> Result<Goal, Refusal>
    ensures found { result ≡ goal_found version.now.map version.now.standing spec.now }
    ensures sound { IfOk result (IsSoundGoal version.now.map.size) }
{
    match *spec {
        GoalSpec::Plain(goal) => plain_goal(goal, version.map().size()),
        GoalSpec::Obstruction { id, grow } => goal_about(version, id, grow),
    }
}

/// A plain goal on a map of this size.
fn plain_goal(goal: Goal, size: Size) -> Result<Goal, Refusal>
    ensures found { result ≡ plain_goal size goal }
    ensures sound { IfOk result (IsSoundGoal size) }
{
    match check(goal, size) {
        Ok(goal) => Ok(goal),
        Err(GoalRefusal::BadShape) => Err(Refusal::BadShape),
        Err(GoalRefusal::GoalOutside) => Err(Refusal::GoalOutside),
    }
}

/// The goal about the obstruction of a number, by a distance.
fn goal_about(version: &Version, id: u32, grow: Fixed) -> Result<Goal, Refusal>
    ensures found { result ≡ goal_found version.now.map version.now.standing (GoalSpec.Obstruction id grow) }
    ensures sound { IfOk result (IsSoundGoal version.now.map.size) }
{
    if !is_growth(grow) {
        return Err(Refusal::BadShape);
    }
    let Some(obstruction) = version.shapes().get(id) else {
        return Err(Refusal::UnknownId);
    };
    grown_goals_are_sound();
    Ok(square_about(obstruction.shape, grow))
}

/// Whether a distance about an obstruction is from 0 to 3840 navcells.
fn is_growth(grow: Fixed) -> bool
    ensures { result ≡ is_up_to MAX_GROWTH grow }
{
    grow.raw() >= 0 && grow.raw() <= 65536 * i32::from(MAX_GROWTH)
}

/// The square of a shape, each half side longer by a distance from 0 to 3840 navcells.
fn square_about(shape: Shape, grow: Fixed) -> Goal
    requires width { IsUpTo MAX_HALF_SIDE (turned_of shape).hw }
    requires height { IsUpTo MAX_HALF_SIDE (turned_of shape).hh }
    requires grow { IsUpTo MAX_GROWTH grow }
    ensures { result ≡ Square (grown (turned_of shape) grow) }
{
    match grown(shape.turned(), grow) {
        Ok(goal) => goal,
        Err(BadShape) => unreachable!(),
    }
}
