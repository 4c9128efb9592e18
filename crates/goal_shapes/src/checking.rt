//! Whether a goal fits a map, and why not.
ghost use Rattle.std.specs.Prelude.{◌↔◌, IsTrue, IsErrOf, Some, codes};
ghost use Rattle.std.specs.Result.{OkIff};
ghost use Rattle.goal_shapes.specs.Limits.{IsWellFormedSquare, IsWellFormed, IsGoalInside, IsSoundGoal};

use crate::goals::Goal;
use fixed_point::{Rectangle, is_on_axis, is_unit_vector, is_up_to};
use nav_types::Size;
use nav_types::limits::MAX_GOAL_EXTENT;
use std::error::Error;
use std::fmt;

/// Why a goal is refused for a map.
#[derive(Clone, Copy, Debug, PartialEq, Eq)]
pub enum GoalRefusal {
    /// The radius, a half side or the unit vector is out of its limits.
    BadShape,
    /// The goal's middle does not lie on the map.
    GoalOutside,
}

impl fmt::Display for GoalRefusal {
    ghost use Rattle.goal_shapes.specs.declared.checking.GoalRefusal.{GoalRefusal};
    ghost use Rattle.goal_shapes.specs.Words.{refusal_text};

    ghost output = { λ refusal. Some (refusal_text refusal) };

    fn fmt<W: fmt::Write>(&self, f: &mut fmt::Formatter<W>) -> fmt::Result {
        match *self {
            GoalRefusal::BadShape => f.write_str("the goal's shape is out of its limits"),
            GoalRefusal::GoalOutside => f.write_str("the goal's middle lies outside the map"),
        }
    }
}

impl Error for GoalRefusal {}

/// Hands the goal back where it is sound for a map of this size (`IsSoundGoal`). `BadShape` exactly where its
/// radius or a half side is not from 0 to 4096 navcells or its unit vector is not of length 1 within its
/// limits (`IsWellFormed`), and else `GoalOutside` exactly where its middle does not lie on the map
/// (`IsGoalInside`).
pub fn check(goal: Goal, size: Size) -> Result<Goal, GoalRefusal>
    ensures sound { OkIff result (IsSoundGoal size goal) goal }
    ensures bad_shape { IsErrOf result GoalRefusal.BadShape ↔ ¬ IsWellFormed goal }
    ensures outside { IsErrOf result GoalRefusal.GoalOutside ↔ (IsWellFormed goal × ¬ IsGoalInside size goal) }
{
    if !is_well_formed(&goal) {
        return Err(GoalRefusal::BadShape);
    }
    if !is_inside(&goal, size) {
        return Err(GoalRefusal::GoalOutside);
    }
    Ok(goal)
}

/// Whether the goal's radius or sides are in their limits.
fn is_well_formed(goal: &Goal) -> bool
    ensures { IsTrue result ↔ IsWellFormed goal.now }
{
    is_well_formed_square(&goal.extent())
}

/// Whether the goal's middle lies on a map of this size.
fn is_inside(goal: &Goal, size: Size) -> bool
    ensures { IsTrue result ↔ IsGoalInside size goal.now }
{
    let extent = goal.extent();
    is_on_axis(extent.x, size.w) && is_on_axis(extent.z, size.h)
}

/// Whether a square's unit vector and half sides are in their limits.
fn is_well_formed_square(rectangle: &Rectangle) -> bool
    ensures { IsTrue result ↔ IsWellFormedSquare rectangle.now }
{
    is_unit_vector(rectangle.ux, rectangle.uz)
        && is_up_to(MAX_GOAL_EXTENT, rectangle.hw)
        && is_up_to(MAX_GOAL_EXTENT, rectangle.hh)
}
