//! A goal about an obstruction, some distance away from it.
ghost use Rattle.std.specs.Prelude.{◌≡◌, ◌+ℤ◌, Some, codes};
ghost use Rattle.std.specs.Result.{OkIff};
ghost use Rattle.nav_types.specs.declared.limits.TheConstants.{MAX_GROWTH, MAX_HALF_SIDE};
ghost use Rattle.fixed_point.specs.Plane.{IsUpTo};
ghost use Rattle.goal_shapes.specs.Limits.{grown};

use crate::goals::Goal;
use fixed_point::{Fixed, Rectangle, is_up_to};
use nav_types::limits::MAX_GROWTH;
use std::error::Error;
use std::fmt;

/// The distance about an obstruction is out of its limits.
#[derive(Clone, Copy, Debug, PartialEq, Eq)]
pub struct BadShape;

impl fmt::Display for BadShape {
    ghost output = { λ _. Some (codes "the distance about an obstruction is out of its limits") };

    fn fmt<W: fmt::Write>(&self, f: &mut fmt::Formatter<W>) -> fmt::Result {
        f.write_str("the distance about an obstruction is out of its limits")
    }
}

impl Error for BadShape {}

/// The square goal about an obstruction: each half side longer by the distance `grow` (`grown`). `BadShape` exactly
/// where the distance is not from 0 to 3840 navcells.
///
/// The obstruction's half sides are from 0 to 256 navcells, as those of each shape that fits a map. So
/// the goal's are in their limits.
pub fn grown(rectangle: Rectangle, grow: Fixed) -> Result<Goal, BadShape>
    requires width { IsUpTo MAX_HALF_SIDE rectangle.hw }
    requires height { IsUpTo MAX_HALF_SIDE rectangle.hh }
    ensures { OkIff result (IsUpTo MAX_GROWTH grow) (Goal.Square (grown rectangle grow)) }
{
    if !is_up_to(MAX_GROWTH, grow) {
        return Err(BadShape);
    }
    Ok(Goal::Square(Rectangle {
        hw: longer(rectangle.hw, grow),
        hh: longer(rectangle.hh, grow),
        ..rectangle
    }))
}

/// A half side of an obstruction that is longer by a distance.
fn longer(half: Fixed, grow: Fixed) -> Fixed
    requires half { IsUpTo MAX_HALF_SIDE half }
    requires grow { IsUpTo MAX_GROWTH grow }
    ensures { result ≡ half +ℤ grow }
{
    Fixed::from_raw(half.raw() + grow.raw())
}
