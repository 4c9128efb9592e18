//! How remote a cell is at least that lies outside a goal's box.
ghost use Rattle.std.specs.Prelude.{◌≡◌, ◌≤◌, ◌+◌, ◌*◌, ◌^◌};
ghost use Rattle.nav_types.specs.declared.limits.TheConstants.{MAX_SIDE};
ghost use Rattle.fixed_point.specs.Plane.{square, IsUnitVector};
ghost use Rattle.goal_shapes.specs.Goals.{squared_length};
ghost use Rattle.goal_shapes.specs.Limits.{IsWellFormed};
ghost use Rattle.goal_reach.specs.inner.Remote.{IsLeastBeyond};

use fixed_point::{Fixed, magnitude, squared};
use goal_shapes::Goal;

/// A remoteness that no cell is below which lies beyond the goal's box and so many rings round it. It is 0 where a goal is
/// turned inside out, since the whole map is the box then.
#[tactic(auto, unfolding(goal_shapes::specs::Goals::remoteness))]
pub(crate) fn least_remoteness(goal: &Goal, rings: u16) -> u128
    requires goal { IsWellFormed goal.now }
    requires rings { rings ≤ MAX_SIDE }
    ensures { IsLeastBeyond goal.now rings result }
{
    match *goal {
        Goal::Point { .. } => squared(65536 * (u64::from(rings) + 1)),
        // The middle of a cell beyond is further than the radius and half a navcell from the circle's, along an axis.
        Goal::Circle { r, .. } => squared(magnitude(r) + width(rings)),
        Goal::Square(rectangle) => squared_past(rectangle.ux, rectangle.uz, width(rings)),
        _ => 0,
    }
}

/// Half a navcell and so many rings, as a raw number.
fn width(rings: u16) -> u64
    requires { rings ≤ MAX_SIDE }
    ensures value { result ≡ 65536 * rings + 32768 }
    ensures bounded { result ≤ 2 ^ 28 }
{
    65536 * u64::from(rings) + 32768
}

/// The square of a length, times the squared length of a unit vector.
fn squared_past(ux: Fixed, uz: Fixed, length: u64) -> u128
    requires unit_vector { IsUnitVector ux uz }
    requires length { length ≤ 2 ^ 28 }
    ensures { result ≡ squared_length ux uz * square length }
{
    (squared(magnitude(ux)) + squared(magnitude(uz))) * squared(length)
}
