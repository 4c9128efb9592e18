//! Goals in flat posts.
ghost use Rattle.std.specs.Prelude.{◌≡◌};
ghost use Rattle.flat_posts.specs.Posts as form;
ghost use Rattle.flat_posts.specs.inner.Reading as reading;

use crate::edits::rectangle_at;
use crate::goal_kinds::{CIRCLE, NOT_CIRCLE, NOT_SQUARE, OBSTRUCTION, POINT, SQUARE};
use crate::posted::FlatPost;
use fixed_point::{Fixed, Rectangle};
use goal_shapes::{Goal, GoalSpec};

/// The flat post with a goal.
pub fn with_goal(flat: FlatPost, goal: &GoalSpec) -> FlatPost
    ensures { result ≡ form.with_goal flat goal.now }
{
    match *goal {
        GoalSpec::Plain(goal) => with_plain_goal(flat, goal),
        GoalSpec::Obstruction { id, grow } => FlatPost {
            goal: OBSTRUCTION,
            id,
            radius: grow.raw(),
            ..flat
        },
    }
}

/// The flat post with a plain goal.
fn with_plain_goal(flat: FlatPost, goal: Goal) -> FlatPost
    ensures { result ≡ form.with_plain_goal flat goal }
{
    match goal {
        Goal::Point { x, z } => FlatPost {
            goal: POINT,
            goal_x: x.raw(),
            goal_z: z.raw(),
            ..flat
        },
        Goal::Circle { x, z, r } => with_circle(flat, CIRCLE, x, z, r),
        Goal::NotCircle { x, z, r } => with_circle(flat, NOT_CIRCLE, x, z, r),
        Goal::Square(rectangle) => with_rectangle(flat, SQUARE, rectangle),
        Goal::NotSquare(rectangle) => with_rectangle(flat, NOT_SQUARE, rectangle),
    }
}

/// The flat post with a goal of this kind that has a middle and a radius.
fn with_circle(flat: FlatPost, goal: u8, x: Fixed, z: Fixed, r: Fixed) -> FlatPost
    ensures { result ≡ record flat { goal = goal; goal_x = x; goal_z = z; radius = r } }
{
    FlatPost {
        goal,
        goal_x: x.raw(),
        goal_z: z.raw(),
        radius: r.raw(),
        ..flat
    }
}

/// The flat post with a goal of this kind that is a rectangle.
fn with_rectangle(flat: FlatPost, goal: u8, rectangle: Rectangle) -> FlatPost
    ensures { result ≡ record flat {
      goal = goal;
      goal_x = rectangle.x;
      goal_z = rectangle.z;
      ux = rectangle.ux;
      uz = rectangle.uz;
      hw = rectangle.hw;
      hh = rectangle.hh;
    } }
{
    FlatPost {
        goal,
        goal_x: rectangle.x.raw(),
        goal_z: rectangle.z.raw(),
        ux: rectangle.ux.raw(),
        uz: rectangle.uz.raw(),
        hw: rectangle.hw.raw(),
        hh: rectangle.hh.raw(),
        ..flat
    }
}

/// The goal that a flat post has by its kind of goals.
pub fn goal_of(flat: &FlatPost) -> Option<GoalSpec>
    ensures { result ≡ reading.goal_in flat.now }
{
    let x = Fixed::from_raw(flat.goal_x);
    let z = Fixed::from_raw(flat.goal_z);
    let r = Fixed::from_raw(flat.radius);
    match flat.goal {
        POINT => Some(GoalSpec::Plain(Goal::Point { x, z })),
        CIRCLE => Some(GoalSpec::Plain(Goal::Circle { x, z, r })),
        NOT_CIRCLE => Some(GoalSpec::Plain(Goal::NotCircle { x, z, r })),
        SQUARE => Some(GoalSpec::Plain(Goal::Square(rectangle_at(flat, x, z)))),
        NOT_SQUARE => Some(GoalSpec::Plain(Goal::NotSquare(rectangle_at(flat, x, z)))),
        OBSTRUCTION => Some(GoalSpec::Obstruction {
            id: flat.id,
            grow: r,
        }),
        _ => None,
    }
}
