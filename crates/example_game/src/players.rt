//! What the players post in the two turns.
ghost use Rattle.std.specs.Prelude.{◌≡◌, length};

use crate::maps::{Classes, PLAYERS};
use class_config::ClassName;
use fixed_point::{Fixed, Rectangle};
use goal_shapes::{Goal, GoalSpec};
use nav_types::NoMemory;
use obstruction_shapes::{Obstruction, Shape};
use posts::{Edit, PathRequest, Post, Posts, RegionQuery, Request, push_post};

/// The number of the wall among the standing obstructions.
const WALL: u32 = 1;

/// So many halves of a navcell: 13 is 6.5.
fn halves(count: i16) -> Fixed {
    Fixed::from_raw(i32::from(count) * 32768)
}

/// A wall for both classes, 1 navcell wide and 4 long, with its middle at (6, 3).
fn wall() -> Edit {
    let rectangle = Rectangle {
        x: halves(12),
        z: halves(6),
        ux: halves(2),
        uz: halves(0),
        hw: halves(1),
        hh: halves(4),
    };
    Edit::Add {
        id: WALL,
        obstruction: Obstruction {
            shape: Shape::Square(rectangle),
            mask: 0b11,
        },
    }
}

/// A path of infantry from the south-west to within one navcell of the wall.
fn to_the_wall(class: ClassName) -> Post {
    Post::Ask(Request::Path(PathRequest {
        class,
        x: halves(3),
        z: halves(3),
        goal: GoalSpec::Obstruction {
            id: WALL,
            grow: halves(2),
        },
    }))
}

/// A path of a siege engine from the east to a circle in the west.
fn westwards(class: ClassName) -> Post {
    Post::Ask(Request::Path(PathRequest {
        class,
        x: halves(21),
        z: halves(7),
        goal: GoalSpec::Plain(Goal::Circle {
            x: halves(3),
            z: halves(7),
            r: halves(2),
        }),
    }))
}

/// Turn 1: one player builds a wall and sends infantry to it; the other asks for a path and for the region of a place.
pub fn post_first(lists: &mut Vec<Posts>, classes: &Classes) -> Result<(), NoMemory>
    requires { length lists.old.items ≡ PLAYERS }
{
    push_post(lists, 0, Post::Edit(wall()))?;
    push_post(lists, 0, to_the_wall(classes.infantry))?;
    push_post(lists, 1, westwards(classes.siege))?;
    push_post(
        lists,
        1,
        Post::Ask(Request::Region(RegionQuery {
            class: classes.siege,
            x: halves(13),
            z: halves(7),
        })),
    )
}

/// Turn 2: the wall is moved to the south, an obstruction that does not stand is removed, which is refused, and the
/// siege engine asks once more.
pub fn post_second(lists: &mut Vec<Posts>, classes: &Classes) -> Result<(), NoMemory>
    requires { length lists.old.items ≡ PLAYERS }
{
    let southwards = Edit::Move {
        id: WALL,
        x: halves(12),
        z: halves(2),
    };
    push_post(lists, 0, Post::Edit(southwards))?;
    push_post(lists, 0, Post::Edit(Edit::Remove { id: 2 }))?;
    push_post(lists, 1, westwards(classes.siege))
}
