//! Points and shapes of a match.
ghost use Rattle.std.specs.Prelude.{◌≡◌, ◌<◌, ◌≤◌, ◌+◌, ◌*◌, ◌^◌, pos};
ghost use Rattle.made_match.specs.Making.{draw_point, draw_near, draw_point_near, draw_rectangle, draw_unit, draw_square, draw_goal, draw_aim, draw};

use crate::draws::Draws;
use fixed_point::{Fixed, Rectangle};
use goal_shapes::Goal;
use obstruction_shapes::Shape;

/// The raw length of one side of a navcell.
const CELL: u32 = 65536;

/// The raw length of one side of the map.
const MAP_LENGTH: u32 = 512 * CELL;

/// The unit vectors along which rectangles lie, raw.
const UNIT_VECTORS: [(u32, u32); 4] = [(65536, 0), (46341, 46341), (56756, 32768), (32768, 56756)];

/// A point of the map by its raw coordinates, x and z.
pub(crate) type Point = (u32, u32);

/// The number of a raw length.
pub(crate) fn fixed(raw: u32) -> Fixed
    requires { raw < 2 ^ 31 }
    ensures { result ≡ pos raw }
{
    Fixed::from_raw(raw as i32)
}

/// A point of the map.
#[tactic(auto, unfolding(crate::specs::Making::draw_point))]
pub(crate) fn point(draws: &mut Draws) -> Point
    ensures value { result ≡ (draw_point draws.old).value }
    ensures state { draws.new ≡ (draw_point draws.old).state }
    ensures column { result.0 < 512 * 65536 }
    ensures row { result.1 < 512 * 65536 }
{
    let x = draws.below(MAP_LENGTH);
    let z = draws.below(MAP_LENGTH);
    (x, z)
}

/// A coordinate of the map that is at most 64 navcells from another.
#[tactic(auto, unfolding(crate::specs::Making::draw_near))]
fn near(draws: &mut Draws, coordinate: u32) -> u32
    requires { coordinate < 512 * 65536 }
    ensures value { result ≡ (draw_near coordinate draws.old).value }
    ensures state { draws.new ≡ (draw_near coordinate draws.old).state }
    ensures inside { result < 512 * 65536 }
{
    let offset = draws.below(128 * CELL);
    (coordinate + offset)
        .saturating_sub(64 * CELL)
        .min(MAP_LENGTH - 1)
}

/// A point of the map near another.
#[tactic(auto, unfolding(crate::specs::Making::draw_point_near))]
fn point_near(draws: &mut Draws, point: Point) -> Point
    requires column { point.0 < 512 * 65536 }
    requires row { point.1 < 512 * 65536 }
    ensures value { result ≡ (draw_point_near point draws.old).value }
    ensures state { draws.new ≡ (draw_point_near point draws.old).state }
    ensures column { result.0 < 512 * 65536 }
    ensures row { result.1 < 512 * 65536 }
{
    let x = near(draws, point.0);
    let z = near(draws, point.1);
    (x, z)
}

/// The point about which the goal of a path lies.
#[tactic(auto, unfolding(crate::specs::Making::draw_aim))]
pub(crate) fn aim(draws: &mut Draws, turn: u32, caller: u32, start: Point) -> Point
    requires column { start.0 < 512 * 65536 }
    requires row { start.1 < 512 * 65536 }
    ensures value { result ≡ (draw_aim turn caller start draws.old).value }
    ensures state { draws.new ≡ (draw_aim turn caller start draws.old).state }
    ensures column { result.0 < 512 * 65536 }
    ensures row { result.1 < 512 * 65536 }
{
    if caller == 0 && turn % 10 == 0 {
        point(draws)
    } else {
        point_near(draws, start)
    }
}

/// A rectangle about a point, with half sides from `least` on.
#[tactic(auto, unfolding(crate::specs::Making::draw_rectangle))]
fn rectangle(draws: &mut Draws, middle: Point, least: u32) -> Rectangle
    requires column { middle.0 < 512 * 65536 }
    requires row { middle.1 < 512 * 65536 }
    requires short { least ≤ 65536 }
    ensures value { result ≡ (draw_rectangle middle least draws.old).value }
    ensures state { draws.new ≡ (draw_rectangle middle least draws.old).state }
{
    let direction = draws.below(4);
    let along = draws.below(10 * CELL);
    let across = draws.below(10 * CELL);
    let (ux, uz) = UNIT_VECTORS[direction as usize];
    Rectangle {
        x: fixed(middle.0),
        z: fixed(middle.1),
        ux: fixed(ux),
        uz: fixed(uz),
        hw: fixed(least + along),
        hh: fixed(least + across),
    }
}

/// A square along the axes of the map.
#[tactic(auto, unfolding(crate::specs::Making::draw_unit))]
pub(crate) fn unit(draws: &mut Draws) -> Shape
    ensures value { result ≡ (draw_unit draws.old).value }
    ensures state { draws.new ≡ (draw_unit draws.old).state }
{
    let (x, z) = point(draws);
    let half = draws.below(2 * CELL);
    Shape::Unit {
        x: fixed(x),
        z: fixed(z),
        half: fixed(CELL / 2 + half),
    }
}

/// A rectangle that lies along a unit vector.
#[tactic(auto, unfolding(crate::specs::Making::draw_square))]
pub(crate) fn square(draws: &mut Draws) -> Shape
    ensures value { result ≡ (draw_square draws.old).value }
    ensures state { draws.new ≡ (draw_square draws.old).state }
{
    let middle = point(draws);
    Shape::Square(rectangle(draws, middle, CELL))
}

/// A goal of a kind about a point.
#[tactic(auto, unfolding(crate::specs::Making::draw_goal))]
pub(crate) fn goal(draws: &mut Draws, kind: u32, middle: Point) -> Goal
    requires column { middle.0 < 512 * 65536 }
    requires row { middle.1 < 512 * 65536 }
    ensures value { result ≡ (draw_goal kind middle draws.old).value }
    ensures state { draws.new ≡ (draw_goal kind middle draws.old).state }
{
    let x = fixed(middle.0);
    let z = fixed(middle.1);
    match kind {
        0 => Goal::Point { x, z },
        1 => Goal::Circle {
            x,
            z,
            r: radius(draws),
        },
        2 => Goal::NotCircle {
            x,
            z,
            r: radius(draws),
        },
        3 => Goal::Square(rectangle(draws, middle, 0)),
        _ => Goal::NotSquare(rectangle(draws, middle, 0)),
    }
}

/// The radius of a goal, below 10 navcells.
fn radius(draws: &mut Draws) -> Fixed
    ensures value { result ≡ pos (draw (10 * 65536) draws.old).value }
    ensures state { draws.new ≡ (draw (10 * 65536) draws.old).state }
{
    fixed(draws.below(10 * CELL))
}
