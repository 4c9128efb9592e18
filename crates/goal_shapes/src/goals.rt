//! The kinds of goals.
ghost use Rattle.std.specs.Prelude.{◌≡◌, ◌↔◌, IsTrue};
ghost use Rattle.goal_shapes.specs.Limits.{extent, upright};

use fixed_point::{Fixed, Rectangle};

/// A goal: the set of navcells that a path may end in. Lengths and coordinates are in navcells.
#[derive(Clone, Copy, Debug, PartialEq, Eq)]
pub enum Goal {
    /// The cell that holds the point (`x`, `z`).
    Point { x: Fixed, z: Fixed },
    /// The cells that a disc with its middle at (`x`, `z`) and the radius `r` touches.
    Circle { x: Fixed, z: Fixed, r: Fixed },
    /// The cells with a corner that is not nearer than `r` to the point (`x`, `z`): a circle turned
    /// inside out.
    NotCircle { x: Fixed, z: Fixed, r: Fixed },
    /// The cells that a rectangle along a unit vector touches.
    Square(Rectangle),
    /// The cells with a corner that does not lie within such a rectangle: a square turned inside out.
    NotSquare(Rectangle),
}

/// A goal as a request names it: a plain one, or the cells about an obstruction.
#[derive(Clone, Copy, Debug, PartialEq, Eq)]
pub enum GoalSpec {
    /// The goal itself.
    Plain(Goal),
    /// The square of the obstruction with the number `id`, each half side longer by `grow`.
    Obstruction { id: u32, grow: Fixed },
}

impl Goal {
    /// The rectangle about the goal's shape (`extent`), whose middle is the goal's: that of a point has no sides, and that
    /// of a circle lies along the axes of the map.
    pub fn extent(&self) -> Rectangle
        ensures { result ≡ extent self.now }
    {
        match *self {
            Goal::Point { x, z } => upright(x, z, Fixed::from_raw(0)),
            Goal::Circle { x, z, r } => upright(x, z, r),
            Goal::NotCircle { x, z, r } => upright(x, z, r),
            Goal::Square(rectangle) => rectangle,
            Goal::NotSquare(rectangle) => rectangle,
        }
    }

    /// Whether the goals are one. It says what `==` does, in a form by which callers know it.
    pub fn is_same(&self, other: &Goal) -> bool
        ensures { IsTrue result ↔ (self.now ≡ other.now) }
    {
        match self {
            Goal::Point { x, z } => match other {
                Goal::Point { x: i, z: j } => *x == *i && *z == *j,
                _ => false,
            },
            Goal::Circle { x, z, r } => match other {
                Goal::Circle {
                    x: i,
                    z: j,
                    r: radius,
                } => *x == *i && *z == *j && *r == *radius,
                _ => false,
            },
            Goal::NotCircle { x, z, r } => match other {
                Goal::NotCircle {
                    x: i,
                    z: j,
                    r: radius,
                } => *x == *i && *z == *j && *r == *radius,
                _ => false,
            },
            Goal::Square(square) => match other {
                Goal::Square(same) => is_same_rectangle(*square, *same),
                _ => false,
            },
            Goal::NotSquare(square) => match other {
                Goal::NotSquare(same) => is_same_rectangle(*square, *same),
                _ => false,
            },
        }
    }
}

/// Whether the rectangles are one.
fn is_same_rectangle(one: Rectangle, other: Rectangle) -> bool
    ensures { IsTrue result ↔ (one ≡ other) }
{
    one == other
}

/// A square along the axes of the map.
fn upright(x: Fixed, z: Fixed, half: Fixed) -> Rectangle
    ensures { result ≡ upright x z half }
{
    Rectangle {
        x,
        z,
        ux: Fixed::from_raw(65_536),
        uz: Fixed::from_raw(0),
        hw: half,
        hh: half,
    }
}
