//! Which cells are goal cells, how remote the others are, and the goal's box.
ghost use Rattle.std.specs.Prelude.{◌≡◌};
ghost use Rattle.nav_types.specs.Frames.{IsFrame};
ghost use Rattle.goal_shapes.specs.Limits.{IsWellFormed, IsSoundGoal};
ghost use Rattle.goal_shapes.specs.Goals.{contains, remoteness, framed};

use crate::boxes::{circle_box, point_box, square_box};
use crate::circles::{circle_meets, leaves_circle, squared_distance};
use crate::goals::Goal;
use crate::points::{is_held, squared_cells_from};
use crate::squares::{depth, leaves_square, square_meets};
use nav_types::{Cell, Rect, Size};

/// Whether the cell is a goal cell (`contains`).
///
/// The goal's radius or sides are in their limits.
#[tactic(auto, unfolding(crate::specs::Goals::contains))]
pub fn contains(goal: &Goal, cell: Cell) -> bool
    requires { IsWellFormed goal.now }
    ensures { result ≡ contains goal.now cell }
{
    match *goal {
        Goal::Point { x, z } => is_held(x, z, cell),
        Goal::Circle { x, z, r } => circle_meets(x, z, r, cell),
        Goal::NotCircle { x, z, r } => leaves_circle(x, z, r, cell),
        Goal::Square(rectangle) => square_meets(&rectangle, cell),
        Goal::NotSquare(rectangle) => leaves_square(&rectangle, cell),
    }
}

/// How remote the cell is from the goal (`remoteness`): a measure to compare the cells by, which has its
/// own scale for each kind of goal.
///
/// The goal's radius or sides are in their limits.
#[tactic(auto, unfolding(crate::specs::Goals::remoteness))]
pub fn remoteness(goal: &Goal, cell: Cell) -> u128
    requires { IsWellFormed goal.now }
    ensures { result ≡ remoteness goal.now cell }
{
    match *goal {
        Goal::Point { x, z } => squared_cells_from(x, z, cell),
        Goal::Circle { x, z, .. } => squared_distance(x, z, cell),
        // On a map no squared distance is above 2^55, so that 2^56 turns the order of the cells about.
        Goal::NotCircle { x, z, .. } => (1u128 << 56).saturating_sub(squared_distance(x, z, cell)),
        Goal::Square(rectangle) => rectangle.squared_past(cell.i, cell.j),
        Goal::NotSquare(rectangle) => u128::from(depth(&rectangle, cell)),
    }
}

/// The goal's box on a map of this size: the rectangle of exactly those cells that are framed (`framed`).
/// It holds every goal cell of the map.
///
/// The goal is sound for the map.
#[tactic(auto, unfolding(crate::specs::Goals::framed))]
pub fn cell_box(goal: &Goal, size: Size) -> Rect
    requires { IsSoundGoal size goal.now }
    ensures { IsFrame (framed goal.now) size result }
{
    match *goal {
        Goal::Point { x, z } => point_box(x, z, size),
        Goal::Circle { x, z, r } => circle_box(x, z, r, size),
        Goal::NotCircle { .. } => Rect::of_map(size),
        Goal::Square(rectangle) => square_box(&rectangle, size),
        Goal::NotSquare { .. } => Rect::of_map(size),
    }
}
