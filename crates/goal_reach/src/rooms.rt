//! Room within goals that are turned inside out.
ghost use Rattle.std.specs.Prelude.{IsTrue, IfSome};
ghost use Rattle.goal_shapes.specs.Limits.{IsWellFormed, IsSoundGoal};
ghost use Rattle.goal_reach.specs.Rooms.{IsRoomIn};
ghost use Rattle.goal_reach.specs.inner.Stretches.{is_inside_out};

use crate::reaching::is_inside_out;
use goal_shapes::{Goal, cell_of_point, contains};
use nav_types::{Cell, Rect, Size};

/// The half side that is tried first, with which the half sides up to the longest of a map can be made.
const FIRST_HALF: u16 = 1024;

/// A rectangle of the map about the middle of a goal that is turned inside out of which the goal has no cell (`IsRoomIn`),
/// as a search for cells of the goal has to leave it first.
///
/// It tells a square about the middle cell, as far as it lies on the map, whose half side is found by halving. None where
/// the cells next to the middle cell are the goal's, and for all goals but squares along the axes of the map: in a circle or
/// a turned square the room ends so long before the goal's cells begin that it spares a search nothing.
pub fn room_in(goal: &Goal, size: Size) -> Option<Rect>
    requires { IsSoundGoal size goal.now }
    ensures { IfSome result (IsRoomIn goal.now) }
{
    if !is_inside_out(goal) || !is_upright_square(goal) {
        return None;
    }
    let extent = goal.extent();
    let middle = cell_of_point(extent.x, extent.z, size)?;
    let mut room = None;
    let mut half = 0;
    let mut step = FIRST_HALF;
    'halving: while step > 0 {
        let rect = square_about(middle, half | step, size);
        if is_room(goal, rect) {
            room = Some(rect);
            half |= step;
        }
        step /= 2;
    }
    room
}

/// Whether the goal is a square along the axes of the map that is turned inside out.
fn is_upright_square(goal: &Goal) -> bool {
    match goal {
        Goal::NotSquare(square) => square.ux.raw() == 0 || square.uz.raw() == 0,
        _ => false,
    }
}

/// The cells of a map that are no more than so many columns and rows away from a cell.
fn square_about(middle: Cell, half: u16, size: Size) -> Rect {
    Rect {
        i0: middle.i.saturating_sub(half),
        j0: middle.j.saturating_sub(half),
        i1: middle.i.saturating_add(half).min(size.w - 1),
        j1: middle.j.saturating_add(half).min(size.h - 1),
    }
}

/// Whether a goal that is turned inside out has none of a rectangle's corner cells, and so no cell of the rectangle.
fn is_room(goal: &Goal, rect: Rect) -> bool
    requires goal { IsWellFormed goal.now }
    requires inside_out { IsTrue (is_inside_out goal.now) }
    ensures { IsTrue result → IsRoomIn goal.now rect }
{
    if contains(goal, Cell::new(rect.i0, rect.j0)) {
        return false;
    }
    if contains(goal, Cell::new(rect.i1, rect.j0)) {
        return false;
    }
    if contains(goal, Cell::new(rect.i0, rect.j1)) {
        return false;
    }
    !contains(goal, Cell::new(rect.i1, rect.j1))
}
