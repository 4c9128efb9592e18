//! Laws of goals.
ghost use Rattle.std.specs.Prelude.{◌≡◌, ℤ, IsTrue};
ghost use Rattle.nav_types.specs.declared.limits.TheConstants.{MAX_GROWTH, MAX_HALF_SIDE};
ghost use Rattle.nav_types.specs.declared.cells.Cell.{Cell};
ghost use Rattle.nav_types.specs.declared.cells.Size.{Size};
ghost use Rattle.fixed_point.specs.declared.plane.Rectangle.{Rectangle};
ghost use Rattle.fixed_point.specs.Plane.{IsOnAxis, IsUnitVector, IsUpTo};
ghost use Rattle.goal_shapes.specs.declared.goals.Goal.{Goal};
ghost use Rattle.goal_shapes.specs.Limits.{IsWellFormed, IsSoundGoal, grown};
ghost use Rattle.goal_shapes.specs.Goals.{HoldsPoint, contains};

/// A law: at most one cell holds a point.
pub fn one_cell_holds_a_point()
    ensures { (x z : ℤ) (cell other : Cell) → HoldsPoint x z cell → HoldsPoint x z other → cell ≡ other }
{}

/// A law: the cell that holds the middle of a well-formed point, circle or square is a goal cell.
pub fn middle_is_a_goal_cell()
    ensures point { (x z : ℤ) (cell : Cell) → HoldsPoint x z cell → IsTrue (contains (Goal.Point x z) cell) }
    ensures circle { (x z r : ℤ) (cell : Cell) → IsWellFormed (Goal.Circle x z r) → HoldsPoint x z cell
        → IsTrue (contains (Goal.Circle x z r) cell) }
    ensures square { (rectangle : Rectangle) (cell : Cell) → IsWellFormed (Goal.Square rectangle)
        → HoldsPoint rectangle.x rectangle.z cell
        → IsTrue (contains (Goal.Square rectangle) cell) }
{}

/// A law: a square on the map along a unit vector, with half sides from 0 to 256 navcells, is a sound
/// goal where it has grown by a distance from 0 to 3840 navcells.
pub fn grown_goals_are_sound()
    ensures { (size : Size) (rectangle : Rectangle) (grow : ℤ) → IsOnAxis size.w rectangle.x
        → IsOnAxis size.h rectangle.z
        → IsUnitVector rectangle.ux rectangle.uz → IsUpTo MAX_HALF_SIDE rectangle.hw → IsUpTo MAX_HALF_SIDE rectangle.hh
        → IsUpTo MAX_GROWTH grow
        → IsSoundGoal size (Goal.Square (grown rectangle grow)) }
{}
