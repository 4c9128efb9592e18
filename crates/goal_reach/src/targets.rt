//! What a search looks for once its goal is made reachable.
use goal_shapes::Goal;
use nav_types::{Aim, Cell, Rect, Size};

/// What a search from a start cell looks for: a goal of which it can reach a cell, or one near cell.
#[derive(Clone, Copy, Debug, PartialEq, Eq)]
pub enum Target {
    /// The cells of a goal.
    Goal(Goal),
    /// One cell, in place of a goal that can't be reached.
    Near(Cell),
}

impl Aim for Target {
    ghost use Rattle.std.specs.Prelude.{IsTrue};
    ghost use Rattle.nav_types.specs.Cells.{IsInside};
    ghost use Rattle.goal_shapes.specs.inner.Framing.{contains_framed};
    ghost use Rattle.goal_reach.specs.declared.targets.Target.TheVariants.{Goal as GoalTarget, Near};
    ghost use Rattle.goal_reach.specs.Targets.{hit_by, framed_by, IsSoundTarget};

    ghost sound = { λ target size. IsSoundTarget size target };

    ghost hit = { λ target _ cell. hit_by target cell };

    ghost framed = { λ target _ cell. framed_by target cell };

    ghost hits_framed = { λ target size cell.
        elim target as (λ t. IsSoundTarget size t → IsInside size cell → IsTrue (hit_by t cell)
        → IsTrue (framed_by t cell)) [
          | GoalTarget goal ↦ λ sound inside hit. contains_framed goal cell hit
          | Near near ↦ λ sound inside hit. hit
        ] };

    /// Whether the target is the near cell, or the goal has the cell (`hit_by`).
    fn hits(&self, size: Size, cell: Cell) -> bool {
        match self {
            Target::Goal(goal) => goal.hits(size, cell),
            Target::Near(near) => cell.i == near.i && cell.j == near.j,
        }
    }

    /// The rectangle of the goal, or of the near cell alone (`framed_by`).
    fn bounds(&self, size: Size) -> Rect {
        match self {
            Target::Goal(goal) => goal.bounds(size),
            Target::Near(near) => Rect::of_cell(*near),
        }
    }
}
