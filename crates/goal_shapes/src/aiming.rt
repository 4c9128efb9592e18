//! A goal as an aim: which cells it hits, and in which rectangle they are.
use crate::containing::{cell_box, contains};
use crate::goals::Goal;
use nav_types::{Aim, Cell, Rect, Size};

impl Aim for Goal {
    ghost use Rattle.goal_shapes.specs.Limits.{IsSoundGoal};
    ghost use Rattle.goal_shapes.specs.Goals.{contains, framed};
    ghost use Rattle.goal_shapes.specs.inner.Framing.{contains_framed};

    ghost sound = { λ goal size. IsSoundGoal size goal };

    ghost hit = { λ goal size cell. contains goal cell };

    ghost framed = { λ goal size cell. framed goal cell };

    fn hits(&self, _size: Size, cell: Cell) -> bool {
        contains(self, cell)
    }

    fn bounds(&self, size: Size) -> Rect {
        cell_box(self, size)
    }

    ghost hits_framed = { λ goal size cell sound inside hit. contains_framed goal cell hit };
}
