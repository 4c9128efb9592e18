//! Laws of starts and targets: there is one at most.
ghost use Rattle.std.specs.Prelude.{◌≡◌, ℤ, Bool};
ghost use Rattle.nav_types.specs.declared.cells.Cell.{Cell};
ghost use Rattle.goal_shapes.specs.declared.goals.Goal.{Goal};
ghost use Rattle.goal_reach.specs.declared.targets.Target.{Target};
ghost use Rattle.goal_reach.specs.Starts.{IsStartCell};
ghost use Rattle.goal_reach.specs.Targets.{AreTargets};

/// A law: a point has at most one start cell.
pub fn one_start_cell()
    ensures { (passes : Cell → Bool) (x z : ℤ) (a b : Cell) → IsStartCell passes x z a → IsStartCell passes x z b
        → a ≡ b }
{}

/// A law: a start cell and a goal have at most one target.
pub fn one_target()
    ensures { (passes : Cell → Bool) (start : Cell) (goal : Goal) (a b : Target)
        → AreTargets passes start goal a → AreTargets passes start goal b → a ≡ b }
{}
