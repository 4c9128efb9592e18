//! Whether two targets are one. It says what `==` does, in a form by which callers know it.
ghost use Rattle.std.specs.Prelude.{◌≡◌, IsTrue};

use goal_reach::Target;

/// Whether the targets are one.
pub(crate) fn is_same_target(one: &Target, other: &Target) -> bool
    ensures { IsTrue result → one.now ≡ other.now }
{
    match one {
        Target::Goal(goal) => match other {
            Target::Goal(same) => goal.is_same(same),
            Target::Near(_) => false,
        },
        Target::Near(cell) => match other {
            Target::Near(same) => cell.i == same.i && cell.j == same.j,
            Target::Goal(_) => false,
        },
    }
}
