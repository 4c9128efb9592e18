//! The legs of a walk: one or more steps in one direction.
ghost use Rattle.std.specs.Prelude.{◌≡◌, ◌<◌, ◌≤◌, ◌⊎◌, ◌↔◌, IfSome, IfNone, IsTrue, Some};
ghost use Rattle.nav_types.specs.declared.directions.Dir.{Dir};
ghost use Rattle.nav_types.specs.Cells.{IsInside};
ghost use Rattle.nav_types.specs.Directions.{east, west, north, south};
ghost use Rattle.line_smooth.specs.Segments.{gap};
ghost use Rattle.flat_ways.specs.inner.Legs.{IsLeg, IsSign, PointsTo};

use crate::steps::dir_number;
use nav_types::{Cell, Class, Dir, View, step};

/// The direction of the leg from one cell to another. None exactly where no leg leads there.
pub(crate) fn leg<V: View>(view: &V, class: Class, from: Cell, to: Cell) -> Option<Dir>
    requires class { class < V.class_count view.now }
    requires inside { IsInside (V.extent view.now) from }
    ensures some { IfSome result (λ dir. IsLeg (V.passes view.now class) dir from to) }
    ensures only { IfSome result (λ dir. (other : Dir) → IsLeg (V.passes view.now class) other from to → other ≡ dir) }
    ensures inside { IfSome result (λ dir. IsInside (V.extent view.now) to) }
    ensures none { IfNone result ((other : Dir) → IsLeg (V.passes view.now class) other from to → ⊥) }
{
    let Some(dir) = heading(from, to) else {
        return None;
    };
    let steps = steps_between(from, to);
    let mut at = from;
    for walked in 0..steps {
        let Some(next) = step(view, class, at, dir) else {
            return None;
        };
        at = next;
    }
    if is_cell(at, to) { Some(dir) } else { None }
}

/// Whether two cells are one.
fn is_cell(a: Cell, b: Cell) -> bool
    ensures { IsTrue result ↔ (a ≡ b) }
{
    a.i == b.i && a.j == b.j
}

/// Whether a leg goes on in the direction of the one before it.
pub(crate) fn goes_on(before: Option<Dir>, dir: Dir) -> bool
    ensures { IsTrue result ↔ (before ≡ Some dir) }
{
    match before {
        Some(last) => dir_number(last) == dir_number(dir),
        None => false,
    }
}

/// The direction from one cell to another, by their columns and their rows. None where they are one.
fn heading(from: Cell, to: Cell) -> Option<Dir>
    ensures some { IfSome result (λ dir. PointsTo dir from to) }
    ensures none { IfNone result (from ≡ to) }
{
    if from.j < to.j {
        Some(northward(from.i, to.i))
    } else if to.j < from.j {
        Some(southward(from.i, to.i))
    } else if from.i < to.i {
        Some(Dir::E)
    } else if to.i < from.i {
        Some(Dir::W)
    } else {
        None
    }
}

/// The direction to a row further north, from one column to another.
fn northward(from: u16, to: u16) -> Dir
    ensures columns { IsSign (east result) (west result) from to }
    ensures north { north result ≡ 1 }
    ensures south { south result ≡ 0 }
{
    if from < to {
        Dir::NE
    } else if to < from {
        Dir::NW
    } else {
        Dir::N
    }
}

/// The direction to a row further south, from one column to another.
fn southward(from: u16, to: u16) -> Dir
    ensures columns { IsSign (east result) (west result) from to }
    ensures north { north result ≡ 0 }
    ensures south { south result ≡ 1 }
{
    if from < to {
        Dir::SE
    } else if to < from {
        Dir::SW
    } else {
        Dir::S
    }
}

/// How many steps a leg from one cell to another has.
fn steps_between(from: Cell, to: Cell) -> u16
    ensures columns { gap from.i to.i ≤ result }
    ensures rows { gap from.j to.j ≤ result }
    ensures one { (result ≡ gap from.i to.i) ⊎ (result ≡ gap from.j to.j) }
{
    let columns = gap(from.i, to.i);
    let rows = gap(from.j, to.j);
    if columns < rows { rows } else { columns }
}

/// How far apart two columns or two rows lie.
fn gap(a: u16, b: u16) -> u16
    ensures { result ≡ gap a b }
{
    if a < b { b - a } else { a - b }
}
