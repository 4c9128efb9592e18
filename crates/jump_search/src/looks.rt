//! A first look for a way to a cell that is looked for.
ghost use Rattle.std.specs.Prelude.{◌<◌, IsTrue, IfSome};
ghost use Rattle.jump_search.specs.inner.Searched.{IsCostToHit};

use crate::octile::octile_to;
use jump_scan::Runs;
use nav_types::limits::STRAIGHT_COST;
use nav_types::{Aim, Cell, Class, Dir, Rect, step};
use std::cmp::Ordering;

/// How many steps a look takes at most.
const REACH: u16 = 64;

/// The direction straight from one cell to another: a diagonal one where they differ by column and by row. None where
/// they are one cell.
fn towards(from: Cell, to: Cell) -> Option<Dir> {
    match (to.i.cmp(&from.i), to.j.cmp(&from.j)) {
        (Ordering::Equal, Ordering::Greater) => Some(Dir::N),
        (Ordering::Greater, Ordering::Equal) => Some(Dir::E),
        (Ordering::Equal, Ordering::Less) => Some(Dir::S),
        (Ordering::Less, Ordering::Equal) => Some(Dir::W),
        (Ordering::Greater, Ordering::Greater) => Some(Dir::NE),
        (Ordering::Greater, Ordering::Less) => Some(Dir::SE),
        (Ordering::Less, Ordering::Less) => Some(Dir::SW),
        (Ordering::Less, Ordering::Greater) => Some(Dir::NW),
        (Ordering::Equal, Ordering::Equal) => None,
    }
}

/// The place in the middle of a part of one side of a map.
fn middle(first: u16, last: u16) -> u16 {
    first + last.saturating_sub(first) / 2
}

/// What a walk to a cell that is hit costs: the one straight to the middle of the rectangle, diagonal steps first, where it
/// is legal and not long. By it a search knows at once which costs can't matter.
#[inline(never)]
pub(crate) fn looked<R: Runs, A: Aim>(
    runs: &R,
    class: Class,
    start: Cell,
    aim: &A,
    rect: &Rect,
) -> Option<u32>
    requires class { class < R.class_count runs.now }
    requires start { IsTrue (R.passes runs.now class start) }
    requires aim { A.sound aim.now (R.extent runs.now) }
    ensures { IfSome result (IsCostToHit (R.passes runs.now class) (A.hit aim.now (R.extent runs.now)) start) }
{
    if octile_to(rect, start) > REACH as u64 * STRAIGHT_COST {
        return None;
    }
    let size = runs.size();
    let goal = Cell::new(middle(rect.i0, rect.i1), middle(rect.j0, rect.j1));
    let mut cell = start;
    let mut cost = 0u32;
    for _steps in 0..REACH {
        if aim.hits(size, cell) {
            return Some(cost);
        }
        let Some(dir) = towards(cell, goal) else {
            return None;
        };
        let Some(next) = step(runs, class, cell, dir) else {
            return None;
        };
        cell = next;
        cost += dir.cost() as u32;
    }
    None
}
