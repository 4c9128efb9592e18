//! The cost, the waypoints and the end of a walk.
ghost use Rattle.std.specs.Prelude.{◌≡◌, ◌≤◌, ◌^◌, length, IfOk};
ghost use Rattle.nav_types.specs.Walks.{walk_cost};
ghost use Rattle.walks.specs.Waypoints.{StaysInGrid, IsInGrid, cell_after, is_corner, waypoints};
ghost use Rattle.nav_types.specs.Directions.{west, south};

use crate::found_walk::{Walk, Waypoints};
use nav_types::{Cell, Cost, Dir, NoMemory};
use std::alloc::Global;

/// The cost of a walk: [`STRAIGHT_COST`](nav_types::limits::STRAIGHT_COST) for each straight step and
/// [`DIAGONAL_COST`](nav_types::limits::DIAGONAL_COST) for each diagonal one.
pub fn cost(walk: &Walk) -> Cost
    requires { length walk.now ≤ 2 ^ 32 }
    ensures { result.0 ≡ walk_cost walk.now }
{
    let mut total: u64 = 0;
    for dir in walk.as_slice() {
        total += dir.cost();
    }
    Cost(total)
}

/// The waypoints of a walk from the start: the cells where the direction changes, then the last cell.
/// An empty walk has none.
pub fn waypoints(alloc: Global, start: Cell, walk: &Walk) -> Result<Waypoints, NoMemory>
    requires { StaysInGrid start walk.now }
    ensures { IfOk result (λ made. made ≡ waypoints start walk.now) }
{
    let mut waypoints = Waypoints::new(alloc);
    let mut cell = start;
    let mut rest = walk.as_slice();
    while let Some((dir, tail)) = rest.split_first() {
        cell = moved(cell, *dir);
        if is_corner(*dir, tail) {
            waypoints.push(cell)?;
        }
        rest = tail;
    }
    Ok(waypoints)
}

/// The cell that a step leads to.
fn moved(cell: Cell, dir: Dir) -> Cell
    requires grid { IsInGrid cell }
    requires column { west dir ≤ cell.i }
    requires row { south dir ≤ cell.j }
    ensures { result ≡ cell_after dir cell }
{
    Cell::new(
        cell.i + dir.east() - dir.west(),
        cell.j + dir.north() - dir.south(),
    )
}

/// Whether the walk goes another way after the step, or ends.
fn is_corner(dir: Dir, tail: &[Dir]) -> bool
    ensures { result ≡ is_corner dir tail.now }
{
    match tail.first() {
        None => true,
        Some(next) => {
            dir.east() != next.east()
                || dir.west() != next.west()
                || dir.north() != next.north()
                || dir.south() != next.south()
        }
    }
}
