//! Tables of costs, lowered sweep by sweep until no step makes a cost less.

ghost use Rattle.std.specs.Prelude.{Bool, ◌≡◌, ◌-◌, ◌<◌, slice_set, nat_lt, if◌then◌else◌, IfOk, IsTrue};
ghost use Rattle.nav_types.specs.declared.cells.Cell.{Cell};
ghost use Rattle.nav_types.specs.Cells.{IsInside};
ghost use Rattle.nav_types.specs.Places.{place_of};
ghost use Rattle.walks.specs.inner.Tables.{entry, CoversMap, IsSoundTable, IsSoundForSome, IsSettledAlong, IsSettledAt, IsSettled, Lowers, HasDistances};

use crate::places::{cell_at_place, cell_count, place};
use nav_types::limits::{DIAGONAL_COST, MAX_SIDE};
use nav_types::{Cell, Class, Dir, NoMemory, View, step};
use std::alloc::Global;

/// What a table has for a cell that no walk has reached: more than the cost of any walk of least cost.
pub const UNREACHED: u64 = 1_099_511_627_776;

// Such a walk meets no cell twice, so on the largest map it has a step for each cell at most.
const _: () = prove!(MAX_SIDE as u64 * MAX_SIDE as u64 * DIAGONAL_COST < UNREACHED);

/// The table where a walk has reached the start alone.
fn blank<V: View>(alloc: Global, view: &V, start: Cell) -> Result<Vec<u64>, NoMemory>
    requires { IsInside (V.extent view.now) start }
    ensures { IfOk result
        (λ costs. (passes : Cell → Bool) → IsSoundTable passes start (V.extent view.now) costs.items) }
{
    let mut costs = vec![in alloc; UNREACHED; cell_count(view)]?;
    costs[place(view, start)] = 0;
    Ok(costs)
}

/// The table's cost for a cell.
pub fn cost_at<V: View>(view: &V, costs: &Vec<u64>, cell: Cell) -> u64
    requires covers { CoversMap (V.extent view.now) costs.now.items }
    requires inside { IsInside (V.extent view.now) cell }
    ensures { result ≡ entry (V.extent view.now) costs.now.items cell }
{
    costs[place(view, cell)]
}

/// Lowers the table's cost for a cell to a cost that is less. Whether it is less.
fn lower<V: View>(view: &V, costs: &mut Vec<u64>, cell: Cell, cost: u64) -> bool
    requires covers { CoversMap (V.extent view.now) costs.old.items }
    requires inside { IsInside (V.extent view.now) cell }
    ensures fell { result ≡ nat_lt cost (entry (V.extent view.now) costs.old.items cell) }
    ensures table { costs.new.items
        ≡ (if result then slice_set costs.old.items (place_of (V.extent view.now) cell) cost else costs.old.items) }
{
    let at = place(view, cell);
    if cost < costs[at] {
        costs[at] = cost;
        true
    } else {
        false
    }
}

/// Lowers the table's cost for the next cell in the direction where a step makes it less. Whether it fell.
fn relax_along<V: View>(view: &V, class: Class, costs: &mut Vec<u64>, cell: Cell, dir: Dir) -> bool
    requires class { class < V.class_count view.now }
    requires inside { IsInside (V.extent view.now) cell }
    requires table { IsSoundForSome (V.passes view.now class) (V.extent view.now) costs.old.items }
    ensures { Lowers (V.passes view.now class) (V.extent view.now)
        (IsSettledAlong (V.passes view.now class) (V.extent view.now) cell dir) costs.old.items costs.new.items result }
{
    let Some(next) = step(view, class, cell, dir) else {
        return false;
    };
    let here = cost_at(view, costs, cell);
    lower(view, costs, next, here + dir.cost())
}

/// Lowers the table's costs for the cells around a cell where a step makes them less. Whether one fell.
fn relax<V: View>(view: &V, class: Class, costs: &mut Vec<u64>, cell: Cell) -> bool
    requires class { class < V.class_count view.now }
    requires inside { IsInside (V.extent view.now) cell }
    requires table { IsSoundForSome (V.passes view.now class) (V.extent view.now) costs.old.items }
    ensures { Lowers (V.passes view.now class) (V.extent view.now)
        (IsSettledAt (V.passes view.now class) (V.extent view.now) cell) costs.old.items costs.new.items result }
{
    let mut fell = false;
    for dir in Dir::ALL {
        fell |= relax_along(view, class, costs, cell, dir);
    }
    fell
}

/// Relaxes each cell of the map, from the first to the last or the other way. Whether a cost fell.
fn sweep<V: View>(view: &V, class: Class, costs: &mut Vec<u64>, forward: bool) -> bool
    requires class { class < V.class_count view.now }
    requires table { IsSoundForSome (V.passes view.now class) (V.extent view.now) costs.old.items }
    ensures { Lowers (V.passes view.now class) (V.extent view.now)
        (IsSettled (V.passes view.now class) (V.extent view.now)) costs.old.items costs.new.items result }
{
    let count = cell_count(view);
    let mut fell = false;
    for passed in 0..count {
        let place = place_after(count, passed, forward);
        fell |= relax(view, class, costs, cell_at_place(view, place));
    }
    fell
}

/// The place that comes after so many others, from the first to the last or the other way.
fn place_after(count: usize, passed: usize, forward: bool) -> usize
    requires { passed < count }
    ensures place { result ≡ (if forward then passed else count - 1 - passed) }
    ensures within { result < count }
{
    if forward { passed } else { count - 1 - passed }
}

/// Sweeps in both directions in turn until no cost falls.
fn settle<V: View>(view: &V, class: Class, costs: &mut Vec<u64>)
    requires class { class < V.class_count view.now }
    requires table { IsSoundForSome (V.passes view.now class) (V.extent view.now) costs.old.items }
    ensures sound { (start : Cell) → IsSoundTable (V.passes view.now class) start (V.extent view.now) costs.old.items
        → IsSoundTable (V.passes view.now class) start (V.extent view.now) costs.new.items }
    ensures settled { IsSettled (V.passes view.now class) (V.extent view.now) costs.new.items }
{
    // costs spread along the way of a sweep at once, so that sweeps both ways need few rounds
    let mut forward = true;
    'sweeps: while sweep(view, class, costs, forward) {
        forward = !forward;
    }
}

/// The table of the distances from the start.
pub fn settled<V: View>(
    alloc: Global,
    view: &V,
    class: Class,
    start: Cell,
) -> Result<Vec<u64>, NoMemory>
    requires class { class < V.class_count view.now }
    requires start { IsTrue (V.passes view.now class start) }
    ensures { IfOk result (λ costs. HasDistances (V.passes view.now class) start (V.extent view.now) costs.items) }
{
    let mut costs = blank(alloc, view, start)?;
    settle(view, class, &mut costs);
    Ok(costs)
}
