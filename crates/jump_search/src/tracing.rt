//! The waypoints of the chosen walk, traced back run by run over the nodes of a search that has ended.
//!
//! Of the jumps that come to a cell at its distance the chosen walk takes one: that in the direction of the step that
//! follows, where that is straight, else the first by the preference of directions.

ghost use Rattle.std.specs.Prelude.{ℕ, Bool, [], Option, None, Some, ◌≡◌, ◌+◌, ◌*◌, ◌<◌, ◌≤◌, ◌⊎◌, ◌∷◌, ◌++◌, reverse, IfSome};
ghost use Rattle.std.specs.Prelude.{IfNone, IfOk, OnOk, IsTrue, IsFalse, option_to_list, if◌then◌else◌};
ghost use Rattle.nav_types.specs.declared.limits.TheConstants.{MAX_SIDE};
ghost use Rattle.nav_types.specs.declared.cells.Cell.{Cell};
ghost use Rattle.nav_types.specs.declared.directions.Dir.{Dir};
ghost use Rattle.nav_types.specs.Directions.{east, west, north, south};
ghost use Rattle.walks.specs.Chosen.{IsPicked};
ghost use Rattle.walks.specs.Waypoints.{IsInGrid, is_corner};
ghost use Rattle.jump_search.specs.inner.Traced.{HasRun, IsExact, IsLastTo, IsAsEarly, is_straight_on, lateness};
ghost use Rattle.jump_search.specs.inner.Traced.{Moves, IsTraceable, HasWaypoints};

use crate::nodes::{Node, Nodes, arrival_number};
use crate::searching::Best;
use nav_types::{Cell, Dir, NoMemory};
use std::alloc::Global;
use walks::Waypoints;

/// The last run to a cell: its direction, and how many steps it has.
#[derive(Clone, Copy)]
pub struct LastRun {
    pub dir: Dir,
    pub run: u16,
}

/// Whether the node is of the cell and costs so much.
fn is_exact(node: &Node, cell: Cell, cost: u64) -> bool
    ensures is { IsTrue result → (node.now.state.cell ≡ cell) × (node.now.cost ≡ cost) }
    ensures not { IsFalse result → node.now.state.cell ≡ cell → node.now.cost ≡ cost → ⊥ }
{
    node.cost == cost && node.state.cell.j == cell.j && node.state.cell.i == cell.i
}

/// The last run of the node, where that is of the cell, costs so much and is not the start's.
#[inline(always)]
fn exact_run(node: &Node, cell: Cell, cost: u64) -> Option<LastRun>
    ensures some { IfSome result (λ last. IsLastTo node.now cell cost last.dir last.run) }
    ensures none { IfNone result ((dir : Dir) → IsLastTo node.now cell cost dir node.now.run → ⊥) }
{
    if !is_exact(node, cell, cost) {
        return None;
    }
    let Some(dir) = node.state.arrived else {
        return None;
    };
    let run = node.run;
    Some(LastRun { dir, run })
}

/// Whether the step that follows goes straight on in the direction.
fn is_straight_on(dir: Dir, next: Option<Dir>) -> bool
    ensures { result ≡ is_straight_on next dir }
{
    dir.is_straight() && arrival_number(next) == arrival_number(Some(dir))
}

/// How late the chosen walk picks the direction, by the step that follows: not at all late where it goes straight on, else
/// by preference.
#[inline(always)]
fn lateness(dir: Dir, next: Option<Dir>) -> u8
    ensures { result ≡ lateness next dir }
{
    if is_straight_on(dir, next) {
        return 0;
    }
    arrival_number(Some(dir))
}

/// The one of two last runs that is picked earlier.
#[inline(always)]
fn earlier(one: LastRun, other: LastRun, next: Option<Dir>) -> LastRun
    ensures one { lateness next result.dir ≤ lateness next one.dir }
    ensures other { lateness next result.dir ≤ lateness next other.dir }
    ensures either { (result ≡ one) ⊎ (result ≡ other) }
{
    if lateness(other.dir, next) < lateness(one.dir, next) {
        return other;
    }
    one
}

/// The one that is picked earlier of the best last run so far and that of the node, where it has one to the cell at this
/// cost.
#[inline(always)]
fn earliest_with(
    best: Option<LastRun>,
    node: &Node,
    cell: Cell,
    cost: u64,
    next: Option<Dir>,
) -> Option<LastRun>
    ensures here { (dir : Dir) → IsLastTo node.now cell cost dir node.now.run → IsAsEarly next result dir }
    ensures kept { (dir : Dir) → IsAsEarly next best dir → IsAsEarly next result dir }
    ensures from { (result ≡ best) ⊎ IfSome result (λ last. IsLastTo node.now cell cost last.dir last.run) }
{
    let Some(last) = exact_run(node, cell, cost) else {
        return best;
    };
    match best {
        Some(known) => Some(earlier(known, last, next)),
        None => Some(last),
    }
}

/// The last run of the chosen walk, by the step that follows: straight on where it can, else as is preferred. The nodes of
/// the cell are looked through once.
fn picked(nodes: &Nodes, cell: Cell, cost: u64, next: Option<Dir>) -> LastRun
    requires { (dir : Dir) × IsExact nodes.now cell cost dir }
    ensures picked { IsPicked (IsExact nodes.now cell cost) next result.dir }
    ensures some { HasRun nodes.now cell cost result.dir result.run }
{
    let mut best = None;
    let mut after = nodes.last(cell);
    'walk: while after > 0 {
        let number = after - 1;
        best = earliest_with(best, nodes.at(number), cell, cost, next);
        after = nodes.before(number);
    }
    let Some(last) = best else { unreachable!() };
    last
}

/// The place along one side of a map from which so many steps lead to the place.
fn place_before(place: u16, gained: u16, lost: u16, run: u16) -> u16
    requires gains { gained ≤ 1 }
    requires loses { lost ≤ 1 }
    requires some { (from : ℕ) × ((place + run * lost ≡ from + run * gained) × (from < MAX_SIDE)) }
    ensures { place + run * lost ≡ result + run * gained }
{
    let ahead = place as u32 + run as u32 * lost as u32;
    (ahead - run as u32 * gained as u32) as u16
}

/// The cell from which the run leads to the cell.
fn cell_before(cell: Cell, last: LastRun) -> Cell
    requires { (from : Cell) × (Moves last.dir last.run from cell × IsInGrid from) }
    ensures { Moves last.dir last.run result cell }
{
    Cell::new(
        place_before(cell.i, last.dir.east(), last.dir.west(), last.run),
        place_before(cell.j, last.dir.north(), last.dir.south(), last.run),
    )
}

/// Whether a walk goes another way after a step in the direction, where this is the step that follows, or ends there.
fn is_corner(dir: Dir, next: Option<Dir>) -> bool
    ensures { result ≡ is_corner dir (option_to_list next) }
{
    arrival_number(next) != arrival_number(Some(dir))
}

/// Appends the cell, where a run in the direction comes to it and the walk goes another way from there, or ends.
fn push_corner(
    corners: &mut Vec<Cell>,
    cell: Cell,
    dir: Dir,
    next: Option<Dir>,
) -> Result<(), NoMemory>
    ensures { OnOk result (corners.new.items ≡ corners.old.items
        ++ (if is_corner dir (option_to_list next) then cell ∷ [] else [])) }
{
    if !is_corner(dir, next) {
        return Ok(());
    }
    corners.push(cell)?;
    Ok(())
}

/// The waypoints of the chosen walk to the end, from the last to the first.
fn corners_back(
    alloc: Global,
    nodes: &Nodes,
    start: Cell,
    best: Best,
) -> Result<Vec<Cell>, NoMemory>
    requires { (all : Bool) × ((passes : Cell → Bool) × ((hit : Cell → Bool) × ((ahead : Cell → ℕ)
        × IsTraceable all passes hit start ahead best.cell best.cost nodes.now))) }
    ensures { IfOk result (λ corners. (all : Bool) (passes hit : Cell → Bool) (ahead : Cell → ℕ)
        → IsTraceable all passes hit start ahead best.cell best.cost nodes.now
        → HasWaypoints passes start best.cell (reverse corners.items)) }
{
    let mut corners = Vec::new(alloc);
    let mut cell = best.cell;
    let mut cost = best.cost;
    let mut next = None;
    'runs: while cell != start {
        let last = picked(nodes, cell, cost, next);
        push_corner(&mut corners, cell, last.dir, next)?;
        cell = cell_before(cell, last);
        cost -= last.run as u64 * last.dir.cost();
        next = Some(last.dir);
    }
    Ok(corners)
}

/// The waypoints of the chosen walk from the start to the end of a search.
pub(crate) fn traced(
    alloc: Global,
    nodes: &Nodes,
    start: Cell,
    best: Best,
) -> Result<Waypoints, NoMemory>
    requires { (all : Bool) × ((passes : Cell → Bool) × ((hit : Cell → Bool) × ((ahead : Cell → ℕ)
        × IsTraceable all passes hit start ahead best.cell best.cost nodes.now))) }
    ensures { IfOk result (λ points. (all : Bool) (passes hit : Cell → Bool) (ahead : Cell → ℕ)
        → IsTraceable all passes hit start ahead best.cell best.cost nodes.now
        → HasWaypoints passes start best.cell points) }
{
    let mut corners = corners_back(alloc, nodes, start, best)?;
    corners.reverse();
    Ok(Waypoints::from(corners))
}
