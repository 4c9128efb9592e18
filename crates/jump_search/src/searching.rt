//! The search: jump states are opened by their estimates until none is left within the cost of the best hit.
ghost use Rattle.std.specs.Prelude.{◌≡◌, ◌<◌, ◌+◌, ◌⊎◌, ℕ, Bool, List, Some, IsSome};
ghost use Rattle.std.specs.Prelude.{IsTrue, IsFalse, IfSome, IfNone, IfOk, OnOk, OnErr};
ghost use Rattle.std.specs.FinMap as map;
ghost use Rattle.nav_types.specs.declared.cells.Cell.{Cell};
ghost use Rattle.nav_types.specs.Cells.{IsInside};
ghost use Rattle.open_heap.specs.Queue.{IsLeast};
ghost use Rattle.jump_search.specs.declared.nodes.Node.{Node};
ghost use Rattle.jump_search.specs.Estimates.{IsConsistent};
ghost use Rattle.jump_search.specs.inner.Underway.{opened_count, IsBetter, IsNotPast, IsPast, IsTaken, IsUnderway};
ghost use Rattle.jump_search.specs.inner.Searched.{IsCostToHit};
ghost use Rattle.jump_search.specs.inner.Underway.{IsHalted, HasEnded};

use crate::estimates::Estimate;
use crate::frontier::Frontier;
use crate::nodes::Node;
use crate::problems::Problem;
use crate::states::JumpState;
use jump_scan::Runs;
use nav_types::{Aim, Cell, NoMemory, Ticks};
use open_heap::Entry;
use std::sync::ledger::Ledger;

/// A cell that is hit, with the cost of jumps to it.
#[derive(Clone, Copy)]
pub struct Best {
    pub cell: Cell,
    pub cost: u64,
}

/// What a search has found: the first in cell order of the nearest cells that are hit, and how many nodes it has opened.
#[derive(Drop)]
pub(crate) struct Search {
    pub best: Option<Best>,
    pub opened: u64,
}

/// Whether an estimate is past the cost of the best hit.
fn is_past(best: Option<Best>, estimate: u64) -> bool
    ensures past { IsTrue result → IsPast best estimate }
    ensures near { IsFalse result → IsNotPast best estimate }
{
    match best {
        Some(best) => best.cost < estimate,
        None => false,
    }
}

/// The better of two hits: the nearer one, and of equal ones the first in cell order.
fn better(best: Option<Best>, hit: Best) -> Best
    ensures { IsBetter best hit result }
{
    let Some(best) = best else {
        return hit;
    };
    if best.cost < hit.cost {
        return best;
    }
    if best.cost == hit.cost && best.cell < hit.cell {
        return best;
    }
    hit
}

/// The best hit after a node was opened.
fn best_with<R: Runs, A: Aim>(runs: &R, aim: &A, best: Option<Best>, node: &Node) -> Option<Best>
    requires aim { A.sound aim.now (R.extent runs.now) }
    requires inside { IsInside (R.extent runs.now) node.now.state.cell }
    ensures hit { IsTrue (A.hit aim.now (R.extent runs.now) node.now.state.cell)
        → IfSome result (λ new. IsBetter best (record { cell = node.now.state.cell; cost = node.now.cost }) new)
        × IsSome result }
    ensures missed { IsFalse (A.hit aim.now (R.extent runs.now) node.now.state.cell) → result ≡ best }
{
    let cell = node.state.cell;
    if aim.hits(runs.size(), cell) {
        let cost = node.cost;
        return Some(better(best, Best { cell, cost }));
    }
    best
}

impl Search {
    /// A search over no node but that of the start, which waits.
    pub(crate) fn new<E: Estimate>(
        frontier: &mut Frontier,
        ahead: &E,
        start: Cell,
    ) -> Result<Search, NoMemory>
        ensures underway { IfOk result (λ search. (all : Bool) (passes hit : Cell → Bool)
            → IsUnderway all passes hit start (E.least ahead.now) 0 frontier.new.nodes frontier.new.waiting search.best) }
        ensures opened { IfOk result (λ search. search.opened ≡ opened_count frontier.new.nodes) }
        ensures none { IfOk result (λ search. search.opened ≡ 0) }
    {
        let state = JumpState {
            cell: start,
            arrived: None,
        };
        let node = Node {
            state,
            cost: 0,
            run: 0,
            opened: false,
        };
        frontier.clear();
        frontier.insert_node(ahead, node)?;
        Ok(Search {
            best: None,
            opened: 0,
        })
    }

    /// Takes the next entry from the open list, where its estimate is not past the best hit's cost. None where the
    /// search has ended.
    #[inline(always)]
    pub(crate) fn next(&self, frontier: &mut Frontier) -> Option<Entry>
        ensures nodes { frontier.new.nodes ≡ frontier.old.nodes }
        ensures least { IfSome result (IsLeast frontier.old.waiting) }
        ensures rest { IfSome result (λ entry. frontier.new.waiting ≡ map.remove frontier.old.waiting entry.key) }
        ensures near { IfSome result (λ entry. IsNotPast self.now.best entry.estimate) }
        ensures past { IfNone result ((number estimate : ℕ) → map.get frontier.old.waiting number ≡ Some estimate
            → IsPast self.now.best estimate) }
    {
        let Some(entry) = frontier.waiting.pop_least() else {
            return None;
        };
        if is_past(self.best, entry.estimate) {
            return None;
        }
        Some(entry)
    }

    /// Opens the node of an entry that was taken from the open list, with one tick.
    pub(crate) fn take<R: Runs, A: Aim, E: Estimate, L: Ledger, const ALL: bool>(
        &mut self,
        frontier: &mut Frontier,
        problem: &Problem<'_, R, A, ALL>,
        ahead: &E,
        entry: Entry,
        ticks: &mut Ticks<L>,
    ) -> Result<(), NoMemory>
        requires class { problem.now.class < R.class_count problem.now.runs.now }
        requires aim { A.sound problem.now.aim.now (R.extent problem.now.runs.now) }
        requires ahead { IsConsistent (R.passes problem.now.runs.now problem.now.class) (A.hit problem.now.aim.now
            (R.extent problem.now.runs.now)) (E.least ahead.now) }
        requires limit { IfSome problem.now.limit (IsCostToHit (R.passes problem.now.runs.now problem.now.class)
            (A.hit problem.now.aim.now (R.extent problem.now.runs.now)) problem.now.start) }
        requires start { IsTrue (R.passes problem.now.runs.now problem.now.class problem.now.start) }
        requires taken { (floor : ℕ) × IsTaken ALL (R.passes problem.now.runs.now problem.now.class)
            (A.hit problem.now.aim.now (R.extent problem.now.runs.now)) problem.now.start (E.least ahead.now) floor
            frontier.old.nodes frontier.old.waiting self.old.best entry }
        requires opened { self.old.opened ≡ opened_count frontier.old.nodes }
        ensures underway { OnOk result ((floor : ℕ)
            → IsTaken ALL (R.passes problem.now.runs.now problem.now.class) (A.hit problem.now.aim.now
            (R.extent problem.now.runs.now)) problem.now.start (E.least ahead.now) floor
            frontier.old.nodes frontier.old.waiting self.old.best entry
            → IsUnderway ALL (R.passes problem.now.runs.now problem.now.class)
            (A.hit problem.now.aim.now (R.extent problem.now.runs.now)) problem.now.start (E.least ahead.now)
            entry.estimate
            frontier.new.nodes frontier.new.waiting self.new.best) }
        ensures opened { OnOk result (self.new.opened ≡ opened_count frontier.new.nodes) }
        ensures one { OnOk result (self.new.opened ≡ self.old.opened + 1) }
        ensures ticks { OnOk result (ticks.new + self.old.opened ≡ ticks.old + self.new.opened) }
        ensures none { OnErr result (ticks.new ≡ ticks.old) }
    {
        let node = Node {
            opened: true,
            ..*frontier.nodes.at(entry.key)
        };
        frontier.nodes.put(entry.key, node);
        frontier.follow::<R, A, E, ALL>(problem, ahead, &node)?;
        self.best = best_with(problem.runs, problem.aim, self.best, &node);
        self.opened += 1;
        ticks.tick();
        Ok(())
    }
}

/// Searches from the start until no node is left within the cost of the best hit. Where the search is for all, each
/// node within it is opened, and else those alone that are not dominated by another of their cell. The frontier has the
/// nodes then, whatever it had before.
///
/// Each node that is opened is one tick.
#[inline(always)]
pub(crate) fn searched<R: Runs, A: Aim, E: Estimate, L: Ledger, const ALL: bool>(
    frontier: &mut Frontier,
    problem: &Problem<'_, R, A, ALL>,
    ahead: &E,
    ticks: &mut Ticks<L>,
) -> Result<Search, NoMemory>
    requires class { problem.now.class < R.class_count problem.now.runs.now }
    requires start { IsTrue (R.passes problem.now.runs.now problem.now.class problem.now.start) }
    requires limit { IfSome problem.now.limit (IsCostToHit (R.passes problem.now.runs.now problem.now.class)
        (A.hit problem.now.aim.now (R.extent problem.now.runs.now)) problem.now.start) }
    requires aim { A.sound problem.now.aim.now (R.extent problem.now.runs.now) }
    requires ahead { IsConsistent (R.passes problem.now.runs.now problem.now.class) (A.hit problem.now.aim.now
        (R.extent problem.now.runs.now)) (E.least ahead.now) }
    ensures ended { IfOk result (λ search. HasEnded ALL
        (R.passes problem.now.runs.now problem.now.class) (A.hit problem.now.aim.now
        (R.extent problem.now.runs.now)) problem.now.start (E.least ahead.now) frontier.new.nodes search.best) }
    ensures opened { IfOk result (λ search. search.opened ≡ opened_count frontier.new.nodes) }
    ensures ticks { IfOk result (λ search. ticks.new ≡ ticks.old + search.opened) }
    ensures halted { OnErr result ((ticks.new ≡ ticks.old) ⊎ ((nodes : List Node)
        × ((floor : ℕ) × (IsHalted ALL (R.passes problem.now.runs.now problem.now.class)
        (A.hit problem.now.aim.now (R.extent problem.now.runs.now)) problem.now.start (E.least ahead.now) floor nodes
        × (ticks.new ≡ ticks.old + opened_count nodes))))) }
{
    let mut search = Search::new(frontier, ahead, problem.start)?;
    'search: while let Some(entry) = search.next(frontier) {
        search.take::<R, A, E, L, ALL>(frontier, problem, ahead, entry, ticks)?;
    }
    Ok(search)
}
