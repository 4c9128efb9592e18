//! The nodes that a search has met, and those of them that wait.
ghost use Rattle.std.specs.Prelude.{◌≡◌, ◌↔◌, ◌<◌, ◌≤◌, ◌⊎◌, ◌++◌, ◌∷◌, ◌+◌, ◌^◌, [], ℕ, Bool, Some, None, length, slice_get};
ghost use Rattle.std.specs.Prelude.{slice_set, IsTrue, IsFalse, false, IfSome, IfNone, OnOk, IfOk, ◌-◌, ◌/◌};
ghost use Rattle.std.specs.FinMap as map;
ghost use Rattle.nav_types.specs.declared.cells.Cell.{Cell};
ghost use Rattle.nav_types.specs.declared.directions.Dir.{Dir};
ghost use Rattle.nav_types.specs.DirSets.{holds};
ghost use Rattle.jump_scan.specs.Successors.{IsSuccessor};
ghost use Rattle.jump_search.specs.JumpStates.{IsStopOf, octile_between};
ghost use Rattle.jump_search.specs.declared.nodes.Node.{Node};
ghost use Rattle.jump_search.specs.inner.Numbered.{HasState, LacksState, IsAsCheap};
ghost use Rattle.jump_search.specs.inner.Traced.{Moves};
ghost use Rattle.jump_search.specs.inner.Searched.{HasNearer, IsCostToHit, IsKeptRun};
ghost use Rattle.nav_types.specs.declared.limits.TheConstants.{DIAGONAL_COST};
ghost use Rattle.jump_search.specs.inner.Underway.{steps_over, estimate_of, IsQueued, Settles, Notes};
ghost use Rattle.jump_search.specs.inner.Underway.{IsFollowable, Follows, Drops};

use crate::estimates::Estimate;
use crate::known_successors::KnownSuccessors;
use crate::nodes::{Lookup, Node, Nodes};
use crate::problems::Problem;
use crate::states::JumpState;
use jump_scan::{Runs, successors};
use nav_types::limits::DIAGONAL_COST;
use nav_types::{Aim, Cell, Class, Dir, DirSet, NoMemory};
use open_heap::OpenHeap;
use std::alloc::Global;

/// The nodes that a search has met, and the open list of those that wait. The successors that it knows stay from one search
/// to the next.
#[derive(Drop)]
pub(crate) struct Frontier {
    pub nodes: Nodes,
    pub waiting: OpenHeap,
    successors: KnownSuccessors,
}

/// How many steps a run in the direction from one cell to the other has.
#[inline(always)]
fn steps_along(dir: Dir, from: Cell, to: Cell) -> u16
    requires { (count : ℕ) × Moves dir count from to }
    ensures { result ≡ steps_over from to }
{
    match dir {
        Dir::N | Dir::NE | Dir::NW => to.j - from.j,
        Dir::S | Dir::SE | Dir::SW => from.j - to.j,
        Dir::E => to.i - from.i,
        Dir::W => from.i - to.i,
    }
}

/// The node to which a run leads.
#[inline(always)]
fn landed(node: &Node, dir: Dir, stop: Cell) -> Node
    requires low { node.now.cost < 2 ^ 62 }
    requires moves { (count : ℕ) × Moves dir count node.now.state.cell stop }
    ensures cell { result.state.cell ≡ stop }
    ensures arrived { result.state.arrived ≡ Some dir }
    ensures cost { result.cost ≡ node.now.cost + octile_between node.now.state.cell stop }
    ensures run { result.run ≡ steps_over node.now.state.cell stop }
    ensures opened { IsFalse result.opened }
{
    let run = steps_along(dir, node.state.cell, stop);
    Node {
        state: JumpState {
            cell: stop,
            arrived: Some(dir),
        },
        cost: node.cost + run as u64 * dir.cost(),
        run,
        opened: false,
    }
}

/// The one of two last runs of equal cost that is kept: the longer one where they are straight, else the shorter one.
fn kept_run(dir: Dir, one: u16, other: u16) -> u16
    ensures one { IsKeptRun (Some dir) result one }
    ensures other { IsKeptRun (Some dir) result other }
    ensures either { (result ≡ one) ⊎ (result ≡ other) }
{
    if dir.is_straight() {
        one.max(other)
    } else {
        one.min(other)
    }
}

/// The cost below which a node of a cell lets a jump to the cell be left. None is below it where the search is for all.
fn bound_of(all: bool, cost: u64) -> u64
    ensures all { IsTrue all → result ≡ 0 }
    ensures cost { IsFalse all → result ≡ cost }
{
    if all { 0 } else { cost }
}

/// How many diagonal steps from a node of the cost a walk to a hit cell of the cost `limit` leaves.
fn steps_within(limit: u32, cost: u64) -> u16
    ensures { result ≡ (limit - cost) / DIAGONAL_COST }
{
    ((limit as u64).saturating_sub(cost) / DIAGONAL_COST) as u16
}

/// The stop of the run from the node in the direction. None where it has none, or where a hit is known to be nearer than the
/// stop.
#[inline(always)]
fn stop_of<R: Runs, A: Aim, const ALL: bool>(
    problem: &Problem<'_, R, A, ALL>,
    node: &Node,
    dir: Dir,
) -> Option<Cell>
    requires class { problem.now.class < R.class_count problem.now.runs.now }
    requires start { IsTrue (R.passes problem.now.runs.now problem.now.class node.now.state.cell) }
    requires aim { A.sound problem.now.aim.now (R.extent problem.now.runs.now) }
    requires limit { IfSome problem.now.limit (IsCostToHit (R.passes problem.now.runs.now problem.now.class)
        (A.hit problem.now.aim.now (R.extent problem.now.runs.now)) problem.now.start) }
    ensures some { IfSome result (IsStopOf (R.passes problem.now.runs.now problem.now.class)
        (A.hit problem.now.aim.now (R.extent problem.now.runs.now)) dir node.now.state.cell) }
    ensures none { IfNone result ((stop : Cell) → IsStopOf (R.passes problem.now.runs.now problem.now.class)
        (A.hit problem.now.aim.now (R.extent problem.now.runs.now)) dir node.now.state.cell stop
        → HasNearer (R.passes problem.now.runs.now problem.now.class)
        (A.hit problem.now.aim.now (R.extent problem.now.runs.now)) problem.now.start
        (node.now.cost + octile_between node.now.state.cell stop)) }
{
    let from = node.state.cell;
    if dir.is_straight() {
        return problem.runs.straight(problem.class, from, dir, problem.aim);
    }
    let Some(limit) = problem.limit else {
        return problem.runs.diagonal(problem.class, from, dir, problem.aim);
    };
    let most = steps_within(limit, node.cost);
    problem
        .runs
        .diagonal_within(problem.class, from, dir, problem.aim, most)
}

/// The directions in which the search goes on from the state. The cells beside its cell are read once, by a few words of
/// the map.
#[inline(always)]
fn successors_of<R: Runs>(
    known: &mut KnownSuccessors,
    runs: &R,
    class: Class,
    state: JumpState,
) -> DirSet
    requires class { class < R.class_count runs.now }
    requires cell { IsTrue (R.passes runs.now class state.cell) }
    ensures { (dir : Dir) → IsTrue (holds result dir) ↔ IsSuccessor (R.passes runs.now class) state.cell state.arrived
        dir }
{
    match state.arrived {
        Some(arrived) => known.of(runs.beside(class, state.cell), arrived),
        None => successors(runs, class, state.cell, None),
    }
}

/// Whether the node is of the cell and costs more.
fn is_dominated(node: &Node, cell: Cell, cost: u64) -> bool
    ensures { IsTrue result → (node.now.state.cell ≡ cell) × (cost < node.now.cost) }
{
    cost < node.cost && node.state.cell.j == cell.j && node.state.cell.i == cell.i
}

/// What jumps by the node to a hit cell cost at least: nodes of a lesser estimate are opened first.
fn estimate_of<E: Estimate>(ahead: &E, node: &Node) -> u64
    requires { node.now.cost < 2 ^ 63 }
    ensures { result ≡ estimate_of (E.least ahead.now) node.now }
{
    node.cost + ahead.at_least(node.state.cell)
}

impl Frontier {
    /// No node.
    pub(crate) fn new(alloc: Global) -> Result<Frontier, NoMemory>
        ensures nodes { IfOk result (λ frontier. frontier.nodes ≡ []) }
        ensures waiting { IfOk result (λ frontier. frontier.waiting ≡ map.empty) }
    {
        Ok(Frontier {
            nodes: Nodes::new(alloc)?,
            waiting: OpenHeap::new(alloc)?,
            successors: KnownSuccessors::new(alloc)?,
        })
    }

    /// Takes out every node. It takes no memory, and keeps the room that there is for more.
    pub(crate) fn clear(&mut self)
        ensures nodes { self.new.nodes ≡ [] }
        ensures waiting { self.new.waiting ≡ map.empty }
    {
        self.nodes.clear();
        self.waiting.clear();
    }

    /// Adds a node whose state has none, and lets it wait. Gives its number.
    #[inline(always)]
    pub(crate) fn insert_node<E: Estimate>(
        &mut self,
        ahead: &E,
        node: Node,
    ) -> Result<u32, NoMemory>
        requires lacks { LacksState self.old.nodes node.state }
        requires waits { map.get self.old.waiting (length self.old.nodes) ≡ None }
        requires low { node.cost < 2 ^ 63 }
        ensures nodes { OnOk result (self.new.nodes ≡ self.old.nodes ++ node ∷ []) }
        ensures waiting { OnOk result (self.new.waiting ≡ map.insert self.old.waiting (length self.old.nodes)
            (estimate_of (E.least ahead.now) node)) }
        ensures number { IfOk result (λ number. number ≡ length self.old.nodes) }
        ensures few { OnOk result (length self.new.nodes ≤ 2 ^ 32) }
    {
        let number = self.nodes.add(node)?;
        self.waiting.push(number, estimate_of(ahead, &node))?;
        Ok(number)
    }

    /// Takes the node of the number out of the open list where it is of the cell and costs more than another node there.
    #[inline(always)]
    fn prune_where_dominated(&mut self, number: u32, cell: Cell, cost: u64)
        requires inside { number < length self.old.nodes }
        requires cheap { IsAsCheap self.old.nodes cell cost }
        ensures nodes { self.new.nodes ≡ self.old.nodes }
        ensures waiting { Drops false self.old.nodes self.old.waiting self.new.waiting }
    {
        if !is_dominated(self.nodes.at(number), cell, cost) {
            return;
        }
        self.waiting.remove(number);
    }

    /// Takes the node before the number `end`, and those that are linked from there, out of the open list where they are of
    /// the cell and cost more than another node there.
    fn prune_dominated(&mut self, end: u32, cell: Cell, cost: u64)
        requires inside { end ≤ length self.old.nodes }
        requires cheap { IsAsCheap self.old.nodes cell cost }
        ensures nodes { self.new.nodes ≡ self.old.nodes }
        ensures waiting { Drops false self.old.nodes self.old.waiting self.new.waiting }
    {
        let mut after = end;
        'walk: while after > 0 {
            let number = after - 1;
            self.prune_where_dominated(number, cell, cost);
            after = self.nodes.before(number);
        }
    }

    /// Adds a node whose state has none, and lets it wait. Where the search is not for all, nodes of its cell that cost more
    /// no longer do.
    #[inline(never)]
    fn insert_and_prune<E: Estimate, const ALL: bool>(
        &mut self,
        ahead: &E,
        node: Node,
    ) -> Result<(), NoMemory>
        requires lacks { LacksState self.old.nodes node.state }
        requires waits { map.get self.old.waiting (length self.old.nodes) ≡ None }
        requires low { node.cost < 2 ^ 63 }
        ensures nodes { OnOk result (self.new.nodes ≡ self.old.nodes ++ node ∷ []) }
        ensures waiting { OnOk result (Drops ALL self.new.nodes
            (map.insert self.old.waiting (length self.old.nodes) (estimate_of (E.least ahead.now) node)) self.new.waiting) }
        ensures few { OnOk result (length self.new.nodes ≤ 2 ^ 32) }
    {
        let number = self.insert_node(ahead, node)?;
        if !ALL {
            let end = self.nodes.before(number);
            self.prune_dominated(end, node.state.cell, node.cost);
        }
        Ok(())
    }

    /// Takes those nodes of the cell out of the open list that cost more than another of it. One of them has this cost.
    fn keep_cheapest(&mut self, cell: Cell, cost: u64)
        requires { IsAsCheap self.old.nodes cell cost }
        ensures nodes { self.new.nodes ≡ self.old.nodes }
        ensures waiting { Drops false self.old.nodes self.old.waiting self.new.waiting }
    {
        let end = self.nodes.last(cell);
        let least = self.nodes.least(cell, cost);
        self.prune_dominated(end, cell, least);
    }

    /// Gives a node a cost that is less, and lets it wait.
    fn lower<E: Estimate>(&mut self, ahead: &E, number: u32, node: Node) -> Result<(), NoMemory>
        requires same { HasState self.old.nodes node.state number }
        requires waits { IfSome (map.get self.old.waiting number) (λ known. estimate_of (E.least ahead.now) node ≤ known) }
        requires low { node.cost < 2 ^ 63 }
        ensures nodes { OnOk result (self.new.nodes ≡ slice_set self.old.nodes number node) }
        ensures waiting { OnOk result (self.new.waiting ≡ map.insert self.old.waiting number
            (estimate_of (E.least ahead.now) node)) }
    {
        self.nodes.put(number, node);
        let estimate = estimate_of(ahead, &node);
        match self.waiting.get(number) {
            Some(_) => {
                self.waiting.lower(number, estimate)?;
                Ok(())
            }
            None => {
                self.waiting.push(number, estimate)?;
                Ok(())
            }
        }
    }

    /// Gives a node a cost that is less, and lets it wait. Where the search is not for all, nodes of its cell that cost more
    /// than another no longer do.
    fn decrease_and_prune<E: Estimate>(
        &mut self,
        ahead: &E,
        all: bool,
        number: u32,
        node: Node,
    ) -> Result<(), NoMemory>
        requires same { HasState self.old.nodes node.state number }
        requires waits { IfSome (map.get self.old.waiting number) (λ known. estimate_of (E.least ahead.now) node ≤ known) }
        requires low { node.cost < 2 ^ 63 }
        ensures nodes { OnOk result (self.new.nodes ≡ slice_set self.old.nodes number node) }
        ensures waiting { OnOk result (Drops all self.new.nodes
            (map.insert self.old.waiting number (estimate_of (E.least ahead.now) node)) self.new.waiting) }
    {
        self.lower(ahead, number, node)?;
        if !all {
            self.keep_cheapest(node.state.cell, node.cost);
        }
        Ok(())
    }

    /// Notes that a jump leads to the node's state, which the node of the number has, at its cost and with its last run.
    fn relax<E: Estimate>(
        &mut self,
        ahead: &E,
        dir: Dir,
        all: bool,
        number: u32,
        node: Node,
    ) -> Result<(), NoMemory>
        requires has { HasState self.old.nodes node.state number }
        requires arrived { node.state.arrived ≡ Some dir }
        requires waiting { IsFalse node.opened }
        requires low { node.cost < 2 ^ 63 }
        requires queued { (all : Bool) × ((floor : ℕ)
            × (IsQueued all (E.least ahead.now) floor self.old.nodes self.old.waiting × (floor ≤ estimate_of (E.least ahead.now) node))) }
        ensures { OnOk result (Settles all (E.least ahead.now) node self.old.nodes self.new.nodes self.old.waiting
            self.new.waiting) }
    {
        let known = *self.nodes.at(number);
        if node.cost > known.cost {
            return Ok(());
        }
        if node.cost == known.cost {
            let run = kept_run(dir, known.run, node.run);
            self.nodes.put(number, Node { run, ..known });
            return Ok(());
        }
        self.decrease_and_prune(ahead, all, number, node)?;
        Ok(())
    }

    /// Notes that a jump leads to the node's state at its cost and with its last run. Where the search is not for all,
    /// the jump is left if a node of its cell that costs less is found before that of the state.
    #[inline(always)]
    fn offer<E: Estimate, const ALL: bool>(
        &mut self,
        ahead: &E,
        dir: Dir,
        node: Node,
    ) -> Result<(), NoMemory>
        requires arrived { node.state.arrived ≡ Some dir }
        requires waiting { IsFalse node.opened }
        requires low { node.cost < 2 ^ 63 }
        requires queued { (all : Bool) × ((floor : ℕ)
            × (IsQueued all (E.least ahead.now) floor self.old.nodes self.old.waiting × (floor ≤ estimate_of (E.least ahead.now) node))) }
        ensures { OnOk result (Notes ALL (E.least ahead.now) node self.old.nodes self.new.nodes self.old.waiting
            self.new.waiting) }
    {
        match self.nodes.look_up(node.state, bound_of(ALL, node.cost)) {
            Lookup::Dominated => Ok(()),
            Lookup::Known(number) => {
                self.relax(ahead, dir, ALL, number, node)?;
                Ok(())
            }
            Lookup::New => {
                self.insert_and_prune::<E, ALL>(ahead, node)?;
                Ok(())
            }
        }
    }

    /// Follows the jump from the node in the direction, where that is one of the set and its run stops. A jump may be left
    /// where a hit is known to be nearer, and, where the search is not for all, one to a state that is dominated by a node of
    /// its cell.
    #[inline(always)]
    fn follow_along<R: Runs, A: Aim, E: Estimate, const ALL: bool>(
        &mut self,
        problem: &Problem<'_, R, A, ALL>,
        ahead: &E,
        node: &Node,
        dirs: DirSet,
        dir: Dir,
    ) -> Result<(), NoMemory>
        requires class { problem.now.class < R.class_count problem.now.runs.now }
        requires cell { IsTrue (R.passes problem.now.runs.now problem.now.class node.now.state.cell) }
        requires successors { IsTrue (holds dirs dir) ↔ IsSuccessor (R.passes problem.now.runs.now problem.now.class)
            node.now.state.cell
            node.now.state.arrived dir }
        requires aim { A.sound problem.now.aim.now (R.extent problem.now.runs.now) }
        requires limit { IfSome problem.now.limit (IsCostToHit (R.passes problem.now.runs.now problem.now.class)
            (A.hit problem.now.aim.now (R.extent problem.now.runs.now)) problem.now.start) }
        requires followable { IsFollowable ALL (R.passes problem.now.runs.now problem.now.class)
            (A.hit problem.now.aim.now (R.extent problem.now.runs.now)) (E.least ahead.now)
            node.now.state node.now.cost self.old.nodes self.old.waiting }
        ensures follows { OnOk result (Follows ALL (R.passes problem.now.runs.now problem.now.class)
            (A.hit problem.now.aim.now (R.extent problem.now.runs.now)) problem.now.start (E.least ahead.now)
            node.now.state node.now.cost
            (λ other. other ≡ dir) self.old.nodes self.new.nodes self.old.waiting self.new.waiting) }
        ensures followable { OnOk result (IsFollowable ALL (R.passes problem.now.runs.now problem.now.class)
            (A.hit problem.now.aim.now (R.extent problem.now.runs.now))
            (E.least ahead.now) node.now.state node.now.cost self.new.nodes self.new.waiting) }
    {
        if !dirs.has(dir) {
            return Ok(());
        }
        let Some(stop) = stop_of(problem, node, dir) else {
            return Ok(());
        };
        let next = landed(node, dir, stop);
        self.offer::<E, ALL>(ahead, dir, next)?;
        Ok(())
    }

    /// Follows each jump from the node, or leaves it, where a hit is known to be nearer, or where the search is not for all
    /// and the jump leads to a state that is dominated by a node of its cell.
    pub(crate) fn follow<R: Runs, A: Aim, E: Estimate, const ALL: bool>(
        &mut self,
        problem: &Problem<'_, R, A, ALL>,
        ahead: &E,
        node: &Node,
    ) -> Result<(), NoMemory>
        requires class { problem.now.class < R.class_count problem.now.runs.now }
        requires cell { IsTrue (R.passes problem.now.runs.now problem.now.class node.now.state.cell) }
        requires aim { A.sound problem.now.aim.now (R.extent problem.now.runs.now) }
        requires limit { IfSome problem.now.limit (IsCostToHit (R.passes problem.now.runs.now problem.now.class)
            (A.hit problem.now.aim.now (R.extent problem.now.runs.now)) problem.now.start) }
        requires followable { IsFollowable ALL (R.passes problem.now.runs.now problem.now.class)
            (A.hit problem.now.aim.now (R.extent problem.now.runs.now)) (E.least ahead.now)
            node.now.state node.now.cost self.old.nodes self.old.waiting }
        ensures { OnOk result (Follows ALL (R.passes problem.now.runs.now problem.now.class)
            (A.hit problem.now.aim.now (R.extent problem.now.runs.now)) problem.now.start (E.least ahead.now)
            node.now.state node.now.cost
            (λ other. Unit {0}) self.old.nodes self.new.nodes self.old.waiting self.new.waiting) }
    {
        let dirs = successors_of(
            &mut self.successors,
            problem.runs,
            problem.class,
            node.state,
        );
        self.follow_along(problem, ahead, node, dirs, Dir::N)?;
        self.follow_along(problem, ahead, node, dirs, Dir::E)?;
        self.follow_along(problem, ahead, node, dirs, Dir::S)?;
        self.follow_along(problem, ahead, node, dirs, Dir::W)?;
        self.follow_along(problem, ahead, node, dirs, Dir::NE)?;
        self.follow_along(problem, ahead, node, dirs, Dir::SE)?;
        self.follow_along(problem, ahead, node, dirs, Dir::SW)?;
        self.follow_along(problem, ahead, node, dirs, Dir::NW)?;
        Ok(())
    }
}
