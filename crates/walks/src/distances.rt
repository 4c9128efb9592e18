//! What the distances from a start say: the nearest cell that is hit, and the chosen walk to a cell.

ghost use Rattle.std.specs.Prelude.{◌≡◌, ◌≢◌, ◌<◌, ◌≤◌, IsTrue, IfOk, IfSome, IfNone, reverse};
ghost use Rattle.nav_types.specs.declared.cells.Cell.{Cell};
ghost use Rattle.nav_types.specs.Cells.{IsInside, IsNotAfter};
ghost use Rattle.walks.specs.Chosen.{Enters, preference, IsFirstIn, CanGoStraight, IsPicked, IsChosenBack, IsChosen};
ghost use Rattle.walks.specs.inner.Tables.{entry, CoversMap, HasDistances, IsReachedCell, Arrives};

use crate::found_walk::Walk;
use crate::places::{cell_at_place, cell_count};
use crate::sweeps::{UNREACHED, cost_at};
use nav_types::{Aim, Cell, Class, Dir, NoMemory, View, step};
use std::alloc::Global;

/// The distances of all cells from a start, row by row.
#[derive(Drop)]
pub struct Distances {
    pub start: Cell,
    pub costs: Vec<u64>,
}

/// An arrival at a cell: the direction of the step and the cell before it.
#[derive(Drop)]
pub struct Arrival {
    pub dir: Dir,
    pub before: Cell,
}

/// Whether the aim hits the cell.
pub fn is_hit<V: View, A: Aim>(view: &V, aim: &A, cell: Cell) -> bool
    requires sound { A.sound aim.now (V.extent view.now) }
    requires inside { IsInside (V.extent view.now) cell }
    ensures { result ≡ A.hit aim.now (V.extent view.now) cell }
{
    aim.hits(view.size(), cell)
}

impl Distances {
    /// The distance of a cell from the start.
    pub fn cost<V: View>(&self, view: &V, cell: Cell) -> u64
        requires covers { CoversMap (V.extent view.now) self.now.costs.items }
        requires inside { IsInside (V.extent view.now) cell }
        ensures { result ≡ entry (V.extent view.now) self.now.costs.items cell }
    {
        cost_at(view, &self.costs, cell)
    }

    /// The first in cell order of the nearest cells that the aim hits.
    pub fn nearest<V: View, A: Aim>(&self, view: &V, aim: &A) -> Cell
        requires covers { CoversMap (V.extent view.now) self.now.costs.items }
        requires sound { A.sound aim.now (V.extent view.now) }
        requires some { (cell : Cell)
            × (IsTrue (A.hit aim.now (V.extent view.now) cell)
            × IsReachedCell (V.extent view.now) self.now.costs.items cell) }
        ensures reached { IsReachedCell (V.extent view.now) self.now.costs.items result }
        ensures hit { IsTrue (A.hit aim.now (V.extent view.now) result) }
        ensures nearest { (target : Cell) → IsInside (V.extent view.now) target
            → IsTrue (A.hit aim.now (V.extent view.now) target)
            → entry (V.extent view.now) self.now.costs.items result
            ≤ entry (V.extent view.now) self.now.costs.items target }
        ensures first { (target : Cell) → IsInside (V.extent view.now) target
            → IsTrue (A.hit aim.now (V.extent view.now) target)
            → entry (V.extent view.now) self.now.costs.items target
            ≡ entry (V.extent view.now) self.now.costs.items result → IsNotAfter result target }
    {
        // places stand in cell order, so a later cell counts only where it is nearer
        let mut least = UNREACHED;
        let mut best = 0;
        for place in 0..cell_count(view) {
            let cost = self.costs[place];
            let nearer = cost < least && is_hit(view, aim, cell_at_place(view, place));
            if nearer {
                least = cost;
                best = place;
            }
        }
        cell_at_place(view, best)
    }

    /// The arrival at the cell in the direction. None exactly where no walk of least cost enters the cell so.
    fn arrival<V: View>(&self, view: &V, class: Class, cell: Cell, dir: Dir) -> Option<Arrival>
        requires class { class < V.class_count view.now }
        requires exact { HasDistances (V.passes view.now class) self.now.start (V.extent view.now)
            self.now.costs.items }
        requires reached { IsReachedCell (V.extent view.now) self.now.costs.items cell }
        ensures dir { IfSome result (λ arrival. arrival.dir ≡ dir) }
        ensures some { IfSome result
            (λ arrival. Arrives (V.passes view.now class) self.now.start (V.extent view.now) self.now.costs.items cell
            arrival.dir arrival.before) }
        ensures none { IfNone result (Enters (V.passes view.now class) self.now.start cell dir → ⊥) }
    {
        let Some(before) = step(view, class, cell, dir.opposite()) else {
            return None;
        };
        if self.cost(view, before) + dir.cost() == self.cost(view, cell) {
            Some(Arrival { dir, before })
        } else {
            None
        }
    }

    /// The arrival in the direction of the straight step that follows. None exactly where that step can't go straight.
    fn straight_on<V: View>(
        &self,
        view: &V,
        class: Class,
        cell: Cell,
        next: Option<Dir>,
    ) -> Option<Arrival>
        requires class { class < V.class_count view.now }
        requires exact { HasDistances (V.passes view.now class) self.now.start (V.extent view.now)
            self.now.costs.items }
        requires reached { IsReachedCell (V.extent view.now) self.now.costs.items cell }
        ensures dir { IfSome result (λ arrival. next ≡ Some arrival.dir) }
        ensures straight { IfSome result
            (λ arrival. CanGoStraight (Enters (V.passes view.now class) self.now.start cell) next) }
        ensures some { IfSome result
            (λ arrival. Arrives (V.passes view.now class) self.now.start (V.extent view.now) self.now.costs.items cell
            arrival.dir arrival.before) }
        ensures none { IfNone result (CanGoStraight (Enters (V.passes view.now class) self.now.start cell) next → ⊥) }
    {
        let Some(dir) = next else {
            return None;
        };
        if dir.is_straight() {
            self.arrival(view, class, cell, dir)
        } else {
            None
        }
    }

    /// The arrival in the direction that is preferred.
    fn preferred<V: View>(&self, view: &V, class: Class, cell: Cell) -> Arrival
        requires class { class < V.class_count view.now }
        requires exact { HasDistances (V.passes view.now class) self.now.start (V.extent view.now)
            self.now.costs.items }
        requires reached { IsReachedCell (V.extent view.now) self.now.costs.items cell }
        requires away { self.now.start ≢ cell }
        ensures first { IsFirstIn (Enters (V.passes view.now class) self.now.start cell) preference result.dir }
        ensures arrives { Arrives (V.passes view.now class) self.now.start (V.extent view.now) self.now.costs.items cell
            result.dir result.before }
    {
        for dir in Dir::ALL {
            if let Some(arrival) = self.arrival(view, class, cell, dir) {
                return arrival;
            }
        }
        unreachable!()
    }

    /// The arrival of the chosen walk, by the step that follows: straight on where it can, else as is preferred.
    fn picked<V: View>(&self, view: &V, class: Class, cell: Cell, next: Option<Dir>) -> Arrival
        requires class { class < V.class_count view.now }
        requires exact { HasDistances (V.passes view.now class) self.now.start (V.extent view.now)
            self.now.costs.items }
        requires reached { IsReachedCell (V.extent view.now) self.now.costs.items cell }
        requires away { self.now.start ≢ cell }
        ensures picked { IsPicked (Enters (V.passes view.now class) self.now.start cell) next result.dir }
        ensures arrives { Arrives (V.passes view.now class) self.now.start (V.extent view.now) self.now.costs.items cell
            result.dir result.before }
    {
        match self.straight_on(view, class, cell, next) {
            Some(arrival) => arrival,
            None => self.preferred(view, class, cell),
        }
    }

    /// The chosen walk to a cell, from its last step back to the start.
    fn trace_back<V: View>(
        &self,
        alloc: Global,
        view: &V,
        class: Class,
        end: Cell,
    ) -> Result<Walk, NoMemory>
        requires class { class < V.class_count view.now }
        requires exact { HasDistances (V.passes view.now class) self.now.start (V.extent view.now)
            self.now.costs.items }
        requires reached { IsReachedCell (V.extent view.now) self.now.costs.items end }
        ensures { IfOk result (λ back. IsChosenBack (V.passes view.now class) self.now.start None back end) }
    {
        let mut back = Walk::new(alloc);
        let mut cell = end;
        let mut next = None;
        'steps: while cell != self.start {
            let arrival = self.picked(view, class, cell, next);
            back.push(arrival.dir)?;
            next = Some(arrival.dir);
            cell = arrival.before;
        }
        Ok(back)
    }

    /// The chosen walk from the start to a cell.
    pub fn chosen<V: View>(
        &self,
        alloc: Global,
        view: &V,
        class: Class,
        end: Cell,
    ) -> Result<Walk, NoMemory>
        requires class { class < V.class_count view.now }
        requires exact { HasDistances (V.passes view.now class) self.now.start (V.extent view.now)
            self.now.costs.items }
        requires reached { IsReachedCell (V.extent view.now) self.now.costs.items end }
        ensures { IfOk result (λ walk. IsChosen (V.passes view.now class) self.now.start walk end) }
    {
        let back = self.trace_back(alloc, view, class, end)?;
        let walk = reversed(alloc, &back)?;
        Ok(walk)
    }
}

/// The directions of a walk from the last to the first.
pub fn reversed(alloc: Global, walk: &Walk) -> Result<Walk, NoMemory>
    ensures { IfOk result (λ turned. turned ≡ reverse walk.now) }
{
    let dirs: Vec<Dir> = walk.as_slice().iter().rev().copied().collect(alloc)?;
    let mut turned = Walk::new(alloc);
    turned.extend(dirs.as_slice())?;
    Ok(turned)
}
