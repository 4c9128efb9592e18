//! The plain search, whose walk all others give.
ghost use Rattle.std.specs.Prelude.{ℕ, Bool, List, ◌≡◌, ◌<◌, IsTrue, IfOk};
ghost use Rattle.nav_types.specs.declared.cells.Cell.{Cell};
ghost use Rattle.walks.specs.Chosen.{IsAnswer};
ghost use Rattle.nav_types.specs.Walks.{CanReach};

use crate::distances::Distances;
use crate::found_walk::Found;
use crate::measures::waypoints;
use crate::sweeps::settled;
use nav_types::{Aim, Cell, Class, Cost, NoMemory, View};
use std::alloc::Global;

/// The chosen walk from the start to the first in cell order of the nearest cells that the aim hits, by its end, its
/// cost and its waypoints. The start must be passable, and some hit cell must be joined to it.
///
/// The walk prefers diagonal steps early, as Harabor and Grastien, "Online Graph Pruning for Pathfinding on Grid Maps",
/// AAAI 2011, do; the rule for ties is the chosen walk's own.
pub fn plain_search<V: View, A: Aim>(
    alloc: Global,
    view: &V,
    class: Class,
    start: Cell,
    aim: &A,
) -> Result<Found, NoMemory>
    requires class { class < V.class_count view.now }
    requires start { IsTrue (V.passes view.now class start) }
    requires aim { A.sound aim.now (V.extent view.now) }
    requires reach { CanReach (V.passes view.now class) start (A.hit aim.now (V.extent view.now)) }
    ensures { IfOk result
        (λ found. IsAnswer (V.passes view.now class) start (A.hit aim.now (V.extent view.now)) found.end found.cost.0
        found.waypoints) }
{
    let costs = settled(alloc, view, class, start)?;
    let distances = Distances { start, costs };
    let end = distances.nearest(view, aim);
    let cost = distances.cost(view, end);
    let walk = distances.chosen(alloc, view, class, end)?;
    let waypoints = waypoints(alloc, start, &walk)?;
    Ok(Found {
        end,
        cost: Cost(cost),
        waypoints,
    })
}

/// There is at most one answer to a search.
pub fn one_answer()
    ensures { (passes : Cell → Bool) (start : Cell) (hit : Cell → Bool) (e f : Cell) (c d : ℕ) (xs ys : List Cell)
        → IsAnswer passes start hit e c xs → IsAnswer passes start hit f d ys → (e ≡ f) × ((c ≡ d) × (xs ≡ ys)) }
{}
