//! Any-angle waypoints: as few of a walk's as clear segments can join.
ghost use Rattle.std.specs.Prelude.{ℕ, Bool, List, [], ◌∷◌, ◌≡◌, ◌+◌, ◌<◌, ◌≤◌, ◌↔◌, length, map, slice_get, slice_index, Some, IfOk, IsTrue};
ghost use Rattle.nav_types.specs.declared.cells.Cell.{Cell};
ghost use Rattle.nav_types.specs.Cells.{IsInside};
ghost use Rattle.walks.specs.Waypoints.{IsInGrid};
ghost use Rattle.line_smooth.specs.Segments.{IsClear};
ghost use Rattle.line_smooth.specs.Smoothed.{AreCorners, IsSmoothing};
ghost use Rattle.line_smooth.specs.inner.Plans.{AreLegsClear, IsBlocking, TouchesSome, AreHopsFrom, IsBestNext, ArePlanned, AreRising, Follows};

use crate::segments::{blocker, touches};
use nav_types::{Cell, Class, FreeCells, NoMemory};
use std::alloc::Global;
use walks::Waypoints;

/// The most places of a walk's start and waypoints by which one segment of the smoothed walk goes on.
pub const MAX_RISE: usize = 64;

/// The fewest of a walk's waypoints that clear segments join, from the start to the last waypoint. Each segment goes on by
/// at most [`MAX_RISE`] places; among equally few, the later waypoint is taken where two choices first differ.
///
/// The corners must be the waypoints of a legal walk from the start: each of its legs is clear, so that some smoothed walk
/// is always there. It is found from the last place back, as a shortest way through the places.
pub fn smooth<V: FreeCells>(
    alloc: Global,
    view: &V,
    class: Class,
    start: Cell,
    corners: &Waypoints,
) -> Result<Waypoints, NoMemory>
    requires class { class < V.class_count view.now }
    requires corners { AreCorners (V.passes view.now class) start corners.now }
    ensures { IfOk result (IsSmoothing (V.passes view.now class) start corners.now) }
{
    let places = places_of(alloc, start, corners)?;
    let rises = planned_rises(alloc, view, class, places.as_slice())?;
    followed(alloc, places.as_slice(), rises.as_slice())
}

/// The start and the corners as one list.
fn places_of(alloc: Global, start: Cell, corners: &Waypoints) -> Result<Vec<Cell>, NoMemory>
    ensures { IfOk result (λ places. places.items ≡ start ∷ corners.now) }
{
    let mut places = Vec::with_capacity(alloc, corners.len().saturating_add(1))?;
    places.push(start)?;
    places.extend_from_slice(corners.as_slice())?;
    Ok(places)
}

/// For each place but the last, by how many places the first of its smoothed places lies further on.
fn planned_rises<V: FreeCells>(
    alloc: Global,
    view: &V,
    class: Class,
    places: &[Cell],
) -> Result<Vec<u8>, NoMemory>
    requires class { class < V.class_count view.now }
    requires some { 0 < length places.now }
    requires legs { AreLegsClear (V.passes view.now class) places.now }
    ensures { IfOk result (λ rises. ArePlanned (V.passes view.now class) places.now rises.items 0) }
{
    let count = places.len();
    let mut hops = vec![in alloc; 0; count]?;
    let mut rises = vec![in alloc; 0; count]?;
    let mut blocked = None;
    for passed in 1..count {
        let from = count - 1 - passed;
        let next = best_next(view, class, places, hops.as_slice(), from, &mut blocked);
        hops[from] = hops[next] + 1;
        rises[from] = (next - from) as u8;
    }
    Ok(rises)
}

/// The place to which the first rise from a place goes, by the numbers of smoothed places from each place after it.
///
/// Only a candidate with fewer hops than the best so far is looked at, from the last one down.
fn best_next<V: FreeCells>(
    view: &V,
    class: Class,
    places: &[Cell],
    hops: &[usize],
    from: usize,
    blocked: &mut Option<Cell>,
) -> usize
    requires class { class < V.class_count view.now }
    requires from { from + 1 < length places.now }
    requires legs { AreLegsClear (V.passes view.now class) places.now }
    requires hops { AreHopsFrom (V.passes view.now class) places.now hops.now (from + 1) }
    requires blocked { IsBlocking (V.passes view.now class) blocked.old }
    ensures best { IsBestNext (V.passes view.now class) places.now hops.now from result }
    ensures blocked { IsBlocking (V.passes view.now class) blocked.new }
{
    let mut next = from + 1;
    let mut bound = hops[next] + 1;
    let mut at = places.len().min(from + MAX_RISE + 1) - 1;
    'candidates: while at > from + 1 {
        if hops[at] < bound && is_clear(view, class, places[from], places[at], blocked) {
            next = at;
            bound = hops[at];
        }
        at -= 1;
    }
    next
}

/// Whether the segment is clear. What blocked the last segment is tried first, and is remembered.
#[inline(always)]
fn is_clear<V: FreeCells>(
    view: &V,
    class: Class,
    from: Cell,
    to: Cell,
    blocked: &mut Option<Cell>,
) -> bool
    requires class { class < V.class_count view.now }
    requires from { IsInside (V.extent view.now) from }
    requires to { IsInside (V.extent view.now) to }
    requires blocked { IsBlocking (V.passes view.now class) blocked.old }
    ensures clear { IsTrue result ↔ IsClear (V.passes view.now class) from to }
    ensures blocked { IsBlocking (V.passes view.now class) blocked.new }
{
    if is_blocked(from, to, *blocked) {
        return false;
    }
    match blocker(view, class, from, to) {
        Some(cell) => {
            *blocked = Some(cell);
            false
        }
        None => true,
    }
}

/// Whether the remembered cell blocks the segment.
#[inline(always)]
fn is_blocked(from: Cell, to: Cell, blocked: Option<Cell>) -> bool
    requires from { IsInGrid from }
    requires to { IsInGrid to }
    ensures { IsTrue result ↔ TouchesSome from to blocked }
{
    match blocked {
        Some(cell) => touches(from, to, cell),
        None => false,
    }
}

/// The places that the rises lead to from the first, one after another, up to the last.
fn followed(alloc: Global, places: &[Cell], rises: &[u8]) -> Result<Waypoints, NoMemory>
    requires { AreRising (length places.now) rises.now }
    ensures { IfOk result (λ points. (kept : List ℕ) × (Follows (length places.now) rises.now 0 kept
        × (map (λ place. slice_get places.now place) kept ≡ map (λ point. Some point) points))) }
{
    let mut points = Waypoints::new(alloc);
    let mut at = 0;
    'rises: while at + 1 < places.len() {
        at += usize::from(rises[at]);
        points.push(places[at])?;
    }
    Ok(points)
}
