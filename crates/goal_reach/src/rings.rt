//! The search for the best cell of a map, by square rings round a rectangle.
ghost use Rattle.std.specs.Prelude.{◌≡◌, ◌≤◌, ◌<◌, ◌↔◌, IsTrue, IfSome, IfNone, Some};
ghost use Rattle.nav_types.specs.declared.cells.Cell.{Cell};
ghost use Rattle.nav_types.specs.declared.limits.TheConstants.{MAX_SIDE};
ghost use Rattle.nav_types.specs.Cells.{IsInside, IsInRect, IsRectInside};
ghost use Rattle.goal_reach.specs.declared.choices.Ranked.{Ranked};
ghost use Rattle.goal_reach.specs.Choices.{IsLeastBy};
ghost use Rattle.goal_reach.specs.inner.Ranking.{IsBest};
ghost use Rattle.goal_reach.specs.inner.Rings.{clipped, widened, IsInRun, IsInBlock, IsBlockInside, IsOnRing, Encloses};

use crate::choices::{Choice, Ranked, better};
use nav_types::{Axis, Cell, Rect, Size, cell_on};

/// The cells of rows, or of columns, that lie side by side: of the lines from `first_line` up to `past_line` those
/// at the places from `from` up to `end`. `past_line` and `end` are the first that no longer belong to it.
#[derive(Drop)]
struct RingBlock {
    axis: Axis,
    first_line: u16,
    past_line: u16,
    from: u16,
    end: u16,
}

/// The cell of least rank, the first in cell order among equals. None exactly where there is no cell to
/// choose from. All of them lie in the map.
///
/// It looks at the core and then at one ring after the other round it, and ends where no cell beyond can be
/// as good as the best so far, or where the map has no cell beyond. Along the sides of a ring it passes over
/// the cells that the choice passes over at once (`next_along`).
pub(crate) fn least_cell<C: Choice>(choice: &C) -> Option<Cell>
    requires sound { C.sound choice.now }
    requires within { (cell : Cell) → C.offered choice.now cell → IsInside (C.extent choice.now) cell }
    ensures least { IfSome result (IsLeastBy (C.rank_of choice.now) (C.offered choice.now)) }
    ensures none { IfNone result ((cell : Cell) → C.offered choice.now cell → ⊥) }
{
    match best_by_rings(choice) {
        Some(best) => Some(best.cell),
        None => None,
    }
}

/// The cell of least rank with its rank.
fn best_by_rings<C: Choice>(choice: &C) -> Option<Ranked>
    requires sound { C.sound choice.now }
    requires within { (cell : Cell) → C.offered choice.now cell → IsInside (C.extent choice.now) cell }
    ensures { IsBest (C.rank_of choice.now) (C.offered choice.now) result }
{
    let size = choice.size();
    let whole = Rect::of_map(size);
    let core = choice.core();
    let mut best = best_in_rect(choice, core);
    for ring in 0..size.w.max(size.h) {
        let inner = widened(core, ring, size);
        if inner == whole || is_below(best, choice.least_beyond(ring)) {
            return best;
        }
        let outer = widened(core, ring + 1, size);
        best = better(best, best_on_ring(choice, inner, outer));
    }
    best
}

/// The part of the map that a rectangle and so many rings round it cover.
fn widened(rect: Rect, rings: u16, size: Size) -> Rect
    requires inside { IsRectInside size rect }
    requires rings { rings ≤ MAX_SIDE }
    ensures inside { IsRectInside size result }
    ensures value { result ≡ clipped size (widened rings rect) }
{
    Rect {
        i0: rect.i0.saturating_sub(rings),
        j0: rect.j0.saturating_sub(rings),
        i1: (rect.i1 + rings).min(size.w - 1),
        j1: (rect.j1 + rings).min(size.h - 1),
    }
}

/// Whether there is a best cell of less rank.
fn is_below(best: Option<Ranked>, rank: u128) -> bool
    ensures { IsTrue result ↔ (found : Ranked) × ((best ≡ Some found) × (found.rank < rank)) }
{
    match best {
        Some(best) => best.rank < rank,
        None => false,
    }
}

/// The best cell of the ring between two rectangles.
fn best_on_ring<C: Choice>(choice: &C, inner: Rect, outer: Rect) -> Option<Ranked>
    requires sound { C.sound choice.now }
    requires inner { IsRectInside (C.extent choice.now) inner }
    requires outer { IsRectInside (C.extent choice.now) outer }
    requires holds { Encloses outer inner }
    ensures { IsBest (C.rank_of choice.now) (λ cell. C.offered choice.now cell × IsOnRing inner outer cell) result }
{
    let south = RingBlock {
        axis: Axis::Row,
        first_line: outer.j0,
        past_line: inner.j0,
        from: outer.i0,
        end: outer.i1 + 1,
    };
    let north = RingBlock {
        axis: Axis::Row,
        first_line: inner.j1 + 1,
        past_line: outer.j1 + 1,
        from: outer.i0,
        end: outer.i1 + 1,
    };
    let west = RingBlock {
        axis: Axis::Column,
        first_line: outer.i0,
        past_line: inner.i0,
        from: inner.j0,
        end: inner.j1 + 1,
    };
    let east = RingBlock {
        axis: Axis::Column,
        first_line: inner.i1 + 1,
        past_line: outer.i1 + 1,
        from: inner.j0,
        end: inner.j1 + 1,
    };
    better(
        better(best_in_block(choice, &south), best_in_block(choice, &north)),
        better(best_in_block(choice, &west), best_in_block(choice, &east)),
    )
}

/// The best cell of a rectangle.
fn best_in_rect<C: Choice>(choice: &C, rect: Rect) -> Option<Ranked>
    requires sound { C.sound choice.now }
    requires inside { IsRectInside (C.extent choice.now) rect }
    ensures { IsBest (C.rank_of choice.now) (λ cell. C.offered choice.now cell × IsInRect rect cell) result }
{
    let block = RingBlock {
        axis: Axis::Row,
        first_line: rect.j0,
        past_line: rect.j1 + 1,
        from: rect.i0,
        end: rect.i1 + 1,
    };
    best_in_block(choice, &block)
}

/// The best cell of a block.
fn best_in_block<C: Choice>(choice: &C, block: &RingBlock) -> Option<Ranked>
    requires sound { C.sound choice.now }
    requires inside { IsBlockInside (C.extent choice.now) block.now }
    ensures { IsBest (C.rank_of choice.now) (λ cell. C.offered choice.now cell × IsInBlock block.now cell) result }
{
    let mut best = None;
    for line in block.first_line..block.past_line {
        best = better(
            best,
            best_in_run(choice, block.axis, line, block.from, block.end),
        );
    }
    best
}

/// The best cell of a line from place `from` up to `end`, without that one. It looks only at stretches that
/// `next_along` leads to.
fn best_in_run<C: Choice>(choice: &C, axis: Axis, line: u16, from: u16, end: u16) -> Option<Ranked>
    requires sound { C.sound choice.now }
    requires places { from ≤ end }
    requires inside { (cell : Cell) → IsInRun axis line from end cell → IsInside (C.extent choice.now) cell }
    ensures { IsBest (C.rank_of choice.now) (λ cell. C.offered choice.now cell × IsInRun axis line from end cell)
        result }
{
    let mut best = None;
    let mut place = from;
    'run: while place < end {
        place = choice.next_along(axis, cell_on(axis, line, place)).min(end);
        if place < end {
            let stretch = choice.best_from(axis, line, place, end);
            best = better(best, stretch.best);
            place = stretch.past;
        }
    }
    best
}
