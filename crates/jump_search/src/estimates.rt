//! Estimates of what is ahead of a cell.
ghost use Rattle.std.specs.Prelude.{◌≡◌, ◌^◌, ◌<◌};
ghost use Rattle.jump_search.specs.Estimates.{cost_past, least_costly};

use crate::octile::octile_to;
use crate::rooms::{Disc, TurnedRoom};
use crate::ways_out::{cost_out, cost_to_rim, cost_to_side};
use landmarks::{Landmarks, NumberSpan};
use nav_types::{Cell, Rect};

/// What a walk from a cell to the cells that are looked for costs at least. A search opens the cells first from which, with
/// what has been walked, the least is to be expected, and by a higher estimate it opens fewer.
///
/// Contracts see an estimate as a function of cells. Which ones a search may go by is told by `IsEstimate`.
pub trait Estimate {
    ghost use Rattle.std.specs.Prelude.{ℕ, ◌≡◌, ◌^◌, ◌<◌};
    ghost use Rattle.nav_types.specs.declared.cells.Cell.{Cell};

    ghost least: { Self → Cell → ℕ };

    /// The estimate of a cell, in units of 65536 for a straight step.
    fn at_least(&self, cell: Cell) -> u64
        ensures value { result ≡ least self.now cell }
        ensures most { result < 2 ^ 40 };
}

/// The octile distance to the rectangle of an aim. It is a type of its own, so that a search by it asks for nothing else.
#[derive(Drop)]
pub(crate) struct OctileEstimate {
    pub rect: Rect,
}

impl Estimate for OctileEstimate {
    ghost use Rattle.jump_search.specs.JumpStates.{octile_to};

    ghost least = { λ e. octile_to e.rect };

    #[inline(always)]
    fn at_least(&self, cell: Cell) -> u64 {
        octile_to(&self.rect, cell)
    }
}

/// What tables of landmarks tell of the way to the cells of a span, which lie in a rectangle.
#[derive(Drop)]
pub struct Marked<'a> {
    pub rect: Rect,
    pub tables: &'a Landmarks,
    pub span: NumberSpan,
}

/// The estimates that take more than a few instructions.
#[derive(Drop)]
pub enum CostlyEstimate<'a> {
    /// The octile distance, or the bound that tables of landmarks give where that is greater.
    Past(Marked<'a>),
    /// The way out of a disc in which no cell is looked for.
    OutOfDisc(Disc),
    /// The way out of a turned rectangle in which no cell is looked for.
    OutOfTurned(TurnedRoom),
}

/// The estimates by which searches for a target go. They are one type, so that one search goes by any of them.
#[derive(Drop)]
pub enum TargetEstimate<'a> {
    /// The octile distance to the rectangle of an aim.
    Octile(Rect),
    /// The way out of a rectangle in which no cell is looked for.
    Leaving(Rect),
    /// What else is known of the way.
    Costly(CostlyEstimate<'a>),
}

impl<'a> Estimate for TargetEstimate<'a> {
    ghost use Rattle.jump_search.specs.Estimates.{least_ahead};

    ghost least = { least_ahead };

    #[inline(always)]
    fn at_least(&self, cell: Cell) -> u64 {
        match self {
            TargetEstimate::Octile(rect) => octile_to(rect, cell),
            TargetEstimate::Leaving(rect) => cost_out(rect, cell),
            TargetEstimate::Costly(estimate) => least_costly(estimate, cell),
        }
    }
}

/// What a costly estimate says of a cell. It is a call, so that an octile estimate has the room of a search's innermost loop
/// for itself.
#[inline(never)]
fn least_costly(estimate: &CostlyEstimate<'_>, cell: Cell) -> u64
    ensures value { result ≡ least_costly estimate.now cell }
    ensures most { result < 2 ^ 40 }
{
    match estimate {
        CostlyEstimate::Past(marked) => cost_past(marked, cell),
        CostlyEstimate::OutOfDisc(disc) => cost_to_rim(disc, cell),
        CostlyEstimate::OutOfTurned(room) => cost_to_side(room, cell),
    }
}

/// The octile distance to the rectangle, or the bound by the tables where that is greater.
fn cost_past(marked: &Marked<'_>, cell: Cell) -> u64
    ensures value { result ≡ cost_past marked.now cell }
    ensures most { result < 2 ^ 40 }
{
    let octile = octile_to(&marked.rect, cell);
    octile.max(marked.tables.at_least_to(cell, &marked.span))
}
