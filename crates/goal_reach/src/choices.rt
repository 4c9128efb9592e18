//! The choice of one cell: the cell of least rank, the first in cell order among equals.
ghost use Rattle.std.specs.Prelude.{◌≡◌, ◌⊎◌};
ghost use Rattle.goal_reach.specs.inner.Ranking.{IsPreferred, IsNoWorse};

use nav_types::{Axis, Cell, Rect, Size};

/// Cells of a map to choose from, a rank for each of them, and where to look first.
pub(crate) trait Choice {
    ghost use Rattle.std.specs.Prelude.{ℕ, ◌≡◌, ◌<◌, ◌≤◌};
    ghost use Rattle.nav_types.specs.declared.cells.Cell.{Cell};
    ghost use Rattle.nav_types.specs.declared.cells.Rect.{Rect};
    ghost use Rattle.nav_types.specs.declared.cells.Size.{Size};
    ghost use Rattle.nav_types.specs.declared.limits.TheConstants.{MAX_SIDE};
    ghost use Rattle.nav_types.specs.Cells.{IsInside, IsInRect, IsRectInside};
    ghost use Rattle.nav_types.specs.Lines.{place_on, line_on, cell_on, side_along};
    ghost use Rattle.goal_reach.specs.inner.Ranking.{IsBest};
    ghost use Rattle.goal_reach.specs.inner.Rings.{widened, IsInRun};

    ghost extent: { Self → Size };

    // What the choice rests on holds.
    ghost sound: { Self → Type 0 };

    // The cells to choose from.
    ghost offered: { Self → Cell → Type 0 };

    // The cells that a line is looked at from, which may be such.
    ghost free: { Self → Cell → Type 0 };

    ghost rank_of: { Self → Cell → ℕ };

    // The rectangle that rings are laid round.
    ghost core_of: { Self → Rect };

    /// The size of the map.
    fn size(&self) -> Size
        ensures { result ≡ extent self.now };

    /// The rectangle of the map that is looked at first; the search goes on by rings round it.
    fn core(&self) -> Rect
        requires { sound self.now }
        ensures same { result ≡ core_of self.now }
        ensures inside { IsRectInside (extent self.now) result };

    /// The place on the cell's line from which to look on: from this cell up to it no cell of the line is one to
    /// choose from. There is a free cell, unless the line has ended.
    fn next_along(&self, axis: Axis, cell: Cell) -> u16
        requires sound { sound self.now }
        requires inside { IsInside (extent self.now) cell }
        ensures reached { place_on axis cell ≤ result }
        ensures none { (k : ℕ) → place_on axis cell ≤ k → k < result
            → offered self.now (cell_on axis (line_on axis cell) k) → ⊥ }
        ensures free { result < side_along axis (extent self.now)
            → free self.now (cell_on axis (line_on axis cell) result) };

    /// The best cell of a stretch of the line, which begins with the free cell at place `from` and ends before `end`.
    fn best_from(&self, axis: Axis, line: u16, from: u16, end: u16) -> RowStretch
        requires sound { sound self.now }
        requires inside { (cell : Cell) → IsInRun axis line from end cell → IsInside (extent self.now) cell }
        requires places { from < end }
        requires free { free self.now (cell_on axis line from) }
        ensures begun { from < result.past }
        ensures within { result.past ≤ end }
        ensures best { IsBest (rank_of self.now)
            (λ cell. offered self.now cell × IsInRun axis line from result.past cell) result.best };

    /// A rank that no cell of the map is below which lies beyond so many rings round the core.
    fn least_beyond(&self, rings: u16) -> u128
        requires sound { sound self.now }
        requires rings { rings ≤ MAX_SIDE }
        ensures { (cell : Cell) → IsInside (extent self.now) cell
            → (IsInRect (widened rings (core_of self.now)) cell → ⊥) → result ≤ rank_of self.now cell };
}

/// A cell and its rank.
#[derive(Clone, Copy)]
pub(crate) struct Ranked {
    pub cell: Cell,
    pub rank: u128,
}

/// The best cell of a stretch of a line, and the first place past the stretch.
#[derive(Clone, Copy)]
pub(crate) struct RowStretch {
    pub best: Option<Ranked>,
    pub past: u16,
}

/// The one of two best cells that is preferred; None where there is neither.
pub(crate) fn better(first: Option<Ranked>, second: Option<Ranked>) -> Option<Ranked>
    ensures one { (result ≡ first) ⊎ (result ≡ second) }
    ensures first { IsNoWorse result first }
    ensures second { IsNoWorse result second }
{
    match (first, second) {
        (Some(best), Some(next)) => Some(preferred(best, next)),
        (best, None) => best,
        (None, next) => next,
    }
}

/// The one of the two cells that is preferred.
pub(crate) fn preferred(first: Ranked, second: Ranked) -> Ranked
    ensures one { (result ≡ first) ⊎ (result ≡ second) }
    ensures first { IsPreferred result first }
    ensures second { IsPreferred result second }
{
    let is_second = second.rank < first.rank
        || (second.rank == first.rank && second.cell < first.cell);
    if is_second { second } else { first }
}
