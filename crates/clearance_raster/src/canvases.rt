//! What a raster sets bits of: a whole grid, or a patch of one.
use navcell_grid::{Grid, Patch};

/// A rectangle of cells, with a number of 16 bits for each of them.
pub trait Canvas {
    ghost use Rattle.std.specs.Prelude.{ℕ, ◌≡◌, ◌≤◌, bit_or};
    ghost use Rattle.nav_types.specs.declared.cells.Cell.{Cell};
    ghost use Rattle.nav_types.specs.declared.cells.Rect.{Rect};
    ghost use Rattle.nav_types.specs.Cells.{cell_at, IsInRect};
    ghost use Rattle.navcell_grid.specs.Grids.{IsInSpan};

    ghost rect_of: { Self → Rect };

    ghost number: { Self → Cell → ℕ };

    /// Gives the cells of row `j` from column `i0` to column `i1` the mask's bits besides their own.
    fn set_span(&mut self, j: u16, i0: u16, i1: u16, mask: u16)
        requires ordered { i0 ≤ i1 }
        requires first { IsInRect (rect_of self.old) (cell_at i0 j) }
        requires last { IsInRect (rect_of self.old) (cell_at i1 j) }
        ensures rect { rect_of self.new ≡ rect_of self.old }
        ensures span { (cell : Cell) → IsInSpan j i0 i1 cell
            → number self.new cell ≡ bit_or (number self.old cell) mask }
        ensures others { (cell : Cell) → IsInRect (rect_of self.old) cell → ¬ IsInSpan j i0 i1 cell
            → number self.new cell ≡ number self.old cell };
}

impl Canvas for Grid {
    ghost use Rattle.navcell_grid.specs.Grids.{number_at};
    ghost use Rattle.nav_types.specs.Rects.{map_rect};

    ghost rect_of = { λ g. map_rect g.size };

    ghost number = { number_at };

    fn set_span(&mut self, j: u16, i0: u16, i1: u16, mask: u16) {
        self.or_span(j, i0, i1, mask);
    }
}

impl Canvas for Patch {
    ghost use Rattle.nav_types.specs.Numbering.{number_of};

    ghost rect_of = { λ p. p.rect };

    ghost number = { number_of };

    fn set_span(&mut self, j: u16, i0: u16, i1: u16, mask: u16) {
        self.or_span(j, i0, i1, mask);
    }
}
