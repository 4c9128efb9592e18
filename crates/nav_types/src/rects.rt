//! Rectangles: of what they are, and what two of them have in common.
ghost use Rattle.std.specs.Prelude.{◌≡◌, ◌*◌, ◌<◌, ◌↔◌, IsTrue, IfSome, IfNone};
ghost use Rattle.nav_types.specs.declared.limits.TheConstants.{CHUNK_SIDE};
ghost use Rattle.nav_types.specs.declared.cells.Cell.{Cell};
ghost use Rattle.nav_types.specs.declared.cells.Rect.{Rect};
ghost use Rattle.nav_types.specs.Cells.{IsInRect, IsRectInside};
ghost use Rattle.nav_types.specs.Numbering.{IsPatch};
ghost use Rattle.nav_types.specs.Rects.{cell_rect, map_rect, chunk_rect, IsPartOf};

use crate::cells::{Cell, Chunk, Rect, Size};
use crate::limits::CHUNK_SIDE;

impl Rect {
    /// The rectangle of one cell.
    pub fn of_cell(cell: Cell) -> Rect
        ensures { result ≡ cell_rect cell }
    {
        Rect {
            i0: cell.i,
            j0: cell.j,
            i1: cell.i,
            j1: cell.j,
        }
    }

    /// All cells of a map of this size.
    pub fn of_map(size: Size) -> Rect
        ensures value { result ≡ map_rect size }
        ensures inside { IsRectInside size result }
    {
        Rect {
            i0: 0,
            j0: 0,
            i1: size.w - 1,
            j1: size.h - 1,
        }
    }

    /// The chunk's cells in a map of this size, which has cells of the chunk.
    pub fn of_chunk(size: Size, chunk: Chunk) -> Rect
        requires columns { CHUNK_SIDE * chunk.ci < size.w }
        requires rows { CHUNK_SIDE * chunk.cj < size.h }
        ensures value { result ≡ chunk_rect size chunk }
        ensures patch { IsPatch result }
        ensures inside { IsRectInside size result }
    {
        let i0 = chunk.ci * CHUNK_SIDE;
        let j0 = chunk.cj * CHUNK_SIDE;
        Rect {
            i0,
            j0,
            i1: (i0 + CHUNK_SIDE - 1).min(size.w - 1),
            j1: (j0 + CHUNK_SIDE - 1).min(size.h - 1),
        }
    }

    /// Whether the cell lies in the rectangle.
    #[inline(always)]
    pub fn contains(self, cell: Cell) -> bool
        ensures { IsTrue result ↔ IsInRect self cell }
    {
        self.i0 <= cell.i && cell.i <= self.i1 && self.j0 <= cell.j && cell.j <= self.j1
    }

    /// Whether the rectangle has a cell, and all its cells lie in a map of this size.
    pub fn is_inside(self, size: Size) -> bool
        ensures { IsTrue result ↔ IsRectInside size self }
    {
        self.i0 <= self.i1 && self.j0 <= self.j1 && self.i1 < size.w && self.j1 < size.h
    }

    /// Whether a cell lies in both rectangles.
    pub fn meets(self, other: Rect) -> bool
        ensures { IsTrue result ↔ ((cell : Cell) × (IsInRect self cell × IsInRect other cell)) }
    {
        self.i0.max(other.i0) <= self.i1.min(other.i1)
            && self.j0.max(other.j0) <= self.j1.min(other.j1)
    }

    /// The cells that lie in both rectangles. None exactly where there is none.
    pub fn intersection(self, other: Rect) -> Option<Rect>
        ensures part { IfSome result (IsPartOf other) }
        ensures cells { IfSome result
            (λ rect. (cell : Cell) → (IsInRect rect cell ↔ (IsInRect self cell × IsInRect other cell))) }
        ensures none { IfNone result ((cell : Cell) → IsInRect self cell → ¬ IsInRect other cell) }
    {
        let rect = Rect {
            i0: self.i0.max(other.i0),
            j0: self.j0.max(other.j0),
            i1: self.i1.min(other.i1),
            j1: self.j1.min(other.j1),
        };
        if rect.i0 <= rect.i1 && rect.j0 <= rect.j1 {
            Some(rect)
        } else {
            None
        }
    }

    /// The least rectangle that holds both.
    pub fn union(self, other: Rect) -> Rect
        ensures least { (whole : Rect) → IsPartOf whole self → IsPartOf whole other → IsPartOf whole result }
        ensures first { (cell : Cell) → IsInRect self cell → IsInRect result cell }
        ensures second { (cell : Cell) → IsInRect other cell → IsInRect result cell }
    {
        Rect {
            i0: self.i0.min(other.i0),
            j0: self.j0.min(other.j0),
            i1: self.i1.max(other.i1),
            j1: self.j1.max(other.j1),
        }
    }
}
