//! Navcells, rectangles of them, and sizes of maps.
ghost use Rattle.std.specs.Prelude.{◌≡◌, ◌<◌, ◌/◌};
ghost use Rattle.nav_types.specs.Side.{IsSide};

use crate::limits::{CHUNK_SIDE, MAX_SIDE};
use std::marker::Model;

/// A navcell by its column `i` and its row `j`, a square of one world unit.
///
/// Cells are ordered by row, then by column: that is the order of cells.
#[derive(Clone, Copy, Debug, PartialEq, Eq, PartialOrd, Ord, Hash)]
pub struct Cell {
    pub j: u16,
    pub i: u16,
}

/// A rectangle of navcells from column `i0` to `i1` and row `j0` to `j1`, all of them in it.
#[derive(Clone, Copy, Debug, PartialEq, Eq)]
pub struct Rect {
    pub i0: u16,
    pub j0: u16,
    pub i1: u16,
    pub j1: u16,
}

/// The size of a map: `w` columns and `h` rows, each from 1 to [`MAX_SIDE`].
#[derive(Clone, Copy, Debug, PartialEq, Eq)]
pub struct Size {
    pub w: u16,
    pub h: u16,
    pub ghost wide: { IsSide w },
    pub ghost high: { IsSide h },
}

/// A chunk of [`CHUNK_SIDE`] by as many navcells by its column `ci` and its row `cj` among the chunks.
///
/// Chunks are ordered by row, then by column.
#[derive(Clone, Copy, Debug, PartialEq, Eq, PartialOrd, Ord, Hash)]
pub struct Chunk {
    pub cj: u16,
    pub ci: u16,
}

/// A cost, in units of which a straight step costs `STRAIGHT_COST`.
#[derive(Clone, Copy, Debug, PartialEq, Eq, PartialOrd, Ord)]
pub struct Cost(pub u64);

/// A passability class by its number, below 16. Contracts see the number.
#[derive(Clone, Copy, Debug, PartialEq, Eq, PartialOrd, Ord)]
pub struct Class {
    number: u8,
}

impl Model for Class {
    ghost use Rattle.std.specs.Prelude.{ℕ, ◌<◌};

    ghost Value = { ℕ };

    ghost view = { λ c. c.number };

    ghost invariant = { λ c. c.number < 16 };

    ghost inverse = { λ n. record { number = n } };
}

impl Class {
    /// The class of a number.
    pub fn new(number: u8) -> Class
        requires { number < 16 }
        ensures { result ≡ number }
    {
        Class { number }
    }

    /// The number of the class, below 16.
    pub fn number(self) -> u8
        ensures value { result ≡ self }
        ensures small { result < 16 }
    {
        self.number
    }
}

impl Cell {
    ghost use Rattle.nav_types.specs.Cells.{cell_at, chunk_of};

    /// The cell of a column and a row.
    pub fn new(i: u16, j: u16) -> Cell
        ensures { result ≡ cell_at i j }
    {
        Cell { j, i }
    }

    /// The chunk that holds the cell.
    pub fn chunk(self) -> Chunk
        ensures { result ≡ chunk_of self }
    {
        Chunk {
            cj: self.j / CHUNK_SIDE,
            ci: self.i / CHUNK_SIDE,
        }
    }
}

impl Size {
    ghost use Rattle.std.specs.Prelude.{◌↔◌, IsTrue, IsSome, IfSome};
    ghost use Rattle.nav_types.specs.Cells.{IsInside};

    /// The size of `w` columns and `h` rows. None exactly where one of them is not from 1 to [`MAX_SIDE`].
    pub fn new(w: u16, h: u16) -> Option<Size>
        ensures some { IsSome result ↔ (IsSide w × IsSide h) }
        ensures columns { IfSome result (λ size. size.w ≡ w) }
        ensures rows { IfSome result (λ size. size.h ≡ h) }
    {
        if w >= 1 && w <= MAX_SIDE && h >= 1 && h <= MAX_SIDE {
            Some(Size { w, h })
        } else {
            None
        }
    }

    /// Whether the cell is inside a map of this size.
    pub fn has(self, cell: Cell) -> bool
        ensures { IsTrue result ↔ IsInside self cell }
    {
        cell.i < self.w && cell.j < self.h
    }
}
