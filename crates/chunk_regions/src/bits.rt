//! The passable cells of a chunk as bits, a row in a number.
ghost use Rattle.std.specs.Prelude.{ℕ, ◌≡◌, ◌<◌, ◌≤◌, ◌+◌, ◌-◌, ◌*◌, ◌^◌, ◌==◌, if◌then◌else◌, IsTrue, slice_index};
ghost use Rattle.std.specs.Int.{bit_at};
ghost use Rattle.nav_types.specs.declared.limits.TheConstants.{CHUNK_SIDE};
ghost use Rattle.nav_types.specs.Cells.{cell_at};
ghost use Rattle.nav_types.specs.Numbering.{IsPatch, columns, rows};
ghost use Rattle.chunk_regions.specs.Labelling.{AreBitsOf};
ghost use Rattle.chunk_regions.specs.inner.Spans.{AreBitsIn};

use nav_types::limits::CHUNK_SIDE;
use nav_types::{Cell, Chunk, Class, Rect, View};
use std::marker::Model;

/// The passable cells of a chunk as bits: a number for each of its rows, with a bit for each of its columns.
/// Contracts see the list of the rows' numbers.
#[derive(Debug, Drop)]
pub struct ChunkBits {
    rows: [u128; CHUNK_SIDE as usize],
}

impl Model for ChunkBits {
    ghost use Rattle.std.specs.Prelude.{ℕ, List, ◌<◌, ◌^◌, All};
    ghost use Rattle.nav_types.specs.declared.limits.TheConstants.{CHUNK_SIDE};

    ghost Value = { List ℕ };

    ghost view = { λ bits. bits.rows };

    ghost invariant = { λ bits. All (λ row. row < 2 ^ CHUNK_SIDE) bits.rows };
}

impl ChunkBits {
    ghost use Rattle.std.specs.Prelude.{replicate, slice_set};

    /// The bits of a chunk without a passable cell.
    pub fn new() -> ChunkBits
        ensures { result ≡ replicate CHUNK_SIDE 0 }
    {
        ChunkBits {
            rows: [0; CHUNK_SIDE as usize],
        }
    }

    /// The bits of a row, below `CHUNK_SIDE`: bit k is set for a passable cell of column k.
    pub fn row(&self, row: u16) -> u128
        requires { row < CHUNK_SIDE }
        ensures value { result ≡ slice_index self.now row }
        ensures few { result < 2 ^ CHUNK_SIDE }
    {
        self.rows[row as usize]
    }

    /// Sets the bits of a row, below `CHUNK_SIDE`.
    pub fn set_row(&mut self, row: u16, bits: u128)
        requires row { row < CHUNK_SIDE }
        requires few { bits < 2 ^ CHUNK_SIDE }
        ensures { self.new ≡ slice_set self.old row bits }
    {
        self.rows[row as usize] = bits;
    }
}

/// The bit of a column, set or clear.
fn bit(set: bool, column: u16) -> u128
    requires { column < CHUNK_SIDE }
    ensures { result ≡ (if set then 2 ^ column else 0) }
{
    if set { 1 << column } else { 0 }
}

/// The bits of one row of the cells from column `west` to column `east`, both inclusive.
fn row_bits<V: View>(view: &V, class: Class, west: u16, east: u16, j: u16) -> u128
    requires class { class < V.class_count view.now }
    requires ordered { west ≤ east }
    requires wide { east < west + CHUNK_SIDE }
    requires columns { east < (V.extent view.now).w }
    requires row { j < (V.extent view.now).h }
    ensures few { result < 2 ^ (east + 1 - west) }
    ensures bits { (column : ℕ) → west + column ≤ east
        → (bit_at result column == 1) ≡ V.passes view.now class (cell_at (west + column) j) }
{
    let mut bits = 0;
    for i in west..east + 1 {
        bits += bit(view.passable(class, Cell::new(i, j)), i - west);
    }
    bits
}

/// The bits of a chunk's passable cells for a class. Each cell of the map is asked for once.
pub fn read<V: View>(view: &V, class: Class, chunk: Chunk) -> ChunkBits
    requires class { class < V.class_count view.now }
    requires columns { CHUNK_SIDE * chunk.ci < (V.extent view.now).w }
    requires rows { CHUNK_SIDE * chunk.cj < (V.extent view.now).h }
    ensures { AreBitsOf (V.passes view.now class) chunk result }
{
    let rect = Rect::of_chunk(view.size(), chunk);
    let mut bits = ChunkBits::new();
    for j in rect.j0..rect.j1 + 1 {
        bits.set_row(j - rect.j0, row_bits(view, class, rect.i0, rect.i1, j));
    }
    bits
}

/// Whether the bits of the rows from one on to before another are set for cells of the chunk's rectangle alone.
pub fn are_inside(bits: &ChunkBits, rect: Rect, from: u16, to: u16) -> bool
    requires patch { IsPatch rect }
    requires within { to ≤ CHUNK_SIDE }
    ensures { IsTrue result → AreBitsIn (columns rect) (rows rect) from to bits.now }
{
    let width = rect.i1 - rect.i0 + 1;
    let height = rect.j1 - rect.j0 + 1;
    for row in from..to {
        let room = if row < height { width } else { 0 };
        if bits.row(row) >> room != 0 {
            return false;
        }
    }
    true
}
