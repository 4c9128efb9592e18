//! The passable cells of a chunk as bits.
ghost use Rattle.std.specs.Prelude.{ℕ, ◌≡◌, ◌⊎◌, ◌<◌, ◌≤◌, ◌+◌, ◌*◌, ◌/◌, ◌%◌, ◌^◌, IfSome, IsSomeAnd, IsTrue, slice_index};
ghost use Rattle.std.specs.Int.{bit_at};
ghost use Rattle.nav_types.specs.declared.limits.TheConstants.{CHUNK_SIDE};
ghost use Rattle.nav_types.specs.declared.cells.Cell.{Cell};
ghost use Rattle.nav_types.specs.Cells.{IsInRect};
ghost use Rattle.nav_types.specs.Rects.{IsPartOf, chunk_rect};
ghost use Rattle.chunk_regions.specs.Labelling.{AreBitsOf, AreRowBits, AgreeElsewhere};
ghost use Rattle.class_planes.specs.Planes.{is_passable};
ghost use Rattle.grid_versions.specs.inner.ChunkLists.{IsChunkInside};
ghost use Rattle.grid_versions.specs.inner.Keeping.{StillPass, ChangesOneWay};

use chunk_regions::ChunkBits;
use class_planes::ClassPlane;
use nav_types::limits::CHUNK_SIDE;
use nav_types::{Chunk, Rect};

/// The bits of all columns of a chunk.
const ALL_COLUMNS: u128 = (1 << CHUNK_SIDE) - 1;

/// The passable cells of a chunk by the plane of a class, as bits.
pub fn passable_cells(plane: &ClassPlane, chunk: Chunk) -> ChunkBits
    requires { IsChunkInside plane.now.size chunk }
    ensures { AreBitsOf (is_passable plane.now) chunk result }
{
    let rect = Rect::of_chunk(plane.size(), chunk);
    let mut bits = ChunkBits::new();
    for j in rect.j0..rect.j1 + 1 {
        bits.set_row(j - rect.j0, bits_from(plane.row_words(j), rect.i0));
    }
    bits
}

/// The bits of a line's words for as many places from one on as a chunk has columns. The first place lies in the first
/// half of its word.
fn bits_from(words: &[u64], from: u16) -> u128
    requires half { from % 64 ≤ 32 }
    ensures few { result < 2 ^ CHUNK_SIDE }
    ensures bits { (k : ℕ) → k < CHUNK_SIDE
        → bit_at result k ≡ bit_at (slice_index words.now ((from + k) / 64)) ((from + k) % 64) }
{
    let at = usize::from(from) / 64;
    (joined(word_at(words, at), word_at(words, at + 1)) >> (from % 64)) & ALL_COLUMNS
}

/// The word at a place, 0 past the last.
fn word_at(words: &[u64], at: usize) -> u64
    ensures { result ≡ slice_index words.now at }
{
    words.get(at).copied().unwrap_or(0)
}

/// One word of two.
fn joined(low: u64, high: u64) -> u128
    ensures { result ≡ high * 2 ^ 64 + low }
{
    (u128::from(high) << 64) + u128::from(low)
}

/// The rows of a chunk from one on to before another.
#[derive(Clone, Copy)]
pub struct RowRange {
    pub from: u16,
    pub to: u16,
}

/// Rows of a chunk between which all that lie in which the planes of before and of now differ. They differ only in cells of
/// the dirty part.
pub fn changed_rows(
    before: &ClassPlane,
    plane: &ClassPlane,
    chunk: Chunk,
    dirty: Option<Rect>,
) -> RowRange
    requires size { before.now.size ≡ plane.now.size }
    requires inside { IsChunkInside plane.now.size chunk }
    requires part { IfSome dirty (IsPartOf (chunk_rect plane.now.size chunk)) }
    requires same { (cell : Cell) → IsInRect (chunk_rect plane.now.size chunk) cell
        → ¬ IsSomeAnd dirty (λ part. IsInRect part cell)
        → is_passable before.now cell ≡ is_passable plane.now cell }
    ensures order { result.from ≤ result.to }
    ensures within { result.to ≤ CHUNK_SIDE }
    ensures map { CHUNK_SIDE * chunk.cj + result.to ≤ plane.now.size.h }
    ensures agree { AgreeElsewhere (is_passable before.now) (is_passable plane.now) plane.now.size chunk
        result.from result.to }
{
    let rect = Rect::of_chunk(plane.size(), chunk);
    let mut rows = RowRange { from: 0, to: 0 };
    let Some(part) = dirty else {
        return rows;
    };
    for j in part.j0..part.j1 + 1 {
        let same = same_words(before.row_words(j), plane.row_words(j), rect.i0);
        rows = with_row(rows, j - rect.j0, same);
    }
    rows
}

/// The rows with one behind them where that is not the same.
fn with_row(rows: RowRange, row: u16, same: bool) -> RowRange
    requires order { rows.from ≤ rows.to }
    requires behind { rows.to ≤ row }
    requires few { row < CHUNK_SIDE }
    ensures order { result.from ≤ result.to }
    ensures behind { result.to ≤ row + 1 }
    ensures earlier { (k : ℕ) → k < row → (k < result.from) ⊎ (result.to ≤ k) → (k < rows.from) ⊎ (rows.to ≤ k) }
    ensures own { (row < result.from) ⊎ (result.to ≤ row) → IsTrue same }
{
    if same {
        return rows;
    }
    let from = if rows.to == 0 { row } else { rows.from };
    RowRange { from, to: row + 1 }
}

/// Whether the words of two lines are the same that hold as many places from one on as a chunk has columns. The first
/// place lies in the first half of its word.
fn same_words(old: &[u64], new: &[u64], from: u16) -> bool
    requires half { from % 64 ≤ 32 }
    ensures { IsTrue result → (k : ℕ) → k < CHUNK_SIDE
        → bit_at (slice_index old.now ((from + k) / 64)) ((from + k) % 64)
        ≡ bit_at (slice_index new.now ((from + k) / 64)) ((from + k) % 64) }
{
    let at = usize::from(from) / 64;
    let near = word_at(old, at) == word_at(new, at);
    let far = word_at(old, at + 1) == word_at(new, at + 1);
    near & far
}

/// Whether the one word has each bit of the other.
fn has_bits(all: u64, some: u64) -> bool
    ensures { IsTrue result → (k : ℕ) → bit_at some k ≡ 1 → bit_at all k ≡ 1 }
{
    some & all == some
}

/// Whether the one line has each bit of the other line among the words that hold as many places from one on as a chunk
/// has columns. The first place lies in the first half of its word.
fn holds_words(all: &[u64], some: &[u64], from: u16) -> bool
    requires half { from % 64 ≤ 32 }
    ensures { IsTrue result → (k : ℕ) → k < CHUNK_SIDE
        → bit_at (slice_index some.now ((from + k) / 64)) ((from + k) % 64) ≡ 1
        → bit_at (slice_index all.now ((from + k) / 64)) ((from + k) % 64) ≡ 1 }
{
    let at = usize::from(from) / 64;
    let near = has_bits(word_at(all, at), word_at(some, at));
    let far = has_bits(word_at(all, at + 1), word_at(some, at + 1));
    near & far
}

/// Whether each cell of a chunk's part that is passable by the plane of before still is. It says so only where it is.
fn still_pass(before: &ClassPlane, plane: &ClassPlane, chunk: Chunk, part: Rect) -> bool
    requires size { before.now.size ≡ plane.now.size }
    requires inside { IsChunkInside plane.now.size chunk }
    requires part { IsPartOf (chunk_rect plane.now.size chunk) part }
    ensures { IsTrue result → StillPass (is_passable before.now) (is_passable plane.now) part }
{
    let rect = Rect::of_chunk(plane.size(), chunk);
    for j in part.j0..part.j1 + 1 {
        if !holds_words(plane.row_words(j), before.row_words(j), rect.i0) {
            return false;
        }
    }
    true
}

/// Whether the cells of a chunk's part have only become passable, or only impassable. It says so only where it is.
pub fn changes_one_way(before: &ClassPlane, plane: &ClassPlane, chunk: Chunk, part: Rect) -> bool
    requires size { before.now.size ≡ plane.now.size }
    requires inside { IsChunkInside plane.now.size chunk }
    requires part { IsPartOf (chunk_rect plane.now.size chunk) part }
    ensures { IsTrue result → ChangesOneWay (is_passable before.now) (is_passable plane.now) part }
{
    if still_pass(before, plane, chunk, part) {
        return true;
    }
    still_pass(plane, before, chunk, part)
}

/// The passable cells of a chunk's rows by the plane of a class, as bits.
pub fn passable_in_rows(plane: &ClassPlane, chunk: Chunk, rows: RowRange) -> ChunkBits
    requires inside { IsChunkInside plane.now.size chunk }
    requires order { rows.from ≤ rows.to }
    requires within { rows.to ≤ CHUNK_SIDE }
    requires map { CHUNK_SIDE * chunk.cj + rows.to ≤ plane.now.size.h }
    ensures { AreRowBits (is_passable plane.now) chunk rows.from rows.to result }
{
    let rect = Rect::of_chunk(plane.size(), chunk);
    let mut bits = ChunkBits::new();
    for row in rows.from..rows.to {
        bits.set_row(row, bits_from(plane.row_words(rect.j0 + row), rect.i0));
    }
    bits
}
