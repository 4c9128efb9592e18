//! The labels of a chunk: which region a cell is of, and where each region begins.
ghost use Rattle.std.specs.Prelude.{ℕ, Bool, ◌≡◌, ◌≢◌, ◌+◌, ◌-◌, ◌*◌, ◌<◌, ◌≤◌, IsTrue, IfOk, IfSome, IfNone, Some, slice_get, slice_index, length};
ghost use Rattle.nav_types.specs.declared.cells.Cell.{Cell};
ghost use Rattle.nav_types.specs.declared.limits.TheConstants.{CHUNK_SIDE, CHUNK_CELLS};
ghost use Rattle.nav_types.specs.Cells.{cell_at, IsInRect};
ghost use Rattle.chunk_regions.specs.Labelling.{AreLabels, AreBitsOf, AreRowBits, AgreeElsewhere};
ghost use Rattle.chunk_regions.specs.inner.Spans.{AreSpans, Holds, region_at};

use crate::bits::{ChunkBits, are_inside, read};
use crate::label_spans::{Numbered, number_all};
use crate::spans::{RowSpans, cut, cut_anew};
use nav_types::limits::CHUNK_SIDE;
use nav_types::{Cell, Chunk, Class, NoMemory, Rect, Size, Ticks, View};
use std::alloc::Global;
use std::marker::Model;
use std::sync::ledger::Ledger;

/// The regions of one chunk and class, kept as the spans of its rows and a region for each of them. Contracts see the
/// chunk, the numbers of its cells in the map, and the first cells of its regions in order (`Labelling`).
#[derive(Debug, Drop)]
pub struct Labels {
    chunk: Chunk,
    rect: Rect,
    spans: RowSpans,
    regions: Vec<u16>,
    firsts: Vec<Cell>,
    /// Whether no span leaves the rectangle, as far as is known.
    within: bool,
}

impl Model for Labels {
    ghost use Rattle.std.specs.Prelude.{ℕ, ◌≡◌, ◌<◌, ◌≤◌, ◌*◌, IsTrue, length, map, slice_index};
    ghost use Rattle.std.specs.List.{range_with_len};
    ghost use Rattle.nav_types.specs.declared.limits.TheConstants.{CHUNK_CELLS, MAX_CHUNKS_ALONG};
    ghost use Rattle.nav_types.specs.Numbering.{IsPatch, columns, rows};
    ghost use Rattle.chunk_regions.specs.Labelling.{Labelling};
    ghost use Rattle.chunk_regions.specs.inner.Spans.{number_by, AreSpansIn};

    ghost Value = { Labelling };

    ghost view = { λ l. record {
      chunk = l.chunk;
      cells = record {
        rect = l.rect;
        numbers = map (number_by l.spans l.regions.items (columns l.rect))
            (range_with_len 0 (columns l.rect * rows l.rect));
      };
      firsts = l.firsts.items;
      within = l.within;
    } };

    ghost invariant = { λ l. IsPatch l.rect × (length l.regions.items ≡ length l.spans.spans)
        × (length l.firsts.items ≤ CHUNK_CELLS)
        × ((at : ℕ) → at < length l.regions.items → 1 ≤ slice_index l.regions.items at)
        × (l.chunk.ci < MAX_CHUNKS_ALONG) × (l.chunk.cj < MAX_CHUNKS_ALONG)
        × (IsTrue l.within → AreSpansIn l.rect l.spans) };
}

/// Cells of one row that lie side by side and have one number.
#[derive(Debug, Clone, Copy)]
pub struct Stretch {
    /// The number of their region; 0 for impassable cells.
    pub region: u16,
    /// The column of the last of them in the map.
    pub last: u16,
}

/// The place of the row's span that holds the column.
#[inline(always)]
fn holding(spans: &RowSpans, row: u16, column: u8) -> Option<usize>
    requires { row < CHUNK_SIDE }
    ensures are { AreSpans spans.now }
    ensures held { IfSome result (λ at. Holds spans.now row at column) }
    ensures none { IfNone result ((at : ℕ) → Holds spans.now row at column → ⊥) }
{
    // from the nearer end of the row, so that a cell at the chunk's border is found at once
    if (column as u16) < CHUNK_SIDE / 2 {
        holding_from_west(spans, row, column)
    } else {
        holding_from_east(spans, row, column)
    }
}

/// The place of the row's span that holds the column, looked for from the row's first span on.
#[inline(always)]
fn holding_from_west(spans: &RowSpans, row: u16, column: u8) -> Option<usize>
    requires { row < CHUNK_SIDE }
    ensures are { AreSpans spans.now }
    ensures held { IfSome result (λ at. Holds spans.now row at column) }
    ensures none { IfNone result ((at : ℕ) → Holds spans.now row at column → ⊥) }
{
    let (start, end) = spans.row(row);
    for at in start..end {
        let span = spans.span(at);
        // the spans of a row rise, so only the first that ends here or further east can hold the column
        if column <= span.last {
            if span.first <= column {
                return Some(at);
            }
            return None;
        }
    }
    None
}

/// The place of the row's span that holds the column, looked for from the row's last span back.
#[inline(always)]
fn holding_from_east(spans: &RowSpans, row: u16, column: u8) -> Option<usize>
    requires { row < CHUNK_SIDE }
    ensures are { AreSpans spans.now }
    ensures held { IfSome result (λ at. Holds spans.now row at column) }
    ensures none { IfNone result ((at : ℕ) → Holds spans.now row at column → ⊥) }
{
    let (start, end) = spans.row(row);
    let mut behind = end;
    while start < behind {
        let at = behind - 1;
        let span = spans.span(at);
        // only the last that begins here or further west can hold the column
        if span.first <= column {
            if column <= span.last {
                return Some(at);
            }
            return None;
        }
        behind = at;
    }
    None
}

/// The region of the row's cell in that column, 0 where no span holds it, and the last column of the chunk up to which
/// all cells from that one to the east have it.
#[inline(always)]
fn stretch_in_row(spans: &RowSpans, regions: &[u16], row: u16, column: u8) -> (u16, u8)
    requires row { row < CHUNK_SIDE }
    requires column { column < CHUNK_SIDE }
    requires each { length regions.now ≡ length spans.now.spans }
    requires some { (at : ℕ) → at < length regions.now → 1 ≤ slice_index regions.now at }
    ensures from { column ≤ result.1 }
    ensures within { result.1 < CHUNK_SIDE }
    ensures same { (x : ℕ) → column ≤ x → x ≤ result.1 → region_at spans.now regions.now row x ≡ result.0 }
    ensures longest { result.1 < CHUNK_SIDE - 1 → region_at spans.now regions.now row (result.1 + 1) ≢ result.0 }
{
    let (start, end) = spans.row(row);
    for at in start..end {
        let span = spans.span(at);
        if column <= span.last {
            if span.first <= column {
                return (regions[at], span.last);
            }
            return (0, span.first - 1);
        }
    }
    (0, CHUNK_SIDE as u8 - 1)
}

impl Labels {
    ghost use Rattle.std.specs.Prelude.{◌↔◌};
    ghost use Rattle.nav_types.specs.Numbering.{number_of};

    /// The chunk that the labels are of.
    pub fn chunk(&self) -> Chunk
        ensures { result ≡ self.now.chunk }
    {
        self.chunk
    }

    /// The chunk's cells in the map, both ends inclusive.
    pub fn rect(&self) -> Rect
        ensures { result ≡ self.now.cells.rect }
    {
        self.rect
    }

    /// Whether no cell past the map's rim was among the passable ones, as far as is known.
    #[inline(always)]
    pub fn is_within(&self) -> bool
        ensures { result ≡ self.now.within }
    {
        self.within
    }

    /// The number of the cell's region, from 1; 0 exactly for an impassable cell (`HasRegion`).
    #[inline(always)]
    pub fn at(&self, cell: Cell) -> u16
        requires { IsInRect self.now.cells.rect cell }
        ensures { result ≡ number_of self.now.cells cell }
    {
        let column = (cell.i - self.rect.i0) as u8;
        match holding(&self.spans, cell.j - self.rect.j0, column) {
            Some(at) => self.regions[at],
            None => 0,
        }
    }

    /// The cell's number as [`Labels::at`] gives it, and the last column of the chunk up to which all cells from this
    /// one to the east have it: the chunk ends there, or the next cell has another number.
    #[inline(always)]
    pub fn stretch_at(&self, cell: Cell) -> Stretch
        requires { IsInRect self.now.cells.rect cell }
        ensures from { cell.i ≤ result.last }
        ensures within { result.last ≤ self.now.cells.rect.i1 }
        ensures same { (i : ℕ) → cell.i ≤ i → i ≤ result.last
            → number_of self.now.cells (cell_at i cell.j) ≡ result.region }
        ensures longest { result.last < self.now.cells.rect.i1
            → number_of self.now.cells (cell_at (result.last + 1) cell.j) ≢ result.region }
    {
        let row = cell.j - self.rect.j0;
        let column = (cell.i - self.rect.i0) as u8;
        let (region, last) = stretch_in_row(&self.spans, self.regions.as_slice(), row, column);
        Stretch {
            region,
            last: self.rect.i1.min(self.rect.i0 + last as u16),
        }
    }

    /// How many regions there are, at most `CHUNK_CELLS`.
    pub fn count(&self) -> u16
        ensures value { result ≡ length self.now.firsts }
        ensures most { result ≤ CHUNK_CELLS }
    {
        self.firsts.len() as u16
    }

    /// Whether the first cells of the regions are those of the other labels' regions.
    pub fn has_firsts_of(&self, other: &Labels) -> bool
        ensures { IsTrue result ↔ (self.now.firsts ≡ other.now.firsts) }
    {
        self.firsts.as_slice() == other.firsts.as_slice()
    }

    /// The first cell of a region, in the order of cells. Regions are numbered from 1 to the count.
    pub fn first(&self, region: u16) -> Cell
        requires some { 1 ≤ region }
        requires known { region ≤ length self.now.firsts }
        ensures { slice_get self.now.firsts (region - 1) ≡ Some result }
    {
        self.firsts[region as usize - 1]
    }
}

/// The regions of one chunk and class: passable cells are of one region where straight steps join them inside the
/// chunk, and regions are numbered from 1 in the order of their first cells (`HasRegion`). It is one tick of work.
/// Each cell is asked for once; the rest of the work grows with the spans of passable cells in the chunk's rows. It
/// refuses for want of memory alone.
pub fn label<V: View, L: Ledger>(
    alloc: Global,
    view: &V,
    class: Class,
    chunk: Chunk,
    ticks: &mut Ticks<L>,
) -> Result<Labels, NoMemory>
    requires class { class < V.class_count view.now }
    requires columns { CHUNK_SIDE * chunk.ci < (V.extent view.now).w }
    requires rows { CHUNK_SIDE * chunk.cj < (V.extent view.now).h }
    ensures labels { IfOk result (AreLabels (V.passes view.now class) (V.extent view.now) chunk) }
    ensures ticks { ticks.new ≡ ticks.old + 1 }
{
    let bits = read(view, class, chunk);
    label_bits(alloc, view.size(), chunk, &bits, ticks)
}

/// The regions of one chunk and class as [`label`] gives them, where the bits say which cells of the chunk are
/// passable (`AreBitsOf`). It is one tick of work. It refuses for want of memory alone.
pub fn label_bits<L: Ledger>(
    alloc: Global,
    size: Size,
    chunk: Chunk,
    bits: &ChunkBits,
    ticks: &mut Ticks<L>,
) -> Result<Labels, NoMemory>
    requires columns { CHUNK_SIDE * chunk.ci < size.w }
    requires rows { CHUNK_SIDE * chunk.cj < size.h }
    ensures labels { IfOk result (λ labels. (passes : Cell → Bool) → AreBitsOf passes chunk bits.now
        → AreLabels passes size chunk labels) }
    ensures ticks { ticks.new ≡ ticks.old + 1 }
{
    ticks.tick();
    let rect = Rect::of_chunk(size, chunk);
    let within = are_inside(bits, rect, 0, CHUNK_SIDE);
    let spans = cut(alloc, bits)?;
    let Numbered { regions, firsts } = number_all(alloc, chunk, &spans)?;
    Ok(Labels {
        chunk,
        rect,
        spans,
        regions,
        firsts,
        within,
    })
}

/// The regions of a chunk and class as [`label`] gives them, from the labels of before, where only cells of the chunk's
/// rows from one on to before another have changed, and the bits say which cells of these are passable. Those of before
/// must be without cells past the map's rim ([`Labels::is_within`]). It is one tick of work. It refuses for want of memory
/// alone.
pub fn relabel<L: Ledger>(
    alloc: Global,
    before: &Labels,
    from: u16,
    to: u16,
    bits: &ChunkBits,
    ticks: &mut Ticks<L>,
) -> Result<Labels, NoMemory>
    requires order { from ≤ to }
    requires within { to ≤ CHUNK_SIDE }
    requires inside { IsTrue before.now.within }
    ensures labels { IfOk result (λ labels. (old passes : Cell → Bool) (size : Size) (chunk : Chunk)
        → AreLabels old size chunk before.now → AgreeElsewhere old passes size chunk from to
        → AreRowBits passes chunk from to bits.now → AreLabels passes size chunk labels) }
    ensures ticks { ticks.new ≡ ticks.old + 1 }
{
    ticks.tick();
    let within = are_inside(bits, before.rect, from, to);
    let spans = cut_anew(alloc, &before.spans, from, to, bits)?;
    let Numbered { regions, firsts } = number_all(alloc, before.chunk, &spans)?;
    Ok(Labels {
        chunk: before.chunk,
        rect: before.rect,
        spans,
        regions,
        firsts,
        within,
    })
}
