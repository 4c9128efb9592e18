//! The spans of a chunk: passable cells of a row that lie side by side.
ghost use Rattle.std.specs.Prelude.{ℕ, ◌≡◌, ◌≢◌, ◌<◌, ◌≤◌, ◌+◌, ◌-◌, ◌*◌, ◌/◌, ◌^◌, OnOk, IfOk, Some, slice_get, slice_index, length, map, take, drop};
ghost use Rattle.std.specs.Int.{bit_at};
ghost use Rattle.nav_types.specs.declared.limits.TheConstants.{CHUNK_SIDE, CHUNK_CELLS};
ghost use Rattle.chunk_regions.specs.inner.Spans.{Runs, AreRuns, AreSpans, IsCutTo, IsRowTo, bits_at, held_at, set_anew};
ghost use Rattle.chunk_regions.specs.inner.Moving.{moved};

use crate::bits::ChunkBits;
use nav_types::NoMemory;
use nav_types::limits::CHUNK_SIDE;
use std::alloc::Global;
use std::marker::Model;

/// Passable cells of one row of a chunk that lie side by side: from column `first` to column `last` of the chunk,
/// both inclusive. The cells before and after are impassable or outside the chunk.
#[derive(Debug, Clone, Copy)]
pub struct Span {
    pub first: u8,
    pub last: u8,
}

/// The spans of a chunk's rows, row by row and from west to east. Contracts see the places of each row's first span
/// and the spans (`Runs`).
#[derive(Debug, Drop)]
pub struct RowSpans {
    /// The place of the first span of each row, and the count of all spans.
    starts: Vec<u16>,
    spans: Vec<Span>,
}

impl Model for RowSpans {
    ghost use Rattle.chunk_regions.specs.inner.Spans.{Runs, AreSpans};

    ghost Value = { Runs };

    ghost view = { λ r. record { starts = r.starts.items; spans = r.spans.items } };

    ghost invariant = { λ r. AreSpans (record { starts = r.starts.items; spans = r.spans.items }) };
}

impl RowSpans {
    ghost use Rattle.std.specs.Prelude.{take, drop};
    ghost use Rattle.chunk_regions.specs.inner.Spans.{AreSpans};

    /// How many spans there are.
    pub fn len(&self) -> usize
        ensures value { result ≡ length self.now.spans }
        ensures are { AreSpans self.now }
    {
        self.spans.len()
    }

    /// The place of the first span of a row, and the count of all spans for `CHUNK_SIDE`.
    pub fn start(&self, row: u16) -> u16
        requires { row ≤ CHUNK_SIDE }
        ensures value { result ≡ slice_index self.now.starts row }
        ensures are { AreSpans self.now }
        ensures within { result ≤ length self.now.spans }
    {
        self.starts[row as usize]
    }

    /// The places behind the last span of each row from one on to before another.
    fn ends(&self, from: u16, to: u16) -> &[u16]
        requires order { from ≤ to }
        requires within { to ≤ CHUNK_SIDE }
        ensures { result.now ≡ take (to - from) (drop (from + 1) self.now.starts) }
    {
        &self.starts[from as usize + 1..to as usize + 1]
    }

    /// The spans from a place on to before another.
    fn between(&self, from: u16, to: u16) -> &[Span]
        requires order { from ≤ to }
        requires within { to ≤ length self.now.spans }
        ensures { result.now ≡ take (to - from) (drop from self.now.spans) }
    {
        &self.spans[from as usize..to as usize]
    }

    /// The places of a row's spans: from the first to before the second.
    pub fn row(&self, row: u16) -> (usize, usize)
        requires { row < CHUNK_SIDE }
        ensures from { result.0 ≡ slice_index self.now.starts row }
        ensures to { result.1 ≡ slice_index self.now.starts (row + 1) }
        ensures are { AreSpans self.now }
        ensures ordered { result.0 ≤ result.1 }
        ensures within { result.1 ≤ length self.now.spans }
    {
        let row = row as usize;
        (self.starts[row] as usize, self.starts[row + 1] as usize)
    }

    /// The span at a place.
    pub fn span(&self, at: usize) -> Span
        requires { at < length self.now.spans }
        ensures value { slice_get self.now.spans at ≡ Some result }
        ensures ordered { result.first ≤ result.last }
        ensures within { result.last < CHUNK_SIDE }
        ensures few { length self.now.spans ≤ CHUNK_CELLS / 2 }
        ensures are { AreSpans self.now }
    {
        self.spans[at]
    }
}

/// Takes the lowest set bit away, and gives its place.
#[inline(always)]
fn take_lowest(bits: &mut u128) -> u8
    requires some { 0 < bits.old }
    requires few { bits.old < 2 ^ (CHUNK_SIDE + 1) }
    ensures set { bit_at bits.old result ≡ 1 }
    ensures lowest { (k : ℕ) → k < result → bit_at bits.old k ≡ 0 }
    ensures taken { bit_at bits.new result ≡ 0 }
    ensures others { (k : ℕ) → k ≢ result → bit_at bits.new k ≡ bit_at bits.old k }
    ensures less { bits.new < bits.old }
{
    let place = bits.trailing_zeros() as u8;
    *bits &= *bits - 1;
    place
}

/// Adds the spans of a row with these bits.
#[inline(always)]
fn cut_row(spans: &mut Vec<Span>, bits: u128) -> Result<(), NoMemory>
    requires few { bits < 2 ^ CHUNK_SIDE }
    ensures kept { (k : ℕ) → k < length spans.old.items
        → slice_get spans.new.items k ≡ slice_get spans.old.items k }
    ensures cut { OnOk result (IsRowTo (bit_at bits) (length spans.old.items) spans.new.items (CHUNK_SIDE + 1)) }
{
    // a bit where a span begins, and one behind where it ends
    let mut edges = bits ^ (bits << 1);
    while edges != 0 {
        let first = take_lowest(&mut edges);
        let end = take_lowest(&mut edges);
        spans.push(Span {
            first,
            last: end - 1,
        })?;
    }
    Ok(())
}

/// How many spans the rows have.
fn count_spans(bits: &ChunkBits) -> usize {
    let mut count = 0usize;
    for row in 0..CHUNK_SIDE {
        let row = bits.row(row);
        // a span begins at each set bit whose lower neighbour is clear
        count = count.saturating_add((row & !(row << 1)).count_ones() as usize);
    }
    count
}

/// The spans of a chunk's rows.
pub fn cut(alloc: Global, bits: &ChunkBits) -> Result<RowSpans, NoMemory>
    ensures { IfOk result (AreRuns (bits_at bits.now)) }
{
    let mut starts = Vec::with_capacity(alloc, CHUNK_SIDE as usize + 1)?;
    let mut spans = Vec::with_capacity(alloc, count_spans(bits))?;
    starts.push(0)?;
    for row in 0..CHUNK_SIDE {
        cut_row(&mut spans, bits.row(row))?;
        starts.push(spans.len() as u16)?;
    }
    Ok(RowSpans { starts, spans })
}

/// Counts places from another one on: what followed the place `first` follows the place `here`.
#[inline(always)]
fn move_places(places: &mut [u16], first: u16, here: u16)
    requires low { (k : ℕ) → k < length places.old → first ≤ slice_index places.old k }
    requires high { (k : ℕ) → k < length places.old → here + (slice_index places.old k - first) < 2 ^ 16 }
    ensures { places.new ≡ map (moved first here) places.old }
{
    for place in places.iter_mut() {
        *place = here + (*place - first);
    }
}

/// Takes over the spans of the rows from one on to before another.
#[inline(always)]
fn copy_rows(
    starts: &mut Vec<u16>,
    spans: &mut Vec<Span>,
    before: &RowSpans,
    from: u16,
    to: u16,
) -> Result<(), NoMemory>
    requires order { from ≤ to }
    requires within { to ≤ CHUNK_SIDE }
    requires few { length spans.old.items ≤ CHUNK_SIDE / 2 * from }
    ensures { OnOk result ((on : ℕ → ℕ → ℕ) → IsCutTo on starts.old.items spans.old.items from
        → ((row column : ℕ) → from ≤ row → row < to → on row column ≡ held_at before.now row column)
        → IsCutTo on starts.new.items spans.new.items to) }
{
    let first = before.start(from);
    let end = before.start(to);
    let here = spans.len() as u16;
    let behind = starts.len();
    starts.extend_from_slice(before.ends(from, to))?;
    move_places(&mut starts[behind..], first, here);
    spans.extend_from_slice(before.between(first, end))?;
    Ok(())
}

/// The spans of a chunk's rows by those of before, where the rows from one on to before another have changed: these
/// have the bits.
pub fn cut_anew(
    alloc: Global,
    before: &RowSpans,
    from: u16,
    to: u16,
    bits: &ChunkBits,
) -> Result<RowSpans, NoMemory>
    requires order { from ≤ to }
    requires within { to ≤ CHUNK_SIDE }
    ensures runs { IfOk result (AreRuns (set_anew before.now from to bits.now)) }
    ensures are { IfOk result (λ runs. AreSpans before.now) }
{
    let mut starts = Vec::with_capacity(alloc, CHUNK_SIDE as usize + 1)?;
    let mut spans = Vec::with_capacity(alloc, before.len() + (to - from) as usize)?;
    starts.push(0)?;
    copy_rows(&mut starts, &mut spans, before, 0, from)?;
    for row in from..to {
        cut_row(&mut spans, bits.row(row))?;
        starts.push(spans.len() as u16)?;
    }
    copy_rows(&mut starts, &mut spans, before, to, CHUNK_SIDE)?;
    Ok(RowSpans { starts, spans })
}
