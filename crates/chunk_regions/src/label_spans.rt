//! The labelling of a chunk: its spans in row order, regions that are linked where two of them meet, and their numbers, which
//! are given once at the end.
ghost use Rattle.std.specs.Prelude.{ℕ, Bool, ◌≡◌, ◌+◌, ◌-◌, ◌*◌, ◌/◌, ◌<◌, ◌≤◌, [], ◌∷◌, ◌++◌, length, map, take, OnOk, IfOk, Some, slice_get, slice_index};
ghost use Rattle.nav_types.specs.declared.cells.Cell.{Cell};
ghost use Rattle.nav_types.specs.declared.cells.Chunk.{Chunk};
ghost use Rattle.nav_types.specs.declared.limits.TheConstants.{CHUNK_SIDE, CHUNK_CELLS, MAX_CHUNKS_ALONG};
ghost use Rattle.nav_types.specs.Cells.{cell_at};
ghost use Rattle.chunk_regions.specs.declared.spans.Span.{Span};
ghost use Rattle.chunk_regions.specs.inner.Spans.{Runs, IsPlace, IsCut, region_of};
ghost use Rattle.chunk_regions.specs.inner.Joining.{Overlap, Reach, LeadDown, IsRoot, IsRootOf, AreJoined, KeepsShared, IsNewest, KeepsJoining, AreUnited, AreBounded, AreGrown, AreNumbers, KeepsGroups, IsNumbered, number_in};

use crate::spans::{RowSpans, Span};
use nav_types::limits::CHUNK_SIDE;
use nav_types::{Cell, Chunk, NoMemory};
use std::alloc::Global;

/// How many regions there is room for at first: most chunks have no more at a time.
const FEW_REGIONS: usize = 32;

/// A span of a chunk: its row, and its place among the spans of all rows.
#[derive(Clone, Copy)]
pub struct Place {
    pub row: u16,
    pub at: usize,
}

/// The regions of the spans, and the first cells of all regions in order.
#[derive(Drop)]
pub struct Numbered {
    pub regions: Vec<u16>,
    pub firsts: Vec<Cell>,
}

/// The regions of the spans so far, with room for those of the others, and of each region in order the first cell and the
/// region that it is linked to: an earlier one that it meets, or itself.
#[derive(Drop)]
struct Growing {
    regions: Vec<u16>,
    firsts: Vec<Cell>,
    links: Vec<u16>,
}

/// The region that the links lead to from one.
#[inline(always)]
fn root(links: &[u16], region: u16) -> u16
    requires some { 1 ≤ region }
    requires known { region ≤ length links.now }
    requires down { LeadDown links.now }
    ensures { IsRootOf links.now region result }
{
    let mut at = region;
    let mut next = links[at as usize - 1];
    while next < at {
        at = next;
        next = links[at as usize - 1];
    }
    at
}

/// Links a root and the root of another region, the later to the earlier one, and gives the earlier.
#[inline(always)]
fn join(links: &mut [u16], region: u16, other: u16) -> u16
    requires root { IsRoot links.old region }
    requires some { 1 ≤ other }
    requires known { other ≤ length links.old }
    requires down { LeadDown links.old }
    ensures { AreJoined links.old region other links.new result }
{
    let other = root(links, other);
    let low = region.min(other);
    links[region.max(other) as usize - 1] = low;
    low
}

/// Links the region of the newest span with those of the spans from a place on that it overlaps in the row before, and
/// gives the earliest.
#[inline(always)]
fn join_rest(
    rows: &RowSpans,
    all: &mut Growing,
    place: Place,
    region: u16,
    from: usize,
    end: usize,
) -> u16
    requires place { IsPlace rows.now place }
    requires from { slice_index rows.now.starts (place.row - 1) ≤ from }
    requires end { end ≡ slice_index rows.now.starts place.row }
    requires room { place.at < length all.old.regions.items }
    requires grown { AreGrown (take place.at all.old.regions.items) all.old.firsts.items all.old.links.items }
    requires reach { (span : Span) → slice_get rows.now.spans place.at ≡ Some span → Reach rows.now span.first from end }
    requires newest { IsNewest rows.now (take place.at all.old.regions.items) all.old.links.items place region from }
    ensures regions { all.new.regions.items ≡ all.old.regions.items }
    ensures firsts { all.new.firsts.items ≡ all.old.firsts.items }
    ensures grown { AreGrown (take place.at all.old.regions.items) all.old.firsts.items all.new.links.items }
    ensures kept { KeepsShared all.old.links.items all.new.links.items }
    ensures newest { IsNewest rows.now (take place.at all.old.regions.items) all.new.links.items place result end }
    ensures groups { (chunk : Chunk) → KeepsJoining chunk rows.now (take place.at all.old.regions.items)
        all.old.firsts.items place all.old.links.items region all.new.links.items result }
{
    let last = rows.span(place.at).last;
    let mut region = region;
    for south in from..end {
        // the spans of a row rise, so none from here on overlaps
        if last < rows.span(south).first {
            return region;
        }
        region = join(&mut all.links, region, all.regions[south]);
    }
    region
}

/// Gives the newest span a region of its own: its first cell is then the region's first.
#[inline(never)]
fn begin(all: &mut Growing, chunk: Chunk, place: Place, span: Span) -> Result<(), NoMemory>
    requires column { chunk.ci < MAX_CHUNKS_ALONG }
    requires row { chunk.cj < MAX_CHUNKS_ALONG }
    requires here { place.row < CHUNK_SIDE }
    requires few { length all.old.firsts.items < CHUNK_CELLS / 2 }
    requires room { place.at < length all.old.regions.items }
    ensures length { length all.new.regions.items ≡ length all.old.regions.items }
    ensures regions { OnOk result (take (place.at + 1) all.new.regions.items
        ≡ take place.at all.old.regions.items ++ (length all.old.firsts.items + 1) ∷ []) }
    ensures firsts { OnOk result (all.new.firsts.items
        ≡ all.old.firsts.items ++ cell_at (CHUNK_SIDE * chunk.ci + span.first) (CHUNK_SIDE * chunk.cj + place.row) ∷ []) }
    ensures links { OnOk result (all.new.links.items
        ≡ all.old.links.items ++ (length all.old.firsts.items + 1) ∷ []) }
{
    all.firsts.push(Cell::new(
        chunk.ci * CHUNK_SIDE + u16::from(span.first),
        chunk.cj * CHUNK_SIDE + place.row,
    ))?;
    let region = all.firsts.len() as u16;
    all.links.push(region)?;
    all.regions[place.at] = region;
    Ok(())
}

/// Gives the next span its region, where those of the row before that it overlaps stand from `south` on.
#[inline(always)]
fn number_span(
    rows: &RowSpans,
    all: &mut Growing,
    chunk: Chunk,
    place: Place,
    south: usize,
    end: usize,
) -> Result<(), NoMemory>
    requires place { IsPlace rows.now place }
    requires column { chunk.ci < MAX_CHUNKS_ALONG }
    requires row { chunk.cj < MAX_CHUNKS_ALONG }
    requires from { slice_index rows.now.starts (place.row - 1) ≤ south }
    requires to { south ≤ end }
    requires end { end ≡ slice_index rows.now.starts place.row }
    requires reach { (span : Span) → slice_get rows.now.spans place.at ≡ Some span → Reach rows.now span.first south end }
    requires passed { (s : Place) → Overlap rows.now s place → south ≤ s.at }
    requires room { place.at < length all.old.regions.items }
    requires grown { AreGrown (take place.at all.old.regions.items) all.old.firsts.items all.old.links.items }
    requires united { AreUnited rows.now (take place.at all.old.regions.items) all.old.links.items place.at }
    ensures length { length all.new.regions.items ≡ length all.old.regions.items }
    ensures grown { OnOk result (AreGrown (take (place.at + 1) all.new.regions.items) all.new.firsts.items
        all.new.links.items) }
    ensures united { OnOk result (AreUnited rows.now (take (place.at + 1) all.new.regions.items) all.new.links.items
        (place.at + 1)) }
    ensures groups { OnOk result (KeepsGroups chunk rows.now (take place.at all.old.regions.items) all.old.firsts.items
        all.old.links.items (take (place.at + 1) all.new.regions.items) all.new.firsts.items all.new.links.items) }
{
    let span = rows.span(place.at);
    if south == end || span.last < rows.span(south).first {
        begin(all, chunk, place, span)?;
        return Ok(());
    }
    let region = root(&all.links, all.regions[south]);
    let region = join_rest(rows, all, place, region, south + 1, end);
    all.regions[place.at] = region;
    Ok(())
}

/// The first of a row's spans from a place on that reaches the column, or the row's end.
#[inline(always)]
fn first_reaching(rows: &RowSpans, from: usize, end: usize, column: u8) -> usize
    requires order { from ≤ end }
    requires within { end ≤ length rows.now.spans }
    ensures from { from ≤ result }
    ensures to { result ≤ end }
    ensures short { (k : ℕ) (span : Span) → from ≤ k → k < result → slice_get rows.now.spans k ≡ Some span
        → span.last < column }
    ensures reaches { (span : Span) → result < end → slice_get rows.now.spans result ≡ Some span → column ≤ span.last }
{
    for at in from..end {
        if column <= rows.span(at).last {
            return at;
        }
    }
    end
}

/// Gives the spans of one row their regions, side by side with those of the row before, and says where they end: `start`
/// is the place of the row's first span, and `south` that of the row before.
#[inline(always)]
fn number_row(
    rows: &RowSpans,
    all: &mut Growing,
    chunk: Chunk,
    row: u16,
    south: usize,
    start: usize,
) -> Result<usize, NoMemory>
    requires here { row < CHUNK_SIDE }
    requires column { chunk.ci < MAX_CHUNKS_ALONG }
    requires row { chunk.cj < MAX_CHUNKS_ALONG }
    requires south { south ≡ slice_index rows.now.starts (row - 1) }
    requires start { start ≡ slice_index rows.now.starts row }
    requires room { length all.old.regions.items ≡ length rows.now.spans }
    requires grown { AreGrown (take start all.old.regions.items) all.old.firsts.items all.old.links.items }
    requires united { AreUnited rows.now (take start all.old.regions.items) all.old.links.items start }
    ensures end { IfOk result (λ end. end ≡ slice_index rows.now.starts (row + 1)) }
    ensures length { length all.new.regions.items ≡ length all.old.regions.items }
    ensures grown { IfOk result (λ end. AreGrown (take end all.new.regions.items) all.new.firsts.items
        all.new.links.items) }
    ensures united { IfOk result (λ end. AreUnited rows.now (take end all.new.regions.items) all.new.links.items end) }
    ensures groups { IfOk result (λ end. KeepsGroups chunk rows.now (take start all.old.regions.items)
        all.old.firsts.items all.old.links.items (take end all.new.regions.items) all.new.firsts.items
        all.new.links.items) }
{
    let end = rows.start(row + 1) as usize;
    let mut reached = south;
    for at in start..end {
        reached = first_reaching(rows, reached, start, rows.span(at).first);
        number_span(rows, all, chunk, Place { row, at }, reached, start)?;
    }
    Ok(end)
}

/// How many regions are linked to none before them.
fn count_roots(links: &[u16]) -> usize {
    let mut count = 0usize;
    for place in 0..links.len() {
        if links[place] as usize > place {
            count = count.saturating_add(1);
        }
    }
    count
}

/// Gives each region its number in place of its link, and lists the first cells of the numbered ones: the regions that are
/// linked to none before them have numbers in their order, and the others have that of the region that they link to.
fn number_regions(alloc: Global, firsts: &[Cell], links: &mut [u16]) -> Result<Vec<Cell>, NoMemory>
    requires each { length links.old ≡ length firsts.now }
    requires few { length firsts.now ≤ CHUNK_CELLS / 2 }
    requires down { LeadDown links.old }
    ensures length { length links.new ≡ length links.old }
    ensures numbers { IfOk result (λ roots. AreNumbers firsts.now links.old links.new roots.items (length links.old)) }
{
    let mut roots = Vec::with_capacity(alloc, count_roots(links))?;
    for place in 0..links.len() {
        let link = links[place] as usize;
        if link > place {
            roots.push(firsts[place])?;
            links[place] = roots.len() as u16;
        } else {
            links[place] = links[link - 1];
        }
    }
    Ok(roots)
}

/// Gives spans the numbers of their regions.
fn number_spans(regions: &mut [u16], numbers: &[u16])
    requires known { (k : ℕ) → k < length regions.old
        → (1 ≤ slice_index regions.old k) × (slice_index regions.old k ≤ length numbers.now) }
    ensures { regions.new ≡ map (number_in numbers.now) regions.old }
{
    for region in regions.iter_mut() {
        *region = numbers[*region as usize - 1];
    }
}

/// Numbers the regions of all spans.
pub fn number_all(alloc: Global, chunk: Chunk, rows: &RowSpans) -> Result<Numbered, NoMemory>
    requires column { chunk.ci < MAX_CHUNKS_ALONG }
    requires row { chunk.cj < MAX_CHUNKS_ALONG }
    ensures regions { IfOk result (λ all. length all.regions.items ≡ length rows.now.spans) }
    ensures few { IfOk result (λ all. length all.firsts.items ≤ CHUNK_CELLS / 2) }
    ensures bounded { IfOk result (λ all. AreBounded all.regions.items all.firsts.items) }
    ensures numbered { IfOk result (λ all. (passes : Cell → Bool) → IsCut passes chunk rows.now
        → IsNumbered passes (region_of chunk rows.now all.regions.items) all.firsts.items) }
{
    let mut all = Growing {
        regions: vec![in alloc; 0; rows.len()]?,
        firsts: Vec::with_capacity(alloc, FEW_REGIONS)?,
        links: Vec::with_capacity(alloc, FEW_REGIONS)?,
    };
    // before the first row there is none, and `south` is where its own spans begin
    let mut south = 0;
    let mut start = 0;
    for row in 0..CHUNK_SIDE {
        let end = number_row(rows, &mut all, chunk, row, south, start)?;
        south = start;
        start = end;
    }
    let firsts = number_regions(alloc, &all.firsts, &mut all.links)?;
    number_spans(&mut all.regions, &all.links);
    Ok(Numbered {
        regions: all.regions,
        firsts,
    })
}
