//! The region edges across the borders of chunks.
ghost use Rattle.std.specs.Prelude.{ℕ, Bool, IsTrue, IsFalse, ◌≡◌, ◌++◌, ◌<◌, ◌≤◌, ◌↔◌, ◌⊎◌, All, List, OnOk, IfOk, IfSome, map, length, Contains};
ghost use Rattle.std.specs.Prelude.{slice_get, Some};
ghost use Rattle.nav_types.specs.declared.cells.Cell.{Cell};
ghost use Rattle.nav_types.specs.declared.cells.Chunk.{Chunk};
ghost use Rattle.nav_types.specs.declared.cells.Size.{Size};
ghost use Rattle.nav_types.specs.Cells.{IsInRect};
ghost use Rattle.nav_types.specs.Rects.{IsPartOf, chunk_rect};
ghost use Rattle.grid_versions.specs.declared.dirty_parts.DirtyPart.{DirtyPart};
ghost use Rattle.grid_versions.specs.inner.Keeping.{IsKeptPart, IsFirstOn, IsLastOn, SameRegions};
ghost use Rattle.reach_sets.specs.declared.regions.RegionId.{RegionId};
ghost use Rattle.region_edges.specs.Edges.{AreEdges, PassesInside};
ghost use Rattle.grid_versions.specs.Chunks.{chunk_count};
ghost use Rattle.grid_versions.specs.inner.ChunkLists.{chunk_numbered, neighbour_on, IsRemadeAt};
ghost use Rattle.grid_versions.specs.inner.Changing.{AreChanges, AgreeInChunk};
ghost use Rattle.grid_versions.specs.inner.Tables.{AreAllLabels, AreAllEdges};
ghost use Rattle.grid_versions.specs.inner.Building.{IsLaidOut, IsSideLink, link_between};

use crate::chunks;
use crate::dirty_parts::DirtyPart;
use crate::relabelling::{Changed, is_marked, next_marked};
use chunk_regions::Labels;
use nav_types::limits::CHUNK_SIDE;
use nav_types::{NoMemory, Rect, Size};
use reach_sets::{Links, RegionId};
use region_edges::{ChunkSide, Edges, between};
use shared_list::SharedList;
use std::alloc::Global;

/// The border between the chunk at a place and its neighbour on that side.
#[derive(Clone, Copy)]
struct Border {
    place: u32,
    side: ChunkSide,
}

/// The region edges of the chunk at a place to its neighbour on that side; none where the map has no such neighbour.
fn edges_at(
    alloc: Global,
    size: Size,
    labels: &SharedList<Labels>,
    border: Border,
) -> Result<Edges, NoMemory>
    requires labels { IsLaidOut size labels.now }
    requires within { border.place < chunk_count size }
    ensures { IfOk result (λ edges. (passes : Cell → Bool) → PassesInside passes size
        → AreAllLabels passes size labels.now
        → AreEdges passes (chunk_numbered size border.place) (neighbour_on border.side (chunk_numbered size border.place)) edges) }
{
    let here = chunks::numbered(size, border.place);
    match chunks::neighbour(size, here, border.side) {
        Some(there) => {
            let to = chunks::place_of(size, there);
            between(
                alloc,
                labels.at(border.place as usize),
                labels.at(to as usize),
                border.side,
            )
        }
        None => Ok(Edges::new(alloc)),
    }
}

/// The region edges of each chunk to its neighbour on that side.
pub fn all_edges(
    alloc: Global,
    size: Size,
    labels: &SharedList<Labels>,
    side: ChunkSide,
) -> Result<SharedList<Edges>, NoMemory>
    requires { IsLaidOut size labels.now }
    ensures { IfOk result (λ all. (passes : Cell → Bool) → PassesInside passes size
        → AreAllLabels passes size labels.now
        → AreAllEdges side passes size all) }
{
    let count = chunks::count(size);
    let mut all = SharedList::with_capacity(alloc, count as usize)?;
    for place in 0..count {
        let edges = edges_at(alloc, size, labels, Border { place, side })?;
        all.push(alloc, edges)?;
    }
    Ok(all)
}

/// The labels of all chunks, with the parts outside of which the regions of their chunks have the numbers of before.
#[derive(Drop)]
pub struct Relabelled<'a> {
    pub labels: &'a SharedList<Labels>,
    pub kept: &'a [DirtyPart],
}

/// The listed part of the chunk at a place.
fn listed_part(parts: &[DirtyPart], place: u32) -> Option<Rect>
    ensures { IfSome result (λ rect. Contains parts.now (record { place = place; rect = rect })) }
{
    for part in parts {
        if part.place == place {
            return Some(part.rect);
        }
    }
    None
}

/// Whether a part of a chunk has cells of the chunk's last column, or of its last row.
fn meets_last(part: Rect, side: ChunkSide) -> bool
    ensures { IsFalse result → (size : Size) (chunk : Chunk) → IsPartOf (chunk_rect size chunk) part
        → (cell : Cell) → IsLastOn side cell → IsInRect part cell → ⊥ }
{
    match side {
        ChunkSide::East => part.i1 % CHUNK_SIDE + 1 == CHUNK_SIDE,
        ChunkSide::North => part.j1 % CHUNK_SIDE + 1 == CHUNK_SIDE,
    }
}

/// Whether a part of a chunk has cells of the chunk's first column, or of its first row.
fn meets_first(part: Rect, side: ChunkSide) -> bool
    ensures { IsFalse result → (size : Size) (chunk : Chunk) → IsPartOf (chunk_rect size chunk) part
        → (cell : Cell) → IsFirstOn side cell → IsInRect part cell → ⊥ }
{
    match side {
        ChunkSide::East => part.i0 % CHUNK_SIDE == 0,
        ChunkSide::North => part.j0 % CHUNK_SIDE == 0,
    }
}

/// Whether the chunk at the border's place is the same along the border. It says so only where it is.
fn stays_here(size: Size, kept: &[DirtyPart], changed: &Changed<'_>, border: Border) -> bool
    requires within { border.place < chunk_count size }
    requires each { length changed.now.bits.now ≡ chunk_count size }
    ensures { IsTrue result → (old now : Cell → Bool) → AreChanges old now size changed.now.class changed.now.bits.now
        → All (IsKeptPart old now size) kept.now
        → SameRegions old now (chunk_numbered size border.place) (IsLastOn border.side) }
{
    if !is_marked(changed, border.place) {
        return true;
    }
    match listed_part(kept, border.place) {
        Some(part) => !meets_last(part, border.side),
        None => false,
    }
}

/// Whether the neighbour across the border is the same along it. It says so only where it is.
fn stays_there(size: Size, kept: &[DirtyPart], changed: &Changed<'_>, border: Border) -> bool
    requires within { border.place < chunk_count size }
    requires each { length changed.now.bits.now ≡ chunk_count size }
    ensures { IsTrue result → (old now : Cell → Bool) → AreChanges old now size changed.now.class changed.now.bits.now
        → All (IsKeptPart old now size) kept.now
        → SameRegions old now (neighbour_on border.side (chunk_numbered size border.place)) (IsFirstOn border.side) }
{
    // Where the map has such a neighbour, this is its place.
    let next = border.place + chunks::step_to(size, border.side);
    if next as usize >= changed.bits.bits().len() {
        return true;
    }
    if !is_marked(changed, next) {
        return true;
    }
    match listed_part(kept, next) {
        Some(part) => !meets_first(part, border.side),
        None => false,
    }
}

/// Whether both chunks are the same along their border. It says so only where they are.
fn keeps_edges(size: Size, kept: &[DirtyPart], changed: &Changed<'_>, border: Border) -> bool
    requires within { border.place < chunk_count size }
    requires each { length changed.now.bits.now ≡ chunk_count size }
    ensures { IsTrue result → (old now : Cell → Bool) → AreChanges old now size changed.now.class changed.now.bits.now
        → All (IsKeptPart old now size) kept.now
        → SameRegions old now (chunk_numbered size border.place) (IsLastOn border.side)
        × SameRegions old now (neighbour_on border.side (chunk_numbered size border.place)) (IsFirstOn border.side) }
{
    if !stays_here(size, kept, changed, border) {
        return false;
    }
    stays_there(size, kept, changed, border)
}

/// A place from the border's on, and before it no chunk from there on, nor its neighbour on that side, has changed for the
/// class.
fn next_touched(size: Size, changed: &Changed<'_>, border: Border) -> u32
    requires within { border.place ≤ chunk_count size }
    requires each { length changed.now.bits.now ≡ chunk_count size }
    ensures from { border.place ≤ result }
    ensures none { (place : ℕ) → border.place ≤ place → place < result → place < chunk_count size
        → (old now : Cell → Bool) → AreChanges old now size changed.now.class changed.now.bits.now
        → AgreeInChunk old now (chunk_numbered size place) × AgreeInChunk old now (neighbour_on border.side (chunk_numbered size place)) }
{
    let step = chunks::step_to(size, border.side);
    let own = next_marked(changed, border.place);
    // Where the map has such a neighbour, it lies a step further.
    let beside = next_marked(changed, border.place + step) - step;
    own.min(beside)
}

/// Finds anew the region edges of the chunk at a place to its neighbour on that side, where one of the two has changed
/// along the border for the class. It says whether they are those of before.
fn reconnect_at(
    alloc: Global,
    size: Size,
    made: &Relabelled<'_>,
    all: &mut SharedList<Edges>,
    changed: &Changed<'_>,
    border: Border,
) -> Result<bool, NoMemory>
    requires labels { IsLaidOut size made.now.labels.now }
    requires each { length all.old ≡ chunk_count size }
    requires changed { length changed.now.bits.now ≡ chunk_count size }
    requires within { border.place < chunk_count size }
    ensures edges { OnOk result (IsRemadeAt border.place (λ edges. (old now : Cell → Bool)
        → AreChanges old now size changed.now.class changed.now.bits.now
        → All (IsKeptPart old now size) made.now.kept.now → AreAllLabels now size made.now.labels.now
        → ((was : List (ℕ × ℕ)) → slice_get all.old border.place ≡ Some was
        → AreEdges old (chunk_numbered size border.place) (neighbour_on border.side (chunk_numbered size border.place)) was)
        → AreEdges now (chunk_numbered size border.place) (neighbour_on border.side (chunk_numbered size border.place)) edges)
        all.old all.new) }
    ensures stays { IfOk result (λ stays. IsTrue stays → all.new ≡ all.old) }
{
    if keeps_edges(size, made.kept, changed, border) {
        return Ok(true);
    }
    let edges = edges_at(alloc, size, made.labels, border)?;
    if all.at(border.place as usize).as_slice() == edges.as_slice() {
        return Ok(true);
    }
    all.set(alloc, border.place as usize, edges)?;
    Ok(false)
}

/// Finds anew the region edges to the neighbours on that side, from those of before, the new regions and the bits of
/// what has changed. Two chunks of which neither has changed along their border for the class keep their edges. It says
/// whether all edges are those of before.
fn reconnect(
    alloc: Global,
    size: Size,
    made: &Relabelled<'_>,
    all: &mut SharedList<Edges>,
    changed: &Changed<'_>,
    side: ChunkSide,
) -> Result<bool, NoMemory>
    requires labels { IsLaidOut size made.now.labels.now }
    requires each { length all.old ≡ chunk_count size }
    requires changed { length changed.now.bits.now ≡ chunk_count size }
    ensures edges { OnOk result ((old now : Cell → Bool) → AreChanges old now size changed.now.class changed.now.bits.now
        → All (IsKeptPart old now size) made.now.kept.now → AreAllLabels now size made.now.labels.now
        → AreAllEdges side old size all.old → AreAllEdges side now size all.new) }
    ensures stay { IfOk result (λ stay. IsTrue stay → all.new ≡ all.old) }
{
    let count = chunks::count(size);
    let mut stay = true;
    let mut place = next_touched(size, changed, Border { place: 0, side });
    'places: while place < count {
        let stays = reconnect_at(alloc, size, made, all, changed, Border { place, side })?;
        stay &= stays;
        let next = place + 1;
        place = next_touched(size, changed, Border { place: next, side });
    }
    Ok(stay)
}

/// The region edges to the neighbours on that side from those of before, as `reconnect` finds them, and whether all are
/// the same. Lists of chunks that keep their edges are shared.
pub fn next_edges(
    alloc: Global,
    size: Size,
    made: &Relabelled<'_>,
    before: &SharedList<Edges>,
    changed: &Changed<'_>,
    side: ChunkSide,
) -> Result<(SharedList<Edges>, bool), NoMemory>
    requires labels { IsLaidOut size made.now.labels.now }
    requires each { length before.now ≡ chunk_count size }
    requires changed { length changed.now.bits.now ≡ chunk_count size }
    ensures edges { IfOk result (λ next. (old now : Cell → Bool) → AreChanges old now size changed.now.class changed.now.bits.now
        → All (IsKeptPart old now size) made.now.kept.now → AreAllLabels now size made.now.labels.now
        → AreAllEdges side old size before.now → AreAllEdges side now size next.0) }
    ensures stay { IfOk result (λ next. IsTrue next.1 → next.0 ≡ before.now) }
{
    let mut all = before.share(alloc)?;
    let stay = reconnect(alloc, size, made, &mut all, changed, side)?;
    Ok((all, stay))
}

/// Appends the edges of two chunks as links, where the chunks are named by their places.
fn push_links(
    links: &mut Links,
    here: u32,
    there: u32,
    edges: &[(u16, u16)],
) -> Result<(), NoMemory>
    ensures { OnOk result (links.new ≡ links.old ++ map (link_between here there) edges.now) }
{
    for edge in edges {
        let from = RegionId {
            chunk: here,
            region: edge.0,
        };
        let to = RegionId {
            chunk: there,
            region: edge.1,
        };
        links.push((from, to))?;
    }
    Ok(())
}

/// Appends all edges on that side as links.
fn push_side(
    links: &mut Links,
    size: Size,
    edges: &SharedList<Edges>,
    side: ChunkSide,
) -> Result<(), NoMemory>
    requires { length edges.now ≤ chunk_count size }
    ensures { OnOk result ((link : RegionId × RegionId)
        → Contains links.new link ↔ (Contains links.old link ⊎ IsSideLink size side edges.now link)) }
{
    let step = chunks::step_to(size, side);
    for place in 0..edges.len() {
        let here = place as u32;
        push_links(links, here, here + step, edges.at(place).as_slice())?;
    }
    Ok(())
}

/// All edges as links.
pub fn all_links(
    alloc: Global,
    size: Size,
    east: &SharedList<Edges>,
    north: &SharedList<Edges>,
) -> Result<Links, NoMemory>
    requires east { length east.now ≤ chunk_count size }
    requires north { length north.now ≤ chunk_count size }
    ensures { IfOk result (λ links. (link : RegionId × RegionId)
        → Contains links link
        ↔ (IsSideLink size ChunkSide.East east.now link ⊎ IsSideLink size ChunkSide.North north.now link)) }
{
    // room for the links of most maps
    let room = 8 * chunks::count(size) as usize;
    let mut links = Links::from(Vec::with_capacity(alloc, room)?);
    push_side(&mut links, size, east, ChunkSide::East)?;
    push_side(&mut links, size, north, ChunkSide::North)?;
    Ok(links)
}
