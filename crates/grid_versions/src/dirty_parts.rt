//! The parts of the chunks that edits reach.
ghost use Rattle.std.specs.Prelude.{ℕ, ◌≡◌, ◌<◌, ◌+◌, ◌*◌, ◌/◌, ◌⊎◌, Contains, IfOk, IsTrue, IfSome, IsSomeAnd, OnOk};
ghost use Rattle.nav_types.specs.declared.cells.Cell.{Cell};
ghost use Rattle.nav_types.specs.Cells.{IsInRect};
ghost use Rattle.nav_types.specs.Rects.{IsPartOf, chunk_rect};
ghost use Rattle.nav_types.specs.declared.limits.TheConstants.{CHUNK_SIDE};
ghost use Rattle.grid_versions.specs.Chunks.{chunk_columns, chunk_count};
ghost use Rattle.grid_versions.specs.inner.ChunkLists.{chunk_numbered};
ghost use Rattle.grid_versions.specs.inner.Reaching.{is_in_some, HoldsReached};
ghost use Rattle.grid_versions.specs.inner.ReachedParts.{AreReachedParts, AreReachedPlaces, HasPart, IsReachedPart, IsUnreached, Misses};
ghost use Rattle.grid_versions.specs.declared.dirty_parts.DirtyPart.{DirtyPart};

use crate::chunks;
use nav_types::limits::CHUNK_SIDE;
use nav_types::{NoMemory, Rect, Size};
use std::alloc::Global;
use std::marker::Model;

/// The part of a chunk that edits reach.
#[derive(Clone, Copy)]
pub struct DirtyPart {
    /// The place of the chunk.
    pub place: u32,
    /// The cells.
    pub rect: Rect,
}

/// The parts of the chunks that rectangles reach, by rising places, worked out once. The other chunks are not among
/// them. Contracts see the map's size and the rectangles (`Reached`).
#[derive(Drop)]
pub struct DirtyParts<'a> {
    size: Size,
    reaches: &'a [Rect],
    parts: Vec<DirtyPart>,
}

impl<'a> Model for DirtyParts<'a> {
    ghost use Rattle.grid_versions.specs.inner.Reaching.{Reached};
    ghost use Rattle.grid_versions.specs.inner.ReachedParts.{AreReachedParts};

    ghost Value = { Reached };

    ghost view = { λ d. record { size = d.size; rects = d.reaches.now } };

    ghost invariant = { λ d. AreReachedParts d.size d.reaches.now d.parts.items };
}

impl<'a> DirtyParts<'a> {
    /// The parts that the rectangles reach, of a map of this size.
    pub fn new(alloc: Global, size: Size, reaches: &'a [Rect]) -> Result<DirtyParts<'a>, NoMemory>
        ensures { IfOk result (λ dirty. dirty ≡ record { size = size; rects = reaches.now }) }
    {
        let parts = reached_parts(alloc, size, reaches)?;
        Ok(DirtyParts {
            size,
            reaches,
            parts,
        })
    }

    /// The parts.
    pub fn parts(&self) -> &[DirtyPart]
        ensures { AreReachedParts self.now.size self.now.rects result.now }
    {
        &self.parts
    }

    /// The part of the chunk at a place, which holds the chunk's cells that lie in one of the rectangles. None only where
    /// there is no such cell.
    pub fn part_at(&self, place: u32) -> Option<Rect>
        requires { place < chunk_count self.now.size }
        ensures { HoldsReached self.now.rects (chunk_rect self.now.size (chunk_numbered self.now.size place)) result }
    {
        let parts = self.parts();
        for part in parts {
            if part.place == place {
                return Some(part.rect);
            }
        }
        None
    }
}

/// The least rectangle that holds the first one, if there is one, and what the second has in common with `rect`.
fn widened(part: Option<Rect>, reach: Rect, rect: Rect) -> Option<Rect>
    requires { IfSome part (IsPartOf rect) }
    ensures part { IfSome result (IsPartOf rect) }
    ensures first { (cell : Cell) → IsSomeAnd part (λ r. IsInRect r cell) → IsSomeAnd result (λ r. IsInRect r cell) }
    ensures second { (cell : Cell) → IsInRect rect cell → IsInRect reach cell
        → IsSomeAnd result (λ r. IsInRect r cell) }
{
    match (part, reach.intersection(rect)) {
        (Some(a), Some(b)) => Some(a.union(b)),
        (None, found) => found,
        (found, None) => found,
    }
}

/// The least rectangle that holds all cells of `rect` that lie in one of the reaches. None only where there is no such
/// cell.
fn dirty_part(reaches: &[Rect], rect: Rect) -> Option<Rect>
    ensures part { IfSome result (IsPartOf rect) }
    ensures held { (cell : Cell) → IsInRect rect cell → IsTrue (is_in_some reaches.now cell)
        → IsSomeAnd result (λ part. IsInRect part cell) }
{
    let mut part = None;
    for reach in reaches {
        part = widened(part, *reach, rect);
    }
    part
}

/// Appends the place of a chunk, if the rectangle reaches the chunk.
fn push_place(size: Size, reach: Rect, place: u32, places: &mut Vec<u32>) -> Result<(), NoMemory>
    requires { place < chunk_count size }
    ensures within { OnOk result (((k : ℕ) → Contains places.old.items k → k < chunk_count size)
        → (k : ℕ) → Contains places.new.items k → k < chunk_count size) }
    ensures kept { OnOk result ((k : ℕ) → Contains places.old.items k → Contains places.new.items k) }
    ensures reached { OnOk result (Contains places.new.items place ⊎ Misses size reach place) }
{
    let rect = Rect::of_chunk(size, chunks::numbered(size, place));
    if !reach.meets(rect) {
        return Ok(());
    }
    places.push(place)?;
    Ok(())
}

/// The place of the chunk that holds the cell of a column and a row.
fn place_at(size: Size, i: u16, j: u16) -> u32
    ensures { result ≡ j / CHUNK_SIDE * chunk_columns size + i / CHUNK_SIDE }
{
    u32::from(j / CHUNK_SIDE) * u32::from(chunks::columns(size)) + u32::from(i / CHUNK_SIDE)
}

/// The place behind that of the chunk that holds the cell of a column and a row.
fn place_behind(size: Size, i: u16, j: u16) -> u32
    ensures { result ≡ j / CHUNK_SIDE * chunk_columns size + i / CHUNK_SIDE + 1 }
{
    u32::from(j / CHUNK_SIDE) * u32::from(chunks::columns(size)) + u32::from(i / CHUNK_SIDE) + 1
}

/// Appends the places of the chunks that the rectangle reaches.
fn push_reached(size: Size, reach: Rect, places: &mut Vec<u32>) -> Result<(), NoMemory>
    ensures within { OnOk result (((k : ℕ) → Contains places.old.items k → k < chunk_count size)
        → (k : ℕ) → Contains places.new.items k → k < chunk_count size) }
    ensures kept { OnOk result ((k : ℕ) → Contains places.old.items k → Contains places.new.items k) }
    ensures reached { OnOk result ((k : ℕ) → k < chunk_count size
        → Contains places.new.items k ⊎ Misses size reach k) }
{
    let first = place_at(size, reach.i0, reach.j0);
    let behind = place_behind(size, reach.i1, reach.j1);
    let end = chunks::count(size).min(behind);
    for place in first..end {
        push_place(size, reach, place, places)?;
    }
    Ok(())
}

/// The places of the chunks that one of the rectangles reaches, rising, each once.
fn reached_places(alloc: Global, size: Size, reaches: &[Rect]) -> Result<Vec<u32>, NoMemory>
    ensures { IfOk result (λ places. AreReachedPlaces size reaches.now places.items) }
{
    let mut places = Vec::with_capacity(alloc, reaches.len())?;
    for reach in reaches {
        push_reached(size, *reach, &mut places)?;
    }
    places.sort_unstable();
    places.dedup();
    Ok(places)
}

/// Appends the part of a chunk that the rectangles reach, if there is one.
fn push_dirty(
    size: Size,
    reaches: &[Rect],
    place: u32,
    parts: &mut Vec<DirtyPart>,
) -> Result<(), NoMemory>
    requires { place < chunk_count size }
    ensures each { OnOk result (((part : DirtyPart) → Contains parts.old.items part → IsReachedPart size reaches.now part)
        → (part : DirtyPart) → Contains parts.new.items part → IsReachedPart size reaches.now part) }
    ensures kept { OnOk result ((k : ℕ) → HasPart parts.old.items k → HasPart parts.new.items k) }
    ensures reached { OnOk result (HasPart parts.new.items place ⊎ IsUnreached size reaches.now place) }
{
    let chunk = Rect::of_chunk(size, chunks::numbered(size, place));
    let Some(rect) = dirty_part(reaches, chunk) else {
        return Ok(());
    };
    parts.push(DirtyPart { place, rect })?;
    Ok(())
}

/// The parts of the chunks that one of the rectangles reaches, by rising places.
fn reached_parts(alloc: Global, size: Size, reaches: &[Rect]) -> Result<Vec<DirtyPart>, NoMemory>
    ensures { IfOk result (λ parts. AreReachedParts size reaches.now parts.items) }
{
    let places = reached_places(alloc, size, reaches)?;
    let mut parts = Vec::with_capacity(alloc, places.len())?;
    let listed = places.as_slice();
    for place in listed {
        push_dirty(size, reaches, *place, &mut parts)?;
    }
    Ok(parts)
}
