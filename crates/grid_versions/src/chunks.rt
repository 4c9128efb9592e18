//! The chunks of a map: how many, in which order, and their neighbours.
ghost use Rattle.std.specs.Prelude.{ℕ, ◌≡◌, ◌+◌, ◌<◌, ◌≤◌, IfSome, IfNone};
ghost use Rattle.nav_types.specs.declared.limits.TheConstants.{MAX_CHUNKS_ALONG, MAX_CHUNKS};
ghost use Rattle.grid_versions.specs.Chunks.{chunk_columns, chunk_rows, chunk_count, chunk_place};
ghost use Rattle.grid_versions.specs.inner.ChunkLists.{chunk_numbered, neighbour_on, IsChunkInside};

use nav_types::limits::CHUNK_SIDE;
use nav_types::{Chunk, Size};
use region_edges::ChunkSide;

/// How many columns of chunks a map of this size has, from 1 to `MAX_CHUNKS_ALONG`.
pub fn columns(size: Size) -> u16
    ensures value { result ≡ chunk_columns size }
    ensures some { 1 ≤ result }
    ensures few { result ≤ MAX_CHUNKS_ALONG }
{
    (size.w + (CHUNK_SIDE - 1)) / CHUNK_SIDE
}

/// How many rows of chunks a map of this size has, from 1 to `MAX_CHUNKS_ALONG`.
pub fn rows(size: Size) -> u16
    ensures value { result ≡ chunk_rows size }
    ensures some { 1 ≤ result }
    ensures few { result ≤ MAX_CHUNKS_ALONG }
{
    (size.h + (CHUNK_SIDE - 1)) / CHUNK_SIDE
}

/// How many chunks a map of this size has, from 1 to `MAX_CHUNKS`.
pub fn count(size: Size) -> u32
    ensures value { result ≡ chunk_count size }
    ensures few { result ≤ MAX_CHUNKS }
{
    u32::from(rows(size)) * u32::from(columns(size))
}

/// The place of a chunk in the order chunk row, chunk column, from 0.
pub fn place_of(size: Size, chunk: Chunk) -> u32
    requires { IsChunkInside size chunk }
    ensures value { result ≡ chunk_place size chunk }
    ensures within { result < chunk_count size }
{
    u32::from(chunk.cj) * u32::from(columns(size)) + u32::from(chunk.ci)
}

/// The chunk at a place.
pub fn numbered(size: Size, place: u32) -> Chunk
    requires { place < chunk_count size }
    ensures value { result ≡ chunk_numbered size place }
    ensures inside { IsChunkInside size result }
{
    let columns = u32::from(columns(size));
    Chunk {
        cj: (place / columns) as u16,
        ci: (place % columns) as u16,
    }
}

/// The neighbour of a chunk on that side. None exactly where it has no cell in the map.
pub fn neighbour(size: Size, chunk: Chunk, side: ChunkSide) -> Option<Chunk>
    requires { IsChunkInside size chunk }
    ensures some { IfSome result (λ there. there ≡ neighbour_on side chunk) }
    ensures inside { IfSome result (IsChunkInside size) }
    ensures none { IfNone result (IsChunkInside size (neighbour_on side chunk) → ⊥) }
{
    let (ci, cj) = match side {
        ChunkSide::East => (chunk.ci + 1, chunk.cj),
        ChunkSide::North => (chunk.ci, chunk.cj + 1),
    };
    if ci < columns(size) && cj < rows(size) {
        Some(Chunk { cj, ci })
    } else {
        None
    }
}

/// By how much the place of a neighbour on that side is above a chunk's own, at most `MAX_CHUNKS_ALONG`.
pub fn step_to(size: Size, side: ChunkSide) -> u32
    ensures value { (place : ℕ) → chunk_place size (neighbour_on side (chunk_numbered size place)) ≡ place + result }
    ensures few { result ≤ MAX_CHUNKS_ALONG }
{
    match side {
        ChunkSide::East => 1,
        ChunkSide::North => u32::from(columns(size)),
    }
}
