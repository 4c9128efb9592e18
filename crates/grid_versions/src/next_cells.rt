//! The cells of the next version: a chunk that no edit reaches is shared.
ghost use Rattle.std.specs.Prelude.{ℕ, ◌≡◌, ◌↔◌, ◌*◌, ◌<◌, length, slice_get, Some, IfOk};
ghost use Rattle.std.specs.Int.{bit_at};
ghost use Rattle.std.specs.Arc.{arc_value};
ghost use Rattle.nav_types.specs.declared.cells.Cell.{Cell};
ghost use Rattle.nav_types.specs.Cells.{IsInRect, IsRectInside};
ghost use Rattle.nav_types.specs.Numbering.{Numbering, columns, rows, number_of};
ghost use Rattle.lane_rows.specs.Rows.{has_class};
ghost use Rattle.navcell_grid.specs.Patches.{DiffersIn};
ghost use Rattle.nav_types.specs.Rects.{IsPartOf};
ghost use Rattle.obstruction_store.specs.Standing.{AllFit};
ghost use Rattle.grid_versions.specs.Chunks.{chunk_count};
ghost use Rattle.grid_versions.specs.inner.ChunkLists.{chunk_numbered};
ghost use Rattle.grid_versions.specs.Passing.{has_base};
ghost use Rattle.grid_versions.specs.inner.Painting.{is_covered, AreBaseChunks, ArePaintedChunks, IsPaintedChunk, AreDiffering};
ghost use Rattle.grid_versions.specs.inner.Reachers.{AreReachers, HoldReachers};
ghost use Rattle.grid_versions.specs.inner.ReachedParts.{IsReachedPart};
ghost use Rattle.grid_versions.specs.inner.Reaching.{AreBefore, IsCoveredBefore};

use crate::dirty_parts::{DirtyPart, DirtyParts};
use crate::painting::{Paint, repainted, repainted_below};
use crate::sites::Site;
use nav_types::{NoMemory, Rect};
use navcell_grid::Patch;
use obstruction_store::Ids;
use shared_list::SharedList;
use std::alloc::Global;
use std::sync::Arc;

/// What the numbers of all chunks are painted from: the map with what stands on it, the numbers under the base rectangles
/// alone, and the obstructions that reach into each chunk.
#[derive(Drop)]
pub struct CellSource<'a> {
    pub site: &'a Site<'a>,
    pub base: &'a SharedList<Patch>,
    pub reachers: &'a SharedList<Ids>,
}

/// The numbers of before, with the parts of the chunks that cover what has changed since, and with the numbers of what has.
#[derive(Drop)]
pub struct Before<'a> {
    pub cells: &'a SharedList<Patch>,
    pub dirty: &'a DirtyParts<'a>,
    pub ids: &'a [u32],
    /// Whether nothing was but added.
    pub adds: bool,
    /// Whether nothing was but removed.
    pub removes: bool,
}

/// A copy of the old numbers of a chunk's cells in which the cells of a part have their numbers of now.
///
/// Where nothing was but removed, no cell has a bit that it had not, so that the part is painted anew only until it is as
/// it was. Else what has changed is painted over the old numbers first, and where nothing was but added, that is all.
/// Where fewer obstructions reach into the chunk than have changed, these are painted alone.
fn next_numbers(
    alloc: Global,
    site: &Site<'_>,
    whole: &Paint<'_>,
    old: &Patch,
    before: &Before<'_>,
    part: Rect,
) -> Result<Patch, NoMemory>
    requires fit { AllFit site.now.map.now.size site.now.shapes.now }
    requires base { (k : ℕ) (cell : Cell) → IsInRect part cell
        → has_class k (number_of whole.now.base.now cell) ≡ has_base site.now.map.now k cell }
    requires same { whole.now.base.now.rect ≡ old.now.rect }
    requires near { HoldReachers site.now.map.now site.now.shapes.now part whole.now.near.now }
    requires before { IsCoveredBefore site.now.map.now site.now.shapes.now part old.now before.now.ids.now before.now.adds before.now.removes }
    requires inside { IsRectInside site.now.map.now.size part }
    requires part { IsPartOf old.now.rect part }
    ensures rect { IfOk result (λ patch. patch.rect ≡ old.now.rect) }
    ensures whole { IfOk result (λ patch. length patch.numbers ≡ columns patch.rect * rows patch.rect) }
    ensures bits { IfOk result (λ patch. (k : ℕ) (cell : Cell) → IsInRect part cell
        → has_class k (number_of patch cell) ≡ is_covered site.now.map.now site.now.shapes.now k cell) }
    ensures others { IfOk result (λ patch. (cell : Cell) → IsInRect old.now.rect cell → ¬ IsInRect part cell
        → number_of patch cell ≡ number_of old.now cell) }
{
    if before.removes {
        return repainted_below(alloc, site, whole, old, part);
    }
    if before.ids.len() > whole.near.len() {
        return repainted(alloc, site, whole, old, part);
    }
    let more = Paint {
        base: old,
        near: before.ids,
    };
    let most = repainted(alloc, site, &more, old, part)?;
    if before.adds {
        return Ok(most);
    }
    repainted_below(alloc, site, whole, &most, part)
}

/// The numbers of the cells of a part's chunk under the obstructions of now, and the bits that differ from those of
/// before. Only the part is painted, and where no bit differs the old numbers are shared.
fn next_patch(
    alloc: Global,
    source: &CellSource<'_>,
    before: &Before<'_>,
    part: DirtyPart,
) -> Result<(Arc<Patch, Global>, u16), NoMemory>
    requires fit { AllFit source.now.site.now.map.now.size source.now.site.now.shapes.now }
    requires base { AreBaseChunks source.now.site.now.map.now source.now.base.now }
    requires reachers { AreReachers source.now.site.now.map.now source.now.site.now.shapes.now source.now.reachers.now }
    requires sized { before.now.dirty.now.size ≡ source.now.site.now.map.now.size }
    requires before { AreBefore source.now.site.now.map.now source.now.site.now.shapes.now before.now.cells.now before.now.dirty.now.rects before.now.ids.now before.now.adds before.now.removes }
    requires part { IsReachedPart source.now.site.now.map.now.size before.now.dirty.now.rects part }
    ensures painted { IfOk result (λ next. IsPaintedChunk source.now.site.now.map.now source.now.site.now.shapes.now (chunk_numbered source.now.site.now.map.now.size part.place)
        (arc_value next.0)) }
    ensures bits { IfOk result (λ next. (old : Numbering) → slice_get before.now.cells.now part.place ≡ Some old
        → (k : ℕ) → (bit_at next.1 k ≡ 1) ↔ DiffersIn k (arc_value next.0).rect old (arc_value next.0)) }
{
    let place = part.place as usize;
    let old = before.cells.at(place);
    let near = source.reachers.at(place);
    let whole = Paint {
        base: source.base.at(place),
        near: near.as_slice(),
    };
    let site = source.site;
    let patch = next_numbers(alloc, site, &whole, old, before, part.rect)?;
    let bits = old.differs_in(&patch, part.rect);
    if bits == 0 {
        return Ok((before.cells.shared(place)?, 0));
    }
    Ok((Arc::new(alloc, patch)?, bits))
}

/// The numbers of all chunks' cells under the obstructions of now, and for each chunk the bits that differ from those
/// of before. What no part reaches is shared.
pub fn next_patches(
    alloc: Global,
    source: &CellSource<'_>,
    before: &Before<'_>,
) -> Result<(SharedList<Patch>, Vec<u16>), NoMemory>
    requires fit { AllFit source.now.site.now.map.now.size source.now.site.now.shapes.now }
    requires base { AreBaseChunks source.now.site.now.map.now source.now.base.now }
    requires reachers { AreReachers source.now.site.now.map.now source.now.site.now.shapes.now source.now.reachers.now }
    requires sized { before.now.dirty.now.size ≡ source.now.site.now.map.now.size }
    requires before { AreBefore source.now.site.now.map.now source.now.site.now.shapes.now before.now.cells.now before.now.dirty.now.rects before.now.ids.now before.now.adds before.now.removes }
    ensures painted { IfOk result (λ next. ArePaintedChunks source.now.site.now.map.now source.now.site.now.shapes.now next.0) }
    ensures bits { IfOk result (λ next. AreDiffering before.now.cells.now next.0 next.1.items) }
{
    let mut all = before.cells.share(alloc)?;
    let mut changed = vec![in alloc; 0; all.len()]?;
    let parts = before.dirty.parts();
    for part in parts {
        let (patch, bits) = next_patch(alloc, source, before, *part)?;
        all.set_shared(alloc, part.place as usize, patch)?;
        changed[part.place as usize] = bits;
    }
    Ok((all, changed))
}
