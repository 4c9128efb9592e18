//! The numbers of a map's cells, chunk by chunk, from its base rectangles and its obstructions.
ghost use Rattle.std.specs.Prelude.{ℕ, ◌≡◌, ◌<◌, ◌*◌, ◌||◌, length, IfOk, IfSome, IsSomeAnd};
ghost use Rattle.nav_types.specs.declared.cells.Cell.{Cell};
ghost use Rattle.nav_types.specs.Cells.{IsInRect, IsRectInside};
ghost use Rattle.nav_types.specs.Numbering.{IsPatch, columns, rows, number_of};
ghost use Rattle.lane_rows.specs.Rows.{has_class};
ghost use Rattle.nav_types.specs.Rects.{IsPartOf};
ghost use Rattle.obstruction_shapes.specs.Shapes.{FitsMap};
ghost use Rattle.navcell_grid.specs.Grids.{number_at};
ghost use Rattle.clearance_raster.specs.Rasters.{blocks_class};
ghost use Rattle.clearance_raster.specs.inner.TestRasters.{IsRasterIn};
ghost use Rattle.obstruction_store.specs.Standing.{AllFit};
ghost use Rattle.grid_versions.specs.Passing.{is_blocked};
ghost use Rattle.grid_versions.specs.inner.Painting.{AreBaseChunks, ArePaintedChunks};
ghost use Rattle.grid_versions.specs.inner.Reachers.{blocks_under, HaveBlocked, HoldUnpainted, AreReachers};

use crate::base_grids::base_grid;
use crate::changed_parts::differing_part;
use crate::chunks;
use crate::sites::Site;
use clearance_raster::{raster_in, reach_of};
use nav_types::{NoMemory, Rect};
use navcell_grid::{Grid, Patch};
use obstruction_shapes::Obstruction;
use obstruction_store::Ids;
use posts::MapSpec;
use shared_list::SharedList;
use std::alloc::Global;

/// After how many obstructions it is looked at first whether others have anything left to set.
const FIRST_LOOK: usize = 32;

/// What a part of a chunk is painted from: numbers to begin with, and the numbers of the obstructions whose bits are to
/// be set.
#[derive(Drop)]
pub struct Paint<'a> {
    pub base: &'a Patch,
    pub near: &'a [u32],
}

/// The numbers of each chunk's cells under the base rectangles alone: bit k is set exactly where a base rectangle
/// covers the cell for class k.
pub fn base_patches(alloc: Global, map: &MapSpec) -> Result<SharedList<Patch>, NoMemory>
    ensures { IfOk result (AreBaseChunks map.now) }
{
    let size = map.size();
    let count = chunks::count(size);
    let grid = base_grid(alloc, map)?;
    let mut all = SharedList::with_capacity(alloc, count as usize)?;
    for place in 0..count {
        let rect = Rect::of_chunk(size, chunks::numbered(size, place));
        all.push(alloc, base_patch(alloc, &grid, rect)?)?;
    }
    Ok(all)
}

/// The numbers of each chunk's cells: bit k is set exactly where a base rectangle or an obstruction covers the cell for
/// class k. The lists have the obstructions that reach into each chunk.
pub fn painted_patches(
    alloc: Global,
    site: &Site<'_>,
    reachers: &SharedList<Ids>,
    base: &SharedList<Patch>,
) -> Result<SharedList<Patch>, NoMemory>
    requires fit { AllFit site.now.map.now.size site.now.shapes.now }
    requires reachers { AreReachers site.now.map.now site.now.shapes.now reachers.now }
    requires base { AreBaseChunks site.now.map.now base.now }
    ensures { IfOk result (ArePaintedChunks site.now.map.now site.now.shapes.now) }
{
    let size = site.map.size();
    let count = chunks::count(size);
    let mut all = SharedList::with_capacity(alloc, count as usize)?;
    for place in 0..count {
        let under = base.at(place as usize);
        let rect = Rect::of_chunk(size, chunks::numbered(size, place));
        let near = reachers.at(place as usize);
        let paint = Paint {
            base: under,
            near: near.as_slice(),
        };
        let patch = repainted(alloc, site, &paint, under, rect)?;
        all.push(alloc, patch)?;
    }
    Ok(all)
}

/// The numbers that a grid has in this rectangle, one for each cell.
fn base_patch(alloc: Global, grid: &Grid, rect: Rect) -> Result<Patch, NoMemory>
    requires patch { IsPatch rect }
    requires inside { IsRectInside grid.now.size rect }
    ensures rect { IfOk result (λ patch. patch.rect ≡ rect) }
    ensures whole { IfOk result (λ patch. length patch.numbers ≡ columns patch.rect * rows patch.rect) }
    ensures numbers { IfOk result (λ patch. (cell : Cell) → IsInRect rect cell
        → number_of patch cell ≡ number_at grid.now cell) }
{
    let patch = Patch::cut(alloc, grid, rect)?;
    let _ = patch.rect();
    Ok(patch)
}

/// A copy of a patch in which the cells of a part are painted anew: each has the number of the paint's base, with the
/// bits of the obstructions. The part lies in the patch and in the map, and the paint has the obstructions that reach
/// into it, but for those that have set their bits in its base already.
pub fn repainted(
    alloc: Global,
    site: &Site<'_>,
    paint: &Paint<'_>,
    old: &Patch,
    part: Rect,
) -> Result<Patch, NoMemory>
    requires fit { AllFit site.now.map.now.size site.now.shapes.now }
    requires near { HoldUnpainted site.now.map.now site.now.shapes.now part (number_of paint.now.base.now) paint.now.near.now }
    requires base { paint.now.base.now.rect ≡ old.now.rect }
    requires inside { IsRectInside site.now.map.now.size part }
    requires part { IsPartOf old.now.rect part }
    ensures rect { IfOk result (λ patch. patch.rect ≡ old.now.rect) }
    ensures whole { IfOk result (λ patch. length patch.numbers ≡ columns patch.rect * rows patch.rect) }
    ensures bits { IfOk result (λ patch. (k : ℕ) (cell : Cell) → IsInRect part cell
        → has_class k (number_of patch cell)
        ≡ (has_class k (number_of paint.now.base.now cell) || is_blocked site.now.map.now site.now.shapes.now k cell)) }
    ensures others { IfOk result (λ patch. (cell : Cell) → IsInRect old.now.rect cell → ¬ IsInRect part cell
        → number_of patch cell ≡ number_of old.now cell) }
{
    let mut patch = old.copy(alloc)?;
    patch.copy_rect(paint.base, part);
    paint_shapes(&mut patch, part, site, paint.near);
    let _ = patch.rect();
    Ok(patch)
}

/// The same from other numbers, which have each bit that an obstruction sets in the part. No obstruction is painted once
/// the part is like them, so that few are where they cover one another.
pub fn repainted_below(
    alloc: Global,
    site: &Site<'_>,
    paint: &Paint<'_>,
    most: &Patch,
    part: Rect,
) -> Result<Patch, NoMemory>
    requires fit { AllFit site.now.map.now.size site.now.shapes.now }
    requires near { HoldUnpainted site.now.map.now site.now.shapes.now part (number_of paint.now.base.now) paint.now.near.now }
    requires base { paint.now.base.now.rect ≡ most.now.rect }
    requires inside { IsRectInside site.now.map.now.size part }
    requires part { IsPartOf most.now.rect part }
    requires most { HaveBlocked site.now.map.now site.now.shapes.now part (number_of most.now) }
    ensures rect { IfOk result (λ patch. patch.rect ≡ most.now.rect) }
    ensures whole { IfOk result (λ patch. length patch.numbers ≡ columns patch.rect * rows patch.rect) }
    ensures bits { IfOk result (λ patch. (k : ℕ) (cell : Cell) → IsInRect part cell
        → has_class k (number_of patch cell)
        ≡ (has_class k (number_of paint.now.base.now cell) || is_blocked site.now.map.now site.now.shapes.now k cell)) }
    ensures others { IfOk result (λ patch. (cell : Cell) → IsInRect most.now.rect cell → ¬ IsInRect part cell
        → number_of patch cell ≡ number_of most.now cell) }
{
    let mut patch = most.copy(alloc)?;
    patch.copy_rect(paint.base, part);
    paint_below(&mut patch, part, site, paint.near, most);
    let _ = patch.rect();
    Ok(patch)
}

/// Sets the bits of all obstructions in a part of a patch, until it is like another one, which has all these bits. The
/// list has the obstructions that reach into the part, but for those that have set their bits already. Where the part is
/// like the other patch already, nothing more is painted, so that those which reach only there are passed over.
fn paint_below(patch: &mut Patch, part: Rect, site: &Site<'_>, near: &[u32], most: &Patch)
    requires fit { AllFit site.now.map.now.size site.now.shapes.now }
    requires near { HoldUnpainted site.now.map.now site.now.shapes.now part (number_of patch.old) near.now }
    requires inside { IsRectInside site.now.map.now.size part }
    requires part { IsPartOf patch.old.rect part }
    requires other { most.now.rect ≡ patch.old.rect }
    requires most { HaveBlocked site.now.map.now site.now.shapes.now part (number_of most.now) }
    ensures rect { patch.new.rect ≡ patch.old.rect }
    ensures set { IsRasterIn patch.old.rect part (is_blocked site.now.map.now site.now.shapes.now)
        (number_of patch.old) (number_of patch.new) }
{
    let mut left = part;
    for (index, id) in near.iter().enumerate() {
        let Some(rest) = unlike_part(patch, left, most, index) else {
            return;
        };
        left = rest;
        paint_listed(patch, left, *id, site);
    }
}

/// A rectangle of a part of a patch outside of which the part is like that of another patch. None only where all of it is.
/// That is looked at after so many obstructions, twice as many, four times and so on, so that it costs little beside the
/// painting; else it is the part itself.
fn unlike_part(patch: &Patch, part: Rect, most: &Patch, index: usize) -> Option<Rect>
    requires rect { most.now.rect ≡ patch.now.rect }
    requires part { IsPartOf patch.now.rect part }
    ensures part { IfSome result (IsPartOf part) }
    ensures like { (k : ℕ) (cell : Cell) → IsInRect part cell → ¬ IsSomeAnd result (λ rect. IsInRect rect cell)
        → has_class k (number_of patch.now cell) ≡ has_class k (number_of most.now cell) }
{
    if !is_look(index) {
        return Some(part);
    }
    let Some(found) = differing_part(Some(part), patch, most) else {
        return None;
    };
    found.intersection(part)
}

/// Whether it is looked at before the obstruction at this place what others have left to set.
fn is_look(index: usize) -> bool {
    index >= FIRST_LOOK && index.is_power_of_two()
}

/// Sets the bits of all obstructions in a part of a patch. The list has those that reach into it, but for those that
/// have set their bits already.
fn paint_shapes(patch: &mut Patch, part: Rect, site: &Site<'_>, near: &[u32])
    requires fit { AllFit site.now.map.now.size site.now.shapes.now }
    requires near { HoldUnpainted site.now.map.now site.now.shapes.now part (number_of patch.old) near.now }
    requires inside { IsRectInside site.now.map.now.size part }
    requires part { IsPartOf patch.old.rect part }
    ensures rect { patch.new.rect ≡ patch.old.rect }
    ensures set { IsRasterIn patch.old.rect part (is_blocked site.now.map.now site.now.shapes.now)
        (number_of patch.old) (number_of patch.new) }
{
    for id in near {
        paint_listed(patch, part, *id, site);
    }
}

/// Sets the bits of the obstruction of the number, if one stands under it, in a part of a patch.
fn paint_listed(patch: &mut Patch, part: Rect, id: u32, site: &Site<'_>)
    requires fit { AllFit site.now.map.now.size site.now.shapes.now }
    requires inside { IsRectInside site.now.map.now.size part }
    requires part { IsPartOf patch.old.rect part }
    ensures rect { patch.new.rect ≡ patch.old.rect }
    ensures set { IsRasterIn patch.old.rect part (λ k cell. blocks_under site.now.map.now site.now.shapes.now k cell id)
        (number_of patch.old) (number_of patch.new) }
{
    if let Some(obstruction) = site.shapes.get(id) {
        paint_shape(patch, part, obstruction, site.map);
    }
}

/// Sets the bits of one obstruction in a part of a patch. One whose reach is elsewhere is passed over.
fn paint_shape(patch: &mut Patch, part: Rect, obstruction: &Obstruction, map: &MapSpec)
    requires fits { FitsMap map.now.size obstruction.now.shape }
    requires inside { IsRectInside map.now.size part }
    requires part { IsPartOf patch.old.rect part }
    ensures rect { patch.new.rect ≡ patch.old.rect }
    ensures set { IsRasterIn patch.old.rect part (blocks_class obstruction.now map.now.classes)
        (number_of patch.old) (number_of patch.new) }
{
    let Some(reach) = reach_of(obstruction, map.classes(), map.size()) else {
        return;
    };
    if !reach.meets(part) {
        return;
    }
    raster_in(patch, part, obstruction, map.classes(), map.size());
}
