//! Chunks whose regions keep their numbers after an edit.
ghost use Rattle.std.specs.Prelude.{◌≡◌, All, IfOk, IsTrue};
ghost use Rattle.class_planes.specs.Planes.{is_passable};
ghost use Rattle.grid_versions.specs.inner.Changing.{CoverPassable};
ghost use Rattle.grid_versions.specs.inner.Keeping.{IsKeptPart};
ghost use Rattle.grid_versions.specs.inner.ReachedParts.{IsReachedPart};
ghost use Rattle.grid_versions.specs.inner.Tables.{AreAllLabels};

use crate::chunk_bits::changes_one_way;
use crate::chunks;
use crate::dirty_parts::DirtyPart;
use crate::relabelling::Changed;
use chunk_regions::Labels;
use class_planes::ClassPlane;
use nav_types::NoMemory;
use shared_list::SharedList;
use std::alloc::Global;

/// The dirty parts of the chunks whose regions have the numbers of before, as far as is known. Where cells have only become
/// passable, or only impassable, and the regions' first cells are those of before, each cell that still passes has its
/// number.
pub fn kept_parts(
    alloc: Global,
    plane: &ClassPlane,
    before: &SharedList<Labels>,
    labels: &SharedList<Labels>,
    changed: &Changed<'_>,
) -> Result<Vec<DirtyPart>, NoMemory>
    requires size { changed.now.before.now.size ≡ plane.now.size }
    requires dirty { CoverPassable (is_passable changed.now.before.now) (is_passable plane.now) plane.now.size
        changed.now.dirty.now }
    requires were { AreAllLabels (is_passable changed.now.before.now) plane.now.size before.now }
    requires are { AreAllLabels (is_passable plane.now) plane.now.size labels.now }
    ensures { IfOk result (λ kept. All (IsKeptPart (is_passable changed.now.before.now) (is_passable plane.now)
        plane.now.size) kept.items) }
{
    let parts = changed.dirty.parts();
    let mut kept = Vec::with_capacity(alloc, parts.len())?;
    for part in parts {
        if keeps_numbers(plane, before, labels, changed, *part) {
            kept.push(*part)?;
        }
    }
    Ok(kept)
}

/// Whether the regions of the part's chunk have the numbers of before. It says so only where they have.
fn keeps_numbers(
    plane: &ClassPlane,
    before: &SharedList<Labels>,
    labels: &SharedList<Labels>,
    changed: &Changed<'_>,
    part: DirtyPart,
) -> bool
    requires size { changed.now.before.now.size ≡ plane.now.size }
    requires dirty { CoverPassable (is_passable changed.now.before.now) (is_passable plane.now) plane.now.size
        changed.now.dirty.now }
    requires were { AreAllLabels (is_passable changed.now.before.now) plane.now.size before.now }
    requires are { AreAllLabels (is_passable plane.now) plane.now.size labels.now }
    requires part { IsReachedPart plane.now.size changed.now.dirty.now.rects part }
    ensures { IsTrue result → IsKeptPart (is_passable changed.now.before.now) (is_passable plane.now) plane.now.size part }
{
    let place = part.place as usize;
    let old = before.at(place);
    let new = labels.at(place);
    if !new.has_firsts_of(old) {
        return false;
    }
    let chunk = chunks::numbered(plane.size(), part.place);
    changes_one_way(changed.before, plane, chunk, part.rect)
}
