//! The regions of each chunk, made anew where cells changed.
ghost use Rattle.std.specs.Prelude.{Bool, ◌≡◌, ◌+◌, ◌<◌, ◌≤◌, OnOk, IfOk, IsTrue, length, map, cond, count_by, slice_get, Some};
ghost use Rattle.lane_rows.specs.Rows.{has_class};
ghost use Rattle.class_planes.specs.Planes.{is_passable};
ghost use Rattle.chunk_regions.specs.Labelling.{Labelling, AreLabels};
ghost use Rattle.grid_versions.specs.Chunks.{chunk_count};
ghost use Rattle.grid_versions.specs.inner.ChunkLists.{chunk_numbered, IsRemadeAt};
ghost use Rattle.grid_versions.specs.inner.Changing.{AreChanges, CoverPassable};
ghost use Rattle.grid_versions.specs.inner.Tables.{AreAllLabels, label_counts};

use crate::chunk_bits::{changed_rows, passable_cells, passable_in_rows};
use crate::chunks;
use crate::relabelling::{Changed, is_marked, next_marked};
use chunk_regions::{Labels, label_bits};
use class_planes::ClassPlane;
use nav_types::{NoMemory, Ticks};
use shared_list::SharedList;
use std::alloc::Global;
use std::sync::ledger::Ledger;

/// The regions of the chunk at a place, which is one step of work.
fn labels_at<L: Ledger>(
    alloc: Global,
    plane: &ClassPlane,
    place: u32,
    ticks: &mut Ticks<L>,
) -> Result<Labels, NoMemory>
    requires within { place < chunk_count plane.now.size }
    ensures labels { IfOk result (AreLabels (is_passable plane.now) plane.now.size
        (chunk_numbered plane.now.size place)) }
    ensures ticks { ticks.new ≡ ticks.old + 1 }
{
    let size = plane.size();
    let chunk = chunks::numbered(size, place);
    let bits = passable_cells(plane, chunk);
    label_bits(alloc, size, chunk, &bits, ticks)
}

/// The regions of each chunk of the map, in the order chunk row, chunk column. Each chunk is one step of work.
pub fn all_labels<L: Ledger>(
    alloc: Global,
    plane: &ClassPlane,
    ticks: &mut Ticks<L>,
) -> Result<SharedList<Labels>, NoMemory>
    ensures labels { IfOk result (AreAllLabels (is_passable plane.now) plane.now.size) }
    ensures ticks { OnOk result (ticks.new ≡ ticks.old + chunk_count plane.now.size) }
    ensures most { ticks.new ≤ ticks.old + chunk_count plane.now.size }
{
    let count = chunks::count(plane.size());
    let mut all = SharedList::with_capacity(alloc, count as usize)?;
    for place in 0..count {
        let labels = labels_at(alloc, plane, place, ticks)?;
        all.push(alloc, labels)?;
    }
    Ok(all)
}

/// The regions of the chunk at a place from those of before: it labels anew by the rows that have changed where it can,
/// which is one step of work.
fn rows_labelled<L: Ledger>(
    alloc: Global,
    plane: &ClassPlane,
    labels: &Labels,
    changed: &Changed<'_>,
    place: u32,
    ticks: &mut Ticks<L>,
) -> Result<Labels, NoMemory>
    requires within { place < chunk_count plane.now.size }
    requires size { changed.now.before.now.size ≡ plane.now.size }
    requires dirty { CoverPassable (is_passable changed.now.before.now) (is_passable plane.now) plane.now.size
        changed.now.dirty.now }
    requires before { AreLabels (is_passable changed.now.before.now) plane.now.size (chunk_numbered plane.now.size place) labels.now }
    ensures labels { IfOk result (AreLabels (is_passable plane.now) plane.now.size
        (chunk_numbered plane.now.size place)) }
    ensures ticks { ticks.new ≡ ticks.old + 1 }
{
    if !labels.is_within() {
        return labels_at(alloc, plane, place, ticks);
    }
    let chunk = chunks::numbered(plane.size(), place);
    let rows = changed_rows(changed.before, plane, chunk, changed.dirty.part_at(place));
    let bits = passable_in_rows(plane, chunk, rows);
    chunk_regions::relabel(alloc, labels, rows.from, rows.to, &bits, ticks)
}

/// Labels the chunk at a place anew where the bits say that it has changed for the class, which is one step of work.
/// It says whether the chunk has as many regions as before.
fn relabel_at<L: Ledger>(
    alloc: Global,
    plane: &ClassPlane,
    labels: &mut SharedList<Labels>,
    changed: &Changed<'_>,
    place: u32,
    ticks: &mut Ticks<L>,
) -> Result<bool, NoMemory>
    requires within { place < chunk_count plane.now.size }
    requires each { length labels.old ≡ chunk_count plane.now.size }
    requires size { changed.now.before.now.size ≡ plane.now.size }
    requires dirty { CoverPassable (is_passable changed.now.before.now) (is_passable plane.now) plane.now.size
        changed.now.dirty.now }
    requires before { AreChanges (is_passable changed.now.before.now) (is_passable plane.now) plane.now.size
        changed.now.class changed.now.bits.now
        × ((item : Labelling) → slice_get labels.old place ≡ Some item
        → AreLabels (is_passable changed.now.before.now) plane.now.size (chunk_numbered plane.now.size place) item) }
    ensures labels { OnOk result (IsRemadeAt place (AreLabels (is_passable plane.now) plane.now.size
        (chunk_numbered plane.now.size place)) labels.old labels.new) }
    ensures count { IfOk result (λ stays. IsTrue stays → label_counts labels.new ≡ label_counts labels.old) }
    ensures most { (mark : Bool) → slice_get (map (has_class changed.now.class) changed.now.bits.now) place ≡ Some mark
        → ticks.new ≤ ticks.old + cond mark 1 0 }
{
    if !is_marked(changed, place) {
        return Ok(true);
    }
    let made = rows_labelled(
        alloc,
        plane,
        labels.at(place as usize),
        changed,
        place,
        ticks,
    )?;
    let stays = made.count() == labels.at(place as usize).count();
    labels.set(alloc, place as usize, made)?;
    Ok(stays)
}

/// Labels anew each chunk that has changed for the class, as the bits say. Each of these is one step of work; the
/// others keep their regions. It says whether each chunk has as many regions as before.
fn relabel<L: Ledger>(
    alloc: Global,
    plane: &ClassPlane,
    labels: &mut SharedList<Labels>,
    changed: &Changed<'_>,
    ticks: &mut Ticks<L>,
) -> Result<bool, NoMemory>
    requires size { changed.now.before.now.size ≡ plane.now.size }
    requires dirty { CoverPassable (is_passable changed.now.before.now) (is_passable plane.now) plane.now.size
        changed.now.dirty.now }
    requires before { AreAllLabels (is_passable changed.now.before.now) plane.now.size labels.old
        × AreChanges (is_passable changed.now.before.now) (is_passable plane.now) plane.now.size changed.now.class
        changed.now.bits.now }
    ensures labels { OnOk result (AreAllLabels (is_passable plane.now) plane.now.size labels.new) }
    ensures counts { IfOk result (λ stay. IsTrue stay → label_counts labels.new ≡ label_counts labels.old) }
    ensures most { ticks.new ≤ ticks.old + count_by (has_class changed.now.class) changed.now.bits.now }
{
    let count = chunks::count(plane.size());
    let mut stay = true;
    let mut place = next_marked(changed, 0);
    'places: while place < count {
        let stays = relabel_at(alloc, plane, labels, changed, place, ticks)?;
        stay &= stays;
        place = next_marked(changed, place + 1);
    }
    Ok(stay)
}

/// The labels of all chunks from those of before, as `relabel` finds them, and whether each chunk has as many regions
/// as before. The chunks that have not changed for the class share theirs.
pub fn next_labels<L: Ledger>(
    alloc: Global,
    plane: &ClassPlane,
    before: &SharedList<Labels>,
    changed: &Changed<'_>,
    ticks: &mut Ticks<L>,
) -> Result<(SharedList<Labels>, bool), NoMemory>
    requires size { changed.now.before.now.size ≡ plane.now.size }
    requires dirty { CoverPassable (is_passable changed.now.before.now) (is_passable plane.now) plane.now.size
        changed.now.dirty.now }
    requires before { AreAllLabels (is_passable changed.now.before.now) plane.now.size before.now
        × AreChanges (is_passable changed.now.before.now) (is_passable plane.now) plane.now.size changed.now.class
        changed.now.bits.now }
    ensures labels { IfOk result (λ made. AreAllLabels (is_passable plane.now) plane.now.size made.0) }
    ensures counts { IfOk result (λ made. IsTrue made.1 → label_counts made.0 ≡ label_counts before.now) }
    ensures most { ticks.new ≤ ticks.old + count_by (has_class changed.now.class) changed.now.bits.now }
{
    let mut labels = before.share(alloc)?;
    let stay = relabel(alloc, plane, &mut labels, changed, ticks)?;
    Ok((labels, stay))
}
