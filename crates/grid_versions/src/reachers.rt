//! The numbers of the obstructions that reach into each chunk.
ghost use Rattle.std.specs.Prelude.{ℕ, ◌≡◌, ◌⊎◌, ◌<◌, Some, Contains, length, IfOk, IsTrue, OnOk};
ghost use Rattle.std.specs.FinMap as fin_map;
ghost use Rattle.nav_types.specs.declared.cells.Cell.{Cell};
ghost use Rattle.nav_types.specs.Cells.{IsInRect};
ghost use Rattle.obstruction_shapes.specs.declared.shapes.Obstruction.{Obstruction};
ghost use Rattle.obstruction_store.specs.Standing.{Standing, AllFit};
ghost use Rattle.posts.specs.Maps.{Map};
ghost use Rattle.grid_versions.specs.Chunks.{chunk_count};
ghost use Rattle.grid_versions.specs.inner.ChunkLists.{chunk_numbered};
ghost use Rattle.grid_versions.specs.inner.Reachers.{HoldChunkReachers, AreReachers, AreReachersBefore, AreReachersSince, IsReachNoted, HoldReached};

use crate::chunks;
use crate::sites::Site;
use crate::standing_edits::{Changes, reach_under};
use nav_types::{NoMemory, Rect, Size};
use obstruction_store::{Ids, Store};
use shared_list::SharedList;
use std::alloc::Global;

/// A rectangle of cells that the obstruction of a number can block.
#[derive(Clone, Copy)]
struct Reacher {
    id: u32,
    rect: Rect,
}

/// Appends the cells that the obstruction of the number can block, if there are such cells.
fn push_reacher(site: &Site<'_>, id: u32, reachers: &mut Vec<Reacher>) -> Result<(), NoMemory>
    requires { AllFit site.now.map.now.size site.now.shapes.now }
    ensures kept { OnOk result ((n : ℕ) (cell : Cell) → IsReachNoted reachers.old.items n cell
        → IsReachNoted reachers.new.items n cell) }
    ensures reached { OnOk result (HoldReached site.now.map.now site.now.shapes.now reachers.new.items id) }
{
    let Some(rect) = reach_under(site.map, site.shapes, id) else {
        return Ok(());
    };
    reachers.push(Reacher { id, rect })?;
    Ok(())
}

/// The cells that the obstructions of the numbers can block.
fn reachers_of(alloc: Global, site: &Site<'_>, ids: &[u32]) -> Result<Vec<Reacher>, NoMemory>
    requires { AllFit site.now.map.now.size site.now.shapes.now }
    ensures { IfOk result (λ reachers. (id : ℕ) → Contains ids.now id
        → HoldReached site.now.map.now site.now.shapes.now reachers.items id) }
{
    let mut reachers = Vec::with_capacity(alloc, ids.len())?;
    for id in ids {
        push_reacher(site, *id, &mut reachers)?;
    }
    Ok(reachers)
}

/// Appends the number, if its cells meet the rectangle.
fn list_reacher(rect: Rect, reacher: Reacher, ids: &mut Ids) -> Result<(), NoMemory>
    ensures kept { OnOk result ((n : ℕ) → Contains ids.old n → Contains ids.new n) }
    ensures listed { OnOk result ((cell : Cell) → IsInRect reacher.rect cell → IsInRect rect cell
        → Contains ids.new reacher.id) }
{
    if !reacher.rect.meets(rect) {
        return Ok(());
    }
    ids.push(reacher.id)?;
    Ok(())
}

/// Appends the numbers whose cells meet the rectangle. A number that stands once among the reachers is appended once.
fn list_reachers(rect: Rect, reachers: &[Reacher], ids: &mut Ids) -> Result<(), NoMemory>
    ensures kept { OnOk result ((n : ℕ) → Contains ids.old n → Contains ids.new n) }
    ensures listed { OnOk result ((id : ℕ) (cell : Cell) → IsReachNoted reachers.now id cell
        → IsInRect rect cell → Contains ids.new id) }
{
    for reacher in reachers {
        list_reacher(rect, *reacher, ids)?;
    }
    Ok(())
}

/// The numbers whose cells meet the rectangle.
fn reachers_in(alloc: Global, reachers: &[Reacher], rect: Rect) -> Result<Ids, NoMemory>
    ensures { IfOk result (λ ids. (id : ℕ) (cell : Cell) → IsReachNoted reachers.now id cell
        → IsInRect rect cell → Contains ids id) }
{
    let mut ids = Ids::new(alloc);
    list_reachers(rect, reachers, &mut ids)?;
    Ok(ids)
}

/// Whether the number is among the others, which rise. It is only where the answer says so.
fn is_among(id: u32, rising: &[u32]) -> bool
    ensures { IsTrue result → Contains rising.now id }
{
    match rising.binary_search(&id) {
        Ok(place) => rising[place] == id,
        Err(_) => false,
    }
}

/// The numbers in rising order, each once, so that one of them is found soon.
fn rising_ids(alloc: Global, ids: &[u32]) -> Result<Vec<u32>, NoMemory>
    ensures { IfOk result (λ rising. (id : ℕ) → Contains ids.now id → Contains rising.items id) }
{
    let mut rising = Vec::with_capacity(alloc, ids.len())?;
    rising.extend_from_slice(ids)?;
    rising.sort_unstable();
    rising.dedup();
    Ok(rising)
}

/// Appends the number, if it is not among the changed ones, which rise.
fn keep_id(id: u32, changed: &[u32], kept: &mut Ids) -> Result<(), NoMemory>
    ensures kept { OnOk result ((n : ℕ) → Contains kept.old n → Contains kept.new n) }
    ensures either { OnOk result (Contains changed.now id ⊎ Contains kept.new id) }
{
    if is_among(id, changed) {
        return Ok(());
    }
    kept.push(id)?;
    Ok(())
}

/// The numbers of a list that are not among the changed ones, which rise.
fn unchanged_ids(alloc: Global, ids: &[u32], changed: &[u32]) -> Result<Ids, NoMemory>
    ensures { IfOk result (λ kept. (id : ℕ) → Contains ids.now id
        → Contains changed.now id ⊎ Contains kept id) }
{
    let mut kept = Ids::from(Vec::with_capacity(alloc, ids.len())?);
    for id in ids {
        keep_id(*id, changed, &mut kept)?;
    }
    Ok(kept)
}

/// The numbers under which an obstruction stands.
fn standing_ids(alloc: Global, shapes: &Store) -> Result<Ids, NoMemory>
    ensures { IfOk result (λ ids. (id : ℕ) (obstruction : Obstruction)
        → fin_map.get shapes.now id ≡ Some obstruction → Contains ids id) }
{
    let mut ids = Ids::new(alloc);
    let listed = shapes.listed(alloc)?;
    for (id, _) in listed.entries() {
        ids.push(id)?;
    }
    Ok(ids)
}

/// For each chunk of the map the numbers of the obstructions that reach into it.
pub fn all_reachers(alloc: Global, site: &Site<'_>) -> Result<SharedList<Ids>, NoMemory>
    requires { AllFit site.now.map.now.size site.now.shapes.now }
    ensures { IfOk result (AreReachers site.now.map.now site.now.shapes.now) }
{
    let size = site.map.size();
    let count = chunks::count(size);
    let ids = standing_ids(alloc, site.shapes)?;
    let reachers = reachers_of(alloc, site, ids.as_slice())?;
    let mut all = SharedList::with_capacity(alloc, count as usize)?;
    for place in 0..count {
        let rect = Rect::of_chunk(size, chunks::numbered(size, place));
        let made = reachers_in(alloc, &reachers, rect)?;
        all.push(alloc, made)?;
    }
    Ok(all)
}

/// The numbers of the obstructions of now that reach into the chunk at a place, which the changes reach.
fn reachers_at(
    alloc: Global,
    size: Size,
    before: &SharedList<Ids>,
    changes: &Changes<'_>,
    changed: &[Reacher],
    place: u32,
) -> Result<Ids, NoMemory>
    requires place { place < chunk_count size }
    requires each { length before.now ≡ chunk_count size }
    ensures { IfOk result (λ made. (map : Map) (now : Standing) → map.size ≡ size
        → AreReachersSince map now before.now changes.now.dirty.now.rects changes.now.ids.now changed.now
        → HoldChunkReachers map now (chunk_numbered size place) made) }
{
    let rect = Rect::of_chunk(size, chunks::numbered(size, place));
    let old = before.at(place as usize).as_slice();
    let mut made = unchanged_ids(alloc, old, changes.ids)?;
    list_reachers(rect, changed, &mut made)?;
    Ok(made)
}

/// For each chunk of the map the numbers of the obstructions of now that reach into it. The changes' parts hold what the
/// obstructions of the changed numbers can block; the lists of the chunks without a part are shared.
pub fn next_reachers(
    alloc: Global,
    site: &Site<'_>,
    before: &SharedList<Ids>,
    changes: &Changes<'_>,
) -> Result<SharedList<Ids>, NoMemory>
    requires fit { AllFit site.now.map.now.size site.now.shapes.now }
    requires sized { changes.now.dirty.now.size ≡ site.now.map.now.size }
    requires before { AreReachersBefore site.now.map.now site.now.shapes.now before.now changes.now.dirty.now.rects changes.now.ids.now }
    ensures { IfOk result (AreReachers site.now.map.now site.now.shapes.now) }
{
    let size = site.map.size();
    let rising = rising_ids(alloc, changes.ids)?;
    let named = Changes {
        dirty: changes.dirty,
        ids: &rising,
    };
    let changed = reachers_of(alloc, site, named.ids)?;
    let mut all = before.share(alloc)?;
    let parts = changes.dirty.parts();
    for part in parts {
        let made = reachers_at(alloc, size, before, &named, &changed, part.place)?;
        all.set(alloc, part.place as usize, made)?;
    }
    Ok(all)
}
