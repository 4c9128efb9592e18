//! The tables of all classes.
ghost use Rattle.std.specs.Prelude.{ℕ, Bool, ◌≡◌, ◌+◌, ◌*◌, ◌<◌, ◌≤◌, length, slice_get, Some, IfOk, OnOk};
ghost use Rattle.std.specs.List.{count_by, sum_by, range_with_len};
ghost use Rattle.std.specs.Arc.{arc_value};
ghost use Rattle.nav_types.specs.declared.cells.Cell.{Cell};
ghost use Rattle.lane_rows.specs.Rows.{has_class};
ghost use Rattle.class_planes.specs.Planes.{ArePlanes, is_passable};
ghost use Rattle.grid_versions.specs.Chunks.{chunk_count};
ghost use Rattle.grid_versions.specs.Passing.{passable_at};
ghost use Rattle.grid_versions.specs.inner.Changing.{AreChanges, CoverPassable};
ghost use Rattle.grid_versions.specs.inner.Tables.{Tables, AreTables};
ghost use Rattle.grid_versions.specs.inner.Tallying.{AreTablesOf};

use crate::dirty_parts::DirtyParts;
use crate::planes::plane_of;
use crate::relabelling::{Changed, Marks};
use crate::sites::Site;
use crate::tables::ClassTables;
use class_planes::{ClassPlane, Planes};
use lane_rows::count_bit;
use nav_types::{Class, NoMemory, Ticks};
use shared_list::SharedList;
use std::alloc::Global;
use std::sync::Arc;
use std::sync::ledger::Ledger;

/// The tables of all classes of a map, in the order of classes, by their planes. Each class labels each chunk once.
pub fn class_tables<L: Ledger>(
    alloc: Global,
    site: &Site<'_>,
    planes: &Planes,
    ticks: &mut Ticks<L>,
) -> Result<SharedList<ClassTables>, NoMemory>
    requires { ArePlanes site.now.map.now.size (passable_at site.now.map.now site.now.shapes.now) 65535
        (length site.now.map.now.classes) planes.now }
    ensures tables { IfOk result (AreTablesOf (length site.now.map.now.classes)
        (passable_at site.now.map.now site.now.shapes.now) site.now.map.now.size) }
    ensures few { IfOk result (λ tables. length tables ≤ 16) }
    ensures ticks { OnOk result (ticks.new
        ≡ ticks.old + length site.now.map.now.classes * chunk_count site.now.map.now.size) }
    ensures most { ticks.new ≤ ticks.old + length site.now.map.now.classes * chunk_count site.now.map.now.size }
{
    let count = site.map.classes().count();
    let mut all = SharedList::with_capacity(alloc, usize::from(count))?;
    for number in 0..count {
        let plane = plane_of(planes, Class::new(number));
        let tables = ClassTables::build(alloc, plane, ticks)?;
        all.push(alloc, tables)?;
    }
    Ok(all)
}

/// The planes and the tables of all classes of a map before a change, and the parts of its chunks that cover what has
/// changed since.
#[derive(Drop)]
pub struct Earlier<'a> {
    pub planes: &'a Planes,
    pub tables: &'a SharedList<ClassTables>,
    pub dirty: &'a DirtyParts<'a>,
}

/// The tables of a class from those of before, its plane and what has changed: the same tables where no chunk has changed
/// for the class.
fn tables_at<L: Ledger>(
    alloc: Global,
    plane: &ClassPlane,
    before: &SharedList<ClassTables>,
    changed: &Changed<'_>,
    ticks: &mut Ticks<L>,
) -> Result<Arc<ClassTables, Global>, NoMemory>
    requires within { changed.now.class < length before.now }
    requires size { changed.now.before.now.size ≡ plane.now.size }
    requires dirty { CoverPassable (is_passable changed.now.before.now) (is_passable plane.now) plane.now.size
        changed.now.dirty.now }
    requires before { ((tables : Tables) → slice_get before.now changed.now.class ≡ Some tables
        → AreTables (is_passable changed.now.before.now) plane.now.size tables)
        × AreChanges (is_passable changed.now.before.now) (is_passable plane.now) plane.now.size changed.now.class
        changed.now.bits.now }
    ensures tables { IfOk result (λ tables. AreTables (is_passable plane.now) plane.now.size (arc_value tables)) }
    ensures most { ticks.new ≤ ticks.old + count_by (has_class changed.now.class) changed.now.bits.now }
{
    let class = changed.class.number();
    let place = usize::from(class);
    if count_bit(changed.bits.bits(), class) == 0 {
        return before.shared(place);
    }
    let tables = before.at(place).updated(alloc, plane, changed, ticks)?;
    Ok(Arc::new(alloc, tables)?)
}

/// The tables of all classes of a map, in the order of classes, by their planes, from the planes and the tables of before
/// and the bits of what has changed. Each chunk is labelled once for each class whose bit it has.
pub fn next_tables<L: Ledger>(
    alloc: Global,
    site: &Site<'_>,
    planes: &Planes,
    before: &Earlier<'_>,
    changed: &Marks<'_>,
    ticks: &mut Ticks<L>,
) -> Result<SharedList<ClassTables>, NoMemory>
    requires planes { ArePlanes site.now.map.now.size (passable_at site.now.map.now site.now.shapes.now) 65535
        (length site.now.map.now.classes) planes.now }
    requires few { length before.now.tables.now ≤ 16 }
    requires before { (old : ℕ → Cell → Bool)
        × (AreTablesOf (length site.now.map.now.classes) old site.now.map.now.size before.now.tables.now
        × (((k : ℕ) → k < length site.now.map.now.classes
        → AreChanges (old k) (passable_at site.now.map.now site.now.shapes.now k) site.now.map.now.size k changed.now)
        × (ArePlanes site.now.map.now.size old 65535 (length site.now.map.now.classes) before.now.planes.now
        × ((k : ℕ) → k < length site.now.map.now.classes
        → CoverPassable (old k) (passable_at site.now.map.now site.now.shapes.now k) site.now.map.now.size before.now.dirty.now)))) }
    ensures tables { IfOk result (AreTablesOf (length site.now.map.now.classes)
        (passable_at site.now.map.now site.now.shapes.now) site.now.map.now.size) }
    ensures most { ticks.new ≤ ticks.old
        + sum_by (λ k. count_by (has_class k) changed.now) (range_with_len 0 (length site.now.map.now.classes)) }
{
    let count = before.tables.len();
    let mut all = SharedList::with_capacity(alloc, count)?;
    for number in 0..count {
        let class = Class::new(number as u8);
        let plane = plane_of(planes, class);
        let earlier = plane_of(before.planes, class);
        let changed = Changed {
            bits: &*changed,
            class,
            before: earlier,
            dirty: before.dirty,
        };
        let tables = tables_at(alloc, plane, before.tables, &changed, ticks)?;
        all.push_shared(alloc, tables)?;
    }
    Ok(all)
}
