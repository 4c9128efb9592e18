//! What a version keeps of its cells: their numbers, the planes, and the regions, edges and areas.
ghost use Rattle.std.specs.Prelude.{ℕ, ◌≡◌, ◌+◌, ◌*◌, ◌≤◌, length, IfOk, OnOk};
ghost use Rattle.nav_types.specs.Regions.{HasRelabelled};
ghost use Rattle.class_planes.specs.Planes.{ArePlanes};
ghost use Rattle.obstruction_store.specs.Standing.{AllFit};
ghost use Rattle.grid_versions.specs.Chunks.{chunk_count};
ghost use Rattle.grid_versions.specs.Passing.{passable_at};
ghost use Rattle.grid_versions.specs.inner.Painting.{ArePaintedChunks};
ghost use Rattle.grid_versions.specs.inner.Parts.{AreParts, ArePlanesBefore};
ghost use Rattle.grid_versions.specs.inner.Reaching.{CoverChanges, NameChanges};

use crate::cell_layer::CellLayer;
use crate::changed_parts::changed_parts;
use crate::class_tables::{Earlier, class_tables, next_tables};
use crate::dirty_parts::DirtyParts;
use crate::painted_map::PaintedMap;
use crate::relabelling::{Marks, marks_below};
use crate::sites::Site;
use crate::standing_edits::Changes;
use crate::tables::ClassTables;
use class_planes::Planes;
use nav_types::{NoMemory, Ticks};
use navcell_grid::Patch;
use obstruction_store::Store;
use shared_list::SharedList;
use std::alloc::Global;
use std::sync::ledger::Ledger;

/// What a version keeps of its cells.
#[derive(Drop)]
pub struct Layers {
    /// The numbers of the cells, and which obstructions reach them.
    pub cell_layer: CellLayer,
    /// The planes of all classes.
    pub planes: Planes,
    /// The tables of each class.
    pub tables: SharedList<ClassTables>,
}

impl Layers {
    /// The layers of this map and these obstructions. Each chunk is labelled once for each class.
    pub fn build<L: Ledger>(
        alloc: Global,
        site: &Site<'_>,
        ticks: &mut Ticks<L>,
    ) -> Result<Layers, NoMemory>
        requires { AllFit site.now.map.now.size site.now.shapes.now }
        ensures parts { IfOk result (λ made. AreParts site.now.map.now site.now.shapes.now made.cell_layer.base made.cell_layer.reachers
            made.cell_layer.cells made.planes made.tables) }
        ensures ticks { OnOk result (ticks.new
            ≡ ticks.old + length site.now.map.now.classes * chunk_count site.now.map.now.size) }
        ensures most { ticks.new ≤ ticks.old + length site.now.map.now.classes * chunk_count site.now.map.now.size }
    {
        let cell_layer = CellLayer::build(alloc, site)?;
        let planes = planes_of(alloc, site, &cell_layer.cells)?;
        let tables = class_tables(alloc, site, &planes, ticks)?;
        Ok(Layers {
            cell_layer,
            planes,
            tables,
        })
    }

    /// The layers of the map under the obstructions of now, from these, which are those under the obstructions of
    /// before, and in how many pairs of chunk and class they differ. Only the cells of the changes'
    /// rectangles are painted, each pair that differs is labelled once, and what lies elsewhere is shared.
    pub fn updated<L: Ledger>(
        &self,
        alloc: Global,
        earlier: &Store,
        site: &Site<'_>,
        changes: &Changes<'_>,
        ticks: &mut Ticks<L>,
    ) -> Result<(Layers, u32), NoMemory>
        requires parts { AreParts site.now.map.now earlier.now self.now.cell_layer.base self.now.cell_layer.reachers
            self.now.cell_layer.cells self.now.planes self.now.tables }
        requires fit { AllFit site.now.map.now.size site.now.shapes.now }
        requires sized { changes.now.dirty.now.size ≡ site.now.map.now.size }
        requires covers { CoverChanges site.now.map.now earlier.now site.now.shapes.now changes.now.dirty.now.rects }
        requires names { NameChanges site.now.map.now earlier.now site.now.shapes.now changes.now.dirty.now.rects changes.now.ids.now }
        ensures parts { IfOk result (λ next. AreParts site.now.map.now site.now.shapes.now next.0.cell_layer.base next.0.cell_layer.reachers
            next.0.cell_layer.cells next.0.planes next.0.tables) }
        ensures relabelled { IfOk result (λ next. HasRelabelled (length site.now.map.now.classes)
            (passable_at site.now.map.now earlier.now) (passable_at site.now.map.now site.now.shapes.now) next.1) }
        ensures most { (count : ℕ) → HasRelabelled (length site.now.map.now.classes) (passable_at site.now.map.now earlier.now)
            (passable_at site.now.map.now site.now.shapes.now) count → ticks.new ≤ ticks.old + count }
    {
        let (cell_layer, changed) = self.cell_layer.updated(alloc, earlier, site, changes)?;
        let bits = changed.as_slice();
        let planes = self.next_planes(alloc, site, &cell_layer.cells, changes.dirty, bits)?;
        let marks = Marks::new(alloc, bits)?;
        let before = Earlier {
            planes: &self.planes,
            tables: &self.tables,
            dirty: changes.dirty,
        };
        let tables = next_tables(alloc, site, &planes, &before, &marks, ticks)?;
        let relabelled = marks_below(bits, site.map.classes().count());
        let layers = Layers {
            cell_layer,
            planes,
            tables,
        };
        Ok((layers, relabelled))
    }

    /// The planes of all classes of the map under the obstructions of now, whose cells have these numbers, from the planes
    /// and the numbers of these layers. The parts cover what has changed, and the bits say in which chunks; what lies
    /// elsewhere is shared.
    fn next_planes(
        &self,
        alloc: Global,
        site: &Site<'_>,
        cells: &SharedList<Patch>,
        dirty: &DirtyParts<'_>,
        changed: &[u16],
    ) -> Result<Planes, NoMemory>
        requires cells { ArePaintedChunks site.now.map.now site.now.shapes.now cells.now }
        requires sized { dirty.now.size ≡ site.now.map.now.size }
        requires each { length changed.now ≡ chunk_count site.now.map.now.size }
        requires before { ArePlanesBefore site.now.map.now site.now.shapes.now self.now.planes self.now.cell_layer.cells
            dirty.now.rects changed.now }
        ensures { IfOk result (ArePlanes site.now.map.now.size (passable_at site.now.map.now site.now.shapes.now) 65535
            (length site.now.map.now.classes)) }
    {
        let painted = PaintedMap::new(site, cells);
        let earlier = &self.cell_layer.cells;
        let parts = changed_parts(alloc, site.map.size(), dirty, changed, earlier, cells)?;
        self.planes.updated(alloc, &painted, &parts)
    }
}

/// The planes of all classes of a map whose cells have these numbers.
fn planes_of(alloc: Global, site: &Site<'_>, cells: &SharedList<Patch>) -> Result<Planes, NoMemory>
    requires { ArePaintedChunks site.now.map.now site.now.shapes.now cells.now }
    ensures { IfOk result (ArePlanes site.now.map.now.size (passable_at site.now.map.now site.now.shapes.now) 65535 (length site.now.map.now.classes)) }
{
    let painted = PaintedMap::new(site, cells);
    Planes::build(alloc, &painted, u16::MAX)
}
