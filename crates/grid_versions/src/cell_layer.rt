//! What a version keeps of its cells chunk by chunk: their numbers, and which obstructions reach into them.
ghost use Rattle.std.specs.Prelude.{◌≡◌, IfOk};
ghost use Rattle.obstruction_store.specs.Standing.{AllFit};
ghost use Rattle.grid_versions.specs.inner.Painting.{AreBaseChunks, ArePaintedChunks, AreDiffering};
ghost use Rattle.grid_versions.specs.inner.Reachers.{AreReachers};
ghost use Rattle.grid_versions.specs.inner.Reaching.{CoverChanges, NameChanges};

use crate::next_cells::{Before, CellSource, next_patches};
use crate::painting::{base_patches, painted_patches};
use crate::reachers::{all_reachers, next_reachers};
use crate::sites::Site;
use crate::standing_edits::{Changes, are_free};
use nav_types::NoMemory;
use navcell_grid::Patch;
use obstruction_store::{Ids, Store};
use shared_list::SharedList;
use std::alloc::Global;

/// What a version keeps of its cells chunk by chunk.
#[derive(Drop)]
pub struct CellLayer {
    /// The numbers of the cells under the base rectangles alone.
    pub base: SharedList<Patch>,
    /// The numbers of the obstructions that reach into the chunk.
    pub reachers: SharedList<Ids>,
    /// The numbers of the cells.
    pub cells: SharedList<Patch>,
}

impl CellLayer {
    /// The cell layer of this map and these obstructions.
    pub fn build(alloc: Global, site: &Site<'_>) -> Result<CellLayer, NoMemory>
        requires { AllFit site.now.map.now.size site.now.shapes.now }
        ensures base { IfOk result (λ made. AreBaseChunks site.now.map.now made.base) }
        ensures reachers { IfOk result (λ made. AreReachers site.now.map.now site.now.shapes.now made.reachers) }
        ensures cells { IfOk result (λ made. ArePaintedChunks site.now.map.now site.now.shapes.now made.cells) }
    {
        let base = base_patches(alloc, site.map)?;
        let reachers = all_reachers(alloc, site)?;
        let cells = painted_patches(alloc, site, &reachers, &base)?;
        Ok(CellLayer {
            base,
            reachers,
            cells,
        })
    }

    /// The cell layer of the map under the obstructions of now, from this one, which is that under earlier ones, and for each
    /// chunk the bits that differ. Only the cells of the changes' rectangles are painted, and what lies elsewhere is
    /// shared.
    pub fn updated(
        &self,
        alloc: Global,
        earlier: &Store,
        site: &Site<'_>,
        changes: &Changes<'_>,
    ) -> Result<(CellLayer, Vec<u16>), NoMemory>
        requires base { AreBaseChunks site.now.map.now self.now.base }
        requires reachers { AreReachers site.now.map.now earlier.now self.now.reachers }
        requires cells { ArePaintedChunks site.now.map.now earlier.now self.now.cells }
        requires fit { AllFit site.now.map.now.size site.now.shapes.now }
        requires sized { changes.now.dirty.now.size ≡ site.now.map.now.size }
        requires covers { CoverChanges site.now.map.now earlier.now site.now.shapes.now changes.now.dirty.now.rects }
        requires names { NameChanges site.now.map.now earlier.now site.now.shapes.now changes.now.dirty.now.rects changes.now.ids.now }
        ensures base { IfOk result (λ next. AreBaseChunks site.now.map.now next.0.base) }
        ensures reachers { IfOk result (λ next. AreReachers site.now.map.now site.now.shapes.now next.0.reachers) }
        ensures cells { IfOk result (λ next. ArePaintedChunks site.now.map.now site.now.shapes.now next.0.cells) }
        ensures bits { IfOk result (λ next. AreDiffering self.now.cells next.0.cells next.1.items) }
    {
        let base = self.base.share(alloc)?;
        let adds = are_free(earlier, changes.ids);
        let removes = are_free(site.shapes, changes.ids);
        let reachers = next_reachers(alloc, site, &self.reachers, changes)?;
        let source = CellSource {
            site,
            base: &self.base,
            reachers: &reachers,
        };
        let before = Before {
            cells: &self.cells,
            dirty: changes.dirty,
            ids: changes.ids,
            adds,
            removes,
        };
        let (cells, changed) = next_patches(alloc, &source, &before)?;
        let cell_layer = CellLayer {
            base,
            reachers,
            cells,
        };
        Ok((cell_layer, changed))
    }
}
