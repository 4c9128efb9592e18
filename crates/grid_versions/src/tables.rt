//! What a version knows of one class: regions, region edges and areas.
ghost use Rattle.std.specs.Prelude.{Bool, ◌≡◌, ◌+◌, ◌*◌, ◌^◌, ◌<◌, ◌≤◌, count_by, OnOk, IfOk};
ghost use Rattle.nav_types.specs.declared.limits.TheConstants.{MAX_CHUNKS, CHUNK_CELLS};
ghost use Rattle.nav_types.specs.declared.cells.Cell.{Cell};
ghost use Rattle.nav_types.specs.Cells.{IsInside};
ghost use Rattle.lane_rows.specs.Rows.{has_class};
ghost use Rattle.class_planes.specs.Planes.{is_passable};
ghost use Rattle.reach_sets.specs.AreaNumbers.{area_of};
ghost use Rattle.grid_versions.specs.Chunks.{chunk_count};
ghost use Rattle.grid_versions.specs.inner.Building.{AreSides};
ghost use Rattle.grid_versions.specs.inner.Changing.{AreChanges, CoverPassable};
ghost use Rattle.grid_versions.specs.inner.Tables.{AreTables, AreOfMap, label_counts, region_counts, region_in};
ghost use Rattle.grid_versions.specs.inner.Tables.{region_total, edge_total};

mod areas;
mod borders;
mod kept_numbers;
mod labelling;
mod sums;

use crate::chunks;
use crate::relabelling::Changed;
use chunk_regions::Labels;
use class_planes::ClassPlane;
use nav_types::{Cell, NoMemory, Size, Ticks};
use reach_sets::{AreaTable, RegionId};
use region_edges::{ChunkSide, Edges};
use shared_list::SharedList;
use std::alloc::Global;
use std::marker::Model;
use std::sync::Arc;
use std::sync::ledger::Ledger;

/// What is known of one class of a map: the regions of each chunk, the region edges to its east and its north
/// neighbour, and the areas. Contracts see these lists (`Tables`). Labels, edges and areas may be shared with other
/// tables.
#[derive(Drop)]
pub struct ClassTables {
    labels: SharedList<Labels>,
    east: SharedList<Edges>,
    north: SharedList<Edges>,
    areas: Arc<AreaTable, Global>,
    // How many regions and how many edges all chunks have together.
    regions: u64,
    edges: u64,
}

impl Model for ClassTables {
    ghost use Rattle.std.specs.Arc.{arc_value};
    ghost use Rattle.grid_versions.specs.inner.Tables.{Tables, HasTotals};

    ghost Value = { Tables };

    ghost view = { λ t. record { labels = t.labels; east = t.east; north = t.north; areas = arc_value t.areas } };

    ghost invariant = { λ t. HasTotals (record {
      labels = t.labels;
      east = t.east;
      north = t.north;
      areas = arc_value t.areas;
    }) t.regions t.edges };
}

impl ClassTables {
    /// The tables of a class, made from its plane alone (`AreTables`). Each chunk is labelled once, which is
    /// one step of work. The work grows with the map's cells. It refuses for want of memory alone.
    pub fn build<L: Ledger>(
        alloc: Global,
        plane: &ClassPlane,
        ticks: &mut Ticks<L>,
    ) -> Result<ClassTables, NoMemory>
        ensures tables { IfOk result (AreTables (is_passable plane.now) plane.now.size) }
        ensures ticks { OnOk result (ticks.new ≡ ticks.old + chunk_count plane.now.size) }
        ensures most { ticks.new ≤ ticks.old + chunk_count plane.now.size }
    {
        let size = plane.size();
        let labels = labelling::all_labels(alloc, plane, ticks)?;
        let east = borders::all_edges(alloc, size, &labels, ChunkSide::East)?;
        let north = borders::all_edges(alloc, size, &labels, ChunkSide::North)?;
        ClassTables::joined(alloc, size, labels, east, north)
    }

    /// The tables of a class after a change, by its plane: these are those of before, and the bits say which chunks have
    /// changed. Only these are labelled, which is one step of work each; what no change touches is shared with these
    /// tables, and so are the areas where each chunk has as many regions as before and the edges are the same.
    pub fn updated<L: Ledger>(
        &self,
        alloc: Global,
        plane: &ClassPlane,
        changed: &Changed<'_>,
        ticks: &mut Ticks<L>,
    ) -> Result<ClassTables, NoMemory>
        requires size { changed.now.before.now.size ≡ plane.now.size }
        requires dirty { CoverPassable (is_passable changed.now.before.now) (is_passable plane.now) plane.now.size
            changed.now.dirty.now }
        requires before { AreTables (is_passable changed.now.before.now) plane.now.size self.now
            × AreChanges (is_passable changed.now.before.now) (is_passable plane.now) plane.now.size changed.now.class
            changed.now.bits.now }
        ensures tables { IfOk result (AreTables (is_passable plane.now) plane.now.size) }
        ensures most { ticks.new ≤ ticks.old + count_by (has_class changed.now.class) changed.now.bits.now }
    {
        let size = plane.size();
        let (labels, counts) = labelling::next_labels(alloc, plane, &self.labels, changed, ticks)?;
        let kept = kept_numbers::kept_parts(alloc, plane, &self.labels, &labels, changed)?;
        let made = borders::Relabelled {
            labels: &labels,
            kept: kept.as_slice(),
        };
        let (east, to_east) = borders::next_edges(
            alloc,
            size,
            &made,
            &self.east,
            changed,
            ChunkSide::East,
        )?;
        let (north, to_north) = borders::next_edges(
            alloc,
            size,
            &made,
            &self.north,
            changed,
            ChunkSide::North,
        )?;
        if counts && to_east && to_north {
            return self.relabelled(labels, east, north);
        }
        ClassTables::joined(alloc, size, labels, east, north)
    }

    /// These tables with other labels, by which each chunk has as many regions as before and the edges are the same.
    /// The areas are shared.
    fn relabelled(
        &self,
        labels: SharedList<Labels>,
        east: SharedList<Edges>,
        north: SharedList<Edges>,
    ) -> Result<ClassTables, NoMemory>
        requires counts { label_counts labels ≡ region_counts self.now }
        requires east { east ≡ self.now.east }
        requires north { north ≡ self.now.north }
        ensures { IfOk result (λ tables. tables
            ≡ record { labels = labels; east = east; north = north; areas = self.now.areas }) }
    {
        Ok(ClassTables {
            labels,
            east,
            north,
            areas: Arc::try_clone(&self.areas)?,
            regions: self.regions,
            edges: self.edges,
        })
    }

    /// The tables of these labels and edges, with the areas that they make.
    fn joined(
        alloc: Global,
        size: Size,
        labels: SharedList<Labels>,
        east: SharedList<Edges>,
        north: SharedList<Edges>,
    ) -> Result<ClassTables, NoMemory>
        requires { (passes : Cell → Bool) × AreSides passes size labels east north }
        ensures { IfOk result (λ tables. (passes : Cell → Bool) → AreSides passes size labels east north
            → AreTables passes size tables) }
    {
        let areas = areas::areas_of(alloc, size, &labels, &east, &north)?;
        let regions = sums::region_sum(&labels);
        let edges = sums::edge_sum(&east) + sums::edge_sum(&north);
        Ok(ClassTables {
            labels,
            east,
            north,
            areas,
            regions,
            edges,
        })
    }

    /// The region of a cell: its chunk's place, and its number in the chunk, which is 0 exactly for an impassable
    /// cell (`region_in`). The tables are of a map of this size.
    pub fn region(&self, size: Size, cell: Cell) -> RegionId
        requires tables { AreOfMap size self.now }
        requires inside { IsInside size cell }
        ensures { result ≡ region_in size self.now cell }
    {
        let place = chunks::place_of(size, cell.chunk());
        RegionId {
            chunk: place,
            region: self.labels.at(place as usize).at(cell),
        }
    }

    /// The number of a cell's area, from 1; 0 exactly for an impassable cell. The tables are of a map of this size.
    pub fn area(&self, size: Size, cell: Cell) -> u32
        requires tables { AreOfMap size self.now }
        requires inside { IsInside size cell }
        ensures { result ≡ area_of self.now.areas (region_in size self.now cell) }
    {
        self.areas.area(self.region(size, cell))
    }

    /// How many regions all chunks have together.
    pub fn regions(&self) -> u64
        ensures total { result ≡ region_total self.now }
        ensures few { result ≤ MAX_CHUNKS * CHUNK_CELLS }
    {
        self.regions
    }

    /// How many region edges all pairs of neighbouring chunks have together.
    pub fn edges(&self) -> u64
        ensures total { result ≡ edge_total self.now }
        ensures few { result < 2 ^ 37 }
    {
        self.edges
    }

    /// How many areas there are.
    pub fn areas(&self) -> u32
        ensures { result ≡ self.now.areas.count }
    {
        self.areas.count()
    }
}
