//! The areas of all regions.
ghost use Rattle.std.specs.Prelude.{◌≡◌, ◌≢◌, ◌<◌, ◌≤◌, ◌^◌, ◌↔◌, ℕ, List, length, sum, slice_index, All, IsTrue, IfOk};
ghost use Rattle.reach_sets.specs.declared.regions.RegionId.{RegionId};
ghost use Rattle.reach_sets.specs.RegionOrder.{IsRegion};
ghost use Rattle.reach_sets.specs.AreaNumbers.{AreaNumbers, AreAreas, area_of};

use crate::forests::{forest_of, number_trees};
use crate::linked::{LinkedAreas, linked_areas};
use crate::offsets::Offsets;
use crate::regions::{Links, RegionId};
use nav_types::NoMemory;
use std::alloc::Global;
use std::marker::Model;

/// Where there are more regions than this for each link, only those with links are written down.
const REGIONS_A_LINK: u32 = 8;

/// The areas of all regions. Two regions are of one area exactly where a chain of links joins them.
/// Contracts see the number of regions of each chunk, the area of each region in the order of regions,
/// and the number of areas.
#[derive(Drop)]
pub struct AreaTable {
    offsets: Offsets,
    areas: AreaLists,
    count: u32,
}

/// How the areas are held: each region's, or, where few regions have links, of these alone.
#[derive(Drop)]
enum AreaLists {
    Each(Vec<u32>),
    Linked(LinkedAreas),
}

impl Model for AreaTable {
    ghost use Rattle.std.specs.Prelude.{◌≡◌, length, sum};
    ghost use Rattle.reach_sets.specs.AreaNumbers.{AreaNumbers};
    ghost use Rattle.reach_sets.specs.inner.Holding.{areas_held};

    ghost Value = { AreaNumbers };

    ghost view = { λ t. record { regions = t.offsets; areas = areas_held t.areas; count = t.count } };

    ghost invariant = { λ t. length (areas_held t.areas) ≡ sum t.offsets };
}

impl AreaTable {
    /// The areas of these regions under these links, by `AreAreas`: areas are numbered from 1 in the order
    /// of their first regions, by chunk, then by number. `regions` has the number of regions of each chunk,
    /// in the order chunk row, chunk column. Each link names regions that exist.
    ///
    /// Links are joined in a forest whose ways are halved as they are climbed, so the work grows with the
    /// regions and links times the logarithm of the regions, and the memory with the regions. It refuses for
    /// want of memory alone.
    pub fn build(alloc: Global, regions: &[u16], links: &Links) -> Result<AreaTable, NoMemory>
        requires exist { All (λ link. IsRegion regions.now link.0 × IsRegion regions.now link.1) links.now }
        requires few { sum regions.now < 2 ^ 32 }
        ensures areas { IfOk result (λ table. AreAreas regions.now links.now table) }
    {
        let offsets = Offsets::new(alloc, regions)?;
        if has_few(&offsets, links.as_slice()) {
            let (areas, count) = linked_areas(alloc, &offsets, links.as_slice())?;
            return Ok(AreaTable {
                offsets,
                areas: AreaLists::Linked(areas),
                count,
            });
        }
        let mut areas = forest_of(alloc, &offsets, links.as_slice())?;
        let count = number_trees(&mut areas);
        Ok(AreaTable {
            offsets,
            areas: AreaLists::Each(areas),
            count,
        })
    }

    /// The area of a region, from 1; 0 for region 0.
    /// The chunk exists, and the region is 0 or one of the chunk's.
    pub fn area(&self, region: RegionId) -> u32
        requires chunk { region.chunk < length self.now.regions }
        requires region { region.region ≤ slice_index self.now.regions region.chunk }
        ensures area { result ≡ area_of self.now region }
    {
        if region.region == 0 {
            return 0;
        }
        let place = self.offsets.place_of(region);
        match &self.areas {
            AreaLists::Each(areas) => areas[place as usize],
            AreaLists::Linked(areas) => areas.at(place),
        }
    }

    /// How many areas there are.
    pub fn count(&self) -> u32
        ensures { result ≡ self.now.count }
    {
        self.count
    }

    /// Whether the two are regions of one area. Region 0 is in no area, so it is with none, itself included.
    pub fn same(&self, a: RegionId, b: RegionId) -> bool
        requires a_chunk { a.chunk < length self.now.regions }
        requires a_region { a.region ≤ slice_index self.now.regions a.chunk }
        requires b_chunk { b.chunk < length self.now.regions }
        requires b_region { b.region ≤ slice_index self.now.regions b.chunk }
        ensures { IsTrue result
            ↔ ((area_of self.now a ≡ area_of self.now b) × (area_of self.now a ≢ 0)) }
    {
        let area = self.area(a);
        area != 0 && area == self.area(b)
    }
}

/// Whether the links are few beside the regions, so that only the regions that have some need to be written down.
fn has_few(offsets: &Offsets, links: &[(RegionId, RegionId)]) -> bool {
    links.len() < (offsets.total() / REGIONS_A_LINK) as usize
}

/// Regions and links have one table of areas.
pub fn one_table()
    ensures { (regions : List ℕ) (links : List (RegionId × RegionId)) (one other : AreaNumbers)
        → AreAreas regions links one → AreAreas regions links other → one ≡ other }
{}
