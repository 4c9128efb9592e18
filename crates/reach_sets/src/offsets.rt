//! Where the regions of each chunk begin among all regions.
ghost use Rattle.std.specs.Prelude.{◌≡◌, ◌<◌, ◌^◌, sum, IfOk};
ghost use Rattle.reach_sets.specs.RegionOrder.{IsRegion, place};

use crate::regions::RegionId;
use nav_types::NoMemory;
use std::alloc::Global;
use std::marker::Model;

/// Where each chunk's regions begin in the row of all regions.
/// Contracts see the number of regions of each chunk.
#[derive(Drop)]
pub struct Offsets {
    // one more than there are chunks: the last is the end of the row
    starts: Vec<u32>,
}

impl Model for Offsets {
    ghost use Rattle.std.specs.Prelude.{ℕ, List, ◌≡◌, ◌<◌, ◌^◌, sum};
    ghost use Rattle.reach_sets.specs.inner.RowStarts.{starts_from, counts_between};

    ghost Value = { List ℕ };

    ghost view = { λ o. counts_between o.starts.items };

    ghost invariant = { λ o. (o.starts.items ≡ starts_from 0 (counts_between o.starts.items))
        × (sum (counts_between o.starts.items) < 2 ^ 32) };
}

impl Offsets {
    /// The offsets of chunks with these numbers of regions.
    pub fn new(alloc: Global, regions: &[u16]) -> Result<Offsets, NoMemory>
        requires { sum regions.now < 2 ^ 32 }
        ensures { IfOk result (λ offsets. offsets ≡ regions.now) }
    {
        let mut starts = Vec::with_capacity(alloc, regions.len().saturating_add(1))?;
        let mut end = 0;
        for count in regions {
            starts.push(end)?;
            end += u32::from(*count);
        }
        starts.push(end)?;
        Ok(Offsets { starts })
    }

    /// The number of all regions.
    pub fn total(&self) -> u32
        ensures total { result ≡ sum self.now }
    {
        self.starts[self.starts.len() - 1]
    }

    /// The place of a region in the row of all regions, from 0.
    pub fn place_of(&self, id: RegionId) -> u32
        requires { IsRegion self.now id }
        ensures place { result ≡ place self.now id }
        ensures inside { result < sum self.now }
    {
        self.starts[id.chunk as usize] + (u32::from(id.region) - 1)
    }
}
