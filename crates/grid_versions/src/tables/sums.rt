//! Counts of regions and of edges.
ghost use Rattle.std.specs.Prelude.{◌≡◌, ◌^◌, ◌<◌, ◌≤◌, length, map, sum_by, IfOk, All};
ghost use Rattle.nav_types.specs.declared.limits.TheConstants.{CHUNK_CELLS};

use chunk_regions::Labels;
use nav_types::NoMemory;
use region_edges::Edges;
use shared_list::SharedList;
use std::alloc::Global;

/// The number of regions of each chunk, at most `CHUNK_CELLS`.
pub fn region_counts(alloc: Global, labels: &SharedList<Labels>) -> Result<Vec<u16>, NoMemory>
    ensures value { IfOk result (λ counts. counts.items ≡ map (λ l. length l.firsts) labels.now) }
    ensures most { IfOk result (λ counts. All (λ count. count ≤ CHUNK_CELLS) counts.items) }
{
    let mut counts = Vec::with_capacity(alloc, labels.len())?;
    for at in 0..labels.len() {
        counts.push(labels.at(at).count())?;
    }
    Ok(counts)
}

/// How many regions all chunks have together.
pub fn region_sum(labels: &SharedList<Labels>) -> u64
    requires { sum_by (λ l. length l.firsts) labels.now < 2 ^ 64 }
    ensures { result ≡ sum_by (λ l. length l.firsts) labels.now }
{
    let mut total = 0;
    for at in 0..labels.len() {
        total += u64::from(labels.at(at).count());
    }
    total
}

/// How many edges the lists have together.
pub fn edge_sum(edges: &SharedList<Edges>) -> u64
    requires { sum_by length edges.now < 2 ^ 64 }
    ensures { result ≡ sum_by length edges.now }
{
    let mut total = 0;
    for at in 0..edges.len() {
        total += edges.at(at).len() as u64;
    }
    total
}
