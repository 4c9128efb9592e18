//! Regions joined into areas: a union-find forest.
ghost use Rattle.std.specs.Prelude.{◌≡◌, ℕ, ◌<◌, ◌≤◌, ◌^◌, length, sum, slice_index, All, IfOk};
ghost use Rattle.reach_sets.specs.RegionOrder.{IsRegion};
ghost use Rattle.reach_sets.specs.inner.Forests.{IsForest, IsRoot, AreInOneTree, KeepsTrees, JoinsTrees, IsForestOf, AreRootNumbers};

use crate::offsets::Offsets;
use crate::regions::RegionId;
use nav_types::NoMemory;
use std::alloc::Global;

/// The root of a place's tree. Each place that is passed on the way gets its grandparent as its parent,
/// so ways grow short.
fn root_of(parents: &mut [u32], place: u32) -> u32
    requires forest { IsForest parents.old }
    requires inside { place < length parents.old }
    ensures below { result ≤ place }
    ensures root { IsRoot parents.new result }
    ensures found { AreInOneTree parents.new place result }
    ensures kept { KeepsTrees parents.old parents.new }
{
    let mut at = place;
    'climb: while parents[at as usize] != at {
        let up = parents[parents[at as usize] as usize];
        parents[at as usize] = up;
        at = up;
    }
    at
}

/// Makes one tree of the trees of two places. The earlier root stays the root.
pub fn join(parents: &mut [u32], a: u32, b: u32)
    requires forest { IsForest parents.old }
    requires a_inside { a < length parents.old }
    requires b_inside { b < length parents.old }
    ensures { JoinsTrees parents.old a b parents.new }
{
    // a tree's root is its earliest place, which is what numbers it
    let first = root_of(parents, a);
    let second = root_of(parents, b);
    if first < second {
        parents[second as usize] = first;
    } else {
        parents[first as usize] = second;
    }
}

/// Each place is a tree of its own.
pub fn apart(alloc: Global, count: u32) -> Result<Vec<u32>, NoMemory>
    ensures { IfOk result (λ parents. (length parents.items ≡ count)
        × ((k : ℕ) → k < count → slice_index parents.items k ≡ k)) }
{
    let mut parents = Vec::with_capacity(alloc, count as usize)?;
    for place in 0..count {
        parents.push_reserved(place);
    }
    Ok(parents)
}

/// Joins the trees of the regions of each link.
fn join_links(parents: &mut [u32], offsets: &Offsets, links: &[(RegionId, RegionId)])
    requires exist { All (λ link. IsRegion offsets.now link.0 × IsRegion offsets.now link.1) links.now }
    requires each { length parents.old ≡ sum offsets.now }
    requires apart { (k : ℕ) → k < length parents.old → slice_index parents.old k ≡ k }
    ensures { IsForestOf offsets.now links.now parents.new }
{
    for link in links {
        join(parents, offsets.place_of(link.0), offsets.place_of(link.1));
    }
}

/// A forest over the places of all regions: two are of one tree exactly where the links join them.
pub fn forest_of(
    alloc: Global,
    offsets: &Offsets,
    links: &[(RegionId, RegionId)],
) -> Result<Vec<u32>, NoMemory>
    requires { All (λ link. IsRegion offsets.now link.0 × IsRegion offsets.now link.1) links.now }
    ensures { IfOk result (λ parents. IsForestOf offsets.now links.now parents.items) }
{
    let mut parents = apart(alloc, offsets.total())?;
    join_links(&mut parents, offsets, links);
    Ok(parents)
}

/// Puts the number of its tree in each place of a forest, and gives how many trees there are.
/// Trees are numbered from 1 in the order of their roots.
pub fn number_trees(places: &mut [u32]) -> u32
    requires forest { IsForest places.old }
    requires few { length places.old < 2 ^ 32 }
    ensures { AreRootNumbers places.old places.new result }
{
    let mut count = 0;
    for place in 0..places.len() {
        let parent = places[place] as usize;
        if parent == place {
            count += 1;
            places[place] = count;
        } else {
            // a parent stands before its places, so its number is there
            places[place] = places[parent];
        }
    }
    count
}
