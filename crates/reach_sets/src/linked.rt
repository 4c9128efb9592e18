//! Areas of many regions of which few have links.
ghost use Rattle.std.specs.Prelude.{ℕ, ◌≡◌, ◌<◌, ◌≤◌, ◌-◌, ◌+◌, ◌/◌, ◌^◌, length, sum, set, slice_index, All, IfOk, IsTrue};
ghost use Rattle.reach_sets.specs.declared.regions.RegionId.{RegionId};
ghost use Rattle.reach_sets.specs.RegionOrder.{IsRegion, place};
ghost use Rattle.reach_sets.specs.AreaNumbers.{AreAreas};
ghost use Rattle.reach_sets.specs.inner.Forests.{IsForest};
ghost use Rattle.reach_sets.specs.inner.EndMarks.{is_marked, marked_before};
ghost use Rattle.reach_sets.specs.inner.Linked.{AreEnds, IsEndForest, AreChildCounts, AreEndAreas};

use crate::forests::{apart, join};
use crate::marks::{EndMarks, WORD, mark};
use crate::offsets::Offsets;
use crate::regions::RegionId;
use nav_types::NoMemory;
use std::alloc::Global;
use std::marker::Model;

/// The areas of all regions, of which few have links. Only those with links are written down: each other region is an
/// area of its own. Contracts see the area of each region in the order of regions.
#[derive(Drop)]
pub struct LinkedAreas {
    // the regions with links, by their places
    marks: EndMarks,
    // the area of each of them
    areas: Vec<u32>,
    // for each number of them, how many of the first that many are not the first of their area
    joined: Vec<u32>,
    // how many regions there are
    regions: u32,
}

impl Model for LinkedAreas {
    ghost use Rattle.std.specs.Prelude.{ℕ, List};
    ghost use Rattle.reach_sets.specs.inner.Linked.{all_areas, FitMarks};

    ghost Value = { List ℕ };

    ghost view = { λ l. all_areas l.marks l.areas.items l.joined.items l.regions };

    ghost invariant = { λ l. FitMarks l.marks l.areas.items l.joined.items l.regions };
}

impl LinkedAreas {
    /// The area of the region at a place.
    pub fn at(&self, place: u32) -> u32
        requires { place < length self.now }
        ensures { result ≡ slice_index self.now place }
    {
        let _ = self.regions;
        let before = self.marks.before(place) as usize;
        if self.marks.is_marked(place) {
            return self.areas[before];
        }
        place - self.joined[before] + 1
    }
}

/// The areas of these regions under these links, and how many areas there are.
pub fn linked_areas(
    alloc: Global,
    offsets: &Offsets,
    links: &[(RegionId, RegionId)],
) -> Result<(LinkedAreas, u32), NoMemory>
    requires { All (λ link. IsRegion offsets.now link.0 × IsRegion offsets.now link.1) links.now }
    ensures { IfOk result (λ made. AreAreas offsets.now links.now
        (record { regions = offsets.now; areas = made.0; count = made.1 })) }
{
    let regions = offsets.total();
    let words = words_of(alloc, offsets, links)?;
    let marks = EndMarks::new(alloc, words)?;
    let forest = end_forest(alloc, offsets, &marks, links)?;
    let places = forest.places.as_slice();
    let parents = forest.parents.as_slice();
    let joined = count_children(alloc, parents)?;
    let areas = number_ends(alloc, places, parents, joined.as_slice())?;
    let count = regions - joined[joined.len() - 1];
    Ok((
        LinkedAreas {
            marks,
            areas,
            joined,
            regions,
        },
        count,
    ))
}

/// The words in which the places of all regions with links are marked.
fn words_of(
    alloc: Global,
    offsets: &Offsets,
    links: &[(RegionId, RegionId)],
) -> Result<Vec<u64>, NoMemory>
    requires { All (λ link. IsRegion offsets.now link.0 × IsRegion offsets.now link.1) links.now }
    ensures wide { IfOk result (λ words. length words.items ≡ sum offsets.now / 64 + 1) }
    ensures ends { IfOk result (λ words. AreEnds offsets.now links.now words.items) }
{
    let mut words = vec![in alloc; 0; (offsets.total() / WORD) as usize + 1]?;
    mark_ends(&mut words, offsets, links);
    Ok(words)
}

/// Marks the places of the regions of each link.
fn mark_ends(words: &mut [u64], offsets: &Offsets, links: &[(RegionId, RegionId)])
    requires exist { All (λ link. IsRegion offsets.now link.0 × IsRegion offsets.now link.1) links.now }
    requires wide { length words.old ≡ sum offsets.now / 64 + 1 }
    requires none { (k : ℕ) → slice_index words.old k ≡ 0 }
    ensures { AreEnds offsets.now links.now words.new }
{
    for link in links {
        mark(words, offsets.place_of(link.0));
        mark(words, offsets.place_of(link.1));
    }
}

/// The places of the regions with links, in order, and a forest over them by their numbers.
#[derive(Drop)]
struct EndForest {
    places: Vec<u32>,
    parents: Vec<u32>,
}

/// A forest over the regions with links: two are of one tree exactly where the links join them.
fn end_forest(
    alloc: Global,
    offsets: &Offsets,
    marks: &EndMarks,
    links: &[(RegionId, RegionId)],
) -> Result<EndForest, NoMemory>
    requires exist { All (λ link. IsRegion offsets.now link.0 × IsRegion offsets.now link.1) links.now }
    requires wide { length marks.now ≡ sum offsets.now / 64 + 1 }
    requires ends { AreEnds offsets.now links.now marks.now }
    ensures { IfOk result (λ made. IsEndForest offsets.now links.now marks.now made.places.items made.parents.items) }
{
    let ends = marks.before(offsets.total());
    let mut places = vec![in alloc; 0; ends as usize]?;
    let mut parents = apart(alloc, ends)?;
    join_ends(&mut places, &mut parents, offsets, marks, links);
    Ok(EndForest { places, parents })
}

/// Joins the trees of the regions of each link, and writes down the places of these regions.
fn join_ends(
    places: &mut [u32],
    parents: &mut [u32],
    offsets: &Offsets,
    marks: &EndMarks,
    links: &[(RegionId, RegionId)],
)
    requires exist { All (λ link. IsRegion offsets.now link.0 × IsRegion offsets.now link.1) links.now }
    requires wide { length marks.now ≡ sum offsets.now / 64 + 1 }
    requires ends { AreEnds offsets.now links.now marks.now }
    requires places { length places.old ≡ marked_before marks.now (sum offsets.now) }
    requires parents { length parents.old ≡ marked_before marks.now (sum offsets.now) }
    requires apart { (k : ℕ) → k < length parents.old → slice_index parents.old k ≡ k }
    ensures { IsEndForest offsets.now links.now marks.now places.new parents.new }
{
    for link in links {
        let first = end_of(places, offsets, marks, link.0);
        let second = end_of(places, offsets, marks, link.1);
        join(parents, first, second);
    }
}

/// The number of a region among those with links, from 0. Its place is written down there.
fn end_of(places: &mut [u32], offsets: &Offsets, marks: &EndMarks, id: RegionId) -> u32
    requires region { IsRegion offsets.now id }
    requires wide { length marks.now ≡ sum offsets.now / 64 + 1 }
    requires marked { IsTrue (is_marked marks.now (place offsets.now id)) }
    requires places { length places.old ≡ marked_before marks.now (sum offsets.now) }
    ensures number { result ≡ marked_before marks.now (place offsets.now id) }
    ensures inside { result < length places.old }
    ensures noted { places.new ≡ set places.old result (place offsets.now id) }
{
    let place = offsets.place_of(id);
    let end = marks.before(place);
    places[end as usize] = place;
    end
}

/// For each number of places, how many of the first that many have another place as their parent.
fn count_children(alloc: Global, parents: &[u32]) -> Result<Vec<u32>, NoMemory>
    requires { length parents.now < 2 ^ 32 }
    ensures { IfOk result (λ joined. AreChildCounts parents.now joined.items) }
{
    let mut joined = Vec::with_capacity(alloc, parents.len().saturating_add(1))?;
    let mut children = 0;
    for place in 0..parents.len() {
        joined.push(children)?;
        if parents[place] as usize != place {
            children += 1;
        }
    }
    joined.push(children)?;
    Ok(joined)
}

/// The areas of the regions with links, by their places, the forest over them and the numbers of its children.
fn number_ends(
    alloc: Global,
    places: &[u32],
    parents: &[u32],
    joined: &[u32],
) -> Result<Vec<u32>, NoMemory>
    requires forest { IsForest parents.now }
    requires each { length places.now ≡ length parents.now }
    requires joined { AreChildCounts parents.now joined.now }
    requires above { (k : ℕ) → k < length places.now → k ≤ slice_index places.now k }
    requires few { (k : ℕ) → k < length places.now → slice_index places.now k < 2 ^ 32 - 1 }
    ensures { IfOk result (λ areas. AreEndAreas places.now parents.now areas.items) }
{
    let mut areas = Vec::with_capacity(alloc, parents.len())?;
    for place in 0..parents.len() {
        let parent = parents[place] as usize;
        if parent == place {
            areas.push(places[place] - joined[place] + 1)?;
        } else {
            areas.push(areas[parent])?;
        }
    }
    Ok(areas)
}
