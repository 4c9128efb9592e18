//! The border between two chunks, read in parts along which both numbers stay the same.
ghost use Rattle.std.specs.Prelude.{ℕ, ◌≡◌, ◌≢◌, ◌<◌, ◌≤◌, ◌↔◌, ◌⊎◌, IsTrue, IfOk, OnOk, Contains, AllPairs};
ghost use Rattle.nav_types.specs.Numbering.{IsPatch};
ghost use Rattle.region_edges.specs.Edges.{AreNeighbours, IsPairBefore};
ghost use Rattle.region_edges.specs.inner.Borders.{border_length, numbers_at, Meets};

use crate::neighbours::ChunkSide;
use chunk_regions::Labels;
use nav_types::{Cell, NoMemory, Rect};
use std::alloc::Global;

/// How many cells a chunk has along that side, from 1 to `CHUNK_SIDE`.
fn length(rect: Rect, side: ChunkSide) -> u16
    requires { IsPatch rect }
    ensures { result ≡ border_length side rect }
{
    match side {
        ChunkSide::East => rect.j1 - rect.j0 + 1,
        ChunkSide::North => rect.i1 - rect.i0 + 1,
    }
}

/// A part of a border along which the numbers of the two cells that lie side by side are the same.
#[derive(Clone, Copy)]
struct BorderPart {
    /// The region numbers here and there.
    pair: (u16, u16),
    /// The first place along the border behind it.
    end: u16,
}

/// The region numbers of the two cells that lie side by side at a place along an east border.
#[inline(always)]
fn east_pair(here: &Labels, there: &Labels, at: u16) -> (u16, u16)
    requires neighbours { AreNeighbours ChunkSide.East here.now there.now }
    requires within { at < border_length ChunkSide.East here.now.cells.rect }
    ensures { result ≡ numbers_at ChunkSide.East here.now there.now at }
{
    let near = here.rect();
    let far = there.rect();
    (
        here.at(Cell::new(near.i1, near.j0 + at)),
        there.at(Cell::new(far.i0, far.j0 + at)),
    )
}

/// The part of an east border from a place on, up to where another pair of numbers begins.
#[inline(always)]
fn east_part(here: &Labels, there: &Labels, at: u16) -> BorderPart
    requires neighbours { AreNeighbours ChunkSide.East here.now there.now }
    requires within { at < border_length ChunkSide.East here.now.cells.rect }
    ensures further { at < result.end }
    ensures within { result.end ≤ border_length ChunkSide.East here.now.cells.rect }
    ensures same { (place : ℕ) → at ≤ place → place < result.end
        → numbers_at ChunkSide.East here.now there.now place ≡ result.pair }
{
    let pair = east_pair(here, there, at);
    let length = length(here.rect(), ChunkSide::East);
    for place in at + 1..length {
        let next = east_pair(here, there, place);
        if next.0 != pair.0 || next.1 != pair.1 {
            return BorderPart { pair, end: place };
        }
    }
    BorderPart { pair, end: length }
}

/// The part of the border from a place on, with the region numbers of its cells here and there.
#[inline(always)]
fn part_at(here: &Labels, there: &Labels, side: ChunkSide, at: u16) -> BorderPart
    requires neighbours { AreNeighbours side here.now there.now }
    requires within { at < border_length side here.now.cells.rect }
    ensures further { at < result.end }
    ensures within { result.end ≤ border_length side here.now.cells.rect }
    ensures same { (place : ℕ) → at ≤ place → place < result.end
        → numbers_at side here.now there.now place ≡ result.pair }
{
    match side {
        ChunkSide::East => east_part(here, there, at),
        ChunkSide::North => north_part(here, there, at),
    }
}

/// The part of a north border from a place on, up to the end of the shorter of the two stretches that begin there.
#[inline(always)]
fn north_part(here: &Labels, there: &Labels, at: u16) -> BorderPart
    requires neighbours { AreNeighbours ChunkSide.North here.now there.now }
    requires within { at < border_length ChunkSide.North here.now.cells.rect }
    ensures further { at < result.end }
    ensures within { result.end ≤ border_length ChunkSide.North here.now.cells.rect }
    ensures same { (place : ℕ) → at ≤ place → place < result.end
        → numbers_at ChunkSide.North here.now there.now place ≡ result.pair }
{
    let near = here.rect();
    let far = there.rect();
    let one = here.stretch_at(Cell::new(near.i0 + at, near.j1));
    let other = there.stretch_at(Cell::new(far.i0 + at, far.j0));
    BorderPart {
        pair: (one.region, other.region),
        end: one.last.min(other.last) - near.i0 + 1,
    }
}

/// The pairs of regions that meet along the border, at most `CHUNK_SIDE`, in the order of its cells.
pub fn meetings(
    alloc: Global,
    here: &Labels,
    there: &Labels,
    side: ChunkSide,
) -> Result<Vec<(u16, u16)>, NoMemory>
    requires { AreNeighbours side here.now there.now }
    ensures { IfOk result (λ pairs. (pair : ℕ × ℕ) → Contains pairs.items pair
        ↔ Meets side here.now there.now (border_length side here.now.cells.rect) pair) }
{
    // room for the pairs of most borders
    let mut pairs = Vec::with_capacity(alloc, 8)?;
    let length = length(here.rect(), side);
    let mut at = 0;
    while at < length {
        let part = part_at(here, there, side, at);
        add_meeting(&mut pairs, part.pair)?;
        at = part.end;
    }
    Ok(pairs)
}

/// Appends the pair, if it is one of two regions and the list does not end with it.
#[inline(always)]
fn add_meeting(pairs: &mut Vec<(u16, u16)>, pair: (u16, u16)) -> Result<(), NoMemory>
    ensures { OnOk result ((other : ℕ × ℕ) → Contains pairs.new.items other
        ↔ (Contains pairs.old.items other ⊎ ((other ≡ pair) × (pair.0 ≢ 0) × (pair.1 ≢ 0)))) }
{
    // the number 0 is that of impassable cells, which are of no region
    if pair.0 == 0 {
        return Ok(());
    }
    if pair.1 == 0 {
        return Ok(());
    }
    if ends_with(pairs.as_slice(), pair) {
        return Ok(());
    }
    pairs.push(pair)?;
    Ok(())
}

/// Whether the pair is the list's last.
#[inline(always)]
fn ends_with(pairs: &[(u16, u16)], pair: (u16, u16)) -> bool
    ensures { IsTrue result → Contains pairs.now pair }
{
    match pairs.last() {
        Some(last) => last.0 == pair.0 && last.1 == pair.1,
        None => false,
    }
}

/// Puts the pairs in order and drops doubles.
pub fn put_in_order(pairs: &mut Vec<(u16, u16)>)
    ensures rising { AllPairs IsPairBefore pairs.new.items }
    ensures same { (pair : ℕ × ℕ) → Contains pairs.new.items pair ↔ Contains pairs.old.items pair }
{
    // a pair can meet at several places, and `dedup` drops doubles that stand next to one another
    pairs.sort_unstable();
    pairs.dedup();
}
