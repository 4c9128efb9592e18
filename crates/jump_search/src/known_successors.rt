//! The directions in which a search goes on, each set of them found once.
ghost use Rattle.std.specs.Prelude.{◌≡◌, ◌==◌, ◌<◌, ◌*◌, None, Some, IfOk, replicate, slice_set};
ghost use Rattle.std.specs.Int.{bit_at};
ghost use Rattle.nav_types.specs.declared.directions.Dir.{Dir};
ghost use Rattle.nav_types.specs.DirSets.{holds};
ghost use Rattle.jump_scan.specs.Successors.{AreSuccessors};
ghost use Rattle.jump_search.specs.inner.KnownSets.{bit_of, IsPlaceOf};

use crate::nodes::arrival_number;
use jump_scan::successors_among;
use nav_types::{Dir, DirSet, NoMemory};
use std::alloc::Global;
use std::marker::Model;

/// How many places there are: for each of the 8 directions of arrival, one for each of the 256 sets of free cells beside.
const PLACES: usize = 8 * 256;

/// Successors by the direction of arrival and the free cells beside. A set of them is found at first need, and kept.
/// Contracts see the table.
#[derive(Drop)]
pub(crate) struct KnownSuccessors {
    sets: Vec<Option<DirSet>>,
}

impl Model for KnownSuccessors {
    ghost use Rattle.std.specs.Prelude.{List, Option};
    ghost use Rattle.nav_types.specs.declared.directions.DirSet.{DirSet};
    ghost use Rattle.jump_search.specs.inner.KnownSets.{AreKnown};

    ghost Value = { List (Option DirSet) };

    ghost view = { λ k. k.sets.items };

    ghost invariant = { λ k. AreKnown k.sets.items };
}

/// Four bits, from the lowest on.
#[inline(always)]
fn four_bits(first: bool, second: bool, third: bool, fourth: bool) -> usize
    ensures first { (bit_at result 0 == 1) ≡ first }
    ensures second { (bit_at result 1 == 1) ≡ second }
    ensures third { (bit_at result 2 == 1) ≡ third }
    ensures fourth { (bit_at result 3 == 1) ≡ fourth }
    ensures few { result < 16 }
{
    usize::from(first)
        | usize::from(second) << 1
        | usize::from(third) << 2
        | usize::from(fourth) << 3
}

/// The number of the set of free cells beside, which has a bit for each direction.
#[inline(always)]
fn number_of(free: DirSet) -> usize
    ensures bits { (dir : Dir) → (bit_at result (bit_of dir) == 1) ≡ holds free dir }
    ensures few { result < 256 }
{
    let low = four_bits(
        free.has(Dir::NW),
        free.has(Dir::N),
        free.has(Dir::NE),
        free.has(Dir::W),
    );
    let high = four_bits(
        free.has(Dir::E),
        free.has(Dir::SW),
        free.has(Dir::S),
        free.has(Dir::SE),
    );
    high * 16 + low
}

/// The place of the successors after a step, where `free` is the directions in which the cell beside is passable.
#[inline(always)]
fn place_of(free: DirSet, arrived: Dir) -> usize
    ensures place { IsPlaceOf free arrived result }
    ensures few { result < 8 * 256 }
{
    let arrival = usize::from(arrival_number(Some(arrived)) - 1);
    arrival * 256 + number_of(free)
}

impl KnownSuccessors {
    /// No set is known.
    pub(crate) fn new(alloc: Global) -> Result<KnownSuccessors, NoMemory>
        ensures { IfOk result (λ known. known ≡ replicate (8 * 256) None) }
    {
        let sets = vec![in alloc; None; PLACES]?;
        Ok(KnownSuccessors { sets })
    }

    /// Finds the successors of a passable cell after a step, and keeps them.
    #[inline(never)]
    fn find(&mut self, place: usize, free: DirSet, arrived: Dir) -> DirSet
        requires place { IsPlaceOf free arrived place }
        requires few { place < 8 * 256 }
        ensures successors { AreSuccessors free arrived result }
        ensures kept { self.new ≡ slice_set self.old place (Some result) }
    {
        let dirs = successors_among(free, arrived);
        self.sets[place] = Some(dirs);
        dirs
    }

    /// The successors of a passable cell after a step, where `free` is the directions in which the cell beside is passable.
    #[inline(always)]
    pub(crate) fn of(&mut self, free: DirSet, arrived: Dir) -> DirSet
        ensures { AreSuccessors free arrived result }
    {
        let place = place_of(free, arrived);
        match self.sets[place] {
            Some(dirs) => dirs,
            None => self.find(place, free, arrived),
        }
    }
}
