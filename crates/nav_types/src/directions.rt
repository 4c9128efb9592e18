//! The eight directions, and sets of them.
ghost use Rattle.std.specs.Prelude.{◌≡◌, ◌<◌, ◌≤◌, IsTrue, false, ◌&&◌};
ghost use Rattle.nav_types.specs.DirSets.{spot_of};
ghost use Rattle.nav_types.specs.declared.limits.TheConstants.{STRAIGHT_COST, DIAGONAL_COST};

use crate::cells::Cost;
use crate::limits::{DIAGONAL_COST, STRAIGHT_COST};
use std::marker::Model;

/// The eight directions: E is one column on, N one row on.
///
/// They are ordered as in [`Dir::ALL`].
#[derive(Clone, Copy, Debug, PartialEq, Eq, PartialOrd, Ord, Hash)]
pub enum Dir {
    N,
    E,
    S,
    W,
    NE,
    SE,
    SW,
    NW,
}

impl Dir {
    ghost use Rattle.nav_types.specs.Directions.{step_cost, is_straight, opposite, east, west, north, south};

    /// All directions, in the order in which the chosen walk prefers them.
    pub const ALL: [Dir; 8] = [
        Dir::N,
        Dir::E,
        Dir::S,
        Dir::W,
        Dir::NE,
        Dir::SE,
        Dir::SW,
        Dir::NW,
    ];

    /// Whether the direction is N, E, S or W.
    pub fn is_straight(self) -> bool
        ensures { result ≡ is_straight self }
    {
        match self {
            Dir::N | Dir::E | Dir::S | Dir::W => true,
            Dir::NE | Dir::SE | Dir::SW | Dir::NW => false,
        }
    }

    /// The direction back: of N it is S.
    pub fn opposite(self) -> Dir
        ensures value { result ≡ opposite self }
        ensures east { east result ≡ west self }
        ensures west { west result ≡ east self }
        ensures north { north result ≡ south self }
        ensures south { south result ≡ north self }
    {
        match self {
            Dir::N => Dir::S,
            Dir::E => Dir::W,
            Dir::S => Dir::N,
            Dir::W => Dir::E,
            Dir::NE => Dir::SW,
            Dir::SE => Dir::NW,
            Dir::SW => Dir::NE,
            Dir::NW => Dir::SE,
        }
    }

    /// The columns gained by one step, 0 or 1.
    pub fn east(self) -> u16
        ensures value { result ≡ east self }
        ensures most { result ≤ 1 }
    {
        match self {
            Dir::E | Dir::NE | Dir::SE => 1,
            Dir::N | Dir::S | Dir::W | Dir::SW | Dir::NW => 0,
        }
    }

    /// The columns lost by one step, 0 or 1.
    pub fn west(self) -> u16
        ensures value { result ≡ west self }
        ensures most { result ≤ 1 }
    {
        match self {
            Dir::W | Dir::NW | Dir::SW => 1,
            Dir::N | Dir::E | Dir::S | Dir::NE | Dir::SE => 0,
        }
    }

    /// The rows gained by one step, 0 or 1.
    pub fn north(self) -> u16
        ensures value { result ≡ north self }
        ensures most { result ≤ 1 }
    {
        match self {
            Dir::N | Dir::NE | Dir::NW => 1,
            Dir::E | Dir::S | Dir::W | Dir::SE | Dir::SW => 0,
        }
    }

    /// The rows lost by one step, 0 or 1.
    pub fn south(self) -> u16
        ensures value { result ≡ south self }
        ensures most { result ≤ 1 }
    {
        match self {
            Dir::S | Dir::SE | Dir::SW => 1,
            Dir::N | Dir::E | Dir::W | Dir::NE | Dir::NW => 0,
        }
    }

    /// The cost of one step: [`STRAIGHT_COST`] or [`DIAGONAL_COST`].
    pub fn cost(self) -> u64
        ensures value { result ≡ step_cost self }
        ensures least { STRAIGHT_COST ≤ result }
        ensures most { result ≤ DIAGONAL_COST }
    {
        if self.is_straight() {
            STRAIGHT_COST
        } else {
            DIAGONAL_COST
        }
    }
}

/// A set of directions: the bits of the nine cells about one, row by row.
#[derive(Clone, Copy, Debug, PartialEq, Eq)]
pub struct DirSet {
    pub(crate) bits: u16,
}

/// Where the cell in that direction stands among the nine about one, row by row from the north-west.
#[inline(always)]
fn spot_of(dir: Dir) -> u16
    ensures spot { result ≡ spot_of dir }
    ensures few { result < 9 }
{
    match dir {
        Dir::NW => 0,
        Dir::N => 1,
        Dir::NE => 2,
        Dir::W => 3,
        Dir::E => 5,
        Dir::SW => 6,
        Dir::S => 7,
        Dir::SE => 8,
    }
}

impl DirSet {
    ghost use Rattle.std.specs.Prelude.{◌≢◌, ◌↔◌, ◌⊎◌};
    ghost use Rattle.nav_types.specs.declared.directions.Dir.{Dir};
    ghost use Rattle.nav_types.specs.DirSets.{holds, is_set_towards};
    ghost use Rattle.nav_types.specs.Directions.{row_part, column_part};

    /// The set of no direction.
    pub fn new() -> DirSet
        ensures { (dir : Dir) → holds result dir ≡ false }
    {
        DirSet { bits: 0 }
    }

    /// The directions in which the cell is set in three rows of three cells about one, which are the lowest bits of
    /// these numbers, from the west on. The cell itself, in the middle, counts for nothing.
    #[inline(always)]
    pub fn of_rows(north: u16, middle: u16, south: u16) -> DirSet
        ensures { (dir : Dir) → holds result dir ≡ is_set_towards dir north middle south }
    {
        let northern = north & 7;
        let beside = (middle & 5) << 3;
        let southern = (south & 7) << 6;
        DirSet {
            bits: northern | beside | southern,
        }
    }

    /// The set with one direction more.
    #[inline(always)]
    pub fn with(self, dir: Dir) -> DirSet
        ensures added { IsTrue (holds result dir) }
        ensures others { (other : Dir) → other ≢ dir → holds result other ≡ holds self other }
    {
        let spot = spot_of(dir);
        DirSet {
            bits: self.bits | 1 << spot,
        }
    }

    /// The set, with one direction more where that is wanted.
    #[inline(always)]
    pub fn with_where(self, dir: Dir, wanted: bool) -> DirSet
        ensures { (other : Dir) → IsTrue (holds result other)
            ↔ (IsTrue (holds self other) ⊎ (IsTrue wanted × (other ≡ dir))) }
    {
        if wanted { self.with(dir) } else { self }
    }

    /// Whether the direction is in the set, and its straight parts, too.
    #[inline(always)]
    pub fn has_parts(self, dir: Dir) -> bool
        ensures { result ≡ (holds self dir && (holds self (row_part dir) && holds self (column_part dir))) }
    {
        let is_there = self.has(dir);
        let is_row = self.has(dir.row_part());
        let is_column = self.has(dir.column_part());
        all_three(is_there, is_row, is_column)
    }

    /// The directions of the set whose straight parts are in it, too.
    pub(crate) fn with_parts(self) -> DirSet
        ensures { (dir : Dir) → holds result dir
            ≡ (holds self dir && (holds self (row_part dir) && holds self (column_part dir))) }
    {
        let none = DirSet::new();
        let n = none.with_where(Dir::N, self.has_parts(Dir::N));
        let e = n.with_where(Dir::E, self.has_parts(Dir::E));
        let s = e.with_where(Dir::S, self.has_parts(Dir::S));
        let w = s.with_where(Dir::W, self.has_parts(Dir::W));
        let ne = w.with_where(Dir::NE, self.has_parts(Dir::NE));
        let se = ne.with_where(Dir::SE, self.has_parts(Dir::SE));
        let sw = se.with_where(Dir::SW, self.has_parts(Dir::SW));
        sw.with_where(Dir::NW, self.has_parts(Dir::NW))
    }

    /// Whether the direction is in the set.
    #[inline(always)]
    pub fn has(self, dir: Dir) -> bool
        ensures { result ≡ holds self dir }
    {
        (self.bits >> spot_of(dir)) & 1 == 1
    }
}

/// Whether all three hold.
fn all_three(first: bool, second: bool, third: bool) -> bool
    ensures { result ≡ (first && (second && third)) }
{
    first && second && third
}
