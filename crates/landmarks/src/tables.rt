//! The tables of landmarks of one class.
ghost use Rattle.std.specs.Prelude.{ℕ, Bool, ◌≡◌, ◌+◌, ◌*◌, ◌<◌, ◌≤◌, ◌^◌, length, slice_index, IfOk};
ghost use Rattle.nav_types.specs.declared.cells.Cell.{Cell};
ghost use Rattle.nav_types.specs.Cells.{IsInside};
ghost use Rattle.landmarks.specs.Landmarks.{Tables, AreGentle, landmark_bound, number_of};
ghost use Rattle.landmarks.specs.HalfTables.{IsBegun, IsTaken};
ghost use Rattle.landmarks.specs.inner.Fields.{spots, IsWritten, AreWhole, HasRoom};

use crate::half_tables::HalfTable;
use crate::marks::spot;
use crate::units::{FARTHEST, MAX_TABLES, UNIT_COST};
use nav_types::{Cell, NoMemory, Size};
use std::alloc::Global;
use std::marker::Model;

/// The numbers of a cell that a map does not have.
const NO_NUMBERS: &[u16] = &[0; MAX_TABLES];

/// How many places are looked at, at most, when a landmark is chosen.
const PLACES_LOOKED_AT: usize = 16_384;

/// Up to [`MAX_TABLES`] tables of landmarks of a class, 16 bytes a cell. Contracts see the size of the map, how many tables
/// are made, and the numbers.
#[derive(Drop)]
pub struct Landmarks {
    numbers: Vec<u16>,
    made: usize,
    size: Size,
}

impl Model for Landmarks {
    ghost use Rattle.landmarks.specs.Landmarks.{Tables};
    ghost use Rattle.landmarks.specs.inner.Fields.{AreWhole};

    ghost Value = { Tables };

    ghost view = { λ l. record { size = l.size; made = l.made; numbers = l.numbers.items } };

    ghost invariant = { λ l. AreWhole (record { size = l.size; made = l.made; numbers = l.numbers.items }) };
}

/// Writes the numbers of the marks into a table.
fn write_table(numbers: &mut Vec<u16>, table: usize, marks: &[u16])
    requires table { table < MAX_TABLES }
    requires room { HasRoom marks.now }
    requires long { length numbers.old.items ≡ MAX_TABLES * length marks.now }
    ensures { IsWritten table (length marks.now) marks.now numbers.old.items numbers.new.items }
{
    for at in 0..marks.len() {
        numbers[MAX_TABLES * at + table] = marks[at].saturating_sub(1);
    }
}

/// Writes the numbers of a table all of whose parts are made, where its marks were found gentle.
fn take_marks(numbers: &mut Vec<u16>, table: usize, half: &HalfTable)
    requires table { table < MAX_TABLES }
    requires long { length numbers.old.items ≡ MAX_TABLES * spots half.now.size }
    ensures { IsTaken half.now table numbers.old.items numbers.new.items }
{
    if !half.is_gentle() {
        return;
    }
    write_table(numbers, table, half.marks());
}

impl Landmarks {
    /// No table yet for a map of this size: all numbers are 0.
    pub fn none(alloc: Global, size: Size) -> Result<Landmarks, NoMemory>
        ensures size { IfOk result (λ tables. tables.size ≡ size) }
        ensures made { IfOk result (λ tables. tables.made ≡ 0) }
        ensures gentle { IfOk result (λ tables. (passes : Cell → Bool) → AreGentle passes tables) }
    {
        let count = (size.w as usize + 2) * (size.h as usize + 2);
        Ok(Landmarks {
            numbers: vec![in alloc; 0; MAX_TABLES * count]?,
            made: 0,
            size,
        })
    }

    /// The same tables once more, to which others may be added.
    pub fn copy(&self, alloc: Global) -> Result<Landmarks, NoMemory>
        ensures { IfOk result (λ made. made ≡ self.now) }
    {
        Ok(Landmarks {
            numbers: Vec::from_slice(alloc, self.numbers.as_slice())?,
            made: self.made,
            size: self.size,
        })
    }

    /// How many tables are made, at most [`MAX_TABLES`].
    pub fn made(&self) -> usize
        ensures value { result ≡ self.now.made }
        ensures most { result ≤ MAX_TABLES }
    {
        self.made
    }

    /// The numbers of a cell in all tables; 0 where the list has no such cell.
    #[inline(always)]
    pub(crate) fn numbers_of(&self, cell: Cell) -> &[u16]
        ensures long { length result.now ≡ MAX_TABLES }
        ensures each { (table : ℕ) → table < MAX_TABLES → slice_index result.now table ≡ number_of self.now cell table }
    {
        let from = MAX_TABLES * spot(self.size, cell);
        if from >= self.numbers.len() {
            return NO_NUMBERS;
        }
        &self.numbers[from..from + MAX_TABLES]
    }

    /// What a walk between the two cells costs at least, where the tables are gentle. It is 0 from a cell to itself.
    #[inline(always)]
    pub fn at_least(&self, from: Cell, to: Cell) -> u64
        ensures value { result ≡ landmark_bound self.now from to }
        ensures few { result < 2 ^ 40 }
    {
        let here = self.numbers_of(from);
        let there = self.numbers_of(to);
        let mut most: u16 = 0;
        for table in 0..MAX_TABLES {
            most = most.max(here[table].abs_diff(there[table]));
        }
        UNIT_COST * most as u64
    }

    /// Takes in one more table, all of whose parts are made. Where its numbers were not found gentle, all of them stay 0.
    /// Tables that are gentle stay so, on each map of whose table the parts are.
    pub fn take(&mut self, half: &HalfTable)
        requires size { half.now.size ≡ self.old.size }
        requires room { self.old.made < MAX_TABLES }
        ensures size { self.new.size ≡ self.old.size }
        ensures made { self.new.made ≡ self.old.made + 1 }
        ensures gentle { (passes : Cell → Bool) → IsBegun passes half.now → AreGentle passes self.old
            → AreGentle passes self.new }
        ensures kept { (cell : Cell) (table : ℕ) → IsInside self.old.size cell → table < self.old.made
            → number_of self.new cell table ≡ number_of self.old cell table }
    {
        take_marks(&mut self.numbers, self.made, half);
        self.made += 1;
    }

    /// The place of the next landmark, far from those there are, where one of these lies in the area of a place.
    pub(crate) fn next_landmark(&self, near: usize) -> Option<usize>
        requires { near < spots self.now.size }
    {
        if self.nearest(near) < FARTHEST {
            Some(self.farthest())
        } else {
            None
        }
    }

    /// The least of the numbers of a place in the tables that are made, which is that of the nearest landmark.
    fn nearest(&self, at: usize) -> u16
        requires { at < spots self.now.size }
    {
        let mut least = FARTHEST;
        for table in 0..self.made {
            least = least.min(self.numbers[MAX_TABLES * at + table]);
        }
        least
    }

    /// The place whose nearest landmark is farthest, of those looked at that a landmark reaches. On a large map these lie
    /// some places apart.
    fn farthest(&self) -> usize
        ensures { result < spots self.now.size }
    {
        let count = self.numbers.len() / MAX_TABLES;
        let apart = count / PLACES_LOOKED_AT + 1;
        let mut best = 0;
        let mut most = 0;
        for nth in 0..PLACES_LOOKED_AT {
            let at = nth.saturating_mul(apart);
            if at >= count {
                return best;
            }
            let least = self.nearest(at);
            if least > most && least < FARTHEST {
                best = at;
                most = least;
            }
        }
        best
    }
}
