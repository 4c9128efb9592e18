//! Which chunks differ between two versions of a map.
ghost use Rattle.std.specs.Prelude.{ℕ, ◌≡◌, ◌≤◌, ◌<◌, ◌⊎◌, false, length, map, sum_by, count_by, slice_get, slice_index, Some, IfOk};
ghost use Rattle.std.specs.List.{range_with_len};
ghost use Rattle.nav_types.specs.declared.limits.TheConstants.{MAX_CHUNKS};
ghost use Rattle.lane_rows.specs.Rows.{has_class};
ghost use Rattle.grid_versions.specs.inner.Marks.{AreNext};

use crate::dirty_parts::DirtyParts;
use class_planes::ClassPlane;
use nav_types::{Class, NoMemory};
use std::alloc::Global;
use std::marker::Model;

/// How many of the bits below `classes` are set in all numbers together.
pub fn marks_below(bits: &[u16], classes: u8) -> u32
    requires few { classes ≤ 16 }
    requires chunks { length bits.now ≤ MAX_CHUNKS }
    ensures { result ≡ sum_by (λ k. count_by (has_class k) bits.now) (range_with_len 0 classes) }
{
    let mut count = 0;
    for number in 0..classes {
        count += lane_rows::count_bit(bits, number) as u32;
    }
    count
}

/// For each chunk the bits of the classes for which it has changed. Contracts see these numbers.
///
/// Beside them it keeps for each place the first one from it on whose number is not 0, so that a loop over what has
/// changed passes over the rest.
#[derive(Drop)]
pub struct Marks<'a> {
    bits: &'a [u16],
    next: Vec<u32>,
}

impl<'a> Model for Marks<'a> {
    ghost use Rattle.std.specs.Prelude.{ℕ, List};
    ghost use Rattle.grid_versions.specs.inner.Marks.{AreNext};

    ghost Value = { List ℕ };

    ghost view = { λ m. m.bits.now };

    ghost invariant = { λ m. AreNext m.bits.now m.next.items };
}

impl<'a> Marks<'a> {
    /// The marks of these numbers.
    pub fn new(alloc: Global, bits: &'a [u16]) -> Result<Marks<'a>, NoMemory>
        requires { length bits.now ≤ MAX_CHUNKS }
        ensures { IfOk result (λ marks. marks ≡ bits.now) }
    {
        let next = next_places(alloc, bits)?;
        Ok(Marks { bits, next })
    }

    /// The numbers.
    pub fn bits(&self) -> &[u16]
        ensures { result.now ≡ self.now }
    {
        let _ = &self.next;
        self.bits
    }

    /// A place from this one on, and before it no other from this one on has bits.
    pub fn next(&self, from: u32) -> u32
        ensures from { from ≤ result }
        ensures none { (k : ℕ) → from ≤ k → k < result → k < length self.now → slice_index self.now k ≡ 0 }
    {
        match self.next.get(from as usize) {
            Some(place) => *place,
            None => u32::MAX,
        }
    }
}

/// For each place the first one from it on whose number is not 0; the greatest number where there is none.
fn next_places(alloc: Global, bits: &[u16]) -> Result<Vec<u32>, NoMemory>
    requires { length bits.now ≤ MAX_CHUNKS }
    ensures { IfOk result (λ next. AreNext bits.now next.items) }
{
    let mut next = vec![in alloc; u32::MAX; bits.len()]?;
    let mut place = bits.len();
    let mut found = u32::MAX;
    'places: while place > 0 {
        place -= 1;
        found = first_of(bits[place], place, found);
        next[place] = found;
    }
    Ok(next)
}

/// The place, where its number is not 0; else the one found behind it.
fn first_of(number: u16, place: usize, found: u32) -> u32
    requires { place < MAX_CHUNKS }
    ensures { (place ≡ result) ⊎ ((number ≡ 0) × (result ≡ found)) }
{
    if number == 0 { found } else { place as u32 }
}

/// Which chunks have changed for a class since its plane of before: those whose number has the bit of the class. The dirty
/// parts cover what has changed.
#[derive(Drop)]
pub struct Changed<'a> {
    pub bits: &'a Marks<'a>,
    pub class: Class,
    pub before: &'a ClassPlane,
    pub dirty: &'a DirtyParts<'a>,
}

/// A place from this one on, and before it no other from this one on has changed.
pub fn next_marked(changed: &Changed<'_>, from: u32) -> u32
    ensures from { from ≤ result }
    ensures none { (k : ℕ) → from ≤ k → k < result → k < length changed.now.bits.now
        → slice_get (map (has_class changed.now.class) changed.now.bits.now) k ≡ Some false }
{
    changed.bits.next(from)
}

/// Whether the chunk at a place has changed.
pub fn is_marked(changed: &Changed<'_>, place: u32) -> bool
    requires { place < length changed.now.bits.now }
    ensures { slice_get (map (has_class changed.now.class) changed.now.bits.now) place ≡ Some result }
{
    has_bit(changed.bits.bits()[place as usize], changed.class)
}

/// Whether the bit of the class is set.
fn has_bit(number: u16, class: Class) -> bool
    ensures { result ≡ has_class class number }
{
    (number >> class.number()) & 1 == 1
}
