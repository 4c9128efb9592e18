//! Exact lengths in the plane of a map, and rectangles turned in it.
//!
//! Offsets, half sides and the components of unit vectors are raw numbers; a length along or across a unit vector
//! is a raw number times 65536.
ghost use Rattle.std.specs.Prelude.{◌≡◌, ◌≤◌, ◌<◌, ◌*◌, ◌^◌, ℕ, pos, ◌+ℤ◌, ◌-ℤ◌, ◌*ℤ◌, ◌≤ℤ◌, ◌↔◌, unsigned_abs, IfSome, IfNone, IsTrue};
ghost use Rattle.fixed_point.specs.Plane.{square, from_centre, beyond, along, across, centre_along, centre_across, squared_past, IsOnAxis, IsUnitVector, IsUpTo};

use crate::Fixed;

/// A rectangle with its middle at (`x`, `z`), `hw` to each side along the unit vector (`ux`, `uz`) and `hh` to each
/// side across it. Coordinates and half sides are in navcells.
#[derive(Clone, Copy, Debug, PartialEq, Eq)]
pub struct Rectangle {
    pub x: Fixed,
    pub z: Fixed,
    pub ux: Fixed,
    pub uz: Fixed,
    pub hw: Fixed,
    pub hh: Fixed,
}

impl Rectangle {
    /// The same rectangle with its middle at (`x`, `z`).
    pub fn moved(self, x: Fixed, z: Fixed) -> Rectangle
        ensures { result ≡ record self { x = x; z = z } }
    {
        Rectangle { x, z, ..self }
    }

    /// How far the point that lies (`px`, `pz`) from the middle is from it along the unit vector (`along`), as a raw
    /// number times 65536.
    pub fn length_along(&self, px: i64, pz: i64) -> i64
        requires column { unsigned_abs px ≤ 2 ^ 33 }
        requires row { unsigned_abs pz ≤ 2 ^ 33 }
        requires unit_vector { IsUnitVector self.now.ux self.now.uz }
        ensures value { result ≡ along self.now px pz }
        ensures bounded { unsigned_abs result ≤ 2 ^ 51 }
    {
        sum(product(px, self.ux), product(pz, self.uz))
    }

    /// How far the point that lies (`px`, `pz`) from the middle is from it across the unit vector (`across`), as a
    /// raw number times 65536.
    pub fn length_across(&self, px: i64, pz: i64) -> i64
        requires column { unsigned_abs px ≤ 2 ^ 33 }
        requires row { unsigned_abs pz ≤ 2 ^ 33 }
        requires unit_vector { IsUnitVector self.now.ux self.now.uz }
        ensures value { result ≡ across self.now px pz }
        ensures bounded { unsigned_abs result ≤ 2 ^ 51 }
    {
        difference(product(pz, self.ux), product(px, self.uz))
    }

    /// How far the middle of the navcell in column `i` and row `j` lies along the unit vector from the rectangle's
    /// (`centre_along`), as a raw number times 65536.
    pub fn centre_along(&self, i: u16, j: u16) -> i64
        requires { IsUnitVector self.now.ux self.now.uz }
        ensures value { result ≡ centre_along self.now i j }
        ensures bounded { unsigned_abs result ≤ 2 ^ 51 }
    {
        self.length_along(offset(i, self.x), offset(j, self.z))
    }

    /// How far the middle of the navcell in column `i` and row `j` lies across the unit vector from the rectangle's
    /// (`centre_across`), as a raw number times 65536.
    pub fn centre_across(&self, i: u16, j: u16) -> i64
        requires { IsUnitVector self.now.ux self.now.uz }
        ensures value { result ≡ centre_across self.now i j }
        ensures bounded { unsigned_abs result ≤ 2 ^ 51 }
    {
        self.length_across(offset(i, self.x), offset(j, self.z))
    }

    /// The squared distance of the middle of the navcell in column `i` and row `j` past the sides, and 0 within them
    /// (`squared_past`), as a raw number squared times 2^32.
    pub fn squared_past(&self, i: u16, j: u16) -> u128
        requires { IsUnitVector self.now.ux self.now.uz }
        ensures value { result ≡ squared_past self.now i j }
        ensures bounded { result ≤ 2 ^ 103 }
    {
        squared(past(self.centre_along(i, j), self.hw))
            + squared(past(self.centre_across(i, j), self.hh))
    }
}

/// From a coordinate to the middle of column (or row) `i`, as a raw number (`from_centre`).
pub fn offset(i: u16, x: Fixed) -> i64
    ensures value { result ≡ from_centre i x }
    ensures bounded { unsigned_abs result ≤ 2 ^ 33 }
{
    65536 * i64::from(i) + 32768 - i64::from(x.raw())
}

/// How far a length times 65536 lies past a half side, and 0 within it (`beyond`).
pub fn past(length: i64, half: Fixed) -> u64
    requires { unsigned_abs length ≤ 2 ^ 51 }
    ensures value { result ≡ beyond length half }
    ensures bounded { result ≤ 2 ^ 51 }
{
    length.unsigned_abs().saturating_sub(scaled(half))
}

/// The magnitude of a length, as a raw number.
pub fn magnitude(length: Fixed) -> u64
    ensures value { result ≡ unsigned_abs length }
    ensures bounded { result ≤ 2 ^ 31 }
{
    u64::from(length.raw().unsigned_abs())
}

/// The magnitude of a length, as a raw number times 65536.
pub fn scaled(length: Fixed) -> u64
    ensures value { result ≡ 65536 * unsigned_abs length }
    ensures bounded { result ≤ 2 ^ 47 }
{
    65536 * magnitude(length)
}

/// The square of a length (`square`).
pub fn squared(length: u64) -> u128
    requires { length ≤ 2 ^ 51 }
    ensures value { result ≡ square length }
    ensures bounded { result ≤ 2 ^ 102 }
{
    u128::from(length) * u128::from(length)
}

/// Whether the coordinate lies on a map with `count` navcells along its axis (`IsOnAxis`).
pub fn is_on_axis(x: Fixed, count: u16) -> bool
    ensures { IsTrue result ↔ IsOnAxis count x }
{
    x.raw() >= 0 && i64::from(x.raw()) < 65536 * i64::from(count)
}

/// Whether a length is from 0 to `most` navcells (`IsUpTo`).
pub fn is_up_to(most: u16, length: Fixed) -> bool
    ensures { IsTrue result ↔ IsUpTo most length }
{
    length.raw() >= 0 && i64::from(length.raw()) <= 65536 * i64::from(most)
}

/// Whether the vector is of length 1 within its limits (`IsUnitVector`): whether its squared raw
/// length is 2^32 within 2^25.
pub fn is_unit_vector(ux: Fixed, uz: Fixed) -> bool
    ensures { IsTrue result ↔ IsUnitVector ux uz }
{
    let squared = squared_component(ux) + squared_component(uz);
    squared >= (1 << 32) - (1 << 25) && squared <= (1 << 32) + (1 << 25)
}

/// The first and the last of `count` columns (or rows) whose middle is no further than the raw number
/// `reach` from a coordinate on the map. `None` exactly where there are none.
pub fn columns_near(x: Fixed, reach: u64, count: u16) -> Option<(u16, u16)>
    requires on_map { pos 0 ≤ℤ x }
    requires reach { reach ≤ 2 ^ 34 }
    requires count { 0 < count }
    ensures inside { IfSome result (λ span. (span.0 ≤ span.1) × (span.1 < count)) }
    ensures near { IfSome result (λ span. (i : ℕ) → i < count
        → (((span.0 ≤ i) × (i ≤ span.1)) ↔ (unsigned_abs (from_centre i x) ≤ reach))) }
    ensures none_near { IfNone result ((i : ℕ) → i < count → ¬ (unsigned_abs (from_centre i x) ≤ reach)) }
{
    let x = magnitude(x);
    // Column i has its middle at 65536 * i + 32768. The first quotient rounds up, the last one down.
    let first = (x + 32767).saturating_sub(reach) / 65536;
    if x + reach < 32768 {
        return None;
    }
    let last = ((x + reach - 32768) / 65536).min(u64::from(count) - 1);
    if first > last {
        return None;
    }
    Some((first as u16, last as u16))
}

/// A length times a component of a unit vector.
fn product(length: i64, component: Fixed) -> i64
    requires length { unsigned_abs length ≤ 2 ^ 33 }
    requires component { unsigned_abs component ≤ 2 ^ 17 }
    ensures value { result ≡ length *ℤ component }
    ensures bounded { unsigned_abs result ≤ 2 ^ 50 }
{
    length * i64::from(component.raw())
}

/// The sum of two products.
fn sum(first: i64, second: i64) -> i64
    requires first { unsigned_abs first ≤ 2 ^ 50 }
    requires second { unsigned_abs second ≤ 2 ^ 50 }
    ensures value { result ≡ first +ℤ second }
    ensures bounded { unsigned_abs result ≤ 2 ^ 51 }
{
    first + second
}

/// The difference of two products.
fn difference(first: i64, second: i64) -> i64
    requires first { unsigned_abs first ≤ 2 ^ 50 }
    requires second { unsigned_abs second ≤ 2 ^ 50 }
    ensures value { result ≡ first -ℤ second }
    ensures bounded { unsigned_abs result ≤ 2 ^ 51 }
{
    first - second
}

/// The square of a component's raw number: at most 2^62.
fn squared_component(component: Fixed) -> u64
    ensures value { result ≡ square (unsigned_abs component) }
    ensures bounded { result ≤ 2 ^ 62 }
{
    let magnitude = magnitude(component);
    magnitude * magnitude
}
