//! Fixed-point numbers with sixteen binary places, their decimal texts, and exact geometry of rectangles.
//!
//! A [`Fixed`] is a whole number over 65536, its raw number, which lies from -2147483648 to 2147483647; contracts see
//! the raw number:
//!
//! ```text
//!    "6.5"  <->  425984  =  6.5 * 65536
//! ```
//!
//! A sum that leaves the range is `None`. A text is cut towards zero when it is read, and written as the shortest that
//! reads back. There are no floats and no roots: lengths are compared by their squares. Nothing here takes memory.
#![tactic(auto)]

ghost use Rattle.std.specs.Prelude.{◌≡◌, ◌<◌, ◌^◌, ℤ, ◌+ℤ◌, ◌-ℤ◌, ◌*ℤ◌, ◌≤ℤ◌, ◌<ℤ◌, pos, FitsSigned, SomeIff};
ghost use Rattle.std.specs.Int.{w32};
ghost use Rattle.fixed_point.specs.Raw.{floor_of, centre_of};

use std::marker::Model;

mod laws;
mod plane;
mod reading;
mod writing;

pub use laws::{text_is_exact, text_is_in_grammar, text_is_shortest, text_reads_back};
pub use plane::{
    Rectangle, columns_near, is_on_axis, is_unit_vector, is_up_to, magnitude, offset, past, scaled,
    squared,
};
pub use reading::NotFixed;
pub use writing::FixedText;

/// A number of navcells, kept as its raw number: 65536 times the value.
#[derive(Clone, Copy, Debug, PartialEq, Eq, PartialOrd, Ord, Hash)]
pub struct Fixed(i32);

impl Model for Fixed {
    ghost Value = { ℤ };

    ghost view = { λ fixed. fixed.0 };

    ghost inverse = { λ raw. record { 0 = raw } };
}

impl Fixed {
    /// The number raw/65536.
    pub fn from_raw(raw: i32) -> Fixed
        ensures value { result ≡ raw }
    {
        Fixed(raw)
    }

    /// The raw number: 65536 times the value.
    pub fn raw(self) -> i32
        ensures value { result ≡ self }
    {
        self.0
    }

    /// The exact sum, or `None` exactly where its raw number is out of range.
    pub fn add(self, other: Fixed) -> Option<Fixed>
        ensures exact { SomeIff result (FitsSigned w32 (self +ℤ other)) (self +ℤ other) }
    {
        self.0.checked_add(other.0).map(Fixed::from_raw)
    }

    /// The exact difference, or `None` exactly where its raw number is out of range.
    pub fn sub(self, other: Fixed) -> Option<Fixed>
        ensures exact { SomeIff result (FitsSigned w32 (self -ℤ other)) (self -ℤ other) }
    {
        self.0.checked_sub(other.0).map(Fixed::from_raw)
    }

    /// The product, rounded down to a raw number: the floor of the raw numbers' product divided by 65536
    /// (`floor_of`). `None` exactly where that is out of range.
    pub fn mul(self, other: Fixed) -> Option<Fixed>
        ensures rounded_down { SomeIff result (FitsSigned w32 (floor_of (self *ℤ other))) (floor_of (self *ℤ other)) }
    {
        let product = raw_product(self.0, other.0);
        i32::try_from(product.div_euclid(65536))
            .ok()
            .map(Fixed::from_raw)
    }

    /// The greatest whole number that is not above the value (`floor_of`): the navcell's column or row
    /// of a coordinate.
    pub fn floor(self) -> i32
        ensures value { result ≡ floor_of self }
        ensures not_above { (result *ℤ pos 65536) ≤ℤ self }
        ensures greatest { self <ℤ ((result +ℤ pos 1) *ℤ pos 65536) }
    {
        self.0.div_euclid(65536)
    }

    /// The middle of navcell `i` along one axis, i + 1/2 (`centre_of`). A raw number has fifteen bits before
    /// the point, so `i` is below 2^15.
    pub fn centre(i: u16) -> Fixed
        requires { i < 2 ^ 15 }
        ensures value { result ≡ centre_of i }
    {
        Fixed(65536 * i32::from(i) + 32768)
    }
}

/// The product of two raw numbers.
fn raw_product(first: i32, second: i32) -> i64
    ensures { result ≡ first *ℤ second }
{
    i64::from(first) * i64::from(second)
}
