//! Reading a decimal.
ghost use Rattle.std.specs.Prelude.{◌≡◌, ◌*◌, ◌/◌, ◌^◌, ◌<◌, ◌≤◌, length, drop, IfSome, ◌&&◌, Some, codes};
ghost use Rattle.std.specs.Char.{is_ascii_digit};
ghost use Rattle.std.specs.List.{prefix_len};
ghost use Rattle.std.specs.Result.{result_ok};
ghost use Rattle.std.specs.Str.Parse.{digits_value};
ghost use Rattle.fixed_point.specs.Raw.{is_in_range};
ghost use Rattle.fixed_point.specs.Text.{fixed_value, is_digits, is_whole_part, is_fraction_part, is_magnitude, magnitude_of, signed as with_sign, some_if};
ghost use Rattle.fixed_point.specs.inner.Decimals.{raw_decimals};

use crate::Fixed;
use std::error::Error;
use std::fmt;

// The most digits that may stand before the point, and after it.
const WHOLE_DIGITS: usize = 5;

const PLACES: usize = 16;

// 1/65536, as a number of 10^-16.
const RAW_ONE: u64 = 152_587_890_625;

/// The text has no value as a fixed-point number.
#[derive(Clone, Copy, Debug, PartialEq, Eq)]
pub struct NotFixed;

impl fmt::Display for NotFixed {
    ghost output = { λ _. Some (codes "the text has no value as a fixed-point number") };

    fn fmt<W: fmt::Write>(&self, f: &mut fmt::Formatter<W>) -> fmt::Result {
        f.write_str("the text has no value as a fixed-point number")
    }
}

impl Error for NotFixed {}

impl Fixed {
    /// The value of a decimal text, cut towards zero to a raw number.
    ///
    /// The text is an optional `-`, one to five digits without a leading zero (or the single digit
    /// 0), and perhaps a point with one to sixteen digits after it. The answer is `NotFixed` exactly
    /// where `fixed_value` gives the text no value: it is no such text, or its cut value is out of
    /// range.
    #[tactic(auto, unfolding(crate::specs::Text::fixed_value, crate::specs::Text::is_fixed_text))]
    pub fn parse(text: &[u8]) -> Result<Fixed, NotFixed>
        ensures value { result_ok result ≡ fixed_value text.now }
    {
        if text.first() == Some(&b'-') {
            read(true, &text[1..])
        } else {
            read(false, text)
        }
    }
}

// The value of an unsigned text with this sign before it.
fn read(negative: bool, unsigned: &[u8]) -> Result<Fixed, NotFixed>
    ensures { let raw = with_sign negative (magnitude_of unsigned.now) in
        result_ok result ≡ some_if (is_magnitude unsigned.now && is_in_range raw) raw }
{
    let Some(magnitude) = magnitude(unsigned) else {
        return Err(NotFixed);
    };
    signed(negative, magnitude).ok_or(NotFixed)
}

// A raw magnitude with its sign, where that is in range.
fn signed(negative: bool, magnitude: u64) -> Option<Fixed>
    requires { magnitude < 2 ^ 40 }
    ensures { let raw = with_sign negative magnitude in result ≡ some_if (is_in_range raw) raw }
{
    let magnitude = magnitude as i64;
    let raw = if negative { -magnitude } else { magnitude };
    i32::try_from(raw).ok().map(Fixed::from_raw)
}

// The raw magnitude that an unsigned text writes.
fn magnitude(text: &[u8]) -> Option<u64>
    ensures value { result ≡ some_if (is_magnitude text.now) (magnitude_of text.now) }
    ensures small { IfSome result (λ magnitude. magnitude < 2 ^ 40) }
{
    let (whole, rest) = text.split_at(leading_digits(text));
    let Some(whole) = whole_part(whole) else {
        return None;
    };
    let Some(fraction) = fraction_part(rest) else {
        return None;
    };
    Some(whole * 65536 + fraction)
}

// How many digits stand at the front.
fn leading_digits(text: &[u8]) -> usize
    ensures count { result ≡ prefix_len is_ascii_digit text.now }
    ensures inside { result ≤ length text.now }
{
    text.iter().take_while(|byte| byte.is_ascii_digit()).count()
}

// The number before the point.
fn whole_part(text: &[u8]) -> Option<u64>
    ensures value { result ≡ some_if (is_whole_part text.now) (digits_value 10 text.now) }
    ensures small { IfSome result (λ whole. whole < 10 ^ 5) }
{
    if text.len() > 1 && text[0] == b'0' {
        return None;
    }
    number(text, WHOLE_DIGITS)
}

// What stands from the point on, as a raw number.
fn fraction_part(text: &[u8]) -> Option<u64>
    ensures value { result ≡ some_if (is_fraction_part text.now) (raw_decimals (drop 1 text.now)) }
    ensures small { IfSome result (λ raw. raw < 65536) }
{
    let Some((first, digits)) = text.split_first() else {
        return Some(0);
    };
    if *first != b'.' {
        return None;
    }
    let Some(number) = number(digits, PLACES) else {
        return None;
    };
    Some(raw_of_decimals(number, digits.len()))
}

// A number of 10^-places, cut to a raw number.
#[tactic(auto, using(crate::proofs::Decimals::raw_decimals_is, crate::proofs::Decimals::filled_fits))]
fn raw_of_decimals(number: u64, places: usize) -> u64
    requires few { places ≤ 16 }
    requires below_one { number < 10 ^ places }
    ensures { result ≡ number * 65536 / 10 ^ places }
{
    number * 10u64.pow((PLACES - places) as u32) / RAW_ONE
}

// The number that the digits write, refused at the first byte that is no digit.
fn number(text: &[u8], most: usize) -> Option<u64>
    requires { most ≤ 16 }
    ensures value { result ≡ some_if (is_digits most text.now) (digits_value 10 text.now) }
    ensures small { IfSome result (λ number. number < 10 ^ length text.now) }
{
    if text.is_empty() || text.len() > most {
        return None;
    }
    let mut number = 0;
    for digit in text {
        if !digit.is_ascii_digit() {
            return None;
        }
        number = number * 10 + u64::from(digit - b'0');
    }
    Some(number)
}
