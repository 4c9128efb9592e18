//! The values in lines: whole numbers, decimals, class names, and arrays of these.
ghost use Rattle.std.specs.Prelude.{◌≡◌, ◌≤◌, ◌<◌, ◌==◌, IfSome, length, false, map, option_and_then, option_map};
ghost use Rattle.serde_json.specs.View.{view};
ghost use Rattle.serde_json.specs.Find.{as_array, at};
ghost use Rattle.script_text.specs.Table.{key_text};
ghost use Rattle.script_text.specs.Values as value_form;

use crate::causes::Key;
use class_config::ClassName;
use fixed_point::{Fixed, Rectangle};
use nav_types::Size;
use nav_types::limits::MAX_SIDE;
use serde_json::Value;

/// A whole number from `least` to `most`.
#[tactic(auto, unfolding(crate::specs::Values::whole_in))]
pub(crate) fn whole_in(least: u64, most: u64, value: &Value) -> Option<u64>
    ensures number { result ≡ value_form.whole_in least most (view value.now) }
    ensures limits { IfSome result (λ number. (least ≤ number) × (number ≤ most)) }
{
    match value.as_u64() {
        Some(number) if least <= number && number <= most => Some(number),
        _ => None,
    }
}

/// The whole number from `least` to `most` under a key.
pub(crate) fn whole_under(least: u64, most: u64, value: &Value, key: Key) -> Option<u64>
    ensures number { result ≡ value_form.under (value_form.whole_in least most) (key_text key) (view value.now) }
    ensures limits { IfSome result (λ number. (least ≤ number) × (number ≤ most)) }
{
    match value.get(key.as_str()) {
        Some(found) => whole_in(least, most, found),
        None => None,
    }
}

/// A whole number below a limit of at most 255.
#[tactic(auto, unfolding(crate::specs::Values::whole_below))]
pub(crate) fn whole_below(limit: u8, value: &Value) -> Option<u8>
    ensures number { result ≡ value_form.whole_below limit (view value.now) }
    ensures below { IfSome result (λ number. number < limit) }
{
    match value.as_u64() {
        Some(number) if number < u64::from(limit) => Some(number as u8),
        _ => None,
    }
}

/// The whole number below a limit under a key.
pub(crate) fn caller_under(limit: u8, value: &Value, key: Key) -> Option<u8>
    ensures number { result ≡ value_form.under (value_form.whole_below limit) (key_text key) (view value.now) }
    ensures below { IfSome result (λ number. number < limit) }
{
    match value.get(key.as_str()) {
        Some(found) => whole_below(limit, found),
        None => None,
    }
}

/// An obstruction number.
pub(crate) fn obstruction_number(value: &Value) -> Option<u32>
    ensures { result ≡ value_form.obstruction_number (view value.now) }
{
    match whole_in(0, u64::from(u32::MAX), value) {
        Some(number) => Some(number as u32),
        None => None,
    }
}

/// The obstruction number under a key.
pub(crate) fn number_under(value: &Value, key: Key) -> Option<u32>
    ensures { result ≡ value_form.under value_form.obstruction_number (key_text key) (view value.now) }
{
    value.get(key.as_str()).and_then(obstruction_number)
}

/// A decimal: a string that has a value.
#[tactic(auto, unfolding(crate::specs::Values::decimal))]
pub(crate) fn decimal(value: &Value) -> Option<Fixed>
    ensures { result ≡ value_form.decimal (view value.now) }
{
    let Some(text) = value.as_str() else {
        return None;
    };
    match Fixed::parse(text.as_bytes()) {
        Ok(number) => Some(number),
        Err(_) => None,
    }
}

/// The class name under a key. None where there is no string of the form of a class name.
#[tactic(auto, unfolding(crate::specs::Values::class_name))]
pub(crate) fn name_under(value: &Value, key: Key) -> Option<ClassName>
    ensures { result ≡ value_form.under value_form.class_name (key_text key) (view value.now) }
{
    match class_config::text_under(value, key.as_str()) {
        Some(text) => ClassName::new(text.as_bytes()),
        None => None,
    }
}

/// The items of an array.
#[tactic(auto, unfolding(crate::specs::Values::array_items))]
fn items_of(value: &Value) -> Option<&[Value]>
    ensures { option_map (λ items. map view items.now) result ≡ value_form.array_items (view value.now) }
{
    match value.as_array() {
        Some(items) => Some(items.as_slice()),
        None => None,
    }
}

/// The items of the array under a key.
pub(crate) fn items_under<'v>(value: &'v Value, key: Key) -> Option<&'v [Value]>
    ensures { option_map (λ items. map view items.now) result ≡ value_form.under value_form.array_items (key_text key)
        (view value.now) }
{
    match value.get(key.as_str()) {
        Some(found) => items_of(found),
        None => None,
    }
}

/// Whether the value is an array of exactly so many items.
#[tactic(auto, unfolding(crate::specs::Values::has_items))]
pub(crate) fn has_items(count: usize, value: &Value) -> bool
    ensures { result ≡ value_form.has_items count (view value.now) }
{
    match items_of(value) {
        Some(items) => items.len() == count,
        None => false,
    }
}

/// The whole number at a place of an array.
pub(crate) fn whole_at(place: usize, value: &Value) -> Option<u64>
    ensures { result ≡ value_form.whole_at place (view value.now) }
{
    value.get(place).and_then(Value::as_u64)
}

/// The obstruction number at a place of an array.
pub(crate) fn number_at(place: usize, value: &Value) -> Option<u32>
    ensures { result ≡ option_and_then value_form.obstruction_number (at place (view value.now)) }
{
    value.get(place).and_then(obstruction_number)
}

/// The decimal at a place of an array.
pub(crate) fn decimal_at(place: usize, value: &Value) -> Option<Fixed>
    ensures { result ≡ value_form.decimal_at place (view value.now) }
{
    value.get(place).and_then(decimal)
}

/// An array of two decimals x, z.
#[tactic(auto, unfolding(crate::specs::Values::point_of))]
pub(crate) fn point_of(value: &Value) -> Option<(Fixed, Fixed)>
    ensures { result ≡ value_form.point_of (view value.now) }
{
    if !has_items(2, value) {
        return None;
    }
    match (decimal_at(0, value), decimal_at(1, value)) {
        (Some(x), Some(z)) => Some((x, z)),
        _ => None,
    }
}

/// The point under a key.
pub(crate) fn point_under(value: &Value, key: Key) -> Option<(Fixed, Fixed)>
    ensures { result ≡ value_form.under value_form.point_of (key_text key) (view value.now) }
{
    value.get(key.as_str()).and_then(point_of)
}

/// An array of three decimals: x, z and a length.
#[tactic(auto, unfolding(crate::specs::Values::round_of))]
pub(crate) fn round_of(value: &Value) -> Option<(Fixed, Fixed, Fixed)>
    ensures { result ≡ value_form.round_of (view value.now) }
{
    if !has_items(3, value) {
        return None;
    }
    match (
        decimal_at(0, value),
        decimal_at(1, value),
        decimal_at(2, value),
    ) {
        (Some(x), Some(z), Some(length)) => Some((x, z, length)),
        _ => None,
    }
}

/// The three decimals under a key.
pub(crate) fn round_under(value: &Value, key: Key) -> Option<(Fixed, Fixed, Fixed)>
    ensures { result ≡ value_form.under value_form.round_of (key_text key) (view value.now) }
{
    value.get(key.as_str()).and_then(round_of)
}

/// An array of six decimals x, z, ux, uz, hw, hh.
#[tactic(auto, unfolding(crate::specs::Values::rectangle_of))]
pub(crate) fn rectangle_of(value: &Value) -> Option<Rectangle>
    ensures { result ≡ value_form.rectangle_of (view value.now) }
{
    if !has_items(6, value) {
        return None;
    }
    let (Some(x), Some(z)) = (decimal_at(0, value), decimal_at(1, value)) else {
        return None;
    };
    let (Some(ux), Some(uz)) = (decimal_at(2, value), decimal_at(3, value)) else {
        return None;
    };
    let (Some(hw), Some(hh)) = (decimal_at(4, value), decimal_at(5, value)) else {
        return None;
    };
    Some(Rectangle {
        x,
        z,
        ux,
        uz,
        hw,
        hh,
    })
}

/// The six decimals under a key.
pub(crate) fn rectangle_under(value: &Value, key: Key) -> Option<Rectangle>
    ensures { result ≡ value_form.under value_form.rectangle_of (key_text key) (view value.now) }
{
    value.get(key.as_str()).and_then(rectangle_of)
}

/// An array of two whole numbers w, h that are sides of a map.
#[tactic(auto, unfolding(crate::specs::Values::size_of))]
pub(crate) fn size_of(value: &Value) -> Option<Size>
    ensures { result ≡ value_form.size_of (view value.now) }
{
    if !has_items(2, value) {
        return None;
    }
    match (whole_at(0, value), whole_at(1, value)) {
        (Some(w), Some(h)) => size_with(w, h),
        _ => None,
    }
}

/// The size of two numbers, where each is a side of a map.
fn size_with(w: u64, h: u64) -> Option<Size>
    ensures { result ≡ value_form.size_with w h }
{
    let most = u64::from(MAX_SIDE);
    if w > most || h > most {
        return None;
    }
    Size::new(w as u16, h as u16)
}

/// The size under a key.
pub(crate) fn size_under(value: &Value, key: Key) -> Option<Size>
    ensures { result ≡ value_form.under value_form.size_of (key_text key) (view value.now) }
{
    value.get(key.as_str()).and_then(size_of)
}
