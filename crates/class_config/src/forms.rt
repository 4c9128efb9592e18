//! The forms of a class and of its name, over the reading of a JSON text.
ghost use Rattle.std.specs.Prelude.{◌≡◌, ◌==◌, ◌||◌, bytes_eq, is_some, map, option_map, string_bytes, string_cmp};
ghost use Rattle.std.specs.BTreeMap.{IsOrdered};
ghost use Rattle.std.specs.List.{list_all, list_any};
ghost use Rattle.std.specs.Map.{keys_of};
ghost use Rattle.std.specs.Char.{is_ascii_alphanumeric};
ghost use Rattle.serde_json.specs.Find.{get};
ghost use Rattle.serde_json.specs.View.{view};
ghost use Rattle.class_config.specs.Forms as form;
ghost use Rattle.class_config.specs.Classes.{class_of, is_clearance};

use crate::names::ClassName;
use crate::table::PassabilityClass;
use fixed_point::Fixed;
use nav_types::limits::MAX_CLEARANCE;
use serde_json::{Map, Value};

/// The class that a value is, if it is one.
pub fn class_of(value: &Value) -> Option<PassabilityClass>
    ensures { result ≡ class_of (view value.now) }
{
    if !has_keys(value, &["name", "clearance"]) {
        return None;
    }
    let name = ClassName::new(text_under(value, "name")?.as_bytes())?;
    let clearance = Fixed::parse(text_under(value, "clearance")?.as_bytes()).ok()?;
    if is_clearance(clearance) {
        Some(PassabilityClass { name, clearance })
    } else {
        None
    }
}

/// Whether the number is from 0 to 64 navcells.
pub fn is_clearance(clearance: Fixed) -> bool
    ensures { result ≡ is_clearance clearance }
{
    let raw = clearance.raw();
    0 <= raw && raw <= i32::from(MAX_CLEARANCE) * 65536
}

/// Whether the bytes are of the form of a class name.
pub fn is_class_name(name: &[u8]) -> bool
    ensures { result ≡ form.is_class_name name.now }
{
    1 <= name.len() && name.len() <= 64 && are_name_bytes(name)
}

/// Whether each byte may stand in a class name.
fn are_name_bytes(name: &[u8]) -> bool
    ensures { result ≡ list_all (λ byte. is_ascii_alphanumeric byte || byte == 45 || byte == 95) name.now }
{
    name.iter().all(|byte| byte.is_ascii_alphanumeric() || *byte == b'-' || *byte == b'_')
}

/// The string under a key (`text_under`). None where the value is no object, has no such key, or has another
/// value than a string under it.
pub fn text_under<'v>(value: &'v Value, key: &str) -> Option<&'v str>
    ensures { option_map (λ text. text.now) result ≡ form.text_under key.now (view value.now) }
{
    value.get(key).and_then(Value::as_str)
}

/// Whether the value is an object whose keys are exactly these, in any order (`has_keys`). A key that stands
/// twice among these is one key.
pub fn has_keys(value: &Value, keys: &[&str]) -> bool
    ensures { result ≡ form.has_keys (map (λ key. key.now) keys.now) (view value.now) }
{
    match value.as_object() {
        Some(members) => has_no_other(members, keys) && has_each(value, keys),
        None => false,
    }
}

/// Whether the value is an object that has each of these keys, or there is no key.
fn has_each(value: &Value, keys: &[&str]) -> bool
    ensures { result ≡ list_all (λ key. is_some (get key.now (view value.now))) keys.now }
{
    keys.iter().all(|key| value.get(*key).is_some())
}

/// Whether each key of an object is one of these. A map has each key once, in order.
fn has_no_other(members: &Map<String, Value>, keys: &[&str]) -> bool
    ensures others { result
        ≡ list_all (λ member. list_any (λ key. bytes_eq (string_bytes member) key.now) keys.now)
        (keys_of members.now.entries) }
    ensures ordered { IsOrdered string_cmp members.now }
{
    members.keys().all(|member| is_among(member, keys))
}

/// Whether a key is one of these.
fn is_among(key: &str, keys: &[&str]) -> bool
    ensures { result ≡ list_any (λ one. bytes_eq key.now one.now) keys.now }
{
    keys.iter().any(|one| key == *one)
}
