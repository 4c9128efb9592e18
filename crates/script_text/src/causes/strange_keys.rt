//! Keys that no form has, and keys that a line lacks.
ghost use Rattle.std.specs.Prelude.{◌≡◌, bytes_eq, codes, is_some, option_map, string_bytes};
ghost use Rattle.std.specs.List.{find, list_any};
ghost use Rattle.std.specs.Map.{keys_of};
ghost use Rattle.serde_json.specs.Find.{get};
ghost use Rattle.serde_json.specs.View.{view};
ghost use Rattle.script_text.specs.Causes as why;
ghost use Rattle.script_text.specs.Table as table;

use crate::causes::{Cause, Key};
use crate::parts::Part;
use crate::table::{Form, LINE_KEYS, is_among, widest};
use class_config::ClassName;
use serde_json::{Map, Value};

/// The first key of an object that no form has, where it is of the form of a name.
#[tactic(auto, unfolding(crate::specs::Causes::unknown_key))]
pub(crate) fn unknown_key(value: &Value) -> Option<ClassName>
    ensures { result ≡ why.unknown_key (view value.now) }
{
    let Some(members) = value.as_object() else {
        return None;
    };
    match unknown_among(members) {
        Some(key) => ClassName::new(key.as_bytes()),
        None => None,
    }
}

/// The first key of a map that no form has, and that is of the form of a name.
fn unknown_among(members: &Map<String, Value>) -> Option<&String>
    ensures { option_map (λ key. string_bytes key.now) result
        ≡ option_map string_bytes (find (λ key. why.is_unknown (string_bytes key)) (keys_of members.now.entries)) }
{
    members.keys().find(|key| is_unknown(key))
}

/// Whether no form has the key, and it is of the form of a name.
fn is_unknown(key: &str) -> bool
    ensures { result ≡ why.is_unknown key.now }
{
    ClassName::new(key.as_bytes()).is_some() && !is_line_key(key)
}

/// Whether a form has the key.
fn is_line_key(key: &str) -> bool
    ensures { result ≡ list_any (λ one. bytes_eq key.now (table.key_text one)) table.line_keys }
{
    is_among(key, &LINE_KEYS)
}

/// The form that a key of the value names: before the map line each of its keys names it.
pub(crate) fn named_in(part: Part, value: &Value) -> Option<Form>
    ensures { result ≡ why.named_in part (view value.now) }
{
    match part {
        Part::BeforeMap => {
            if has_any(Form::Map.keys(widest().version), value) {
                Some(Form::Map)
            } else {
                None
            }
        }
        Part::InBase(rules) | Part::InTurns(rules) => named_form(rules.version, value),
    }
}

/// The same behind the map line. Where no shape is there, that of an add line is the unit.
fn named_form(version: u8, value: &Value) -> Option<Form>
    ensures { result ≡ why.named_form version (view value.now) }
{
    if has_key(Key::Add, value) {
        if has_key(Key::Square, value) {
            Some(Form::AddSquare)
        } else {
            Some(Form::AddUnit)
        }
    } else if has_key(Key::Remove, value) {
        Some(Form::Remove)
    } else if Form::Move.stands_in(version) && has_key(Key::Move, value) {
        Some(Form::Move)
    } else if has_key(Key::Path, value) {
        Some(Form::Path)
    } else if has_key(Key::Region, value) {
        Some(Form::Region)
    } else if has_key(Key::Base, value) {
        Some(Form::Base)
    } else if has_key(Key::End, value) {
        Some(Form::End)
    } else {
        None
    }
}

/// The cause of a line whose keys are those of no form, and each of some form, by the form that one names.
pub(crate) fn unfit_cause(version: u8, named: Option<Form>, value: &Value) -> Cause
    ensures { result ≡ why.unfit_cause version named (view value.now) }
{
    match named {
        Some(form) => unfit_to(form.keys(version), value),
        None => nameless_cause(value),
    }
}

/// The cause of a line none of whose keys names a form: an array, or another value.
fn nameless_cause(value: &Value) -> Cause
    ensures { result ≡ why.nameless_cause (view value.now) }
{
    if value.is_array() {
        Cause::ArrayLine
    } else {
        Cause::NoSuchForm
    }
}

/// The cause of a line that is to have exactly these keys, and has not.
fn unfit_to(keys: &[Key], value: &Value) -> Cause
    ensures { result ≡ why.unfit_by (why.first_missing keys.now (view value.now))
        (why.first_surplus table.line_keys keys.now (view value.now)) }
{
    if let Some(key) = first_missing(keys, value) {
        return Cause::MissingKey { key };
    }
    match first_surplus(&LINE_KEYS, keys, value) {
        Some(key) => Cause::SurplusKey { key },
        None => Cause::NoSuchForm,
    }
}

/// Whether something stands under the key.
fn has_key(key: Key, value: &Value) -> bool
    ensures { result ≡ why.has_key key (view value.now) }
{
    value.get(key.as_str()).is_some()
}

/// Whether something stands under one of the keys.
fn has_any(keys: &[Key], value: &Value) -> bool
    ensures { result ≡ why.has_any keys.now (view value.now) }
{
    for key in keys {
        if has_key(*key, value) {
            return true;
        }
    }
    false
}

/// The first of these keys that is there and not among the others.
fn first_surplus(among: &[Key], keys: &[Key], value: &Value) -> Option<Key>
    ensures { result ≡ why.first_surplus among.now keys.now (view value.now) }
{
    for key in among {
        if is_surplus(*key, keys, value) {
            return Some(*key);
        }
    }
    None
}

/// Whether the key is there and not among the others.
fn is_surplus(key: Key, keys: &[Key], value: &Value) -> bool
    ensures { result ≡ why.is_surplus key keys.now (view value.now) }
{
    has_key(key, value) && !is_among(key.as_str(), keys)
}

/// The first of these keys under which nothing stands.
fn first_missing(keys: &[Key], value: &Value) -> Option<Key>
    ensures { result ≡ why.first_missing keys.now (view value.now) }
{
    for key in keys {
        if !has_key(*key, value) {
            return Some(*key);
        }
    }
    None
}
