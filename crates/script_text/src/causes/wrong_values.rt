//! The first value of a line that is not what it must be.
ghost use Rattle.std.specs.Prelude.{◌≡◌, IfOk, is_some, map, option_and_then};
ghost use Rattle.serde_json.specs.View.{view};
ghost use Rattle.script_text.specs.Values.{under, array_items};
ghost use Rattle.script_text.specs.Forms.{each, entry_of};
ghost use Rattle.script_text.specs.Causes as why;
ghost use Rattle.script_text.specs.Table.{key_text};

use crate::causes::{Cause, Key, Wanted};
use crate::forms::values::{
    caller_under, items_under, name_under, point_under, rectangle_under, round_under, size_under,
    whole_under,
};
use crate::forms::{bases, classes_under};
use crate::goals::{goal_under, grown_under, wrong_goal};
use crate::parts::Rules;
use crate::table::Form;
use nav_types::{NoMemory, Size};
use serde_json::Value;
use std::alloc::Global;

/// A key of a form, and what must stand under it.
#[derive(Clone, Copy)]
pub struct FormField {
    pub key: Key,
    pub wanted: Wanted,
}

/// The first wrong value of a line of this form, which stands among the lines of the turn of this number.
pub(crate) fn fields_cause(
    alloc: Global,
    rules: Rules,
    turn: u64,
    form: Form,
    value: &Value,
) -> Result<Option<Cause>, NoMemory>
    ensures { IfOk result (λ cause. cause ≡ why.first_wrong (why.fields_of rules turn form) (view value.now)) }
{
    first_wrong(alloc, rules, turn, form.keys(rules.version), value)
}

/// The cause that the first of these keys gives under which not what is wanted stands. None where each is right.
fn first_wrong(
    alloc: Global,
    rules: Rules,
    turn: u64,
    keys: &[Key],
    value: &Value,
) -> Result<Option<Cause>, NoMemory>
    ensures { IfOk result (λ cause. cause ≡ why.first_wrong (map (why.field_of rules turn) keys.now) (view value.now)) }
{
    for key in keys {
        let field = field_of(rules, turn, *key);
        if !is_right(alloc, field, value)? {
            return Ok(Some(wrong_value(field, value)));
        }
    }
    Ok(None)
}

/// A key and what must stand under it.
fn field_of(rules: Rules, turn: u64, key: Key) -> FormField
    ensures { result ≡ why.field_of rules turn key }
{
    let wanted = key.wanted(rules, turn);
    FormField { key, wanted }
}

/// Whether what is wanted stands under the key.
fn is_right(alloc: Global, field: FormField, value: &Value) -> Result<bool, NoMemory>
    ensures { IfOk result (λ right. right ≡ why.is_right field (view value.now)) }
{
    let key = field.key;
    match field.wanted {
        Wanted::Whole { least, most } => Ok(whole_under(least, most, value, key).is_some()),
        Wanted::Caller { callers } => Ok(caller_under(callers, value, key).is_some()),
        Wanted::Turn { number } => Ok(whole_under(number, number, value, key).is_some()),
        Wanted::Sides => Ok(size_under(value, key).is_some()),
        Wanted::Classes => Ok(classes_under(alloc, value, key)?.is_some()),
        Wanted::Rectangles { size } => are_rectangles(alloc, size, value, key),
        Wanted::ClassName => Ok(name_under(value, key).is_some()),
        Wanted::TwoDecimals => Ok(point_under(value, key).is_some()),
        Wanted::ThreeDecimals => Ok(round_under(value, key).is_some()),
        Wanted::SixDecimals => Ok(rectangle_under(value, key).is_some()),
        Wanted::NumberAndDecimal => Ok(grown_under(value, key).is_some()),
        Wanted::Goal { version } => Ok(goal_under(version, value, key).is_some()),
    }
}

/// Whether an array of rectangles of the map with their masks stands under the key.
fn are_rectangles(alloc: Global, size: Size, value: &Value, key: Key) -> Result<bool, NoMemory>
    ensures { IfOk result (λ right. right ≡ is_some
        (option_and_then (each (entry_of size)) (under array_items (key_text key) (view value.now)))) }
{
    match items_under(value, key) {
        Some(items) => Ok(bases::entries_of(alloc, size, items)?.is_some()),
        None => Ok(false),
    }
}

/// The cause of a field under whose key not what is wanted stands. Of a goal that has a goal's key it names that one, and
/// of rectangles the first that is none.
fn wrong_value(field: FormField, value: &Value) -> Cause
    ensures { result ≡ why.wrong_value field (view value.now) }
{
    let key = field.key;
    let wanted = field.wanted;
    match wanted {
        Wanted::Goal { version } => match value.get(key.as_str()) {
            Some(goal) => wrong_goal(version, field, goal),
            None => Cause::WrongValue { key, wanted },
        },
        Wanted::Rectangles { size } => match items_under(value, key) {
            Some(items) => wrong_items(size, field, items),
            None => Cause::WrongValue { key, wanted },
        },
        _ => Cause::WrongValue { key, wanted },
    }
}

/// The cause of an array with an item that is no rectangle of the map with its mask.
fn wrong_items(size: Size, field: FormField, items: &[Value]) -> Cause
    ensures { result ≡ why.wrong_items size field 0 (map view items.now) }
{
    let mut number: u64 = 0;
    for item in items {
        number += 1;
        if bases::is_no_entry(size, item) {
            return Cause::WrongRectangle { number, size };
        }
    }
    wrong(field.key, field.wanted)
}

/// The cause that under this key not what is wanted stands.
pub(crate) fn wrong(key: Key, wanted: Wanted) -> Cause
    ensures { result ≡ Cause.WrongValue key wanted }
{
    Cause::WrongValue { key, wanted }
}
