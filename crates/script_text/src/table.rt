//! The table of the forms of lines: the keys of each form, in their order, the versions that have it, and what must stand
//! under each key. What is read of a line, the cause of a bad one and the canonical text go by it. The keys of goals stand in
//! `goals`.
ghost use Rattle.std.specs.Prelude.{◌≡◌, bytes_eq, is_some};
ghost use Rattle.std.specs.List.{find, list_all, list_any};
ghost use Rattle.serde_json.specs.Find.{get};
ghost use Rattle.serde_json.specs.View.{view};
ghost use Rattle.class_config.specs.Forms.{has_keys};
ghost use Rattle.script_text.specs.Causes.{first_version};
ghost use Rattle.script_text.specs.Table as table;

use crate::causes::{Key, Wanted};
use crate::parts::Rules;
use crate::versions::{FIRST_WITH_MASKS, FIRST_WITH_MOVES, NEWEST_VERSION};
use nav_types::Size;
use nav_types::limits::{MAX_CALLERS, MAX_SIDE};
use serde_json::Value;

/// The form of a line.
#[derive(Clone, Copy)]
pub enum Form {
    Map,
    Base,
    AddUnit,
    AddSquare,
    Remove,
    Move,
    Path,
    Region,
    End,
}

/// The forms, in the order in which that of a line is looked for.
const FORMS: [Form; 9] = [
    Form::Path,
    Form::AddUnit,
    Form::AddSquare,
    Form::Remove,
    Form::Move,
    Form::Region,
    Form::End,
    Form::Base,
    Form::Map,
];

/// The keys of lines.
pub(crate) const LINE_KEYS: [Key; 19] = [
    Key::Version,
    Key::Size,
    Key::Callers,
    Key::Classes,
    Key::Base,
    Key::Caller,
    Key::Add,
    Key::Unit,
    Key::Square,
    Key::Mask,
    Key::Remove,
    Key::Move,
    Key::To,
    Key::Path,
    Key::From,
    Key::Goal,
    Key::Region,
    Key::At,
    Key::End,
];

/// The rules before the map line is read: those of the newest version and of the largest map.
pub(crate) fn widest() -> Rules
    ensures { result ≡ table.widest }
{
    Rules {
        size: Size {
            w: MAX_SIDE,
            h: MAX_SIDE,
        },
        version: NEWEST_VERSION,
        callers: MAX_CALLERS,
    }
}

impl Form {
    /// Its keys, in their order, in a script of this version: from version 2 on an add line has a mask.
    pub(crate) fn keys(self, version: u8) -> &'static [Key]
        ensures { result.now ≡ table.keys_of version self }
    {
        match self {
            Form::Map => &[Key::Version, Key::Size, Key::Callers, Key::Classes],
            Form::Base => &[Key::Base],
            Form::AddUnit if version >= FIRST_WITH_MASKS => {
                &[Key::Caller, Key::Add, Key::Unit, Key::Mask]
            }
            Form::AddUnit => &[Key::Caller, Key::Add, Key::Unit],
            Form::AddSquare if version >= FIRST_WITH_MASKS => {
                &[Key::Caller, Key::Add, Key::Square, Key::Mask]
            }
            Form::AddSquare => &[Key::Caller, Key::Add, Key::Square],
            Form::Remove => &[Key::Caller, Key::Remove],
            Form::Move => &[Key::Caller, Key::Move, Key::To],
            Form::Path => &[Key::Caller, Key::Path, Key::From, Key::Goal],
            Form::Region => &[Key::Caller, Key::Region, Key::At],
            Form::End => &[Key::End],
        }
    }

    /// Whether a script of this version has it: a move stands from version 3 on.
    pub(crate) fn stands_in(self, version: u8) -> bool
        ensures { result ≡ table.stands_in version self }
    {
        match self {
            Form::Move => version >= FIRST_WITH_MOVES,
            _ => true,
        }
    }
}

impl Key {
    /// What must stand under it in a script of these rules, among the lines of the turn of this number.
    pub(crate) fn wanted(self, rules: Rules, turn: u64) -> Wanted
        ensures { result ≡ table.wanted_of rules turn self }
    {
        match self {
            Key::Version => whole(1, u64::from(NEWEST_VERSION)),
            Key::Size => Wanted::Sides,
            Key::Callers => whole(1, u64::from(MAX_CALLERS)),
            Key::Classes => Wanted::Classes,
            Key::Base => Wanted::Rectangles { size: rules.size },
            Key::Caller => Wanted::Caller {
                callers: rules.callers,
            },
            Key::Add | Key::Remove | Key::Move => whole(0, u64::from(u32::MAX)),
            Key::Unit => Wanted::ThreeDecimals,
            Key::Square => Wanted::SixDecimals,
            Key::Mask => whole(0, u64::from(u16::MAX)),
            Key::To | Key::From | Key::At => Wanted::TwoDecimals,
            Key::Path | Key::Region => Wanted::ClassName,
            Key::Goal => Wanted::Goal {
                version: rules.version,
            },
            Key::End => Wanted::Turn { number: turn },
            Key::OfGoal(goal) => goal.wanted(),
        }
    }
}

/// A whole number from `least` to `most`.
fn whole(least: u64, most: u64) -> Wanted
    ensures { result ≡ Wanted.Whole least most }
{
    Wanted::Whole { least, most }
}

/// The form of a version whose keys the value has. None where it has those of none.
pub(crate) fn form_of(version: u8, value: &Value) -> Option<Form>
    ensures { result ≡ table.form_of version (view value.now) }
{
    first_form(&FORMS, version, value)
}

/// The first version in which the keys are those of a form.
pub(crate) fn first_version(value: &Value) -> Option<u8>
    ensures { result ≡ first_version (view value.now) }
{
    if form_of(1, value).is_some() {
        Some(1)
    } else if form_of(2, value).is_some() {
        Some(2)
    } else if form_of(3, value).is_some() {
        Some(3)
    } else {
        None
    }
}

/// The first of these forms that the version has and whose keys the value has.
fn first_form(forms: &[Form], version: u8, value: &Value) -> Option<Form>
    ensures { result ≡ find (table.has_form version (view value.now)) forms.now }
{
    for form in forms {
        if has_form(version, value, *form) {
            return Some(*form);
        }
    }
    None
}

/// Whether the version has the form, and the value its keys.
pub(crate) fn has_form(version: u8, value: &Value, form: Form) -> bool
    ensures { result ≡ table.has_form version (view value.now) form }
{
    form.stands_in(version) && has_keys_of(form, version, value)
}

/// Whether the value is an object with exactly the keys of the form.
fn has_keys_of(form: Form, version: u8, value: &Value) -> bool
    ensures { result ≡ has_keys (table.texts_of version form) (view value.now) }
{
    let keys = form.keys(version);
    match value.as_object() {
        // No two keys of a form are the same: where each of them is among as many members, there is no other.
        Some(members) => members.len() == keys.len() && has_each(value, keys),
        None => false,
    }
}

/// Whether something stands under each of these keys.
fn has_each(value: &Value, keys: &[Key]) -> bool
    ensures { result ≡ list_all (λ key. is_some (get (table.key_text key) (view value.now))) keys.now }
{
    keys.iter().all(|key| value.get(key.as_str()).is_some())
}

/// Whether the key is one of these.
pub(crate) fn is_among(key: &str, keys: &[Key]) -> bool
    ensures { result ≡ list_any (λ one. bytes_eq key.now (table.key_text one)) keys.now }
{
    keys.iter().any(|one| key == one.as_str())
}
