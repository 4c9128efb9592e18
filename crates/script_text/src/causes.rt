//! Why a line is bad.
ghost use Rattle.std.specs.Prelude.{◌≡◌, IfOk, Some, None};
ghost use Rattle.serde_json.specs.View.{view};
ghost use Rattle.script_text.specs.Causes as why;

mod keys;
mod line_states;
mod mistakes;
mod strange_keys;
pub(crate) mod wrong_values;

use crate::nesting::is_shallow;
use crate::parts::{Part, Rules};
use crate::progress::read_line;
use crate::table::{Form, first_version, form_of, widest};
use class_config::ClassName;
pub use keys::{Key, Wanted};
pub use mistakes::Mistake;
use mistakes::broken_cause;
use nav_types::{NoMemory, Size};
use serde_json::Value;
use std::alloc::Global;
use std::{fmt, str};
use strange_keys::{named_in, unfit_cause, unknown_key};
use wrong_values::fields_cause;

/// The bytes with which some editors begin a file.
const BYTE_ORDER_MARK: [u8; 3] = [0xEF, 0xBB, 0xBF];

/// Why a line is not in the grammar in its place.
#[derive(Clone, Copy, Debug, PartialEq, Eq)]
pub enum Cause {
    /// The line has no byte but white space, or none at all.
    BlankLine,
    /// The line is no JSON value, and begins with a byte order mark.
    ByteOrderMark,
    /// The arrays and objects of the line, which is in UTF-8, nest deeper than those of a line may.
    TooDeep,
    /// The line is not in UTF-8, and the byte at this place, from 1, is the first that no character of UTF-8 begins with or
    /// has there.
    NotUtf8 { place: u64 },
    /// The line is in UTF-8 and no JSON value, and the byte at this place, from 1, is the first that is a mistake.
    NoJsonAt { place: u64, mistake: Mistake },
    /// The line is in UTF-8 and no JSON value, no byte of it is a mistake, and it ends inside a string.
    EndsInString,
    /// The same, and it ends inside an array or an object.
    EndsInValue,
    /// The line is in UTF-8, no byte of it is a mistake, and the number that begins at this place, from 1, is the first that
    /// is beyond those of 64-bit floats.
    NumberTooLarge { place: u64 },
    /// The line is in UTF-8 and no JSON value for another reason.
    NotJson,
    /// The keys are those of no form, in any version, and no form has this one.
    UnknownKey { key: ClassName },
    /// The keys are those of no form, in any version. One of them names a form, and this key of the form is not there.
    MissingKey { key: Key },
    /// The keys are those of no form, in any version. One of them names a form, whose keys are there, and this key is not
    /// among them.
    SurplusKey { key: Key },
    /// The line is an array.
    ArrayLine,
    /// The value is neither an object nor an array, or its keys are those of no form for another reason.
    NoSuchForm,
    /// The value under this key is not what it must be. Of several, it is the first in the order of the form's keys.
    WrongValue { key: Key, wanted: Wanted },
    /// The item of this number, from 1, in the array of a base line is no rectangle of cells of the map, which is of this
    /// size, with its mask. Of several, it is the first.
    WrongRectangle { number: u64, size: Size },
    /// An add line lacks its mask, which it has from version 2 on.
    MissingMask,
    /// The form, or the goal, stands only in scripts from this version on.
    LaterVersion { version: u8 },
    /// The form may not stand here: line 1 is the map line and no other line is one, and base lines stand before turns.
    NotHere,
    /// The script ends inside a turn.
    EndsInsideTurn,
    /// The script has no line.
    NoLine,
}

impl fmt::Display for Cause {
    ghost use Rattle.std.specs.Prelude.{Some};
    ghost use Rattle.script_text.specs.CauseTexts.{cause_text};

    ghost output = { λ cause. Some (cause_text cause) };

    fn fmt<W: fmt::Write>(&self, f: &mut fmt::Formatter<W>) -> fmt::Result {
        match *self {
            Cause::BlankLine => f.write_str("the line must be one JSON value, and is blank"),
            Cause::ByteOrderMark => f.write_str(
                "the line must be one JSON value, and begins with a byte order mark",
            ),
            Cause::TooDeep => f.write_str(
                "the line must not have arrays and objects more than 8 deep",
            ),
            Cause::NotUtf8 { place } => write!(f, "byte {place}: the line must be in UTF-8"),
            Cause::NoJsonAt { place, mistake } => write!(f, "byte {place}: {mistake}"),
            Cause::EndsInString => f.write_str(
                "the line must be one JSON value, and ends inside a string",
            ),
            Cause::EndsInValue => f.write_str(
                "the line must be one JSON value, and ends inside an array or an object",
            ),
            Cause::NumberTooLarge { place } => {
                write!(
                    f,
                    "byte {place}: a number must be within those of 64-bit floats, about 1.8e308"
                )
            }
            Cause::NotJson => f.write_str(
                "the line must be one JSON value, with no words but true, false and null, and numbers as 0, -1.5 or 2e3",
            ),
            Cause::UnknownKey { key } => {
                let name = text_of(&key);
                write!(
                    f,
                    "the line must have the keys of one form, and no form has the key \"{name}\""
                )
            }
            Cause::MissingKey { key } => write!(f, "the line must have the key \"{key}\" too"),
            Cause::SurplusKey { key } => {
                write!(
                    f,
                    "the line must not have the key \"{key}\" beside its others"
                )
            }
            Cause::ArrayLine => f.write_str(
                "the line must be an object, and is an array: each object of a script must have a line of its own",
            ),
            Cause::NoSuchForm => f.write_str(
                "the line must be an object with exactly the keys of one form",
            ),
            Cause::WrongValue { key, wanted } => write!(f, "the key \"{key}\" must have {wanted}"),
            Cause::WrongRectangle { number, size } => {
                let wanted = Wanted::Rectangles { size };
                write!(
                    f,
                    "the key \"base\" must have {wanted}; array {number} is wrong"
                )
            }
            Cause::MissingMask => f.write_str(
                "an add line must have the key \"mask\" from version 2 on",
            ),
            Cause::LaterVersion { version } => {
                write!(
                    f,
                    "the map line must name version {version} or later for this"
                )
            }
            Cause::NotHere => f.write_str(
                "the map line must be line 1 alone, and base lines must stand between it and the turns",
            ),
            Cause::EndsInsideTurn => f.write_str(
                "the script must not end inside a turn: its end line is missing",
            ),
            Cause::NoLine => f.write_str("the script must begin with a map line, and has no line"),
        }
    }
}

/// A name as text.
fn text_of(name: &ClassName) -> &str
    ensures { result.now ≡ name.now }
{
    match str::from_utf8(name.as_bytes()) {
        Ok(text) => text,
        Err(_) => unreachable!(),
    }
}

/// Why the line is not in the grammar in a place (`cause`): in this part of a script, among the lines of the turn of
/// this number. None exactly where it is in the grammar there (`line_causes`).
pub(crate) fn cause_of(
    alloc: Global,
    part: Part,
    turn: u64,
    line: &[u8],
) -> Result<Option<Cause>, NoMemory>
    ensures { IfOk result (λ cause. cause ≡ why.cause part turn line.now) }
{
    match read_line(alloc, line)? {
        Some(value) => value_cause(alloc, part, turn, &value),
        None => Ok(Some(unread_cause(line))),
    }
}

/// The cause of a line that has no reading.
fn unread_cause(line: &[u8]) -> Cause
    ensures { result ≡ why.unread_cause line.now }
{
    if is_blank(line) {
        Cause::BlankLine
    } else if line.starts_with(&BYTE_ORDER_MARK) {
        Cause::ByteOrderMark
    } else {
        text_cause(line)
    }
}

/// The cause of a line that has no reading, is not blank and has no byte order mark.
fn text_cause(line: &[u8]) -> Cause
    ensures { result ≡ why.text_cause line.now }
{
    match str::from_utf8(line) {
        Ok(_) => {
            if is_shallow(line) {
                broken_cause(line)
            } else {
                Cause::TooDeep
            }
        }
        Err(fault) => Cause::NotUtf8 {
            place: fault.valid_up_to() as u64 + 1,
        },
    }
}

/// Whether the line has no byte but white space.
fn is_blank(line: &[u8]) -> bool
    ensures { result ≡ why.is_blank line.now }
{
    line.iter().all(|byte| is_white(*byte))
}

/// Whether the byte is white space of JSON.
pub(crate) fn is_white(byte: u8) -> bool
    ensures { result ≡ why.is_white byte }
{
    byte == b' ' || byte == b'\t' || byte == b'\n' || byte == b'\r'
}

/// The cause of a line that is a JSON value.
fn value_cause(
    alloc: Global,
    part: Part,
    turn: u64,
    value: &Value,
) -> Result<Option<Cause>, NoMemory>
    ensures { IfOk result (λ cause. cause ≡ why.value_cause part turn (view value.now)) }
{
    match form_of(version_of(part), value) {
        Some(form) => form_cause(alloc, part, turn, form, value),
        None => Ok(Some(no_form_cause(part, first_version(value), value))),
    }
}

/// The version whose forms are looked for: before the map line the newest.
fn version_of(part: Part) -> u8
    ensures { result ≡ why.version_of part }
{
    match part {
        Part::BeforeMap => widest().version,
        Part::InBase(rules) => rules.version,
        Part::InTurns(rules) => rules.version,
    }
}

/// The cause of a line that has the keys of a form.
fn form_cause(
    alloc: Global,
    part: Part,
    turn: u64,
    form: Form,
    value: &Value,
) -> Result<Option<Cause>, NoMemory>
    ensures { IfOk result (λ cause. cause ≡ why.form_cause part turn (view value.now) form) }
{
    match part {
        Part::BeforeMap => match form {
            Form::Map => fields_cause(alloc, widest(), turn, form, value),
            _ => Ok(Some(Cause::NotHere)),
        },
        Part::InBase(rules) => match form {
            Form::Map => Ok(Some(Cause::NotHere)),
            _ => fields_cause(alloc, rules, turn, form, value),
        },
        Part::InTurns(rules) => match form {
            Form::Map | Form::Base => Ok(Some(Cause::NotHere)),
            _ => fields_cause(alloc, rules, turn, form, value),
        },
    }
}

/// The cause of a line that has the keys of no form of the script's version. `first` is the first version that has
/// them.
fn no_form_cause(part: Part, first: Option<u8>, value: &Value) -> Cause
    ensures { result ≡ why.no_form_cause part first (view value.now) }
{
    match (part, first) {
        (_, None) => strange_cause(part, value),
        (Part::BeforeMap, Some(_)) => Cause::NotHere,
        (Part::InBase(rules) | Part::InTurns(rules), Some(first)) => other_version(rules, first),
    }
}

/// The cause of a line that has the keys of no form in any version.
fn strange_cause(part: Part, value: &Value) -> Cause
    ensures { result ≡ why.strange_cause (why.unknown_key (view value.now)) (why.version_of part)
        (why.named_in part (view value.now)) (view value.now) }
{
    match unknown_key(value) {
        Some(key) => Cause::UnknownKey { key },
        None => unfit_cause(version_of(part), named_in(part, value), value),
    }
}

/// The cause of a line whose form stands in another version, `first` being the first of them.
fn other_version(rules: Rules, first: u8) -> Cause
    ensures { result ≡ why.other_version rules.version first }
{
    if rules.version < first {
        Cause::LaterVersion { version: first }
    } else {
        Cause::MissingMask
    }
}
