//! A second look along a line that has no reading: the first byte that stands where no JSON value has one.
ghost use Rattle.std.specs.Prelude.{◌≡◌, ◌≤◌, ◌<◌, ◌+◌, ◌^◌, length};
ghost use Rattle.script_text.specs.Causes as why;
ghost use Rattle.script_text.specs.LineStates as state;
ghost use Rattle.script_text.specs.Mistakes as slip;
ghost use Rattle.script_text.specs.LargeNumbers as large;

use crate::causes::line_states::{
    EscapeState, LineState, NumberState, is_digit, is_hex, is_of_number, is_of_word,
};
use crate::causes::{Cause, is_white};
use crate::nesting::{closes, opens};
use fast_float::Numeral;
use std::fmt;

/// What is wrong with a byte of a line that is no JSON value.
#[derive(Clone, Copy, Debug, PartialEq, Eq)]
pub enum Mistake {
    /// A `/` or a `#` outside strings.
    Comment,
    /// A single quote outside strings.
    SingleQuote,
    /// The first letter of `NaN`, `None` or `Infinity` outside strings.
    NoNumber,
    /// A number begins with a plus sign or a point.
    NumberStart,
    /// A digit behind a zero with which a number begins.
    LeadingZero,
    /// A number can't go on with the byte, or ends before it without a digit that it must have.
    WrongNumber,
    /// A word without quotes that is not `true`, `false` or `null`, and no number.
    BareWord,
    /// A control character that is not white space, or any in a string.
    Control,
    /// A backslash in a string before a byte that no escape has.
    Escape,
    /// A byte in the place of a hexadecimal digit of an escape.
    HexDigit,
    /// A half of a surrogate pair without its other half.
    HalfPair,
    /// A bracket or brace closes behind a comma.
    TrailingComma,
    /// A bracket closes an object, or a brace an array.
    WrongBracket,
    /// A value or a key begins behind a value.
    MissingComma,
    /// A value in the place of a key.
    NoKey,
    /// A digit in the place of a key behind a comma, as in `1,000`.
    NumberAsKey,
    /// A comma, or what closes an object, stands behind a key.
    NoColon,
    /// A colon behind what is no key.
    StrayColon,
    /// No value begins where one must.
    NoValue,
    /// Something stands behind the value of the line.
    BehindValue,
}

impl fmt::Display for Mistake {
    ghost use Rattle.std.specs.Prelude.{Some};
    ghost use Rattle.script_text.specs.CauseTexts.{mistake_text};

    ghost output = { λ mistake. Some (mistake_text mistake) };

    fn fmt<W: fmt::Write>(&self, f: &mut fmt::Formatter<W>) -> fmt::Result {
        f.write_str(self.as_str())
    }
}

impl Mistake {
    ghost use Rattle.script_text.specs.CauseTexts.{mistake_text};

    /// What is wrong, in words.
    fn as_str(self) -> &'static str
        ensures { result.now ≡ mistake_text self }
    {
        match self {
            Mistake::Comment => "JSON has no comments",
            Mistake::SingleQuote => "JSON has strings in double quotes only",
            Mistake::NoNumber => "JSON has no NaN, no Infinity and no None",
            Mistake::NumberStart => "a number must begin with a digit or a minus sign",
            Mistake::LeadingZero => "a number must not have a zero before its other digits",
            Mistake::WrongNumber => "a number must be written as 0, -1.5 or 2e3",
            Mistake::BareWord => "only true, false, null and numbers stand without quotes",
            Mistake::Control => {
                "a control character must be written as \\u and four digits, in a string"
            }
            Mistake::Escape => {
                "a backslash in a string must stand before one of \" \\ / b f n r t u"
            }
            Mistake::HexDigit => "four hexadecimal digits must stand behind \\u",
            Mistake::HalfPair => {
                "a half of a surrogate pair must stand with its other half, as in \\ud83d\\ude00"
            }
            Mistake::TrailingComma => "no comma may stand before a closing bracket",
            Mistake::WrongBracket => {
                "a bracket or brace must close what was opened last: ] a [, and } a {"
            }
            Mistake::NoKey => "a key in double quotes must stand here",
            Mistake::NumberAsKey => {
                "a key in double quotes must stand here, and a number must have no commas"
            }
            Mistake::NoColon => "a colon and a value must stand behind a key",
            Mistake::MissingComma => "a comma or a colon is missing before this",
            Mistake::StrayColon => "a colon must stand behind a key in double quotes",
            Mistake::NoValue => "a value must stand here",
            Mistake::BehindValue => "a line has one value, and this stands behind it",
        }
    }
}

/// How many arrays and objects in one another a look tells apart: as many as a line may have.
const TOLD_APART: usize = 8;

/// What a look along a line has seen.
#[derive(Clone, Copy)]
pub(crate) struct Look {
    standing: LineState,
    /// The last byte that is no white space, and a space where there was none.
    last: u8,
    /// How many arrays and objects are open.
    depth: u64,
    /// The bytes that opened these, the outermost first.
    opened: [u8; TOLD_APART],
    /// Whether the string that began last is a key.
    key: bool,
}

/// What a look has seen before the first byte.
fn at_start() -> Look
    ensures { result ≡ slip.at_start }
{
    Look {
        standing: LineState::Outside,
        last: b' ',
        depth: 0,
        opened: [b' '; TOLD_APART],
        key: false,
    }
}

/// The cause of a line in UTF-8 that is no JSON value: its first mistake, and where it has none, how it ends or its first
/// number that is too large.
pub(crate) fn broken_cause(line: &[u8]) -> Cause
    ensures { result ≡ large.broken_cause line.now }
{
    match mistake_cause(line) {
        Cause::NotJson => number_cause(line),
        found => found,
    }
}

/// The cause of a line that has no mistake and does not end too early: its first number that is too large.
fn number_cause(line: &[u8]) -> Cause
    ensures { result ≡ large.number_cause line.now }
{
    let mut look = at_start();
    for place in 0..line.len() {
        let byte = line[place];
        if starts_number(look.standing, byte) && is_too_large(&line[place..]) {
            return Cause::NumberTooLarge {
                place: place as u64 + 1,
            };
        }
        look = behind(look, byte);
    }
    Cause::NotJson
}

/// Whether a number begins with the byte.
fn starts_number(standing: LineState, byte: u8) -> bool
    ensures { result ≡ large.starts_number standing byte }
{
    match standing {
        LineState::Outside => byte == b'-' || is_digit(byte),
        LineState::InWord | LineState::InNumber(_) | LineState::InString | LineState::InEscape(_) =>
            false,
    }
}

/// Whether the number at the front of the bytes is beyond those of 64-bit floats.
fn is_too_large(bytes: &[u8]) -> bool
    requires { 0 < length bytes.now }
    ensures { result ≡ large.is_too_large bytes.now }
{
    if bytes[0] == b'-' {
        is_past_floats(true, &bytes[1..])
    } else {
        is_past_floats(false, bytes)
    }
}

/// The same of a number without its sign.
fn is_past_floats(negative: bool, digits: &[u8]) -> bool
    ensures { result ≡ large.is_past_floats negative digits.now }
{
    !Numeral::scan(digits).to_float::<f64>(negative).is_finite()
}

/// The first mistake of a line by its place, and where it has none, how it ends.
fn mistake_cause(line: &[u8]) -> Cause
    ensures { result ≡ slip.mistake_cause line.now }
{
    let mut look = at_start();
    let mut place: u64 = 0;
    for byte in line {
        place += 1;
        if let Some(mistake) = mistake_at(look, *byte) {
            return Cause::NoJsonAt { place, mistake };
        }
        look = behind(look, *byte);
    }
    ending(look)
}

/// The cause of a line without a mistake, by how it ends.
fn ending(look: Look) -> Cause
    ensures { result ≡ slip.ending look }
{
    match look.standing {
        LineState::InString | LineState::InEscape(_) => Cause::EndsInString,
        LineState::Outside | LineState::InWord | LineState::InNumber(_) => {
            if look.depth > 0 {
                Cause::EndsInValue
            } else {
                Cause::NotJson
            }
        }
    }
}

/// The look behind one more byte.
fn behind(look: Look, byte: u8) -> Look
    requires room { look.depth < 2 ^ 63 }
    ensures next { result ≡ slip.behind look byte }
    ensures depth { result.depth ≤ look.depth + 1 }
{
    Look {
        standing: look.standing.behind(byte),
        last: if is_white(byte) { look.last } else { byte },
        depth: depth_behind(look, byte),
        opened: opened_behind(look, byte),
        key: if look.standing.is_outside() && byte == b'"' {
            wants_key(look)
        } else {
            look.key
        },
    }
}

/// The bytes that opened what is open behind one more byte.
fn opened_behind(look: Look, byte: u8) -> [u8; TOLD_APART]
    ensures { result ≡ slip.opened_behind look byte }
{
    let mut opened = look.opened;
    if look.standing.is_outside() && opens(byte) && look.depth < TOLD_APART as u64 {
        opened[look.depth as usize] = byte;
    }
    opened
}

/// The byte that opened the array or object that goes on. A space where none does, or it lies too deep in others.
fn innermost(look: Look) -> u8
    ensures { result ≡ slip.innermost look }
{
    if look.depth == 0 || look.depth > TOLD_APART as u64 {
        b' '
    } else {
        look.opened[look.depth as usize - 1]
    }
}

/// Whether a key must stand next, in an object.
fn wants_key(look: Look) -> bool
    ensures { result ≡ slip.wants_key look }
{
    innermost(look) == b'{' && (look.last == b'{' || look.last == b',')
}

/// Whether a key has just ended.
fn ends_key(look: Look) -> bool
    ensures { result ≡ slip.ends_key look }
{
    look.last == b'"' && look.key
}

/// How many arrays and objects are open behind one more byte.
fn depth_behind(look: Look, byte: u8) -> u64
    requires room { look.depth < 2 ^ 63 }
    ensures next { result ≡ slip.depth_behind look.standing look.depth byte }
    ensures step { result ≤ look.depth + 1 }
{
    match look.standing {
        LineState::Outside | LineState::InWord | LineState::InNumber(_) => {
            if opens(byte) {
                look.depth + 1
            } else if closes(byte) {
                look.depth.saturating_sub(1)
            } else {
                look.depth
            }
        }
        LineState::InString | LineState::InEscape(_) => look.depth,
    }
}

/// What is wrong with the next byte. None where a JSON value may go on with it, as far as a look tells.
fn mistake_at(look: Look, byte: u8) -> Option<Mistake>
    ensures { result ≡ slip.mistake_at look byte }
{
    match look.standing {
        LineState::Outside => mistake_outside(look, byte),
        LineState::InWord => {
            if is_of_word(byte) {
                None
            } else {
                mistake_outside(look, byte)
            }
        }
        LineState::InNumber(number) => number_mistake(number, look, byte),
        LineState::InString => where_true(is_control(byte), Mistake::Control),
        LineState::InEscape(escape) => match escape.behind(byte) {
            Some(_) => None,
            None => Some(wrong_escape(escape, byte)),
        },
    }
}

/// The same in a number.
fn number_mistake(number: NumberState, look: Look, byte: u8) -> Option<Mistake>
    ensures { result ≡ slip.number_mistake number (state.number_behind number byte) look byte }
{
    if number.behind(byte).is_some() {
        None
    } else if is_of_number(byte) || !number.is_whole() {
        Some(wrong_number(number, byte))
    } else {
        mistake_outside(look, byte)
    }
}

/// What is wrong with a byte with which a number can't go on.
fn wrong_number(number: NumberState, byte: u8) -> Mistake
    ensures { result ≡ slip.wrong_number number byte }
{
    match number {
        NumberState::BehindZero if is_digit(byte) => Mistake::LeadingZero,
        NumberState::BehindMinus if byte == b'N' || byte == b'I' => Mistake::NoNumber,
        _ => Mistake::WrongNumber,
    }
}

/// What is wrong with a byte with which an escape can't go on.
fn wrong_escape(escape: EscapeState, byte: u8) -> Mistake
    ensures { result ≡ slip.wrong_escape escape byte }
{
    match escape {
        EscapeState::Begun => Mistake::Escape,
        EscapeState::Code | EscapeState::Digits { .. } | EscapeState::FirstHalf { .. } => {
            Mistake::HexDigit
        }
        EscapeState::CodeD => {
            if is_hex(byte) {
                Mistake::HalfPair
            } else {
                Mistake::HexDigit
            }
        }
        EscapeState::Pair
        | EscapeState::PairBackslash
        | EscapeState::PairCode
        | EscapeState::PairCodeD => Mistake::HalfPair,
    }
}

/// The mistake where the test holds.
fn where_true(test: bool, mistake: Mistake) -> Option<Mistake>
    ensures { result ≡ slip.where_true test mistake }
{
    if test { Some(mistake) } else { None }
}

/// The same outside strings, of a byte that goes on with no word.
fn mistake_outside(look: Look, byte: u8) -> Option<Mistake>
    ensures { result ≡ slip.mistake_outside look byte }
{
    if is_white(byte) {
        None
    } else if byte == b',' {
        comma_mistake(look)
    } else if byte == b':' {
        colon_mistake(look)
    } else if closes(byte) {
        closing_mistake(look, byte)
    } else if begins_value(byte) {
        value_mistake(look, byte)
    } else {
        Some(strange_byte(byte))
    }
}

/// What is wrong with a comma.
fn comma_mistake(look: Look) -> Option<Mistake>
    ensures { result ≡ slip.comma_mistake look }
{
    if !ends_value(look.last) {
        Some(Mistake::NoValue)
    } else if look.depth == 0 {
        Some(Mistake::BehindValue)
    } else {
        where_true(ends_key(look), Mistake::NoColon)
    }
}

/// What is wrong with a colon.
fn colon_mistake(look: Look) -> Option<Mistake>
    ensures { result ≡ slip.colon_mistake look }
{
    if ends_value(look.last) && look.depth == 0 {
        Some(Mistake::BehindValue)
    } else {
        where_true(!ends_key(look), Mistake::StrayColon)
    }
}

/// What is wrong with a closing bracket or brace.
fn closing_mistake(look: Look, byte: u8) -> Option<Mistake>
    ensures { result ≡ slip.closing_mistake look byte }
{
    if look.depth == 0 {
        Some(if ends_value(look.last) {
            Mistake::BehindValue
        } else {
            Mistake::NoValue
        })
    } else if look.last == b',' {
        Some(Mistake::TrailingComma)
    } else if look.last == b':' {
        Some(Mistake::NoValue)
    } else if ends_key(look) {
        Some(Mistake::NoColon)
    } else {
        where_true(is_mismatch(innermost(look), byte), Mistake::WrongBracket)
    }
}

/// Whether a byte that closes does not match the one that opened.
fn is_mismatch(opened: u8, byte: u8) -> bool
    ensures { result ≡ slip.is_mismatch opened byte }
{
    opened == b'[' && byte == b'}' || opened == b'{' && byte == b']'
}

/// What is wrong with the first byte of a value or a key.
fn value_mistake(look: Look, byte: u8) -> Option<Mistake>
    ensures { result ≡ slip.value_mistake look byte }
{
    if !ends_value(look.last) {
        key_mistake(look, byte)
    } else if look.depth == 0 {
        Some(Mistake::BehindValue)
    } else {
        Some(Mistake::MissingComma)
    }
}

/// What is wrong with the first byte of a value or a key where one may begin.
fn key_mistake(look: Look, byte: u8) -> Option<Mistake>
    ensures { result ≡ slip.key_mistake look byte }
{
    if byte == b'"' || !wants_key(look) {
        None
    } else if is_digit(byte) && look.last == b',' {
        Some(Mistake::NumberAsKey)
    } else {
        Some(Mistake::NoKey)
    }
}

/// What is wrong with a byte that stands outside strings and begins no value there.
fn strange_byte(byte: u8) -> Mistake
    ensures { result ≡ slip.strange_byte byte }
{
    if is_control(byte) {
        Mistake::Control
    } else if byte == b'/' || byte == b'#' {
        Mistake::Comment
    } else if byte == b'\'' {
        Mistake::SingleQuote
    } else if byte == b'N' || byte == b'I' {
        Mistake::NoNumber
    } else if byte == b'+' || byte == b'.' {
        Mistake::NumberStart
    } else {
        Mistake::BareWord
    }
}

/// Whether a value ends with the byte, outside strings or with its quote. A space stands for none.
fn ends_value(last: u8) -> bool
    ensures { result ≡ slip.ends_value last }
{
    !(last == b' ' || last == b',' || last == b':' || opens(last))
}

/// Whether a value may begin with the byte.
fn begins_value(byte: u8) -> bool
    ensures { result ≡ slip.begins_value byte }
{
    opens(byte) || byte == b'"' || begins_word(byte)
}

/// Whether a number or `true`, `false` or `null` may begin with the byte.
fn begins_word(byte: u8) -> bool
    ensures { result ≡ slip.begins_word byte }
{
    is_digit(byte) || byte == b'-' || byte == b't' || byte == b'f' || byte == b'n'
}

/// Whether the byte is a control character.
fn is_control(byte: u8) -> bool
    ensures { result ≡ slip.is_control byte }
{
    byte < b' '
}
