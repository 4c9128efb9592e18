//! Where a look along a line stands, byte by byte: outside strings, in a number or a word there, in a string, or in an escape.
ghost use Rattle.std.specs.Prelude.{◌≡◌};
ghost use Rattle.script_text.specs.LineStates as state;

/// Where a look along a line stands: outside strings, in a word or a number outside them, in a string, or in an escape there.
#[derive(Clone, Copy)]
pub(crate) enum LineState {
    Outside,
    InWord,
    InNumber(NumberState),
    InString,
    InEscape(EscapeState),
}

/// What was seen of a number.
#[derive(Clone, Copy)]
pub(crate) enum NumberState {
    /// Its minus sign.
    BehindMinus,
    /// A zero as its first digit.
    BehindZero,
    /// Digits, the first of which is no zero.
    InWhole,
    /// The same, and a point.
    BehindPoint,
    /// Digits behind the point.
    InFraction,
    /// An `e`.
    BehindExponent,
    /// An `e` and a sign.
    BehindSign,
    /// Digits behind the `e`.
    InExponent,
}

/// What was seen of an escape.
#[derive(Clone, Copy)]
pub(crate) enum EscapeState {
    /// Its backslash.
    Begun,
    /// `\u`.
    Code,
    /// `\ud`, whose next digit says whether the code is a half of a surrogate pair.
    CodeD,
    /// All of a code but so many digits.
    Digits { left: u8 },
    /// The same of the first half of a surrogate pair.
    FirstHalf { left: u8 },
    /// The first half of a surrogate pair.
    Pair,
    /// The same and a backslash.
    PairBackslash,
    /// The same and `\u`.
    PairCode,
    /// The same and `\ud`.
    PairCodeD,
}

impl LineState {
    /// Whether no string goes on.
    pub(crate) fn is_outside(self) -> bool
        ensures { result ≡ state.is_outside self }
    {
        match self {
            LineState::Outside | LineState::InWord | LineState::InNumber(_) => true,
            LineState::InString | LineState::InEscape(_) => false,
        }
    }

    /// Where a look stands behind one more byte.
    pub(crate) fn behind(self, byte: u8) -> LineState
        ensures { result ≡ state.standing_behind self byte }
    {
        match self {
            LineState::Outside | LineState::InWord => standing_outside(byte),
            LineState::InNumber(number) => match number.behind(byte) {
                Some(next) => LineState::InNumber(next),
                None => standing_outside(byte),
            },
            LineState::InString => {
                if byte == b'"' {
                    LineState::Outside
                } else if byte == b'\\' {
                    LineState::InEscape(EscapeState::Begun)
                } else {
                    LineState::InString
                }
            }
            LineState::InEscape(escape) => match escape.behind(byte) {
                Some(next) => next,
                None => LineState::InString,
            },
        }
    }
}

/// Where a look stands behind a byte that goes on with no string and no number.
fn standing_outside(byte: u8) -> LineState
    ensures { result ≡ state.standing_outside byte }
{
    if byte == b'"' {
        LineState::InString
    } else if byte == b'-' {
        LineState::InNumber(NumberState::BehindMinus)
    } else if byte == b'0' {
        LineState::InNumber(NumberState::BehindZero)
    } else if is_digit(byte) {
        LineState::InNumber(NumberState::InWhole)
    } else if is_of_word(byte) {
        LineState::InWord
    } else {
        LineState::Outside
    }
}

impl NumberState {
    /// How the number goes on with the byte. None where it can't.
    pub(crate) fn behind(self, byte: u8) -> Option<NumberState>
        ensures { result ≡ state.number_behind self byte }
    {
        match self {
            NumberState::BehindMinus => {
                if byte == b'0' {
                    Some(NumberState::BehindZero)
                } else {
                    digit_from(NumberState::InWhole, byte)
                }
            }
            NumberState::BehindZero => fraction_from(byte),
            NumberState::InWhole => {
                if is_digit(byte) {
                    Some(NumberState::InWhole)
                } else {
                    fraction_from(byte)
                }
            }
            NumberState::BehindPoint => digit_from(NumberState::InFraction, byte),
            NumberState::InFraction => {
                if is_digit(byte) {
                    Some(NumberState::InFraction)
                } else {
                    exponent_from(byte)
                }
            }
            NumberState::BehindExponent => {
                if byte == b'+' || byte == b'-' {
                    Some(NumberState::BehindSign)
                } else {
                    digit_from(NumberState::InExponent, byte)
                }
            }
            NumberState::BehindSign | NumberState::InExponent => {
                digit_from(NumberState::InExponent, byte)
            }
        }
    }

    /// Whether what was seen is a number.
    pub(crate) fn is_whole(self) -> bool
        ensures { result ≡ state.is_number self }
    {
        match self {
            NumberState::BehindZero
            | NumberState::InWhole
            | NumberState::InFraction
            | NumberState::InExponent => true,
            NumberState::BehindMinus
            | NumberState::BehindPoint
            | NumberState::BehindExponent
            | NumberState::BehindSign => false,
        }
    }
}

/// A number that goes on with a digit.
fn digit_from(next: NumberState, byte: u8) -> Option<NumberState>
    ensures { result ≡ state.digit_from next byte }
{
    if is_digit(byte) { Some(next) } else { None }
}

/// A number that goes on with its point or its exponent.
fn fraction_from(byte: u8) -> Option<NumberState>
    ensures { result ≡ state.fraction_from byte }
{
    if byte == b'.' {
        Some(NumberState::BehindPoint)
    } else {
        exponent_from(byte)
    }
}

/// A number that goes on with its exponent.
fn exponent_from(byte: u8) -> Option<NumberState>
    ensures { result ≡ state.exponent_from byte }
{
    if byte == b'e' || byte == b'E' {
        Some(NumberState::BehindExponent)
    } else {
        None
    }
}

impl EscapeState {
    /// Where a look stands behind one more byte of the escape. None where no escape has it there.
    pub(crate) fn behind(self, byte: u8) -> Option<LineState>
        ensures { result ≡ state.escape_behind self byte }
    {
        match self {
            EscapeState::Begun => {
                if byte == b'u' {
                    Some(LineState::InEscape(EscapeState::Code))
                } else if is_escape(byte) {
                    Some(LineState::InString)
                } else {
                    None
                }
            }
            EscapeState::Code => {
                if is_d(byte) {
                    Some(LineState::InEscape(EscapeState::CodeD))
                } else {
                    hex_from(LineState::InEscape(EscapeState::Digits { left: 3 }), byte)
                }
            }
            EscapeState::CodeD => behind_d(byte),
            EscapeState::Digits { left } => hex_from(digits_behind(left), byte),
            EscapeState::FirstHalf { left } => hex_from(half_behind(left), byte),
            EscapeState::Pair => escape_if(byte == b'\\', EscapeState::PairBackslash),
            EscapeState::PairBackslash => escape_if(byte == b'u', EscapeState::PairCode),
            EscapeState::PairCode => escape_if(is_d(byte), EscapeState::PairCodeD),
            EscapeState::PairCodeD => escape_if(is_second(byte), EscapeState::Digits { left: 2 }),
        }
    }
}

/// Where a look stands behind `\ud` and a digit. None behind the second half of a surrogate pair, whose first is missing.
fn behind_d(byte: u8) -> Option<LineState>
    ensures { result ≡ state.behind_d byte }
{
    if is_second(byte) {
        None
    } else if is_first(byte) {
        Some(LineState::InEscape(EscapeState::FirstHalf { left: 2 }))
    } else {
        hex_from(LineState::InEscape(EscapeState::Digits { left: 2 }), byte)
    }
}

/// Where a look stands behind one of the digits that are left.
fn digits_behind(left: u8) -> LineState
    ensures { result ≡ state.digits_behind left }
{
    if left <= 1 {
        LineState::InString
    } else {
        LineState::InEscape(EscapeState::Digits { left: left - 1 })
    }
}

/// The same in the first half of a surrogate pair.
fn half_behind(left: u8) -> LineState
    ensures { result ≡ state.half_behind left }
{
    if left <= 1 {
        LineState::InEscape(EscapeState::Pair)
    } else {
        LineState::InEscape(EscapeState::FirstHalf { left: left - 1 })
    }
}

/// An escape that goes on with a hexadecimal digit.
fn hex_from(next: LineState, byte: u8) -> Option<LineState>
    ensures { result ≡ state.hex_from next byte }
{
    if is_hex(byte) { Some(next) } else { None }
}

/// An escape that goes on where the test holds.
fn escape_if(test: bool, next: EscapeState) -> Option<LineState>
    ensures { result ≡ state.escape_if test next }
{
    if test {
        Some(LineState::InEscape(next))
    } else {
        None
    }
}

/// Whether the byte is a digit.
pub(crate) fn is_digit(byte: u8) -> bool
    ensures { result ≡ state.is_digit byte }
{
    b'0' <= byte && byte <= b'9'
}

/// Whether a number may have the byte.
pub(crate) fn is_of_number(byte: u8) -> bool
    ensures { result ≡ state.is_of_number byte }
{
    is_digit(byte) || b"+-.Ee".contains(&byte)
}

/// Whether `true`, `false` or `null` may have the byte.
pub(crate) fn is_of_word(byte: u8) -> bool
    ensures { result ≡ state.is_of_word byte }
{
    b"aeflnrstu".contains(&byte)
}

/// Whether an escape in a string has the byte behind its backslash.
fn is_escape(byte: u8) -> bool
    ensures { result ≡ state.is_escape byte }
{
    b"\"\\/bfnrtu".contains(&byte)
}

/// Whether the byte is a hexadecimal digit.
pub(crate) fn is_hex(byte: u8) -> bool
    ensures { result ≡ state.is_hex byte }
{
    is_digit(byte) || b"abcdefABCDEF".contains(&byte)
}

/// Whether the byte is the digit with which the codes of surrogate pairs begin.
fn is_d(byte: u8) -> bool
    ensures { result ≡ state.is_d byte }
{
    byte == b'd' || byte == b'D'
}

/// Whether it is the second digit of the first half of a surrogate pair.
fn is_first(byte: u8) -> bool
    ensures { result ≡ state.is_first byte }
{
    b"89abAB".contains(&byte)
}

/// Whether it is the second digit of the second half.
fn is_second(byte: u8) -> bool
    ensures { result ≡ state.is_second byte }
{
    b"cdefCDEF".contains(&byte)
}
