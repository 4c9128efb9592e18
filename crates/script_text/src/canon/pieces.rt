//! The values in canonical lines. Each call appends a text; where there is no memory, what stands is a beginning of it.
ghost use Rattle.std.specs.Prelude.{◌≡◌, ◌++◌, All, OnOk, IsTrue, FitsSigned, flat_map};
ghost use Rattle.std.specs.Int.{w32};
ghost use Rattle.std.specs.List.{list_all};
ghost use Rattle.serde_json.specs.Data.{string};
ghost use Rattle.serde_json.specs.Written.{comma_if, compact_text};
ghost use Rattle.class_config.specs.Forms.{is_class_name};
ghost use Rattle.script_text.specs.Canon as canon;
ghost use Rattle.script_text.specs.inner.Pieces.{IsPieceValue, piece_text};
ghost use Rattle.script_text.specs.inner.Plain.{is_plain};
ghost use Rattle.script_text.specs.Grammar.{rectangle_decimals};
ghost use Rattle.script_text.specs.ReadsBack.{AreFixed};

use class_config::ClassName;
use fixed_point::{Fixed, Rectangle};
use nav_types::{Bytes, NoMemory};

/// A piece of a canonical line.
#[derive(Clone, Copy)]
pub(crate) enum Piece<'a> {
    /// Bytes that stand as they are.
    Bytes(&'a [u8]),
    /// A whole number.
    Whole(u64),
    /// A fixed-point number's canonical text as a string.
    Decimal(Fixed),
}

/// Appends pieces, one behind another.
pub(crate) fn push_pieces(text: &mut Bytes, pieces: &[Piece]) -> Result<(), NoMemory>
    ensures text { OnOk result (text.new ≡ text.old ++ flat_map piece_text pieces.now) }
    ensures values { OnOk result (All IsPieceValue pieces.now) }
{
    for piece in pieces {
        push_piece(text, piece)?;
    }
    Ok(())
}

/// Appends a piece.
fn push_piece(text: &mut Bytes, piece: &Piece) -> Result<(), NoMemory>
    ensures text { OnOk result (text.new ≡ text.old ++ piece_text piece.now) }
    ensures values { OnOk result (IsPieceValue piece.now) }
{
    match *piece {
        Piece::Bytes(bytes) => text.extend(bytes),
        Piece::Whole(number) => text.push_decimal(number),
        Piece::Decimal(number) => push_fixed(text, number),
    }
}

/// Appends a comma, where something stands before.
pub(crate) fn push_comma(text: &mut Bytes, later: bool) -> Result<(), NoMemory>
    ensures { OnOk result (text.new ≡ text.old ++ comma_if later) }
{
    if later {
        text.push(b',')?;
    }
    Ok(())
}

/// Appends a string of bytes that stand for themselves in JSON.
pub(crate) fn push_quoted(text: &mut Bytes, bytes: &[u8]) -> Result<(), NoMemory>
    requires { IsTrue (list_all is_plain bytes.now) }
    ensures { OnOk result (text.new ≡ text.old ++ compact_text (string bytes.now)) }
{
    text.push(b'"')?;
    text.extend(bytes)?;
    text.push(b'"')?;
    Ok(())
}

/// Appends a class name as a string.
pub(crate) fn push_name(text: &mut Bytes, name: &ClassName) -> Result<(), NoMemory>
    ensures text { OnOk result (text.new ≡ text.old ++ compact_text (string name.now)) }
    ensures values { OnOk result (IsTrue (is_class_name name.now)) }
{
    push_quoted(text, name.as_bytes())
}

/// Appends a fixed-point number's canonical text as a string.
fn push_fixed(text: &mut Bytes, number: Fixed) -> Result<(), NoMemory>
    ensures text { OnOk result (text.new ≡ text.old ++ compact_text (canon.decimal_json number)) }
    ensures values { OnOk result (FitsSigned w32 number) }
{
    push_quoted(text, number.text().as_bytes())
}

/// Appends an array of fixed-point numbers.
pub(crate) fn push_decimals(text: &mut Bytes, numbers: &[Fixed]) -> Result<(), NoMemory>
    ensures text { OnOk result (text.new ≡ text.old ++ compact_text (canon.decimals_json numbers.now)) }
    ensures values { OnOk result (AreFixed numbers.now) }
{
    text.push(b'[')?;
    let mut later = false;
    for number in numbers {
        push_comma(text, later)?;
        push_fixed(text, *number)?;
        later = true;
    }
    text.push(b']')?;
    Ok(())
}

/// The six numbers of a rectangle.
pub(crate) fn decimals_of(rectangle: Rectangle) -> [Fixed; 6]
    ensures { result ≡ rectangle_decimals rectangle }
{
    [
        rectangle.x,
        rectangle.z,
        rectangle.ux,
        rectangle.uz,
        rectangle.hw,
        rectangle.hh,
    ]
}
