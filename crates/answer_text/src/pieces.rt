//! Numbers and cells, written at the end of a text.
#![tactic(auto, using(crate::proofs::Growing::growing))]

ghost use Rattle.std.specs.Prelude.{◌≡◌, ◌++◌, ◌∷◌, decimal, OnOk, OnErr};
ghost use Rattle.answer_text.specs.Writing.{GrewFrom};
ghost use Rattle.answer_text.specs.Answers.{waypoint_text};

use nav_types::{Bytes, Cell, NoMemory};

/// A number in decimal, after other bytes.
pub(crate) fn write_after(text: &mut Bytes, before: &[u8], number: u64) -> Result<(), NoMemory>
    ensures ok { OnOk result (text.new ≡ text.old ++ (before.now ++ decimal number)) }
    ensures err { OnErr result (GrewFrom text.old text.new) }
{
    text.extend(before)?;
    text.push_decimal(number)
}

/// The column and the row of a cell, each after a space.
pub(crate) fn write_cell(text: &mut Bytes, cell: Cell) -> Result<(), NoMemory>
    ensures ok { OnOk result (text.new ≡ text.old ++ (32 ∷ decimal cell.i ++ 32 ∷ decimal cell.j)) }
    ensures err { OnErr result (GrewFrom text.old text.new) }
{
    write_after(text, b" ", u64::from(cell.i))?;
    write_after(text, b" ", u64::from(cell.j))
}

/// The centre of a cell, after a space.
pub(crate) fn write_waypoint(text: &mut Bytes, cell: Cell) -> Result<(), NoMemory>
    ensures ok { OnOk result (text.new ≡ text.old ++ 32 ∷ waypoint_text cell) }
    ensures err { OnErr result (GrewFrom text.old text.new) }
{
    write_after(text, b" ", u64::from(cell.i))?;
    write_after(text, b".5,", u64::from(cell.j))?;
    text.extend(b".5")
}
