//! The keys of lines, and what must stand under them.
ghost use Rattle.std.specs.Prelude.{◌≡◌};
ghost use Rattle.script_text.specs.Table.{key_text, member_text};

use crate::goals::{GoalKey, goal_keys};
use nav_types::Size;
use std::fmt;

/// A key of a line, or of a goal in it.
#[derive(Clone, Copy, Debug, PartialEq, Eq)]
pub enum Key {
    Version,
    Size,
    Callers,
    Classes,
    Base,
    Caller,
    Add,
    Unit,
    Square,
    Mask,
    Remove,
    Move,
    To,
    Path,
    From,
    Goal,
    Region,
    At,
    End,
    /// A key of a goal.
    OfGoal(GoalKey),
}

impl Key {
    /// The key as it stands in a line.
    pub fn as_str(self) -> &'static str
        ensures { result.now ≡ key_text self }
    {
        match self {
            Key::Version => "version",
            Key::Size => "size",
            Key::Callers => "callers",
            Key::Classes => "classes",
            Key::Base => "base",
            Key::Caller => "caller",
            Key::Add => "add",
            Key::Unit => "unit",
            Key::Square => "square",
            Key::Mask => "mask",
            Key::Remove => "remove",
            Key::Move => "move",
            Key::To => "to",
            Key::Path => "path",
            Key::From => "from",
            Key::Goal => "goal",
            Key::Region => "region",
            Key::At => "at",
            Key::End => "end",
            Key::OfGoal(goal) => goal.as_str(),
        }
    }

    /// The key as it stands in an object behind another: a comma, the key in quotes and a colon.
    pub(crate) fn as_member(self) -> &'static str
        ensures { result.now ≡ member_text (key_text self) }
    {
        match self {
            Key::Version => ",\"version\":",
            Key::Size => ",\"size\":",
            Key::Callers => ",\"callers\":",
            Key::Classes => ",\"classes\":",
            Key::Base => ",\"base\":",
            Key::Caller => ",\"caller\":",
            Key::Add => ",\"add\":",
            Key::Unit => ",\"unit\":",
            Key::Square => ",\"square\":",
            Key::Mask => ",\"mask\":",
            Key::Remove => ",\"remove\":",
            Key::Move => ",\"move\":",
            Key::To => ",\"to\":",
            Key::Path => ",\"path\":",
            Key::From => ",\"from\":",
            Key::Goal => ",\"goal\":",
            Key::Region => ",\"region\":",
            Key::At => ",\"at\":",
            Key::End => ",\"end\":",
            Key::OfGoal(goal) => goal.as_member(),
        }
    }
}

impl fmt::Display for Key {
    ghost use Rattle.std.specs.Prelude.{Some};
    ghost use Rattle.script_text.specs.Table.{key_text};

    ghost output = { λ key. Some (key_text key) };

    fn fmt<W: fmt::Write>(&self, f: &mut fmt::Formatter<W>) -> fmt::Result {
        f.write_str(self.as_str())
    }
}

/// What must stand under a key. A decimal is a string, as `"1.5"`.
#[derive(Clone, Copy, Debug, PartialEq, Eq)]
pub enum Wanted {
    /// A whole number from `least` to `most`.
    Whole { least: u64, most: u64 },
    /// The number of a caller of the map, which has so many.
    Caller { callers: u8 },
    /// The number of the turn that the line ends.
    Turn { number: u64 },
    /// The sides of a map: an array of two whole numbers from 1 to 2048.
    Sides,
    /// An array of 1 to 16 passability classes with distinct names.
    Classes,
    /// An array of rectangles of cells of a map of this size, each with its mask.
    Rectangles { size: Size },
    /// A class name.
    ClassName,
    /// An array of two decimals: a point.
    TwoDecimals,
    /// An array of three decimals: a point and a length.
    ThreeDecimals,
    /// An array of six decimals: a rectangle.
    SixDecimals,
    /// An array of an obstruction number and a decimal.
    NumberAndDecimal,
    /// A goal of a script of this version: an object with one key.
    Goal { version: u8 },
}

impl fmt::Display for Wanted {
    ghost use Rattle.std.specs.Prelude.{Some};
    ghost use Rattle.script_text.specs.CauseTexts.{wanted_text};

    ghost output = { λ wanted. Some (wanted_text wanted) };

    fn fmt<W: fmt::Write>(&self, f: &mut fmt::Formatter<W>) -> fmt::Result {
        match *self {
            Wanted::Whole { least, most } => write!(f, "a whole number from {least} to {most}"),
            Wanted::Caller { callers } => {
                write!(
                    f,
                    "the number of a caller, which is a whole number below {callers}"
                )
            }
            Wanted::Turn { number } => write!(f, "the number of this turn, {number}"),
            Wanted::Sides => f.write_str("an array of two whole numbers from 1 to 2048"),
            Wanted::Classes => f.write_str(
                "an array of 1 to 16 objects with the keys \"name\" and \"clearance\", each name once, of 1 to 64 ASCII letters, digits, - or _, and each clearance a decimal in quotes from 0 to 64",
            ),
            Wanted::Rectangles { size } => {
                let w = size.w;
                let h = size.h;
                write!(
                    f,
                    "an array of arrays [i0,j0,i1,j1,mask] with i0 <= i1, j0 <= j1 and mask <= 65535, on a map of {w} by {h}"
                )
            }
            Wanted::ClassName => f.write_str("a string of 1 to 64 ASCII letters, digits, - or _"),
            Wanted::TwoDecimals => f.write_str(
                "an array of two decimals in quotes with at most 16 places, from -32768 to below 32768",
            ),
            Wanted::ThreeDecimals => f.write_str(
                "an array of three decimals in quotes with at most 16 places, from -32768 to below 32768",
            ),
            Wanted::SixDecimals => f.write_str(
                "an array of six decimals in quotes with at most 16 places, from -32768 to below 32768",
            ),
            Wanted::NumberAndDecimal => f.write_str(
                "an array of an obstruction number from 0 to 4294967295 and a decimal in quotes",
            ),
            Wanted::Goal { .. } => {
                let keys = goal_keys();
                write!(f, "an object with exactly one key: {keys}")
            }
        }
    }
}
