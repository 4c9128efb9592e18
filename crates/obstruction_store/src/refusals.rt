//! Why an edit of the standing obstructions is refused.
ghost use Rattle.std.specs.Prelude.{Some};

use std::error::Error;
use std::fmt;

/// Why an obstruction was not added.
#[derive(Clone, Copy, Debug, PartialEq, Eq)]
pub enum AddRefusal {
    /// An obstruction stands under this number.
    DuplicateId,
    /// As many obstructions stand as may at one time.
    StoreFull,
    /// There was no memory.
    NoMemory,
}

/// Why an obstruction was not moved.
#[derive(Clone, Copy, Debug, PartialEq, Eq)]
pub enum MoveRefusal {
    /// No obstruction stands under this number.
    UnknownId,
    /// The shape does not fit the map at its new place.
    BadShape,
    /// There was no memory.
    NoMemory,
}

/// Why an obstruction was not removed.
#[derive(Clone, Copy, Debug, PartialEq, Eq)]
pub enum RemoveRefusal {
    /// No obstruction stands under this number.
    UnknownId,
    /// There was no memory.
    NoMemory,
}

impl fmt::Display for AddRefusal {
    ghost use Rattle.obstruction_store.specs.RefusalTexts.{add_refusal_text};

    ghost output = { λ refusal. Some (add_refusal_text refusal) };

    fn fmt<W: fmt::Write>(&self, f: &mut fmt::Formatter<W>) -> fmt::Result {
        match *self {
            AddRefusal::DuplicateId => f.write_str("an obstruction stands under this number"),
            AddRefusal::StoreFull => f.write_str("too many obstructions stand"),
            AddRefusal::NoMemory => f.write_str("out of memory"),
        }
    }
}

impl fmt::Display for MoveRefusal {
    ghost use Rattle.obstruction_store.specs.RefusalTexts.{move_refusal_text};

    ghost output = { λ refusal. Some (move_refusal_text refusal) };

    fn fmt<W: fmt::Write>(&self, f: &mut fmt::Formatter<W>) -> fmt::Result {
        match *self {
            MoveRefusal::UnknownId => f.write_str("no obstruction stands under this number"),
            MoveRefusal::BadShape => {
                f.write_str("the shape does not fit the map at its new place")
            }
            MoveRefusal::NoMemory => f.write_str("out of memory"),
        }
    }
}

impl fmt::Display for RemoveRefusal {
    ghost use Rattle.obstruction_store.specs.RefusalTexts.{remove_refusal_text};

    ghost output = { λ refusal. Some (remove_refusal_text refusal) };

    fn fmt<W: fmt::Write>(&self, f: &mut fmt::Formatter<W>) -> fmt::Result {
        match *self {
            RemoveRefusal::UnknownId => f.write_str("no obstruction stands under this number"),
            RemoveRefusal::NoMemory => f.write_str("out of memory"),
        }
    }
}

impl Error for AddRefusal {}

impl Error for MoveRefusal {}

impl Error for RemoveRefusal {}
