//! Edits of the standing obstructions, and their replies.
ghost use Rattle.std.specs.Prelude.{◌≡◌};
ghost use Rattle.posts.specs.Edits.{is_refused, edited_id};

use fixed_point::Fixed;
use nav_types::Sequence;
use obstruction_shapes::Obstruction;
use std::error::Error;
use std::fmt;

/// An edit of the standing obstructions.
#[derive(Clone, Copy, Debug, PartialEq, Eq)]
pub enum Edit {
    /// The obstruction is to stand under this number.
    Add { id: u32, obstruction: Obstruction },
    /// The obstruction of this number is to stand no longer.
    Remove { id: u32 },
    /// The middle of the shape of this number is to lie at (`x`, `z`).
    Move { id: u32, x: Fixed, z: Fixed },
}

impl Edit {
    /// The number of the obstruction that the edit names.
    pub fn id(&self) -> u32
        ensures { result ≡ edited_id self.now }
    {
        match *self {
            Edit::Add { id, .. } | Edit::Remove { id } | Edit::Move { id, .. } => id,
        }
    }
}

/// A list of edits.
pub type Edits = Sequence<Edit>;

/// What an edit is answered.
#[derive(Clone, Copy, Debug, PartialEq, Eq)]
pub enum EditReply {
    /// The obstruction of this number was added.
    Added(u32),
    /// The obstruction of this number was removed.
    Removed(u32),
    /// The obstruction of this number was moved.
    Moved(u32),
    /// The edit was refused, and the same obstructions stand.
    Refused(Refusal),
}

impl EditReply {
    /// Whether the edit was refused.
    pub fn is_refused(&self) -> bool
        ensures { result ≡ is_refused self.now }
    {
        matches!(self, EditReply::Refused(_))
    }
}

/// The replies to a list of edits, in its order.
pub type EditReplies = Sequence<EditReply>;

/// Why an edit or a request is refused.
#[derive(Clone, Copy, Debug, PartialEq, Eq)]
pub enum Refusal {
    /// A shape or a goal is not within its limits.
    BadShape,
    /// An obstruction stands under the number already.
    DuplicateId,
    /// As many obstructions stand as may at one time.
    StoreFull,
    /// No obstruction stands under the number.
    UnknownId,
    /// The map has no class of the name.
    UnknownClass,
    /// The start lies outside the map.
    StartOutside,
    /// The goal lies outside the map.
    GoalOutside,
}

impl fmt::Display for Refusal {
    ghost use Rattle.std.specs.Prelude.{Some};
    ghost use Rattle.posts.specs.RefusalTexts.{refusal_text};

    ghost output = { λ refusal. Some (refusal_text refusal) };

    fn fmt<W: fmt::Write>(&self, f: &mut fmt::Formatter<W>) -> fmt::Result {
        match *self {
            Refusal::BadShape => f.write_str("the shape is not within its limits"),
            Refusal::DuplicateId => f.write_str("an obstruction stands under this number"),
            Refusal::StoreFull => f.write_str("too many obstructions stand"),
            Refusal::UnknownId => f.write_str("no obstruction stands under this number"),
            Refusal::UnknownClass => f.write_str("no class has this name"),
            Refusal::StartOutside => f.write_str("the start lies outside the map"),
            Refusal::GoalOutside => f.write_str("the goal lies outside the map"),
        }
    }
}

impl Error for Refusal {}
