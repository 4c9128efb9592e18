//! Why a match goes no further.
ghost use Rattle.std.specs.Prelude.{◌≡◌};

use nav_types::NoMemory;

/// Why a match goes no further.
#[derive(Clone, Copy, Debug, PartialEq, Eq)]
pub enum MatchFault {
    /// The line of this number of the script is not in the grammar in its place. The match has stopped.
    BadLine(u64),
    /// The line of this number is past the limit of a line, or the script with it past its own. The match has stopped.
    TooLong(u64),
    /// `finish` was called: the script has no more bytes. Nothing was taken or told.
    Ended,
    /// There was no memory. Nothing is lost: the call may come again.
    NoMemory,
}

impl From<NoMemory> for MatchFault {
    ghost use Rattle.match_play.specs.declared.faults.MatchFault.TheVariants.{NoMemory as no_memory};

    ghost from_gives = { λ _ fault. fault ≡ no_memory };

    fn from(_none: NoMemory) -> MatchFault {
        MatchFault::NoMemory
    }
}
