//! What calls answer. Those below 16 are the exit statuses of the program.
ghost use Rattle.std.specs.Prelude.{◌≡◌};
ghost use Rattle.pathserve_c.specs.Statuses.{status_of, status_of_posts};

use match_play::MatchFault;

/// What was asked is done.
pub const DONE: u32 = 0;

/// A line of the script is not in the grammar in its place.
pub const BAD_LINE: u32 = 3;

/// There was no memory. Nothing is lost.
pub const NO_MEMORY: u32 = 6;

/// A line or the script is past its limit.
pub const TOO_LONG: u32 = 7;

/// The handle is closed.
pub const CLOSED: u32 = 16;

/// The handle is open already.
pub const OPEN: u32 = 17;

/// The handle holds something else than the call is for.
pub const OTHER: u32 = 18;

/// The script has ended.
pub const ENDED: u32 = 19;

/// The map has not come.
pub const NO_MAP: u32 = 20;

/// A value is no such kind, number or size.
pub const BAD_VALUE: u32 = 21;

/// The buffer is too small.
pub const SMALL: u32 = 22;

/// More than a limit lets that was set.
pub const PAST_LIMIT: u32 = 23;

/// The match keeps no journal.
pub const NO_JOURNAL: u32 = 24;

/// The status that tells how far a match came.
pub fn status_of(answer: Result<(), MatchFault>) -> u32
    ensures { result ≡ status_of answer }
{
    match answer {
        Ok(()) => DONE,
        Err(MatchFault::BadLine(_)) => BAD_LINE,
        Err(MatchFault::TooLong(_)) => TOO_LONG,
        Err(MatchFault::Ended) => ENDED,
        Err(MatchFault::NoMemory) => NO_MEMORY,
    }
}

/// Why posts were not taken or answered.
#[derive(Clone, Copy, Debug, PartialEq, Eq)]
pub enum PostFault {
    /// One of them is not a post that the call is for.
    BadValue,
    /// There was no memory.
    NoMemory,
}

/// The status that tells whether posts were taken or answered.
pub fn status_of_posts(answer: Result<(), PostFault>) -> u32
    ensures { result ≡ status_of_posts answer }
{
    match answer {
        Ok(()) => DONE,
        Err(PostFault::BadValue) => BAD_VALUE,
        Err(PostFault::NoMemory) => NO_MEMORY,
    }
}
