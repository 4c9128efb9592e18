//! What a match holds.
use grid_versions::Version;
use nav_types::Bytes;
use posts::{MapSpec, Report};
use script_text::{PushedScript, ScriptItem};

/// Why a script stops before its end.
#[derive(Clone, Copy, Debug, PartialEq, Eq)]
pub enum ScriptStop {
    /// The line of this number is not in the grammar in its place.
    BadLine(u64),
    /// The line of this number is past the limit of a line, or the script with it past its own.
    TooLong(u64),
}

/// What comes next in a match.
#[derive(Drop)]
pub enum NextItem {
    /// More of the script.
    Lines,
    /// What a line gave, which is not told yet.
    Item(ScriptItem),
    /// A stop, which is not told yet.
    Stop(ScriptStop),
    /// Nothing: a stop was told.
    Nothing(ScriptStop),
    /// Nothing: the script has ended, and is whole.
    Whole,
}

/// What the next answers of a match rest on. It begins with nothing.
#[derive(Drop)]
pub enum MatchProgress {
    /// Nothing: the map has not come.
    Nothing,
    /// The map, to which base rectangles may be added, since no turn has come.
    Map(MapSpec),
    /// The version after so many turns.
    Turns(Version, u64),
}

/// A match between the bytes that it is fed with and the text that waits to be taken.
#[derive(Drop)]
pub struct MatchState {
    /// What is told beside the answers.
    pub report: Report,
    /// How far the script was read.
    pub script: PushedScript,
    /// Whether the script has no more bytes than it was fed with.
    pub ended: bool,
    /// What comes next.
    pub next_item: NextItem,
    /// What the next answers rest on.
    pub progress: MatchProgress,
    /// The text that was told and not taken yet.
    pub waiting: Bytes,
}
