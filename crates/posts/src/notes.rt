//! What is told beside the answers to requests.
use crate::replies::Answer;
use nav_types::{Dir, Sequence};
use walks::Waypoints;

/// What is told beside each answer.
#[derive(Clone, Copy, Debug, PartialEq, Eq)]
pub enum Report {
    /// Nothing.
    Answers,
    /// The opened number of each path: how many jump states have a least cost of jumps that, with the octile distance to
    /// the box of the path's targets, is within the path's cost.
    ///
    /// The jump states are those of Harabor and Grastien, "Online Graph Pruning for Pathfinding on Grid Maps", AAAI 2011,
    /// for steps that cut no corner. All of them within the cost are opened, so it takes longer than the answers alone.
    OpenedNumbers,
    /// Of each path the first step of the flow field that leads to its targets, and what the field has in all.
    ///
    /// A field gives each cell of the start's area its distance to the nearest target and the step to take, so that one
    /// field leads a whole group. Of requests for one goal in one area it is made once.
    Flows,
    /// Of each path the fewest of its waypoints with a clear straight way between them, each at most 64 places behind the
    /// one before.
    Smoothed,
}

/// What a flow field has in all: how many cells have a distance to a target, the greatest of these distances, and their
/// sum, in units of 1/65536 of a straight step.
#[derive(Clone, Copy, Debug, PartialEq, Eq)]
pub struct FlowSummary {
    pub cells: u64,
    pub farthest: u64,
    pub sum: u64,
}

/// What a flow field tells of a path: the step to take at the path's start, none where that is a target, and the field's
/// summary.
#[derive(Clone, Copy, Debug, PartialEq, Eq)]
pub struct FlowLine {
    pub first: Option<Dir>,
    pub summary: FlowSummary,
}

/// What is told of one answer.
#[derive(Debug, Drop)]
pub enum Note {
    /// Nothing.
    Nothing,
    /// The opened number of a path.
    Opened(u64),
    /// What the flow field of a path tells of it.
    Flow(FlowLine),
    /// The smoothed waypoints of a path.
    Smoothed(Waypoints),
}

/// The answer to a request with its note.
#[derive(Debug, Drop)]
pub struct Noted {
    pub answer: Answer,
    pub note: Note,
}

/// The notes of the answers to the requests of a turn, by their job numbers.
pub type Notes = Sequence<Note>;
