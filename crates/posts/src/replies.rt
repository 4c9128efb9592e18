//! Replies to posts, and lists of them.
ghost use Rattle.std.specs.Prelude.{◌≡◌, IfOk};

use crate::edits::{EditReply, Refusal};
use nav_types::{Cell, Cost, NoMemory, Sequence};
use std::alloc::Global;
use walks::Waypoints;

/// The reply to a post.
#[derive(Debug, Drop)]
pub enum Reply {
    /// The reply to an edit.
    Edit(EditReply),
    /// The answer to a request.
    Answer(Answer),
}

/// The answer to a request.
#[derive(Debug, Drop)]
pub enum Answer {
    /// The request was refused.
    Refused(Refusal),
    /// No cell of the map is passable for the class.
    Nowhere,
    /// The path that was asked for.
    Path(PathAnswer),
    /// The region and the area that were asked for.
    Region(RegionAnswer),
}

/// A path: the chosen walk from `start` to `end` costs `cost` and turns at `waypoints`. It ends at a goal
/// cell, or where `near` at the cell of the start's area that is least remote from the goal.
#[derive(Debug, Drop)]
pub struct PathAnswer {
    pub start: Cell,
    pub end: Cell,
    pub near: bool,
    pub cost: Cost,
    pub waypoints: Waypoints,
}

/// The chunk of a cell by its column and row among the chunks, the number of the cell's region in it, and
/// the number of its area. The last two are 0 where the cell is not passable.
#[derive(Clone, Copy, Debug, PartialEq, Eq)]
pub struct RegionAnswer {
    pub ci: u16,
    pub cj: u16,
    pub region: u16,
    pub area: u32,
}

/// The answers to the requests of a turn, by their job numbers.
pub type Answers = Sequence<Answer>;

/// The replies to the posts of one caller, in order.
pub type Replies = Sequence<Reply>;

/// The replies of a turn to each caller, by the callers' numbers.
pub type CallerReplies = Sequence<Replies>;

/// How many regions, region edges and areas all classes have together.
#[derive(Clone, Copy, Debug, PartialEq, Eq)]
pub struct Tallies {
    pub regions: u64,
    pub edges: u64,
    pub areas: u64,
}

/// The replies of a turn, with the numbers of regions, edges and areas of all classes after it, and the
/// number of pairs of class and chunk of which the turn changed some cell.
#[derive(Debug, Drop)]
pub struct TurnReplies {
    pub tallies: Tallies,
    pub relabelled: u32,
    pub replies: CallerReplies,
}

/// The replies of turns, one after another.
pub type AllReplies = Sequence<TurnReplies>;

impl PathAnswer {
    /// The same path once more.
    pub fn copy(&self, alloc: Global) -> Result<PathAnswer, NoMemory>
        ensures { IfOk result (λ made. made ≡ self.now) }
    {
        Ok(PathAnswer {
            start: self.start,
            end: self.end,
            near: self.near,
            cost: self.cost,
            waypoints: self.waypoints.copy(alloc)?,
        })
    }
}

impl Answer {
    /// The same answer once more.
    pub fn copy(&self, alloc: Global) -> Result<Answer, NoMemory>
        ensures { IfOk result (λ made. made ≡ self.now) }
    {
        match self {
            Answer::Refused(refusal) => Ok(Answer::Refused(*refusal)),
            Answer::Nowhere => Ok(Answer::Nowhere),
            Answer::Path(path) => Ok(Answer::Path(path.copy(alloc)?)),
            Answer::Region(region) => Ok(Answer::Region(*region)),
        }
    }
}

impl Reply {
    /// The same reply once more.
    pub fn copy(&self, alloc: Global) -> Result<Reply, NoMemory>
        ensures { IfOk result (λ made. made ≡ self.now) }
    {
        match self {
            Reply::Edit(reply) => Ok(Reply::Edit(*reply)),
            Reply::Answer(answer) => Ok(Reply::Answer(answer.copy(alloc)?)),
        }
    }
}
