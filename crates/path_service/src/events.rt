//! Events of the turn machine, and why one is not enabled.
ghost use Rattle.std.specs.Prelude.{◌≡◌, ◌++◌, Some, decimal};
ghost use Rattle.std.specs.Fmt.{DisplaysOnOk};
ghost use Rattle.path_service.specs.machine.Refusals.{why_text};

use nav_types::Sequence;
use posts::Post;
use std::fmt;

/// How many posts of each caller a stage takes, by the callers' numbers.
pub type Takes = Sequence<u64>;

/// An event of the turn machine.
#[derive(Debug, Drop)]
pub enum Event {
    /// A caller posts.
    Post { caller: u8, post: Post },
    /// The next posts of each caller, as many as `takes` says, become the staged turn.
    Stage { takes: Takes },
    /// The staged turn becomes the running one.
    Start,
    /// The least job of the running turn that is not claimed is claimed.
    Claim,
    /// A claimed job of the running turn gets its answer.
    Finish { job: u64 },
    /// The replies of the running turn go to their callers, and no turn runs.
    Deliver,
    /// A caller takes its next reply.
    Collect { caller: u8 },
}

/// Why an event is not enabled, with the value that shows it. Turns are numbered from 1 as they are staged,
/// and the last turn is the one that was staged last, or 0 where none was.
#[derive(Clone, Copy, Debug, PartialEq, Eq)]
pub enum Why {
    /// There are only so many callers.
    Callers(u8),
    /// The turn of this number is staged.
    Staged(u64),
    /// The caller of this number is the first that has fewer posts than are to be taken: so many.
    Posted(u8, u64),
    /// No turn is staged; the last turn has this number.
    NoneStaged(u64),
    /// The turn of this number runs.
    Running(u64),
    /// No turn runs; the last turn has this number.
    NoneRunning(u64),
    /// All jobs of the running turn are claimed: so many.
    AllClaimed(u64),
    /// Only so many jobs of the running turn are claimed.
    Claimed(u64),
    /// The job of this number is answered.
    Answered(u64),
    /// Only so many jobs of the running turn are claimed, and there are more.
    Unclaimed(u64),
    /// The job of this number is the least that is not answered.
    Unanswered(u64),
    /// The caller has collected all of its replies: so many.
    Collected(u64),
}

impl fmt::Display for Why {
    ghost output = { λ why. Some (why_text why) };

    fn fmt<W: fmt::Write>(&self, f: &mut fmt::Formatter<W>) -> fmt::Result {
        match *self {
            Why::Callers(count) => write_number(f, "there are ", u64::from(count), " callers"),
            Why::Staged(turn) => write_number(f, "turn ", turn, " is staged"),
            Why::Posted(caller, count) => write!(f, "caller {caller} has {count} posts left"),
            Why::NoneStaged(last) => write!(f, "no turn is staged after turn {last}"),
            Why::Running(turn) => write_number(f, "turn ", turn, " runs"),
            Why::NoneRunning(last) => write!(f, "no turn runs after turn {last}"),
            Why::AllClaimed(count) => write_number(f, "all ", count, " jobs are claimed"),
            Why::Claimed(count) => write!(f, "{count} jobs are claimed"),
            Why::Answered(job) => write_number(f, "job ", job, " is answered"),
            Why::Unclaimed(count) => write_number(f, "only ", count, " jobs are claimed"),
            Why::Unanswered(job) => write_number(f, "job ", job, " is not answered"),
            Why::Collected(count) => write_number(f, "all ", count, " replies are collected"),
        }
    }
}

/// Writes a number between two texts.
fn write_number<W: fmt::Write>(
    f: &mut fmt::Formatter<W>,
    before: &str,
    number: u64,
    after: &str,
) -> fmt::Result
    ensures { DisplaysOnOk W.write_str_gives f.old result (Some (before.now ++ decimal number ++ after.now)) f.new }
{
    write!(f, "{before}{number}{after}")
}
