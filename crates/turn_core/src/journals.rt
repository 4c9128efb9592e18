//! Journals that one thread answers.
ghost use Rattle.std.specs.Prelude.{◌≡◌, IfOk};
ghost use Rattle.turn_core.specs.Turns.{after_turn, IsTurnTold, IsOneThread};

use crate::one_threads::OneThread;
use crate::ready_turns::AnsweredTurn;
use crate::turn_versions::bare_version;
use grid_versions::{MapSpec, Version};
use nav_types::{NoMemory, Sequence};
use posts::{AllReplies, Journal, TurnPosts};
use std::alloc::Global;

/// The replies of one thread to a journal on a map where nothing stands yet (`IsOneThread`): turn by turn, caller by
/// caller and post by post, with the numbers of each turn. It refuses for want of memory alone.
pub fn one_thread(alloc: Global, map: &MapSpec, journal: &Journal) -> Result<AllReplies, NoMemory>
    ensures { IfOk result (IsOneThread map.now journal.now) }
{
    let mut thread = OneThread::new();
    let mut version = bare_version(alloc, map)?;
    let mut all = Sequence::new(alloc);
    for turn in journal.as_slice() {
        let AnsweredTurn { replies, after } = thread.answer_turn(alloc, &version, turn)?;
        all.push(replies)?;
        version = after;
    }
    Ok(all)
}

/// Answers a turn on the version before it (`IsTurnTold`): each edit has its reply, and each request its answer on the
/// version after all edits of the turn, which comes with the replies. It refuses for want of memory alone.
///
/// A [`OneThread`] does the same for turn after turn, and keeps what the next of them can use.
pub fn answer_turn(
    alloc: Global,
    version: &Version,
    turn: &TurnPosts,
) -> Result<AnsweredTurn, NoMemory>
    ensures map { IfOk result (λ answered. answered.after.map ≡ version.now.map) }
    ensures standing { IfOk result (λ answered.
        answered.after.standing ≡ after_turn version.now.map version.now.standing turn.now) }
    ensures told { IfOk result (λ answered. IsTurnTold version.now.map version.now.standing turn.now answered.replies) }
{
    OneThread::new().answer_turn(alloc, version, turn)
}
