//! The text of a turn.
ghost use Rattle.std.specs.Prelude.{◌≡◌, ◌++◌, IfOk, OnOk};
ghost use Rattle.answer_text.specs.Answers.{turn_text, reply_lines};

use crate::lines::{write_reply, write_turn_line};
use nav_types::{Bytes, NoMemory};
use posts::{Reply, TurnReplies};
use std::alloc::Global;

/// The text of a turn of this number (`turn_text`): its turn line, and then for caller 0, 1 and so on
/// one line for each reply, in the order of the posts.
///
/// ```
/// let answered = answer_turn(alloc, &version, &posts)?;
/// let text = turn_text(alloc, turn, &answered.replies)?;
/// show(text.as_slice());
/// ```
pub fn turn_text(alloc: Global, turn: u64, replies: &TurnReplies) -> Result<Bytes, NoMemory>
    ensures { IfOk result (λ text. text ≡ turn_text turn replies.now) }
{
    let mut text = Bytes::new(alloc);
    write_turn_line(&mut text, turn, replies.tallies, replies.relabelled)?;
    for (caller, to_caller) in replies.replies.as_slice().iter().enumerate() {
        write_replies(&mut text, caller as u64, to_caller.as_slice())?;
    }
    Ok(text)
}

/// The lines of the replies to one caller.
fn write_replies(text: &mut Bytes, caller: u64, replies: &[Reply]) -> Result<(), NoMemory>
    ensures { OnOk result (text.new ≡ text.old ++ reply_lines caller 0 replies.now) }
{
    for (post, reply) in replies.iter().enumerate() {
        write_reply(text, caller, post as u64, reply)?;
    }
    Ok(())
}
