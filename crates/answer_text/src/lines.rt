//! The lines of replies, of a turn and of a bad line.
#![tactic(auto, using(crate::proofs::Growing::growing))]

ghost use Rattle.std.specs.Prelude.{◌≡◌, ◌++◌, ◌∷◌, OnOk, OnErr, IfOk, map};
ghost use Rattle.answer_text.specs.Answers.{reply_line, turn_line, bad_line_text, reply_words, edit_words, answer_words, refused_words, path_words, region_words, refusal_word, end_word, waypoint_text};
ghost use Rattle.answer_text.specs.Writing.{GrewFrom};
ghost use Rattle.answer_text.specs.inner.Spacing.{spaced};

use crate::pieces::{write_after, write_cell, write_waypoint};
use nav_types::{Bytes, Cell, NoMemory};
use posts::{Answer, EditReply, PathAnswer, Refusal, RegionAnswer, Reply, Tallies};
use std::alloc::Global;

/// Appends the line of a reply: the caller's number, the number of the post among the caller's posts of
/// the turn, and what the reply says (`reply_line`). Where there is no memory, the text still begins as it
/// did, and perhaps more bytes follow.
pub fn write_reply(text: &mut Bytes, caller: u64, post: u64, reply: &Reply) -> Result<(), NoMemory>
    ensures ok { OnOk result (text.new ≡ text.old ++ reply_line caller post reply.now) }
    ensures err { OnErr result (GrewFrom text.old text.new) }
{
    text.push_decimal(caller)?;
    write_after(text, b" ", post)?;
    write_words(text, reply)?;
    text.extend(b"\n")
}

/// The line that names a bad line of a script by its number, from 1 (`bad_line_text`).
#[tactic(auto, unfolding(crate::specs::Answers::bad_line_text))]
pub fn bad_line_text(alloc: Global, number: u64) -> Result<Bytes, NoMemory>
    ensures { IfOk result (λ text. text ≡ bad_line_text number) }
{
    let mut text = Bytes::new(alloc);
    write_after(&mut text, b"bad line ", number)?;
    text.extend(b"\n")?;
    Ok(text)
}

/// The turn line: the turn's number, its tallies and the number of pairs of chunk and class that it changed.
pub(crate) fn write_turn_line(
    text: &mut Bytes,
    turn: u64,
    tallies: Tallies,
    relabelled: u32,
) -> Result<(), NoMemory>
    ensures ok { OnOk result (text.new ≡ text.old ++ turn_line turn tallies relabelled) }
    ensures err { OnErr result (GrewFrom text.old text.new) }
{
    write_after(text, b"turn ", turn)?;
    write_after(text, b" regions ", tallies.regions)?;
    write_after(text, b" edges ", tallies.edges)?;
    write_after(text, b" areas ", tallies.areas)?;
    write_after(text, b" relabelled ", u64::from(relabelled))?;
    text.extend(b"\n")
}

/// What a reply says, each word after a space.
fn write_words(text: &mut Bytes, reply: &Reply) -> Result<(), NoMemory>
    ensures ok { OnOk result (text.new ≡ text.old ++ spaced (reply_words reply.now)) }
    ensures err { OnErr result (GrewFrom text.old text.new) }
{
    match reply {
        Reply::Edit(reply) => write_edit_reply(text, *reply),
        Reply::Answer(answer) => write_answer(text, answer),
    }
}

/// What the reply to an edit says.
fn write_edit_reply(text: &mut Bytes, reply: EditReply) -> Result<(), NoMemory>
    ensures ok { OnOk result (text.new ≡ text.old ++ spaced (edit_words reply)) }
    ensures err { OnErr result (GrewFrom text.old text.new) }
{
    match reply {
        EditReply::Added(id) => write_after(text, b" added ", u64::from(id)),
        EditReply::Removed(id) => write_after(text, b" removed ", u64::from(id)),
        EditReply::Moved(id) => write_after(text, b" moved ", u64::from(id)),
        EditReply::Refused(refusal) => write_refusal(text, refusal),
    }
}

/// What the answer to a request says.
fn write_answer(text: &mut Bytes, answer: &Answer) -> Result<(), NoMemory>
    ensures ok { OnOk result (text.new ≡ text.old ++ spaced (answer_words answer.now)) }
    ensures err { OnErr result (GrewFrom text.old text.new) }
{
    match answer {
        Answer::Refused(refusal) => write_refusal(text, *refusal),
        Answer::Nowhere => text.extend(b" nowhere"),
        Answer::Path(path) => write_path(text, path),
        Answer::Region(found) => write_region(text, found),
    }
}

/// Why a post is refused.
fn write_refusal(text: &mut Bytes, refusal: Refusal) -> Result<(), NoMemory>
    ensures ok { OnOk result (text.new ≡ text.old ++ spaced (refused_words refusal)) }
    ensures err { OnErr result (GrewFrom text.old text.new) }
{
    text.extend(b" refused ")?;
    text.extend(refusal_word(refusal))
}

/// The word for a refusal.
fn refusal_word(refusal: Refusal) -> &'static [u8]
    ensures { result.now ≡ refusal_word refusal }
{
    match refusal {
        Refusal::BadShape => b"bad-shape",
        Refusal::DuplicateId => b"duplicate-id",
        Refusal::StoreFull => b"store-full",
        Refusal::UnknownId => b"unknown-id",
        Refusal::UnknownClass => b"unknown-class",
        Refusal::StartOutside => b"start-outside",
        Refusal::GoalOutside => b"goal-outside",
    }
}

/// A path: its first and its last cell, where it ends, its cost, and its waypoints after their number.
fn write_path(text: &mut Bytes, path: &PathAnswer) -> Result<(), NoMemory>
    ensures ok { OnOk result (text.new ≡ text.old ++ spaced (path_words path.now)) }
    ensures err { OnErr result (GrewFrom text.old text.new) }
{
    text.extend(b" path")?;
    write_cell(text, path.start)?;
    write_cell(text, path.end)?;
    text.extend(end_word(path.near))?;
    write_after(text, b" ", path.cost.0)?;
    write_after(text, b" ", path.waypoints.len() as u64)?;
    write_waypoints(text, path.waypoints.as_slice())
}

/// The word for where a path ends, after a space.
fn end_word(near: bool) -> &'static [u8]
    ensures { result.now ≡ 32 ∷ end_word near }
{
    if near { b" near" } else { b" goal" }
}

/// The waypoints, each after a space.
pub(crate) fn write_waypoints(text: &mut Bytes, waypoints: &[Cell]) -> Result<(), NoMemory>
    ensures ok { OnOk result (text.new ≡ text.old ++ spaced (map waypoint_text waypoints.now)) }
    ensures err { OnErr result (GrewFrom text.old text.new) }
{
    for waypoint in waypoints {
        write_waypoint(text, *waypoint)?;
    }
    Ok(())
}

/// A region: the column and the row of its chunk, its number and its area's number.
fn write_region(text: &mut Bytes, found: &RegionAnswer) -> Result<(), NoMemory>
    ensures ok { OnOk result (text.new ≡ text.old ++ spaced (region_words found.now)) }
    ensures err { OnErr result (GrewFrom text.old text.new) }
{
    write_after(text, b" region ", u64::from(found.ci))?;
    write_after(text, b" ", u64::from(found.cj))?;
    write_after(text, b" ", u64::from(found.region))?;
    write_after(text, b" ", u64::from(found.area))
}
