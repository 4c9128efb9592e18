//! The text of a turn with what is told beside its answers.
#![tactic(auto, using(crate::proofs::Growing::growing))]

ghost use Rattle.std.specs.Prelude.{◌≡◌, ◌≤◌, ◌++◌, ◌∷◌, IfOk, OnErr, OnOk, length, take};
ghost use Rattle.answer_text.specs.Noted.{noted_text, noted_lines, behind_reply, note_text, note_line, note_words, flow_words, smooth_words, step_word, notes_after, notes_left};
ghost use Rattle.answer_text.specs.Writing.{GrewFrom};
ghost use Rattle.answer_text.specs.inner.Spacing.{spaced};

use crate::lines::{write_reply, write_turn_line, write_waypoints};
use crate::pieces::write_after;
use nav_types::{Bytes, Cell, Dir, NoMemory};
use posts::{FlowLine, Note, Reply, TurnReplies};
use std::alloc::Global;
use std::mem;

/// Appends the text of a turn of this number with what is told beside its answers (`noted_text`): the lines of
/// [`turn_text`](crate::turn_text), and behind the line of each answer what its note says, on a line of its own. Where
/// there is no memory the text is as it was.
///
/// The notes go by the jobs of the turn: each answer to a request has the next one, caller by caller and post by post.
/// Where no note is left nothing is told.
pub fn push_noted_text(
    alloc: Global,
    text: &mut Bytes,
    turn: u64,
    replies: &TurnReplies,
    notes: &[Note],
) -> Result<(), NoMemory>
    ensures ok { OnOk result (text.new ≡ text.old ++ noted_text turn replies.now notes.now) }
    ensures err { OnErr result (text.new ≡ text.old) }
{
    let before = text.len();
    match write_turn(text, turn, replies, notes) {
        Ok(()) => Ok(()),
        Err(NoMemory) => {
            cut_back(alloc, text, before);
            Err(NoMemory)
        }
    }
}

/// Lets go of all bytes behind the first of them. It takes no memory.
fn cut_back(alloc: Global, text: &mut Bytes, count: usize)
    requires { count ≤ length text.old }
    ensures { text.new ≡ take count text.old }
{
    // An empty text takes no memory.
    let mut bytes = mem::replace(text, Bytes::new(alloc)).into_items();
    bytes.truncate(count);
    *text = Bytes::from(bytes);
}

/// The lines of a turn.
fn write_turn(
    text: &mut Bytes,
    turn: u64,
    replies: &TurnReplies,
    notes: &[Note],
) -> Result<(), NoMemory>
    ensures ok { OnOk result (text.new ≡ text.old ++ noted_text turn replies.now notes.now) }
    ensures err { OnErr result (GrewFrom text.old text.new) }
{
    let mut left = notes;
    write_turn_line(text, turn, replies.tallies, replies.relabelled)?;
    for (caller, to_caller) in replies.replies.as_slice().iter().enumerate() {
        left = write_noted(text, caller as u64, to_caller.as_slice(), left)?;
    }
    Ok(())
}

/// The lines of the replies to one caller. It gives the notes that are left after them.
fn write_noted<'a>(
    text: &mut Bytes,
    caller: u64,
    replies: &[Reply],
    notes: &'a [Note],
) -> Result<&'a [Note], NoMemory>
    ensures text { OnOk result (text.new ≡ text.old ++ noted_lines caller 0 replies.now notes.now) }
    ensures err { OnErr result (GrewFrom text.old text.new) }
    ensures left { IfOk result (λ left. left.now ≡ notes_left replies.now notes.now) }
{
    let mut left = notes;
    for (post, reply) in replies.iter().enumerate() {
        write_reply(text, caller, post as u64, reply)?;
        write_behind(text, caller, post as u64, reply, left)?;
        left = notes_after(reply, left);
    }
    Ok(left)
}

/// What stands behind the line of a reply, where these notes are left.
fn write_behind(
    text: &mut Bytes,
    caller: u64,
    post: u64,
    reply: &Reply,
    notes: &[Note],
) -> Result<(), NoMemory>
    ensures ok { OnOk result (text.new ≡ text.old ++ behind_reply caller post reply.now notes.now) }
    ensures err { OnErr result (GrewFrom text.old text.new) }
{
    match (reply, notes) {
        (Reply::Answer(_), [note, ..]) => write_note(text, caller, post, note),
        _ => Ok(()),
    }
}

/// The line of a note, and nothing where it tells nothing.
fn write_note(text: &mut Bytes, caller: u64, post: u64, note: &Note) -> Result<(), NoMemory>
    ensures ok { OnOk result (text.new ≡ text.old ++ note_text caller post note.now) }
    ensures err { OnErr result (GrewFrom text.old text.new) }
{
    match note {
        Note::Nothing => Ok(()),
        Note::Opened(_) | Note::Flow(_) | Note::Smoothed(_) => {
            write_note_line(text, caller, post, note)
        }
    }
}

/// The line of a note.
fn write_note_line(text: &mut Bytes, caller: u64, post: u64, note: &Note) -> Result<(), NoMemory>
    ensures ok { OnOk result (text.new ≡ text.old ++ note_line caller post note.now) }
    ensures err { OnErr result (GrewFrom text.old text.new) }
{
    text.push_decimal(caller)?;
    write_after(text, b" ", post)?;
    write_note_words(text, note)?;
    text.extend(b"\n")
}

/// What a note says, each word after a space.
fn write_note_words(text: &mut Bytes, note: &Note) -> Result<(), NoMemory>
    ensures ok { OnOk result (text.new ≡ text.old ++ spaced (note_words note.now)) }
    ensures err { OnErr result (GrewFrom text.old text.new) }
{
    match note {
        Note::Nothing => Ok(()),
        Note::Opened(opened) => write_after(text, b" opened ", *opened),
        Note::Flow(line) => write_flow(text, line),
        Note::Smoothed(points) => write_smoothed(text, points.as_slice()),
    }
}

/// What a flow field tells of a path.
fn write_flow(text: &mut Bytes, line: &FlowLine) -> Result<(), NoMemory>
    ensures ok { OnOk result (text.new ≡ text.old ++ spaced (flow_words line.now)) }
    ensures err { OnErr result (GrewFrom text.old text.new) }
{
    text.extend(b" flow")?;
    text.extend(step_word(line.first))?;
    write_after(text, b" ", line.summary.cells)?;
    write_after(text, b" ", line.summary.farthest)?;
    write_after(text, b" ", line.summary.sum)
}

/// The name of a direction, and `-` for none, after a space.
fn step_word(step: Option<Dir>) -> &'static [u8]
    ensures { result.now ≡ 32 ∷ step_word step }
{
    match step {
        None => b" -",
        Some(Dir::N) => b" N",
        Some(Dir::E) => b" E",
        Some(Dir::S) => b" S",
        Some(Dir::W) => b" W",
        Some(Dir::NE) => b" NE",
        Some(Dir::SE) => b" SE",
        Some(Dir::SW) => b" SW",
        Some(Dir::NW) => b" NW",
    }
}

/// How many waypoints were smoothed to, and these.
fn write_smoothed(text: &mut Bytes, points: &[Cell]) -> Result<(), NoMemory>
    ensures ok { OnOk result (text.new ≡ text.old ++ spaced (smooth_words points.now)) }
    ensures err { OnErr result (GrewFrom text.old text.new) }
{
    write_after(text, b" smooth ", points.len() as u64)?;
    write_waypoints(text, points)
}

/// The notes that are left after a reply.
fn notes_after<'a>(reply: &Reply, notes: &'a [Note]) -> &'a [Note]
    ensures { result.now ≡ notes_after reply.now notes.now }
{
    match (reply, notes) {
        (Reply::Answer(_), [_, left @ ..]) => left,
        _ => notes,
    }
}
