//! Scripts that are served: a script is read whole, a session of its callers is run, and the journal that came of it is
//! written with the answers.
ghost use Rattle.std.specs.Prelude.{◌≡◌, ◌<◌, ◌≤◌, ◌^◌, ◌++◌, All, IfErr, IfOk, IsErrOf, None, OnOk, Some, length, slice_set};
ghost use Rattle.nav_types.specs.declared.limits.TheConstants.{MAX_WORKERS};
ghost use Rattle.io_edges.specs.Faults.{Rose};
ghost use Rattle.io_edges.specs.Passing.{HasGiven};
ghost use Rattle.posts.specs.Callers.{list_of};
ghost use Rattle.posts.specs.Posts.{post_count};
ghost use Rattle.path_service.specs.machine.Effects.{joined_up};
ghost use Rattle.script_text.specs.Canon.{HaveLines};
ghost use Rattle.script_text.specs.ReadsBack.{canon_script};
ghost use Rattle.script_text.specs.Reader.{HoldsRefused, unread};
ghost use Rattle.pathserve.specs.Output.{turn_texts};
ghost use Rattle.pathserve.specs.Runs.{RunsScript};
ghost use Rattle.pathserve.specs.Serving.{ServesTold, journal_text};
ghost use Rattle.pathserve.specs.inner.WholeScripts.{FitsBehind, IsTextOfSession, ScriptTold, with_item};
ghost use Rattle.pathserve.specs.inner.Writing.{WritesPiece, WritesSome};

use crate::reasons::Reason;
use crate::scripts::stop_at;
use crate::sessions::serve_session;
use crate::status::Status;
use crate::writing::{status_written, write_text};
use answer_text::turn_text;
use grid_versions::MapSpec;
use io_edges::{Gate, Sink, Source, WriteRefusal};
use nav_types::{NoMemory, Sequence};
use path_service::Closed;
use script_text::{ScriptFault, ScriptItem, ScriptReader, write_journal, write_map};
use std::alloc::Global;
use std::sync::Wait;
use std::thread::Threads;
use turn_core::{Posts, TurnPosts, empty_lists};

/// A script: its map, and the posts of each caller in all its turns.
#[derive(Drop)]
pub(crate) struct Script {
    pub map: MapSpec,
    pub posts: TurnPosts,
}

/// Serves a script: it is read whole, without regard to where its turns end, each of its callers posts its posts by
/// itself ([`serve_session`]), and the journal that came of it is written as a canonical script, followed by the answers
/// to it (`IsServed`). Nothing is written before every post has its reply. It may wait.
///
/// Where a line is bad its number is all that is written.
///
/// `why` has at the end what it has behind `run`.
pub fn run_serve<R: Threads + Wait + Sync, S: Source, K: Sink, G: Gate + Sync>(
    rt: &R,
    alloc: Global,
    workers: u8,
    source: &mut S,
    sink: &mut K,
    gate: &G,
    why: &mut Option<Reason>,
) -> Status
    requires some { 1 ≤ workers }
    requires few { workers ≤ MAX_WORKERS }
    ensures run { RunsScript (S.left source.old) (S.left source.new) (S.faults source.old) (S.faults source.new)
        (K.kept sink.old) (K.kept sink.new) (K.faults sink.old) (K.faults sink.new) why.new result }
    ensures told { ServesTold (S.left source.old) (S.left source.new) (K.kept sink.old) (K.kept sink.new) result }
{
    *why = None;
    let Ok(mut reader) = ScriptReader::new(alloc) else {
        return Status::NoMemory;
    };
    match read_script(alloc, source, &mut reader) {
        Ok(script) => status_written(serve_script(rt, alloc, &script, workers, sink, gate)),
        Err(fault) => stop_at(alloc, sink, &reader, fault, why),
    }
}

/// Reads a script to its end: its map, and all posts, caller by caller.
fn read_script<S: Source>(
    alloc: Global,
    source: &mut S,
    reader: &mut ScriptReader,
) -> Result<Script, ScriptFault>
    requires first { reader.old ≡ unread }
    ensures told { ScriptTold reader.new (S.left source.old) (S.left source.new) result }
    ensures wide { IfOk result (λ script. length script.posts ≡ script.map.callers) }
    ensures count { IfOk result (λ script. post_count script.posts < 2 ^ 32) }
    ensures lines { IfOk result (λ script. HaveLines script.map.version script.posts) }
    ensures given { HasGiven (S.left source.old) (S.left source.new) }
    ensures later { S.faults source.old ≤ S.faults source.new }
    ensures fault { IsErrOf result ScriptFault.ReadFault → Rose (S.faults source.old) (S.faults source.new) }
    ensures bad { IfErr result (HoldsRefused reader.new) }
{
    let mut read: Option<Script> = None;
    'items: loop {
        match reader.next_item(alloc, source)? {
            Some(item) => read = Some(with_item(alloc, read, item)?),
            None => match read {
                Some(script) => return Ok(script),
                None => unreachable!(),
            },
        }
    }
}

/// What was read of a script, with one item more.
fn with_item(alloc: Global, read: Option<Script>, item: ScriptItem) -> Result<Script, NoMemory>
    requires { FitsBehind read item }
    ensures { IfOk result (λ made. Some made ≡ with_item read item) }
{
    match read {
        Some(script) => more_of(script, item),
        None => begin_script(alloc, item),
    }
}

/// A script of which the map was read.
fn begin_script(alloc: Global, item: ScriptItem) -> Result<Script, NoMemory>
    requires { FitsBehind None item }
    ensures { IfOk result (λ made. Some made ≡ with_item None item) }
{
    match item {
        ScriptItem::Map(map) => {
            let posts = empty_lists(alloc, usize::from(map.callers()))?;
            Ok(Script {
                map,
                posts: Sequence::from(posts),
            })
        }
        ScriptItem::Base(_) | ScriptItem::Turn(_) => unreachable!(),
    }
}

/// A script with one item more behind its map.
fn more_of(script: Script, item: ScriptItem) -> Result<Script, NoMemory>
    requires { FitsBehind (Some script) item }
    ensures { IfOk result (λ made. Some made ≡ with_item (Some script) item) }
{
    let Script { mut map, posts } = script;
    match item {
        ScriptItem::Base(rects) => {
            map.add_base(rects.as_slice())?;
            Ok(Script { map, posts })
        }
        ScriptItem::Turn(turn) => {
            let mut lists = posts.into_items();
            append_turn(&mut lists, turn)?;
            Ok(Script {
                map,
                posts: Sequence::from(lists),
            })
        }
        ScriptItem::Map(_) => unreachable!(),
    }
}

/// Appends the posts of a turn to those of each caller.
fn append_turn(lists: &mut Vec<Posts>, turn: TurnPosts) -> Result<(), NoMemory>
    requires { length turn ≡ length lists.old.items }
    ensures { OnOk result (lists.new.items ≡ joined_up lists.old.items turn) }
{
    for (caller, posts) in turn.into_items().into_iter().enumerate() {
        append_posts(lists, caller, posts)?;
    }
    Ok(())
}

/// Appends posts to those of a caller.
fn append_posts(lists: &mut Vec<Posts>, caller: usize, mut posts: Posts) -> Result<(), NoMemory>
    requires { caller < length lists.old.items }
    ensures { OnOk result (lists.new.items ≡ slice_set lists.old.items caller (list_of lists.old.items caller ++ posts)) }
{
    lists[caller].append(&mut posts)
}

/// Has the callers of a script served, and writes the journal of the session and the answers to it.
fn serve_script<R: Threads + Wait + Sync, K: Sink, G: Gate + Sync>(
    rt: &R,
    alloc: Global,
    script: &Script,
    workers: u8,
    sink: &mut K,
    gate: &G,
) -> Result<(), WriteRefusal>
    requires wide { length script.now.posts ≡ script.now.map.callers }
    requires count { post_count script.now.posts < 2 ^ 32 }
    requires lines { HaveLines script.now.map.version script.now.posts }
    requires some { 1 ≤ workers }
    requires few { workers ≤ MAX_WORKERS }
    ensures written { WritesSome (IsTextOfSession script.now.map script.now.posts) (K.kept sink.old) (K.kept sink.new)
        result }
    ensures later { K.faults sink.old ≤ K.faults sink.new }
    ensures fault { IsErrOf result WriteRefusal.Failed → Rose (K.faults sink.old) (K.faults sink.new) }
{
    match serve_session(rt, alloc, &script.map, &script.posts, workers, gate) {
        Ok(closed) => write_session(alloc, sink, &closed),
        Err(NoMemory) => Err(WriteRefusal::NoMemory),
    }
}

/// Writes the journal of a session, and behind it the answers to it.
fn write_session<K: Sink>(alloc: Global, sink: &mut K, closed: &Closed) -> Result<(), WriteRefusal>
    requires lines { All (HaveLines closed.now.map.version) closed.now.journal }
    ensures written { WritesPiece (K.kept sink.old) (K.kept sink.new)
        (journal_text closed.now.map closed.now.journal closed.now.replies) result }
    ensures later { K.faults sink.old ≤ K.faults sink.new }
    ensures fault { IsErrOf result WriteRefusal.Failed → Rose (K.faults sink.old) (K.faults sink.new) }
{
    write_script(alloc, sink, closed)?;
    write_answers(alloc, sink, closed)
}

/// Writes the map and the journal of a session as a canonical script.
fn write_script<K: Sink>(alloc: Global, sink: &mut K, closed: &Closed) -> Result<(), WriteRefusal>
    requires lines { All (HaveLines closed.now.map.version) closed.now.journal }
    ensures written { WritesPiece (K.kept sink.old) (K.kept sink.new)
        (canon_script closed.now.map closed.now.journal) result }
    ensures later { K.faults sink.old ≤ K.faults sink.new }
    ensures fault { IsErrOf result WriteRefusal.Failed → Rose (K.faults sink.old) (K.faults sink.new) }
{
    let map = closed.map();
    write_text(sink, write_map(alloc, map))?;
    let mut number: u64 = 0;
    for turn in closed.journal().as_slice() {
        number += 1;
        write_text(sink, write_journal(alloc, map, number, turn))?;
    }
    Ok(())
}

/// Writes the answers to the turns of a session.
fn write_answers<K: Sink>(alloc: Global, sink: &mut K, closed: &Closed) -> Result<(), WriteRefusal>
    ensures written { WritesPiece (K.kept sink.old) (K.kept sink.new) (turn_texts 1 closed.now.replies) result }
    ensures later { K.faults sink.old ≤ K.faults sink.new }
    ensures fault { IsErrOf result WriteRefusal.Failed → Rose (K.faults sink.old) (K.faults sink.new) }
{
    let mut number: u64 = 0;
    for told in closed.replies().as_slice() {
        number += 1;
        write_text(sink, turn_text(alloc, number, told))?;
    }
    Ok(())
}
