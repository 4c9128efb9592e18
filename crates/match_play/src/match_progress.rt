//! What the answers of a match rest on: its map, and what stands on it.
ghost use Rattle.std.specs.Prelude.{◌≡◌, ℕ, IfErr, OnErr, OnOk, length};
ghost use Rattle.posts.specs.Posts.{jobs};
ghost use Rattle.script_text.specs.Pushed.{item_of};
ghost use Rattle.script_text.specs.Script.{ends_turn};
ghost use Rattle.script_text.specs.declared.items.ScriptItem.TheVariants.{Turn};
ghost use Rattle.match_play.specs.Grounds.{AddsBase, Becomes, FitsBase, FitsItem, FitsTurn, TakesItem, Tells, said_of, turns_in};

use crate::states::MatchProgress;
use crate::views::view_of;
use answer_text::push_noted_text;
use nav_types::{Bytes, NoMemory};
use posts::{BaseRects, Report, TurnPosts};
use script_text::ScriptItem;
use std::alloc::Global;
use turn_core::{Answerer, NotedTurn, noted_turn};

/// Plays an item of a script: takes what it says of the map, or tells the text of its turn behind what waits (`Says`),
/// whoever answers it. It refuses for want of memory alone, hands the item back, and what is told and said stays.
pub fn play_item<A: Answerer>(
    alloc: Global,
    answerer: &mut A,
    report: Report,
    progress: &mut MatchProgress,
    item: ScriptItem,
    waiting: &mut Bytes,
) -> Result<(), (NoMemory, ScriptItem)>
    requires fits { FitsItem progress.old item }
    requires takes { TakesItem (A.takes answerer.old) item }
    ensures told { OnOk result (Tells report (said_of progress.old) (item_of item) (said_of progress.new) waiting.old
        waiting.new) }
    ensures progress { OnOk result (Becomes progress.old item progress.new) }
    ensures kept { OnErr result (progress.new ≡ progress.old) }
    ensures waiting { OnErr result (waiting.new ≡ waiting.old) }
    ensures item { IfErr result (λ refused. refused.1 ≡ item) }
    ensures takes { (count : ℕ) → A.takes answerer.old count → A.takes answerer.new count }
{
    match item {
        ScriptItem::Map(map) => {
            *progress = MatchProgress::Map(map);
            Ok(())
        }
        ScriptItem::Base(rects) => match add_base(progress, &rects) {
            Ok(()) => Ok(()),
            Err(NoMemory) => Err((NoMemory, ScriptItem::Base(rects))),
        },
        ScriptItem::Turn(posts) => {
            match play_turn(alloc, answerer, report, progress, posts, waiting) {
                Ok(()) => Ok(()),
                Err((NoMemory, posts)) => Err((NoMemory, ScriptItem::Turn(posts))),
            }
        }
    }
}

/// Adds base rectangles to the map.
fn add_base(progress: &mut MatchProgress, rects: &BaseRects) -> Result<(), NoMemory>
    requires fits { FitsBase progress.old rects.now }
    ensures ok { OnOk result (AddsBase progress.old rects.now progress.new) }
    ensures err { OnErr result (progress.new ≡ progress.old) }
{
    match progress {
        MatchProgress::Map(map) => map.add_base(rects.as_slice()),
        MatchProgress::Nothing | MatchProgress::Turns(_, _) => unreachable!(),
    }
}

/// Tells the text of the next turn behind what waits, and steps to the version after it.
fn play_turn<A: Answerer>(
    alloc: Global,
    answerer: &mut A,
    report: Report,
    progress: &mut MatchProgress,
    posts: TurnPosts,
    waiting: &mut Bytes,
) -> Result<(), (NoMemory, TurnPosts)>
    requires fits { FitsTurn progress.old }
    requires takes { A.takes answerer.old (length (jobs posts)) }
    ensures told { OnOk result (Tells report (said_of progress.old) (ends_turn posts) (said_of progress.new) waiting.old
        waiting.new) }
    ensures progress { OnOk result (Becomes progress.old (Turn posts) progress.new) }
    ensures kept { OnErr result (progress.new ≡ progress.old) }
    ensures waiting { OnErr result (waiting.new ≡ waiting.old) }
    ensures posts { IfErr result (λ refused. refused.1 ≡ posts) }
    ensures takes { (count : ℕ) → A.takes answerer.old count → A.takes answerer.new count }
{
    let version = match view_of(alloc, progress) {
        Ok(Some(version)) => version,
        Ok(None) => unreachable!(),
        Err(NoMemory) => return Err((NoMemory, posts)),
    };
    let turn = turns_in(progress) + 1;
    let NotedTurn {
        posts,
        replies,
        notes,
        after,
    } = noted_turn(alloc, answerer, &version, posts, report)?;
    match push_noted_text(alloc, waiting, turn, &replies, notes.as_slice()) {
        Ok(()) => {
            *progress = MatchProgress::Turns(after, turn);
            Ok(())
        }
        Err(NoMemory) => Err((NoMemory, posts)),
    }
}

/// How many turns were told.
fn turns_in(progress: &MatchProgress) -> u64
    ensures { result ≡ turns_in progress.now }
{
    match progress {
        MatchProgress::Nothing | MatchProgress::Map(_) => 0,
        MatchProgress::Turns(_, turns) => *turns,
    }
}
