//! The summary of a run.
ghost use Rattle.std.specs.Prelude.{◌≡◌, ◌++◌, List, IfOk, OnOk};
ghost use Rattle.posts.specs.declared.replies.Reply.{Reply};
ghost use Rattle.answer_text.specs.inner.Counting.{counts_of};
ghost use Rattle.answer_text.specs.Summaries.{summary_text, totals_line, last_line, last_tallies, HasFewReplies, HasCountableCosts, HasCountableWaypoints};

use crate::counting::ReplyCounts;
use crate::pieces::write_after;
use nav_types::{Bytes, NoMemory};
use posts::{AllReplies, Tallies, TurnReplies};
use std::alloc::Global;

/// The summary of the turns of a run (`summary_text`), two lines: how many turns and replies there are and
/// how many replies of each kind, with the costs and the numbers of waypoints of all paths added up; and the
/// numbers of regions, region edges and areas after the last turn, which are 0 where there is no turn.
///
/// There are fewer than 2^32 replies in all, and the costs of the paths and the numbers of their waypoints each
/// add up to less than 2^64.
pub fn summary_text(alloc: Global, replies: &AllReplies) -> Result<Bytes, NoMemory>
    requires few { HasFewReplies replies.now }
    requires costs { HasCountableCosts replies.now }
    requires waypoints { HasCountableWaypoints replies.now }
    ensures { IfOk result (λ text. text ≡ summary_text replies.now) }
{
    let turns = replies.as_slice();
    let mut text = Bytes::new(alloc);
    let counts = ReplyCounts::all(turns);
    write_totals(&mut text, turns.len() as u64, &counts)?;
    write_last(&mut text, last_tallies(turns))?;
    Ok(text)
}

/// The first line, where the counts are those of all replies.
fn write_totals(text: &mut Bytes, turns: u64, counts: &ReplyCounts) -> Result<(), NoMemory>
    ensures { OnOk result ((all : List Reply) → counts.now ≡ counts_of all → text.new ≡ text.old ++ totals_line turns all) }
{
    write_after(text, b"summary turns ", turns)?;
    write_after(text, b" posts ", counts.posts)?;
    write_after(text, b" added ", counts.added)?;
    write_after(text, b" removed ", counts.removed)?;
    write_after(text, b" refused ", counts.refused)?;
    write_after(text, b" goal ", counts.goal)?;
    write_after(text, b" near ", counts.near)?;
    write_after(text, b" nowhere ", counts.nowhere)?;
    write_after(text, b" cost ", counts.cost)?;
    write_after(text, b" corners ", counts.waypoints)?;
    text.extend(b"\n")
}

/// The second line.
fn write_last(text: &mut Bytes, tallies: Tallies) -> Result<(), NoMemory>
    ensures { OnOk result (text.new ≡ text.old ++ last_line tallies) }
{
    write_after(text, b"last regions ", tallies.regions)?;
    write_after(text, b" edges ", tallies.edges)?;
    write_after(text, b" areas ", tallies.areas)?;
    text.extend(b"\n")
}

/// The tallies of the last turn.
fn last_tallies(turns: &[TurnReplies]) -> Tallies
    ensures { result ≡ last_tallies turns.now }
{
    match turns.last() {
        Some(turn) => turn.tallies,
        None => Tallies {
            regions: 0,
            edges: 0,
            areas: 0,
        },
    }
}
