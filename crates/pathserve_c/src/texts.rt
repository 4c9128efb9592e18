//! Calls of matches by text.
ghost use Rattle.std.specs.Prelude.{◌≡◌, ◌≤◌, Some, drop, length, min, take};
ghost use Rattle.pathserve_c.specs.Calls.{IsFed, IsFedTo, IsFinished, IsOpened, IsTaken, report_of};
ghost use Rattle.pathserve_c.specs.Handles.{IsHandle, state_of, waiting_in};
ghost use Rattle.pathserve_c.specs.LineLimits.{fits_limit};
ghost use Rattle.pathserve_c.specs.declared.states.State.TheVariants.{Text};

use crate::handles::Handle;
use crate::states::State;
use crate::statuses::{BAD_VALUE, CLOSED, DONE, NO_MEMORY, OPEN, OTHER, PAST_LIMIT, status_of};
use crate::text_matches::TextMatch;
use posts::Report;
use std::alloc::Global;
use turn_core::REPORTS;

/// Opens a closed handle: a match of whose script no byte has come.
#[unsafe(no_mangle)]
pub extern "C" fn pathserve_open(alloc: Global, game: &mut Handle, report: u32) -> u32
    requires handle { IsHandle game.old }
    ensures handle { IsHandle game.new }
    ensures opened { IsOpened report (state_of game.old) (state_of game.new) result }
{
    if game.live != 0 {
        return OPEN;
    }
    let Some(report) = report_of(report) else {
        return BAD_VALUE;
    };
    match game.open(alloc, State::Text(TextMatch::open(alloc, report))) {
        Ok(()) => DONE,
        Err(_) => NO_MEMORY,
    }
}

/// Closes a handle and frees what it holds. A closed one stays closed.
#[unsafe(no_mangle)]
pub extern "C" fn pathserve_close(alloc: Global, game: &mut Handle)
    requires handle { IsHandle game.old }
    ensures handle { IsHandle game.new }
    ensures closed { game.new.live ≡ 0 }
{
    drop(game.take(alloc));
}

/// Feeds the next bytes of the script.
#[unsafe(no_mangle)]
pub extern "C" fn pathserve_feed(
    alloc: Global,
    game: &mut Handle,
    bytes: &[u8],
    taken: &mut usize,
) -> u32
    requires handle { IsHandle game.old }
    ensures handle { IsHandle game.new }
    ensures fed { IsFed (state_of game.old) (state_of game.new) bytes.now (drop taken.new bytes.now) result }
    ensures within { taken.new ≤ length bytes.now }
{
    *taken = 0;
    let Some(mut state) = game.take(alloc) else {
        return CLOSED;
    };
    let mut left = bytes;
    let status = feed_state(alloc, &mut state, &mut left);
    *taken = bytes.len() - left.len();
    game.put(state);
    status
}

/// Tells that the script has no more bytes.
#[unsafe(no_mangle)]
pub extern "C" fn pathserve_finish(alloc: Global, game: &mut Handle) -> u32
    requires handle { IsHandle game.old }
    ensures handle { IsHandle game.new }
    ensures finished { IsFinished (state_of game.old) (state_of game.new) result }
{
    let Some(mut state) = game.take(alloc) else {
        return CLOSED;
    };
    let status = match &mut *state {
        State::Text(text) => status_of(text.finish(alloc)),
        State::Structs(_) | State::View(_) | State::Finder(_) => OTHER,
    };
    game.put(state);
    status
}

/// How many bytes of text wait.
#[unsafe(no_mangle)]
pub extern "C" fn pathserve_waiting(alloc: Global, game: &mut Handle) -> usize
    requires handle { IsHandle game.old }
    ensures handle { IsHandle game.new }
    ensures same { state_of game.new ≡ state_of game.old }
    ensures count { result ≡ length (waiting_in (state_of game.old)) }
{
    let Some(state) = game.take(alloc) else {
        return 0;
    };
    let count = match &*state {
        State::Text(text) => text.count_waiting(),
        State::Structs(_) | State::View(_) | State::Finder(_) => 0,
    };
    game.put(state);
    count
}

/// Moves the first bytes that wait into the buffer.
#[unsafe(no_mangle)]
pub extern "C" fn pathserve_take(alloc: Global, game: &mut Handle, buffer: &mut [u8]) -> usize
    requires handle { IsHandle game.old }
    ensures handle { IsHandle game.new }
    ensures count { result ≡ min (length buffer.old) (length (waiting_in (state_of game.old))) }
    ensures copied { take result buffer.new ≡ take result (waiting_in (state_of game.old)) }
    ensures behind { drop result buffer.new ≡ drop result buffer.old }
    ensures taken { IsTaken (state_of game.old) (state_of game.new) result }
{
    let Some(mut state) = game.take(alloc) else {
        return 0;
    };
    let count = match &mut *state {
        State::Text(text) => text.take(buffer),
        State::Structs(_) | State::View(_) | State::Finder(_) => 0,
    };
    game.put(state);
    count
}

/// Feeds a match by text; anything else takes nothing.
fn feed_state(alloc: Global, state: &mut State, bytes: &mut &[u8]) -> u32
    ensures { IsFed (Some state.old) (Some state.new) bytes.old.now bytes.new.now result }
{
    match state {
        State::Text(text) => feed_in_limit(alloc, text, bytes),
        State::Structs(_) | State::View(_) | State::Finder(_) => OTHER,
    }
}

/// Feeds a match, where no line has more bytes than it may.
fn feed_in_limit(alloc: Global, text: &mut TextMatch, bytes: &mut &[u8]) -> u32
    ensures { IsFedTo (fits_limit text.old.limit bytes.old.now) text.old (Some (Text text.new)) bytes.old.now bytes.new.now result }
{
    if text.has_room(*bytes) {
        status_of(text.feed(alloc, bytes))
    } else {
        PAST_LIMIT
    }
}

/// What is told beside the answers, by its number.
fn report_of(number: u32) -> Option<Report>
    ensures { result ≡ report_of number }
{
    REPORTS.get(number as usize).copied()
}
