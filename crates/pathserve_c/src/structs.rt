//! Calls of matches by structs.
ghost use Rattle.std.specs.Prelude.{◌≡◌, ◌⊎◌, Some, length};
ghost use Rattle.flat_posts.specs.Pages.{IsPage};
ghost use Rattle.flat_posts.specs.Replies.{turn_replies, turn_waypoints};
ghost use Rattle.pathserve_c.specs.Calls.{HasEnded, IsEnded, IsOpenedOn, IsPosted, IsPostedTo, IsScriptOf, IsUnended, IsWritten};
ghost use Rattle.pathserve_c.specs.Handles.{IsHandle, state_of, told_in};
ghost use Rattle.pathserve_c.specs.Structs.{has_room};
ghost use Rattle.pathserve_c.specs.declared.states.State.TheVariants.{Structs};

use crate::handles::Handle;
use crate::states::State;
use crate::statuses::{
    BAD_VALUE, CLOSED, DONE, NO_JOURNAL, NO_MEMORY, OPEN, OTHER, PAST_LIMIT, SMALL, status_of_posts,
};
use crate::struct_matches::StructMatch;
use flat_posts::{
    FlatCell, FlatClass, FlatMap, FlatPost, FlatRect, FlatReply, FlatTurn, MapFault, write_replies,
    write_waypoints,
};
use nav_types::NoMemory;
use std::alloc::Global;

/// Opens a closed handle: a match on a map, before its first turn.
#[unsafe(no_mangle)]
pub extern "C" fn pathserve_open_map(
    alloc: Global,
    game: &mut Handle,
    map: &FlatMap,
    classes: &[FlatClass],
    base: &[FlatRect],
) -> u32
    requires handle { IsHandle game.old }
    ensures handle { IsHandle game.new }
    ensures opened { IsOpenedOn map.now classes.now base.now (state_of game.old) (state_of game.new) result }
{
    if game.live != 0 {
        return OPEN;
    }
    let map = match map.read(alloc, classes, base) {
        Ok(map) => map,
        Err(MapFault::NotMap) => return BAD_VALUE,
        Err(MapFault::NoMemory) => return NO_MEMORY,
    };
    let Ok(opened) = StructMatch::open(alloc, &map) else {
        return NO_MEMORY;
    };
    match game.open(alloc, State::Structs(opened)) {
        Ok(()) => DONE,
        Err(_) => NO_MEMORY,
    }
}

/// Takes posts, behind those that the turn has: all of them or none.
#[unsafe(no_mangle)]
pub extern "C" fn pathserve_post_all(alloc: Global, game: &mut Handle, posts: &[FlatPost]) -> u32
    requires handle { IsHandle game.old }
    ensures handle { IsHandle game.new }
    ensures posted { IsPosted (state_of game.old) (state_of game.new) posts.now result }
{
    let Some(mut state) = game.take(alloc) else {
        return CLOSED;
    };
    let status = post_to(alloc, &mut state, posts);
    game.put(state);
    status
}

/// Ends the turn.
#[unsafe(no_mangle)]
pub extern "C" fn pathserve_end_turn(alloc: Global, game: &mut Handle, turn: &mut FlatTurn) -> u32
    requires handle { IsHandle game.old }
    ensures handle { IsHandle game.new }
    ensures ended { IsEnded (state_of game.old) (state_of game.new) turn.old turn.new result }
{
    let Some(mut state) = game.take(alloc) else {
        return CLOSED;
    };
    let status = end_turn_of(alloc, &mut state, turn);
    game.put(state);
    status
}

/// Copies replies of the turn that ended last, from the one of a place on.
#[unsafe(no_mangle)]
pub extern "C" fn pathserve_replies(
    alloc: Global,
    game: &mut Handle,
    first: u64,
    replies: &mut [FlatReply],
) -> usize
    requires handle { IsHandle game.old }
    ensures handle { IsHandle game.new }
    ensures same { state_of game.new ≡ state_of game.old }
    ensures page { IsPage first (turn_replies (told_in (state_of game.old))) replies.old replies.new result }
{
    let Some(state) = game.take(alloc) else {
        return 0;
    };
    let count = match &*state {
        State::Structs(structs) => write_replies(structs.told(), first, replies),
        State::Text(_) | State::View(_) | State::Finder(_) => 0,
    };
    game.put(state);
    count
}

/// Copies waypoints of the turn that ended last, from the one of a place on.
#[unsafe(no_mangle)]
pub extern "C" fn pathserve_waypoints(
    alloc: Global,
    game: &mut Handle,
    first: u64,
    waypoints: &mut [FlatCell],
) -> usize
    requires handle { IsHandle game.old }
    ensures handle { IsHandle game.new }
    ensures same { state_of game.new ≡ state_of game.old }
    ensures page { IsPage first (turn_waypoints (told_in (state_of game.old))) waypoints.old waypoints.new result }
{
    let Some(state) = game.take(alloc) else {
        return 0;
    };
    let count = match &*state {
        State::Structs(structs) => write_waypoints(structs.told(), first, waypoints),
        State::Text(_) | State::View(_) | State::Finder(_) => 0,
    };
    game.put(state);
    count
}

/// Writes the match as a script.
#[unsafe(no_mangle)]
pub extern "C" fn pathserve_journal(
    alloc: Global,
    game: &mut Handle,
    buffer: &mut [u8],
    whole: &mut usize,
) -> u32
    requires handle { IsHandle game.old }
    ensures handle { IsHandle game.new }
    ensures same { state_of game.new ≡ state_of game.old }
    ensures written { IsWritten (state_of game.old) buffer.old buffer.new whole.old whole.new result }
{
    let Some(state) = game.take(alloc) else {
        return CLOSED;
    };
    let status = write_journal_of(alloc, &state, buffer, whole);
    game.put(state);
    status
}

/// Posts to a match by structs; anything else takes nothing.
fn post_to(alloc: Global, state: &mut State, posts: &[FlatPost]) -> u32
    ensures { IsPosted (Some state.old) (Some state.new) posts.now result }
{
    match state {
        State::Structs(structs) => post_in_room(alloc, structs, posts),
        State::Text(_) | State::View(_) | State::Finder(_) => OTHER,
    }
}

/// Posts to a match, where so many more may wait.
fn post_in_room(alloc: Global, structs: &mut StructMatch, posts: &[FlatPost]) -> u32
    ensures { IsPostedTo (has_room structs.old (length posts.now)) structs.old (Some (Structs structs.new)) posts.now result }
{
    if structs.has_room(posts.len()) {
        status_of_posts(structs.post_all(alloc, posts))
    } else {
        PAST_LIMIT
    }
}

/// Ends the turn of a match by structs; anything else tells nothing.
fn end_turn_of(alloc: Global, state: &mut State, turn: &mut FlatTurn) -> u32
    ensures { IsEnded (Some state.old) (Some state.new) turn.old turn.new result }
{
    match state {
        State::Structs(structs) => end_turn(alloc, structs, turn),
        State::Text(_) | State::View(_) | State::Finder(_) => OTHER,
    }
}

/// Ends the turn of a match, and tells what it comes to.
fn end_turn(alloc: Global, structs: &mut StructMatch, turn: &mut FlatTurn) -> u32
    ensures { HasEnded structs.old structs.new turn.new result ⊎ IsUnended structs.old structs.new turn.old turn.new result }
{
    match structs.end_turn(alloc) {
        Ok(()) => {
            *turn = FlatTurn::of(structs.turns(), structs.told());
            DONE
        }
        Err(NoMemory) => NO_MEMORY,
    }
}

/// Writes a match by structs as a script, where the buffer holds it; of anything else nothing is written.
fn write_journal_of(alloc: Global, state: &State, buffer: &mut [u8], whole: &mut usize) -> u32
    ensures { IsWritten (Some state.now) buffer.old buffer.new whole.old whole.new result }
{
    match state {
        State::Structs(structs) => write_journal(alloc, structs, buffer, whole),
        State::Text(_) | State::View(_) | State::Finder(_) => OTHER,
    }
}

/// Writes a match as a script, where the buffer holds it.
fn write_journal(alloc: Global, structs: &StructMatch, buffer: &mut [u8], whole: &mut usize) -> u32
    ensures { IsScriptOf structs.now.game.map structs.now.game.past buffer.old buffer.new whole.old whole.new result }
{
    let text = match structs.script(alloc) {
        Ok(Some(text)) => text,
        Ok(None) => return NO_JOURNAL,
        Err(NoMemory) => return NO_MEMORY,
    };
    *whole = text.len();
    if buffer.len() < text.len() {
        return SMALL;
    }
    buffer[..text.len()].copy_from_slice(text.as_slice());
    DONE
}
