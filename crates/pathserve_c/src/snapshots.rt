//! What stands as a script, and journals that begin anew.
ghost use Rattle.std.specs.Prelude.{◌≡◌, ◌⊎◌, Some};
ghost use Rattle.pathserve_c.specs.Handles.{IsHandle, state_of};
ghost use Rattle.pathserve_c.specs.Saves.{HasForgotten, HasKept, IsForgotten, IsSnapped, IsSnapshot, IsUnkept};

use crate::handles::Handle;
use crate::states::State;
use crate::statuses::{CLOSED, DONE, NO_MEMORY, OTHER, SMALL};
use crate::struct_matches::StructMatch;
use grid_versions::Version;
use match_play::snapshot;
use nav_types::NoMemory;
use std::alloc::Global;

/// Writes what a view shows as a script: its map, and one turn in which caller 0 adds all that stands.
#[unsafe(no_mangle)]
pub extern "C" fn pathserve_snapshot(
    alloc: Global,
    view: &mut Handle,
    buffer: &mut [u8],
    whole: &mut usize,
) -> u32
    requires handle { IsHandle view.old }
    ensures handle { IsHandle view.new }
    ensures same { state_of view.new ≡ state_of view.old }
    ensures written { IsSnapped (state_of view.old) buffer.old buffer.new whole.old whole.new result }
{
    let Some(state) = view.take(alloc) else {
        return CLOSED;
    };
    let status = write_snapshot_of(alloc, &state, buffer, whole);
    view.put(state);
    status
}

/// Begins the journal of a match anew, with one turn in which caller 0 adds all that stands.
#[unsafe(no_mangle)]
pub extern "C" fn pathserve_forget(alloc: Global, game: &mut Handle) -> u32
    requires handle { IsHandle game.old }
    ensures handle { IsHandle game.new }
    ensures forgotten { IsForgotten (state_of game.old) (state_of game.new) result }
{
    let Some(mut state) = game.take(alloc) else {
        return CLOSED;
    };
    let status = forget_in(alloc, &mut state);
    game.put(state);
    status
}

/// Lets go of the journal of a match, which keeps none from then on.
#[unsafe(no_mangle)]
pub extern "C" fn pathserve_keep_no_journal(alloc: Global, game: &mut Handle) -> u32
    requires handle { IsHandle game.old }
    ensures handle { IsHandle game.new }
    ensures unkept { IsUnkept (state_of game.old) (state_of game.new) result }
{
    let Some(mut state) = game.take(alloc) else {
        return CLOSED;
    };
    let status = keep_none_in(&mut state);
    game.put(state);
    status
}

/// Lets go of the journal of a match by structs; anything else has none.
fn keep_none_in(state: &mut State) -> u32
    ensures { IsUnkept (Some state.old) (Some state.new) result }
{
    match state {
        State::Structs(structs) => {
            structs.keep_no_journal();
            DONE
        }
        State::Text(_) | State::View(_) | State::Finder(_) => OTHER,
    }
}

/// Writes the snapshot of a view; of anything else nothing is written.
fn write_snapshot_of(alloc: Global, state: &State, buffer: &mut [u8], whole: &mut usize) -> u32
    ensures { IsSnapped (Some state.now) buffer.old buffer.new whole.old whole.new result }
{
    match state {
        State::View(version) => write_snapshot(alloc, version, buffer, whole),
        State::Text(_) | State::Structs(_) | State::Finder(_) => OTHER,
    }
}

/// Writes the snapshot of a version, where the buffer holds it.
fn write_snapshot(alloc: Global, version: &Version, buffer: &mut [u8], whole: &mut usize) -> u32
    ensures { IsSnapshot version.now buffer.old buffer.new whole.old whole.new result }
{
    let Ok(text) = snapshot(alloc, version) else {
        return NO_MEMORY;
    };
    *whole = text.len();
    if buffer.len() < text.len() {
        return SMALL;
    }
    buffer[..text.len()].copy_from_slice(text.as_slice());
    DONE
}

/// Begins the journal of a match by structs anew; anything else has none.
fn forget_in(alloc: Global, state: &mut State) -> u32
    ensures { IsForgotten (Some state.old) (Some state.new) result }
{
    match state {
        State::Structs(structs) => forget(alloc, structs),
        State::Text(_) | State::View(_) | State::Finder(_) => OTHER,
    }
}

/// Begins the journal of a match anew.
fn forget(alloc: Global, structs: &mut StructMatch) -> u32
    ensures { HasForgotten structs.old structs.new result ⊎ HasKept structs.old structs.new result }
{
    match structs.forget(alloc) {
        Ok(()) => DONE,
        Err(NoMemory) => NO_MEMORY,
    }
}
