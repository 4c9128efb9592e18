//! Digests, for games that compare what their players were told.
ghost use Rattle.std.specs.Prelude.{◌≡◌, Some};
ghost use Rattle.match_play.specs.Digests.{digest_of};
ghost use Rattle.match_play.specs.Saved.{snapshot_of};
ghost use Rattle.match_play.specs.Posted.{turns_of};
ghost use Rattle.pathserve_c.specs.Digests.{IsTold, IsTurnDigest, IsViewDigest, digest_told};
ghost use Rattle.pathserve_c.specs.Handles.{IsHandle, state_of};

use crate::handles::Handle;
use crate::states::State;
use crate::statuses::{CLOSED, DONE, NO_MEMORY, OTHER};
use crate::struct_matches::StructMatch;
use grid_versions::Version;
use match_play::{digest_of, snapshot, turn_digest};
use std::alloc::Global;

/// Tells the digest of the answers of the turn that ended last.
#[unsafe(no_mangle)]
pub extern "C" fn pathserve_turn_digest(alloc: Global, game: &mut Handle, digest: &mut u64) -> u32
    requires handle { IsHandle game.old }
    ensures handle { IsHandle game.new }
    ensures same { state_of game.new ≡ state_of game.old }
    ensures told { IsTurnDigest (state_of game.old) digest.old digest.new result }
{
    let Some(state) = game.take(alloc) else {
        return CLOSED;
    };
    let status = tell_turn_of(alloc, &state, digest);
    game.put(state);
    status
}

/// Tells the digest of what a view shows.
#[unsafe(no_mangle)]
pub extern "C" fn pathserve_view_digest(alloc: Global, view: &mut Handle, digest: &mut u64) -> u32
    requires handle { IsHandle view.old }
    ensures handle { IsHandle view.new }
    ensures same { state_of view.new ≡ state_of view.old }
    ensures told { IsViewDigest (state_of view.old) digest.old digest.new result }
{
    let Some(state) = view.take(alloc) else {
        return CLOSED;
    };
    let status = tell_view_of(alloc, &state, digest);
    view.put(state);
    status
}

/// Tells the digest of the last turn of a match by structs; anything else has none.
fn tell_turn_of(alloc: Global, state: &State, digest: &mut u64) -> u32
    ensures { IsTurnDigest (Some state.now) digest.old digest.new result }
{
    match state {
        State::Structs(structs) => tell_turn(alloc, structs, digest),
        State::Text(_) | State::View(_) | State::Finder(_) => OTHER,
    }
}

/// Tells the digest of the last turn of a match, and where it has none that of no bytes.
fn tell_turn(alloc: Global, structs: &StructMatch, digest: &mut u64) -> u32
    ensures { IsTold (digest_told (turns_of structs.now.game.past) structs.now.told) digest.old digest.new result }
{
    if structs.turns() == 0 {
        *digest = 0;
        return DONE;
    }
    let Ok(found) = turn_digest(alloc, structs.told()) else {
        return NO_MEMORY;
    };
    *digest = found;
    DONE
}

/// Tells the digest of what a view shows; anything else shows nothing.
fn tell_view_of(alloc: Global, state: &State, digest: &mut u64) -> u32
    ensures { IsViewDigest (Some state.now) digest.old digest.new result }
{
    match state {
        State::View(version) => tell_view(alloc, version, digest),
        State::Text(_) | State::Structs(_) | State::Finder(_) => OTHER,
    }
}

/// Tells the digest of what stands on a version.
fn tell_view(alloc: Global, version: &Version, digest: &mut u64) -> u32
    ensures { IsTold (digest_of (snapshot_of version.now)) digest.old digest.new result }
{
    let Ok(text) = snapshot(alloc, version) else {
        return NO_MEMORY;
    };
    *digest = digest_of(text.as_slice());
    DONE
}
