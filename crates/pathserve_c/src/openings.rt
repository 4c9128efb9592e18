//! Matches by structs that are opened from a script.
ghost use Rattle.std.specs.Prelude.{◌≡◌, Some};
ghost use Rattle.pathserve_c.specs.Handles.{IsHandle, state_of};
ghost use Rattle.pathserve_c.specs.Saves.{IsOpenedBy, line_told, status_of_opening};

use crate::handles::Handle;
use crate::states::State;
use crate::statuses::{BAD_VALUE, DONE, NO_MEMORY, OPEN, status_of};
use crate::struct_matches::StructMatch;
use match_play::MatchFault;
use std::alloc::Global;

/// Why a script opens no match by structs.
#[derive(Clone, Copy, Debug, PartialEq, Eq)]
pub enum OpenFault {
    /// It says no match, or there was no memory.
    Script(MatchFault),
    /// It is of an older version than matches by structs are.
    OldVersion,
}

/// Opens a closed handle: a match in which a whole script was played.
#[unsafe(no_mangle)]
pub extern "C" fn pathserve_open_script(
    alloc: Global,
    game: &mut Handle,
    script: &[u8],
    bad_line: &mut u64,
) -> u32
    requires handle { IsHandle game.old }
    ensures handle { IsHandle game.new }
    ensures opened { IsOpenedBy script.now (state_of game.old) (state_of game.new) bad_line.old bad_line.new result }
{
    if game.live != 0 {
        return OPEN;
    }
    let opened = match StructMatch::open_script(alloc, script) {
        Ok(opened) => opened,
        Err(fault) => {
            *bad_line = line_told(fault, *bad_line);
            return status_of_opening(fault);
        }
    };
    match game.open(alloc, State::Structs(opened)) {
        Ok(()) => DONE,
        Err(_) => NO_MEMORY,
    }
}

/// The status of a refusal.
fn status_of_opening(fault: OpenFault) -> u32
    ensures { result ≡ status_of_opening fault }
{
    match fault {
        OpenFault::Script(fault) => status_of(Err(fault)),
        OpenFault::OldVersion => BAD_VALUE,
    }
}

/// The number of the line at which a script stops, or else what stood there.
fn line_told(fault: OpenFault, old: u64) -> u64
    ensures { result ≡ line_told fault old }
{
    match fault {
        OpenFault::Script(MatchFault::BadLine(number)) => number,
        OpenFault::Script(MatchFault::TooLong(number)) => number,
        OpenFault::Script(MatchFault::Ended)
        | OpenFault::Script(MatchFault::NoMemory)
        | OpenFault::OldVersion => old,
    }
}
