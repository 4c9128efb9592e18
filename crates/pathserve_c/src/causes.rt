//! Why a line of a script is bad.
ghost use Rattle.std.specs.Prelude.{◌≡◌, IfOk, Some, string_bytes};
ghost use Rattle.pathserve_c.specs.Causes.{IsBadLineTold, IsCauseTold, IsScriptTold, IsTextTold, cause_of, cause_said, number_of};
ghost use Rattle.pathserve_c.specs.Handles.{IsHandle, state_of};
ghost use Rattle.match_play.specs.Playing.{bad_cause};

use crate::handles::Handle;
use crate::states::State;
use crate::statuses::{CLOSED, DONE, NO_MEMORY, OTHER, SMALL};
use crate::text_matches::TextMatch;
use match_play::{NumberedCause, bad_line_of};
use nav_types::NoMemory;
use script_text::Cause;
use std::alloc::Global;

/// Tells why the line is bad at which a match by text has stopped, as the program says it: nothing of one that has met no bad
/// line.
#[unsafe(no_mangle)]
pub extern "C" fn pathserve_cause(
    alloc: Global,
    game: &mut Handle,
    buffer: &mut [u8],
    whole: &mut usize,
) -> u32
    requires handle { IsHandle game.old }
    ensures handle { IsHandle game.new }
    ensures same { state_of game.new ≡ state_of game.old }
    ensures told { IsCauseTold (state_of game.old) buffer.old buffer.new whole.old whole.new result }
{
    let Some(state) = game.take(alloc) else {
        return CLOSED;
    };
    let status = tell_cause_of(alloc, &state, buffer, whole);
    game.put(state);
    status
}

/// Tells the bad line at which a script stops and why it is bad, as the program says it: no line of one that is whole.
#[unsafe(no_mangle)]
pub extern "C" fn pathserve_script_cause(
    alloc: Global,
    script: &[u8],
    bad_line: &mut u64,
    buffer: &mut [u8],
    whole: &mut usize,
) -> u32
    ensures told { IsScriptTold script.now bad_line.old bad_line.new buffer.old buffer.new whole.old whole.new result }
{
    match bad_line_of(alloc, script) {
        Ok(found) => tell_bad_line(alloc, found, bad_line, buffer, whole),
        Err(NoMemory) => NO_MEMORY,
    }
}

/// Tells the cause of a match by text; of anything else nothing is told.
fn tell_cause_of(alloc: Global, state: &State, buffer: &mut [u8], whole: &mut usize) -> u32
    ensures { IsCauseTold (Some state.now) buffer.old buffer.new whole.old whole.new result }
{
    match state {
        State::Text(text) => tell_cause(alloc, text, buffer, whole),
        State::Structs(_) | State::View(_) | State::Finder(_) => OTHER,
    }
}

/// Tells the cause of a match, where the buffer holds its text.
fn tell_cause(alloc: Global, text: &TextMatch, buffer: &mut [u8], whole: &mut usize) -> u32
    ensures { IsTextTold (cause_said (bad_cause text.now.game)) buffer.old buffer.new whole.old whole.new result }
{
    match text.cause(alloc) {
        Ok(found) => tell(alloc, found, buffer, whole),
        Err(NoMemory) => NO_MEMORY,
    }
}

/// Tells what a script's bad line is, and where the buffer holds its text why it is bad.
fn tell_bad_line(
    alloc: Global,
    found: Option<NumberedCause>,
    bad_line: &mut u64,
    buffer: &mut [u8],
    whole: &mut usize,
) -> u32
    ensures { IsBadLineTold found bad_line.old bad_line.new buffer.old buffer.new whole.old whole.new result }
{
    let number = number_of(&found);
    let status = tell(alloc, cause_of(found), buffer, whole);
    if status != NO_MEMORY {
        *bad_line = number;
    }
    status
}

/// The number of a bad line: 0 where there is none.
fn number_of(found: &Option<NumberedCause>) -> u64
    ensures { result ≡ number_of found.now }
{
    match found {
        Some(bad) => bad.number,
        None => 0,
    }
}

/// Why a line is bad, where there is a bad one.
fn cause_of(found: Option<NumberedCause>) -> Option<Cause>
    ensures { result ≡ cause_of found }
{
    match found {
        Some(NumberedCause { cause, .. }) => Some(cause),
        None => None,
    }
}

/// Tells a cause, where the buffer holds its text.
fn tell(alloc: Global, found: Option<Cause>, buffer: &mut [u8], whole: &mut usize) -> u32
    ensures { IsTextTold (cause_said found) buffer.old buffer.new whole.old whole.new result }
{
    let Ok(said) = said_of(alloc, found) else {
        return NO_MEMORY;
    };
    *whole = said.len();
    if buffer.len() < said.len() {
        return SMALL;
    }
    buffer[..said.len()].copy_from_slice(said.as_bytes());
    DONE
}

/// What a cause says: nothing where there is none.
fn said_of(alloc: Global, found: Option<Cause>) -> Result<String, NoMemory>
    ensures { IfOk result (λ said. string_bytes said ≡ cause_said found) }
{
    match found {
        Some(cause) => Ok(cause.to_string(alloc)?),
        None => Ok(String::new(alloc)),
    }
}
