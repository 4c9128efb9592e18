//! Limits of what may wait, and of what may be fed.
ghost use Rattle.std.specs.Prelude.{Some};
ghost use Rattle.pathserve_c.specs.Handles.{IsHandle, state_of};
ghost use Rattle.pathserve_c.specs.Limits.{IsLimited, IsLineLimited};

use crate::handles::Handle;
use crate::states::State;
use crate::statuses::{CLOSED, DONE, OTHER};
use std::alloc::Global;

/// Lets at most so many posts wait for the end of a turn.
#[unsafe(no_mangle)]
pub extern "C" fn pathserve_limit_posts(alloc: Global, game: &mut Handle, most: usize) -> u32
    requires handle { IsHandle game.old }
    ensures handle { IsHandle game.new }
    ensures limited { IsLimited most (state_of game.old) (state_of game.new) result }
{
    let Some(mut state) = game.take(alloc) else {
        return CLOSED;
    };
    let status = limit_posts_of(&mut state, most);
    game.put(state);
    status
}

/// Lets a line of a match by text have at most so many bytes.
#[unsafe(no_mangle)]
pub extern "C" fn pathserve_limit_line(alloc: Global, game: &mut Handle, most: usize) -> u32
    requires handle { IsHandle game.old }
    ensures handle { IsHandle game.new }
    ensures limited { IsLineLimited most (state_of game.old) (state_of game.new) result }
{
    let Some(mut state) = game.take(alloc) else {
        return CLOSED;
    };
    let status = limit_line_of(&mut state, most);
    game.put(state);
    status
}

/// Limits the posts of a match by structs; anything else has none.
fn limit_posts_of(state: &mut State, most: usize) -> u32
    ensures { IsLimited most (Some state.old) (Some state.new) result }
{
    match state {
        State::Structs(structs) => {
            structs.limit(most);
            DONE
        }
        State::Text(_) | State::View(_) | State::Finder(_) => OTHER,
    }
}

/// Limits the lines of a match by text; anything else has none.
fn limit_line_of(state: &mut State, most: usize) -> u32
    ensures { IsLineLimited most (Some state.old) (Some state.new) result }
{
    match state {
        State::Text(text) => {
            text.limit_line(most);
            DONE
        }
        State::Structs(_) | State::View(_) | State::Finder(_) => OTHER,
    }
}
