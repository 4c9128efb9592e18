//! Why posts were not taken.
ghost use Rattle.std.specs.Prelude.{◌≡◌, Some, All, IfNone, IfSome};
ghost use Rattle.pathserve_c.specs.Checks.{IsChecked, IsFirstBad, IsPostOf, PostsChecked, number_of};
ghost use Rattle.pathserve_c.specs.Handles.{IsHandle, state_of};

use crate::handles::Handle;
use crate::states::State;
use crate::statuses::{BAD_VALUE, CLOSED, DONE, OTHER};
use flat_posts::{FlatFault, FlatPost};
use posts::MapSpec;
use std::alloc::Global;

/// There is no such kind of posts.
pub const WRONG_KIND: u32 = 1;

/// The map has no such caller.
pub const WRONG_CALLER: u32 = 2;

/// The map has no class of the number.
pub const WRONG_CLASS: u32 = 3;

/// There is no such kind of goals.
pub const WRONG_GOAL: u32 = 4;

/// A field that the kind does not use is not 0.
pub const NOT_ZERO: u32 = 5;

/// Tells whether a match by structs would take these posts, and else which is the first that it would not, and why. Nothing
/// is posted.
#[unsafe(no_mangle)]
pub extern "C" fn pathserve_check(
    alloc: Global,
    game: &mut Handle,
    posts: &[FlatPost],
    which: &mut usize,
    why: &mut u32,
) -> u32
    requires handle { IsHandle game.old }
    ensures handle { IsHandle game.new }
    ensures same { state_of game.new ≡ state_of game.old }
    ensures checked { IsChecked (state_of game.old) posts.now which.old which.new why.old why.new result }
{
    let Some(state) = game.take(alloc) else {
        return CLOSED;
    };
    let status = check_of(&state, posts, which, why);
    game.put(state);
    status
}

/// Checks posts for a match by structs; anything else tells nothing.
fn check_of(state: &State, posts: &[FlatPost], which: &mut usize, why: &mut u32) -> u32
    ensures { IsChecked (Some state.now) posts.now which.old which.new why.old why.new result }
{
    match state {
        State::Structs(structs) => check(structs.version().map(), posts, which, why),
        State::Text(_) | State::View(_) | State::Finder(_) => OTHER,
    }
}

/// Tells whether all of these are posts of the map, and else which is the first that is none, and why.
fn check(map: &MapSpec, posts: &[FlatPost], which: &mut usize, why: &mut u32) -> u32
    ensures { PostsChecked map.now posts.now which.old which.new why.old why.new result }
{
    match first_bad(map, posts) {
        Some((place, fault)) => {
            *which = place;
            *why = number_of(fault);
            BAD_VALUE
        }
        None => DONE,
    }
}

/// The first of these that is no post of the map, by its place, and what is wrong with it.
fn first_bad(map: &MapSpec, flats: &[FlatPost]) -> Option<(usize, FlatFault)>
    ensures some { IfSome result (λ bad. IsFirstBad map.now flats.now bad.0 bad.1) }
    ensures none { IfNone result (All (IsPostOf map.now) flats.now) }
{
    for (place, flat) in flats.iter().enumerate() {
        match flat.read(map) {
            Ok(_) => {}
            Err(fault) => return Some((place, fault)),
        }
    }
    None
}

/// The number of what is wrong with a post.
fn number_of(fault: FlatFault) -> u32
    ensures { result ≡ number_of fault }
{
    match fault {
        FlatFault::Kind => WRONG_KIND,
        FlatFault::Caller => WRONG_CALLER,
        FlatFault::Class => WRONG_CLASS,
        FlatFault::Goal => WRONG_GOAL,
        FlatFault::UnusedField => NOT_ZERO,
    }
}
