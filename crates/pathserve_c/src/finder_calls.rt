//! Calls of finders.
ghost use Rattle.std.specs.Prelude.{◌≡◌};
ghost use Rattle.pathserve_c.specs.Finders.{AreFoundBy, AreFoundIn, FindsAllAs, IsFinderOpened, IsFoundBy};
ghost use Rattle.pathserve_c.specs.Handles.{IsHandle, state_of};

use crate::finders::Finder;
use crate::finds::find_seen;
use crate::handles::Handle;
use crate::states::State;
use crate::statuses::{CLOSED, DONE, NO_MEMORY, OPEN, OTHER, PostFault, status_of_posts};
use flat_posts::{FlatCell, FlatPost, FlatReply, write_replies_to, write_waypoints_of};
use grid_versions::Version;
use std::alloc::Global;

/// Opens a closed handle: a finder, which keeps the room of its searches.
#[unsafe(no_mangle)]
pub extern "C" fn pathserve_finder_open(alloc: Global, finder: &mut Handle) -> u32
    requires handle { IsHandle finder.old }
    ensures handle { IsHandle finder.new }
    ensures opened { IsFinderOpened (state_of finder.old) (state_of finder.new) result }
{
    if finder.live != 0 {
        return OPEN;
    }
    match finder.open(alloc, State::Finder(Finder::new())) {
        Ok(()) => DONE,
        Err(_) => NO_MEMORY,
    }
}

/// Closes a finder. A closed one stays closed.
#[unsafe(no_mangle)]
pub extern "C" fn pathserve_finder_close(alloc: Global, finder: &mut Handle)
    requires handle { IsHandle finder.old }
    ensures handle { IsHandle finder.new }
    ensures closed { finder.new.live ≡ 0 }
{
    drop(finder.take(alloc));
}

/// Answers a post that asks for something at once, on what a view shows, in the room that a finder keeps.
#[unsafe(no_mangle)]
pub extern "C" fn pathserve_find_with(
    alloc: Global,
    finder: &mut Handle,
    view: &mut Handle,
    post: &FlatPost,
    reply: &mut FlatReply,
    waypoints: &mut [FlatCell],
) -> u32
    requires handle { IsHandle finder.old }
    requires view { IsHandle view.old }
    ensures handle { IsHandle finder.new }
    ensures same { state_of finder.new ≡ state_of finder.old }
    ensures view { IsHandle view.new }
    ensures seen { state_of view.new ≡ state_of view.old }
    ensures found { IsFoundBy (state_of finder.old) (state_of view.old) post.now reply.old reply.new
        waypoints.old waypoints.new result }
{
    let Some(mut state) = finder.take(alloc) else {
        return CLOSED;
    };
    let status = match &mut *state {
        State::Finder(finder) => find_seen(alloc, finder, view, post, reply, waypoints),
        State::Text(_) | State::Structs(_) | State::View(_) => OTHER,
    };
    finder.put(state);
    status
}

/// Answers posts that ask for something at once, on what a view shows, in the room that a finder keeps.
#[unsafe(no_mangle)]
pub extern "C" fn pathserve_find_all(
    alloc: Global,
    finder: &mut Handle,
    view: &mut Handle,
    posts: &[FlatPost],
    replies: &mut [FlatReply],
    waypoints: &mut [FlatCell],
) -> u32
    requires handle { IsHandle finder.old }
    requires view { IsHandle view.old }
    ensures handle { IsHandle finder.new }
    ensures same { state_of finder.new ≡ state_of finder.old }
    ensures view { IsHandle view.new }
    ensures seen { state_of view.new ≡ state_of view.old }
    ensures found { AreFoundBy (state_of finder.old) (state_of view.old) posts.now replies.old replies.new
        waypoints.old waypoints.new result }
{
    let Some(mut state) = finder.take(alloc) else {
        return CLOSED;
    };
    let status = match &mut *state {
        State::Finder(finder) => find_all_seen(alloc, finder, view, posts, replies, waypoints),
        State::Text(_) | State::Structs(_) | State::View(_) => OTHER,
    };
    finder.put(state);
    status
}

/// Answers posts on what a view shows.
fn find_all_seen(
    alloc: Global,
    finder: &mut Finder,
    view: &mut Handle,
    posts: &[FlatPost],
    replies: &mut [FlatReply],
    waypoints: &mut [FlatCell],
) -> u32
    requires view { IsHandle view.old }
    ensures view { IsHandle view.new }
    ensures seen { state_of view.new ≡ state_of view.old }
    ensures found { AreFoundIn (state_of view.old) posts.now replies.old replies.new waypoints.old waypoints.new result }
{
    let Some(state) = view.take(alloc) else {
        return CLOSED;
    };
    let status = match &*state {
        State::View(version) => {
            status_of_posts(find_all(alloc, finder, version, posts, replies, waypoints))
        }
        State::Text(_) | State::Structs(_) | State::Finder(_) => OTHER,
    };
    view.put(state);
    status
}

/// Answers posts on a version. Where it refuses nothing is written.
fn find_all(
    alloc: Global,
    finder: &mut Finder,
    version: &Version,
    posts: &[FlatPost],
    replies: &mut [FlatReply],
    waypoints: &mut [FlatCell],
) -> Result<(), PostFault>
    ensures { FindsAllAs version.now posts.now replies.old replies.new waypoints.old waypoints.new result }
{
    match finder.answers(alloc, version, posts) {
        Ok(answered) => {
            write_replies_to(posts, answered.as_slice(), replies);
            write_waypoints_of(answered.as_slice(), waypoints);
            Ok(())
        }
        Err(fault) => Err(fault),
    }
}
