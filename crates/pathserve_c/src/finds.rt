//! Requests that are answered at once on what a view shows.
ghost use Rattle.std.specs.Prelude.{◌≡◌, ℕ, Some, IfSome, IsNone};
ghost use Rattle.posts.specs.declared.posts.Post.TheVariants.{Ask};
ghost use Rattle.posts.specs.declared.posts.Request.{Request};
ghost use Rattle.flat_posts.specs.Posts.{IsPost};
ghost use Rattle.pathserve_c.specs.Finds.{FindsAs, IsFound};
ghost use Rattle.pathserve_c.specs.Handles.{IsHandle, state_of};

use crate::finders::Finder;
use crate::handles::Handle;
use crate::states::State;
use crate::statuses::{CLOSED, OTHER, PostFault, status_of_posts};
use flat_posts::{FlatCell, FlatPost, FlatReply, write_waypoints_of};
use grid_versions::Version;
use posts::{Post, Reply, Request};
use std::alloc::Global;
use std::slice;

/// Answers a post that asks for something at once, on what a view shows.
#[unsafe(no_mangle)]
pub extern "C" fn pathserve_find(
    alloc: Global,
    view: &mut Handle,
    post: &FlatPost,
    reply: &mut FlatReply,
    waypoints: &mut [FlatCell],
) -> u32
    requires handle { IsHandle view.old }
    ensures handle { IsHandle view.new }
    ensures same { state_of view.new ≡ state_of view.old }
    ensures found { IsFound (state_of view.old) post.now reply.old reply.new waypoints.old waypoints.new result }
{
    find_seen(alloc, &mut Finder::new(), view, post, reply, waypoints)
}

/// Answers a post on what a view shows.
pub(crate) fn find_seen(
    alloc: Global,
    finder: &mut Finder,
    view: &mut Handle,
    post: &FlatPost,
    reply: &mut FlatReply,
    waypoints: &mut [FlatCell],
) -> u32
    requires handle { IsHandle view.old }
    ensures handle { IsHandle view.new }
    ensures same { state_of view.new ≡ state_of view.old }
    ensures found { IsFound (state_of view.old) post.now reply.old reply.new waypoints.old waypoints.new result }
{
    let Some(state) = view.take(alloc) else {
        return CLOSED;
    };
    let status = find_in(alloc, finder, &state, post, reply, waypoints);
    view.put(state);
    status
}

/// Answers a post on what a handle shows; anything else than a view refuses.
fn find_in(
    alloc: Global,
    finder: &mut Finder,
    state: &State,
    post: &FlatPost,
    reply: &mut FlatReply,
    waypoints: &mut [FlatCell],
) -> u32
    ensures { IsFound (Some state.now) post.now reply.old reply.new waypoints.old waypoints.new result }
{
    match state {
        State::View(version) => status_of_posts(find(
            alloc, finder, version, post, reply, waypoints,
        )),
        State::Text(_) | State::Structs(_) | State::Finder(_) => OTHER,
    }
}

/// Answers a post on a version. Where it refuses nothing is written.
#[tactic(auto, using(crate::proofs::Asking::page_of_one))]
fn find(
    alloc: Global,
    finder: &mut Finder,
    version: &Version,
    post: &FlatPost,
    reply: &mut FlatReply,
    waypoints: &mut [FlatCell],
) -> Result<(), PostFault>
    ensures { FindsAs version.now post.now reply.old reply.new waypoints.old waypoints.new result }
{
    let Some((caller, request)) = asked(version, post) else {
        return Err(PostFault::BadValue);
    };
    let Ok(answer) = finder.answer(alloc, version, &request) else {
        return Err(PostFault::NoMemory);
    };
    let told = Reply::Answer(answer);
    *reply = FlatReply::of(usize::from(caller), 0, 0, &told);
    write_waypoints_of(slice::from_ref(&told), waypoints);
    Ok(())
}

/// The request that a post is on the map of a version, with its caller. None exactly where it is none.
#[tactic(auto, using(crate::proofs::Asking::edit_asks_nothing))]
pub(crate) fn asked(version: &Version, post: &FlatPost) -> Option<(u8, Request)>
    ensures some { IfSome result (λ asked. IsPost version.now.map post.now asked.0 (Ask asked.1)) }
    ensures none { IsNone result → (caller : ℕ) (request : Request)
        → IsPost version.now.map post.now caller (Ask request) → ⊥ }
{
    match post.read(version.map()) {
        Ok((caller, Post::Ask(request))) => Some((caller, request)),
        Ok((_, Post::Edit(_))) => None,
        Err(_) => None,
    }
}
