//! Requests that are answered at once within a greatest cost.
ghost use Rattle.std.specs.Prelude.{◌≡◌, IfOk, Some};
ghost use Rattle.flat_posts.specs.Replies.{bare_reply};
ghost use Rattle.flat_posts.specs.declared.reply_kinds.TheConstants.{TOO_FAR};
ghost use Rattle.turn_core.specs.Within.{IsAnswerWithin};
ghost use Rattle.pathserve_c.specs.Handles.{IsHandle, state_of};
ghost use Rattle.pathserve_c.specs.NearFinds.{FindsWithinAs, IsFoundWithin, IsFoundWithinBy};

use crate::finders::Finder;
use crate::finds::asked;
use crate::handles::Handle;
use crate::states::State;
use crate::statuses::{CLOSED, OTHER, PostFault, status_of_posts};
use flat_posts::reply_kinds::TOO_FAR;
use flat_posts::{FlatCell, FlatPost, FlatReply, write_waypoints_of};
use grid_versions::Version;
use nav_types::NoMemory;
use posts::{Answer, Reply, Request};
use std::alloc::Global;
use std::slice;
use turn_core::{Pool, solve_within};

/// A post, and what the answer to it costs at most.
#[derive(Clone, Copy)]
struct NearPost {
    post: FlatPost,
    most: u64,
}

/// Answers a post that asks for something at once, on what a view shows, in the room that a finder keeps: a path that costs at
/// most `most`, and else *too far*.
#[unsafe(no_mangle)]
pub extern "C" fn pathserve_find_within(
    alloc: Global,
    finder: &mut Handle,
    view: &mut Handle,
    post: &FlatPost,
    most: u64,
    reply: &mut FlatReply,
    waypoints: &mut [FlatCell],
) -> u32
    requires handle { IsHandle finder.old }
    requires view { IsHandle view.old }
    ensures handle { IsHandle finder.new }
    ensures same { state_of finder.new ≡ state_of finder.old }
    ensures view { IsHandle view.new }
    ensures seen { state_of view.new ≡ state_of view.old }
    ensures found { IsFoundWithinBy (state_of finder.old) (state_of view.old) post.now most reply.old reply.new
        waypoints.old waypoints.new result }
{
    let Some(mut state) = finder.take(alloc) else {
        return CLOSED;
    };
    let near = NearPost { post: *post, most };
    let status = match &mut *state {
        State::Finder(finder) => within_seen(alloc, finder, view, &near, reply, waypoints),
        State::Text(_) | State::Structs(_) | State::View(_) => OTHER,
    };
    finder.put(state);
    status
}

/// Answers a post on what a view shows.
fn within_seen(
    alloc: Global,
    finder: &mut Finder,
    view: &mut Handle,
    near: &NearPost,
    reply: &mut FlatReply,
    waypoints: &mut [FlatCell],
) -> u32
    requires handle { IsHandle view.old }
    ensures handle { IsHandle view.new }
    ensures same { state_of view.new ≡ state_of view.old }
    ensures found { IsFoundWithin (state_of view.old) near.now.post near.now.most reply.old reply.new waypoints.old
        waypoints.new result }
{
    let Some(state) = view.take(alloc) else {
        return CLOSED;
    };
    let status = within_in(alloc, finder, &state, near, reply, waypoints);
    view.put(state);
    status
}

/// Answers a post on what a handle shows; anything else than a view refuses.
fn within_in(
    alloc: Global,
    finder: &mut Finder,
    state: &State,
    near: &NearPost,
    reply: &mut FlatReply,
    waypoints: &mut [FlatCell],
) -> u32
    ensures { IsFoundWithin (Some state.now) near.now.post near.now.most reply.old reply.new waypoints.old waypoints.new
        result }
{
    match state {
        State::View(version) => status_of_posts(find_within(
            alloc, finder, version, near, reply, waypoints,
        )),
        State::Text(_) | State::Structs(_) | State::Finder(_) => OTHER,
    }
}

/// Answers a post on a version. Where it refuses nothing is written.
#[tactic(auto, using(crate::proofs::Asking::page_of_told, crate::proofs::Asking::page_of_none))]
fn find_within(
    alloc: Global,
    finder: &mut Finder,
    version: &Version,
    near: &NearPost,
    reply: &mut FlatReply,
    waypoints: &mut [FlatCell],
) -> Result<(), PostFault>
    ensures { FindsWithinAs version.now near.now.post near.now.most reply.old reply.new waypoints.old waypoints.new result }
{
    let Some((caller, request)) = asked(version, &near.post) else {
        return Err(PostFault::BadValue);
    };
    let Ok(answer) = finder.answer_within(alloc, version, &request, near.most) else {
        return Err(PostFault::NoMemory);
    };
    let Some(answer) = answer else {
        *reply = too_far(caller);
        return Ok(());
    };
    let told = Reply::Answer(answer);
    *reply = FlatReply::of(usize::from(caller), 0, 0, &told);
    write_waypoints_of(slice::from_ref(&told), waypoints);
    Ok(())
}

/// The reply to a caller's path that is too far.
fn too_far(caller: u8) -> FlatReply
    ensures { result ≡ bare_reply TOO_FAR caller 0 }
{
    FlatReply {
        kind: TOO_FAR,
        ..FlatReply::of(usize::from(caller), 0, 0, &Reply::Answer(Answer::Nowhere))
    }
}

impl Finder {
    /// The answer to a request on a version that costs at most `most`, and None exactly where it is a path that costs more. It
    /// refuses for want of memory alone, and can be asked again.
    fn answer_within(
        &mut self,
        alloc: Global,
        version: &Version,
        request: &Request,
        most: u64,
    ) -> Result<Option<Answer>, NoMemory>
        ensures { IfOk result (IsAnswerWithin version.now.map version.now.standing request.now most) }
    {
        let mut room = match self.room.take() {
            Some(room) => room,
            None => Pool::new(alloc)?,
        };
        let answer = solve_within(alloc, version, &mut room, request, most)?;
        self.keep(room);
        Ok(answer)
    }
}
