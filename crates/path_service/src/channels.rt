//! The driver's ends of the lanes of its callers.
ghost use Rattle.std.specs.Prelude.{◌≡◌, ◌^◌, ◌<◌, ◌≤◌, ◌++◌, List, Ok, length, All};
ghost use Rattle.posts.specs.declared.posts.Post.{Post as APost};
ghost use Rattle.posts.specs.declared.replies.Reply.{Reply as AReply};
ghost use Rattle.path_service.specs.inner.Zips.{AllPaired};
ghost use Rattle.path_service.specs.inner.Channels.{IsInRoom, HasRoomFor, TakesPosts, FillsPort, FillsAt, FillsPorts};
ghost use Rattle.path_service.specs.inner.Channels.{HasRoomOn, SendsPart, SendsAt, SendsParts};

use nav_types::{NoMemory, Sequence};
use request_lanes::{LaneIn, LaneOut};
use std::alloc::Global;
use std::mem;
use std::sync::Wait;
use turn_core::{Post, Posts, Replies, Reply};

/// The driver's ends of the two lanes of a caller.
#[derive(Drop)]
pub(crate) struct Channel {
    pub posts: LaneOut<Post>,
    pub replies: LaneIn<Reply>,
}

/// Takes posts off a lane, behind the pending ones, until it is found empty or there is no room for more, and answers how
/// much room is left. Memory is taken before each post, so each post that is taken is pending.
fn take_posts(
    rt: &impl Wait,
    lane: &mut LaneOut<Post>,
    pending: &mut Vec<Post>,
    room: u64,
) -> Result<u64, NoMemory>
    ensures { (got : List APost) × TakesPosts lane.old lane.new pending.old.items pending.new.items room result got }
{
    let mut left = room;
    'taking: while left > 0 {
        pending.reserve(1)?;
        let Some(next) = lane.take(rt) else {
            return Ok(left);
        };
        let (_, post) = next;
        pending.push_reserved(post);
        left -= 1;
    }
    Ok(left)
}

impl Channel {
    /// Takes posts off the lane where there is room left, and answers how much room is left then.
    fn fill(
        &mut self,
        rt: &impl Wait,
        alloc: Global,
        pending: &mut Posts,
        room: Result<u64, NoMemory>,
    ) -> Result<u64, NoMemory>
        ensures { (got : List APost) × FillsPort self.old self.new pending.old pending.new room result got }
    {
        match room {
            Ok(room) => self.fill_to(rt, alloc, pending, room),
            Err(NoMemory) => Err(NoMemory),
        }
    }

    /// Takes so many posts at most off the lane, and answers how much room is left.
    fn fill_to(
        &mut self,
        rt: &impl Wait,
        alloc: Global,
        pending: &mut Posts,
        room: u64,
    ) -> Result<u64, NoMemory>
        ensures { (got : List APost) × FillsPort self.old self.new pending.old pending.new (Ok room) result got }
    {
        let mut posts = mem::replace(pending, Sequence::new(alloc)).into_items();
        let left = take_posts(rt, &mut self.posts, &mut posts, room);
        *pending = Sequence::from(posts);
        left
    }
}

/// Takes posts off all lanes, behind the pending ones, and answers how much room is left. Where memory is short it takes no
/// more.
pub(crate) fn fill_all(
    rt: &impl Wait,
    alloc: Global,
    channels: &mut Vec<Channel>,
    all_pending: &mut Vec<Posts>,
    room: u64,
) -> Result<u64, NoMemory>
    requires wide { length all_pending.old.items ≡ length channels.old.items }
    requires room { All IsInRoom channels.old.items }
    ensures { (got : List (List APost)) × FillsPorts channels.old.items channels.new.items all_pending.old.items all_pending.new.items room result got }
{
    let mut left = Ok(room);
    for caller in 0..channels.len() {
        left = fill_at(rt, alloc, channels, all_pending, caller, left);
    }
    left
}

/// Takes posts off the lane of one caller.
fn fill_at(
    rt: &impl Wait,
    alloc: Global,
    channels: &mut Vec<Channel>,
    all_pending: &mut Vec<Posts>,
    caller: usize,
    room: Result<u64, NoMemory>,
) -> Result<u64, NoMemory>
    requires channel { caller < length channels.old.items }
    requires pending { caller < length all_pending.old.items }
    ensures { (got : List APost) × FillsAt channels.old.items channels.new.items all_pending.old.items all_pending.new.items caller room result got }
{
    let channel = &mut channels[caller];
    channel.fill(rt, alloc, &mut all_pending[caller], room)
}

/// Sends replies on a lane. Where memory is short the first of them are sent.
fn send_replies(
    rt: &impl Wait,
    alloc: Global,
    lane: &mut LaneIn<Reply>,
    replies: &[Reply],
) -> Result<(), NoMemory>
    requires { length (lane.old.posted ++ replies.now) ≤ 2 ^ 62 }
    ensures { (part : List AReply) × SendsPart lane.old lane.new replies.now result part }
{
    for reply in replies {
        let copied = reply.copy(alloc)?;
        let Ok(_place) = lane.post(rt, copied) else {
            return Err(NoMemory);
        };
    }
    Ok(())
}

/// Sends the replies of one caller.
fn send_at(
    rt: &impl Wait,
    alloc: Global,
    channels: &mut Vec<Channel>,
    caller: usize,
    replies: &[Reply],
) -> Result<(), NoMemory>
    requires channel { caller < length channels.old.items }
    requires room { HasRoomFor channels.old.items caller replies.now }
    ensures { (part : List AReply) × SendsAt channels.old.items channels.new.items caller replies.now result part }
{
    let channel = &mut channels[caller];
    send_replies(rt, alloc, &mut channel.replies, replies)
}

/// Sends each caller its replies, caller by caller. Where memory is short the first of them are sent.
pub(crate) fn send_all(
    rt: &impl Wait,
    alloc: Global,
    channels: &mut Vec<Channel>,
    replies: &[Replies],
) -> Result<(), NoMemory>
    requires wide { length replies.now ≡ length channels.old.items }
    requires room { AllPaired HasRoomOn channels.old.items replies.now }
    ensures { (parts : List (List AReply)) × SendsParts channels.old.items channels.new.items replies.now result parts }
{
    for (caller, list) in replies.iter().enumerate() {
        send_at(rt, alloc, channels, caller, list.as_slice())?;
    }
    Ok(())
}
