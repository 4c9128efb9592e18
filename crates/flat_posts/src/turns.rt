//! What a turn comes to, its replies and its waypoints.
ghost use Rattle.std.specs.Prelude.{◌≡◌, ◌+◌, ◌++◌, ℕ, List, length, sum_by};
ghost use Rattle.posts.specs.declared.replies.Reply.{Reply};
ghost use Rattle.flat_posts.specs.Pages.{IsPage};
ghost use Rattle.flat_posts.specs.Replies.{caller_replies, in_bits, replies_to, reply_waypoints, turn_replies, turn_waypoints, waypoint_count, waypoints_of};
ghost use Rattle.flat_posts.specs.declared.cells.FlatCell.{FlatCell};
ghost use Rattle.flat_posts.specs.declared.replied.FlatReply.{FlatReply};
ghost use Rattle.flat_posts.specs.inner.Filling.{IsFilling};

use crate::cells::FlatCell;
use crate::pages::Filling;
use crate::posted::FlatPost;
use crate::replied::FlatReply;
use nav_types::Cell;
use posts::{Answer, Replies, Reply, TurnReplies};
use std::mem::size_of;

/// What a turn comes to: its number; how many regions, region edges and areas all classes have after it; how many replies
/// there are and waypoints in all of them; and in how many pairs of class and chunk some cell changed. A number that a
/// field is too narrow for is told as the field's greatest.
#[repr(C)]
#[derive(Clone, Copy, Debug, PartialEq, Eq)]
pub struct FlatTurn {
    pub turn: u64,
    pub regions: u64,
    pub edges: u64,
    pub areas: u64,
    pub replies: u64,
    pub waypoints: u64,
    pub relabelled: u32,
    pub zero: u32,
}

const _: () = prove!(size_of::<FlatTurn>() == 56);

impl FlatTurn {
    ghost use Rattle.flat_posts.specs.Replies.{flat_turn};

    /// What the turn of a number comes to (`flat_turn`).
    pub fn of(turn: u64, ended: &TurnReplies) -> FlatTurn
        ensures { result ≡ flat_turn turn ended.now }
    {
        let lists = ended.replies.as_slice();
        FlatTurn {
            turn,
            regions: ended.tallies.regions,
            edges: ended.tallies.edges,
            areas: ended.tallies.areas,
            replies: count_replies(lists),
            waypoints: count_waypoints(lists),
            relabelled: ended.relabelled,
            zero: 0,
        }
    }
}

/// How many replies there are.
fn count_replies(lists: &[Replies]) -> u64
    ensures { result ≡ in_bits 64 (sum_by length lists.now) }
{
    let mut count = 0;
    for replies in lists {
        count = with(count, replies.len());
    }
    count
}

/// How many waypoints there are.
fn count_waypoints(lists: &[Replies]) -> u64
    ensures { result ≡ in_bits 64 (sum_by (λ replies. sum_by waypoint_count replies) lists.now) }
{
    let mut count = 0;
    for replies in lists {
        count = with_waypoints(count, replies.as_slice());
    }
    count
}

/// The count and so many more.
fn with(count: u64, more: usize) -> u64
    ensures { (all : ℕ) → count ≡ in_bits 64 all → result ≡ in_bits 64 (all + more) }
{
    count.saturating_add(more as u64)
}

/// The count and the number of waypoints of replies.
fn with_waypoints(before: u64, replies: &[Reply]) -> u64
    ensures { (all : ℕ) → before ≡ in_bits 64 all → result ≡ in_bits 64 (all + sum_by waypoint_count replies.now) }
{
    let mut count = before;
    for reply in replies {
        count = with(count, waypoints_in(reply).len());
    }
    count
}

/// The waypoints of a reply: those of a path.
fn waypoints_in(reply: &Reply) -> &[Cell]
    ensures { result.now ≡ reply_waypoints reply.now }
{
    match reply {
        Reply::Answer(Answer::Path(path)) => path.waypoints.as_slice(),
        _ => &[],
    }
}

/// Writes the flat replies of a turn from the place `first` on, caller by caller and in the order of their posts, to the head
/// of the buffer (`IsPage`), and gives how many: as many as there are and as it holds.
///
/// It steps over all replies of the turn, so ask for many at once.
pub fn write_replies(ended: &TurnReplies, first: u64, buffer: &mut [FlatReply]) -> usize
    ensures { IsPage first (turn_replies ended.now.replies) buffer.old buffer.new result }
{
    let mut filling = Filling {
        ahead: first,
        count: 0,
    };
    let mut waypoints = 0;
    for (caller, replies) in ended.replies.as_slice().iter().enumerate() {
        take_replies(&mut filling, buffer, caller, waypoints, replies.as_slice());
        waypoints = with_waypoints(waypoints, replies.as_slice());
    }
    filling.count
}

/// Takes the replies to a caller, whose waypoints begin at the place `first` among those of the turn.
fn take_replies(
    filling: &mut Filling,
    buffer: &mut [FlatReply],
    caller: usize,
    first: u64,
    replies: &[Reply],
)
    ensures { (place before : ℕ) (all old : List FlatReply) → first ≡ in_bits 64 before
        → IsFilling place all old filling.old.ahead filling.old.count buffer.old
        → IsFilling place (all ++ caller_replies caller 0 before replies.now) old filling.new.ahead filling.new.count buffer.new }
{
    let mut next = first;
    for (post, reply) in replies.iter().enumerate() {
        filling.take_reply(buffer, FlatReply::of(caller, post, next, reply));
        next = with(next, waypoints_in(reply).len());
    }
}

/// Writes the flat replies to posts, one for each in their order (`replies_to`), to the head of the buffer, and gives how many:
/// as many as there are and as it holds.
pub fn write_replies_to(posts: &[FlatPost], replies: &[Reply], buffer: &mut [FlatReply]) -> usize
    requires { length replies.now ≡ length posts.now }
    ensures { IsPage 0 (replies_to posts.now replies.now) buffer.old buffer.new result }
{
    let mut filling = Filling { ahead: 0, count: 0 };
    let mut first = 0;
    for (place, reply) in replies.iter().enumerate() {
        let post = posts[place];
        filling.take_reply(
            buffer,
            FlatReply::of(usize::from(post.caller), place, first, reply),
        );
        first = with(first, waypoints_in(reply).len());
    }
    filling.count
}

/// Writes the waypoints of a turn from the place `first` on, those of each path together and in the order of the replies, to
/// the head of the buffer (`IsPage`), and gives how many: as many as there are and as it holds.
///
/// It steps over all replies of the turn, so ask for many at once.
pub fn write_waypoints(ended: &TurnReplies, first: u64, buffer: &mut [FlatCell]) -> usize
    ensures { IsPage first (turn_waypoints ended.now.replies) buffer.old buffer.new result }
{
    let mut filling = Filling {
        ahead: first,
        count: 0,
    };
    for replies in ended.replies.as_slice() {
        take_waypoints(&mut filling, buffer, replies.as_slice());
    }
    filling.count
}

/// Writes the waypoints of replies, those of each path together and in their order, to the head of the buffer (`IsPage`), and
/// gives how many: as many as there are and as it holds.
pub fn write_waypoints_of(replies: &[Reply], buffer: &mut [FlatCell]) -> usize
    ensures { IsPage 0 (waypoints_of replies.now) buffer.old buffer.new result }
{
    let mut filling = Filling { ahead: 0, count: 0 };
    take_waypoints(&mut filling, buffer, replies);
    filling.count
}

/// Takes the waypoints of replies.
fn take_waypoints(filling: &mut Filling, buffer: &mut [FlatCell], replies: &[Reply])
    ensures { (first : ℕ) (all old : List FlatCell) → IsFilling first all old filling.old.ahead filling.old.count buffer.old
        → IsFilling first (all ++ waypoints_of replies.now) old filling.new.ahead filling.new.count buffer.new }
{
    for reply in replies {
        filling.take_cells(buffer, waypoints_in(reply));
    }
}
