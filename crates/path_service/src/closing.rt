//! Services that have ended.
ghost use Rattle.std.specs.Prelude.{◌≡◌, ◌≤◌, [], length, vec_capacity};
ghost use Rattle.path_service.specs.inner.Closing.{IsPortOf, ArePortsOf, ClosesPort, ClosePorts};

use crate::callers::{EndedCaller, EndedCallers};
use crate::channels::Channel;
use grid_versions::MapSpec;
use nav_types::Sequence;
use request_lanes::Whole;
use std::marker::Model;
use std::sync::Wait;
use turn_core::{AllReplies, Journal, Post, Reply};

/// The lanes of a caller that has ended: what it posted, of which the driver took the first, and what the driver sent to
/// it, of which it collected the first.
#[derive(Drop)]
pub struct ClosedCaller {
    pub posts_left: Whole<Post>,
    pub replies_left: Whole<Reply>,
}

/// The callers of a service that has ended, by their numbers.
pub type ClosedCallers = Sequence<ClosedCaller>;

/// A service that has ended, as `Driver::close` gives it. Contracts see the map, the turns that were delivered, the
/// replies to them, and the callers' lanes (`ClosedState`).
#[derive(Drop)]
pub struct Closed {
    map: MapSpec,
    journal: Journal,
    replies: AllReplies,
    callers: ClosedCallers,
}

impl Model for Closed {
    ghost use Rattle.path_service.specs.Closings.{ClosedState};

    ghost Value = { ClosedState };

    ghost view = { λ c. record { map = c.map; journal = c.journal; replies = c.replies; callers = c.callers } };
}

impl Closed {
    /// A service with these parts.
    pub(crate) fn new(
        map: MapSpec,
        journal: Journal,
        replies: AllReplies,
        callers: ClosedCallers,
    ) -> Closed
        ensures { result ≡ record { map = map; journal = journal; replies = replies; callers = callers } }
    {
        Closed {
            map,
            journal,
            replies,
            callers,
        }
    }

    /// The map of the service.
    pub fn map(&self) -> &MapSpec
        ensures { result.now ≡ self.now.map }
    {
        &self.map
    }

    /// The turns that were delivered, in their order.
    pub fn journal(&self) -> &Journal
        ensures { result.now ≡ self.now.journal }
    {
        &self.journal
    }

    /// The replies to the turns that were delivered.
    pub fn replies(&self) -> &AllReplies
        ensures { result.now ≡ self.now.replies }
    {
        &self.replies
    }

    /// The callers' lanes, by the callers' numbers.
    pub fn into_callers(self) -> ClosedCallers
        ensures { result ≡ self.callers }
    {
        self.callers
    }
}

/// Closes the lanes of all callers, into the room that was taken for them.
pub(crate) fn close_all(
    rt: &impl Wait,
    room: Vec<ClosedCaller>,
    channels: Vec<Channel>,
    ended: EndedCallers,
) -> ClosedCallers
    requires lanes { ArePortsOf channels.items ended }
    requires empty { room.items ≡ [] }
    requires room { length channels.items ≤ vec_capacity room }
    ensures { ClosePorts channels.items ended result }
{
    let mut closed = room;
    let mut callers = ended.into_items().into_iter();
    for channel in channels {
        let Some(caller) = callers.next() else {
            unreachable!();
        };
        closed.push_reserved(close_port(rt, channel, caller));
    }
    Sequence::from(closed)
}

/// Closes the two lanes of a caller.
fn close_port(rt: &impl Wait, channel: Channel, ended: EndedCaller) -> ClosedCaller
    requires { IsPortOf channel ended }
    ensures { ClosesPort channel ended result }
{
    let (posts, replies) = ended.into_ends();
    ClosedCaller {
        posts_left: channel.posts.finish(rt, posts),
        replies_left: replies.finish(rt, channel.replies.end()),
    }
}
