//! Callers.
ghost use Rattle.std.specs.Prelude.{◌≡◌, ◌^◌, ◌<◌, ◌≤◌, max, [], ◌∷◌, ◌++◌, length, IfOk, IfErr, IfSome, IfNone, OnOk, OnErr};
ghost use Rattle.path_service.specs.Callers.{fresh};

use nav_types::{NoMemory, Sequence};
use request_lanes::{Ended, LaneIn, LaneOut, Notice};
use std::marker::Model;
use std::sync::Wait;
use turn_core::{Post, Reply};

/// A caller of a service, which may be with a thread of its own. Contracts see who it is, all that it posted, all
/// replies that it collected, and of how many replies it was told (`CallerState`).
#[derive(Drop)]
pub struct Caller {
    number: u8,
    posts: LaneIn<Post>,
    replies: LaneOut<Reply>,
}

impl Model for Caller {
    ghost use Rattle.path_service.specs.Callers.{CallerState};

    ghost Value = { CallerState };

    ghost view = { λ c. record {
      id = record { number = c.number; posts = c.posts.lane; replies = c.replies.lane };
      posted = c.posts.posted;
      collected = c.replies.taken;
      told = c.replies.told;
    } };
}

/// A caller that posts and collects nothing more. Contracts see who it is, all that it posted and all replies that it
/// collected (`EndedState`).
#[derive(Drop)]
pub struct EndedCaller {
    number: u8,
    posts: Ended<Post>,
    replies: LaneOut<Reply>,
}

impl Model for EndedCaller {
    ghost use Rattle.path_service.specs.Callers.{EndedState};

    ghost Value = { EndedState };

    ghost view = { λ c. record {
      id = record { number = c.number; posts = c.posts.lane; replies = c.replies.lane };
      posted = c.posts.posted;
      collected = c.replies.taken;
    } };
}

/// The callers of a service, by their numbers.
pub type Callers = Sequence<Caller>;

/// The ended callers of a service, by their numbers.
pub type EndedCallers = Sequence<EndedCaller>;

impl Caller {
    /// A caller of this number, with its ends of two lanes on which there was nothing yet.
    pub(crate) fn new(number: u8, posts: LaneIn<Post>, replies: LaneOut<Reply>) -> Caller
        requires posted { posts.posted ≡ [] }
        requires taken { replies.taken ≡ [] }
        requires told { replies.told ≡ 0 }
        ensures { result ≡ fresh (record { number = number; posts = posts.lane; replies = replies.lane }) }
    {
        Caller {
            number,
            posts,
            replies,
        }
    }

    /// The number of the caller, counted from 0.
    pub fn number(&self) -> u8
        ensures { result ≡ self.now.id.number }
    {
        self.number
    }

    /// Posts, and answers the place of the post: how many this caller posted before. Where there is no memory nothing is
    /// posted and the post is handed back. A caller posts 2^62 times at most. It may wait for the driver.
    pub fn post(&mut self, rt: &impl Wait, post: Post) -> Result<u64, (NoMemory, Post)>
        requires room { length self.old.posted < 2 ^ 62 }
        ensures place { IfOk result (λ place. place ≡ length self.old.posted) }
        ensures posted { OnOk result (self.new ≡ record self.old { posted = self.old.posted ++ post ∷ [] }) }
        ensures refused { OnErr result (self.new ≡ self.old) }
        ensures post { IfErr result (λ refused. refused.1 ≡ post) }
    {
        self.posts.post(rt, post)
    }

    /// The next reply to this caller, with its place: that of the post to which it is the reply. It may wait for the
    /// driver.
    ///
    /// None only where no reply was on the lane at a step of this call. So each reply is collected of which the caller
    /// was told, by notices heard until then.
    pub fn collect(&mut self, rt: &impl Wait) -> Option<(u64, Reply)>
        ensures place { IfSome result (λ next. next.0 ≡ length self.old.collected) }
        ensures collected { IfSome result
            (λ next. self.new ≡ record self.old { collected = self.old.collected ++ next.1 ∷ [] }) }
        ensures none { IfNone result (self.new ≡ self.old) }
        ensures empty { IfNone result (self.old.told ≤ length self.old.collected) }
    {
        self.replies.take(rt)
    }

    /// A notice of how many times this caller has posted so far. Its driver may hear it.
    pub fn notice(&mut self, rt: &impl Wait) -> Notice<Post>
        ensures same { self.new ≡ self.old }
        ensures lane { result.lane ≡ self.old.id.posts }
        ensures count { result.count ≡ length self.old.posted }
    {
        self.posts.notice(rt)
    }

    /// Learns that so many replies were sent to it. Of several notices the highest count stands.
    pub fn hear(&mut self, rt: &impl Wait, notice: Notice<Reply>)
        requires { notice.lane ≡ self.old.id.replies }
        ensures { self.new ≡ record self.old { told = max self.old.told notice.count } }
    {
        self.replies.hear(rt, notice);
    }

    /// Posts and collects nothing more.
    pub fn end(self) -> EndedCaller
        ensures id { result.id ≡ self.id }
        ensures posted { result.posted ≡ self.posted }
        ensures collected { result.collected ≡ self.collected }
    {
        EndedCaller {
            number: self.number,
            posts: self.posts.end(),
            replies: self.replies,
        }
    }
}

impl EndedCaller {
    /// The caller's ends of its lanes.
    pub(crate) fn into_ends(self) -> (Ended<Post>, LaneOut<Reply>)
        ensures posts { result.0 ≡ record { lane = self.id.posts; posted = self.posted } }
        ensures lane { result.1.lane ≡ self.id.replies }
        ensures collected { result.1.taken ≡ self.collected }
    {
        (self.posts, self.replies)
    }
}
