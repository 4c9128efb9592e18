//! Counts of replies.
ghost use Rattle.std.specs.Prelude.{◌≡◌, ◌∷◌, []};
ghost use Rattle.answer_text.specs.inner.Counting.{counts_of, together, IsCountable};
ghost use Rattle.answer_text.specs.Summaries.{turn_replies, all_replies};

use posts::{Answer, EditReply, Replies, Reply, TurnReplies};

/// How many replies there are, how many of them are of each kind, what their paths cost together, and how
/// many waypoints these have together.
#[derive(Clone, Copy)]
pub(crate) struct ReplyCounts {
    pub posts: u64,
    pub added: u64,
    pub removed: u64,
    pub refused: u64,
    pub goal: u64,
    pub near: u64,
    pub nowhere: u64,
    pub cost: u64,
    pub waypoints: u64,
}

impl ReplyCounts {
    /// The counts of no reply.
    fn zero() -> ReplyCounts
        ensures { result ≡ counts_of [] }
    {
        ReplyCounts {
            posts: 0,
            added: 0,
            removed: 0,
            refused: 0,
            goal: 0,
            near: 0,
            nowhere: 0,
            cost: 0,
            waypoints: 0,
        }
    }

    /// The counts of one reply.
    fn one(reply: &Reply) -> ReplyCounts
        ensures { result ≡ counts_of (reply.now ∷ []) }
    {
        let other = ReplyCounts {
            posts: 1,
            ..ReplyCounts::zero()
        };
        match reply {
            Reply::Edit(EditReply::Added(_)) => ReplyCounts { added: 1, ..other },
            Reply::Edit(EditReply::Removed(_)) => ReplyCounts {
                removed: 1,
                ..other
            },
            Reply::Edit(EditReply::Refused(_)) | Reply::Answer(Answer::Refused(_)) => ReplyCounts {
                refused: 1,
                ..other
            },
            Reply::Answer(Answer::Nowhere) => ReplyCounts {
                nowhere: 1,
                ..other
            },
            Reply::Answer(Answer::Path(path)) => ReplyCounts {
                goal: u64::from(!path.near),
                near: u64::from(path.near),
                cost: path.cost.0,
                waypoints: path.waypoints.len() as u64,
                ..other
            },
            Reply::Edit(EditReply::Moved(_)) | Reply::Answer(Answer::Region(_)) => other,
        }
    }

    /// The counts of the replies of turns.
    pub(crate) fn all(turns: &[TurnReplies]) -> ReplyCounts
        requires { IsCountable (counts_of (all_replies turns.now)) }
        ensures { result ≡ counts_of (all_replies turns.now) }
    {
        let mut counts = ReplyCounts::zero();
        for turn in turns {
            counts.add_turn(turn.replies.as_slice());
        }
        counts
    }

    /// Adds the replies of a turn.
    fn add_turn(&mut self, callers: &[Replies])
        requires { IsCountable (together self.old (counts_of (turn_replies callers.now))) }
        ensures { self.new ≡ together self.old (counts_of (turn_replies callers.now)) }
    {
        for replies in callers {
            self.add_replies(replies.as_slice());
        }
    }

    /// Adds the replies to one caller.
    fn add_replies(&mut self, replies: &[Reply])
        requires { IsCountable (together self.old (counts_of replies.now)) }
        ensures { self.new ≡ together self.old (counts_of replies.now) }
    {
        for reply in replies {
            self.add(ReplyCounts::one(reply));
        }
    }

    /// Adds other counts.
    fn add(&mut self, more: ReplyCounts)
        requires { IsCountable (together self.old more) }
        ensures { self.new ≡ together self.old more }
    {
        self.posts += more.posts;
        self.added += more.added;
        self.removed += more.removed;
        self.refused += more.refused;
        self.goal += more.goal;
        self.near += more.near;
        self.nowhere += more.nowhere;
        self.cost += more.cost;
        self.waypoints += more.waypoints;
    }
}
