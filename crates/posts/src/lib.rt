//! The words between callers and the service: maps, posts (edits and requests), and the replies to them.
//!
//! ```text
//!    Post = Edit (add, move, remove) | Request (path, region)     --> Reply
//!    TurnPosts: the posts of a turn, by caller                    --> TurnReplies: replies and tallies
//! ```
//!
//! A [`Report`] says what is asked beside the answers, and a [`Note`] is what comes. All is plain data, and much of it
//! `Copy`. Nothing here searches, and nothing keeps a map's cells: a crate that reads or writes these words needs no more
//! than this one.
#![tactic(auto)]

mod edits;
mod maps;
mod notes;
mod posts;
mod replies;

pub use edits::{Edit, EditReplies, EditReply, Edits, Refusal};
pub use maps::{BaseRects, MapSpec};
pub use notes::{FlowLine, FlowSummary, Note, Noted, Notes, Report};
pub use posts::{
    Jobs, Journal, PathRequest, Post, Posts, RegionQuery, Request, TurnPosts, count_posts,
    empty_lists, push_post, push_some,
};
pub use replies::{
    AllReplies, Answer, Answers, CallerReplies, PathAnswer, RegionAnswer, Replies, Reply, Tallies,
    TurnReplies,
};
