//! Maps, posts and replies as flat structs: numbers alone, in the layout of C, for programs in other languages.
//!
//! ```text
//!    FlatMap, FlatClass, FlatRect  --read-->  MapSpec
//!    FlatPost  <--of, read-->  a caller and its Post
//!    FlatPost, FlatPost, ..  --read_posts, turn_of-->  TurnPosts
//!    TurnReplies  --of, write_replies, write_waypoints-->  FlatTurn, FlatReply, FlatCell
//!    Reply, Reply, ..  --write_replies_to, write_waypoints_of-->  FlatReply, FlatCell
//! ```
//!
//! Which kind a post, a goal or a reply is of stands in a number, whose names are in [`post_kinds`], [`goal_kinds`],
//! [`reply_kinds`] and [`refusals`]. A field that a kind has no use for is 0. So each post has one flat form, and a flat post
//! that is none is refused. A class is a number here, and a name in a request. Lengths and coordinates are raw
//! fixed-point numbers: 65536 is the side of a navcell. Only what reads a map or the posts of a turn takes memory.
#![tactic(auto)]

mod asked;
mod cells;
mod edits;
pub mod goal_kinds;
mod goals;
mod laws;
mod map_parts;
mod maps;
mod pages;
pub mod post_kinds;
mod posted;
pub mod refusals;
mod replied;
pub mod reply_kinds;
mod turn_posts;
mod turns;

pub use cells::FlatCell;
pub use edits::flat_edit;
pub use laws::{one_flat_post, one_map, one_post};
pub use map_parts::{FlatClass, FlatRect};
pub use maps::{FlatMap, MapFault};
pub use posted::{FlatFault, FlatPost};
pub use replied::FlatReply;
pub use turn_posts::{CallerPosts, PostsFault, read_posts, turn_of};
pub use turns::{FlatTurn, write_replies, write_replies_to, write_waypoints, write_waypoints_of};
