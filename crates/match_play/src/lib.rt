//! A match for a game to link: fed with the bytes of a script, cut anywhere, or with posts as data.
//!
//! ```text
//!    bytes --feed--> Match           --> text: what `replay` writes for the same whole lines
//!    posts --end_turn--> PostedMatch --> replies and notes, the match as a script
//! ```
//!
//! What a [`Match`] has told in all is the text of what its whole lines give, by the definitions of the program itself
//! (`specs/Texts.antt`). Where memory is out nothing is lost: the call may come again. A view of the standing version can
//! be asked beside the match. Nothing here starts threads.
//!
//! ```rust
//! let alloc = rt.alloc();
//! let map =
//!     r#"{"version":1,"size":[5,4],"callers":1,"classes":[{"name":"unit","clearance":"0"}]}"#;
//! let post = r#"{"caller":0,"path":"unit","from":["0.5","0.5"],"goal":{"point":["4.5","3.5"]}}"#;
//! let mut game = Match::open(alloc, Report::Answers);
//! for line in [map, post, r#"{"end":1}"#] {
//!     game.feed(alloc, &mut line.as_bytes())?;
//!     game.feed(alloc, &mut b"\n".as_slice())?;
//! }
//! let answers =
//!     "turn 1 regions 1 edges 0 areas 1 relabelled 0\n0 0 path 0 0 4 3 goal 343582 2 3.5,3.5 4.5,3.5\n";
//! assert!(rt; game.take(alloc).as_slice() == answers.as_bytes());
//! Ok(())
//! ```
#![tactic(auto)]

mod digests;
mod faults;
mod laws;
mod match_progress;
mod match_states;
mod matches;
mod posted;
mod replayed;
mod saved;
mod scripts;
mod states;
mod views;

pub use digests::{DIGEST_PRIME, digest_of, turn_digest};
pub use faults::MatchFault;
pub use laws::one_cause;
pub use match_progress::play_item;
pub use matches::Match;
pub use posted::{EndedTurn, PostedMatch};
pub use posts::Report;
pub use replayed::{OpenedMatch, open_script};
pub use saved::snapshot;
pub use scripts::{NumberedCause, SavedMatch, bad_line_of, read_script};
pub use states::MatchProgress;
