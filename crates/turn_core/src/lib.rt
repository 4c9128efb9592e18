//! Requests and turns: how one is answered, and what turns are.
//!
//! ```text
//!    TurnPosts + Version --ReadyTurn--> the next Version, replies to edits, jobs
//!    job --Solver--> answer and note                --AnsweredTurn--> TurnReplies
//! ```
//!
//! A [`Solver`] answers one request after another and keeps its search's memory and its last flow field; what it answers
//! does not depend on what it answered before. An [`Answerer`] answers the jobs of turn after turn, on one thread
//! ([`OneThread`]: the sequential specification, as a program) or on many. `path_service` says how turns are staged, run
//! and delivered beside each other.
//!
//! ```rust
//! let alloc = rt.alloc();
//! let navcells = |count: i32| Fixed::from_raw(65_536 * count);
//! let class = ClassName::new(b"unit").expect(&rt, "a name");
//! let clearance = navcells(0);
//! let classes = ClassTable::new(
//!     alloc,
//!     &[PassabilityClass {
//!         name: class,
//!         clearance,
//!     }],
//! );
//! let classes = classes.ok().expect(&rt, "a table of one class");
//! let size = Size::new(5, 4).expect(&rt, "sides from 1 to 2048");
//! let map = MapSpec::new(3, size, 1, classes, BaseRects::new(alloc)).expect(&rt, "a map");
//!
//! // In its first turn the only caller asks for a path.
//! let goal = GoalSpec::Plain(Goal::Point {
//!     x: navcells(4),
//!     z: navcells(3),
//! });
//! let path = Request::Path(PathRequest {
//!     class,
//!     x: navcells(0),
//!     z: navcells(0),
//!     goal,
//! });
//! let mut lists = empty_lists(alloc, 1).expect(&rt, "memory");
//! push_post(&mut lists, 0, Post::Ask(path)).expect(&rt, "memory");
//!
//! let version = bare_version(alloc, &map).expect(&rt, "memory");
//! let mut thread = OneThread::new();
//! let answered = thread
//!     .answer_turn(alloc, &version, &lists.into())
//!     .expect(&rt, "memory");
//! let Some(Reply::Answer(Answer::Path(path))) = answered
//!     .replies
//!     .replies
//!     .get(0)
//!     .and_then(|its| its.get(0))
//! else {
//!     panic!(rt; "no path")
//! };
//! // Three diagonal steps and a straight one. `answered.after` is the version for the next turn.
//! assert!(rt; path.cost == Cost(3 * 92_682 + 65_536) && !path.near);
//! ```
#![tactic(auto)]

mod answerers;
mod edited_turns;
mod journals;
mod last_fields;
pub mod laws;
mod named_goals;
mod near_answers;
mod one_threads;
mod ready_turns;
mod reply_lists;
mod reports;
pub mod request_laws;
mod same_targets;
mod searches;
mod solving;
mod turn_versions;

pub use answerers::{Answerer, NotedAnswers, NotedTurn, noted_turn};
pub use journals::{answer_turn, one_thread};
pub use jump_search::Pool;
pub use named_goals::goal_of;
pub use near_answers::solve_within;
pub use one_threads::OneThread;
pub use posts::{
    AllReplies, Answer, Answers, CallerReplies, FlowLine, FlowSummary, Jobs, Journal, Note, Noted,
    Notes, PathAnswer, PathRequest, Post, Posts, RegionAnswer, RegionQuery, Replies, Reply, Report,
    Request, TurnPosts, TurnReplies, count_posts, empty_lists, push_post,
};
pub use ready_turns::{AnsweredTurn, ReadyTurn};
pub use reports::REPORTS;
pub use solving::{Solver, flow_of, solve, solve_noted};
pub use turn_versions::bare_version;
