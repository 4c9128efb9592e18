//! The jobs of a turn, solved by up to 64 workers beside each other: [`Workers`].
//!
//! ```text
//!    jobs, longest first --claims--> worker 1: Solver, answers \
//!                                    worker 2: Solver, answers --> each answer in its job's place
//! ```
//!
//! The answers are those of one thread, whatever the number and the speed of workers. Where a thread can't be started,
//! the caller does that share of the work. Threads are started for each turn, so a small one is not worth them:
//! [`worth_workers`] says how many are, by the turn alone.
#![tactic(auto)]

mod drawing;
mod placing;
mod pool_cache;
mod ranking;
mod sharing;
mod turns;

pub use pool_cache::PoolCache;
pub use sharing::{LEAST_WORK, WORK_OF_A_WORKER, worth_workers};
pub use turns::Workers;
