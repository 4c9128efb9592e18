//! The running service: callers that post and collect by themselves, and a driver that stages, runs and delivers turns.
//!
//! ```text
//!    Caller 0 --posts--> \                     / --replies--> Caller 0
//!    Caller 1 --posts--> - Driver: turn by turn - --replies--> Caller 1
//! ```
//!
//! Each [`Caller`] has two lanes. The [`Driver`] takes as a turn what has come, and takes in the next one while workers
//! answer it. Texts and scripts are unknown here.
//!
//! How turns are staged, run and delivered is said in `specs/machine` as a machine with states, [`Event`]s and effects.
//! Nothing here runs it: the driver is seen as its state, and each of the driver's calls is a run of it. The crate
//! `turn_model` is the machine itself, event by event.
#![tactic(auto)]

mod callers;
mod channels;
mod closing;
mod drivers;
mod events;
mod intakes;
mod laws;
mod runs;
mod services;

pub use callers::{Caller, Callers, EndedCaller, EndedCallers};
pub use closing::{Closed, ClosedCaller, ClosedCallers};
pub use drivers::Driver;
pub use events::{Event, Takes, Why};
pub use laws::{closed_services_are_reached, collected_replies_are_steps, posts_are_steps};
pub use services::start_service;
