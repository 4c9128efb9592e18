//! The turn machine of [`path_service`] as a program, one event a step: a reference model.
//!
//! [`Core`] is what the machine's definitions are tried and shown by. The service is proved against the same
//! definitions and does not run it.
#![tactic(auto)]

mod cores;
pub mod laws;
mod machines;
mod refusals;

pub use cores::Core;
pub use path_service::{Event, Takes, Why};
pub use refusals::StepRefusal;
