//! Flow fields: each cell's distance to the nearest target, and the step to take. One serves all units of a group.
//!
//! ```text
//!    > > v v <        two first-in first-out lists, one of straight and one of diagonal steps, are merged:
//!    > > t < <        each is in order of distance by itself, so no heap is needed
//! ```
//!
//! [`Field`] answers for a cell in constant time. A distance is that of a cheapest legal walk, and the step is the first
//! in a fixed order of directions that leads along one. A field is of one class and area; it knows no units, and those
//! that block each other are the game's affair.
#![tactic(auto)]

mod fields;
mod filling;
mod laws;
mod making;
mod queues;
mod spreading;
mod tables;

pub use fields::Field;
pub use laws::{answer_far, one_far, one_next, one_summary, shared_field, shared_summary};
pub use making::field;
pub use posts::FlowSummary;
