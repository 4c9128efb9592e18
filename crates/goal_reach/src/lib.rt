//! Where a path starts, and what of its goal can be reached.
//!
//! A path starts on the nearest passable cell ([`nearest_passable`]). Its [`Target`] ([`made_reachable`]) is the goal,
//! where some goal cell lies in the start's area, and else the closest cell of that area:
//!
//! ```text
//!    rings about a point are looked at from within; of equally near cells the first in the order of rows is taken
//! ```
//!
//! Areas are asked of the map ([`nav_types::Areas`]), so no search is made here. Nothing here takes memory.
#![tactic(auto)]

mod choices;
mod laws;
mod reaching;
mod remote;
mod rings;
mod rooms;
mod starts;
mod targets;

pub use laws::{one_start_cell, one_target};
pub use reaching::made_reachable;
pub use rooms::room_in;
pub use starts::nearest_passable;
pub use targets::Target;
