//! The jobs of a turn, handed out to many workers by one shared word: each job goes to one worker, and none is left out.
//!
//! ```text
//!    next: 5 of 12        fetch-add gives a worker 5, the next one 6, ..; from 12 on there is nothing more
//! ```
//!
//! [`Claims`] is the word, and a [`Seat`] the right to draw from it. A seat that draws past the last job has ended. Once
//! all seats are joined and one has ended, all jobs were drawn, and [`Drawings`] has them. What a job is, is unknown here;
//! nothing waits.
#![tactic(auto)]

mod claims;
mod rule;

pub use claims::{Claims, Drawings, Drawn, Seat, WHOLE_SHARE};
