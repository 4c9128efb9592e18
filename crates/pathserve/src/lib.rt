//! The program as one call, [`run`]: words, a script in, answers out, a status.
//!
//! ```text
//!    words --> Command --> a report on a script     run_replay
//!                          serve                    run_serve
//!                          make                     run_make
//! ```
//!
//! [`run`]'s contract is the program's promise. Under `replay` the answers to a turn are written before more is read;
//! under `serve` the script's callers post beside each other, and the journal of what came is written with its answers.
//! `pathserve_bin` gives it the real words and streams.
#![tactic(auto)]

mod bad_lines;
mod commands;
mod laws;
mod reasons;
mod replay;
mod runs;
mod scripts;
mod serving;
mod sessions;
mod status;
mod summing;
mod teams;
mod works;
mod writing;
mod wrong_words;

pub use bad_lines::BadLine;
pub use commands::{Command, NotWords, read_words};
pub use laws::{
    beginning_is_prefix, notes_are_one_thread, one_out, one_summary, stop_is_not_taken, taken_text,
    text_is_one_thread,
};
pub use made_match::{Made, make_script};
pub use reasons::Reason;
pub use replay::{Reporter, run_replay};
pub use runs::run;
pub use serving::run_serve;
pub use sessions::serve_session;
pub use status::Status;
pub use summing::run_make;
pub use wrong_words::first_wrong;
