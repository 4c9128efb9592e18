//! A match generated from a number: a map of 512 by 512 navcells, and 50 turns of posts of 16 callers.
//!
//! The same number makes the same match, draw by draw (`specs/Making.antt`), on every machine. It is for trials: a whole
//! script in memory ([`make_script`]), with buildings that come and go, and paths. Nothing here answers a post.
#![tactic(auto)]

mod drawn_posts;
mod draws;
mod maps;
mod matches;
mod places;
mod turns;

pub use matches::{Made, make_script};
