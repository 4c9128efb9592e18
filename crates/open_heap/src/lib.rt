//! The open list of a search: keys with estimates, of which one of the least estimate is taken out.
//!
//! ```text
//!    (estimate - start) / 2^14:   0   1   2   3   ..        a bucket for each part of the estimates;
//!                                     ^-- current            only the current one is sorted
//! ```
//!
//! It is a bucket queue, though its name says heap. Contracts see a finite map from key to estimate ([`OpenHeap`]). To
//! decrease a key is to push it again, and to remove one is to forget its estimate; the older entry is passed over when it
//! is met. Memory grows with the greatest key and with how far estimates lie apart, and is kept between searches. Which of
//! equal estimates comes first is left open: a search must not depend on it.
#![tactic(auto)]

mod buckets;
mod entries;
mod heaps;
mod taking;

pub use entries::Entry;
pub use heaps::OpenHeap;
