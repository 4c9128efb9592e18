//! A list of items that other lists may share: [`SharedList`].
//!
//! ```text
//!    before   block block block  rest      a list after it, in which one item was replaced,
//!               |     |     |      |       holds the other blocks of the one before
//!    after    block  new  block  rest
//! ```
//!
//! So a copy costs one pointer, the first item replaced in it one pointer for each block of 32 items, and each item
//! replaced the pointers of one block.
//! Contracts see the list. What the items are is for other crates to say.
#![tactic(auto)]

mod block_lists;
mod blocks;
mod lists;

pub use lists::SharedList;
