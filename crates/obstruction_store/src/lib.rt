//! The standing obstructions of a map, by number: [`Store`].
//!
//! They are found, added, moved and removed by their number without a look at the others, and listed in the order of
//! numbers ([`Store::listed`]). Contracts see a finite map from number to obstruction. What an obstruction blocks is for
//! other crates to say.
//!
//! Behind the map lie pages, each a slab with an index by number; a store and its copy share each page on which none of
//! them has changed anything since, so that a copy costs a few pointers. The first edit of a shared page copies it, and
//! later ones change it where it stands.
#![tactic(auto)]

mod entries;
mod laws;
mod listings;
mod owned_pages;
mod pages;
mod refusals;
mod stores;
mod touching;

pub use entries::Entries;
pub use laws::{
    all_fit_after_add, all_fit_after_move, all_fit_after_remove, all_fit_in_empty,
    entries_are_what_stands, entries_rise, one_list_touches, what_blocks_touches,
};
pub use listings::Listed;
pub use refusals::{AddRefusal, MoveRefusal, RemoveRefusal};
pub use stores::Store;
pub use touching::Ids;
