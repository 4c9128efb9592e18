//! Versions of a map: which navcells are passable for each class under the standing obstructions, with regions, edges and
//! areas, and the next version after edits.
//!
//! ```text
//!    Version --edits--> Version     both stay; what no edit reaches is shared
//!
//!    cells of a chunk --> bits of a class (class_planes) --> searches
//!                     \-> regions --> edges --> areas        --> what can be reached
//! ```
//!
//! A [`Version`] is two pointers, and threads share it. [`Version::next`] paints anew one rectangle in each chunk that an
//! edit reaches, compares, and makes those parts anew whose cells changed. Everything that a version tells is that of a
//! version built from scratch out of what stands, but for the tables of landmarks that its classes have earned: these are
//! of the map where nothing stands, and no answer depends on them. Paths are searched above, in `turn_core`.
//!
//! ```text
//!    a version              versions, layers, cell_layer, planes, sites, class_views
//!    its cells              base_grids, painting, painted_map, next_cells, reachers, chunk_bits
//!    what an edit changes   standing_edits, dirty_parts, changed_parts, relabelling
//!    regions to areas       chunks, tables (areas, borders, kept_numbers, labelling, sums), class_tables
//!    landmarks              accounts, guides
//! ```
#![tactic(auto)]

mod accounts;
mod base_grids;
mod cell_layer;
mod changed_parts;
mod chunk_bits;
mod chunks;
mod class_tables;
mod class_views;
mod dirty_parts;
mod guides;
mod laws;
mod layers;
mod next_cells;
mod painted_map;
mod painting;
mod planes;
mod reachers;
mod relabelling;
mod sites;
mod standing_edits;
mod tables;
mod versions;

pub use class_views::ClassView;
pub use laws::{
    all_fit_after_edits, fits_where_it_fits, one_number_of_cells, one_relabelled, one_tally,
    passable_where_nothing_covers,
};
pub use posts::{BaseRects, Edit, EditReplies, EditReply, Edits, MapSpec, Refusal, Tallies};
pub use versions::{Next, Version};
