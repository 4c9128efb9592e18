//! The raster: the cells that an obstruction blocks, as bits of a grid or of a patch of one.
//!
//! ```text
//!    obstruction --> for each row of its reach: one run of cells --> bits of the classes in its mask
//! ```
//!
//! The end of a run is found from the end in the row before, since both walk along straight edges. Classes of one
//! clearance get their bits together. No bit is cleared, and nothing here takes memory; what is painted anew after an
//! edit is for `grid_versions` to say.
#![tactic(auto)]

mod canvases;
mod masks;
mod met_rows;
mod rasters;
mod reaches;
mod runs;
mod windows;

pub use rasters::{raster, raster_in};
pub use reaches::reach_of;
