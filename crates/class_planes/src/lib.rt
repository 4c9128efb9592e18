//! The passable cells of a class as bits, by rows and by columns (bitboards), with precomputed jump flags as in JPS+.
//!
//! ```text
//!    row     0110 1111 ..   64 cells a word; the columns are kept the same way, transposed
//!    stops   for each cell and straight direction: does a run that starts here meet a forced neighbour
//! ```
//!
//! A scan passes 64 cells at once, and a straight run whose flag is not set is never scanned. Both tables are in bands of
//! 32 lines; after an edit [`ClassPlane`] makes those anew that changed and shares the others. [`PlaneRuns`] is the view
//! and the runs that a search asks, and [`Planes`] has one plane for each class.
//!
//! ```text
//!    planes                 class_plane, plane_sets, lines, line_sets, rows, transposed
//!    jump flags             stops, flag_words, fills, forced_places
//!    runs                   plane_runs, plane_scans, word_scans, beside_cells, free_places
//!    what an edit changes   changed_parts, read_cells, updates, band_spans, joined_rects, tight_rects
//! ```
#![tactic(auto)]

mod band_spans;
mod beside_cells;
mod changed_parts;
mod class_plane;
mod fills;
mod flag_words;
mod forced_places;
mod free_places;
mod joined_rects;
mod line_sets;
mod lines;
mod plane_runs;
mod plane_scans;
mod plane_sets;
mod read_cells;
mod rows;
mod stops;
mod tight_rects;
mod transposed;
mod updates;
mod word_scans;

pub use changed_parts::ChangedPart;
pub use class_plane::ClassPlane;
pub use plane_runs::PlaneRuns;
pub use plane_sets::Planes;
