//! Laws of walks.
ghost use Rattle.std.specs.Prelude.{Bool, ℕ, List, Option, Contains, IsTrue, ◌⊎◌};
ghost use Rattle.nav_types.specs.declared.cells.Cell.{Cell};
ghost use Rattle.nav_types.specs.declared.cells.Chunk.{Chunk};
ghost use Rattle.nav_types.specs.declared.directions.Dir.{Dir};
ghost use Rattle.nav_types.specs.Walks.{Joined, CanReach, IsDistance};
ghost use Rattle.walks.specs.Chosen.{IsAnswer};
ghost use Rattle.posts.specs.declared.notes.FlowSummary.{FlowSummary};
ghost use Rattle.flow_field.specs.Flows.{IsNext, HasSummary};
ghost use Rattle.line_smooth.specs.Smoothed.{AreCorners, IsSmoothing};
ghost use Rattle.nav_types.specs.Regions.{HasRegion, HasArea, HasTallies, HasRelabelled};

/// A law: where a list has all passable cells, two cells have a distance, or no walk joins them.
pub fn distances_exist()
    ensures { (passes : Cell → Bool) (cells : List Cell) → ((cell : Cell) → IsTrue (passes cell) → Contains cells cell)
        → (a b : Cell) → ((cost : ℕ) × IsDistance passes a b cost) ⊎ (Joined passes a b → ⊥) }
{}

/// A law: where a list has all passable cells, each cell has a region number in each chunk, and an area number.
pub fn cells_are_numbered()
    ensures regions { (passes : Cell → Bool) (cells : List Cell)
        → ((cell : Cell) → IsTrue (passes cell) → Contains cells cell)
        → (chunk : Chunk) (cell : Cell) → (number : ℕ) × HasRegion passes chunk cell number }
    ensures areas { (passes : Cell → Bool) (cells : List Cell)
        → ((cell : Cell) → IsTrue (passes cell) → Contains cells cell)
        → (cell : Cell) → (number : ℕ) × HasArea passes cell number }
{}

/// A law: where a list has all passable cells, and a walk joins the start to a hit cell, a search has an answer: the
/// first in cell order of the nearest hit cells, with the chosen walk to it.
pub fn searches_have_answers()
    ensures { (passes : Cell → Bool) (cells : List Cell) → ((cell : Cell) → IsTrue (passes cell) → Contains cells cell)
        → (start : Cell) (hit : Cell → Bool) → IsTrue (passes start) → CanReach passes start hit
        → (end : Cell) × ((cost : ℕ) × ((points : List Cell) × IsAnswer passes start hit end cost points)) }
{}

/// A law: where a list has all passable cells of all classes, there are numbers of regions, region edges and areas, and of
/// the pairs of class and chunk that differ from another such map.
pub fn classes_are_tallied()
    ensures tallies { (classes : ℕ) (cells : List Cell) (passes : ℕ → Cell → Bool)
        → ((class : ℕ) (cell : Cell) → IsTrue (passes class cell) → Contains cells cell)
        → (regions : ℕ) × ((edges : ℕ) × ((areas : ℕ) × HasTallies classes passes regions edges areas)) }
    ensures relabelled { (classes : ℕ) (cells : List Cell) (before now : ℕ → Cell → Bool)
        → ((class : ℕ) (cell : Cell) → IsTrue (before class cell) → Contains cells cell)
        → ((class : ℕ) (cell : Cell) → IsTrue (now class cell) → Contains cells cell)
        → (count : ℕ) × HasRelabelled classes before now count }
{}

/// A law: where a list has all passable cells, and a walk joins the start to a target, the flow field has a step to take
/// there, which is none at a target, and a summary.
pub fn fields_are_summed()
    ensures next { (passes hit : Cell → Bool) (cells : List Cell)
        → ((cell : Cell) → IsTrue (passes cell) → Contains cells cell)
        → (start : Cell) → IsTrue (passes start) → CanReach passes start hit
        → (next : Option Dir) × IsNext passes hit start start next }
    ensures summary { (passes hit : Cell → Bool) (cells : List Cell)
        → ((cell : Cell) → IsTrue (passes cell) → Contains cells cell)
        → (start : Cell) → IsTrue (passes start) → CanReach passes start hit
        → (summary : FlowSummary) × HasSummary passes hit start summary }
{}

/// A law: the corners of a legal walk can be smoothed.
pub fn corners_are_smoothed()
    ensures { (passes : Cell → Bool) (start : Cell) (corners : List Cell) → AreCorners passes start corners
        → (points : List Cell) × IsSmoothing passes start corners points }
{}
