//! Laws of versions.
ghost use Rattle.std.specs.Prelude.{ℕ, Bool, List, ◌≡◌, ◌↔◌, IsTrue};
ghost use Rattle.nav_types.specs.declared.cells.Cell.{Cell};
ghost use Rattle.nav_types.specs.declared.cells.Size.{Size};
ghost use Rattle.nav_types.specs.Counting.{Counts};
ghost use Rattle.nav_types.specs.Regions.{HasTallies, HasRelabelled};
ghost use Rattle.obstruction_shapes.specs.declared.shapes.Shape.{Shape};
ghost use Rattle.obstruction_shapes.specs.Shapes.{FitsMap};
ghost use Rattle.obstruction_store.specs.Standing.{Standing, AllFit};
ghost use Rattle.posts.specs.declared.edits.Edit.{Edit};
ghost use Rattle.posts.specs.Maps.{Map};
ghost use Rattle.grid_versions.specs.Fitting.{fits};
ghost use Rattle.grid_versions.specs.Passing.{passable_at, IsPassable};
ghost use Rattle.grid_versions.specs.Editing.{after_edits};

/// A law: the test of fitting holds exactly where the shape fits the map.
pub fn fits_where_it_fits()
    ensures { (size : Size) (shape : Shape) → IsTrue (fits size shape) ↔ FitsMap size shape }
{}

/// A law: a cell is passable exactly where the map has the class and the cell, each base rectangle that holds the cell
/// leaves the class free, and no standing obstruction blocks the cell for the class.
pub fn passable_where_nothing_covers()
    ensures { (map : Map) (standing : Standing) (k : ℕ) (cell : Cell)
        → IsTrue (passable_at map standing k cell) ↔ IsPassable map standing k cell }
{}

/// A law: so many cells are passable, and no other number.
pub fn one_number_of_cells()
    ensures { (passes : Cell → Bool) (m n : ℕ) → Counts (λ (cell : Cell). IsTrue (passes cell)) m
        → Counts (λ (cell : Cell). IsTrue (passes cell)) n → m ≡ n }
{}

/// A law: where all standing shapes fit the map, they do after any edits.
pub fn all_fit_after_edits()
    ensures { (map : Map) (standing : Standing) (edits : List Edit)
        → AllFit map.size standing → AllFit map.size (after_edits map standing edits) }
{}

/// A law: a map has one tally of each kind.
pub fn one_tally()
    ensures { (classes : ℕ) (passes : ℕ → Cell → Bool) (r e a s f b : ℕ)
        → HasTallies classes passes r e a → HasTallies classes passes s f b → (r ≡ s) × (e ≡ f) × (a ≡ b) }
{}

/// A law: two maps differ in one number of pairs of class and chunk.
pub fn one_relabelled()
    ensures { (classes : ℕ) (before now : ℕ → Cell → Bool) (m n : ℕ)
        → HasRelabelled classes before now m → HasRelabelled classes before now n → m ≡ n }
{}
