//! Laws of regions and areas.
ghost use Rattle.std.specs.Prelude.{ℕ, Bool, ◌≡◌, ◌↔◌, IsTrue};
ghost use Rattle.nav_types.specs.declared.cells.Cell.{Cell};
ghost use Rattle.nav_types.specs.declared.cells.Chunk.{Chunk};
ghost use Rattle.nav_types.specs.Walks.{Joined};
ghost use Rattle.nav_types.specs.Regions.{JoinedStraight, HasRegion, HasArea, InOneRegion, passes_in};

/// A law: legal steps join two cells exactly where legal straight steps join them.
pub fn straight_steps_join()
    ensures { (passes : Cell → Bool) (a b : Cell) → Joined passes a b ↔ JoinedStraight passes a b }
{}

/// A law: a cell has one region number at most.
pub fn one_region()
    ensures { (passes : Cell → Bool) (chunk : Chunk) (cell : Cell) (m n : ℕ)
        → HasRegion passes chunk cell m → HasRegion passes chunk cell n → m ≡ n }
{}

/// A law: a cell has one area number at most.
pub fn one_area()
    ensures { (passes : Cell → Bool) (cell : Cell) (m n : ℕ)
        → HasArea passes cell m → HasArea passes cell n → m ≡ n }
{}

/// A law: passable cells of a chunk have one region number exactly where straight steps join them inside the chunk.
pub fn same_region()
    ensures { (passes : Cell → Bool) (chunk : Chunk) (a b : Cell) (m n : ℕ)
        → IsTrue (passes_in passes chunk a) → IsTrue (passes_in passes chunk b)
        → HasRegion passes chunk a m → HasRegion passes chunk b n → (m ≡ n) ↔ InOneRegion passes chunk a b }
{}

/// A law: passable cells have one area number exactly where legal steps join them.
pub fn same_area()
    ensures { (passes : Cell → Bool) (a b : Cell) (m n : ℕ) → IsTrue (passes a) → IsTrue (passes b)
        → HasArea passes a m → HasArea passes b n → (m ≡ n) ↔ Joined passes a b }
{}
