//! A law of region edges.
ghost use Rattle.std.specs.Prelude.{ℕ, Bool, ◌≡◌, List};
ghost use Rattle.nav_types.specs.declared.cells.Cell.{Cell};
ghost use Rattle.nav_types.specs.declared.cells.Chunk.{Chunk};
ghost use Rattle.region_edges.specs.Edges.{AreEdges};

/// A law: two chunks have one list of region edges at most.
pub fn one_edge_list()
    ensures { (passes : Cell → Bool) (here there : Chunk) (xs ys : List (ℕ × ℕ))
        → AreEdges passes here there xs → AreEdges passes here there ys → xs ≡ ys }
{}
