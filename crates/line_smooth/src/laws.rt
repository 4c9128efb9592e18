//! Laws of clear segments and of smoothed waypoints.
ghost use Rattle.std.specs.Prelude.{ℕ, Bool, List, ◌∷◌, ◌≡◌, ◌+◌, ◌<◌, ◌↔◌, length};
ghost use Rattle.nav_types.specs.declared.cells.Cell.{Cell};
ghost use Rattle.line_smooth.specs.Segments.{Touches, TouchesByOffsets};
ghost use Rattle.line_smooth.specs.Smoothed.{AreCorners, IsClearBetween, IsSmoothing};

/// A law: there is at most one smoothing of a walk's waypoints.
pub fn one_smoothed()
    ensures { (passes : Cell → Bool) (start : Cell) (corners xs ys : List Cell)
        → IsSmoothing passes start corners xs → IsSmoothing passes start corners ys → xs ≡ ys }
{}

/// A law: a segment touches the cells whose offsets from its first cell say so, with signs, over the integers.
pub fn touches_by_offsets()
    ensures { (from to cell : Cell) → Touches from to cell ↔ TouchesByOffsets from to cell }
{}

/// A law: the segment between two corners of a legal walk that follow each other is clear, and so is that from the start to
/// the first corner. So some smoothing is always there.
pub fn clear_legs()
    ensures { (passes : Cell → Bool) (start : Cell) (corners : List Cell) → AreCorners passes start corners
        → (from : ℕ) → from + 1 < length (start ∷ corners) → IsClearBetween passes (start ∷ corners) from (from + 1) }
{}
