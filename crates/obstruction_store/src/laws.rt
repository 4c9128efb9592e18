//! Laws of the standing obstructions.
ghost use Rattle.std.specs.Prelude.{◌≡◌, ◌↔◌, ◌≤◌, ℕ, ℤ, List, Some, Contains, IsSomeAnd, IsTrue, unsigned_abs};
ghost use Rattle.std.specs.List.Sorted.{IsStrictlyIncreasing};
ghost use Rattle.std.specs.FinMap as map;
ghost use Rattle.nav_types.specs.declared.cells.Cell.{Cell};
ghost use Rattle.nav_types.specs.declared.cells.Rect.{Rect};
ghost use Rattle.nav_types.specs.declared.cells.Size.{Size};
ghost use Rattle.nav_types.specs.Cells.{IsInside, IsInRect};
ghost use Rattle.obstruction_shapes.specs.declared.shapes.Obstruction.{Obstruction};
ghost use Rattle.obstruction_shapes.specs.declared.shapes.Shape.{Shape};
ghost use Rattle.obstruction_shapes.specs.Blocking.{blocked};
ghost use Rattle.obstruction_shapes.specs.Shapes.{FitsMap, moved_to};
ghost use Rattle.obstruction_store.specs.Standing.{Standing, moved, AllFit};
ghost use Rattle.obstruction_store.specs.Touching.{Touches, AreTouching};

/// A law: the entries are exactly what stands, each number with its obstruction.
pub fn entries_are_what_stands()
    ensures { (standing : Standing) (number : ℕ) (obstruction : Obstruction)
        → Contains (map.entries standing) (number, obstruction) ↔ (map.get standing number ≡ Some obstruction) }
{}

/// A law: the numbers of the entries rise, so each stands in one entry.
pub fn entries_rise()
    ensures { (standing : Standing) → IsStrictlyIncreasing (map.keys standing) }
{}

/// A law: where nothing stands, all shapes fit.
pub fn all_fit_in_empty()
    ensures { (size : Size) → AllFit size map.empty }
{}

/// A law: all shapes fit after one that fits is added.
pub fn all_fit_after_add()
    ensures { (size : Size) (standing : Standing) (number : ℕ) (obstruction : Obstruction)
        → AllFit size standing → FitsMap size obstruction.shape → AllFit size (map.insert standing number obstruction) }
{}

/// A law: all shapes fit after one is removed.
pub fn all_fit_after_remove()
    ensures { (size : Size) (standing : Standing) (number : ℕ) → AllFit size standing
        → AllFit size (map.remove standing number) }
{}

/// A law: all shapes fit after one is moved to where it fits.
pub fn all_fit_after_move()
    ensures { (size : Size) (standing : Standing) (number : ℕ) (x z : ℤ) → AllFit size standing
        → IsSomeAnd (map.get standing number) (λ obstruction. FitsMap size (moved_to obstruction.shape x z))
        → AllFit size (moved standing number x z) }
{}

/// A law: an obstruction that blocks a cell of the rectangle for some clearance touches the rectangle, for
/// that clearance and for each greater one.
pub fn what_blocks_touches()
    ensures { (size : Size) (rect : Rect) (clearance greatest : ℤ) (shape : Shape) (cell : Cell) → FitsMap size shape
        → unsigned_abs clearance ≤ unsigned_abs greatest → IsInside size cell → IsInRect rect cell
        → IsTrue (blocked shape clearance cell) → Touches size rect greatest shape }
{}

/// A law: two lists of the numbers that touch one rectangle are equal.
pub fn one_list_touches()
    ensures { (size : Size) (rect : Rect) (clearance : ℤ) (standing : Standing) (first second : List ℕ)
        → AreTouching size rect clearance standing first → AreTouching size rect clearance standing second
        → first ≡ second }
{}
