//! Laws of the jump search's definitions.
ghost use Rattle.std.specs.Prelude.{ℕ, Bool, List, ◌≡◌};
ghost use Rattle.nav_types.specs.declared.cells.Cell.{Cell};
ghost use Rattle.nav_types.specs.declared.cells.Rect.{Rect};
ghost use Rattle.nav_types.specs.declared.cells.Size.{Size};
ghost use Rattle.nav_types.specs.Counting.{Counts};
ghost use Rattle.nav_types.specs.Frames.{IsFrame};
ghost use Rattle.walks.specs.Chosen.{IsAnswer};
ghost use Rattle.jump_search.specs.declared.states.JumpState.{JumpState};
ghost use Rattle.jump_search.specs.JumpStates.{IsPrunedCost, IsOpened};

/// A law: a jump state has at most one least pruned cost.
pub fn one_pruned_cost()
    ensures { (passes hit : Cell → Bool) (start : Cell) (state : JumpState) (m n : ℕ)
        → IsPrunedCost passes hit start state m → IsPrunedCost passes hit start state n → m ≡ n }
{}

/// A law: there is at most one opened number of a search, whichever answer and rectangle of the aim it is counted by.
pub fn one_opened_number()
    ensures { (passes hit framed : Cell → Bool) (size : Size) (start : Cell) (e f : Cell) (c d : ℕ) (xs ys : List Cell)
        (r s : Rect) (m n : ℕ) → IsAnswer passes start hit e c xs → IsAnswer passes start hit f d ys
        → IsFrame framed size r → IsFrame framed size s
        → Counts (IsOpened passes hit start r c) m → Counts (IsOpened passes hit start s d) n → m ≡ n }
{}
