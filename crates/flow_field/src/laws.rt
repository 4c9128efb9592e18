//! Laws of flow fields.
ghost use Rattle.std.specs.Prelude.{ℕ, Bool, List, Option, Some, ◌≡◌};
ghost use Rattle.nav_types.specs.declared.cells.Cell.{Cell};
ghost use Rattle.nav_types.specs.declared.directions.Dir.{Dir};
ghost use Rattle.nav_types.specs.Walks.{Joined};
ghost use Rattle.walks.specs.Chosen.{IsAnswer};
ghost use Rattle.posts.specs.declared.notes.FlowSummary.{FlowSummary};
ghost use Rattle.flow_field.specs.Flows.{FieldCells, IsFar, IsNext, IsFieldOf, HasSummary};

/// A law: a cell has at most one distance to the nearest target.
pub fn one_far()
    ensures { (passes hit : Cell → Bool) (start cell : Cell) (a b : Option ℕ) → IsFar passes hit start cell a
        → IsFar passes hit start cell b → a ≡ b }
{}

/// A law: from a cell there is at most one step to take.
pub fn one_next()
    ensures { (passes hit : Cell → Bool) (start cell : Cell) (a b : Option Dir) → IsNext passes hit start cell a
        → IsNext passes hit start cell b → a ≡ b }
{}

/// A law: a field has at most one summary.
pub fn one_summary()
    ensures { (passes hit : Cell → Bool) (start : Cell) (a b : FlowSummary) → HasSummary passes hit start a
        → HasSummary passes hit start b → a ≡ b }
{}

/// A law: the field of a start is that of each start of its area.
pub fn shared_field()
    ensures { (passes hit : Cell → Bool) (a b : Cell) (field : FieldCells) → IsFieldOf passes hit a field
        → Joined passes a b → IsFieldOf passes hit b field }
{}

/// A law: the summary of a start is that of each start of its area.
pub fn shared_summary()
    ensures { (passes hit : Cell → Bool) (a b : Cell) (summary : FlowSummary) → HasSummary passes hit a summary
        → Joined passes a b → HasSummary passes hit b summary }
{}

/// A law: the cost of the answer to a search is the distance of its start to the nearest target.
pub fn answer_far()
    ensures { (passes hit : Cell → Bool) (start end : Cell) (cost : ℕ) (points : List Cell)
        → IsAnswer passes start hit end cost points → IsFar passes hit start start (Some cost) }
{}
