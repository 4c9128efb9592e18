//! Laws of the bound that tables of landmarks give.
ghost use Rattle.std.specs.Prelude.{ℕ, Bool, List, ◌≡◌, ◌+◌, ◌≤◌, ◌<◌, ◌^◌, IsTrue};
ghost use Rattle.nav_types.specs.declared.cells.Cell.{Cell};
ghost use Rattle.nav_types.specs.declared.directions.Dir.{Dir};
ghost use Rattle.nav_types.specs.Directions.{step_cost};
ghost use Rattle.nav_types.specs.Walks.{Step, IsWalk, walk_cost};
ghost use Rattle.landmarks.specs.declared.spans.NumberSpan.{NumberSpan};
ghost use Rattle.landmarks.specs.Landmarks.{Tables, AreGentle, landmark_bound};
ghost use Rattle.landmarks.specs.Spans.{IsSpanned, IsSpanOf, IsWidened, span_bound};

/// A law: the bound from a cell to itself is 0.
pub fn bound_of_one_cell()
    ensures { (tables : Tables) (cell : Cell) → landmark_bound tables cell cell ≡ 0 }
{}

/// A law: tables that are gentle on a map are so on each in which no more cells are passable.
pub fn gentle_where_fewer_pass()
    ensures { (tables : Tables) (passes later : Cell → Bool) → AreGentle passes tables
        → ((cell : Cell) → IsTrue (later cell) → IsTrue (passes cell)) → AreGentle later tables }
{}

/// A law: along a legal step the bound to any cell falls by at most what the step costs, on the map for which the tables are
/// gentle and on each in which no more cells are passable.
pub fn bound_falls()
    ensures { (tables : Tables) (passes later : Cell → Bool) (dir : Dir) (from next to : Cell) → AreGentle passes tables
        → ((cell : Cell) → IsTrue (later cell) → IsTrue (passes cell)) → Step later dir from next
        → landmark_bound tables from to ≤ step_cost dir + landmark_bound tables next to }
{}

/// A law: no legal walk between two cells costs less than the bound, on any such map.
pub fn bound_of_walk()
    ensures { (tables : Tables) (passes later : Cell → Bool) (dirs : List Dir) (from to : Cell) → AreGentle passes tables
        → ((cell : Cell) → IsTrue (later cell) → IsTrue (passes cell)) → IsWalk later from dirs to
        → landmark_bound tables from to ≤ walk_cost dirs }
{}

/// A law: the bound of gentle tables is below 2^40.
pub fn bound_is_small()
    ensures { (tables : Tables) (passes : Cell → Bool) (from to : Cell) → AreGentle passes tables
        → landmark_bound tables from to < 2 ^ 40 }
{}

/// A law: the span of a cell spans it.
pub fn span_of_spans()
    ensures { (tables : Tables) (cell : Cell) (span : NumberSpan) → IsSpanOf tables cell span → IsSpanned tables span cell }
{}

/// A law: a span that is widened by a cell spans it, and all that it has spanned before.
pub fn widened_spans()
    ensures { (tables : Tables) (cell other : Cell) (old new : NumberSpan) → IsWidened tables cell old new
        → IsSpanned tables new cell × (IsSpanned tables old other → IsSpanned tables new other) }
{}

/// A law: the bound from a cell to a span that spans it is 0.
pub fn span_bound_of_spanned()
    ensures { (tables : Tables) (span : NumberSpan) (cell : Cell) → IsSpanned tables span cell → span_bound tables span cell ≡ 0 }
{}

/// A law: along a legal step the bound to a span falls by at most what the step costs, on the map for which the tables are
/// gentle and on each in which no more cells are passable.
pub fn span_bound_falls()
    ensures { (tables : Tables) (span : NumberSpan) (passes later : Cell → Bool) (dir : Dir) (from next : Cell)
        → AreGentle passes tables → ((cell : Cell) → IsTrue (later cell) → IsTrue (passes cell))
        → Step later dir from next → span_bound tables span from ≤ step_cost dir + span_bound tables span next }
{}
