//! Laws of successors and stops.
ghost use Rattle.std.specs.Prelude.{Bool, ◌≡◌, ◌↔◌, IsTrue};
ghost use Rattle.nav_types.specs.declared.cells.Cell.{Cell};
ghost use Rattle.nav_types.specs.declared.directions.Dir.{Dir};
ghost use Rattle.nav_types.specs.Beside.{IsFreeBeside};
ghost use Rattle.jump_scan.specs.declared.turns.Side.{Side};
ghost use Rattle.jump_scan.specs.Turns.{aside_to};
ghost use Rattle.jump_scan.specs.Successors.{IsForcing, HasForced};
ghost use Rattle.jump_scan.specs.Stops.{IsStraightStop, IsDiagonalStop};

/// A law: a straight run has at most one stop, and so has a diagonal run.
pub fn one_stop()
    ensures straight { (passes hit : Cell → Bool) (dir : Dir) (from first second : Cell)
        → IsStraightStop passes hit dir from first → IsStraightStop passes hit dir from second → first ≡ second }
    ensures diagonal { (passes hit : Cell → Bool) (dir : Dir) (from first second : Cell)
        → IsDiagonalStop passes hit dir from first → IsDiagonalStop passes hit dir from second → first ≡ second }
{}

/// A law: a passable cell has a forced successor exactly where, to some side whose turns are forced, the cell aside is
/// passable. So three rows of cells show where a straight run along the middle one has forced successors.
pub fn forced_where_a_side_opens()
    ensures { (passes : Cell → Bool) (cell : Cell) (arrived : Dir) → IsTrue (passes cell)
        → HasForced passes cell arrived
        ↔ ((side : Side) × (IsForcing passes cell arrived side × IsFreeBeside passes cell (aside_to side arrived))) }
{}
