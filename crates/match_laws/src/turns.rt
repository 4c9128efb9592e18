//! Laws of turns to a side, by how far a direction goes along each axis.
ghost use Rattle.std.specs.Prelude.{◌≡◌, ◌⊎◌, false, IsTrue};
ghost use Rattle.nav_types.specs.declared.directions.Dir.{Dir};
ghost use Rattle.nav_types.specs.Directions.{east, west, north, south, is_straight, row_part, column_part};
ghost use Rattle.jump_scan.specs.declared.turns.Side.{Side};
ghost use Rattle.jump_scan.specs.declared.turns.Side.TheVariants.{Left, Right};
ghost use Rattle.jump_scan.specs.Turns.{ahead_to, aside_to};

/// A law: two eighths to the left are a quarter of a turn, by which east becomes north; to the right it is the other way.
pub fn quarters()
    ensures left { (dir : Dir) → (east (aside_to Left dir) ≡ south dir) × (west (aside_to Left dir) ≡ north dir)
        × (north (aside_to Left dir) ≡ east dir) × (south (aside_to Left dir) ≡ west dir) }
    ensures right { (dir : Dir) → (east (aside_to Right dir) ≡ north dir) × (west (aside_to Right dir) ≡ south dir)
        × (north (aside_to Right dir) ≡ west dir) × (south (aside_to Right dir) ≡ east dir) }
{}

/// A law: an eighth of a turn goes from a straight direction to a diagonal one of which it is a part, and from a diagonal
/// one to one of its parts.
pub fn eighths()
    ensures straight { (side : Side) (dir : Dir) → IsTrue (is_straight dir)
        → (row_part (ahead_to side dir) ≡ dir) ⊎ (column_part (ahead_to side dir) ≡ dir) }
    ensures diagonal { (side : Side) (dir : Dir) → is_straight dir ≡ false
        → (ahead_to side dir ≡ row_part dir) ⊎ (ahead_to side dir ≡ column_part dir) }
{}
