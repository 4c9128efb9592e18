//! Laws of shapes as sets of points. The points that matter, the nearest and the farthest of a cell, have whole raw
//! numbers, so that what is said of points with such numbers holds of all points of the plane.
ghost use Rattle.std.specs.Prelude.{◌≡◌, ◌↔◌, ◌≤◌, ◌*◌, ◌-ℤ◌, ℤ, IsTrue, unsigned_abs};
ghost use Rattle.nav_types.specs.declared.cells.Cell.{Cell};
ghost use Rattle.fixed_point.specs.declared.plane.Rectangle.{Rectangle};
ghost use Rattle.fixed_point.specs.Plane.{square, centre_along, centre_across};
ghost use Rattle.obstruction_shapes.specs.declared.shapes.Shape.{Shape};
ghost use Rattle.obstruction_shapes.specs.Shapes.{turned_of};
ghost use Rattle.obstruction_shapes.specs.Blocking.{blocked};
ghost use Rattle.goal_shapes.specs.declared.goals.Goal.{Goal};
ghost use Rattle.goal_shapes.specs.Goals.{squared_length, contains, remoteness};
ghost use Rattle.match_laws.specs.CellPoints.{IsInCell, squared_between, IsInRectangle};

/// A law: the cells of a circle are those with a point that lies no further than the radius from its middle, and those of a
/// circle turned inside out the ones with a point that lies no nearer.
pub fn circle_cells()
    ensures circle { (x z r : ℤ) (cell : Cell) → IsTrue (contains (Goal.Circle x z r) cell)
        ↔ ((px : ℤ) × ((pz : ℤ) × (IsInCell cell px pz × (squared_between x z px pz ≤ square (unsigned_abs r))))) }
    ensures inside_out { (x z r : ℤ) (cell : Cell) → IsTrue (contains (Goal.NotCircle x z r) cell)
        ↔ ((px : ℤ) × ((pz : ℤ) × (IsInCell cell px pz × (square (unsigned_abs r) ≤ squared_between x z px pz)))) }
{}

/// A law: a shape blocks the cells from whose middle some point of its square lies no further than the clearance.
pub fn blocked_cells()
    ensures { (shape : Shape) (clearance : ℤ) (cell : Cell) → IsTrue (blocked shape clearance cell)
        ↔ ((along : ℤ) × ((across : ℤ) × (IsInRectangle (turned_of shape) along across
        × (squared_length (centre_along (turned_of shape) cell.i cell.j -ℤ along)
        (centre_across (turned_of shape) cell.i cell.j -ℤ across) ≤ square (65536 * unsigned_abs clearance))))) }
{}

/// A law: a cell is as remote from a square as its middle is far from the nearest point of the square, squared.
pub fn square_remoteness()
    ensures no_nearer { (rectangle : Rectangle) (cell : Cell) (along across : ℤ) → IsInRectangle rectangle along across
        → remoteness (Goal.Square rectangle) cell
        ≤ squared_length (centre_along rectangle cell.i cell.j -ℤ along) (centre_across rectangle cell.i cell.j -ℤ across) }
    ensures nearest { (rectangle : Rectangle) (cell : Cell)
        → (along : ℤ) × ((across : ℤ) × (IsInRectangle rectangle along across
        × (squared_length (centre_along rectangle cell.i cell.j -ℤ along)
        (centre_across rectangle cell.i cell.j -ℤ across) ≡ remoteness (Goal.Square rectangle) cell))) }
{}
