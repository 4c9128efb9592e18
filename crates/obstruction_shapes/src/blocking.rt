//! Whether a shape blocks a cell for a clearance.
ghost use Rattle.std.specs.Prelude.{◌≡◌};
ghost use Rattle.obstruction_shapes.specs.Shapes.{HasUnitVector};
ghost use Rattle.obstruction_shapes.specs.Blocking.{blocked};

use crate::shapes::Shape;
use fixed_point::{Fixed, scaled, squared};
use nav_types::Cell;

/// Whether the shape blocks the cell for a class with this clearance (`blocked`): whether the middle of
/// the cell is at most the clearance away from the shape, its corners rounded. Exact, over whole numbers.
///
/// The shape's unit vector is of length 1 within its limits, as that of each shape that fits a map.
pub fn blocks(shape: &Shape, clearance: Fixed, cell: Cell) -> bool
    requires { HasUnitVector shape.now }
    ensures { result ≡ blocked shape.now clearance cell }
{
    shape.turned().squared_past(cell.i, cell.j) <= squared(scaled(clearance))
}
