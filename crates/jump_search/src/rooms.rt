//! Parts of the plane in which no cell is looked for.
ghost use Rattle.std.specs.Prelude.{◌≡◌};
ghost use Rattle.fixed_point.specs.Plane.{IsUnitVector};
ghost use Rattle.jump_search.specs.Gains.{IsGain};

use fixed_point::{Fixed, Rectangle, magnitude};
use nav_types::limits::DIAGONAL_COST;

/// A disc with its middle at (`x`, `z`) and the radius `r`. Coordinates and the radius are in navcells.
#[derive(Drop)]
pub struct Disc {
    pub x: Fixed,
    pub z: Fixed,
    pub r: Fixed,
}

/// A rectangle of the plane, which may lie along no axis of the map, with the gain of its unit vector: what a length along or
/// across it grows by at most for what a step costs, as a raw number.
#[derive(Drop)]
pub struct TurnedRoom {
    pub rectangle: Rectangle,
    pub gain: u64,
    pub ghost unit_vector: { IsUnitVector rectangle.ux rectangle.uz },
    pub ghost gains: { IsGain rectangle.ux rectangle.uz gain },
}

impl TurnedRoom {
    /// The room within a rectangle.
    pub fn new(rectangle: Rectangle) -> TurnedRoom
        requires { IsUnitVector rectangle.ux rectangle.uz }
        ensures { result.rectangle ≡ rectangle }
    {
        let gain = gain_of(rectangle.ux, rectangle.uz);
        TurnedRoom { rectangle, gain }
    }
}

/// The gain of a unit vector: that of straight steps along columns or along rows, or that of diagonal ones, whichever is
/// greatest.
fn gain_of(ux: Fixed, uz: Fixed) -> u64
    requires { IsUnitVector ux uz }
    ensures { IsGain ux uz result }
{
    let columns = magnitude(ux);
    let rows = magnitude(uz);
    let diagonal = 65_536 * (columns + rows) / DIAGONAL_COST + 1;
    columns.max(rows).max(diagonal)
}
