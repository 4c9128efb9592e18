//! The shapes of obstructions, and whether one fits a map.
ghost use Rattle.std.specs.Prelude.{◌≡◌, Some, codes};
ghost use Rattle.std.specs.Result.{OkIff};
ghost use Rattle.obstruction_shapes.specs.Shapes.{turned_of, moved_to, FitsMap};

use fixed_point::{Fixed, Rectangle, is_on_axis, is_unit_vector, is_up_to};
use nav_types::Size;
use nav_types::limits::MAX_HALF_SIDE;
use std::error::Error;
use std::fmt;

/// The shape of an obstruction. Lengths and coordinates are in navcells.
#[derive(Clone, Copy, Debug, PartialEq, Eq)]
pub enum Shape {
    /// A square along the axes of the map, with its middle at (`x`, `z`), `half` to each side.
    Unit { x: Fixed, z: Fixed, half: Fixed },
    /// A rectangle along a unit vector.
    Square(Rectangle),
}

/// What stands on a map: a shape, and the classes that it blocks, bit k of `mask` for class k.
#[derive(Clone, Copy, Debug, PartialEq, Eq)]
pub struct Obstruction {
    pub shape: Shape,
    pub mask: u16,
}

/// The shape does not fit the map.
#[derive(Clone, Copy, Debug, PartialEq, Eq)]
pub struct BadShape;

impl fmt::Display for BadShape {
    ghost output = { λ _. Some (codes "the shape does not fit the map") };

    fn fmt<W: fmt::Write>(&self, f: &mut fmt::Formatter<W>) -> fmt::Result {
        f.write_str("the shape does not fit the map")
    }
}

impl Error for BadShape {}

impl Shape {
    /// The same shape with its middle at (`x`, `z`) (`moved_to`).
    pub fn moved(self, x: Fixed, z: Fixed) -> Shape
        ensures { result ≡ moved_to self x z }
    {
        match self {
            Shape::Unit { half, .. } => Shape::Unit { x, z, half },
            Shape::Square(rectangle) => Shape::Square(rectangle.moved(x, z)),
        }
    }

    /// The shape as a rectangle along a unit vector (`turned_of`): a square along the axes of the map has the vector
    /// (1, 0).
    pub fn turned(&self) -> Rectangle
        ensures { result ≡ turned_of self.now }
    {
        match *self {
            Shape::Unit { x, z, half } => Rectangle {
                x,
                z,
                ux: Fixed::from_raw(65536),
                uz: Fixed::from_raw(0),
                hw: half,
                hh: half,
            },
            Shape::Square(rectangle) => rectangle,
        }
    }
}

/// Hands the shape back where it fits a map of this size (`FitsMap`): its middle lies on the map, its half
/// sides are from 0 to 256 navcells, and the squared raw length of its unit vector is 2^32 within 2^25. `BadShape`
/// exactly where it does not.
pub fn check(shape: Shape, size: Size) -> Result<Shape, BadShape>
    ensures { OkIff result (FitsMap size shape) shape }
{
    let turned = shape.turned();
    let on_map = is_on_axis(turned.x, size.w) && is_on_axis(turned.z, size.h);
    let sides = is_up_to(MAX_HALF_SIDE, turned.hw) && is_up_to(MAX_HALF_SIDE, turned.hh);
    if on_map && sides && is_unit_vector(turned.ux, turned.uz) {
        Ok(shape)
    } else {
        Err(BadShape)
    }
}
