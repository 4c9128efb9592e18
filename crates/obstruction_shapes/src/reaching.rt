//! The rectangle of cells that a shape can block.
ghost use Rattle.std.specs.Prelude.{◌≡◌, ◌≤◌, ◌^◌, ◌↔◌, IfSome, IfNone, IsTrue};
ghost use Rattle.nav_types.specs.declared.cells.Cell.{Cell};
ghost use Rattle.nav_types.specs.Cells.{IsInside, IsInRect, IsRectInside};
ghost use Rattle.obstruction_shapes.specs.Shapes.{FitsMap};
ghost use Rattle.obstruction_shapes.specs.Blocking.{blocked, reach, IsNear};

use crate::shapes::Shape;
use fixed_point::{Fixed, columns_near, magnitude};
use nav_types::{Rect, Size};

/// The cells of a map that are near enough to the shape to be blocked for a class with this clearance:
/// those whose middle is no further than the reach from the shape's middle, along both axes (`IsNear`,
/// `reach`). They are a rectangle, and `None` says that there are none. Every cell of the map that the
/// shape blocks is one of them.
///
/// The shape fits the map.
pub fn reach_rect(shape: &Shape, clearance: Fixed, size: Size) -> Option<Rect>
    requires { FitsMap size shape.now }
    ensures inside { IfSome result (λ rect. IsRectInside size rect) }
    ensures near { IfSome result
        (λ rect. (cell : Cell) → IsInside size cell → (IsInRect rect cell ↔ IsNear shape.now clearance cell)) }
    ensures none_near { IfNone result ((cell : Cell) → IsInside size cell → ¬ IsNear shape.now clearance cell) }
    ensures blocked { IfSome result
        (λ rect. (cell : Cell) → IsInside size cell → IsTrue (blocked shape.now clearance cell) → IsInRect rect cell) }
    ensures none_blocked { IfNone result
        ((cell : Cell) → IsInside size cell → ¬ IsTrue (blocked shape.now clearance cell)) }
{
    let turned = shape.turned();
    let reach = reach_of(shape, clearance);
    let Some((i0, i1)) = columns_near(turned.x, reach, size.w) else {
        return None;
    };
    let Some((j0, j1)) = columns_near(turned.z, reach, size.h) else {
        return None;
    };
    Some(Rect { i0, j0, i1, j1 })
}

/// How far from the shape's middle a cell can be blocked, as a raw number.
fn reach_of(shape: &Shape, clearance: Fixed) -> u64
    ensures value { result ≡ reach shape.now clearance }
    ensures bounded { result ≤ 2 ^ 34 }
{
    let turned = shape.turned();
    let sides = magnitude(turned.hw) + magnitude(turned.hh);
    let extent = sides + 2 * magnitude(clearance);
    extent + extent / 64 + 1
}
