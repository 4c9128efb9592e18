//! Where an obstruction can block cells at all.
ghost use Rattle.std.specs.Prelude.{◌≡◌, ◌≤◌, ◌+◌, ◌*◌, ◌/◌, ◌^◌, ◌↔◌, ◌⊎◌, ℕ, ℤ, unsigned_abs, IfSome, IfNone, IsTrue, Some};
ghost use Rattle.nav_types.specs.declared.cells.Cell.{Cell};
ghost use Rattle.nav_types.specs.Cells.{IsInside, IsInRect, IsRectInside};
ghost use Rattle.lane_rows.specs.Rows.{has_class};
ghost use Rattle.nav_types.specs.Rects.{IsPartOf};
ghost use Rattle.obstruction_shapes.specs.Shapes.{FitsMap};
ghost use Rattle.obstruction_shapes.specs.Blocking.{blocked, IsNear};
ghost use Rattle.class_config.specs.Classes.{clearance_at};
ghost use Rattle.clearance_raster.specs.Rasters.{blocks_class, IsGreatestClearance};

use crate::masks::includes;
use class_config::ClassTable;
use fixed_point::{Fixed, columns_near, magnitude};
use nav_types::{Class, Rect, Size};
use obstruction_shapes::{Obstruction, Shape, reach_rect};

/// The least squared length of a unit vector, 2^32 - 2^25, divided by 65536.
const LEAST_LENGTH: u64 = 65_024;

/// The cells of a map that an obstruction can block for some class of its mask: those that are near enough to its shape
/// for the greatest clearance of these classes (`IsGreatestClearance`, `IsNear`). They are a rectangle, and it holds each
/// cell of the map that the obstruction blocks for a class. None exactly where the mask has no class of the table, or no
/// cell of the map is near enough.
///
/// The shape fits the map.
pub fn reach_of(obstruction: &Obstruction, classes: &ClassTable, size: Size) -> Option<Rect>
    requires { FitsMap size obstruction.now.shape }
    ensures inside { IfSome result (λ rect. IsRectInside size rect) }
    ensures near { IfSome result (λ rect. (greatest : ℤ)
        × (IsGreatestClearance obstruction.now.mask classes.now greatest
        × ((cell : Cell) → IsInside size cell → (IsInRect rect cell ↔ IsNear obstruction.now.shape greatest cell)))) }
    ensures none_near { IfNone result ((greatest : ℤ) → IsGreatestClearance obstruction.now.mask classes.now greatest
        → (cell : Cell) → IsInside size cell → ¬ IsNear obstruction.now.shape greatest cell) }
    ensures blocked { IfSome result (λ rect. (k : ℕ) (cell : Cell) → IsInside size cell
        → IsTrue (blocks_class obstruction.now classes.now k cell) → IsInRect rect cell) }
    ensures none_blocked { IfNone result ((k : ℕ) (cell : Cell) → IsInside size cell
        → ¬ IsTrue (blocks_class obstruction.now classes.now k cell)) }
{
    let greatest = greatest_clearance(classes, obstruction.mask)?;
    reach_rect(&obstruction.shape, greatest, size)
}

/// The greatest clearance among the classes of the mask. None exactly where the table has none of them.
fn greatest_clearance(classes: &ClassTable, mask: u16) -> Option<Fixed>
    ensures greatest { IfSome result (IsGreatestClearance mask classes.now) }
    ensures none { IfNone result ((k : ℕ) (clearance : ℤ) → IsTrue (has_class k mask)
        → ¬ (clearance_at classes.now k ≡ Some clearance)) }
{
    let mut greatest = None;
    for number in 0..classes.count() {
        let class = Class::new(number);
        if includes(mask, class) {
            greatest = Some(greater(greatest, classes.clearance(class)));
        }
    }
    greatest
}

/// The greater of a clearance that may be there and another one.
fn greater(found: Option<Fixed>, clearance: Fixed) -> Fixed
    ensures first { IfNone found (result ≡ clearance) }
    ensures same { IfSome found (λ other. (result ≡ clearance) ⊎ (result ≡ other)) }
    ensures most { IfSome found (λ other. unsigned_abs other ≤ unsigned_abs result) }
    ensures least { unsigned_abs clearance ≤ unsigned_abs result }
{
    match found {
        Some(other) if magnitude(clearance) <= magnitude(other) => other,
        _ => clearance,
    }
}

/// A rectangle of the part that holds each cell of it that the shape blocks with this clearance. None only where there is
/// no such cell.
pub fn reach_in(shape: &Shape, clearance: Fixed, part: Rect, size: Size) -> Option<Rect>
    requires fits { FitsMap size shape.now }
    requires inside { IsRectInside size part }
    ensures part { IfSome result (λ rect. IsPartOf part rect) }
    ensures blocked { IfSome result (λ rect. (cell : Cell) → IsInRect part cell
        → IsTrue (blocked shape.now clearance cell) → IsInRect rect cell) }
    ensures none { IfNone result ((cell : Cell) → IsInRect part cell → ¬ IsTrue (blocked shape.now clearance cell)) }
{
    let turned = shape.turned();
    let wide = magnitude(turned.hw) + magnitude(clearance);
    let high = magnitude(turned.hh) + magnitude(clearance);
    let east = spread(turned.ux, turned.uz, wide, high);
    let (i0, i1) = columns_near(turned.x, east, size.w)?;
    let north = spread(turned.uz, turned.ux, wide, high);
    let (j0, j1) = columns_near(turned.z, north, size.h)?;
    Rect { i0, j0, i1, j1 }.intersection(part)
}

/// How far along an axis of the map a point can lie from a shape's middle that is at most `wide` from it along the shape's
/// unit vector and at most `high` across it. The vector has the component `same` along that axis and `other` along the
/// other one.
fn spread(same: Fixed, other: Fixed, wide: u64, high: u64) -> u64
    requires same { unsigned_abs same ≤ 65792 }
    requires other { unsigned_abs other ≤ 65792 }
    requires wide { wide ≤ 2 ^ 32 }
    requires high { high ≤ 2 ^ 32 }
    ensures value { result ≡ (unsigned_abs same * wide + unsigned_abs other * high) / LEAST_LENGTH }
    ensures bounded { result ≤ 2 ^ 34 }
{
    (magnitude(same) * wide + magnitude(other) * high) / LEAST_LENGTH
}
