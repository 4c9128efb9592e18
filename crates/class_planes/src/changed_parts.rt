//! The parts of a map that have changed.
ghost use Rattle.std.specs.Prelude.{◌≡◌, ◌<◌, All, IfOk, map};
ghost use Rattle.nav_types.specs.declared.cells.Cell.{Cell};
ghost use Rattle.nav_types.specs.declared.cells.Size.{Size};
ghost use Rattle.nav_types.specs.Cells.{IsRectInside};
ghost use Rattle.lane_rows.specs.Rows.{has_class};
ghost use Rattle.class_planes.specs.Planes.{IsOutside, IsKept};

use nav_types::{Class, NoMemory, Rect};
use std::alloc::Global;

/// A rectangle in which some cells have changed, and the classes for which they may have: bit k is set for class k.
#[derive(Clone, Copy, Debug, PartialEq, Eq)]
pub struct ChangedPart {
    pub rect: Rect,
    pub classes: u16,
}

impl ChangedPart {
    /// Whether cells may have changed for the class.
    fn is_of(&self, class: Class) -> bool
        ensures { result ≡ has_class class self.now.classes }
    {
        (self.classes >> class.number()) & 1 == 1
    }
}

/// The rectangles of the parts that have changed for the class.
pub fn rects_of(alloc: Global, parts: &[ChangedPart], class: Class) -> Result<Vec<Rect>, NoMemory>
    ensures kept { IfOk result (λ rects. (cell : Cell) → IsOutside rects.items cell → IsKept parts.now class cell) }
    ensures inside { IfOk result (λ rects. (size : Size) → All (λ part. IsRectInside size part.rect) parts.now
        → All (IsRectInside size) rects.items) }
{
    let mut rects = Vec::with_capacity(alloc, parts.len())?;
    for part in parts {
        if part.is_of(class) {
            rects.push(part.rect)?;
        }
    }
    Ok(rects)
}

/// The rectangles of all parts.
pub fn all_rects(alloc: Global, parts: &[ChangedPart]) -> Result<Vec<Rect>, NoMemory>
    ensures { IfOk result (λ rects. rects.items ≡ map (λ part. part.rect) parts.now) }
{
    let mut rects = Vec::with_capacity(alloc, parts.len())?;
    for part in parts {
        rects.push(part.rect)?;
    }
    Ok(rects)
}
