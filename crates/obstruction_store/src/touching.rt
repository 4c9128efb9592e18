//! The standing obstructions that reach into a rectangle.
ghost use Rattle.std.specs.Prelude.{◌↔◌, IsTrue, IfOk};
ghost use Rattle.obstruction_shapes.specs.Shapes.{FitsMap};
ghost use Rattle.obstruction_store.specs.Standing.{AllFit};
ghost use Rattle.obstruction_store.specs.Touching.{Touches, AreTouching};

use crate::stores::Store;
use fixed_point::Fixed;
use nav_types::{NoMemory, Rect, Sequence, Size};
use obstruction_shapes::{Shape, reach_rect};
use std::alloc::Global;

/// Numbers of obstructions.
pub type Ids = Sequence<u32>;

impl Store {
    /// The numbers of the standing obstructions that touch the rectangle, rising, each once: those whose
    /// reach for this clearance has a cell of the map in common with it (`AreTouching`, `Touches`).
    ///
    /// Each standing shape fits the size.
    pub fn touching(
        &self,
        alloc: Global,
        rect: Rect,
        clearance: Fixed,
        size: Size,
    ) -> Result<Ids, NoMemory>
        requires { AllFit size self.now }
        ensures { IfOk result (λ ids. AreTouching size rect clearance self.now ids) }
    {
        let mut ids = Ids::new(alloc);
        let listed = self.listed(alloc)?;
        for (id, obstruction) in listed.entries() {
            if touches(&obstruction.shape, rect, clearance, size) {
                ids.push(id)?;
            }
        }
        Ok(ids)
    }
}

/// Whether the shape, which fits the size, touches the rectangle (`Touches`).
fn touches(shape: &Shape, rect: Rect, clearance: Fixed, size: Size) -> bool
    requires { FitsMap size shape.now }
    ensures { IsTrue result ↔ Touches size rect clearance shape.now }
{
    match reach_rect(shape, clearance, size) {
        Some(reach) => reach.meets(rect),
        None => false,
    }
}
