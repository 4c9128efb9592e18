//! The planes of several classes of a map.
ghost use Rattle.std.specs.Prelude.{◌≡◌, ◌==◌, ◌<◌, All, Some, None, is_some, slice_index_or, IfOk, IfSome, IfNone};
ghost use Rattle.std.specs.Arc.{arc_value};
ghost use Rattle.std.specs.Int.{bit_at};
ghost use Rattle.std.specs.Option.{option_map};
ghost use Rattle.nav_types.specs.declared.cells.Cell.{Cell};
ghost use Rattle.nav_types.specs.Cells.{IsRectInside};
ghost use Rattle.class_planes.specs.Planes.{IsPlaneOf, IsPlaneIn, ArePlanes, AreOf, AreOfBefore, AreOfSame, IsKept};
ghost use Rattle.class_planes.specs.inner.Changes.{IsPlaneBefore};
ghost use Rattle.class_planes.specs.inner.Reading.{AreRead, IsUnread};

use crate::changed_parts::{ChangedPart, all_rects, rects_of};
use crate::class_plane::ClassPlane;
use crate::read_cells::{ReadRect, read_rects};
use nav_types::{Class, NoMemory, Rows};
use std::alloc::Global;
use std::marker::Model;
use std::sync::Arc;

/// The planes of some classes of a map. Contracts see a list with an entry for each class of the map.
///
/// Planes of two maps may share the classes for which both maps have the same cells.
#[derive(Drop)]
pub struct Planes {
    planes: Vec<Option<Arc<ClassPlane, Global>>>,
}

impl Model for Planes {
    ghost use Rattle.std.specs.Prelude.{List, Option, map};
    ghost use Rattle.std.specs.Option.{option_map};
    ghost use Rattle.std.specs.Arc.{arc_value};
    ghost use Rattle.class_planes.specs.Planes.{PlaneCells};

    ghost Value = { List (Option PlaneCells) };

    ghost view = { λ p. map (option_map arc_value) p.planes.items };
}

impl Planes {
    /// The plane of each class of the map whose bit is set in the mask (`ArePlanes`). They are planes of the map
    /// (`AreOf`), which is what `PlaneRuns::new` asks for.
    pub fn build<V: Rows>(alloc: Global, view: &V, classes: u16) -> Result<Planes, NoMemory>
        ensures wanted { IfOk result
            (ArePlanes (V.extent view.now) (V.passes view.now) classes (V.class_count view.now)) }
        ensures of_map { IfOk result (AreOf (V.extent view.now) (V.passes view.now)) }
    {
        let count = view.classes();
        let mut planes = Vec::with_capacity(alloc, usize::from(count))?;
        for number in 0..count {
            let plane = plane_in(alloc, view, classes, number)?;
            planes.push(plane)?;
        }
        Ok(Planes { planes })
    }

    /// The planes of a map that has changed in some parts, where these are those of before (`AreOfBefore`). They are
    /// of the same classes (`AreOfSame`). A class for which no part has changed has the same plane, and the plane of
    /// another shares with the one of before what lies outside of the parts.
    pub fn updated<V: Rows>(
        &self,
        alloc: Global,
        view: &V,
        parts: &[ChangedPart],
    ) -> Result<Planes, NoMemory>
        requires before { AreOfBefore (V.extent view.now) (V.class_count view.now) (V.passes view.now) parts.now
            self.now }
        requires inside { All (λ part. IsRectInside (V.extent view.now) part.rect) parts.now }
        ensures { IfOk result (AreOfSame (V.extent view.now) (V.passes view.now) self.now) }
    {
        let count = self.planes.len().min(usize::from(view.classes()));
        let rects = all_rects(alloc, parts)?;
        let reads = read_rects(alloc, view, &rects)?;
        let mut planes = Vec::with_capacity(alloc, count)?;
        for number in 0..count {
            let class = Class::new(number as u8);
            let plane = next_plane(alloc, view, class, &reads, parts, &self.planes[number])?;
            planes.push(plane)?;
        }
        Ok(Planes { planes })
    }

    /// The plane of a class. None exactly where the planes have none of it.
    pub fn plane(&self, class: Class) -> Option<&ClassPlane>
        ensures some { IfSome result (λ plane. slice_index_or self.now class None ≡ Some plane.now) }
        ensures none { IfNone result (slice_index_or self.now class None ≡ None) }
    {
        match self.planes.get(usize::from(class.number())) {
            Some(plane) => plane.as_deref(),
            None => None,
        }
    }
}

/// The plane of the class of this number, where its bit is set in the mask.
fn plane_in<V: Rows>(
    alloc: Global,
    view: &V,
    classes: u16,
    number: u8,
) -> Result<Option<Arc<ClassPlane, Global>>, NoMemory>
    requires known { number < V.class_count view.now }
    requires small { number < 16 }
    ensures { IfOk result (λ plane. IsPlaneIn (V.extent view.now) (V.passes view.now number)
        (bit_at classes number == 1) (option_map arc_value plane)) }
{
    if (classes >> number) & 1 == 1 {
        let plane = ClassPlane::build(alloc, view, Class::new(number))?;
        Ok(Some(Arc::new(alloc, plane)?))
    } else {
        Ok(None)
    }
}

/// The plane of the class after some parts have changed, where there was one before.
fn next_plane<V: Rows>(
    alloc: Global,
    view: &V,
    class: Class,
    reads: &[ReadRect],
    parts: &[ChangedPart],
    before: &Option<Arc<ClassPlane, Global>>,
) -> Result<Option<Arc<ClassPlane, Global>>, NoMemory>
    requires class { class < V.class_count view.now }
    requires read { All (AreRead (V.extent view.now) (V.class_count view.now) (V.passes view.now)) reads.now }
    requires unread { (cell : Cell) → IsUnread reads.now cell → IsKept parts.now class cell }
    requires inside { All (λ part. IsRectInside (V.extent view.now) part.rect) parts.now }
    requires before { IfSome before.now (λ plane.
        IsPlaneBefore (V.extent view.now) (V.passes view.now class) parts.now class (arc_value plane)) }
    ensures { IfOk result (λ next. IsPlaneIn (V.extent view.now) (V.passes view.now class)
        (is_some before.now) (option_map arc_value next)) }
{
    match before {
        Some(plane) => {
            let next = updated_plane(alloc, view, class, reads, parts, plane)?;
            Ok(Some(next))
        }
        None => Ok(None),
    }
}

/// The plane of the class after some parts have changed. It is the same plane, where none has for the class.
fn updated_plane<V: Rows>(
    alloc: Global,
    view: &V,
    class: Class,
    reads: &[ReadRect],
    parts: &[ChangedPart],
    before: &Arc<ClassPlane, Global>,
) -> Result<Arc<ClassPlane, Global>, NoMemory>
    requires class { class < V.class_count view.now }
    requires read { All (AreRead (V.extent view.now) (V.class_count view.now) (V.passes view.now)) reads.now }
    requires unread { (cell : Cell) → IsUnread reads.now cell → IsKept parts.now class cell }
    requires inside { All (λ part. IsRectInside (V.extent view.now) part.rect) parts.now }
    requires before { IsPlaneBefore (V.extent view.now) (V.passes view.now class) parts.now class
        (arc_value before.now) }
    ensures { IfOk result (λ plane. IsPlaneOf (V.extent view.now) (V.passes view.now class) (arc_value plane)) }
{
    let rects = rects_of(alloc, parts, class)?;
    if rects.is_empty() {
        return Ok(Arc::try_clone(before)?);
    }
    let plane = before.renewed(alloc, view, class, reads, &rects)?;
    Ok(Arc::new(alloc, plane)?)
}
