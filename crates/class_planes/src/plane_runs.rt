//! Runs over a view that has planes.
ghost use Rattle.std.specs.Prelude.{◌<◌, IsTrue, IsFalse, IfSome, IfNone};
ghost use Rattle.nav_types.specs.declared.cells.Cell.{Cell};
ghost use Rattle.nav_types.specs.Directions.{is_straight};
ghost use Rattle.jump_scan.specs.Stops.{IsStraightStop, IsDiagonalStop, IsDiagonalStopWithin};
ghost use Rattle.class_planes.specs.Planes.{is_passable};

use crate::class_plane::ClassPlane;
use crate::plane_sets::Planes;
use crate::{beside_cells, plane_scans};
use jump_scan::Runs;
use nav_types::{Aim, Cell, Class, Dir, DirSet, Heading, Size, View};
use std::marker::Model;

/// A view with planes of it, whose runs are scanned 64 cells at a time. A class without a plane is scanned cell by
/// cell. Contracts see the view.
#[derive(Drop)]
pub struct PlaneRuns<'a, V: View> {
    view: &'a V,
    planes: &'a Planes,
    class: Class,
    plane: Option<&'a ClassPlane>,
}

impl<'a, V: View> Model for PlaneRuns<'a, V> {
    ghost use Rattle.std.specs.Prelude.{IfSome};
    ghost use Rattle.class_planes.specs.Planes.{AreOf, IsPlaneOf};

    ghost Value = { V };

    ghost view = { λ r. r.view.now };

    ghost invariant = { λ r. AreOf (V.extent r.view.now) (V.passes r.view.now) r.planes.now
        × IfSome r.plane (λ plane. IsPlaneOf (V.extent r.view.now) (V.passes r.view.now r.class) plane.now) };
}

impl<'a, V: View> PlaneRuns<'a, V> {
    ghost use Rattle.std.specs.Prelude.{◌≡◌, IfSome};
    ghost use Rattle.class_planes.specs.Planes.{AreOf, IsPlaneOf};

    /// The runs over the view by these planes, which must be planes of it.
    ///
    /// The plane of the class is looked up once, so that runs of that class cost less.
    pub fn new(view: &'a V, planes: &'a Planes, class: Class) -> PlaneRuns<'a, V>
        requires { AreOf (V.extent view.now) (V.passes view.now) planes.now }
        ensures { result ≡ view.now }
    {
        PlaneRuns {
            view,
            planes,
            class,
            plane: planes.plane(class),
        }
    }

    /// The plane of a class.
    #[inline(always)]
    fn plane(&self, class: Class) -> Option<&ClassPlane>
        ensures { IfSome result (λ plane. IsPlaneOf (V.extent self.now) (V.passes self.now class) plane.now) }
    {
        if class.number() == self.class.number() {
            self.plane
        } else {
            self.planes.plane(class)
        }
    }
}

impl<'a, V: View> View for PlaneRuns<'a, V> {
    ghost extent = { V.extent };

    ghost class_count = { V.class_count };

    ghost passes = { V.passes };

    fn size(&self) -> Size {
        self.view.size()
    }

    fn classes(&self) -> u8 {
        self.view.classes()
    }

    fn passable(&self, class: Class, cell: Cell) -> bool {
        match self.plane(class) {
            Some(plane) => plane.passable(cell),
            None => self.view.passable(class, cell),
        }
    }

    ghost within = { V.within };
}

impl<'a, V: View> Runs for PlaneRuns<'a, V> {
    #[inline(always)]
    fn beside(&self, class: Class, cell: Cell) -> DirSet {
        match self.plane(class) {
            Some(plane) => beside_cells::beside(plane, cell),
            None => jump_scan::beside(self.view, class, cell),
        }
    }

    #[inline(always)]
    fn straight<A: Aim>(&self, class: Class, from: Cell, dir: Dir, aim: &A) -> Option<Cell> {
        match self.plane(class) {
            Some(plane) => straight_stop(plane, from, dir, aim),
            None => straight_by_cells(self.view, class, from, dir, aim),
        }
    }

    #[inline(always)]
    fn diagonal<A: Aim>(&self, class: Class, from: Cell, dir: Dir, aim: &A) -> Option<Cell> {
        match self.plane(class) {
            Some(plane) => diagonal_stop(plane, from, dir, aim),
            None => diagonal_by_cells(self.view, class, from, dir, aim),
        }
    }

    #[inline(never)]
    fn diagonal_within<A: Aim>(
        &self,
        class: Class,
        from: Cell,
        dir: Dir,
        aim: &A,
        most: u16,
    ) -> Option<Cell> {
        match self.plane(class) {
            Some(plane) => stop_within(plane, from, dir, aim, most),
            None => jump_scan::diagonal_within(self.view, class, from, dir, aim, most),
        }
    }
}

/// The stop of the straight run from the cell, scanned cell by cell. Its answer is kept apart from that of a plane, which
/// then needs no memory.
#[inline(always)]
fn straight_by_cells<V: View, A: Aim>(
    view: &V,
    class: Class,
    from: Cell,
    dir: Dir,
    aim: &A,
) -> Option<Cell>
    requires class { class < V.class_count view.now }
    requires start { IsTrue (V.passes view.now class from) }
    requires straight { IsTrue (is_straight dir) }
    requires aim { A.sound aim.now (V.extent view.now) }
    ensures some { IfSome result
        (IsStraightStop (V.passes view.now class) (A.hit aim.now (V.extent view.now)) dir from) }
    ensures none { IfNone result
        ((stop : Cell) → ¬ IsStraightStop (V.passes view.now class) (A.hit aim.now (V.extent view.now)) dir from stop) }
{
    jump_scan::straight(view, class, from, dir, aim)
}

/// The stop of the diagonal run from the cell, scanned cell by cell.
#[inline(always)]
fn diagonal_by_cells<V: View, A: Aim>(
    view: &V,
    class: Class,
    from: Cell,
    dir: Dir,
    aim: &A,
) -> Option<Cell>
    requires class { class < V.class_count view.now }
    requires start { IsTrue (V.passes view.now class from) }
    requires diagonal { IsFalse (is_straight dir) }
    requires aim { A.sound aim.now (V.extent view.now) }
    ensures some { IfSome result
        (IsDiagonalStop (V.passes view.now class) (A.hit aim.now (V.extent view.now)) dir from) }
    ensures none { IfNone result
        ((stop : Cell) → ¬ IsDiagonalStop (V.passes view.now class) (A.hit aim.now (V.extent view.now)) dir from stop) }
{
    jump_scan::diagonal(view, class, from, dir, aim)
}

/// The stop of the straight run from the cell.
#[inline(always)]
fn straight_stop<A: Aim>(plane: &ClassPlane, from: Cell, dir: Dir, aim: &A) -> Option<Cell>
    requires start { IsTrue (is_passable plane.now from) }
    requires straight { IsTrue (is_straight dir) }
    requires aim { A.sound aim.now plane.now.size }
    ensures some { IfSome result
        (IsStraightStop (is_passable plane.now) (A.hit aim.now plane.now.size) dir from) }
    ensures none { IfNone result
        ((stop : Cell) → ¬ IsStraightStop (is_passable plane.now) (A.hit aim.now plane.now.size) dir from stop) }
{
    match dir.heading() {
        Heading::Straight(straight) => {
            plane_scans::straight(plane, from, straight, aim.bounds(plane.size()), aim)
        }
        Heading::Diagonal(_) => None,
    }
}

/// The stop of the diagonal run from the cell.
#[inline(always)]
fn diagonal_stop<A: Aim>(plane: &ClassPlane, from: Cell, dir: Dir, aim: &A) -> Option<Cell>
    requires start { IsTrue (is_passable plane.now from) }
    requires diagonal { IsFalse (is_straight dir) }
    requires aim { A.sound aim.now plane.now.size }
    ensures some { IfSome result
        (IsDiagonalStop (is_passable plane.now) (A.hit aim.now plane.now.size) dir from) }
    ensures none { IfNone result
        ((stop : Cell) → ¬ IsDiagonalStop (is_passable plane.now) (A.hit aim.now plane.now.size) dir from stop) }
{
    match dir.heading() {
        Heading::Diagonal(diagonal) => {
            plane_scans::diagonal(plane, from, diagonal, aim.bounds(plane.size()), aim)
        }
        Heading::Straight(_) => None,
    }
}

/// The stop of the diagonal run from the cell where it is at most so many steps away.
fn stop_within<A: Aim>(plane: &ClassPlane, from: Cell, dir: Dir, aim: &A, most: u16) -> Option<Cell>
    requires start { IsTrue (is_passable plane.now from) }
    requires diagonal { IsFalse (is_straight dir) }
    requires aim { A.sound aim.now plane.now.size }
    ensures some { IfSome result
        (IsDiagonalStopWithin (is_passable plane.now) (A.hit aim.now plane.now.size) dir most from) }
    ensures none { IfNone result ((stop : Cell)
        → ¬ IsDiagonalStopWithin (is_passable plane.now) (A.hit aim.now plane.now.size) dir most from stop) }
{
    match dir.heading() {
        Heading::Diagonal(diagonal) => {
            let rect = aim.bounds(plane.size());
            plane_scans::diagonal_within(plane, from, diagonal, rect, aim, most)
        }
        Heading::Straight(_) => None,
    }
}
