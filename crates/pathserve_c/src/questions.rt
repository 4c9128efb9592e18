//! Small questions to a view, answered without a search.
ghost use Rattle.std.specs.Prelude.{◌≡◌, ◌<◌, ◌↔◌, length, Some, IfNone, IfSome, IsTrue};
ghost use Rattle.fixed_point.specs.Plane.{IsOnAxis};
ghost use Rattle.nav_types.specs.declared.cells.Cell.{Cell};
ghost use Rattle.flat_posts.specs.declared.posted.FlatPost.{FlatPost};
ghost use Rattle.pathserve_c.specs.Handles.{IsHandle, state_of};
ghost use Rattle.pathserve_c.specs.Questions.{AddsStanding, IsSaid, IsSizeOf, StartsAt, StartsIn};

use crate::handles::Handle;
use crate::states::State;
use fixed_point::Fixed;
use flat_posts::{FlatCell, FlatPost};
use goal_reach::nearest_passable;
use goal_shapes::cell_of_point;
use grid_versions::Version;
use nav_types::{Cell, Class, Size};
use posts::{Edit, Post};
use std::alloc::Global;

/// How many columns and rows the map has: 1 and these, or 0 of a closed view.
#[unsafe(no_mangle)]
pub extern "C" fn pathserve_view_size(alloc: Global, view: &mut Handle, size: &mut FlatCell) -> u32
    requires handle { IsHandle view.old }
    ensures handle { IsHandle view.new }
    ensures same { state_of view.new ≡ state_of view.old }
    ensures said { IsSaid IsSizeOf (state_of view.old) size.old size.new result }
{
    let Some(state) = view.take(alloc) else {
        return 0;
    };
    let said = say_size(&state, size);
    view.put(state);
    said
}

/// The cell in which a path of a class from the point (x, z) starts: 1 and the cell, or 0 where there is none.
#[unsafe(no_mangle)]
pub extern "C" fn pathserve_nearest(
    alloc: Global,
    view: &mut Handle,
    class_number: u32,
    x: i32,
    z: i32,
    cell: &mut FlatCell,
) -> u32
    requires handle { IsHandle view.old }
    ensures handle { IsHandle view.new }
    ensures same { state_of view.new ≡ state_of view.old }
    ensures said { IsSaid (λ version. StartsIn version class_number x z) (state_of view.old) cell.old cell.new result }
{
    let Some(state) = view.take(alloc) else {
        return 0;
    };
    let said = say_start(&state, class_number, x, z, cell);
    view.put(state);
    said
}

/// The post that adds what stands under a number: 1 and the post, or 0 where nothing stands under it.
#[unsafe(no_mangle)]
pub extern "C" fn pathserve_standing_at(
    alloc: Global,
    view: &mut Handle,
    id: u32,
    post: &mut FlatPost,
) -> u32
    requires handle { IsHandle view.old }
    ensures handle { IsHandle view.new }
    ensures same { state_of view.new ≡ state_of view.old }
    ensures said { IsSaid (λ version. AddsStanding version id) (state_of view.old) post.old post.new result }
{
    let Some(state) = view.take(alloc) else {
        return 0;
    };
    let said = say_standing(&state, id, post);
    view.put(state);
    said
}

/// Says the size of the map that a handle shows; anything else than a view says nothing.
fn say_size(state: &State, size: &mut FlatCell) -> u32
    ensures { IsSaid IsSizeOf (Some state.now) size.old size.new result }
{
    let State::View(version) = state else {
        return 0;
    };
    let Size { w, h } = version.map().size();
    *size = FlatCell { i: w, j: h };
    1
}

/// Says where a path starts on what a handle shows; anything else than a view says nothing.
fn say_start(state: &State, class_number: u32, x: i32, z: i32, cell: &mut FlatCell) -> u32
    ensures { IsSaid (λ version. StartsIn version class_number x z) (Some state.now) cell.old cell.new result }
{
    let State::View(version) = state else {
        return 0;
    };
    match start_cell(version, class_number, x, z) {
        Some(start) => {
            *cell = FlatCell::of(start);
            1
        }
        None => 0,
    }
}

/// Says what stands under a number on what a handle shows; anything else than a view says nothing.
fn say_standing(state: &State, id: u32, post: &mut FlatPost) -> u32
    ensures { IsSaid (λ version. AddsStanding version id) (Some state.now) post.old post.new result }
{
    let State::View(version) = state else {
        return 0;
    };
    match standing_under(version, id) {
        Some(add) => {
            *post = add;
            1
        }
        None => 0,
    }
}

/// The cell in which a path of a class from the point (x, z) starts.
#[tactic(auto, using(crate::proofs::Starts::no_class))]
fn start_cell(version: &Version, class_number: u32, x: i32, z: i32) -> Option<Cell>
    ensures some { IfSome result (StartsAt version.now class_number x z) }
    ensures none { IfNone result ((cell : Cell) → StartsAt version.now class_number x z cell → ⊥) }
{
    match class_of(version, class_number) {
        Some(class) => start_of(version, class, Fixed::from_raw(x), Fixed::from_raw(z)),
        None => None,
    }
}

/// The class of a number.
pub(crate) fn class_of(version: &Version, class_number: u32) -> Option<Class>
    ensures some { IfSome result (λ class. (class ≡ class_number) × (class_number < length version.now.map.classes)) }
    ensures none { IfNone result (class_number < length version.now.map.classes → ⊥) }
{
    if class_number < u32::from(version.map().classes().count()) {
        Some(Class::new(class_number as u8))
    } else {
        None
    }
}

/// The cell in which a path of a class of the map from the point (x, z) starts.
#[tactic(auto, using(crate::proofs::Starts::start_there))]
pub(crate) fn start_of(version: &Version, class: Class, x: Fixed, z: Fixed) -> Option<Cell>
    requires class { class < length version.now.map.classes }
    ensures some { IfSome result (StartsAt version.now class x z) }
    ensures none { IfNone result ((cell : Cell) → StartsAt version.now class x z cell → ⊥) }
{
    if is_on_map(version, x, z) && version.has_passable(class) {
        nearest_passable(version, class, x, z)
    } else {
        None
    }
}

/// Whether a point lies on the map.
pub(crate) fn is_on_map(version: &Version, x: Fixed, z: Fixed) -> bool
    ensures { IsTrue result ↔ (IsOnAxis version.now.map.size.w x × IsOnAxis version.now.map.size.h z) }
{
    cell_of_point(x, z, version.map().size()).is_some()
}

/// The post by which caller 0 adds what stands under a number.
fn standing_under(version: &Version, id: u32) -> Option<FlatPost>
    ensures some { IfSome result (AddsStanding version.now id) }
    ensures none { IfNone result ((post : FlatPost) → AddsStanding version.now id post → ⊥) }
{
    match version.shapes().get(id) {
        Some(obstruction) => {
            let obstruction = *obstruction;
            FlatPost::of(0, &Post::Edit(Edit::Add { id, obstruction }), version.map())
        }
        None => None,
    }
}
