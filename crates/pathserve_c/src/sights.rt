//! Lines of sight, and the smoothing of waypoints that a game holds.
ghost use Rattle.std.specs.Prelude.{◌≡◌, ◌≤◌, ◌<◌, ◌↔◌, ◌++◌, drop, length, map, IfErr, IfOk, IsTrue, Some, ℕ};
ghost use Rattle.nav_types.specs.Cells.{cell_at};
ghost use Rattle.line_smooth.specs.Segments.{IsClear};
ghost use Rattle.flat_posts.specs.Cells.{flat_cell};
ghost use Rattle.grid_versions.specs.Versions.{passes_of};
ghost use Rattle.pathserve_c.specs.Handles.{IsHandle, passes_seen, state_of};
ghost use Rattle.pathserve_c.specs.Sights.{IsHeldWalk, IsOneWhere, IsSmoothed, SmoothsAs, cell_held, cells_held};
ghost use Rattle.pathserve_c.specs.inner.Smoothings.{IsSmoothedAs};

use crate::handles::Handle;
use crate::questions::class_of;
use crate::states::State;
use crate::statuses::{CLOSED, OTHER, PostFault, status_of_posts};
use flat_posts::FlatCell;
use flat_ways::are_corners;
use grid_versions::Version;
use line_smooth::{clear, smooth};
use nav_types::{Cell, Class, NoMemory, Sequence, View};
use std::alloc::Global;
use walks::Waypoints;

/// Whether the straight line between the middles of two cells is clear for a class, as 1 or 0.
#[unsafe(no_mangle)]
pub extern "C" fn pathserve_clear(
    alloc: Global,
    view: &mut Handle,
    class_number: u32,
    from: &FlatCell,
    to: &FlatCell,
) -> u32
    requires handle { IsHandle view.old }
    ensures handle { IsHandle view.new }
    ensures same { state_of view.new ≡ state_of view.old }
    ensures clear { IsOneWhere (IsClear (passes_seen (state_of view.old) class_number) (cell_held from.now) (cell_held to.now))
        result }
{
    let Some(state) = view.take(alloc) else {
        return 0;
    };
    let said = say_clear(&state, class_number, cell_of(*from), cell_of(*to));
    view.put(state);
    said
}

/// Whether a line is clear on what a handle shows, as 1 or 0; on anything else than a view none is.
#[tactic(auto, using(crate::proofs::Sighted::said_no, crate::proofs::Sighted::said_yes, crate::proofs::Sighted::unseen))]
fn say_clear(state: &State, class_number: u32, from: Cell, to: Cell) -> u32
    ensures { IsOneWhere (IsClear (passes_seen (Some state.now) class_number) from to) result }
{
    match state {
        State::View(version) => {
            if is_clear(version, class_number, from, to) {
                1
            } else {
                0
            }
        }
        State::Text(_) | State::Structs(_) | State::Finder(_) => 0,
    }
}

/// Keeps, of the waypoints of a walk, those of its smoothed walk, at the head of the buffer, and tells how many they are.
#[unsafe(no_mangle)]
pub extern "C" fn pathserve_smooth(
    alloc: Global,
    view: &mut Handle,
    class_number: u32,
    start: &FlatCell,
    waypoints: &mut [FlatCell],
    kept: &mut usize,
) -> u32
    requires handle { IsHandle view.old }
    ensures handle { IsHandle view.new }
    ensures same { state_of view.new ≡ state_of view.old }
    ensures smoothed { IsSmoothed (state_of view.old) class_number (cell_held start.now)
        (record { waypoints = waypoints.old; kept = kept.old }) (record { waypoints = waypoints.new; kept = kept.new }) result }
{
    let Some(state) = view.take(alloc) else {
        return CLOSED;
    };
    let status = smooth_in(
        alloc,
        &state,
        class_number,
        cell_of(*start),
        waypoints,
        kept,
    );
    view.put(state);
    status
}

/// Smooths the waypoints of a walk on what a handle shows; anything else than a view refuses.
fn smooth_in(
    alloc: Global,
    state: &State,
    class_number: u32,
    start: Cell,
    waypoints: &mut [FlatCell],
    kept: &mut usize,
) -> u32
    ensures { IsSmoothed (Some state.now) class_number start (record { waypoints = waypoints.old; kept = kept.old })
        (record { waypoints = waypoints.new; kept = kept.new }) result }
{
    let State::View(version) = state else {
        return OTHER;
    };
    status_of_posts(smooth_on(alloc, version, class_number, start, waypoints, kept))
}

/// The cell that a flat one is.
fn cell_of(flat: FlatCell) -> Cell
    ensures { result ≡ cell_held flat }
{
    Cell::new(flat.i, flat.j)
}

/// Whether the straight line between the middles of two cells is clear for the class of a number.
fn is_clear(version: &Version, class_number: u32, from: Cell, to: Cell) -> bool
    ensures { IsTrue result ↔ IsClear (passes_of version.now class_number) from to }
{
    match class_of(version, class_number) {
        Some(class) => sees(version, class, from, to),
        None => false,
    }
}

/// Whether the straight line between the middles of two cells is clear for a class of the map.
#[tactic(auto, using(crate::proofs::Sighted::hidden_from, crate::proofs::Sighted::hidden_to))]
fn sees(version: &Version, class: Class, from: Cell, to: Cell) -> bool
    requires { class < length version.now.map.classes }
    ensures { IsTrue result ↔ IsClear (passes_of version.now class) from to }
{
    let size = version.map().size();
    if !size.has(from) {
        return false;
    }
    if !size.has(to) {
        return false;
    }
    let view = version.class_view(class);
    clear(&view, class, from, to)
}

/// Smooths the waypoints of a walk on a version. Where it refuses nothing is written.
#[tactic(auto, using(crate::proofs::Sighted::smooths, crate::proofs::Sighted::smooths_not))]
fn smooth_on(
    alloc: Global,
    version: &Version,
    class_number: u32,
    start: Cell,
    waypoints: &mut [FlatCell],
    kept: &mut usize,
) -> Result<(), PostFault>
    ensures { SmoothsAs version.now class_number start (record { waypoints = waypoints.old; kept = kept.old })
        (record { waypoints = waypoints.new; kept = kept.new }) result }
{
    let points = smoothed(alloc, version, class_number, start, waypoints)?;
    write_cells(points.as_slice(), waypoints);
    *kept = points.len();
    Ok(())
}

/// The smoothed waypoints of a walk of the class of a number. It refuses where there is no such walk.
#[tactic(auto, using(crate::proofs::Sighted::classless_walk))]
fn smoothed(
    alloc: Global,
    version: &Version,
    class_number: u32,
    start: Cell,
    waypoints: &[FlatCell],
) -> Result<Waypoints, PostFault>
    ensures { IsSmoothedAs version.now class_number start (cells_held waypoints.now) result }
{
    let Ok(corners) = cells_of(alloc, waypoints) else {
        return Err(PostFault::NoMemory);
    };
    let Some(class) = class_of(version, class_number) else {
        return Err(PostFault::BadValue);
    };
    if !is_walk(version, class, start, &corners) {
        return Err(PostFault::BadValue);
    }
    smoothed_walk(alloc, version, class, start, &corners)
}

/// The smoothed waypoints of corners that are those of a walk of a class.
fn smoothed_walk(
    alloc: Global,
    version: &Version,
    class: Class,
    start: Cell,
    corners: &Waypoints,
) -> Result<Waypoints, PostFault>
    requires class { class < length version.now.map.classes }
    requires walk { IsHeldWalk version.now class start corners.now }
    ensures { IsSmoothedAs version.now class start corners.now result }
{
    let view = version.class_view(class);
    match smooth(alloc, &view, class, start, corners) {
        Ok(points) => Ok(points),
        Err(NoMemory) => Err(PostFault::NoMemory),
    }
}

/// Whether corners are the waypoints of a walk of a class from a passable start.
#[tactic(auto, using(crate::proofs::Sighted::start_outside))]
fn is_walk(version: &Version, class: Class, start: Cell, corners: &Waypoints) -> bool
    requires { class < length version.now.map.classes }
    ensures { IsTrue result ↔ IsHeldWalk version.now class start corners.now }
{
    if !version.map().size().has(start) {
        return false;
    }
    let view = version.class_view(class);
    view.passable(class, start) && are_corners(&view, class, start, corners.as_slice())
}

/// The cells that flat ones are.
fn cells_of(alloc: Global, flats: &[FlatCell]) -> Result<Waypoints, NoMemory>
    ensures { IfOk result (λ cells. cells ≡ cells_held flats.now) }
{
    let mut cells = Sequence::new(alloc);
    for flat in flats {
        cells.push(cell_of(*flat))?;
    }
    Ok(cells)
}

/// Writes cells to the head of a buffer that holds them.
fn write_cells(cells: &[Cell], buffer: &mut [FlatCell])
    requires { length cells.now ≤ length buffer.old }
    ensures { buffer.new ≡ map flat_cell cells.now ++ drop (length cells.now) buffer.old }
{
    for at in 0..cells.len() {
        buffer[at] = FlatCell::of(cells[at]);
    }
}
