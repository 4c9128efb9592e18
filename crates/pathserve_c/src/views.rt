//! Calls of views: what stands, looked at beside a match.
ghost use Rattle.std.specs.Prelude.{ℕ, ◌≡◌, ◌<◌, ◌+◌, ◌/◌, ◌%◌, drop, length, min, slice_index, IfNone, IfOk, IfSome};
ghost use Rattle.std.specs.Int.{bit_at};
ghost use Rattle.lane_rows.specs.Rows.{one_if};
ghost use Rattle.nav_types.specs.Cells.{IsInside, cell_at, chunk_of};
ghost use Rattle.nav_types.specs.Regions.{HasArea, HasRegion};
ghost use Rattle.class_planes.specs.Planes.{AreFreeBits};
ghost use Rattle.grid_versions.specs.Versions.{passes_of};
ghost use Rattle.pathserve_c.specs.Calls.{IsViewed, version_in};
ghost use Rattle.pathserve_c.specs.Handles.{IsHandle, passes_seen, state_of, words_of, words_of_row};

use crate::handles::Handle;
use crate::states::State;
use crate::statuses::{CLOSED, DONE, NO_MAP, NO_MEMORY, OPEN};
use grid_versions::Version;
use nav_types::{Areas, Cell, Class, NoMemory, View};
use std::alloc::Global;

/// Opens a closed view of what stands after the turns of a match that have ended.
#[unsafe(no_mangle)]
pub extern "C" fn pathserve_view_of(alloc: Global, game: &mut Handle, view: &mut Handle) -> u32
    requires handle { IsHandle game.old }
    requires view { IsHandle view.old }
    ensures handle { IsHandle game.new }
    ensures same { state_of game.new ≡ state_of game.old }
    ensures view { IsHandle view.new }
    ensures viewed { IsViewed (state_of game.old) (state_of view.old) (state_of view.new) result }
{
    open_view(alloc, game, view)
}

/// Opens a closed view of what another view shows.
#[unsafe(no_mangle)]
pub extern "C" fn pathserve_view_again(alloc: Global, from: &mut Handle, view: &mut Handle) -> u32
    requires handle { IsHandle from.old }
    requires view { IsHandle view.old }
    ensures handle { IsHandle from.new }
    ensures same { state_of from.new ≡ state_of from.old }
    ensures view { IsHandle view.new }
    ensures viewed { IsViewed (state_of from.old) (state_of view.old) (state_of view.new) result }
{
    open_view(alloc, from, view)
}

/// Closes a view. A closed one stays closed.
#[unsafe(no_mangle)]
pub extern "C" fn pathserve_view_close(alloc: Global, view: &mut Handle)
    requires handle { IsHandle view.old }
    ensures handle { IsHandle view.new }
    ensures closed { view.new.live ≡ 0 }
{
    drop(view.take(alloc));
}

/// Whether a cell is passable for a class, as 1 or 0.
#[unsafe(no_mangle)]
pub extern "C" fn pathserve_passable(
    alloc: Global,
    view: &mut Handle,
    class_number: u32,
    i: u32,
    j: u32,
) -> u32
    requires handle { IsHandle view.old }
    ensures handle { IsHandle view.new }
    ensures same { state_of view.new ≡ state_of view.old }
    ensures passable { result ≡ one_if (passes_seen (state_of view.old) class_number (cell_at i j)) }
{
    let Some(state) = view.take(alloc) else {
        return 0;
    };
    let passable = match &*state {
        State::View(version) => passable(version, class_number, i, j),
        State::Text(_) | State::Structs(_) | State::Finder(_) => 0,
    };
    view.put(state);
    passable
}

/// The number of the region of a cell in its chunk, for a class.
#[unsafe(no_mangle)]
pub extern "C" fn pathserve_region(
    alloc: Global,
    view: &mut Handle,
    class_number: u32,
    i: u32,
    j: u32,
) -> u32
    requires handle { IsHandle view.old }
    ensures handle { IsHandle view.new }
    ensures same { state_of view.new ≡ state_of view.old }
    ensures region { HasRegion (passes_seen (state_of view.old) class_number) (chunk_of (cell_at i j)) (cell_at i j) result }
{
    let Some(state) = view.take(alloc) else {
        return 0;
    };
    let region = match &*state {
        State::View(version) => region(version, class_number, i, j),
        State::Text(_) | State::Structs(_) | State::Finder(_) => 0,
    };
    view.put(state);
    region
}

/// The number of the area of a cell, for a class.
#[unsafe(no_mangle)]
pub extern "C" fn pathserve_area(
    alloc: Global,
    view: &mut Handle,
    class_number: u32,
    i: u32,
    j: u32,
) -> u32
    requires handle { IsHandle view.old }
    ensures handle { IsHandle view.new }
    ensures same { state_of view.new ≡ state_of view.old }
    ensures area { HasArea (passes_seen (state_of view.old) class_number) (cell_at i j) result }
{
    let Some(state) = view.take(alloc) else {
        return 0;
    };
    let area = match &*state {
        State::View(version) => area(version, class_number, i, j),
        State::Text(_) | State::Structs(_) | State::Finder(_) => 0,
    };
    view.put(state);
    area
}

/// Writes which cells of a row are passable for a class, 64 to a word.
#[unsafe(no_mangle)]
pub extern "C" fn pathserve_row(
    alloc: Global,
    view: &mut Handle,
    class_number: u32,
    j: u32,
    words: &mut [u64],
) -> usize
    requires handle { IsHandle view.old }
    ensures handle { IsHandle view.new }
    ensures same { state_of view.new ≡ state_of view.old }
    ensures count { result ≡ min (length words.old) (words_of_row (state_of view.old) class_number j) }
    ensures bits { (i : ℕ) → i / 64 < result → bit_at (slice_index words.new (i / 64)) (i % 64)
        ≡ one_if (passes_seen (state_of view.old) class_number (cell_at i j)) }
    ensures behind { drop result words.new ≡ drop result words.old }
{
    let Some(state) = view.take(alloc) else {
        return 0;
    };
    let count = match &*state {
        State::View(version) => row(version, class_number, j, words),
        State::Text(_) | State::Structs(_) | State::Finder(_) => 0,
    };
    view.put(state);
    count
}

/// Opens a closed view of what a handle holds.
fn open_view(alloc: Global, from: &mut Handle, view: &mut Handle) -> u32
    requires handle { IsHandle from.old }
    requires view { IsHandle view.old }
    ensures handle { IsHandle from.new }
    ensures same { state_of from.new ≡ state_of from.old }
    ensures view { IsHandle view.new }
    ensures viewed { IsViewed (state_of from.old) (state_of view.old) (state_of view.new) result }
{
    if view.live != 0 {
        return OPEN;
    }
    let Some(state) = from.take(alloc) else {
        return CLOSED;
    };
    let shown = version_in(alloc, &state);
    from.put(state);
    match shown {
        Ok(Some(version)) => match view.open(alloc, State::View(version)) {
            Ok(()) => DONE,
            Err(_) => NO_MEMORY,
        },
        Ok(None) => NO_MAP,
        Err(NoMemory) => NO_MEMORY,
    }
}

/// What can be looked at beside a state, as a version of its own.
fn version_in(alloc: Global, state: &State) -> Result<Option<Version>, NoMemory>
    ensures { IfOk result (λ version. version ≡ version_in state.now) }
{
    match state {
        State::Text(text) => text.view(alloc),
        State::Structs(structs) => match structs.version().share() {
            Ok(version) => Ok(Some(version)),
            Err(NoMemory) => Err(NoMemory),
        },
        State::View(version) => match version.share() {
            Ok(version) => Ok(Some(version)),
            Err(NoMemory) => Err(NoMemory),
        },
        State::Finder(_) => Ok(None),
    }
}

/// The class and the cell of these numbers, where the map has them.
fn place_on(version: &Version, class_number: u32, i: u32, j: u32) -> Option<(Class, Cell)>
    ensures some { IfSome result (λ place. (place.0 ≡ class_number) × (place.1 ≡ cell_at i j)
        × (class_number < length version.now.map.classes) × IsInside version.now.map.size (cell_at i j)) }
    ensures none { IfNone result (class_number < length version.now.map.classes
        → IsInside version.now.map.size (cell_at i j) → ⊥) }
{
    let size = version.map().size();
    let classes = version.map().classes().count();
    if class_number < u32::from(classes) && i < u32::from(size.w) && j < u32::from(size.h) {
        Some((
            Class::new(class_number as u8),
            Cell::new(i as u16, j as u16),
        ))
    } else {
        None
    }
}

/// Whether a cell is passable for a class, as 1 or 0.
#[tactic(auto, using(crate::proofs::Places::outside))]
fn passable(version: &Version, class_number: u32, i: u32, j: u32) -> u32
    ensures { result ≡ one_if (passes_of version.now class_number (cell_at i j)) }
{
    match place_on(version, class_number, i, j) {
        Some((class, cell)) => u32::from(version.passable(class, cell)),
        None => 0,
    }
}

/// The number of the region of a cell in its chunk, for a class.
fn region(version: &Version, class_number: u32, i: u32, j: u32) -> u32
    ensures { HasRegion (passes_of version.now class_number) (chunk_of (cell_at i j)) (cell_at i j) result }
{
    match place_on(version, class_number, i, j) {
        Some((class, cell)) => u32::from(version.region(class, cell).region),
        None => 0,
    }
}

/// The number of the area of a cell, for a class.
fn area(version: &Version, class_number: u32, i: u32, j: u32) -> u32
    ensures { HasArea (passes_of version.now class_number) (cell_at i j) result }
{
    match place_on(version, class_number, i, j) {
        Some((class, cell)) => version.area(class, cell),
        None => 0,
    }
}

/// Writes which cells of a row are passable for a class, 64 to a word, to the head of the buffer, and gives how many words:
/// as many as the row has and as the buffer holds.
#[tactic(auto, using(crate::proofs::Places::no_words, crate::proofs::Places::row_fits))]
fn row(version: &Version, class_number: u32, j: u32, words: &mut [u64]) -> usize
    ensures count { result ≡ min (length words.old) (words_of version.now class_number j) }
    ensures bits { (i : ℕ) → i / 64 < result → bit_at (slice_index words.new (i / 64)) (i % 64)
        ≡ one_if (passes_of version.now class_number (cell_at i j)) }
    ensures behind { drop result words.new ≡ drop result words.old }
{
    let Some((class, _)) = place_on(version, class_number, 0, j) else {
        return 0;
    };
    let row = row_of(version, class, j as u16);
    let count = usize::from(version.map().size().w)
        .div_ceil(64)
        .min(words.len());
    words[..count].copy_from_slice(&row[..count]);
    count
}

/// The passable cells of a row of the map, 64 to a word.
fn row_of(version: &Version, class: Class, j: u16) -> &[u64]
    requires class { class < length version.now.map.classes }
    requires row { j < version.now.map.size.h }
    ensures words { length result.now ≡ version.now.map.size.w / 64 + 1 }
    ensures bits { AreFreeBits (λ i. passes_of version.now class (cell_at i j)) result.now }
{
    match version.planes().plane(class) {
        Some(plane) => plane.row_words(j),
        None => unreachable!(),
    }
}
