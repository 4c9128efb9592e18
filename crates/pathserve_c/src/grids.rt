//! Maps whose terrain is a grid of masks.
ghost use Rattle.std.specs.Prelude.{◌≡◌, ◌≤◌, ◌<◌, ◌*◌, ◌||◌, ℕ, All, IfOk, IsErrOf, OnOk, length, slice_index};
ghost use Rattle.nav_types.specs.declared.cells.Cell.{Cell};
ghost use Rattle.nav_types.specs.Cells.{IsRectInside};
ghost use Rattle.posts.specs.Maps.{Map};
ghost use Rattle.grid_versions.specs.Passing.{is_listed};
ghost use Rattle.pathserve_c.specs.Grids.{AreRectsOf, IsGridMapOf, IsOpenedOnGrid};
ghost use Rattle.pathserve_c.specs.Handles.{IsHandle, state_of};
ghost use Rattle.pathserve_c.specs.inner.Runs.{is_in_row};

use crate::handles::Handle;
use crate::states::State;
use crate::statuses::{BAD_VALUE, DONE, NO_MEMORY, OPEN};
use crate::struct_matches::StructMatch;
use flat_posts::{FlatClass, FlatMap, MapFault};
use nav_types::{NoMemory, Rect, Sequence, Size};
use posts::{BaseRects, MapSpec};
use std::alloc::Global;

/// Opens a closed handle: a match, before its first turn, on a map whose terrain is a grid of masks, one for each cell, row by
/// row from the south.
#[unsafe(no_mangle)]
pub extern "C" fn pathserve_open_grid(
    alloc: Global,
    game: &mut Handle,
    map: &FlatMap,
    classes: &[FlatClass],
    masks: &[u16],
) -> u32
    requires handle { IsHandle game.old }
    ensures handle { IsHandle game.new }
    ensures opened { IsOpenedOnGrid map.now classes.now masks.now (state_of game.old) (state_of game.new) result }
{
    if game.live != 0 {
        return OPEN;
    }
    let map = match grid_map(alloc, map, classes, masks) {
        Ok(map) => map,
        Err(MapFault::NotMap) => return BAD_VALUE,
        Err(MapFault::NoMemory) => return NO_MEMORY,
    };
    let Ok(opened) = StructMatch::open(alloc, &map) else {
        return NO_MEMORY;
    };
    match game.open(alloc, State::Structs(opened)) {
        Ok(()) => DONE,
        Err(_) => NO_MEMORY,
    }
}

/// The map of these numbers and of this grid. `NotMap` only where they are none.
#[tactic(auto, using(crate::proofs::Gridded::grid_map_of, crate::proofs::Gridded::no_grid, crate::proofs::Gridded::no_grid_map))]
fn grid_map(
    alloc: Global,
    frame: &FlatMap,
    classes: &[FlatClass],
    masks: &[u16],
) -> Result<MapSpec, MapFault>
    ensures map { IfOk result (IsGridMapOf frame.now classes.now masks.now) }
    ensures not_map { IsErrOf result MapFault.NotMap → (map : Map) → ¬ IsGridMapOf frame.now classes.now masks.now map }
{
    let mut map = match frame.read(alloc, classes, &[]) {
        Ok(map) => map,
        Err(fault) => return Err(fault),
    };
    let size = map.size();
    if masks.len() != usize::from(size.w) * usize::from(size.h) {
        return Err(MapFault::NotMap);
    }
    let Ok(rects) = rects_of_masks(alloc, size, masks) else {
        return Err(MapFault::NoMemory);
    };
    match map.add_base(rects.as_slice()) {
        Ok(()) => Ok(map),
        Err(NoMemory) => Err(MapFault::NoMemory),
    }
}

/// Rectangles that block what the masks say, row by row from the south: each is a run of cells of a row with one mask.
fn rects_of_masks(alloc: Global, size: Size, masks: &[u16]) -> Result<BaseRects, NoMemory>
    requires { length masks.now ≡ size.w * size.h }
    ensures inside { IfOk result (All (λ entry. IsRectInside size entry.0)) }
    ensures grid { IfOk result (AreRectsOf size masks.now) }
{
    let width = usize::from(size.w);
    let mut rects = Sequence::new(alloc);
    let mut j: u16 = 0;
    'rows: while j < size.h {
        let from = usize::from(j) * width;
        push_row(&mut rects, size, j, &masks[from..from + width])?;
        j += 1;
    }
    Ok(rects)
}

/// Appends the runs of a row.
fn push_row(rects: &mut BaseRects, size: Size, j: u16, row: &[u16]) -> Result<(), NoMemory>
    requires row { j < size.h }
    requires columns { length row.now ≡ size.w }
    requires inside { All (λ entry. IsRectInside size entry.0) rects.old }
    ensures inside { OnOk result (All (λ entry. IsRectInside size entry.0) rects.new) }
    ensures row { OnOk result ((k : ℕ) (cell : Cell) → is_listed rects.new k cell
        ≡ (is_listed rects.old k cell || is_in_row j size.w row.now k cell)) }
{
    let mut from: u16 = 0;
    'runs: while from < size.w {
        let mask = row[usize::from(from)];
        let behind = run_end(row, size.w, from);
        if mask != 0 {
            let run = Rect {
                i0: from,
                j0: j,
                i1: behind - 1,
                j1: j,
            };
            rects.push((run, mask))?;
        }
        from = behind;
    }
    Ok(())
}

/// The column behind the run of cells with one mask that begins at a column.
fn run_end(row: &[u16], width: u16, from: u16) -> u16
    requires columns { length row.now ≡ width }
    requires inside { from < width }
    ensures some { from < result }
    ensures inside { result ≤ width }
    ensures alike { (i : ℕ) → from ≤ i → i < result → slice_index row.now i ≡ slice_index row.now from }
{
    let mask = row[usize::from(from)];
    let mut behind = from + 1;
    'cells: while behind < width && row[usize::from(behind)] == mask {
        behind += 1;
    }
    behind
}
