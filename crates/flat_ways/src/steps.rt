//! The steps and the distances of a flow field as numbers.
ghost use Rattle.std.specs.Prelude.{Bool, ◌≡◌, ◌<◌, ◌*◌};
ghost use Rattle.nav_types.specs.declared.cells.Cell.{Cell};
ghost use Rattle.nav_types.specs.Cells.{IsInside};
ghost use Rattle.nav_types.specs.Places.{cell_of};
ghost use Rattle.flow_field.specs.Flows.{IsFieldOf};
ghost use Rattle.flat_ways.specs.Steps.{AreTold, HasDistance, HasStep, dir_number};

use flow_field::Field;
use nav_types::{Cell, Dir, Size};

/// The step of a cell from which no walk leads to a target.
pub const NO_STEP: u8 = 0;

/// The step on a target.
pub const ARRIVED: u8 = 9;

/// The distance of a cell from which no walk leads to a target.
pub const NO_DISTANCE: u64 = 18_446_744_073_709_551_615;

/// Writes the step to take from each cell, row by row, as far as the buffer reaches: 1 to 8 for N, E, S, W, NE, SE, SW and
/// NW, [`ARRIVED`] on a target, and [`NO_STEP`] where no walk leads to one.
pub fn write_steps(field: &Field, size: Size, steps: &mut [u8])
    requires { field.now.size ≡ size }
    ensures { (passes hit : Cell → Bool) (start : Cell) → IsFieldOf passes hit start field.now
        → AreTold (HasStep passes hit start) size steps.old steps.new }
{
    let count = steps.len().min(cell_count(size));
    for place in 0..count {
        steps[place] = step_number(field, cell_at(size, place));
    }
}

/// Writes the distance of each cell to the nearest target, row by row, as far as the buffer reaches, and [`NO_DISTANCE`] where
/// no walk leads to one.
pub fn write_distances(field: &Field, size: Size, distances: &mut [u64])
    requires { field.now.size ≡ size }
    ensures { (passes hit : Cell → Bool) (start : Cell) → IsFieldOf passes hit start field.now
        → AreTold (HasDistance passes hit start) size distances.old distances.new }
{
    let count = distances.len().min(cell_count(size));
    for place in 0..count {
        distances[place] = distance_number(field, cell_at(size, place));
    }
}

/// How many cells a map has.
fn cell_count(size: Size) -> usize
    ensures { result ≡ size.w * size.h }
{
    usize::from(size.w) * usize::from(size.h)
}

/// The cell at a place among the cells of a map, row by row.
fn cell_at(size: Size, place: usize) -> Cell
    requires { place < size.w * size.h }
    ensures value { result ≡ cell_of size place }
    ensures inside { IsInside size result }
{
    let width = usize::from(size.w);
    Cell::new((place % width) as u16, (place / width) as u16)
}

/// The number of the step to take from a cell.
fn step_number(field: &Field, cell: Cell) -> u8
    requires { IsInside field.now.size cell }
    ensures { (passes hit : Cell → Bool) (start : Cell) → IsFieldOf passes hit start field.now
        → HasStep passes hit start cell result }
{
    match field.far(cell) {
        Some(_) => match field.next(cell) {
            Some(dir) => dir_number(dir),
            None => ARRIVED,
        },
        None => NO_STEP,
    }
}

/// The number of the distance of a cell.
fn distance_number(field: &Field, cell: Cell) -> u64
    requires { IsInside field.now.size cell }
    ensures { (passes hit : Cell → Bool) (start : Cell) → IsFieldOf passes hit start field.now
        → HasDistance passes hit start cell result }
{
    match field.far(cell) {
        Some(cost) => cost.0,
        None => NO_DISTANCE,
    }
}

/// The number of a direction: its place in the order of preference, from 1.
pub(crate) fn dir_number(dir: Dir) -> u8
    ensures { result ≡ dir_number dir }
{
    match dir {
        Dir::N => 1,
        Dir::E => 2,
        Dir::S => 3,
        Dir::W => 4,
        Dir::NE => 5,
        Dir::SE => 6,
        Dir::SW => 7,
        Dir::NW => 8,
    }
}
