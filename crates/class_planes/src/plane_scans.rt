//! Runs over the plane of one class.
ghost use Rattle.std.specs.Prelude.{◌≡◌, ◌<◌, ◌≤◌, ◌+◌, ◌-◌, ◌/◌, ◌==◌, ◌&&◌, ◌↔◌, ◌⊎◌, ℕ, IsTrue, IsFalse, Some, IfSome, IfNone, length};
ghost use Rattle.nav_types.specs.declared.cells.Cell.{Cell};
ghost use Rattle.nav_types.specs.declared.limits.TheConstants.{MAX_SIDE};
ghost use Rattle.nav_types.specs.Cells.{IsInside, IsInRect, cell_at};
ghost use Rattle.nav_types.specs.Directions.{Leads, row_part, column_part};
ghost use Rattle.nav_types.specs.Lines.{cell_on, line_on, place_on};
ghost use Rattle.nav_types.specs.Straights.{diagonal_dir, straight_dir};
ghost use Rattle.nav_types.specs.Frames.{IsFrame};
ghost use Rattle.nav_types.specs.Walks.{Step};
ghost use Rattle.jump_scan.specs.Stops.{HaltsDiagonal, IsStraightStop, HasStraightStop, IsDiagonalStop, IsDiagonalStopWithin};
ghost use Rattle.class_planes.specs.Planes.{AreFreeBits, is_passable};
ghost use Rattle.class_planes.specs.inner.Runs.{Far, bit_in, cell_along, place_along, RunsFar, IsFirstHit, HasRoom, HoldsSteps};

use crate::class_plane::ClassPlane;
use crate::forced_places::first_opening;
use crate::word_scans::{Reach, is_set};
use nav_types::{Aim, Axis, Cell, Diagonal, Dir, Rect, Size, Straight, Way, place_on};
use std::marker::Model;

/// How far the straight run from the cell goes.
#[inline(always)]
fn reach(plane: &ClassPlane, from: Cell, straight: Straight) -> Reach
    requires { IsTrue (is_passable plane.now from) }
    ensures { RunsFar (is_passable plane.now) straight from result }
{
    let axis = straight.axis;
    plane
        .lanes_at(axis, from)
        .reach(straight.way, place_on(axis, from))
}

/// The steps of the straight run from the cell to the one at which a side opens, where it ends at such a cell.
#[inline(always)]
fn steps_to_opening(plane: &ClassPlane, from: Cell, straight: Straight) -> Option<u16>
    requires { IsTrue (is_passable plane.now from) }
    ensures { (far : Far) → RunsFar (is_passable plane.now) straight from far → IsTrue far.forced
        → result ≡ Some far.count }
{
    let axis = straight.axis;
    first_opening(
        &plane.lanes_at(axis, from),
        straight.way,
        place_on(axis, from),
    )
}

/// The cell so many steps away.
fn cell_along(from: Cell, straight: Straight, steps: u16) -> Cell
    requires column { (cell_along straight from steps).i < MAX_SIDE }
    requires row { (cell_along straight from steps).j < MAX_SIDE }
    ensures { result ≡ cell_along straight from steps }
{
    match straight.axis {
        Axis::Row => Cell::new(place_along(straight.way, from.i, steps), from.j),
        Axis::Column => Cell::new(from.i, place_along(straight.way, from.j, steps)),
    }
}

/// The place so many steps up or down a line.
fn place_along(way: Way, place: u16, steps: u16) -> u16
    requires { place_along way place steps < MAX_SIDE }
    ensures { result ≡ place_along way place steps }
{
    match way {
        Way::Up => place + steps,
        Way::Down => place.saturating_sub(steps),
    }
}

/// The first and the last number of steps.
#[derive(Drop)]
struct Steps {
    first: u16,
    last: u16,
}

impl Model for Steps {
    ghost use Rattle.class_planes.specs.inner.Runs.{StepRange};

    ghost Value = { StepRange };

    ghost view = { λ s. record { first = s.first; last = s.last } };
}

/// The steps, from 1 to `count`, that lead from a place up to one from `low` to `high`.
fn steps_up(place: u16, low: u16, high: u16, count: u16) -> Steps
    ensures { HoldsSteps (λ n. (low ≤ place + n) × (place + n ≤ high)) count result }
{
    Steps {
        first: low.saturating_sub(place).max(1),
        last: high.saturating_sub(place).min(count),
    }
}

/// The steps, from 1 to `count`, that lead from a place down to one from `low` to `high`.
fn steps_down(place: u16, low: u16, high: u16, count: u16) -> Steps
    requires { count ≤ place }
    ensures { HoldsSteps (λ n. (low ≤ place - n) × (place - n ≤ high)) count result }
{
    Steps {
        first: place.saturating_sub(high).max(1),
        last: place.saturating_sub(low).min(count),
    }
}

/// The steps, from 1 to `count`, that lead from a place to one from `low` to `high`.
fn steps_along(way: Way, place: u16, low: u16, high: u16, count: u16) -> Steps
    requires { HasRoom way place count }
    ensures { HoldsSteps (λ n. (low ≤ place_along way place n) × (place_along way place n ≤ high)) count result }
{
    match way {
        Way::Up => steps_up(place, low, high, count),
        Way::Down => steps_down(place, low, high, count),
    }
}

/// The steps, from 1 to `count`, that lead into the rectangle.
fn steps_into(rect: Rect, from: Cell, straight: Straight, count: u16) -> Steps
    requires { HasRoom straight.way (place_on straight.axis from) count }
    ensures { HoldsSteps (λ n. IsInRect rect (cell_along straight from n)) count result }
{
    match straight.axis {
        Axis::Row => steps_along(straight.way, from.i, rect.i0, rect.i1, count),
        Axis::Column => steps_along(straight.way, from.j, rect.j0, rect.j1, count),
    }
}

/// Whether the place may lie from `low` to `high`, told by one comparison. Where `low` is above `high` the answer is of no
/// use.
#[inline(always)]
fn is_between(place: u16, low: u16, high: u16) -> bool
    ensures { IsFalse result → low ≤ place → place ≤ high → ⊥ }
{
    place.wrapping_sub(low) <= high.wrapping_sub(low)
}

/// Whether the line of the cell meets the rectangle.
#[inline(always)]
fn meets(rect: Rect, cell: Cell, axis: Axis) -> bool
    ensures { IsFalse result → (place : ℕ) → IsInRect rect (cell_on axis (line_on axis cell) place) → ⊥ }
{
    match axis {
        Axis::Row => is_between(cell.j, rect.j0, rect.j1),
        Axis::Column => is_between(cell.i, rect.i0, rect.i1),
    }
}

/// The first number of steps, from 1 to `count`, after which the run is at a cell that is hit. Only the cells in the
/// rectangle are asked for.
fn first_hit<A: Aim>(
    size: Size,
    from: Cell,
    straight: Straight,
    count: u16,
    rect: Rect,
    aim: &A,
) -> Option<u16>
    requires room { HasRoom straight.way (place_on straight.axis from) count }
    requires inside { (n : ℕ) → n ≤ count → IsInside size (cell_along straight from n) }
    requires aim { A.sound aim.now size }
    requires frame { IsFrame (A.framed aim.now size) size rect }
    ensures some { IfSome result (IsFirstHit (A.hit aim.now size) straight from count) }
    ensures none { IfNone result
        ((n : ℕ) → 0 < n → n ≤ count → IsFalse (A.hit aim.now size (cell_along straight from n))) }
{
    let Steps { first, last } = steps_into(rect, from, straight, count);
    for steps in first..last + 1 {
        if aim.hits(size, cell_along(from, straight, steps)) {
            return Some(steps);
        }
    }
    None
}

/// Whether one of the cells from 1 to `count` steps away is hit.
#[inline(always)]
fn has_hit<A: Aim>(
    size: Size,
    from: Cell,
    straight: Straight,
    count: u16,
    rect: Rect,
    aim: &A,
) -> bool
    requires room { HasRoom straight.way (place_on straight.axis from) count }
    requires inside { (n : ℕ) → n ≤ count → IsInside size (cell_along straight from n) }
    requires aim { A.sound aim.now size }
    requires frame { IsFrame (A.framed aim.now size) size rect }
    ensures hits { IsTrue result → (steps : ℕ) × IsFirstHit (A.hit aim.now size) straight from count steps }
    ensures misses { IsFalse result
        → (n : ℕ) → 0 < n → n ≤ count → IsFalse (A.hit aim.now size (cell_along straight from n)) }
{
    first_hit(size, from, straight, count, rect, aim).is_some()
}

/// The stop of the straight run from the cell, where the aim has the rectangle. It is small, so that a caller gets code of
/// its own for each direction that it names.
#[inline(always)]
pub fn straight<A: Aim>(
    plane: &ClassPlane,
    from: Cell,
    straight: Straight,
    rect: Rect,
    aim: &A,
) -> Option<Cell>
    requires start { IsTrue (is_passable plane.now from) }
    requires aim { A.sound aim.now plane.now.size }
    requires frame { IsFrame (A.framed aim.now plane.now.size) plane.now.size rect }
    ensures some { IfSome result
        (IsStraightStop (is_passable plane.now) (A.hit aim.now plane.now.size) (straight_dir straight) from) }
    ensures none { IfNone result
        ((stop : Cell) → ¬ IsStraightStop (is_passable plane.now) (A.hit aim.now plane.now.size) (straight_dir straight) from stop) }
{
    if !meets(rect, from, straight.axis) {
        return forced_stop(plane, from, straight);
    }
    scanned_stop(plane, from, straight, rect, aim)
}

/// The stop of the straight run from the cell, which is scanned, and looked through for a cell that is hit.
#[inline(always)]
fn scanned_stop<A: Aim>(
    plane: &ClassPlane,
    from: Cell,
    straight: Straight,
    rect: Rect,
    aim: &A,
) -> Option<Cell>
    requires start { IsTrue (is_passable plane.now from) }
    requires aim { A.sound aim.now plane.now.size }
    requires frame { IsFrame (A.framed aim.now plane.now.size) plane.now.size rect }
    ensures some { IfSome result
        (IsStraightStop (is_passable plane.now) (A.hit aim.now plane.now.size) (straight_dir straight) from) }
    ensures none { IfNone result
        ((stop : Cell) → ¬ IsStraightStop (is_passable plane.now) (A.hit aim.now plane.now.size) (straight_dir straight) from stop) }
{
    let Some(steps) = scanned_steps(plane, from, straight, rect, aim) else {
        return None;
    };
    Some(cell_along(from, straight, steps))
}

/// The steps of the straight run from the cell to its stop. Few runs come here, and a number alone is handed back, so that
/// the others are not slowed.
#[inline(never)]
fn scanned_steps<A: Aim>(
    plane: &ClassPlane,
    from: Cell,
    straight: Straight,
    rect: Rect,
    aim: &A,
) -> Option<u16>
    requires start { IsTrue (is_passable plane.now from) }
    requires aim { A.sound aim.now plane.now.size }
    requires frame { IsFrame (A.framed aim.now plane.now.size) plane.now.size rect }
    ensures some { IfSome result (λ steps. IsStraightStop (is_passable plane.now) (A.hit aim.now plane.now.size)
        (straight_dir straight) from (cell_along straight from steps)) }
    ensures inside { IfSome result (λ steps. IsInside plane.now.size (cell_along straight from steps)) }
    ensures none { IfNone result
        ((stop : Cell) → ¬ IsStraightStop (is_passable plane.now) (A.hit aim.now plane.now.size) (straight_dir straight) from stop) }
{
    let Reach { count, forced } = reach(plane, from, straight);
    match first_hit(plane.size(), from, straight, count, rect, aim) {
        Some(steps) => Some(steps),
        None => end_of(count, forced),
    }
}

/// The cell at which a side opens for the straight run from the cell. It is sought only where there is one, and then the
/// first forced place along the run is there.
#[inline(always)]
fn forced_stop(plane: &ClassPlane, from: Cell, straight: Straight) -> Option<Cell>
    requires start { IsTrue (is_passable plane.now from) }
    ensures some { IfSome result (λ cell. (far : Far) × (RunsFar (is_passable plane.now) straight from far
        × (IsTrue far.forced × (cell ≡ cell_along straight from far.count)))) }
    ensures none { IfNone result ((far : Far) × (RunsFar (is_passable plane.now) straight from far × IsFalse far.forced)) }
{
    if !plane.has_jump_point(from, straight) {
        return None;
    }
    let Some(steps) = steps_to_opening(plane, from, straight) else {
        return None;
    };
    Some(cell_along(from, straight, steps))
}

/// The steps to the last cell of the run, where a side opens there.
fn end_of(count: u16, forced: bool) -> Option<u16>
    ensures some { IfSome result (λ steps. IsTrue forced × (steps ≡ count)) }
    ensures none { IfNone result (IsFalse forced) }
{
    if forced { Some(count) } else { None }
}

/// Whether the straight run from the cell, which is scanned, has a stop.
fn has_scanned_stop<A: Aim>(
    plane: &ClassPlane,
    cell: Cell,
    straight: Straight,
    rect: Rect,
    aim: &A,
) -> bool
    requires passable { IsTrue (is_passable plane.now cell) }
    requires aim { A.sound aim.now plane.now.size }
    requires frame { IsFrame (A.framed aim.now plane.now.size) plane.now.size rect }
    ensures { IsTrue result ↔ HasStraightStop (is_passable plane.now) (A.hit aim.now plane.now.size) (straight_dir straight) cell }
{
    let Reach { count, forced } = reach(plane, cell, straight);
    forced || has_hit(plane.size(), cell, straight, count, rect, aim)
}

/// Whether the straight run from the cell has a stop.
#[inline(always)]
fn has_straight_stop<A: Aim>(
    plane: &ClassPlane,
    cell: Cell,
    straight: Straight,
    rect: Rect,
    aim: &A,
) -> bool
    requires passable { IsTrue (is_passable plane.now cell) }
    requires aim { A.sound aim.now plane.now.size }
    requires frame { IsFrame (A.framed aim.now plane.now.size) plane.now.size rect }
    ensures { IsTrue result ↔ HasStraightStop (is_passable plane.now) (A.hit aim.now plane.now.size) (straight_dir straight) cell }
{
    if !meets(rect, cell, straight.axis) {
        return plane.has_jump_point(cell, straight);
    }
    has_scanned_stop(plane, cell, straight, rect, aim)
}

/// Whether the straight run in one of the two straight parts of the direction has a stop.
#[inline(always)]
fn has_stop_aside<A: Aim>(
    plane: &ClassPlane,
    cell: Cell,
    diagonal: Diagonal,
    rect: Rect,
    aim: &A,
) -> bool
    requires passable { IsTrue (is_passable plane.now cell) }
    requires aim { A.sound aim.now plane.now.size }
    requires frame { IsFrame (A.framed aim.now plane.now.size) plane.now.size rect }
    ensures { IsTrue result
        ↔ (HasStraightStop (is_passable plane.now) (A.hit aim.now plane.now.size) (row_part (diagonal_dir diagonal)) cell
        ⊎ HasStraightStop (is_passable plane.now) (A.hit aim.now plane.now.size) (column_part (diagonal_dir diagonal))
        cell) }
{
    has_straight_stop(plane, cell, diagonal.row_part(), rect, aim)
        || has_straight_stop(plane, cell, diagonal.column_part(), rect, aim)
}

/// Whether the cell may lie in the rectangle.
#[inline(always)]
fn is_near(rect: Rect, cell: Cell) -> bool
    ensures { IsFalse result → IsInRect rect cell → ⊥ }
{
    is_between(cell.i, rect.i0, rect.i1) && is_between(cell.j, rect.j0, rect.j1)
}

/// Whether the aim hits the cell. Only a cell in the rectangle is asked for.
fn is_hit<A: Aim>(size: Size, cell: Cell, rect: Rect, aim: &A) -> bool
    requires inside { IsInside size cell }
    requires aim { A.sound aim.now size }
    requires frame { IsFrame (A.framed aim.now size) size rect }
    ensures { result ≡ A.hit aim.now size cell }
{
    is_near(rect, cell) && aim.hits(size, cell)
}

/// The place that a step leads to along a line. None exactly where it would lie before the first.
#[inline(always)]
fn shifted(place: u16, gained: u16, lost: u16) -> Option<u16>
    requires place { place < MAX_SIDE }
    requires gains { gained ≤ 1 }
    ensures some { IfSome result (λ next. (next + lost ≡ place + gained) × (next ≤ place + 1)) }
    ensures none { IfNone result ((next : ℕ) → next + lost ≡ place + gained → ⊥) }
{
    let ahead = place + gained;
    if ahead < lost {
        return None;
    }
    Some(ahead - lost)
}

/// The cell that one step leads to. None exactly where it would lie before the first column or the first row.
#[inline(always)]
fn cell_beside(cell: Cell, dir: Dir) -> Option<Cell>
    requires column { cell.i < MAX_SIDE }
    requires row { cell.j < MAX_SIDE }
    ensures leads { IfSome result (Leads dir cell) }
    ensures near { IfSome result (λ next. (next.i ≤ cell.i + 1) × (next.j ≤ cell.j + 1)) }
    ensures none { IfNone result ((next : Cell) → ¬ Leads dir cell next) }
{
    let Some(i) = shifted(cell.i, dir.east(), dir.west()) else {
        return None;
    };
    let Some(j) = shifted(cell.j, dir.north(), dir.south()) else {
        return None;
    };
    Some(Cell::new(i, j))
}

/// Whether the cell that a diagonal step leads to and the two beside the step are free, by the words of the rows of both
/// cells.
#[inline(always)]
fn is_open(row: &[u64], next_row: &[u64], from: Cell, to: Cell) -> bool
    requires from { from.i / 64 < length next_row.now }
    requires to { to.i / 64 < length next_row.now }
    requires side { to.i / 64 < length row.now }
    ensures { result ≡ ((bit_in next_row.now to.i == 1)
        && ((bit_in row.now to.i == 1) && (bit_in next_row.now from.i == 1))) }
{
    is_set(next_row, to.i) && is_set(row, to.i) && is_set(next_row, from.i)
}

/// The cell that one legal diagonal step from a passable cell leads to, where these are the words of the cell's row. None
/// exactly where that step is not legal. Past the map no bit is set, so that only the first row and column are minded.
#[inline(always)]
fn next_cell(plane: &ClassPlane, row: &[u64], cell: Cell, diagonal: Diagonal) -> Option<Cell>
    requires passable { IsTrue (is_passable plane.now cell) }
    requires inside { IsInside plane.now.size cell }
    requires words { length row.now ≡ plane.now.size.w / 64 + 1 }
    requires bits { AreFreeBits (λ i. is_passable plane.now (cell_at i cell.j)) row.now }
    ensures some { IfSome result (Step (is_passable plane.now) (diagonal_dir diagonal) cell) }
    ensures none { IfNone result ((next : Cell) → ¬ Step (is_passable plane.now) (diagonal_dir diagonal) cell next) }
{
    let Some(next) = cell_beside(cell, diagonal.dir()) else {
        return None;
    };
    if !is_open(row, plane.row_words(next.j), cell, next) {
        return None;
    }
    Some(next)
}

/// Whether a diagonal run in the direction stops at the cell, whatever way the cell lies from the aim.
#[inline(never)]
fn halts_by_aim<A: Aim>(
    plane: &ClassPlane,
    cell: Cell,
    diagonal: Diagonal,
    rect: Rect,
    aim: &A,
) -> bool
    requires passable { IsTrue (is_passable plane.now cell) }
    requires inside { IsInside plane.now.size cell }
    requires aim { A.sound aim.now plane.now.size }
    requires frame { IsFrame (A.framed aim.now plane.now.size) plane.now.size rect }
    ensures { IsTrue result ↔ HaltsDiagonal (is_passable plane.now) (A.hit aim.now plane.now.size) (diagonal_dir diagonal) cell }
{
    is_hit(plane.size(), cell, rect, aim) || has_stop_aside(plane, cell, diagonal, rect, aim)
}

/// Whether a diagonal run in the direction stops at the cell. Where neither the cell's row nor its column meets the aim, the
/// stops known beforehand tell.
#[inline(always)]
fn halts_diagonal<A: Aim>(
    plane: &ClassPlane,
    cell: Cell,
    diagonal: Diagonal,
    rect: Rect,
    aim: &A,
) -> bool
    requires passable { IsTrue (is_passable plane.now cell) }
    requires inside { IsInside plane.now.size cell }
    requires aim { A.sound aim.now plane.now.size }
    requires frame { IsFrame (A.framed aim.now plane.now.size) plane.now.size rect }
    ensures { IsTrue result ↔ HaltsDiagonal (is_passable plane.now) (A.hit aim.now plane.now.size) (diagonal_dir diagonal) cell }
{
    let along_row = diagonal.row_part();
    let along_column = diagonal.column_part();
    if meets(rect, cell, along_row.axis) || meets(rect, cell, along_column.axis) {
        return halts_by_aim(plane, cell, diagonal, rect, aim);
    }
    plane.has_jump_point(cell, along_row) || plane.has_jump_point(cell, along_column)
}

/// The stop of the diagonal run from the cell, where the aim has the rectangle. It is small, so that a caller gets code of
/// its own for each direction that it names.
#[inline(always)]
pub fn diagonal<A: Aim>(
    plane: &ClassPlane,
    from: Cell,
    diagonal: Diagonal,
    rect: Rect,
    aim: &A,
) -> Option<Cell>
    requires start { IsTrue (is_passable plane.now from) }
    requires aim { A.sound aim.now plane.now.size }
    requires frame { IsFrame (A.framed aim.now plane.now.size) plane.now.size rect }
    ensures some { IfSome result
        (IsDiagonalStop (is_passable plane.now) (A.hit aim.now plane.now.size) (diagonal_dir diagonal) from) }
    ensures none { IfNone result
        ((stop : Cell) → ¬ IsDiagonalStop (is_passable plane.now) (A.hit aim.now plane.now.size) (diagonal_dir diagonal) from stop) }
{
    let mut cell = from;
    let mut row = plane.row_words(from.j);
    'run: while let Some(next) = next_cell(plane, row, cell, diagonal) {
        let next_row = plane.row_words(next.j);
        if halts_diagonal(plane, next, diagonal, rect, aim) {
            return Some(next);
        }
        cell = next;
        row = next_row;
    }
    None
}

/// The stop of the diagonal run from the cell where it is at most so many steps away.
pub fn diagonal_within<A: Aim>(
    plane: &ClassPlane,
    from: Cell,
    diagonal: Diagonal,
    rect: Rect,
    aim: &A,
    most: u16,
) -> Option<Cell>
    requires start { IsTrue (is_passable plane.now from) }
    requires aim { A.sound aim.now plane.now.size }
    requires frame { IsFrame (A.framed aim.now plane.now.size) plane.now.size rect }
    ensures some { IfSome result (IsDiagonalStopWithin (is_passable plane.now) (A.hit aim.now plane.now.size)
        (diagonal_dir diagonal) most from) }
    ensures none { IfNone result ((stop : Cell) → ¬ IsDiagonalStopWithin (is_passable plane.now)
        (A.hit aim.now plane.now.size) (diagonal_dir diagonal) most from stop) }
{
    let mut cell = from;
    let mut row = plane.row_words(from.j);
    for _steps in 0..most {
        let Some(next) = next_cell(plane, row, cell, diagonal) else {
            return None;
        };
        let next_row = plane.row_words(next.j);
        if halts_diagonal(plane, next, diagonal, rect, aim) {
            return Some(next);
        }
        cell = next;
        row = next_row;
    }
    None
}
