//! The directions in which a search goes on from a cell.
ghost use Rattle.std.specs.Prelude.{◌≡◌, ◌<◌, ◌↔◌, ◌⊎◌, Bool, Some, IsTrue, IsFalse};
ghost use Rattle.nav_types.specs.declared.cells.Cell.{Cell};
ghost use Rattle.nav_types.specs.declared.directions.Dir.{Dir};
ghost use Rattle.nav_types.specs.Cells.{IsInside};
ghost use Rattle.nav_types.specs.Beside.{IsFreeBeside, IsLegalFrom};
ghost use Rattle.nav_types.specs.Directions.{is_straight, row_part, column_part};
ghost use Rattle.nav_types.specs.DirSets.{holds};
ghost use Rattle.jump_scan.specs.Turns.{aside_to};
ghost use Rattle.jump_scan.specs.Successors.{IsForcing, IsSuccessor, HasForced, AreFreeBeside, AreSuccessors};
ghost use Rattle.jump_scan.specs.inner.Turning.{IsLegalTurn, AddsFree};

use crate::turns::{Side, ahead_to, aside_to};
use nav_types::{Cell, Class, Dir, DirSet, View, is_free_beside, legal_steps};

/// Whether the step that came to the cell is straight and the cell to that side of the one just before is blocked.
#[inline(always)]
fn is_forcing<V: View>(view: &V, class: Class, cell: Cell, arrived: Dir, side: Side) -> bool
    requires class { class < V.class_count view.now }
    requires inside { IsInside (V.extent view.now) cell }
    ensures { IsTrue result ↔ IsForcing (V.passes view.now class) cell arrived side }
{
    // that cell is three eighths of a turn to the side from here
    arrived.is_straight()
        && !is_free_beside(view, class, cell, ahead_to(side, aside_to(side, arrived)))
}

/// Whether the steps to that side are forced, and one of them is legal.
#[inline(always)]
fn is_forced_to<V: View>(view: &V, class: Class, cell: Cell, arrived: Dir, side: Side) -> bool
    requires class { class < V.class_count view.now }
    requires inside { IsInside (V.extent view.now) cell }
    ensures { IsTrue result
        ↔ (IsForcing (V.passes view.now class) cell arrived side
        × IsFreeBeside (V.passes view.now class) cell (aside_to side arrived)) }
{
    // the step ahead to the side is legal only where the one aside is
    is_forcing(view, class, cell, arrived, side)
        && is_free_beside(view, class, cell, aside_to(side, arrived))
}

/// Whether the cell has a forced successor, where a step in the direction came to it.
pub fn has_forced<V: View>(view: &V, class: Class, cell: Cell, arrived: Dir) -> bool
    requires class { class < V.class_count view.now }
    requires passable { IsTrue (V.passes view.now class cell) }
    requires inside { IsInside (V.extent view.now) cell }
    ensures { IsTrue result ↔ HasForced (V.passes view.now class) cell arrived }
{
    is_forced_to(view, class, cell, arrived, Side::Left)
        || is_forced_to(view, class, cell, arrived, Side::Right)
}

/// Whether the step is legal, where it is known whether those in its two straight parts are.
#[inline(always)]
fn is_legal_between<V: View>(view: &V, class: Class, cell: Cell, dir: Dir, parts: bool) -> bool
    requires class { class < V.class_count view.now }
    requires passable { IsTrue (V.passes view.now class cell) }
    requires inside { IsInside (V.extent view.now) cell }
    requires parts { IsTrue parts ↔ (IsFreeBeside (V.passes view.now class) cell (row_part dir)
        × IsFreeBeside (V.passes view.now class) cell (column_part dir)) }
    ensures { IsTrue result ↔ IsLegalFrom (V.passes view.now class) cell dir }
{
    parts && is_free_beside(view, class, cell, dir)
}

/// The successors after a diagonal step: the legal natural ones.
#[inline(always)]
fn after_diagonal<V: View>(view: &V, class: Class, cell: Cell, arrived: Dir) -> DirSet
    requires class { class < V.class_count view.now }
    requires passable { IsTrue (V.passes view.now class cell) }
    requires inside { IsInside (V.extent view.now) cell }
    requires diagonal { IsFalse (is_straight arrived) }
    ensures { (dir : Dir) → IsTrue (holds result dir)
        ↔ IsSuccessor (V.passes view.now class) cell (Some arrived) dir }
{
    let row = arrived.row_part();
    let column = arrived.column_part();
    let is_row = is_free_beside(view, class, cell, row);
    let is_column = is_free_beside(view, class, cell, column);
    let is_onward = is_legal_between(view, class, cell, arrived, is_row && is_column);
    let along_row = DirSet::new().with_where(row, is_row);
    let along_both = along_row.with_where(column, is_column);
    along_both.with_where(arrived, is_onward)
}

/// A cell, and the direction of the step that came to it.
#[derive(Clone, Copy)]
struct RunArrival {
    cell: Cell,
    dir: Dir,
}

/// The set, with the legal turns to the side where they are forced.
#[inline(always)]
fn with_turns<V: View>(
    view: &V,
    class: Class,
    arrival: RunArrival,
    side: Side,
    onward: bool,
    set: DirSet,
) -> DirSet
    requires class { class < V.class_count view.now }
    requires passable { IsTrue (V.passes view.now class arrival.cell) }
    requires inside { IsInside (V.extent view.now) arrival.cell }
    requires straight { IsTrue (is_straight arrival.dir) }
    requires onward { IsTrue onward ↔ IsFreeBeside (V.passes view.now class) arrival.cell arrival.dir }
    ensures { (dir : Dir) → IsTrue (holds result dir)
        ↔ (IsTrue (holds set dir) ⊎ IsLegalTurn (V.passes view.now class) arrival.cell arrival.dir side dir) }
{
    let RunArrival { cell, dir } = arrival;
    if !is_forced_to(view, class, cell, dir, side) {
        return set;
    }
    let ahead = ahead_to(side, dir);
    let legal = is_legal_between(view, class, cell, ahead, onward);
    set.with(aside_to(side, dir)).with_where(ahead, legal)
}

/// The successors after a straight step: the one straight on, and the forced ones.
#[inline(always)]
fn after_straight<V: View>(view: &V, class: Class, cell: Cell, arrived: Dir) -> DirSet
    requires class { class < V.class_count view.now }
    requires passable { IsTrue (V.passes view.now class cell) }
    requires inside { IsInside (V.extent view.now) cell }
    requires straight { IsTrue (is_straight arrived) }
    ensures { (dir : Dir) → IsTrue (holds result dir)
        ↔ IsSuccessor (V.passes view.now class) cell (Some arrived) dir }
{
    let arrival = RunArrival { cell, dir: arrived };
    let onward = is_free_beside(view, class, cell, arrived);
    let ahead = DirSet::new().with_where(arrived, onward);
    let left = with_turns(view, class, arrival, Side::Left, onward, ahead);
    with_turns(view, class, arrival, Side::Right, onward, left)
}

/// The successors of a passable cell after a step. Each direction has a copy of its own of the code, in which the cells
/// to read are known.
fn after<V: View>(view: &V, class: Class, cell: Cell, arrived: Dir) -> DirSet
    requires class { class < V.class_count view.now }
    requires passable { IsTrue (V.passes view.now class cell) }
    requires inside { IsInside (V.extent view.now) cell }
    ensures { (dir : Dir) → IsTrue (holds result dir)
        ↔ IsSuccessor (V.passes view.now class) cell (Some arrived) dir }
{
    match arrived {
        Dir::N => after_straight(view, class, cell, Dir::N),
        Dir::E => after_straight(view, class, cell, Dir::E),
        Dir::S => after_straight(view, class, cell, Dir::S),
        Dir::W => after_straight(view, class, cell, Dir::W),
        Dir::NE => after_diagonal(view, class, cell, Dir::NE),
        Dir::SE => after_diagonal(view, class, cell, Dir::SE),
        Dir::SW => after_diagonal(view, class, cell, Dir::SW),
        Dir::NW => after_diagonal(view, class, cell, Dir::NW),
    }
}

/// The directions in which a search goes on from a cell that a step in `arrived` came to: of the legal ones, the
/// natural ones and after a straight step the forced ones. From a start, with no step before, all legal ones.
///
/// After a straight step its own direction is natural, and after a diagonal one its own and its two straight parts.
/// After a straight step the two directions to a side are forced where the cell to that side of the one just before
/// is blocked. Harabor and Grastien, AAAI 2011, for steps that cut no corner.
pub fn successors<V: View>(view: &V, class: Class, cell: Cell, arrived: Option<Dir>) -> DirSet
    requires class { class < V.class_count view.now }
    requires inside { IsInside (V.extent view.now) cell }
    ensures { (dir : Dir) → IsTrue (holds result dir) ↔ IsSuccessor (V.passes view.now class) cell arrived dir }
{
    match arrived {
        Some(arrived) => {
            if view.passable(class, cell) {
                after(view, class, cell, arrived)
            } else {
                DirSet::new()
            }
        }
        None => legal_steps(view, class, cell),
    }
}

/// The set, with the direction too where the cell beside is passable.
#[inline(always)]
fn with_free<V: View>(view: &V, class: Class, cell: Cell, dir: Dir, set: DirSet) -> DirSet
    requires class { class < V.class_count view.now }
    requires inside { IsInside (V.extent view.now) cell }
    ensures { AddsFree (V.passes view.now class) cell dir set result }
{
    set.with_where(dir, is_free_beside(view, class, cell, dir))
}

/// The directions in which the cell beside is passable. Off the map no cell is.
pub fn beside<V: View>(view: &V, class: Class, cell: Cell) -> DirSet
    requires class { class < V.class_count view.now }
    requires inside { IsInside (V.extent view.now) cell }
    ensures { AreFreeBeside (V.passes view.now class) cell result }
{
    let none = DirSet::new();
    let n = with_free(view, class, cell, Dir::N, none);
    let e = with_free(view, class, cell, Dir::E, n);
    let s = with_free(view, class, cell, Dir::S, e);
    let w = with_free(view, class, cell, Dir::W, s);
    let ne = with_free(view, class, cell, Dir::NE, w);
    let se = with_free(view, class, cell, Dir::SE, ne);
    let sw = with_free(view, class, cell, Dir::SW, se);
    with_free(view, class, cell, Dir::NW, sw)
}

/// Whether the step from a passable cell is legal, where these are the directions in which the cell beside is passable.
#[inline(always)]
fn is_legal_among(free: DirSet, dir: Dir) -> bool
    ensures { (passes : Cell → Bool) (cell : Cell) → IsTrue (passes cell) → AreFreeBeside passes cell free
        → IsTrue result ↔ IsLegalFrom passes cell dir }
{
    free.has_parts(dir)
}

/// Whether the steps to that side are forced, and one of them is legal.
#[inline(always)]
fn is_forced_among(free: DirSet, arrived: Dir, side: Side) -> bool
    requires straight { IsTrue (is_straight arrived) }
    ensures { (passes : Cell → Bool) (cell : Cell) → AreFreeBeside passes cell free
        → IsTrue result ↔ (IsForcing passes cell arrived side × IsFreeBeside passes cell (aside_to side arrived)) }
{
    let aside = aside_to(side, arrived);
    let behind = ahead_to(side, aside);
    let is_behind = free.has(behind);
    let is_aside = free.has(aside);
    !is_behind & is_aside
}

/// The set, with the legal turns to the side where they are forced.
#[inline(always)]
fn with_turns_among(free: DirSet, arrived: Dir, side: Side, set: DirSet) -> DirSet
    requires straight { IsTrue (is_straight arrived) }
    ensures { (passes : Cell → Bool) (cell : Cell) → IsTrue (passes cell) → AreFreeBeside passes cell free
        → (dir : Dir) → IsTrue (holds result dir)
        ↔ (IsTrue (holds set dir) ⊎ IsLegalTurn passes cell arrived side dir) }
{
    let ahead = ahead_to(side, arrived);
    let aside = aside_to(side, arrived);
    let forced = is_forced_among(free, arrived, side);
    let legal = is_legal_among(free, ahead);
    let turned = set.with_where(aside, forced);
    turned.with_where(ahead, forced & legal)
}

/// The successors after a straight step.
#[inline(always)]
fn straight_among(free: DirSet, arrived: Dir) -> DirSet
    requires straight { IsTrue (is_straight arrived) }
    ensures { AreSuccessors free arrived result }
{
    let onward = free.has(arrived);
    let none = DirSet::new();
    let ahead = none.with_where(arrived, onward);
    let left = with_turns_among(free, arrived, Side::Left, ahead);
    with_turns_among(free, arrived, Side::Right, left)
}

/// The successors after a diagonal step.
#[inline(always)]
fn diagonal_among(free: DirSet, arrived: Dir) -> DirSet
    requires diagonal { IsFalse (is_straight arrived) }
    ensures { AreSuccessors free arrived result }
{
    let row = arrived.row_part();
    let column = arrived.column_part();
    let is_row = free.has(row);
    let is_column = free.has(column);
    let is_onward = is_legal_among(free, arrived);
    let none = DirSet::new();
    let along_row = none.with_where(row, is_row);
    let along_both = along_row.with_where(column, is_column);
    along_both.with_where(arrived, is_onward)
}

/// The successors of a passable cell after a step, as [`successors`] gives them, where `free` is the directions in which
/// the cell beside is passable. After several steps to one cell those are read once.
#[inline(never)]
pub fn successors_among(free: DirSet, arrived: Dir) -> DirSet
    ensures { AreSuccessors free arrived result }
{
    match arrived {
        Dir::N => straight_among(free, Dir::N),
        Dir::E => straight_among(free, Dir::E),
        Dir::S => straight_among(free, Dir::S),
        Dir::W => straight_among(free, Dir::W),
        Dir::NE => diagonal_among(free, Dir::NE),
        Dir::SE => diagonal_among(free, Dir::SE),
        Dir::SW => diagonal_among(free, Dir::SW),
        Dir::NW => diagonal_among(free, Dir::NW),
    }
}
