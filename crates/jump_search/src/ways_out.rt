//! What the way out of a part of the map costs at least in which no cell is looked for.
ghost use Rattle.std.specs.Prelude.{◌≡◌, ◌+◌, ◌*◌, ◌-◌, ◌^◌, ◌<◌, ◌≤◌, min, unsigned_abs};
ghost use Rattle.jump_search.specs.Estimates.{cost_out, cost_to_rim, cost_to_side, depth_within, farther_corner, farther_edge, root};

use crate::rooms::{Disc, TurnedRoom};
use fixed_point::{Fixed, Rectangle, magnitude, offset, scaled, squared};
use nav_types::limits::STRAIGHT_COST;
use nav_types::{Cell, Rect};

/// How few steps lead from a place out of a part of one side of a map.
fn steps_out(place: u16, first: u16, last: u16) -> u64
    ensures value { result ≡ min (place + 1 - first) (last + 1 - place) }
    ensures few { result ≤ 2 ^ 16 }
{
    let back = (place as u64 + 1).saturating_sub(first as u64);
    let ahead = (last as u64 + 1).saturating_sub(place as u64);
    back.min(ahead)
}

/// What the steps out of a rectangle of cells cost at least.
#[inline(always)]
pub(crate) fn cost_out(rect: &Rect, cell: Cell) -> u64
    ensures value { result ≡ cost_out rect.now cell }
    ensures most { result < 2 ^ 40 }
{
    let columns = steps_out(cell.i, rect.i0, rect.i1);
    let rows = steps_out(cell.j, rect.j0, rect.j1);
    STRAIGHT_COST * columns.min(rows)
}

/// How far the farther edge of column (or row) `i` lies from a coordinate, as a raw number.
fn farther_edge(i: u16, x: Fixed) -> u64
    ensures value { result ≡ farther_edge i x }
    ensures few { result ≤ 2 ^ 34 }
{
    offset(i, x).unsigned_abs() + 32_768
}

/// The greatest number whose square is no more.
fn root(square: u64) -> u64
    ensures value { result ≡ root square }
    ensures few { result < 2 ^ 32 }
{
    square.isqrt()
}

/// What the way out of a disc costs at least.
pub(crate) fn cost_to_rim(disc: &Disc, cell: Cell) -> u64
    ensures value { result ≡ cost_to_rim disc.now cell }
    ensures most { result < 2 ^ 40 }
{
    let radius = magnitude(disc.r);
    let corner = squared(farther_edge(cell.i, disc.x)) + squared(farther_edge(cell.j, disc.z));
    if corner >= squared(radius) {
        return 0;
    }
    radius.saturating_sub(root(corner as u64))
}

/// How far from a rectangle's middle the farthest corner of a cell lies whose middle lies so far along or across it.
fn farther_corner(rectangle: &Rectangle, length: i64) -> u64
    requires { unsigned_abs length ≤ 2 ^ 51 }
    ensures value { result ≡ farther_corner rectangle.now length }
    ensures few { result ≤ 2 ^ 52 }
{
    length.unsigned_abs() + 32_768 * (magnitude(rectangle.ux) + magnitude(rectangle.uz))
}

/// How deep all of a cell lies within the sides of a turned room.
fn depth_within(room: &TurnedRoom, cell: Cell) -> u64
    ensures value { result ≡ depth_within room.now.rectangle cell }
    ensures most { result ≤ 2 ^ 47 }
{
    let rectangle = &room.rectangle;
    let along = farther_corner(rectangle, rectangle.centre_along(cell.i, cell.j));
    let across = farther_corner(rectangle, rectangle.centre_across(cell.i, cell.j));
    let columns = scaled(rectangle.hw).saturating_sub(along);
    let rows = scaled(rectangle.hh).saturating_sub(across);
    columns.min(rows)
}

/// What the way out of a turned room costs at least.
pub(crate) fn cost_to_side(room: &TurnedRoom, cell: Cell) -> u64
    ensures value { result ≡ cost_to_side room.now cell }
    ensures most { result < 2 ^ 40 }
{
    depth_within(room, cell) / room.gain
}
