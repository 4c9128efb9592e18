//! The passable cells beside a cell, read off a plane.
ghost use Rattle.std.specs.Prelude.{◌≡◌, ◌<◌, ◌≤◌, ◌+◌, ◌-◌, ◌/◌, ◌==◌, ◌&&◌, nat_lt, length, IsTrue};
ghost use Rattle.std.specs.Int.{bit_at};
ghost use Rattle.jump_scan.specs.Successors.{AreFreeBeside};
ghost use Rattle.class_planes.specs.Planes.{is_passable};
ghost use Rattle.class_planes.specs.inner.Runs.{bit_in};

use crate::class_plane::ClassPlane;
use crate::word_scans::is_set;
use nav_types::{Axis, Cell, DirSet};

/// Whether the place before `i` of the line is set. There is none before the first.
#[inline(always)]
fn is_set_before(line: &[u64], i: u16) -> bool
    requires { i / 64 < length line.now }
    ensures { result ≡ (nat_lt 0 i && (bit_in line.now (i - 1) == 1)) }
{
    if i == 0 {
        return false;
    }
    is_set(line, i - 1)
}

/// Three bits, from the lowest on.
#[inline(always)]
fn three_bits(first: bool, second: bool, third: bool) -> u16
    ensures first { (bit_at result 0 == 1) ≡ first }
    ensures second { (bit_at result 1 == 1) ≡ second }
    ensures third { (bit_at result 2 == 1) ≡ third }
{
    u16::from(first) | u16::from(second) << 1 | u16::from(third) << 2
}

/// The bits of the places about `i` of the line, wherever it lies in its word.
fn bits_anywhere(line: &[u64], i: u16) -> u16
    requires within { (i + 1) / 64 < length line.now }
    requires few { length line.now ≤ 33 }
    ensures before { (bit_at result 0 == 1) ≡ (nat_lt 0 i && (bit_in line.now (i - 1) == 1)) }
    ensures here { (bit_at result 1 == 1) ≡ (bit_in line.now i == 1) }
    ensures after { (bit_at result 2 == 1) ≡ (bit_in line.now (i + 1) == 1) }
{
    let before = is_set_before(line, i);
    let here = is_set(line, i);
    let after = is_set(line, i + 1);
    three_bits(before, here, after)
}

/// The bits about bit `k` of a word: the one below it, its own and the one above it.
#[inline(always)]
fn bits_in_word(word: u64, k: u16) -> u16
    requires inner { 0 < k }
    requires below { k < 63 }
    ensures before { bit_at result 0 ≡ bit_at word (k - 1) }
    ensures here { bit_at result 1 ≡ bit_at word k }
    ensures after { bit_at result 2 ≡ bit_at word (k + 1) }
{
    ((word >> (k - 1)) & 7) as u16
}

/// The bits of three neighbouring places of a line: the one before `i`, its own and the one after it. There is none
/// before the first. Mostly they lie in one word.
#[inline(always)]
fn bits_about(line: &[u64], i: u16) -> u16
    requires within { (i + 1) / 64 < length line.now }
    requires few { length line.now ≤ 33 }
    ensures before { (bit_at result 0 == 1) ≡ (nat_lt 0 i && (bit_in line.now (i - 1) == 1)) }
    ensures here { (bit_at result 1 == 1) ≡ (bit_in line.now i == 1) }
    ensures after { (bit_at result 2 == 1) ≡ (bit_in line.now (i + 1) == 1) }
{
    let k = i % 64;
    if k == 0 || k == 63 {
        return bits_anywhere(line, i);
    }
    bits_in_word(line[usize::from(i) / 64], k)
}

/// The directions in which the cell beside is passable.
#[inline(always)]
pub fn beside(plane: &ClassPlane, cell: Cell) -> DirSet
    requires start { IsTrue (is_passable plane.now cell) }
    ensures { AreFreeBeside (is_passable plane.now) cell result }
{
    let lanes = plane.lanes_at(Axis::Row, cell);
    let north = bits_about(lanes.left, cell.i);
    let middle = bits_about(lanes.mid, cell.i);
    let south = bits_about(lanes.right, cell.i);
    DirSet::of_rows(north, middle, south)
}
