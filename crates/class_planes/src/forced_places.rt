//! The first place along a run where a side opens, sought 64 places at a time in the lines to the two sides.
ghost use Rattle.std.specs.Prelude.{ℕ, ◌≡◌, ◌<◌, ◌≤◌, ◌+◌, ◌-◌, ◌*◌, ◌/◌, length, IfSome, IfNone};
ghost use Rattle.std.specs.Int.{bit_at};
ghost use Rattle.class_planes.specs.inner.Runs.{open_up, open_down, opens_after, bits_along, IsNext, IsLast, OpensFirst};

use crate::word_scans::{
    Lanes, bits_after, bits_before, forced_places, highest, lowest, moved_down, moved_up,
    shifted_down, shifted_up,
};
use nav_types::Way;

/// The places of word `w` at which a side opens for an upward run.
fn forced_up(left: &[u64], right: &[u64], w: usize) -> u64
    requires left { w < length left.now }
    requires right { w < length right.now }
    ensures { (k : ℕ) → k < 64 → 0 < 64 * w + k → bit_at result k ≡ open_up left.now right.now (64 * w + k) }
{
    let left_before = moved_up(left, w);
    let right_before = moved_up(right, w);
    forced_places(left[w], left_before, right[w], right_before)
}

/// The places of word `w` at which a side opens for a downward run.
fn forced_down(left: &[u64], right: &[u64], w: usize) -> u64
    requires left { w < length left.now }
    requires right { w < length right.now }
    ensures { (k : ℕ) → k < 64 → bit_at result k ≡ open_down left.now right.now (64 * w + k) }
{
    let left_before = moved_down(left, w);
    let right_before = moved_down(right, w);
    forced_places(left[w], left_before, right[w], right_before)
}

/// The places of word `w` at which a side opens for an upward run that begins in it. The lowest one says nothing.
fn first_forced_up(left: &[u64], right: &[u64], w: usize) -> u64
    requires left { w < length left.now }
    requires right { w < length right.now }
    ensures { (k : ℕ) → 0 < k → k < 64 → bit_at result k ≡ open_up left.now right.now (64 * w + k) }
{
    let left_before = shifted_up(left, w);
    let right_before = shifted_up(right, w);
    forced_places(left[w], left_before, right[w], right_before)
}

/// The places of word `w` at which a side opens for a downward run that begins in it. The highest one says nothing.
fn first_forced_down(left: &[u64], right: &[u64], w: usize) -> u64
    requires left { w < length left.now }
    requires right { w < length right.now }
    ensures { (k : ℕ) → k < 63 → bit_at result k ≡ open_down left.now right.now (64 * w + k) }
{
    let left_before = shifted_down(left, w);
    let right_before = shifted_down(right, w);
    forced_places(left[w], left_before, right[w], right_before)
}

/// The first place after word `first` at which a side opens for an upward run. Few runs go so far.
#[inline(never)]
fn next_up(left: &[u64], right: &[u64], first: usize) -> Option<u16>
    requires line { first < length left.now }
    requires long { length right.now ≡ length left.now }
    requires few { length left.now ≤ 33 }
    ensures some { IfSome result (IsNext (open_up left.now right.now) (64 * first + 63)) }
    ensures none { IfNone result ((i : ℕ) → 64 * first + 63 < i → open_up left.now right.now i ≡ 0) }
{
    for w in first + 1..left.len() {
        let here = forced_up(left, right, w);
        if here != 0 {
            return Some(64 * w as u16 + lowest(here));
        }
    }
    None
}

/// The last place before word `first` at which a side opens for a downward run. Few runs go so far.
#[inline(never)]
fn last_down(left: &[u64], right: &[u64], first: usize) -> Option<u16>
    requires line { first < length left.now }
    requires long { length right.now ≡ length left.now }
    requires few { length left.now ≤ 33 }
    ensures some { IfSome result (IsLast (open_down left.now right.now) (64 * first)) }
    ensures none { IfNone result ((i : ℕ) → i < 64 * first → open_down left.now right.now i ≡ 0) }
{
    let mut w = first;
    'down: while w > 0 {
        w -= 1;
        let here = forced_down(left, right, w);
        if here != 0 {
            return Some(64 * w as u16 + highest(here));
        }
    }
    None
}

/// The steps of an upward run from the place to the first one at which a side opens. Mostly it lies in the same word.
#[inline(always)]
fn first_up(left: &[u64], right: &[u64], from: u16) -> Option<u16>
    requires line { from / 64 < length left.now }
    requires long { length right.now ≡ length left.now }
    requires few { length left.now ≤ 33 }
    ensures some { IfSome result (λ count. IsNext (open_up left.now right.now) from (from + count)) }
    ensures none { IfNone result ((i : ℕ) → from < i → open_up left.now right.now i ≡ 0) }
{
    let w = from as usize / 64;
    let after = bits_after(first_forced_up(left, right, w), from % 64);
    if after != 0 {
        return Some(1 + lowest(after));
    }
    let Some(place) = next_up(left, right, w) else {
        return None;
    };
    Some(place - from)
}

/// The steps of a downward run from the place to the first one at which a side opens. Mostly it lies in the same word.
#[inline(always)]
fn first_down(left: &[u64], right: &[u64], from: u16) -> Option<u16>
    requires line { from / 64 < length left.now }
    requires long { length right.now ≡ length left.now }
    requires few { length left.now ≤ 33 }
    ensures some { IfSome result (λ count. (count ≤ from) × IsLast (open_down left.now right.now) from (from - count)) }
    ensures none { IfNone result ((i : ℕ) → i < from → open_down left.now right.now i ≡ 0) }
{
    let w = from as usize / 64;
    let before = bits_before(first_forced_down(left, right, w), from % 64);
    if before != 0 {
        return Some(from % 64 - highest(before));
    }
    let Some(place) = last_down(left, right, w) else {
        return None;
    };
    Some(from - place)
}

/// The steps of a run from the place to the first one at which a side opens.
#[inline(always)]
pub fn first_opening(lanes: &Lanes<'_>, way: Way, from: u16) -> Option<u16>
    requires { from / 64 < length lanes.now.mid }
    ensures some { IfSome result (OpensFirst (bits_along way lanes.now.left from)
        (bits_along way lanes.now.right from)) }
    ensures none { IfNone result ((n : ℕ) → opens_after (bits_along way lanes.now.left from)
        (bits_along way lanes.now.right from) n ≡ 0) }
{
    match way {
        Way::Up => first_up(lanes.left, lanes.right, from),
        Way::Down => first_down(lanes.left, lanes.right, from),
    }
}
