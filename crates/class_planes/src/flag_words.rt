//! The stops of the runs along a line, 64 places at a time. A set bit is a place from which the run has a stop for a side
//! that opens.
ghost use Rattle.std.specs.Prelude.{◌≡◌, ◌<◌, ◌≤◌, ◌+◌, ◌-◌, ◌*◌, ◌/◌, ℕ, length, max, min};
ghost use Rattle.std.specs.Int.{bit_at};
ghost use Rattle.nav_types.specs.declared.straights.Way.TheVariants as Way;
ghost use Rattle.class_planes.specs.inner.Runs.{bit_in, opening};
ghost use Rattle.class_planes.specs.inner.StopLines.{stop_bit, IsStopBit};

use crate::fills::{filled_down, filled_up};
use crate::word_scans::{Lanes, forced_places, moved_down, moved_up, top_before, word_at};

/// Of the free places those where a side is free that was not before.
fn opened(free: u64, left: u64, left_before: u64, right: u64, right_before: u64) -> u64
    ensures { (k : ℕ) → k < 64 → bit_at result k ≡ min (bit_at free k)
        (max (opening (bit_at left_before k) (bit_at left k)) (opening (bit_at right_before k) (bit_at right k))) }
{
    free & forced_places(left, left_before, right, right_before)
}

/// The lowest bit of the word, at the highest place.
fn at_top(word: u64) -> u64
    ensures low { (k : ℕ) → k < 63 → bit_at result k ≡ 0 }
    ensures top { bit_at result 63 ≡ bit_at word 0 }
{
    word << 63
}

/// Word `w` of the stops of the upward runs, where the word after it is right.
fn word_up(lanes: &Lanes<'_>, stops: &[u64], w: usize) -> u64
    requires { w < length lanes.now.mid }
    ensures inner { (k : ℕ) → k < 63
        → bit_at result k ≡ stop_bit lanes.now (64 * w + k) (64 * w + k + 1) (bit_at result (k + 1)) }
    ensures last { bit_at result 63
        ≡ stop_bit lanes.now (64 * w + 63) (64 * w + 64) (bit_in stops.now (64 * w + 64)) }
{
    let free = moved_down(lanes.mid, w);
    let left = moved_down(lanes.left, w);
    let right = moved_down(lanes.right, w);
    let opened = opened(free, left, lanes.left[w], right, lanes.right[w]);
    filled_down(opened | free & at_top(word_at(stops, w + 1)), free)
}

/// Word `w` of the stops of the downward runs, where the word before it is right.
fn word_down(lanes: &Lanes<'_>, stops: &[u64], w: usize) -> u64
    requires within { w < length lanes.now.mid }
    requires words { length stops.now ≡ length lanes.now.mid }
    ensures inner { (k : ℕ) → k < 63
        → bit_at result (k + 1) ≡ stop_bit lanes.now (64 * w + k + 1) (64 * w + k) (bit_at result k) }
    ensures first { 0 < w → bit_at result 0
        ≡ stop_bit lanes.now (64 * w) (64 * w - 1) (bit_in stops.now (64 * w - 1)) }
    ensures none { w ≡ 0 → bit_at result 0 ≡ 0 }
{
    let free = moved_up(lanes.mid, w);
    let left = moved_up(lanes.left, w);
    let right = moved_up(lanes.right, w);
    let opened = opened(free, left, lanes.left[w], right, lanes.right[w]);
    filled_up(opened | free & top_before(stops, w), free)
}

/// Makes the stops of the upward runs right in the words from `first` to `last`. Elsewhere they stay right: below these
/// words they are made anew up to one whose lowest bit is as it was.
pub fn renew_up(lanes: &Lanes<'_>, first: usize, last: usize, stops: &mut [u64])
    requires words { length stops.old ≡ length lanes.now.mid }
    requires last { last < length lanes.now.mid }
    ensures stays { length stops.new ≡ length stops.old }
    ensures renewed { (i : ℕ) → first ≤ i / 64 → i / 64 ≤ last → IsStopBit Way.Up lanes.now stops.new i }
    ensures kept { (i : ℕ) → i / 64 < length lanes.now.mid → IsStopBit Way.Up lanes.now stops.old i
        → IsStopBit Way.Up lanes.now stops.new i }
{
    let mut w = last + 1;
    'words: while w > 0 {
        w -= 1;
        let word = word_up(lanes, stops, w);
        let settled = word % 2 == stops[w] % 2;
        stops[w] = word;
        if w <= first && settled {
            return;
        }
    }
}

/// Makes the stops of the downward runs right in the words from `first` to `last`. Elsewhere they stay right: above
/// these words they are made anew up to one whose highest bit is as it was.
pub fn renew_down(lanes: &Lanes<'_>, first: usize, last: usize, stops: &mut [u64])
    requires words { length stops.old ≡ length lanes.now.mid }
    requires last { last < length lanes.now.mid }
    ensures stays { length stops.new ≡ length stops.old }
    ensures renewed { (i : ℕ) → first ≤ i / 64 → i / 64 ≤ last → IsStopBit Way.Down lanes.now stops.new i }
    ensures kept { (i : ℕ) → i / 64 < length lanes.now.mid → IsStopBit Way.Down lanes.now stops.old i
        → IsStopBit Way.Down lanes.now stops.new i }
{
    for w in first..stops.len() {
        let word = word_down(lanes, stops, w);
        let settled = word >> 63 == stops[w] >> 63;
        stops[w] = word;
        if last <= w && settled {
            return;
        }
    }
}
