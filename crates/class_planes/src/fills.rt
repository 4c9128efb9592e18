//! Occluded fills, as bitboards have them: set bits of a word that are spread over the free places beside them.
ghost use Rattle.std.specs.Prelude.{◌≡◌, ◌<◌, ◌+◌, ℕ, max, min};
ghost use Rattle.std.specs.Int.{bit_at};

use crate::word_scans::{highest, lowest};

/// Some places of a word, and those over which they may spread.
#[derive(Clone, Copy)]
struct Fill {
    bits: u64,
    free: u64,
}

/// The bits, and below each of them the free places down to one that is not free.
pub fn filled_down(bits: u64, free: u64) -> u64
    ensures { (k : ℕ) → k < 64
        → bit_at result k ≡ max (bit_at bits k) (min (bit_at free k) (bit_at result (k + 1))) }
{
    if bits == 0 {
        return 0;
    }
    if free == u64::MAX {
        return all_below(bits);
    }
    let one = spread_down(Fill { bits, free }, 1);
    let two = spread_down(one, 2);
    let four = spread_down(two, 4);
    let eight = spread_down(four, 8);
    let sixteen = spread_down(eight, 16);
    spread_down(sixteen, 32).bits
}

/// The bits, and above each of them the free places up to one that is not free.
pub fn filled_up(bits: u64, free: u64) -> u64
    ensures lowest { bit_at result 0 ≡ bit_at bits 0 }
    ensures others { (k : ℕ) → k + 1 < 64
        → bit_at result (k + 1) ≡ max (bit_at bits (k + 1)) (min (bit_at free (k + 1)) (bit_at result k)) }
{
    if bits == 0 {
        return 0;
    }
    if free == u64::MAX {
        return all_above(bits);
    }
    let one = spread_up(Fill { bits, free }, 1);
    let two = spread_up(one, 2);
    let four = spread_up(two, 4);
    let eight = spread_up(four, 8);
    let sixteen = spread_up(eight, 16);
    spread_up(sixteen, 32).bits
}

/// The highest of the bits, and all places below it. Where all are free, most words are filled so.
fn all_below(bits: u64) -> u64
    requires { 0 < bits }
    ensures { (k : ℕ) → k < 64 → bit_at result k ≡ max (bit_at bits k) (bit_at result (k + 1)) }
{
    u64::MAX >> (63 - highest(bits))
}

/// The lowest of the bits, and all places above it.
fn all_above(bits: u64) -> u64
    requires { 0 < bits }
    ensures lowest { bit_at result 0 ≡ bit_at bits 0 }
    ensures others { (k : ℕ) → k + 1 < 64
        → bit_at result (k + 1) ≡ max (bit_at bits (k + 1)) (bit_at result k) }
{
    u64::MAX << lowest(bits)
}

/// The bits spread so many places further down, and the places that are free with those so far below.
fn spread_down(fill: Fill, far: u16) -> Fill
    requires { far < 64 }
    ensures bits { (k : ℕ) → bit_at result.bits k
        ≡ max (bit_at fill.bits k) (min (bit_at fill.free k) (bit_at fill.bits (far + k))) }
    ensures free { (k : ℕ) → bit_at result.free k ≡ min (bit_at fill.free k) (bit_at fill.free (far + k)) }
{
    Fill {
        bits: fill.bits | (fill.free & (fill.bits >> far)),
        free: fill.free & (fill.free >> far),
    }
}

/// The bits spread so many places further up, and the places that are free with those so far above.
fn spread_up(fill: Fill, far: u16) -> Fill
    requires { far < 64 }
    ensures low { (k : ℕ) → k < far → bit_at result.bits k ≡ bit_at fill.bits k }
    ensures bits { (k : ℕ) → far + k < 64 → bit_at result.bits (far + k)
        ≡ max (bit_at fill.bits (far + k)) (min (bit_at fill.free (far + k)) (bit_at fill.bits k)) }
    ensures free { (k : ℕ) → far + k < 64
        → bit_at result.free (far + k) ≡ min (bit_at fill.free (far + k)) (bit_at fill.free k) }
{
    Fill {
        bits: fill.bits | (fill.free & (fill.bits << far)),
        free: fill.free & (fill.free << far),
    }
}
