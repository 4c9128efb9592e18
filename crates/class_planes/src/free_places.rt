//! The first place of a line that is free, or that is not, 64 places at a time.
ghost use Rattle.std.specs.Prelude.{◌≡◌, ◌<◌, ◌≤◌, ◌/◌, ◌==◌, ℕ, length};
ghost use Rattle.std.specs.Int.{bit_at};
ghost use Rattle.nav_types.specs.Lines.{IsFirstFree, IsFirstBlocked, is_sought};
ghost use Rattle.lane_rows.specs.Rows.{one_if};
ghost use Rattle.class_planes.specs.inner.Runs.{bit_in};

use crate::word_scans::{bits_after, is_set, lowest};

/// The first free place of the line from one place on; the end where none is free before it.
pub fn first_free(line: &[u64], from: u16, end: u16) -> u16
    requires from { from < end }
    requires words { end / 64 < length line.now }
    requires few { length line.now ≤ 33 }
    ensures { IsFirstFree (λ i. bit_in line.now i == 1) from end result }
{
    first_sought(line, from, end, true)
}

/// The first place of the line from one place on that is not free; the end where all are free before it.
pub fn first_blocked(line: &[u64], from: u16, end: u16) -> u16
    requires from { from < end }
    requires words { end / 64 < length line.now }
    requires few { length line.now ≤ 33 }
    ensures { IsFirstBlocked (λ i. bit_in line.now i == 1) from end result }
{
    first_sought(line, from, end, false)
}

/// The first place of the line from one place on that is free, where that is sought, and else that is not; the end where
/// there is none before it.
#[inline(always)]
fn first_sought(line: &[u64], from: u16, end: u16, free: bool) -> u16
    requires from { from < end }
    requires words { end / 64 < length line.now }
    requires few { length line.now ≤ 33 }
    ensures { IsFirstFree (λ i. is_sought free (bit_in line.now i == 1)) from end result }
{
    if is_set(line, from) == free {
        return from;
    }
    let first = usize::from(from) / 64;
    let after = bits_after(sought_bits(line[first], free), from % 64);
    if after != 0 {
        return end.min(from + 1 + lowest(after));
    }
    for w in first + 1..line.len() {
        let word = sought_bits(line[w], free);
        if word != 0 {
            return end.min(64 * w as u16 + lowest(word));
        }
    }
    end
}

/// The bits of the free places of a word, or of the others.
#[inline(always)]
fn sought_bits(word: u64, free: bool) -> u64
    ensures { (k : ℕ) → k < 64 → bit_at result k ≡ one_if (is_sought free (bit_at word k == 1)) }
{
    if free { word } else { !word }
}
