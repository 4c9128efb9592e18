//! Where a run over the set bits of a line halts, 64 places at a time.
ghost use Rattle.std.specs.Prelude.{◌≡◌, ◌<◌, ◌≤◌, ◌+◌, ◌-◌, ◌*◌, ◌/◌, ◌==◌, ℕ, length, max, IfSome, IfNone, slice_index};
ghost use Rattle.std.specs.Int.{bit_at};
ghost use Rattle.class_planes.specs.inner.Runs.{bit_in, opening, end_up, end_down, IsNext, IsLast, bits_along, GoesFar};
ghost use Rattle.nav_types.specs.declared.straights.Way.TheVariants as Way;

use nav_types::Way;
use std::marker::Model;

/// How far a run goes: the steps to the last place where it may go on, and whether a side opens there. Contracts see
/// both.
#[derive(Drop)]
pub struct Reach {
    pub count: u16,
    pub forced: bool,
}

impl Model for Reach {
    ghost use Rattle.class_planes.specs.inner.Runs.{Far};

    ghost Value = { Far };

    ghost view = { λ r. record { count = r.count; forced = r.forced } };
}

/// A place where a run halts, and whether it is free.
#[derive(Drop)]
struct End {
    place: u16,
    free: bool,
}

/// Three lines of equally many words: the one along which a run goes, and those to its two sides. Contracts see the
/// words.
#[derive(Drop)]
pub struct Lanes<'a> {
    pub mid: &'a [u64],
    pub left: &'a [u64],
    pub right: &'a [u64],
}

impl<'a> Model for Lanes<'a> {
    ghost use Rattle.class_planes.specs.inner.Runs.{LaneWords, AreLanes};

    ghost Value = { LaneWords };

    ghost view = { λ l. record { mid = l.mid.now; left = l.left.now; right = l.right.now } };

    ghost invariant = { λ l. AreLanes (record { mid = l.mid.now; left = l.left.now; right = l.right.now }) };
}

/// Word `w` of the line, with each bit a place up, and nothing said of the lowest place.
pub fn shifted_up(line: &[u64], w: usize) -> u64
    requires { w < length line.now }
    ensures { (k : ℕ) → 0 < k → k < 64 → bit_at result k ≡ bit_in line.now (64 * w + k - 1) }
{
    line[w] << 1
}

/// Word `w` of the line, with each bit a place down, and nothing said of the highest place.
pub fn shifted_down(line: &[u64], w: usize) -> u64
    requires { w < length line.now }
    ensures { (k : ℕ) → k < 63 → bit_at result k ≡ bit_in line.now (64 * w + k + 1) }
{
    line[w] >> 1
}

/// The highest bit of the word before word `w`, at the lowest place. There is none before the first word.
pub fn top_before(line: &[u64], w: usize) -> u64
    requires { w < length line.now }
    ensures small { result < 2 }
    ensures bit { 0 < w → bit_at result 0 ≡ bit_in line.now (64 * w - 1) }
    ensures none { w ≡ 0 → result ≡ 0 }
{
    if w == 0 { 0 } else { line[w - 1] >> 63 }
}

/// Word `w` of the line, with each bit a place up. Nothing comes to the lowest place of the first word.
pub fn moved_up(line: &[u64], w: usize) -> u64
    requires { w < length line.now }
    ensures bits { (k : ℕ) → k < 64 → 0 < 64 * w + k → bit_at result k ≡ bit_in line.now (64 * w + k - 1) }
    ensures first { w ≡ 0 → bit_at result 0 ≡ 0 }
{
    line[w] << 1 | top_before(line, w)
}

/// Word `w` of the line, and 0 past its end.
pub fn word_at(line: &[u64], w: usize) -> u64
    ensures { result ≡ slice_index line.now w }
{
    match line.get(w) {
        Some(word) => *word,
        None => 0,
    }
}

/// Whether the bit of place `i` of the line is set.
#[inline(always)]
pub fn is_set(line: &[u64], i: u16) -> bool
    requires { i / 64 < length line.now }
    ensures { result ≡ (bit_in line.now i == 1) }
{
    (line[usize::from(i) / 64] >> (i % 64)) & 1 == 1
}

/// Word `w` of the line, with each bit a place down.
pub fn moved_down(line: &[u64], w: usize) -> u64
    requires { w < length line.now }
    ensures { (k : ℕ) → k < 64 → bit_at result k ≡ bit_in line.now (64 * w + k + 1) }
{
    line[w] >> 1 | word_at(line, w + 1) << 63
}

/// The bits after bit `k`, moved down to the lowest place.
pub fn bits_after(word: u64, k: u16) -> u64
    requires { k < 64 }
    ensures { (m : ℕ) → bit_at result m ≡ bit_at word (k + 1 + m) }
{
    word >> k >> 1
}

/// The bits before bit `k`.
pub fn bits_before(word: u64, k: u16) -> u64
    requires { k < 64 }
    ensures kept { (m : ℕ) → m < k → bit_at result m ≡ bit_at word m }
    ensures none { (m : ℕ) → k ≤ m → bit_at result m ≡ 0 }
{
    word & ((1 << k) - 1)
}

/// The places where a side is free that was not before.
pub fn forced_places(left: u64, left_before: u64, right: u64, right_before: u64) -> u64
    ensures { (k : ℕ) → k < 64 → bit_at result k
        ≡ max (opening (bit_at left_before k) (bit_at left k)) (opening (bit_at right_before k) (bit_at right k)) }
{
    left & !left_before | right & !right_before
}

/// The places where a run halts: those that are not free, and those where a side is free that was not before.
fn halting(mid: u64, left: u64, left_before: u64, right: u64, right_before: u64) -> u64
    ensures { (k : ℕ) → k < 64 → bit_at result k ≡ max (1 - bit_at mid k)
        (max (opening (bit_at left_before k) (bit_at left k)) (opening (bit_at right_before k) (bit_at right k))) }
{
    !mid | forced_places(left, left_before, right, right_before)
}

impl<'a> Lanes<'a> {
    /// The places of word `w` at which an upward run halts.
    fn ends_up(&self, w: usize) -> u64
        requires { w < length self.now.mid }
        ensures { (k : ℕ) → k < 64 → 0 < 64 * w + k → bit_at result k ≡ end_up self.now (64 * w + k) }
    {
        let left_before = moved_up(self.left, w);
        let right_before = moved_up(self.right, w);
        halting(
            self.mid[w],
            self.left[w],
            left_before,
            self.right[w],
            right_before,
        )
    }

    /// The places of word `w` at which a downward run halts.
    fn ends_down(&self, w: usize) -> u64
        requires { w < length self.now.mid }
        ensures { (k : ℕ) → k < 64 → bit_at result k ≡ end_down self.now (64 * w + k) }
    {
        let left_before = moved_down(self.left, w);
        let right_before = moved_down(self.right, w);
        halting(
            self.mid[w],
            self.left[w],
            left_before,
            self.right[w],
            right_before,
        )
    }

    /// The places of word `w` at which an upward run halts that begins in it. The lowest one says nothing.
    fn first_ends_up(&self, w: usize) -> u64
        requires { w < length self.now.mid }
        ensures { (k : ℕ) → 0 < k → k < 64 → bit_at result k ≡ end_up self.now (64 * w + k) }
    {
        let left_before = shifted_up(self.left, w);
        let right_before = shifted_up(self.right, w);
        halting(
            self.mid[w],
            self.left[w],
            left_before,
            self.right[w],
            right_before,
        )
    }

    /// The places of word `w` at which a downward run halts that begins in it. The highest one says nothing.
    fn first_ends_down(&self, w: usize) -> u64
        requires { w < length self.now.mid }
        ensures { (k : ℕ) → k < 63 → bit_at result k ≡ end_down self.now (64 * w + k) }
    {
        let left_before = shifted_down(self.left, w);
        let right_before = shifted_down(self.right, w);
        halting(
            self.mid[w],
            self.left[w],
            left_before,
            self.right[w],
            right_before,
        )
    }

    /// The place of word `w`, and whether it is free.
    #[inline(always)]
    fn end_at(&self, w: usize, place: u16) -> End
        requires word { w < length self.now.mid }
        requires place { place / 64 ≡ w }
        ensures place { result.place ≡ place }
        ensures free { result.free ≡ (bit_in self.now.mid place == 1) }
    {
        End {
            place,
            free: (self.mid[w] >> (place % 64)) & 1 == 1,
        }
    }

    /// The first place after `from` at which an upward run halts. Past the last word no place is free.
    #[inline(always)]
    fn next_up(&self, from: u16) -> End
        requires { from / 64 < length self.now.mid }
        ensures next { IsNext (end_up self.now) from result.place }
        ensures free { result.free ≡ (bit_in self.now.mid result.place == 1) }
    {
        // The prover knows that the lines are equally long once a field is used.
        let _ = &self.mid;
        let first = from as usize / 64;
        let after = bits_after(self.first_ends_up(first), from % 64);
        if after != 0 {
            return self.end_at(first, from + 1 + lowest(after));
        }
        for w in first + 1..self.mid.len() {
            let ends = self.ends_up(w);
            if ends != 0 {
                return self.end_at(w, 64 * w as u16 + lowest(ends));
            }
        }
        End {
            place: 64 * self.mid.len() as u16,
            free: false,
        }
    }

    /// The last place before `from` at which a downward run halts.
    #[inline(always)]
    fn last_down(&self, from: u16) -> Option<End>
        requires { from / 64 < length self.now.mid }
        ensures some { IfSome result (λ end. IsLast (end_down self.now) from end.place) }
        ensures free { IfSome result (λ end. end.free ≡ (bit_in self.now.mid end.place == 1)) }
        ensures none { IfNone result ((i : ℕ) → i < from → end_down self.now i ≡ 0) }
    {
        // The prover knows that the lines are equally long once a field is used.
        let _ = &self.mid;
        let mut w = from as usize / 64;
        let before = bits_before(self.first_ends_down(w), from % 64);
        if before != 0 {
            return Some(self.end_at(w, 64 * w as u16 + highest(before)));
        }
        'down: while w > 0 {
            w -= 1;
            let ends = self.ends_down(w);
            if ends != 0 {
                return Some(self.end_at(w, 64 * w as u16 + highest(ends)));
            }
        }
        None
    }

    /// How far a run from the place goes.
    #[inline(always)]
    pub fn reach(&self, way: Way, from: u16) -> Reach
        requires line { from / 64 < length self.now.mid }
        requires free { bit_in self.now.mid from ≡ 1 }
        ensures { GoesFar (bits_along way self.now.mid from) (bits_along way self.now.left from)
            (bits_along way self.now.right from) result }
    {
        match way {
            Way::Up => self.reach_up(from),
            Way::Down => self.reach_down(from),
        }
    }

    /// How far an upward run from the place goes.
    #[inline(always)]
    fn reach_up(&self, from: u16) -> Reach
        requires line { from / 64 < length self.now.mid }
        requires free { bit_in self.now.mid from ≡ 1 }
        ensures { GoesFar (bits_along Way.Up self.now.mid from) (bits_along Way.Up self.now.left from)
            (bits_along Way.Up self.now.right from) result }
    {
        // The prover knows that the lines are equally long once a field is used.
        let _ = &self.mid;
        let End { place, free } = self.next_up(from);
        if free {
            Reach {
                count: place - from,
                forced: true,
            }
        } else {
            Reach {
                count: place - from - 1,
                forced: false,
            }
        }
    }

    /// How far a downward run from the place goes.
    #[inline(always)]
    fn reach_down(&self, from: u16) -> Reach
        requires line { from / 64 < length self.now.mid }
        requires free { bit_in self.now.mid from ≡ 1 }
        ensures { GoesFar (bits_along Way.Down self.now.mid from) (bits_along Way.Down self.now.left from)
            (bits_along Way.Down self.now.right from) result }
    {
        // The prover knows that the lines are equally long once a field is used.
        let _ = &self.mid;
        let Some(end) = self.last_down(from) else {
            return Reach {
                count: from,
                forced: false,
            };
        };
        if end.free {
            return Reach {
                count: from - end.place,
                forced: true,
            };
        }
        Reach {
            count: from - end.place - 1,
            forced: false,
        }
    }
}

/// The place of the lowest set bit.
pub fn lowest(word: u64) -> u16
    requires { 0 < word }
    ensures small { result < 64 }
    ensures set { bit_at word result ≡ 1 }
    ensures none { (k : ℕ) → k < result → bit_at word k ≡ 0 }
{
    word.trailing_zeros() as u16
}

/// The place of the highest set bit.
pub fn highest(word: u64) -> u16
    requires { 0 < word }
    ensures small { result < 64 }
    ensures set { bit_at word result ≡ 1 }
    ensures none { (k : ℕ) → result < k → bit_at word k ≡ 0 }
{
    63 - word.leading_zeros() as u16
}
