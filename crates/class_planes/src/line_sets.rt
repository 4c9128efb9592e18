//! The lines of a map along one axis with the stops of the runs along them, in bands that several maps may share.
ghost use Rattle.std.specs.Prelude.{ℕ, Bool, List, false, ◌≡◌, ◌<◌, ◌≤◌, ◌+◌, ◌-◌, ◌*◌, ◌/◌, ◌%◌, ◌++◌, ◌∷◌, [], length, slice_index_or, slice_range, slice_set, IfOk, OnOk};
ghost use Rattle.nav_types.specs.declared.straights.Way.{Way};
ghost use Rattle.class_planes.specs.inner.Lines.{AreLines, IsBand, LineTable, free_at, line_at};
ghost use Rattle.class_planes.specs.inner.StopLines.{AreMapLines, AreSameStops, lanes_of, line_before, map_lines, part_along, stops_along};

use crate::lines::{BAND, Band, Lines, copied, is_inner, is_set_in, lanes_in, line_in};
use crate::word_scans::{Lanes, is_set};
use nav_types::{NoMemory, Way};
use std::alloc::Global;
use std::marker::Model;
use std::mem;
use std::sync::Arc;

/// The lines of a map along one axis as bits, and from which of their places the runs up and down have a stop for a side
/// that opens. Other sets may share the bands. Contracts see bands of 96 lines: 32 of the map, then the stops of the runs
/// upwards along them, then those of the runs downwards.
#[derive(Drop)]
pub struct LineSet {
    bands: Vec<Arc<Band, Global>>,
    words: usize,
}

impl Model for LineSet {
    ghost use Rattle.std.specs.Prelude.{map};
    ghost use Rattle.std.specs.Arc.{arc_value};
    ghost use Rattle.class_planes.specs.inner.Lines.{LineTable};

    ghost Value = { LineTable };

    ghost view = { λ l. record { words = l.words; bands = map arc_value l.bands.items } };
}

impl LineSet {
    /// No bands yet, with room for so many, and lines of so many words.
    pub fn with_capacity(alloc: Global, bands: usize, words: usize) -> Result<LineSet, NoMemory>
        ensures words { IfOk result (λ lines. lines.words ≡ words) }
        ensures none { IfOk result (λ lines. lines.bands ≡ []) }
    {
        Ok(LineSet {
            bands: Vec::with_capacity(alloc, bands)?,
            words,
        })
    }

    /// Appends a band.
    pub fn push(&mut self, alloc: Global, words: Vec<u64>) -> Result<(), NoMemory>
        ensures words { OnOk result (self.new.words ≡ self.old.words) }
        ensures bands { OnOk result (self.new.bands ≡ self.old.bands ++ words.items ∷ []) }
    {
        self.bands.push(Arc::new(alloc, Band { words })?)?;
        Ok(())
    }

    /// Appends band `b` of another set, which both hold from then on.
    #[inline(always)]
    pub fn share(&mut self, from: &LineSet, b: u16) -> Result<(), NoMemory>
        requires { b < length from.now.bands }
        ensures words { OnOk result (self.new.words ≡ self.old.words) }
        ensures bands { OnOk result
            (self.new.bands ≡ self.old.bands ++ slice_index_or from.now.bands b [] ∷ []) }
    {
        self.bands
            .push(Arc::try_clone(&from.bands[usize::from(b)])?)?;
        Ok(())
    }

    /// Appends the bands of another set from one up to and without another, which both hold from then on.
    fn share_span(&mut self, from: &LineSet, start: u16, end: u16) -> Result<(), NoMemory>
        requires order { start ≤ end }
        requires within { end ≤ length from.now.bands }
        ensures words { OnOk result (self.new.words ≡ self.old.words) }
        ensures bands { OnOk result
            (self.new.bands ≡ self.old.bands ++ slice_range from.now.bands start end) }
    {
        self.bands
            .extend_with_clones(&from.bands[usize::from(start)..usize::from(end)])?;
        Ok(())
    }

    /// Takes the words of band `b` out, until others are put in their place.
    pub fn take(&mut self, alloc: Global, b: u16) -> Result<Vec<u64>, NoMemory>
        requires { b < length self.old.bands }
        ensures taken { IfOk result (λ words. words.items ≡ slice_index_or self.old.bands b []) }
        ensures words { self.new.words ≡ self.old.words }
        ensures others { (band : List ℕ) → slice_set self.new.bands b band ≡ slice_set self.old.bands b band }
    {
        let Some(band) = Arc::get_mut(&mut self.bands[usize::from(b)]) else {
            return copied(alloc, self.band(b));
        };
        Ok(mem::replace(&mut band.words, Vec::new(alloc)))
    }

    /// Puts words in the place of those of band `b`.
    pub fn put(&mut self, alloc: Global, b: u16, words: Vec<u64>) -> Result<(), NoMemory>
        requires { b < length self.old.bands }
        ensures words { OnOk result (self.new.words ≡ self.old.words) }
        ensures bands { OnOk result (self.new.bands ≡ slice_set self.old.bands b words.items) }
    {
        if let Some(band) = Arc::get_mut(&mut self.bands[usize::from(b)]) {
            band.words = words;
            return Ok(());
        }
        self.bands[usize::from(b)] = Arc::new(alloc, Band { words })?;
        Ok(())
    }

    /// How many words a line has.
    pub fn words(&self) -> usize
        ensures { result ≡ self.now.words }
    {
        self.words
    }

    /// The words of band `b`.
    pub fn band(&self, b: u16) -> &[u64]
        requires { b < length self.now.bands }
        ensures { result.now ≡ slice_index_or self.now.bands b [] }
    {
        &self.bands[usize::from(b)].words
    }

    /// The words of line `n` of the map.
    pub fn line(&self, n: u16) -> &[u64]
        requires band { n / 32 < length (map_lines self.now).bands }
        requires long { length (slice_index_or (map_lines self.now).bands (n / 32) []) ≡ 32 * self.now.words }
        ensures { result.now ≡ line_at (map_lines self.now) n }
    {
        line_in(self.band(n / BAND), self.words, n % BAND)
    }

    /// The words of line `n` of the map and of the lines beside it, where all three are in one band.
    #[inline(always)]
    fn inner_lanes(&self, n: u16) -> Lanes<'_>
        requires band { n / 32 < length (map_lines self.now).bands }
        requires long { length (slice_index_or (map_lines self.now).bands (n / 32) []) ≡ 32 * self.now.words }
        requires few { self.now.words ≤ 33 }
        requires low { 0 < n % 32 }
        requires high { n % 32 < 31 }
        ensures mid { result.mid ≡ line_at (map_lines self.now) n }
        ensures left { result.left ≡ line_at (map_lines self.now) (n + 1) }
        ensures right { result.right ≡ line_at (map_lines self.now) (n - 1) }
    {
        lanes_in(self.band(n / BAND), self.words, usize::from(n % BAND))
    }

    /// Line `n` of the first `count` lines, with the lines beside it.
    #[inline(always)]
    pub fn lanes_at(&self, count: u16, n: u16) -> Lanes<'_>
        requires lines { AreMapLines count (map_lines self.now) }
        requires line { n < count }
        ensures { result ≡ lanes_of (map_lines self.now) count n }
    {
        if is_inner(n) {
            return self.inner_lanes(n);
        }
        let mid = self.line(n);
        let left = self.line(n + 1);
        let right = self.line(line_before(count, n));
        Lanes { mid, left, right }
    }

    /// Whether place `i` of line `n` is passable.
    pub fn is_free(&self, n: u16, i: u16) -> bool
        requires band { n / 32 < length (map_lines self.now).bands }
        requires long { length (slice_index_or (map_lines self.now).bands (n / 32) []) ≡ 32 * self.now.words }
        requires place { i / 64 < self.now.words }
        ensures { result ≡ free_at (map_lines self.now) n i }
    {
        is_set(self.line(n), i)
    }

    /// Whether the run that way from place `i` of line `n` has a stop.
    #[inline(always)]
    pub fn has_jump_point(&self, way: Way, n: u16, i: u16) -> bool
        requires band { n / 32 < length (stops_along way self.now).bands }
        requires long { length (slice_index_or (stops_along way self.now).bands (n / 32) []) ≡ 32 * self.now.words }
        requires place { i / 64 < self.now.words }
        ensures { result ≡ free_at (stops_along way self.now) n i }
    {
        is_set_in(
            self.band(n / BAND),
            self.words,
            BAND * part_along(way) + n % BAND,
            i,
        )
    }
}

/// Which 32 lines of a band are the stops of the runs that way.
#[inline(always)]
fn part_along(way: Way) -> u16
    ensures is { result ≡ part_along way }
    ensures small { result ≤ 2 }
{
    match way {
        Way::Up => 1,
        Way::Down => 2,
    }
}

/// The line before line `n`. That of the first line is the one after the last.
pub fn line_before(count: u16, n: u16) -> u16
    requires { n < count }
    ensures before { result ≡ line_before count n }
    ensures small { result ≤ count }
{
    if n == 0 { count } else { n - 1 }
}

/// Appends the bands of another set from one up to and without another, which both hold from then on.
pub fn share_bands(
    from: &LineSet,
    start: u16,
    end: u16,
    lines: &mut LineSet,
) -> Result<(), NoMemory>
    requires order { start ≤ end }
    requires within { end ≤ length from.now.bands }
    requires words { lines.old.words ≡ from.now.words }
    ensures lines { OnOk result ((free : ℕ → ℕ → Bool) (words : ℕ) → AreLines free start words (map_lines lines.old)
        → ((b : ℕ) → start ≤ b → b < end → IsBand free (32 * b) words 32 (slice_index_or (map_lines from.now).bands b []))
        → AreLines free end words (map_lines lines.new)) }
    ensures stops { OnOk result (length lines.old.bands ≡ start → AreSameStops start from.now lines.old
        → AreSameStops end from.now lines.new) }
    ensures words { OnOk result (lines.new.words ≡ lines.old.words) }
{
    lines.share_span(from, start, end)?;
    Ok(())
}

/// The lines as those of a map, without a stop yet.
pub fn unstopped(alloc: Global, lines: &Lines) -> Result<LineSet, NoMemory>
    requires words { lines.now.words ≤ 33 }
    requires long { (b : ℕ) → b < length lines.now.bands → length (slice_index_or lines.now.bands b []) ≡ 32 * lines.now.words }
    ensures lines { IfOk result (λ set. map_lines set ≡ lines.now) }
    ensures stops { IfOk result (λ set. (way : Way)
        → AreLines (λ n i. false) (length lines.now.bands) lines.now.words (stops_along way set)) }
{
    let words = lines.words();
    let blank = vec![in alloc; 0; 2 * (usize::from(BAND) * words)]?;
    let mut set = LineSet::with_capacity(alloc, lines.count(), words)?;
    for b in 0..lines.count() {
        let bits = lines.band(b);
        let mut band = Vec::with_capacity(alloc, bits.len() + blank.len())?;
        band.extend_from_slice(bits)?;
        band.extend_from_slice(&blank)?;
        set.push(alloc, band)?;
    }
    Ok(set)
}
