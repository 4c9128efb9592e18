//! Where the straight runs along the lines of a map have a stop for a side that opens, known beforehand.
ghost use Rattle.std.specs.Prelude.{ℕ, ⊤, false, ◌≡◌, ◌≢◌, ◌<◌, ◌≤◌, ◌+◌, ◌*◌, ◌/◌, [], All, length, map, slice_index_or, IsFalse, IfOk, OnOk};
ghost use Rattle.nav_types.specs.declared.straights.Way.TheVariants as Way;
ghost use Rattle.nav_types.specs.declared.straights.Way.{Way};
ghost use Rattle.class_planes.specs.inner.Lines.{AreLines, line_at};
ghost use Rattle.class_planes.specs.inner.StopLines.{IsBandStop, IsStopBit, AreAlike, AreMapLines, AreSameOutside, AreBandStops, AreStops, AreStopsBefore, IsFarFrom, IsInTouchedWord, IsRectOf, band_put, lanes_of, map_lines, part_along, part_in, stops_along, turned_rect};

use crate::band_spans::bands_about;
use crate::flag_words::{renew_down, renew_up};
use crate::joined_rects::joined;
use crate::line_sets::{LineSet, line_before};
use crate::lines::{BAND, lanes_in, line_in};
use crate::tight_rects::tight_rects;
use crate::word_scans::Lanes;
use nav_types::{Axis, NoMemory, Rect, Way};
use std::alloc::Global;
use std::marker::Model;

/// The first `count` of the lines, those of a map, where the 32 from `first` on are taken out of the set. Contracts see
/// all of them in one table.
#[derive(Drop)]
struct MapLines<'a> {
    others: &'a LineSet,
    bits: &'a [u64],
    first: u16,
    count: u16,
}

impl<'a> Model for MapLines<'a> {
    ghost use Rattle.std.specs.Prelude.{◌≡◌, ◌*◌, ◌/◌, slice_set};
    ghost use Rattle.class_planes.specs.inner.StopLines.{MapTable, map_lines};

    ghost Value = { MapTable };

    ghost view = { λ m. record {
      count = m.count;
      lines = record {
        words = m.others.now.words;
        bands = slice_set (map_lines m.others.now).bands (m.first / 32) m.bits.now;
      };
    } };

    ghost invariant = { λ m. 32 * (m.first / 32) ≡ m.first };
}

impl MapLines<'_> {
    /// How many lines the map has.
    fn count(&self) -> u16
        ensures { result ≡ self.now.count }
    {
        self.count
    }

    /// How many words a line has.
    fn words(&self) -> usize
        ensures { result ≡ self.now.lines.words }
    {
        self.others.words()
    }

    /// The words of line `n`.
    fn line(&self, n: u16) -> &[u64]
        requires lines { AreMapLines self.now.count self.now.lines }
        requires line { n ≤ self.now.count }
        ensures { result.now ≡ line_at self.now.lines n }
    {
        if n / BAND == self.first / BAND {
            line_in(self.bits, self.others.words(), n % BAND)
        } else {
            self.others.line(n)
        }
    }

    /// Line `n` with the lines beside it.
    fn lanes_at(&self, n: u16) -> Lanes<'_>
        requires lines { AreMapLines self.now.count self.now.lines }
        requires line { n < self.now.count }
        ensures { result ≡ lanes_of self.now.lines self.now.count n }
    {
        if self.first < n && n < self.first + (BAND - 1) {
            return lanes_in(self.bits, self.others.words(), usize::from(n - self.first));
        }
        let mid = self.line(n);
        let left = self.line(n + 1);
        let right = self.line(line_before(self.count, n));
        Lanes { mid, left, right }
    }
}

/// The same lines with the stops of the runs along the first `count` of them, where there was none.
pub fn stopped(alloc: Global, lines: LineSet, count: u16) -> Result<LineSet, NoMemory>
    requires lines { AreMapLines count (map_lines lines) }
    requires blank { (way : Way) → AreLines (λ n i. false) (count / 32 + 1) lines.words (stops_along way lines) }
    ensures lines { IfOk result (λ set. map_lines set ≡ map_lines lines) }
    ensures stops { IfOk result (λ set. (way : Way) → AreStops way count (map_lines lines) (stops_along way set)) }
{
    let whole = Rect {
        i0: 0,
        j0: 0,
        i1: 64 * lines.words() as u16 - 2,
        j1: count - 1,
    };
    let mut set = lines;
    renew_stops(alloc, &mut set, count, &[whole])?;
    Ok(set)
}

/// The same lines with the stops of the runs along the first `count` of them, where they have those of `before`, whose
/// lines are the same outside of the rectangles. Words near the changed lines are made anew, and those on against the run
/// as far as they change.
pub fn updated_stops(
    alloc: Global,
    before: &LineSet,
    lines: LineSet,
    count: u16,
    rects: &[Rect],
) -> Result<LineSet, NoMemory>
    requires alike { AreAlike count (map_lines before.now) (map_lines lines) }
    requires inside { All (IsRectOf count lines.words) rects.now }
    requires same { AreSameOutside count (map_lines before.now) (map_lines lines) rects.now }
    requires stops { (way : Way) → AreStops way count (map_lines before.now) (stops_along way lines) }
    ensures lines { IfOk result (λ set. map_lines set ≡ map_lines lines) }
    ensures stops { IfOk result (λ set. (way : Way) → AreStops way count (map_lines lines) (stops_along way set)) }
{
    let tight = tight_rects(alloc, before, &lines, count, rects)?;
    let rows = joined(alloc, tight)?;
    let near = joined(alloc, rows)?;
    let mut set = lines;
    renew_stops(alloc, &mut set, count, &near)?;
    Ok(set)
}

/// Makes the stops of the runs along the lines of a map right, where they are so far from the rectangles.
fn renew_stops(alloc: Global, set: &mut LineSet, count: u16, rects: &[Rect]) -> Result<(), NoMemory>
    requires lines { AreMapLines count (map_lines set.old) }
    requires inside { All (IsRectOf count set.old.words) rects.now }
    requires before { (way : Way) → AreStopsBefore way rects.now count (map_lines set.old) (stops_along way set.old) }
    ensures lines { OnOk result (map_lines set.new ≡ map_lines set.old) }
    ensures stops { OnOk result ((way : Way) → AreStops way count (map_lines set.old) (stops_along way set.new)) }
{
    let near = bands_about(rects, Axis::Row, count / BAND + 1);
    for band in near.from..near.to {
        renew_band(alloc, set, count, rects, band)?;
    }
    Ok(())
}

/// Makes the stops along the 32 lines of a band right, where they are so far from the rectangles. A band that others hold
/// too is copied, where a rectangle comes near it.
fn renew_band(
    alloc: Global,
    set: &mut LineSet,
    count: u16,
    rects: &[Rect],
    band: u16,
) -> Result<(), NoMemory>
    requires lines { AreMapLines count (map_lines set.old) }
    requires inside { All (IsRectOf count set.old.words) rects.now }
    requires band { band < count / 32 + 1 }
    requires before { (way : Way) → AreBandStops (IsFarFrom rects.now) way (map_lines set.old) count (32 * band)
        (slice_index_or (stops_along way set.old).bands band []) }
    ensures lines { OnOk result (map_lines set.new ≡ map_lines set.old) }
    ensures stops { OnOk result ((way : Way) → AreBandStops (λ n i. ⊤) way (map_lines set.old) count (32 * band)
        (slice_index_or (stops_along way set.new).bands band [])) }
    ensures others { OnOk result ((way : Way) (b : ℕ) → b ≢ band
        → slice_index_or (stops_along way set.new).bands b [] ≡ slice_index_or (stops_along way set.old).bands b []) }
{
    if !is_near(rects, BAND * band) {
        return Ok(());
    }
    let long = usize::from(BAND) * set.words();
    let mut words = set.take(alloc, band)?;
    let (bits, stops) = words.split_at_mut(long);
    write_stops(set, bits, count, rects, band, stops);
    set.put(alloc, band, words)
}

/// Whether a rectangle may meet one of the 32 lines from `first` on, or a line beside them.
fn is_near(rects: &[Rect], first: u16) -> bool
    requires low { first ≤ 4096 }
    ensures { IsFalse result → (n i : ℕ) → first ≤ n → n < first + 32 → IsFarFrom rects.now n i }
{
    let low = first.saturating_sub(1);
    let high = first + BAND;
    rects.iter().any(|rect| rect.j0 <= high && low <= rect.j1)
}

/// Makes the stops of the runs upwards and then of those downwards right along the 32 lines of a band that were taken out
/// of the set.
fn write_stops(
    others: &LineSet,
    bits: &[u64],
    count: u16,
    rects: &[Rect],
    band: u16,
    stops: &mut [u64],
)
    requires lines { AreMapLines count (band_put (map_lines others.now) band bits.now) }
    requires inside { All (IsRectOf count others.now.words) rects.now }
    requires band { band < count / 32 + 1 }
    requires long { 2 * (32 * others.now.words) ≤ length stops.old }
    requires up { AreBandStops (IsFarFrom rects.now) Way.Up (band_put (map_lines others.now) band bits.now) count (32 * band)
        (part_in others.now.words stops.old 0) }
    requires down { AreBandStops (IsFarFrom rects.now) Way.Down (band_put (map_lines others.now) band bits.now) count
        (32 * band) (part_in others.now.words stops.old 1) }
    ensures stays { length stops.new ≡ length stops.old }
    ensures up { AreBandStops (λ n i. ⊤) Way.Up (band_put (map_lines others.now) band bits.now) count (32 * band)
        (part_in others.now.words stops.new 0) }
    ensures down { AreBandStops (λ n i. ⊤) Way.Down (band_put (map_lines others.now) band bits.now) count (32 * band)
        (part_in others.now.words stops.new 1) }
{
    let long = usize::from(BAND) * others.words();
    let first = BAND * band;
    let map = MapLines {
        others,
        bits,
        first,
        count,
    };
    write_rects(&map, Way::Up, rects, first, &mut stops[..long]);
    write_rects(&map, Way::Down, rects, first, &mut stops[long..2 * long]);
}

/// Makes the stops near the rectangles right along the 32 lines from `first` on. The other bits are right already.
fn write_rects(map: &MapLines<'_>, way: Way, rects: &[Rect], first: u16, band: &mut [u64])
    requires lines { AreMapLines map.now.count map.now.lines }
    requires inside { All (IsRectOf map.now.count map.now.lines.words) rects.now }
    requires low { first ≤ 4096 }
    requires before { AreBandStops (IsFarFrom rects.now) way map.now.lines map.now.count first band.old }
    ensures stays { length band.new ≡ length band.old }
    ensures stops { AreBandStops (λ n i. ⊤) way map.now.lines map.now.count first band.new }
{
    for rect in rects {
        write_rect(map, way, *rect, first, band);
    }
}

/// Makes the stops near a rectangle right along the 32 lines from `first` on, and keeps the others right.
fn write_rect(map: &MapLines<'_>, way: Way, rect: Rect, first: u16, band: &mut [u64])
    requires lines { AreMapLines map.now.count map.now.lines }
    requires rect { IsRectOf map.now.count map.now.lines.words rect }
    requires low { first ≤ 4096 }
    requires band { length band.old ≡ 32 * map.now.lines.words }
    ensures stays { length band.new ≡ length band.old }
    ensures near { (m i : ℕ) → m < 32 → first + m < map.now.count → i / 64 < map.now.lines.words
        → IsInTouchedWord rect (first + m) i
        → IsBandStop way map.now.lines map.now.count first band.new m i }
    ensures kept { (m i : ℕ) → m < 32 → first + m < map.now.count → i / 64 < map.now.lines.words
        → IsBandStop way map.now.lines map.now.count first band.old m i
        → IsBandStop way map.now.lines map.now.count first band.new m i }
{
    let from = rect.j0.saturating_sub(1).max(first);
    let to = (rect.j1 + 2).min(first + BAND).min(map.count());
    for n in from..to {
        write_line(map, way, rect, n, first, band);
    }
}

/// Makes the stops near a rectangle right along line `n` of the 32 lines from `first` on, and keeps the others right.
fn write_line(map: &MapLines<'_>, way: Way, rect: Rect, n: u16, first: u16, band: &mut [u64])
    requires lines { AreMapLines map.now.count map.now.lines }
    requires rect { IsRectOf map.now.count map.now.lines.words rect }
    requires line { n < map.now.count }
    requires low { first ≤ n }
    requires high { n < first + 32 }
    requires band { length band.old ≡ 32 * map.now.lines.words }
    ensures stays { length band.new ≡ length band.old }
    ensures near { (m i : ℕ) → first + m ≡ n → IsInTouchedWord rect n i
        → IsBandStop way map.now.lines map.now.count first band.new m i }
    ensures kept { (m i : ℕ) → m < 32 → first + m < map.now.count → i / 64 < map.now.lines.words
        → IsBandStop way map.now.lines map.now.count first band.old m i
        → IsBandStop way map.now.lines map.now.count first band.new m i }
{
    let words = map.words();
    let start = usize::from(n - first) * words;
    renew_line(map, way, rect, n, &mut band[start..start + words]);
}

/// Makes the stops near a rectangle right along line `n`, and keeps the others right.
fn renew_line(map: &MapLines<'_>, way: Way, rect: Rect, n: u16, stops: &mut [u64])
    requires lines { AreMapLines map.now.count map.now.lines }
    requires rect { IsRectOf map.now.count map.now.lines.words rect }
    requires line { n < map.now.count }
    requires words { length stops.old ≡ map.now.lines.words }
    ensures stays { length stops.new ≡ length stops.old }
    ensures near { (i : ℕ) → IsInTouchedWord rect n i → IsStopBit way (lanes_of map.now.lines map.now.count n)
        stops.new i }
    ensures kept { (i : ℕ) → i / 64 < map.now.lines.words → IsStopBit way
        (lanes_of map.now.lines map.now.count n) stops.old i
        → IsStopBit way (lanes_of map.now.lines map.now.count n) stops.new i }
{
    let lanes = map.lanes_at(n);
    let first = usize::from(rect.i0.saturating_sub(1) / 64);
    let last = usize::from((rect.i1 + 1) / 64);
    match way {
        Way::Up => renew_up(&lanes, first, last, stops),
        Way::Down => renew_down(&lanes, first, last, stops),
    }
}

/// The rectangles with columns and rows exchanged.
pub fn transposed(alloc: Global, rects: &[Rect]) -> Result<Vec<Rect>, NoMemory>
    ensures { IfOk result (λ others. others.items ≡ map turned_rect rects.now) }
{
    let mut others = Vec::with_capacity(alloc, rects.len())?;
    for rect in rects {
        others.push(Rect {
            i0: rect.j0,
            j0: rect.i0,
            i1: rect.j1,
            j1: rect.i1,
        })?;
    }
    Ok(others)
}
