//! The lines of a map in which some rectangles have changed. Bands that no rectangle meets are shared.
ghost use Rattle.std.specs.Prelude.{◌≡◌, ◌<◌, ◌≤◌, ◌+◌, ◌-◌, ◌*◌, ◌/◌, ℕ, All, length, slice_index, IsFalse, IfOk, OnOk};
ghost use Rattle.std.specs.Int.{bit_at};
ghost use Rattle.nav_types.specs.Cells.{IsInRect, cell_at};
ghost use Rattle.lane_rows.specs.Rows.{one_if};
ghost use Rattle.class_planes.specs.Planes.{IsOutside};
ghost use Rattle.class_planes.specs.inner.Lines.{IsBand, AreLines, AreLinesBefore};
ghost use Rattle.class_planes.specs.inner.Reading.{AreRead, AreWhole, IsOfWords, IsUnread, band_bit, numbers_in};
ghost use Rattle.class_planes.specs.inner.StopLines.{AreSameStops, HasStopsOf, map_lines, part_in};

use crate::band_spans::bands_about;
use crate::line_sets::{LineSet, share_bands};
use crate::lines::{BAND, copied};
use crate::read_cells::ReadRect;
use crate::rows::free_words;
use nav_types::{Axis, Class, NoMemory, Rect, Rows};
use std::alloc::Global;

/// The rows of an earlier map, as lines of bits, with what may differ from them now: the rectangles, and no more than what
/// was read of the map of now.
#[derive(Drop)]
struct OldRows<'a> {
    lines: &'a LineSet,
    rects: &'a [Rect],
    reads: &'a [ReadRect],
}

/// The rows of the view for the class, as lines of bits, where `before` are the rows of a map that is the same outside
/// of the rectangles, and outside of what was read.
pub fn updated_lines<V: Rows>(
    alloc: Global,
    view: &V,
    class: Class,
    before: &LineSet,
    reads: &[ReadRect],
    rects: &[Rect],
) -> Result<LineSet, NoMemory>
    requires class { class < V.class_count view.now }
    requires read { All (AreRead (V.extent view.now) (V.class_count view.now) (V.passes view.now)) reads.now }
    requires before { AreLinesBefore (λ j i. V.passes view.now class (cell_at i j)) (IsOutside rects.now)
        ((V.extent view.now).h / 32 + 1) ((V.extent view.now).w / 64 + 1) (map_lines before.now) }
    requires unread { AreLinesBefore (λ j i. V.passes view.now class (cell_at i j)) (IsUnread reads.now)
        ((V.extent view.now).h / 32 + 1) ((V.extent view.now).w / 64 + 1) (map_lines before.now) }
    ensures lines { IfOk result (λ lines. AreLines (λ j i. V.passes view.now class (cell_at i j))
        ((V.extent view.now).h / 32 + 1) ((V.extent view.now).w / 64 + 1) (map_lines lines)) }
    ensures stops { IfOk result (AreSameStops ((V.extent view.now).h / 32 + 1) before.now) }
{
    let old = OldRows {
        lines: before,
        rects,
        reads,
    };
    let count = view.size().h / BAND + 1;
    let met = bands_about(rects, Axis::Row, count);
    let mut lines = LineSet::with_capacity(alloc, usize::from(count), before.words())?;
    share_bands(before, 0, met.from, &mut lines)?;
    for band in met.from..met.to {
        push_band(alloc, view, class, &old, band, &mut lines)?;
    }
    share_bands(before, met.to, count, &mut lines)?;
    Ok(lines)
}

/// Appends a band of the view's rows to those before it. It is the old one, where no rectangle meets it.
fn push_band<V: Rows>(
    alloc: Global,
    view: &V,
    class: Class,
    old: &OldRows<'_>,
    band: u16,
    lines: &mut LineSet,
) -> Result<(), NoMemory>
    requires class { class < V.class_count view.now }
    requires read { All (AreRead (V.extent view.now) (V.class_count view.now) (V.passes view.now)) old.now.reads.now }
    requires before { AreLinesBefore (λ j i. V.passes view.now class (cell_at i j)) (IsOutside old.now.rects.now)
        ((V.extent view.now).h / 32 + 1) ((V.extent view.now).w / 64 + 1) (map_lines old.now.lines.now) }
    requires unread { AreLinesBefore (λ j i. V.passes view.now class (cell_at i j)) (IsUnread old.now.reads.now)
        ((V.extent view.now).h / 32 + 1) ((V.extent view.now).w / 64 + 1) (map_lines old.now.lines.now) }
    requires band { band < (V.extent view.now).h / 32 + 1 }
    requires lines { AreLines (λ j i. V.passes view.now class (cell_at i j)) band
        ((V.extent view.now).w / 64 + 1) (map_lines lines.old) }
    requires stops { AreSameStops band old.now.lines.now lines.old }
    ensures lines { OnOk result (AreLines (λ j i. V.passes view.now class (cell_at i j)) (band + 1)
        ((V.extent view.now).w / 64 + 1) (map_lines lines.new)) }
    ensures stops { OnOk result (AreSameStops (band + 1) old.now.lines.now lines.new) }
{
    if !is_met(old.rects, BAND * band) {
        return lines.share(old.lines, band);
    }
    let words = updated_band(alloc, view, class, old.lines, old.reads, band)?;
    lines.push(alloc, words)
}

/// Whether a rectangle may meet one of the 32 rows from `first` on.
fn is_met(rects: &[Rect], first: u16) -> bool
    requires low { first ≤ 4096 }
    ensures { IsFalse result → (n i : ℕ) → first ≤ n → n < first + 32 → IsOutside rects.now (cell_at i n) }
{
    rects
        .iter()
        .any(|rect| rect.j0 < first + BAND && first <= rect.j1)
}

/// The words of a band of the view's rows, where those of before are right outside of what was read.
fn updated_band<V: Rows>(
    alloc: Global,
    view: &V,
    class: Class,
    before: &LineSet,
    reads: &[ReadRect],
    band: u16,
) -> Result<Vec<u64>, NoMemory>
    requires class { class < V.class_count view.now }
    requires read { All (AreRead (V.extent view.now) (V.class_count view.now) (V.passes view.now)) reads.now }
    requires unread { AreLinesBefore (λ j i. V.passes view.now class (cell_at i j)) (IsUnread reads.now)
        ((V.extent view.now).h / 32 + 1) ((V.extent view.now).w / 64 + 1) (map_lines before.now) }
    requires band { band < (V.extent view.now).h / 32 + 1 }
    ensures lines { IfOk result (λ words. IsBand (λ j i. V.passes view.now class (cell_at i j)) (32 * band)
        ((V.extent view.now).w / 64 + 1) 32 (part_in before.now.words words.items 0)) }
    ensures stops { IfOk result (λ words. HasStopsOf before.now band words.items) }
{
    let mut words = copied(alloc, before.band(band))?;
    let (bits, _) = words.split_at_mut(usize::from(BAND) * before.words());
    write_rects(view, class, reads, BAND * band, bits);
    Ok(words)
}

/// Writes what was read into the 32 rows from `first` on. The other bits are right already.
fn write_rects<V: Rows>(view: &V, class: Class, reads: &[ReadRect], first: u16, band: &mut [u64])
    requires class { class < V.class_count view.now }
    requires read { All (AreRead (V.extent view.now) (V.class_count view.now) (V.passes view.now)) reads.now }
    requires low { first ≤ 4096 }
    requires band { length band.old ≡ 32 * ((V.extent view.now).w / 64 + 1) }
    requires before { (m i : ℕ) → m < 32 → i / 64 < (V.extent view.now).w / 64 + 1
        → IsUnread reads.now (cell_at i (first + m))
        → band_bit ((V.extent view.now).w / 64 + 1) band.old m i
        ≡ one_if (V.passes view.now class (cell_at i (first + m))) }
    ensures stays { length band.new ≡ length band.old }
    ensures bits { (m i : ℕ) → m < 32 → i / 64 < (V.extent view.now).w / 64 + 1
        → band_bit ((V.extent view.now).w / 64 + 1) band.new m i
        ≡ one_if (V.passes view.now class (cell_at i (first + m))) }
{
    let words = usize::from(view.size().w) / 64 + 1;
    for read in reads {
        write_rect(read, class.number(), first, words, band);
    }
}

/// Writes the bits of a rectangle into those of the 32 rows from `first` on that it meets.
fn write_rect(read: &ReadRect, class: u8, first: u16, words: usize, band: &mut [u64])
    requires class { class < 16 }
    requires rect { IsOfWords words read.now.rect }
    requires whole { AreWhole read.now }
    requires low { first ≤ 4096 }
    requires few { words ≤ 1025 }
    requires band { length band.old ≡ 32 * words }
    ensures stays { length band.new ≡ length band.old }
    ensures set { (m i : ℕ) → m < 32 → IsInRect read.now.rect (cell_at i (first + m))
        → band_bit words band.new m i
        ≡ 1 - bit_at (slice_index (numbers_in read.now (first + m)) (i - read.now.rect.i0)) class }
    ensures others { (m i : ℕ) → m < 32 → i / 64 < words → (IsInRect read.now.rect (cell_at i (first + m)) → ⊥)
        → band_bit words band.new m i ≡ band_bit words band.old m i }
{
    let rect = read.rect();
    let from = rect.j0.max(first);
    let to = rect.j1.min(first + (BAND - 1)) + 1;
    for n in from..to {
        let start = usize::from(n - first) * words + usize::from(rect.i0) / 64;
        write_words(read.row(n), class, start, band);
    }
}

/// Writes the bits of the numbers from word `start` on.
fn write_words(numbers: &[u16], class: u8, start: usize, band: &mut [u64])
    requires class { class < 16 }
    requires whole { length numbers.now ≡ 64 * (length numbers.now / 64) }
    requires within { start + length numbers.now / 64 ≤ length band.old }
    ensures stays { length band.new ≡ length band.old }
    ensures set { (w k : ℕ) → w < length numbers.now / 64 → k < 64
        → bit_at (slice_index band.new (start + w)) k ≡ 1 - bit_at (slice_index numbers.now (64 * w + k)) class }
    ensures others { (w : ℕ) → (start ≤ w → w < start + length numbers.now / 64 → ⊥)
        → slice_index band.new w ≡ slice_index band.old w }
{
    free_words(numbers, class, &mut band[start..start + numbers.len() / 64]);
}
