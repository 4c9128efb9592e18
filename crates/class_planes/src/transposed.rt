//! The columns of a map, made from its rows.
ghost use Rattle.std.specs.Prelude.{ℕ, ◌≡◌, ◌<◌, ◌≤◌, ◌/◌, ◌%◌, ◌+◌, ◌*◌, false, All, length, slice_index, IfOk, IsFalse, OnOk};
ghost use Rattle.std.specs.Int.{bit_at};
ghost use Rattle.nav_types.specs.declared.straights.Way.{Way};
ghost use Rattle.nav_types.specs.Cells.{IsInRect, IsRectInside, cell_at};
ghost use Rattle.lane_rows.specs.Rows.{one_if};
ghost use Rattle.class_planes.specs.Planes.{IsOutside};
ghost use Rattle.class_planes.specs.inner.Lines.{IsBand, AreLines, AreRows, AreColumns, AreColumnsBefore, free_cell};
ghost use Rattle.class_planes.specs.inner.Reading.{IsColumnBit, band_bit};
ghost use Rattle.class_planes.specs.inner.StopLines.{AreSameStops, HasStopsOf, map_lines, part_in, stops_along};

use crate::band_spans::bands_about;
use crate::line_sets::{LineSet, share_bands, unstopped};
use crate::lines::{BAND, Lines, copied, sixteen_in};
use lane_rows::plane_words;
use nav_types::{Axis, NoMemory, Rect, Size};
use std::alloc::Global;

/// How many columns are read at once: one for each bit of a number.
const GROUP: u16 = 16;

/// Some of 16 columns, from one up to and without another.
#[derive(Clone, Copy)]
struct ColumnGroup {
    from: u16,
    to: u16,
}

/// The rows of a map of this size, as lines of bits.
#[derive(Drop)]
struct MapRows<'a> {
    rows: &'a LineSet,
    size: Size,
}

/// The columns of the map whose rows these are, as lines of bits.
pub fn columns_of(alloc: Global, rows: &LineSet, size: Size) -> Result<LineSet, NoMemory>
    requires { AreRows (record { size = size; rows = map_lines rows.now }) }
    ensures lines { IfOk result (λ lines. AreColumns (record { size = size; rows = map_lines rows.now }) (map_lines lines)) }
    ensures stops { IfOk result (λ lines. (way : Way)
        → AreLines (λ n i. false) (size.w / 32 + 1) (size.h / 64 + 1) (stops_along way lines)) }
{
    let lines = blank_lines(alloc, size.w / BAND + 1, usize::from(size.h) / 64 + 1)?;
    let blank = unstopped(alloc, &lines)?;
    let columns = updated_columns(alloc, rows, size, &blank, &[Rect::of_map(size)])?;
    Ok(columns)
}

/// So many bands of lines without a free place.
fn blank_lines(alloc: Global, count: u16, words: usize) -> Result<Lines, NoMemory>
    requires { words ≤ 33 }
    ensures { IfOk result (AreLines (λ n i. false) count words) }
{
    let mut lines = Lines::with_capacity(alloc, usize::from(count), words)?;
    for band in 0..count {
        let zeros = vec![in alloc; 0; usize::from(BAND) * words]?;
        lines.push(alloc, zeros)?;
    }
    Ok(lines)
}

/// The columns of the map whose rows these are, as lines of bits, where `before` are those of a map that is the same
/// outside of the rectangles. In a band that no rectangle meets they are shared, and in another the words are read
/// anew in which the rectangles lie.
pub fn updated_columns(
    alloc: Global,
    rows: &LineSet,
    size: Size,
    before: &LineSet,
    rects: &[Rect],
) -> Result<LineSet, NoMemory>
    requires rows { AreRows (record { size = size; rows = map_lines rows.now }) }
    requires inside { All (IsRectInside size) rects.now }
    requires before { AreColumnsBefore (record { size = size; rows = map_lines rows.now }) rects.now (map_lines before.now) }
    ensures lines { IfOk result (λ lines. AreColumns (record { size = size; rows = map_lines rows.now }) (map_lines lines)) }
    ensures stops { IfOk result (AreSameStops (size.w / 32 + 1) before.now) }
{
    let map = MapRows { rows, size };
    let count = size.w / BAND + 1;
    let met = bands_about(rects, Axis::Column, count);
    let mut lines = LineSet::with_capacity(alloc, usize::from(count), before.words())?;
    share_bands(before, 0, met.from, &mut lines)?;
    for band in met.from..met.to {
        push_band(alloc, &map, before, rects, band, &mut lines)?;
    }
    share_bands(before, met.to, count, &mut lines)?;
    Ok(lines)
}

/// Appends a band of columns to those before it. It is that of `before`, where no rectangle meets it.
fn push_band(
    alloc: Global,
    map: &MapRows<'_>,
    before: &LineSet,
    rects: &[Rect],
    band: u16,
    lines: &mut LineSet,
) -> Result<(), NoMemory>
    requires rows { AreRows (record { size = map.now.size; rows = map_lines map.now.rows.now }) }
    requires inside { All (IsRectInside map.now.size) rects.now }
    requires before { AreColumnsBefore (record { size = map.now.size; rows = map_lines map.now.rows.now }) rects.now (map_lines before.now) }
    requires band { band < map.now.size.w / 32 + 1 }
    requires lines { AreLines (λ i j. free_cell (record { size = map.now.size; rows = map_lines map.now.rows.now })
        (cell_at i j)) band
        (map.now.size.h / 64 + 1) (map_lines lines.old) }
    requires stops { AreSameStops band before.now lines.old }
    ensures lines { OnOk result (AreLines (λ i j. free_cell (record { size = map.now.size; rows = map_lines map.now.rows.now })
        (cell_at i j)) (band + 1)
        (map.now.size.h / 64 + 1) (map_lines lines.new)) }
    ensures stops { OnOk result (AreSameStops (band + 1) before.now lines.new) }
{
    if !is_met(rects, BAND * band) {
        return lines.share(before, band);
    }
    let words = column_band(alloc, map, before, rects, band)?;
    lines.push(alloc, words)
}

/// Whether a rectangle may meet one of the 32 columns from `first` on.
fn is_met(rects: &[Rect], first: u16) -> bool
    requires low { first ≤ 4096 }
    ensures { IsFalse result → (i j : ℕ) → first ≤ i → i < first + 32 → IsOutside rects.now (cell_at i j) }
{
    rects
        .iter()
        .any(|rect| rect.i0 < first + BAND && first <= rect.i1)
}

/// The words of a band of columns.
fn column_band(
    alloc: Global,
    map: &MapRows<'_>,
    before: &LineSet,
    rects: &[Rect],
    band: u16,
) -> Result<Vec<u64>, NoMemory>
    requires rows { AreRows (record { size = map.now.size; rows = map_lines map.now.rows.now }) }
    requires inside { All (IsRectInside map.now.size) rects.now }
    requires before { AreColumnsBefore (record { size = map.now.size; rows = map_lines map.now.rows.now }) rects.now (map_lines before.now) }
    requires band { band < map.now.size.w / 32 + 1 }
    ensures lines { IfOk result (λ words. IsBand
        (λ i j. free_cell (record { size = map.now.size; rows = map_lines map.now.rows.now }) (cell_at i j)) (32 * band)
        (map.now.size.h / 64 + 1) 32 (part_in before.now.words words.items 0)) }
    ensures stops { IfOk result (λ words. HasStopsOf before.now band words.items) }
{
    let mut words = copied(alloc, before.band(band))?;
    let (bits, _) = words.split_at_mut(usize::from(BAND) * before.words());
    write_rects(map, rects, band, bits);
    Ok(words)
}

/// Writes the rectangles into the columns of a band. The other bits are right already.
fn write_rects(map: &MapRows<'_>, rects: &[Rect], band: u16, words: &mut [u64])
    requires rows { AreRows (record { size = map.now.size; rows = map_lines map.now.rows.now }) }
    requires inside { All (IsRectInside map.now.size) rects.now }
    requires band { band < map.now.size.w / 32 + 1 }
    requires words { length words.old ≡ 32 * (map.now.size.h / 64 + 1) }
    requires before { (m j : ℕ) → m < 32 → j / 64 < map.now.size.h / 64 + 1 → IsOutside rects.now (cell_at (32 * band + m) j)
        → IsColumnBit (record { size = map.now.size; rows = map_lines map.now.rows.now }) band words.old m j }
    ensures stays { length words.new ≡ length words.old }
    ensures bits { (m j : ℕ) → m < 32 → j / 64 < map.now.size.h / 64 + 1
        → IsColumnBit (record { size = map.now.size; rows = map_lines map.now.rows.now }) band words.new m j }
{
    for rect in rects {
        write_rect(map, *rect, band, words);
    }
}

/// Writes the words of a rectangle into those columns of a band that it meets, and keeps the other bits right.
fn write_rect(map: &MapRows<'_>, rect: Rect, band: u16, words: &mut [u64])
    requires rows { AreRows (record { size = map.now.size; rows = map_lines map.now.rows.now }) }
    requires inside { IsRectInside map.now.size rect }
    requires band { band < map.now.size.w / 32 + 1 }
    requires words { length words.old ≡ 32 * (map.now.size.h / 64 + 1) }
    ensures stays { length words.new ≡ length words.old }
    ensures set { (m j : ℕ) → m < 32 → IsInRect rect (cell_at (32 * band + m) j)
        → IsColumnBit (record { size = map.now.size; rows = map_lines map.now.rows.now }) band words.new m j }
    ensures kept { (m j : ℕ) → m < 32 → j / 64 < map.now.size.h / 64 + 1
        → IsColumnBit (record { size = map.now.size; rows = map_lines map.now.rows.now }) band words.old m j
        → IsColumnBit (record { size = map.now.size; rows = map_lines map.now.rows.now }) band words.new m j }
{
    write_half(map, rect, band, 0, words);
    write_half(map, rect, band, 1, words);
}

/// Writes the words of a rectangle into those of the first or the second 16 columns of a band that it meets, and keeps
/// the other bits right.
fn write_half(map: &MapRows<'_>, rect: Rect, band: u16, half: u16, words: &mut [u64])
    requires rows { AreRows (record { size = map.now.size; rows = map_lines map.now.rows.now }) }
    requires inside { IsRectInside map.now.size rect }
    requires band { band < map.now.size.w / 32 + 1 }
    requires half { half < 2 }
    requires words { length words.old ≡ 32 * (map.now.size.h / 64 + 1) }
    ensures stays { length words.new ≡ length words.old }
    ensures set { (m j : ℕ) → 16 * half ≤ m → m < 16 * half + 16 → IsInRect rect (cell_at (32 * band + m) j)
        → IsColumnBit (record { size = map.now.size; rows = map_lines map.now.rows.now }) band words.new m j }
    ensures kept { (m j : ℕ) → m < 32 → j / 64 < map.now.size.h / 64 + 1
        → IsColumnBit (record { size = map.now.size; rows = map_lines map.now.rows.now }) band words.old m j
        → IsColumnBit (record { size = map.now.size; rows = map_lines map.now.rows.now }) band words.new m j }
{
    let span = columns_met(rect, BAND * band + GROUP * half);
    if span.from >= span.to {
        return;
    }
    for w in rect.j0 / 64..rect.j1 / 64 + 1 {
        write_group(map, band, half, span, w, words);
    }
}

/// The columns of the rectangle among the 16 from `first` on.
fn columns_met(rect: Rect, first: u16) -> ColumnGroup
    requires low { first ≤ 4112 }
    requires east { rect.i1 ≤ 4096 }
    ensures within { result.to ≤ 16 }
    ensures met { (k : ℕ) → k < 16 → rect.i0 ≤ first + k → first + k ≤ rect.i1 → (result.from ≤ k) × (k < result.to) }
{
    ColumnGroup {
        from: rect.i0.saturating_sub(first),
        to: (rect.i1 + 1).saturating_sub(first).min(GROUP),
    }
}

/// Writes word `w` of some of the first or the second 16 columns of a band, and keeps the other bits right.
fn write_group(
    map: &MapRows<'_>,
    band: u16,
    half: u16,
    span: ColumnGroup,
    w: u16,
    words: &mut [u64],
)
    requires rows { AreRows (record { size = map.now.size; rows = map_lines map.now.rows.now }) }
    requires band { band < map.now.size.w / 32 + 1 }
    requires half { half < 2 }
    requires span { span.to ≤ 16 }
    requires word { w < map.now.size.h / 64 + 1 }
    requires words { length words.old ≡ 32 * (map.now.size.h / 64 + 1) }
    ensures stays { length words.new ≡ length words.old }
    ensures set { (m j : ℕ) → 16 * half + span.from ≤ m → m < 16 * half + span.to → j / 64 ≡ w
        → IsColumnBit (record { size = map.now.size; rows = map_lines map.now.rows.now }) band words.new m j }
    ensures kept { (m j : ℕ) → m < 32 → j / 64 < map.now.size.h / 64 + 1
        → IsColumnBit (record { size = map.now.size; rows = map_lines map.now.rows.now }) band words.old m j
        → IsColumnBit (record { size = map.now.size; rows = map_lines map.now.rows.now }) band words.new m j }
{
    let mut numbers = [0; 64];
    read_columns(map, 2 * band + half, w, &mut numbers);
    write_word(&numbers, map.size.h, half, span, w, words);
}

/// Writes some of the bits 0 to 15 of the numbers as word `w` of the first or the second 16 lines of a band.
fn write_word(numbers: &[u16], height: u16, half: u16, span: ColumnGroup, w: u16, words: &mut [u64])
    requires numbers { length numbers.now ≡ 64 }
    requires height { height ≤ 4096 }
    requires half { half < 2 }
    requires span { span.to ≤ 16 }
    requires word { w < height / 64 + 1 }
    requires words { length words.old ≡ 32 * (height / 64 + 1) }
    ensures stays { length words.new ≡ length words.old }
    ensures set { (k j : ℕ) → span.from ≤ k → k < span.to → j / 64 ≡ w
        → band_bit (height / 64 + 1) words.new (16 * half + k) j ≡ bit_at (slice_index numbers.now (j % 64)) k }
    ensures others { (m j : ℕ) → m < 32 → j / 64 < height / 64 + 1
        → (16 * half + span.from ≤ m → m < 16 * half + span.to → j / 64 ≡ w → ⊥)
        → band_bit (height / 64 + 1) words.new m j ≡ band_bit (height / 64 + 1) words.old m j }
{
    let wide = usize::from(height) / 64 + 1;
    for k in span.from..span.to {
        let place = usize::from(GROUP * half + k) * wide + usize::from(w);
        plane_words(numbers, k as u8, &mut words[place..place + 1]);
    }
}

/// Reads 16 columns from row 64 * w on: bit k of number j is set where the cell (16 * group + k, 64 * w + j) is free. The
/// numbers are 0 before.
fn read_columns(map: &MapRows<'_>, group: u16, w: u16, numbers: &mut [u16])
    requires rows { AreRows (record { size = map.now.size; rows = map_lines map.now.rows.now }) }
    requires group { group / 4 < map.now.size.w / 64 + 1 }
    requires word { w < map.now.size.h / 64 + 1 }
    requires long { length numbers.old ≡ 64 }
    requires blank { (j : ℕ) → slice_index numbers.old j ≡ 0 }
    ensures bits { (j k : ℕ) → j < 64 → k < 16 → bit_at (slice_index numbers.new j) k
        ≡ one_if (free_cell (record { size = map.now.size; rows = map_lines map.now.rows.now }) (cell_at (16 * group + k) (64 * w + j))) }
    ensures stays { length numbers.new ≡ 64 }
{
    read_band(map, group, 2 * w, 0, numbers);
    read_band(map, group, 2 * w + 1, BAND, numbers);
}

/// Reads 16 columns of a band of rows into the 32 numbers from place `from` on: bit k of number from + j is set where the
/// cell (16 * group + k, 32 * band + j) is free. These numbers are 0 before, and stay so past the last band.
fn read_band(map: &MapRows<'_>, group: u16, band: u16, from: u16, numbers: &mut [u16])
    requires rows { AreRows (record { size = map.now.size; rows = map_lines map.now.rows.now }) }
    requires group { group / 4 < map.now.size.w / 64 + 1 }
    requires room { from + 32 ≤ length numbers.old }
    requires blank { (j : ℕ) → j < 32 → slice_index numbers.old (from + j) ≡ 0 }
    ensures stays { length numbers.new ≡ length numbers.old }
    ensures bits { (j k : ℕ) → j < 32 → k < 16 → bit_at (slice_index numbers.new (from + j)) k
        ≡ one_if (free_cell (record { size = map.now.size; rows = map_lines map.now.rows.now }) (cell_at (16 * group + k) (32 * band + j))) }
    ensures others { (j : ℕ) → (from ≤ j → j < from + 32 → ⊥) → slice_index numbers.new j ≡ slice_index numbers.old j }
{
    if band > map.size.h / BAND {
        return;
    }
    let lines = map.rows.band(band);
    let words = map.rows.words();
    let start = usize::from(from);
    for k in 0..usize::from(BAND) {
        numbers[start + k] = sixteen_in(lines, words, k, group);
    }
}
