//! The lines of a map, made from the numbers of its rows.
ghost use Rattle.std.specs.Prelude.{◌≡◌, ◌<◌, ◌≤◌, ◌+◌, ◌-◌, ◌*◌, ◌/◌, ◌%◌, ℕ, length, slice_index, IfOk};
ghost use Rattle.std.specs.Int.{bit_at};
ghost use Rattle.nav_types.specs.Cells.{cell_at};
ghost use Rattle.nav_types.specs.Rows.{bit_of};
ghost use Rattle.class_planes.specs.Planes.{AreFreeBits};
ghost use Rattle.class_planes.specs.inner.Lines.{IsBand, AreLines};

use crate::lines::{BAND, Lines};
use lane_rows::plane_words;
use nav_types::{Class, NoMemory, Rows};
use std::alloc::Global;
use std::marker::Model;

/// The rows of the view for the class, as lines of bits. After the last row there is at least one line of zeros.
pub fn lines_of<V: Rows>(alloc: Global, view: &V, class: Class) -> Result<Lines, NoMemory>
    requires class { class < V.class_count view.now }
    ensures { IfOk result
        (AreLines (λ j i. V.passes view.now class (cell_at i j)) ((V.extent view.now).h / 32 + 1)
        ((V.extent view.now).w / 64 + 1)) }
{
    let size = view.size();
    let words = usize::from(size.w) / 64 + 1;
    let count = size.h / BAND + 1;
    let mut scratch = Scratch::new(alloc, words)?;
    let mut lines = Lines::with_capacity(alloc, usize::from(count), words)?;
    for band in 0..count {
        let words = band_of(alloc, view, class, BAND * band, &mut scratch)?;
        lines.push(alloc, words)?;
    }
    Ok(lines)
}

/// The words of 32 lines, from row `first` on.
fn band_of<V: Rows>(
    alloc: Global,
    view: &V,
    class: Class,
    first: u16,
    scratch: &mut Scratch,
) -> Result<Vec<u64>, NoMemory>
    requires class { class < V.class_count view.now }
    requires low { first ≤ 4096 }
    requires wide { length scratch.old ≡ (V.extent view.now).w / 64 + 1 }
    ensures stays { length scratch.new ≡ length scratch.old }
    ensures band { IfOk result
        (λ band. IsBand (λ j i. V.passes view.now class (cell_at i j)) first (length scratch.old) 32 band.items) }
{
    let mut band = Vec::with_capacity(alloc, usize::from(BAND) * scratch.words())?;
    for k in 0..BAND {
        scratch.read(view, class, first + k);
        band.extend_from_slice(scratch.line())?;
    }
    Ok(band)
}

/// Room for the numbers of one row, and for its bits. Contracts see the words of the bits.
#[derive(Drop)]
struct Scratch {
    row: Vec<u16>,
    line: Vec<u64>,
}

impl Model for Scratch {
    ghost use Rattle.std.specs.Prelude.{ℕ, ◌≡◌, ◌*◌, List, length};

    ghost Value = { List ℕ };

    ghost view = { λ s. s.line.items };

    ghost invariant = { λ s. length s.row.items ≡ 64 * length s.line.items };
}

impl Scratch {
    /// Room for a line of so many words.
    fn new(alloc: Global, words: usize) -> Result<Scratch, NoMemory>
        requires { words ≤ 33 }
        ensures { IfOk result (λ scratch. length scratch ≡ words) }
    {
        Ok(Scratch {
            row: vec![in alloc; 0; 64 * words]?,
            line: vec![in alloc; 0; words]?,
        })
    }

    /// How many words a line has.
    fn words(&self) -> usize
        ensures { result ≡ length self.now }
    {
        self.line.len()
    }

    /// The words of the line that was read last.
    fn line(&self) -> &[u64]
        ensures { result.now ≡ self.now }
    {
        &self.line
    }

    /// Reads the bits of row `j`. Past the map all are 0.
    fn read<V: Rows>(&mut self, view: &V, class: Class, j: u16)
        requires class { class < V.class_count view.now }
        requires wide { length self.old ≡ (V.extent view.now).w / 64 + 1 }
        ensures stays { length self.new ≡ length self.old }
        ensures bits { AreFreeBits (λ i. V.passes view.now class (cell_at i j)) self.new }
    {
        if j < view.size().h {
            read_row(view, j, 0, &mut self.row);
            free_words(&self.row, class.number(), &mut self.line);
        } else {
            self.line.fill(0);
        }
    }
}

/// Reads the numbers of row `j` from place `from` on. The places past the row have every bit set, as impassable cells
/// have.
pub fn read_row<V: Rows>(view: &V, j: u16, from: u16, row: &mut [u16])
    requires row { j < (V.extent view.now).h }
    requires from { from ≤ (V.extent view.now).w }
    ensures stays { length row.new ≡ length row.old }
    ensures bits { (class k : ℕ) → class < V.class_count view.now → class < 16 → k < length row.new
        → bit_at (slice_index row.new k) class ≡ bit_of (V.passes view.now class (cell_at (from + k) j)) }
{
    let within = row.len().min(usize::from(view.size().w - from));
    // the view writes the rest
    row[within..].fill(u16::MAX);
    view.row_bits(j, from, &mut row[..within]);
}

/// Writes the bits of the places that are free of the class.
pub fn free_words(row: &[u16], class: u8, line: &mut [u64])
    requires class { class < 16 }
    requires words { length row.now ≡ 64 * length line.old }
    ensures stays { length line.new ≡ length line.old }
    ensures bits { (i : ℕ) → i < length row.now
        → bit_at (slice_index line.new (i / 64)) (i % 64) ≡ 1 - bit_at (slice_index row.now i) class }
{
    plane_words(row, class, line);
    turn_words(line);
}

/// Turns every bit of the words.
fn turn_words(words: &mut [u64])
    ensures { (w k : ℕ) → w < length words.old → k < 64
        → bit_at (slice_index words.new w) k ≡ 1 - bit_at (slice_index words.old w) k }
{
    for word in words.iter_mut() {
        *word = !*word;
    }
}
