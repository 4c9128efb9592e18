//! Lines of bits in bands of 32 lines.
ghost use Rattle.std.specs.Prelude.{ℕ, ◌≡◌, ◌<◌, ◌≤◌, ◌+◌, ◌*◌, ◌/◌, ◌%◌, ◌-◌, ◌++◌, ◌∷◌, ◌↔◌, ◌==◌, [], length, slice_index_or, IfOk, OnOk, IsTrue};
ghost use Rattle.std.specs.Int.{bit_at};
ghost use Rattle.class_planes.specs.inner.Lines.{line_in};
ghost use Rattle.class_planes.specs.inner.Runs.{bit_in};

use crate::word_scans::Lanes;
use nav_types::NoMemory;
use std::alloc::Global;
use std::marker::Model;

/// How many lines a band has.
pub const BAND: u16 = 32;

/// The words of some lines. Contracts see the list of the words.
#[derive(Drop)]
pub struct Band {
    pub words: Vec<u64>,
}

impl Model for Band {
    ghost use Rattle.std.specs.Prelude.{ℕ, List};

    ghost Value = { List ℕ };

    ghost view = { λ b. b.words.items };
}

/// Lines of bits in bands of 32 lines.
#[derive(Drop)]
pub struct Lines {
    bands: Vec<Band>,
    words: usize,
}

impl Model for Lines {
    ghost use Rattle.class_planes.specs.inner.Lines.{LineTable};

    ghost Value = { LineTable };

    ghost view = { λ l. record { words = l.words; bands = l.bands.items } };
}

impl Lines {
    /// No bands yet, with room for so many, and lines of so many words.
    pub fn with_capacity(alloc: Global, bands: usize, words: usize) -> Result<Lines, NoMemory>
        ensures words { IfOk result (λ lines. lines.words ≡ words) }
        ensures none { IfOk result (λ lines. lines.bands ≡ []) }
    {
        Ok(Lines {
            bands: Vec::with_capacity(alloc, bands)?,
            words,
        })
    }

    /// Appends a band.
    pub fn push(&mut self, alloc: Global, words: Vec<u64>) -> Result<(), NoMemory>
        ensures words { OnOk result (self.new.words ≡ self.old.words) }
        ensures bands { OnOk result (self.new.bands ≡ self.old.bands ++ words.items ∷ []) }
    {
        let _ = alloc;
        self.bands.push(Band { words })?;
        Ok(())
    }

    /// How many words a line has.
    pub fn words(&self) -> usize
        ensures { result ≡ self.now.words }
    {
        self.words
    }

    /// How many bands there are.
    pub fn count(&self) -> usize
        ensures { result ≡ length self.now.bands }
    {
        self.bands.len()
    }

    /// The words of band `b`.
    pub fn band(&self, b: usize) -> &[u64]
        requires { b < length self.now.bands }
        ensures { result.now ≡ slice_index_or self.now.bands b [] }
    {
        &self.bands[b].words
    }
}

/// Whether the line is neither the first nor the last of its band.
pub fn is_inner(line: u16) -> bool
    ensures { IsTrue result ↔ ((0 < line % 32) × (line % 32 < 31)) }
{
    let place = line % BAND;
    0 < place && place < BAND - 1
}

/// How many words are copied at once.
const PIECE: usize = 256;

/// A copy of the words. It is made piece by piece, since a long piece costs more for each word.
pub fn copied(alloc: Global, words: &[u64]) -> Result<Vec<u64>, NoMemory>
    ensures { IfOk result (λ copy. copy.items ≡ words.now) }
{
    let mut copy = Vec::with_capacity(alloc, words.len())?;
    let mut rest = words;
    while !rest.is_empty() {
        let (piece, others) = rest.split_at(rest.len().min(PIECE));
        copy.extend_from_slice(piece)?;
        rest = others;
    }
    Ok(copy)
}

/// Line `k` of the 32 first lines of a band with the lines beside it.
#[inline(always)]
pub fn lanes_in(band: &[u64], words: usize, k: usize) -> Lanes<'_>
    requires long { 32 * words ≤ length band.now }
    requires few { words ≤ 33 }
    requires low { 0 < k }
    requires high { k < 31 }
    ensures mid { result.mid ≡ line_in words band.now k }
    ensures left { result.left ≡ line_in words band.now (k + 1) }
    ensures right { result.right ≡ line_in words band.now (k - 1) }
{
    let start = k * words;
    let end = start + words;
    Lanes {
        mid: &band[start..end],
        left: &band[end..end + words],
        right: &band[start - words..start],
    }
}

/// Line `k` of the 32 first lines of a band.
#[inline(always)]
pub fn line_in(band: &[u64], words: usize, k: u16) -> &[u64]
    requires long { 32 * words ≤ length band.now }
    requires line { k < 32 }
    ensures { result.now ≡ line_in words band.now k }
{
    let start = usize::from(k) * words;
    &band[start..start + words]
}

/// Whether the bit of place `i` of line `k` of a band is set.
#[inline(always)]
pub fn is_set_in(band: &[u64], words: usize, k: u16, i: u16) -> bool
    requires long { (k + 1) * words ≤ length band.now }
    requires place { i / 64 < words }
    ensures { result ≡ (bit_in (line_in words band.now k) i == 1) }
{
    (band[usize::from(k) * words + usize::from(i) / 64] >> (i % 64)) & 1 == 1
}

/// The 16 places of line `k` of the 32 first lines of a band from place 16 * group on, as the bits of a number.
#[inline(always)]
pub fn sixteen_in(band: &[u64], words: usize, k: usize, group: u16) -> u16
    requires long { 32 * words ≤ length band.now }
    requires line { k < 32 }
    requires place { group / 4 < words }
    ensures { (b : ℕ) → b < 16 → bit_at result b ≡ bit_in (line_in words band.now k) (16 * group + b) }
{
    let start = k * words;
    let line = &band[start..start + words];
    quarter(line[usize::from(group) / 4], group % 4)
}

/// A quarter of the word's bits.
fn quarter(word: u64, part: u16) -> u16
    requires { part < 4 }
    ensures { (k : ℕ) → k < 16 → bit_at result k ≡ bit_at word (16 * part + k) }
{
    ((word >> (16 * part)) % 65536) as u16
}
