//! Kernels over rows of cells, by vectors of 16-bit lanes.
//!
//! A row is a list of numbers of 16 bits, one bit a passability class:
//!
//! ```text
//!    row    0003 0000 0001 0001 0000 ..      or_span(1, 4, mask 0004)
//!    after  0003 0004 0005 0005 0000 ..
//! ```
//!
//! Each kernel equals its definition over the list for every length (`specs/Rows.antt`): whole blocks go by vectors, what
//! is left cell by cell. Nothing here knows of maps, and nothing takes memory.
#![tactic(auto)]

ghost use Rattle.std.specs.Prelude.{◌≡◌, ◌↔◌, ◌<◌, ◌≤◌, ◌+◌, ◌⊎◌, ◌++◌, ℕ, length, map, drop, bit_or, slice_index, count_by};
ghost use Rattle.std.specs.Int.{bit_at};
ghost use Rattle.std.specs.Simd.Lanes.{mask_l};
ghost use Rattle.lane_rows.specs.Rows.{with_span, has_class, DifferIn, AgreeIn, words_for, IsPlane};
ghost use Rattle.lane_rows.specs.inner.Blocks.{padded};

use std::simd::prelude::*;

/// How many places a block has in which bits are set.
const SPAN_BLOCK: usize = 16;

/// How many places a block has that is read: one for each bit of a word.
const BLOCK: usize = 64;

/// Gives each place from `from` up to and without `to` the mask's bits besides its own. All other
/// places stay. The span lies in the row: `from <= to <= row.len()`.
///
/// The row afterwards is `with_span from to mask` of the row before (`specs/Rows.antt`).
pub fn or_span(row: &mut [u16], from: usize, to: usize, mask: u16)
    requires ordered { from ≤ to }
    requires within { to ≤ length row.old }
    ensures after { row.new ≡ with_span from to mask row.old }
    ensures inside { (k : ℕ) → from ≤ k → k < to
        → slice_index row.new k ≡ bit_or (slice_index row.old k) mask }
    ensures outside { (k : ℕ) → (k < from) ⊎ (to ≤ k)
        → slice_index row.new k ≡ slice_index row.old k }
{
    // Whole blocks first, then the rest of fewer places one by one.
    let mut start = from;
    'sweep: while to - start >= SPAN_BLOCK {
        or_block(&mut row[start..start + SPAN_BLOCK], mask);
        start += SPAN_BLOCK;
    }
    or_each(&mut row[start..to], mask);
}

/// Gives the places of one block the mask's bits besides their own.
#[inline(always)]
fn or_block(block: &mut [u16], mask: u16)
    requires { length block.old ≡ SPAN_BLOCK }
    ensures { block.new ≡ map (λ n. bit_or n mask) block.old }
{
    (u16x16::from_slice(block) | u16x16::splat(mask)).copy_to_slice(block);
}

/// Gives each place the mask's bits besides its own, one after another.
#[inline(always)]
fn or_each(row: &mut [u16], mask: u16)
    ensures { row.new ≡ map (λ n. bit_or n mask) row.old }
{
    for number in row.iter_mut() {
        *number |= mask;
    }
}

/// The bits that differ at some place, for rows of equal lengths: bit k of the answer is set exactly
/// where the two rows have unlike bits k at some place (`DifferIn`). So the
/// answer is 0 exactly where the rows are equal.
pub fn differs(a: &[u16], b: &[u16]) -> u16
    requires { length a.now ≡ length b.now }
    ensures differ { (k : ℕ) → (bit_at result k ≡ 1) ↔ DifferIn k a.now b.now }
    ensures agree { (k : ℕ) → (bit_at result k ≡ 0) ↔ AgreeIn k a.now b.now }
    ensures same { (result ≡ 0) ↔ (a.now ≡ b.now) }
{
    let mut bits = u16x64::splat(0);
    let mut start = 0;
    'sweep: while start < a.len() {
        bits |= block_at(a, start) ^ block_at(b, start);
        start += BLOCK;
    }
    bits.reduce_or()
}

/// The number of places whose bit `class` is set, for a class below 16 (`has_class`).
pub fn count_bit(row: &[u16], class: u8) -> usize
    requires { class < 16 }
    ensures { result ≡ count_by (has_class class) row.now }
{
    let mut count = 0;
    let mut start = 0;
    'sweep: while start < row.len() {
        count += class_word(block_at(row, start), class).count_ones() as usize;
        start += BLOCK;
    }
    count
}

/// Writes the class plane of a row, for a class below 16: bit k of word w is bit `class` of place
/// 64 w + k, and 0 past the row's end (`IsPlane`). `out` has exactly as many
/// words as the row needs, its length divided by 64 and rounded up.
pub fn plane_words(row: &[u16], class: u8, out: &mut [u64])
    requires class_bit { class < 16 }
    requires exact_words { length out.old ≡ words_for (length row.now) }
    ensures { IsPlane class row.now out.new }
{
    for (w, word) in out.iter_mut().enumerate() {
        *word = class_word(block_at(row, BLOCK * w), class);
    }
}

/// The numbers of the block from `start` on, and 0 past the row's end.
#[inline(always)]
fn block_at(row: &[u16], start: usize) -> u16x64
    requires { start ≤ length row.now }
    ensures { result ≡ padded BLOCK (drop start row.now) }
{
    let rest = &row[start..];
    if rest.len() >= BLOCK {
        return u16x64::from_slice(rest);
    }
    let mut block = [0; BLOCK];
    copy_front(&mut block, rest);
    u16x64::from_array(block)
}

/// Writes the list over the front of the block. The rest of the block stays.
fn copy_front(block: &mut [u16], list: &[u16])
    requires { length list.now ≤ length block.old }
    ensures { block.new ≡ list.now ++ drop (length list.now) block.old }
{
    block[..list.len()].copy_from_slice(list);
}

/// Bit k is bit `class` of the block's place k.
#[inline(always)]
fn class_word(block: u16x64, class: u8) -> u64
    requires { class < 16 }
    ensures { result ≡ mask_l (map (has_class class) block) }
{
    let bit = u16x64::splat(1 << class);
    (block & bit).simd_eq(bit).to_bitmask()
}
