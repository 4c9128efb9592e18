//! The numbers of the cells of changed rectangles, which are read once for all classes.
ghost use Rattle.std.specs.Prelude.{◌≡◌, ◌<◌, ◌≤◌, ◌+◌, ◌-◌, ◌*◌, ◌/◌, ℕ, All, length, IfOk};
ghost use Rattle.nav_types.specs.declared.cells.Cell.{Cell};
ghost use Rattle.nav_types.specs.Cells.{IsInRect, IsRectInside};
ghost use Rattle.class_planes.specs.Planes.{IsOutside};
ghost use Rattle.class_planes.specs.inner.Reading.{AreRead, AreWhole, AreOfRow, IsUnread, numbers_in, width_of};

use crate::rows::read_row;
use nav_types::{NoMemory, Rect, Rows};
use std::alloc::Global;
use std::marker::Model;

/// The cells of a rectangle whose rows are whole words. Contracts see the rectangle and the numbers, row by row.
#[derive(Drop)]
pub struct ReadRect {
    rect: Rect,
    numbers: Vec<u16>,
}

impl Model for ReadRect {
    ghost use Rattle.class_planes.specs.inner.Reading.{ReadCells};

    ghost Value = { ReadCells };

    ghost view = { λ r. record { rect = r.rect; numbers = r.numbers.items } };
}

impl ReadRect {
    /// The rectangle.
    #[inline(always)]
    pub fn rect(&self) -> Rect
        ensures { result ≡ self.now.rect }
    {
        self.rect
    }

    /// The numbers of row `n`.
    #[inline(always)]
    pub fn row(&self, n: u16) -> &[u16]
        requires whole { AreWhole self.now }
        requires columns { self.now.rect.i0 ≤ self.now.rect.i1 }
        requires low { self.now.rect.j0 ≤ n }
        requires high { n ≤ self.now.rect.j1 }
        ensures { result.now ≡ numbers_in self.now n }
    {
        let width = usize::from(self.rect.i1 - self.rect.i0) + 1;
        let start = usize::from(n - self.rect.j0) * width;
        &self.numbers[start..start + width]
    }
}

/// The cells of the words that the rectangles meet.
pub fn read_rects<V: Rows>(
    alloc: Global,
    view: &V,
    rects: &[Rect],
) -> Result<Vec<ReadRect>, NoMemory>
    requires inside { All (IsRectInside (V.extent view.now)) rects.now }
    ensures read { IfOk result (λ reads.
        All (AreRead (V.extent view.now) (V.class_count view.now) (V.passes view.now)) reads.items) }
    ensures covered { IfOk result (λ reads. (cell : Cell) → IsUnread reads.items cell → IsOutside rects.now cell) }
{
    let mut reads = Vec::with_capacity(alloc, rects.len())?;
    for rect in rects {
        let read = read_rect(alloc, view, *rect)?;
        reads.push(read)?;
    }
    Ok(reads)
}

/// The cells of the words that the rectangle meets.
fn read_rect<V: Rows>(alloc: Global, view: &V, rect: Rect) -> Result<ReadRect, NoMemory>
    requires inside { IsRectInside (V.extent view.now) rect }
    ensures read { IfOk result (AreRead (V.extent view.now) (V.class_count view.now) (V.passes view.now)) }
    ensures covered { IfOk result (λ read. (cell : Cell) → IsInRect rect cell → IsInRect read.rect cell) }
{
    let words = whole_words(rect);
    let width = usize::from(words.i1 - words.i0) + 1;
    let rows = usize::from(words.j1 - words.j0) + 1;
    let mut numbers = vec![in alloc; 0; rows * width]?;
    read_rows(view, words, &mut numbers);
    Ok(ReadRect {
        rect: words,
        numbers,
    })
}

/// Reads the numbers of the rectangle's cells, row by row.
fn read_rows<V: Rows>(view: &V, rect: Rect, numbers: &mut [u16])
    requires columns { rect.i0 ≤ rect.i1 }
    requires rows { rect.j0 ≤ rect.j1 }
    requires west { rect.i0 ≤ (V.extent view.now).w }
    requires north { rect.j1 < (V.extent view.now).h }
    requires whole { length numbers.old ≡ (rect.j1 - rect.j0 + 1) * width_of rect }
    ensures stays { length numbers.new ≡ length numbers.old }
    ensures each { (k : ℕ) → k < rect.j1 - rect.j0 + 1 → AreOfRow (V.class_count view.now) (V.passes view.now) rect k
        numbers.new }
{
    let width = usize::from(rect.i1 - rect.i0) + 1;
    for j in rect.j0..rect.j1 + 1 {
        let start = usize::from(j - rect.j0) * width;
        read_row(view, j, rect.i0, &mut numbers[start..start + width]);
    }
}

/// The rectangle of the words that a rectangle meets.
fn whole_words(rect: Rect) -> Rect
    ensures first { result.i0 ≡ 64 * (rect.i0 / 64) }
    ensures last { result.i1 ≡ 64 * (rect.i1 / 64) + 63 }
    ensures low { result.j0 ≡ rect.j0 }
    ensures high { result.j1 ≡ rect.j1 }
{
    Rect {
        i0: rect.i0 / 64 * 64,
        i1: rect.i1 / 64 * 64 + 63,
        j0: rect.j0,
        j1: rect.j1,
    }
}
