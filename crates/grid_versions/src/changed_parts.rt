//! The parts of a map's chunks that edits have changed.
ghost use Rattle.std.specs.Prelude.{ℕ, ◌≡◌, ◌≢◌, ◌≤◌, ◌<◌, ◌-◌, ◌⊎◌, All, length, slice_index, IsTrue, IsFalse, IfOk, OnOk, IfSome, IsSomeAnd};
ghost use Rattle.nav_types.specs.declared.cells.Cell.{Cell};
ghost use Rattle.nav_types.specs.declared.cells.Size.{Size};
ghost use Rattle.nav_types.specs.Cells.{IsInside, IsInRect, IsRectInside, cell_at, chunk_of};
ghost use Rattle.nav_types.specs.Numbering.{IsPatch, number_of};
ghost use Rattle.nav_types.specs.Rects.{IsPartOf};
ghost use Rattle.lane_rows.specs.Rows.{has_class};
ghost use Rattle.class_planes.specs.Planes.{IsKept};
ghost use Rattle.grid_versions.specs.Chunks.{chunk_count, chunk_place};
ghost use Rattle.grid_versions.specs.inner.SameNumbers.{AreChunksOf, IsSameAt};
ghost use Rattle.grid_versions.specs.inner.Reaching.{is_in_some};

use crate::dirty_parts::DirtyParts;
use class_planes::ChangedPart;
use nav_types::{Cell, NoMemory, Rect, Size};
use navcell_grid::Patch;
use shared_list::SharedList;
use std::alloc::Global;

/// The parts of the chunks in which cells of their dirty parts have other numbers than before, with the bits of what has
/// changed in each chunk. A chunk without bits has none.
pub fn changed_parts(
    alloc: Global,
    size: Size,
    dirty: &DirtyParts<'_>,
    changed: &[u16],
    before: &SharedList<Patch>,
    after: &SharedList<Patch>,
) -> Result<Vec<ChangedPart>, NoMemory>
    requires sized { dirty.now.size ≡ size }
    requires each { length changed.now ≡ chunk_count size }
    requires before { AreChunksOf size before.now }
    requires after { AreChunksOf size after.now }
    ensures inside { IfOk result (λ parts. All (λ part. IsRectInside size part.rect) parts.items) }
    ensures held { IfOk result (λ parts. (class : ℕ) (cell : Cell) → IsKept parts.items class cell
        → IsInside size cell → IsTrue (is_in_some dirty.now.rects cell)
        → IsFalse (has_class class (slice_index changed.now (chunk_place size (chunk_of cell))))
        ⊎ IsSameAt before.now after.now (chunk_place size (chunk_of cell)) cell) }
{
    let mut found = Vec::new(alloc);
    let parts = dirty.parts();
    for part in parts {
        let place = part.place as usize;
        let old = before.at(place);
        let new = after.at(place);
        push_part(Some(part.rect), old, new, changed[place], &mut found)?;
    }
    Ok(found)
}

/// Appends the part of a chunk in which cells of its dirty part have other numbers than before, with these bits.
fn push_part(
    dirty: Option<Rect>,
    before: &Patch,
    after: &Patch,
    classes: u16,
    parts: &mut Vec<ChangedPart>,
) -> Result<(), NoMemory>
    requires same { after.now.rect ≡ before.now.rect }
    requires dirty { IfSome dirty (IsPartOf before.now.rect) }
    ensures inside { OnOk result ((size : Size) → IsRectInside size before.now.rect
        → All (λ part. IsRectInside size part.rect) parts.old.items
        → All (λ part. IsRectInside size part.rect) parts.new.items) }
    ensures before { OnOk result ((class : ℕ) (cell : Cell) → IsKept parts.new.items class cell
        → IsKept parts.old.items class cell) }
    ensures held { OnOk result ((class : ℕ) (cell : Cell) → IsKept parts.new.items class cell
        → IsSomeAnd dirty (λ part. IsInRect part cell)
        → IsFalse (has_class class classes) ⊎ (number_of before.now cell ≡ number_of after.now cell)) }
{
    if classes == 0 {
        return Ok(());
    }
    let Some(rect) = differing_part(dirty, before, after) else {
        return Ok(());
    };
    parts.push(ChangedPart { rect, classes })?;
    Ok(())
}

/// The least rectangle that holds all cells of the dirty part whose numbers differ. None only where there is no such cell.
pub fn differing_part(dirty: Option<Rect>, before: &Patch, after: &Patch) -> Option<Rect>
    requires same { after.now.rect ≡ before.now.rect }
    requires dirty { IfSome dirty (IsPartOf before.now.rect) }
    ensures part { IfSome result (IsPartOf before.now.rect) }
    ensures held { (cell : Cell) → IsSomeAnd dirty (λ part. IsInRect part cell)
        → number_of before.now cell ≢ number_of after.now cell → IsSomeAnd result (λ rect. IsInRect rect cell) }
{
    let _ = before.rect();
    let Some(part) = dirty else {
        return None;
    };
    let mut found = None;
    for j in part.j0..part.j1 + 1 {
        found = with_row(found, before, after, part, j);
    }
    found
}

/// The least rectangle that holds the first one, if there is one, and the cells of row `j` of the part whose numbers
/// differ. In a row that is not as before the cells beside the first rectangle are looked at from both sides.
fn with_row(held: Option<Rect>, before: &Patch, after: &Patch, part: Rect, j: u16) -> Option<Rect>
    requires same { after.now.rect ≡ before.now.rect }
    requires held { IfSome held (IsPartOf before.now.rect) }
    requires patch { IsPatch before.now.rect }
    requires part { IsPartOf before.now.rect part }
    requires south { part.j0 ≤ j }
    requires north { j ≤ part.j1 }
    ensures part { IfSome result (IsPartOf before.now.rect) }
    ensures first { (cell : Cell) → IsSomeAnd held (λ rect. IsInRect rect cell)
        → IsSomeAnd result (λ rect. IsInRect rect cell) }
    ensures row { (cell : Cell) → IsInRect part cell → cell.j ≡ j
        → number_of before.now cell ≢ number_of after.now cell → IsSomeAnd result (λ rect. IsInRect rect cell) }
{
    if is_same_row(before, after, part, j) {
        return held;
    }
    match held {
        Some(rect) => {
            let cells = differing_cells(before, after, part, j, rect.i0, rect.i1);
            Some(rect.union(cells))
        }
        None => Some(differing_cells(before, after, part, j, part.i1, part.i0)),
    }
}

/// Whether the numbers of row `j` of the part are the same.
fn is_same_row(before: &Patch, after: &Patch, part: Rect, j: u16) -> bool
    requires rect { after.now.rect ≡ before.now.rect }
    requires part { IsPartOf before.now.rect part }
    requires south { part.j0 ≤ j }
    requires north { j ≤ part.j1 }
    ensures { IsTrue result → (cell : Cell) → IsInRect part cell → cell.j ≡ j
        → number_of before.now cell ≡ number_of after.now cell }
{
    are_same(numbers_in(before, part, j), numbers_in(after, part, j))
}

/// The numbers of row `j` of the part.
fn numbers_in(patch: &Patch, part: Rect, j: u16) -> &[u16]
    requires part { IsPartOf patch.now.rect part }
    requires south { part.j0 ≤ j }
    requires north { j ≤ part.j1 }
    ensures { (cell : Cell) → IsInRect part cell → cell.j ≡ j
        → slice_index result.now (cell.i - part.i0) ≡ number_of patch.now cell }
{
    let row = patch.row(j);
    let first = usize::from(part.i0 - patch.rect().i0);
    &row[first..first + usize::from(part.i1 - part.i0) + 1]
}

/// Whether the numbers of two lists are the same.
fn are_same(one: &[u16], other: &[u16]) -> bool
    ensures { IsTrue result → one.now ≡ other.now }
{
    one == other
}

/// The cells of row `j` of the part from the first whose numbers differ to the last one. Those from column `west` to
/// column `east` are not looked at, and are among them.
fn differing_cells(before: &Patch, after: &Patch, part: Rect, j: u16, west: u16, east: u16) -> Rect
    requires same { after.now.rect ≡ before.now.rect }
    requires part { IsPartOf before.now.rect part }
    requires south { part.j0 ≤ j }
    requires north { j ≤ part.j1 }
    ensures part { IsPartOf before.now.rect result }
    ensures row { (cell : Cell) → IsInRect part cell → cell.j ≡ j
        → number_of before.now cell ≢ number_of after.now cell → IsInRect result cell }
{
    let first = first_differing(before, after, part, j, west);
    let last = last_differing(before, after, part, j, first.max(east).min(part.i1));
    Rect {
        i0: first,
        j0: j,
        i1: last,
        j1: j,
    }
}

/// The first column of the part in which the numbers of row `j` differ, if it lies before column `to`. Else that column,
/// or the part's nearest to it.
fn first_differing(before: &Patch, after: &Patch, part: Rect, j: u16, to: u16) -> u16
    requires rect { after.now.rect ≡ before.now.rect }
    requires part { IsPartOf before.now.rect part }
    requires south { part.j0 ≤ j }
    requires north { j ≤ part.j1 }
    ensures low { part.i0 ≤ result }
    ensures high { result ≤ part.i1 }
    ensures same { (i : ℕ) → part.i0 ≤ i → i < result
        → number_of before.now (cell_at i j) ≡ number_of after.now (cell_at i j) }
{
    let end = to.max(part.i0).min(part.i1);
    for i in part.i0..end {
        let cell = Cell::new(i, j);
        if before.at(cell) != after.at(cell) {
            return i;
        }
    }
    end
}

/// The last column of the part from `first` on in which the numbers of row `j` differ, or that one.
fn last_differing(before: &Patch, after: &Patch, part: Rect, j: u16, first: u16) -> u16
    requires rect { after.now.rect ≡ before.now.rect }
    requires part { IsPartOf before.now.rect part }
    requires south { part.j0 ≤ j }
    requires north { j ≤ part.j1 }
    requires low { part.i0 ≤ first }
    requires high { first ≤ part.i1 }
    ensures low { first ≤ result }
    ensures high { result ≤ part.i1 }
    ensures same { (i : ℕ) → result < i → i ≤ part.i1
        → number_of before.now (cell_at i j) ≡ number_of after.now (cell_at i j) }
{
    let mut i = part.i1;
    'columns: while first < i {
        let cell = Cell::new(i, j);
        if before.at(cell) != after.at(cell) {
            return i;
        }
        i -= 1;
    }
    i
}
