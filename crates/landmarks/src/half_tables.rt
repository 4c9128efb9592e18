//! Tables on their way: each is made in parts, so that nobody waits for a whole one.
//!
//! ```text
//!    passable cells are marked --> marks spread from a landmark --> each step is looked at --> `Landmarks::take`
//! ```
ghost use Rattle.std.specs.Prelude.{◌≡◌, ◌+◌, ◌<◌, ◌≤◌, Bool, length, IfOk, IfSome, OnOk, IsTrue};
ghost use Rattle.nav_types.specs.declared.cells.Cell.{Cell};
ghost use Rattle.nav_types.specs.Cells.{IsInside};
ghost use Rattle.landmarks.specs.HalfTables.{IsBegun, IsDone};
ghost use Rattle.landmarks.specs.inner.Fields.{spots, HasRoom, Spreads};

use crate::fields::TableSpread;
use crate::marks::{FREE, are_gentle, mark_rows, spot};
use crate::tables::Landmarks;
use nav_types::{Cell, Class, NoMemory, Rows, Size};
use std::alloc::Global;
use std::marker::Model;

/// The work of spreading marks from a place, where that of marking a cell or of looking at a square is 1.
const SPREAD_WORK: usize = 8;

/// What is done next for a table.
#[derive(Clone, Copy, Debug, PartialEq, Eq)]
enum Stage {
    /// Passable cells are marked.
    Mark,
    /// Marks spread from a place far from the one for which the table is made, to see whether they reach it.
    Seek,
    /// Marks spread from there, and the place that they reach last is the landmark.
    Cross,
    /// Marks spread from the landmark.
    Spread,
    /// The marks of neighbours are looked at.
    Check,
    /// Some were not gentle.
    Failed,
}

/// A table of a class that is made in parts. Contracts see what is made of it (`Half`).
#[derive(Drop)]
pub struct HalfTable {
    spread: TableSpread,
    size: Size,
    class: Class,
    near: usize,
    stage: Stage,
    rows: u16,
    checked: usize,
}

impl Model for HalfTable {
    ghost use Rattle.landmarks.specs.HalfTables.{Half, IsSound};

    ghost Value = { Half };

    ghost view = { λ h. record { size = h.size; class = h.class; rows = h.rows; checked = h.checked; marks = h.spread.marks.items } };

    ghost invariant = { λ h. IsSound
        (record { size = h.size; class = h.class; rows = h.rows; checked = h.checked; marks = h.spread.marks.items }) h.near };
}

impl HalfTable {
    /// A table of which nothing is made. Its landmark will lie far from those there are, and far from `near` where none of
    /// them is in its area.
    pub fn begin<V: Rows>(
        alloc: Global,
        view: &V,
        class: Class,
        near: Cell,
    ) -> Result<HalfTable, NoMemory>
        requires class { class < V.class_count view.now }
        requires near { IsInside (V.extent view.now) near }
        ensures size { IfOk result (λ half. half.size ≡ V.extent view.now) }
        ensures class { IfOk result (λ half. half.class ≡ class) }
        ensures begun { IfOk result (IsBegun (V.passes view.now class)) }
    {
        let size = view.size();
        let count = (size.w as usize + 2) * (size.h as usize + 2);
        let marks = vec![in alloc; 0; count]?;
        Ok(HalfTable {
            spread: TableSpread::over(alloc, marks),
            size,
            class,
            near: spot(size, near),
            stage: Stage::Mark,
            rows: 0,
            checked: 0,
        })
    }

    /// The same once more, to go on from.
    pub fn copy(&self, alloc: Global) -> Result<HalfTable, NoMemory>
        ensures { IfOk result (λ same. same ≡ self.now) }
    {
        Ok(HalfTable {
            spread: self.spread.copy(alloc)?,
            size: self.size,
            class: self.class,
            near: self.near,
            stage: self.stage,
            rows: self.rows,
            checked: self.checked,
        })
    }

    /// The class whose table it is.
    pub fn class(&self) -> Class
        ensures { result ≡ self.now.class }
    {
        self.class
    }

    /// Whether all parts are made.
    pub fn is_made(&self) -> bool {
        let width = self.size.w as usize + 2;
        self.stage == Stage::Failed || self.checked + width + 1 >= self.spread.marks.len()
    }

    /// Makes as much of the table as so much work makes, and leaves what is not done of this. To mark a cell or to look at a
    /// square of two by two is one unit of it, and to spread marks from a place is eight. `tables` are those there are.
    pub fn gone_on<V: Rows>(
        self,
        alloc: Global,
        tables: Option<&Landmarks>,
        view: &V,
        work: &mut usize,
    ) -> Result<HalfTable, NoMemory>
        requires class { self.class < V.class_count view.now }
        requires size { self.size ≡ V.extent view.now }
        requires tables { IfSome tables (λ tables. tables.now.size ≡ self.size) }
        requires begun { IsBegun (V.passes view.now self.class) self }
        ensures size { IfOk result (λ half. half.size ≡ self.size) }
        ensures class { IfOk result (λ half. half.class ≡ self.class) }
        ensures begun { IfOk result (IsBegun (V.passes view.now self.class)) }
        ensures work { work.new ≤ work.old }
    {
        let half = self.marked_on(alloc, tables, view, work)?;
        let half = half.spread_on(work)?;
        let half = half.spread_on(work)?;
        let half = half.spread_on(work)?;
        Ok(half.checked_on(work))
    }
}

impl HalfTable {
    /// The marks of a table of which the passable cells are marked in so many rows more as there is work left for.
    fn marked_on<V: Rows>(
        self,
        alloc: Global,
        tables: Option<&Landmarks>,
        view: &V,
        work: &mut usize,
    ) -> Result<HalfTable, NoMemory>
        requires class { self.class < V.class_count view.now }
        requires size { self.size ≡ V.extent view.now }
        requires tables { IfSome tables (λ tables. tables.now.size ≡ self.size) }
        requires begun { IsBegun (V.passes view.now self.class) self }
        ensures size { IfOk result (λ half. half.size ≡ self.size) }
        ensures class { IfOk result (λ half. half.class ≡ self.class) }
        ensures begun { IfOk result (IsBegun (V.passes view.now self.class)) }
        ensures work { work.new ≤ work.old }
    {
        if self.stage != Stage::Mark {
            return Ok(self);
        }
        let mut half = self;
        let width = half.size.w as usize + 2;
        let left = half.size.h - half.rows;
        let more = (*work / width).min(usize::from(left));
        let end = half.rows + more as u16;
        mark_rows(
            alloc,
            &mut half.spread.marks,
            view,
            half.class,
            half.rows,
            end,
        )?;
        *work = work.saturating_sub(more * width);
        half.checked = 0;
        half.rows = end;
        if end < half.size.h {
            return Ok(half);
        }
        half.stage = first_spread(&mut half.spread, tables, width, half.near)?;
        Ok(half)
    }

    /// A table whose marks spread on, as far as there is work left, and begin to spread anew where none waits.
    fn spread_on(self, work: &mut usize) -> Result<HalfTable, NoMemory>
        ensures size { IfOk result (λ half. half.size ≡ self.size) }
        ensures class { IfOk result (λ half. half.class ≡ self.class) }
        ensures begun { IfOk result (λ half. (passes : Cell → Bool) → IsBegun passes self → IsBegun passes half) }
        ensures work { work.new ≤ work.old }
    {
        if !self.spreads() {
            return Ok(self);
        }
        let mut half = self;
        let width = half.size.w as usize + 2;
        let most = *work / SPREAD_WORK;
        let done = half.spread.run(width, most)?;
        *work -= SPREAD_WORK * done;
        half.checked = 0;
        if done < most {
            half.stage = next_spread(&mut half.spread, half.stage, width, half.near)?;
        }
        Ok(half)
    }

    /// Whether its marks spread.
    fn spreads(&self) -> bool {
        match self.stage {
            Stage::Seek | Stage::Cross | Stage::Spread => true,
            Stage::Mark | Stage::Check | Stage::Failed => false,
        }
    }

    /// A table of which so many squares more are looked at as there is work left for. One that is not gentle is the last.
    fn checked_on(self, work: &mut usize) -> HalfTable
        ensures size { result.size ≡ self.size }
        ensures class { result.class ≡ self.class }
        ensures begun { (passes : Cell → Bool) → IsBegun passes self → IsBegun passes result }
        ensures work { work.new ≤ work.old }
    {
        if self.stage != Stage::Check {
            return self;
        }
        let mut half = self;
        let width = half.size.w as usize + 2;
        let squares = half.spread.marks.len() - width - 1;
        let end = squares.min(half.checked.saturating_add(*work));
        *work -= end - half.checked;
        if !are_gentle(&half.spread.marks, width, half.checked, end) {
            half.stage = Stage::Failed;
            return half;
        }
        half.checked = end;
        half
    }

    /// Whether all its cells are marked, and all squares of the marks were found gentle.
    pub(crate) fn is_gentle(&self) -> bool
        ensures { IsTrue result → IsDone self.now }
    {
        let width = self.size.w as usize + 2;
        self.rows >= self.size.h && self.checked + width + 1 >= self.spread.marks.len()
    }

    /// The marks.
    pub(crate) fn marks(&self) -> &[u16]
        ensures marks { result.now ≡ self.now.marks }
        ensures long { length result.now ≡ spots self.now.size }
        ensures room { HasRoom result.now }
    {
        self.spread.marks.as_slice()
    }
}

/// Begins the first spread of marks, and gives what is done next.
fn first_spread(
    spread: &mut TableSpread,
    tables: Option<&Landmarks>,
    width: usize,
    near: usize,
) -> Result<Stage, NoMemory>
    requires near { near < length spread.old.marks.items }
    requires tables { IfSome tables (λ tables. near < spots tables.now.size) }
    requires wide { width + 1 < length spread.old.marks.items }
    requires room { HasRoom spread.old.marks.items }
    ensures { OnOk result (Spreads spread.old.marks.items spread.new.marks.items) }
{
    if let Some(tables) = tables {
        if let Some(landmark) = tables.next_landmark(near) {
            spread.begin(width, landmark)?;
            return Ok(Stage::Spread);
        }
    }
    spread.begin(width, spread.far_from(near))?;
    Ok(Stage::Seek)
}

/// Begins the spread of marks that follows one in which no place waits any more, and gives what is done next.
fn next_spread(
    spread: &mut TableSpread,
    stage: Stage,
    width: usize,
    near: usize,
) -> Result<Stage, NoMemory>
    requires near { near < length spread.old.marks.items }
    requires wide { width + 1 < length spread.old.marks.items }
    requires room { HasRoom spread.old.marks.items }
    ensures { OnOk result (Spreads spread.old.marks.items spread.new.marks.items) }
{
    if stage == Stage::Cross {
        spread.clear();
        spread.begin(width, spread.last)?;
        return Ok(Stage::Spread);
    }
    if stage == Stage::Seek && spread.marks[near] == FREE {
        spread.clear();
        spread.begin(width, near)?;
        return Ok(Stage::Cross);
    }
    Ok(Stage::Check)
}
