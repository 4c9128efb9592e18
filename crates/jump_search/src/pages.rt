//! Numbers for the cells of a map.
ghost use Rattle.std.specs.Prelude.{◌≡◌, ◌≢◌, ◌<◌, ◌≤◌, ℕ, length, slice_index, IfOk, OnOk};
ghost use Rattle.std.specs.Prelude.{OnErr};
ghost use Rattle.jump_search.specs.inner.Numbered.{AreCovered};
ghost use Rattle.jump_search.specs.inner.Paged.{page_place, spot_of, number_on_page, cell_number, ArePages, IsSet};
ghost use Rattle.nav_types.specs.declared.cells.Cell.{Cell};

use crate::nodes::Node;
use nav_types::{Cell, NoMemory};
use std::alloc::Global;

/// How many numbers a page has.
const PAGE: usize = 64;
/// How many places there are for pages.
const PLACES: usize = 4096;
/// For how many pages there is room from the start: one at each place, and the page of zeros.
const ROOM: usize = PLACES + 1;
/// Below how many nodes the numbers of their places are set back one by one, and not all.
const FEW: usize = 512;

/// A number for each cell of a map; 0 where none was set. A page has the numbers of 8 by 8 cells, and is made when
/// the first of them is set.
///
/// The table has the number of the page of each place. The first page is of zeros, and stands for all that are not
/// made. So that the table is small, pages that lie 512 cells apart share a place: cells as far from each other share
/// their number.
#[derive(Drop)]
pub(crate) struct Pages {
    pub table: Vec<u16>,
    pub numbers: Vec<u32>,
    pub ghost paged: { ArePages table.items numbers.items },
}

/// Where the cell stands on its page.
fn spot(cell: Cell) -> usize
    ensures spot { result ≡ spot_of cell }
    ensures low { result < 64 }
{
    usize::from(cell.j % 8) * 8 + usize::from(cell.i % 8)
}

/// The place of the cell's page.
fn place(cell: Cell) -> usize
    ensures place { result ≡ page_place cell }
    ensures low { result < 4096 }
{
    usize::from(cell.j / 8 % 64) * 64 + usize::from(cell.i / 8 % 64)
}

/// Sets the numbers at the places of the nodes to 0. The others are 0.
fn blank_at(numbers: &mut [u16], nodes: &[Node])
    requires wide { 4096 ≤ length numbers.old }
    requires covered { AreCovered numbers.old nodes.now }
    ensures long { length numbers.new ≡ length numbers.old }
    ensures blank { (place : ℕ) → slice_index numbers.new place ≡ 0 }
{
    for node in nodes {
        numbers[place(node.state.cell)] = 0;
    }
}

/// Sets each number to 0. Those that are not are at the places of the nodes.
fn blank(numbers: &mut [u16], nodes: &[Node])
    requires wide { 4096 ≤ length numbers.old }
    requires covered { AreCovered numbers.old nodes.now }
    ensures long { length numbers.new ≡ length numbers.old }
    ensures blank { (place : ℕ) → slice_index numbers.new place ≡ 0 }
{
    if nodes.len() < FEW {
        blank_at(numbers, nodes);
        return;
    }
    numbers.fill(0);
}

impl Pages {
    /// Pages with 0 for each cell.
    pub(crate) fn new(alloc: Global) -> Result<Pages, NoMemory>
        ensures numbers { IfOk result (λ pages. (cell : Cell)
            → cell_number pages.table.items pages.numbers.items cell ≡ 0) }
        ensures table { IfOk result (λ pages. (place : ℕ) → slice_index pages.table.items place ≡ 0) }
    {
        let table = vec![in alloc; 0; PLACES]?;
        let mut numbers = Vec::with_capacity(alloc, ROOM * PAGE)?;
        numbers.resize(PAGE, 0)?;
        Ok(Pages { table, numbers })
    }

    /// Sets the number of each cell to 0, where no place has a page but those of the nodes. It takes no memory, and keeps
    /// the room of the pages that were made.
    pub(crate) fn clear(&mut self, nodes: &[Node])
        requires { AreCovered self.old.table.items nodes.now }
        ensures numbers { (cell : Cell) → cell_number self.new.table.items self.new.numbers.items cell ≡ 0 }
        ensures table { (place : ℕ) → slice_index self.new.table.items place ≡ 0 }
    {
        blank(&mut self.table, nodes);
        self.numbers.truncate(PAGE);
    }

    /// The number of a cell.
    pub(crate) fn get(&self, cell: Cell) -> u32
        ensures { result ≡ cell_number self.now.table.items self.now.numbers.items cell }
    {
        let place = place(cell);
        let page = self.table[place];
        self.numbers[page as usize * PAGE + spot(cell)]
    }

    /// The number of the page of a place, which is made where there is none.
    fn page(&mut self, place: usize) -> Result<u16, NoMemory>
        requires { place < length self.old.table.items }
        ensures page { IfOk result (λ page. page ≡ slice_index self.new.table.items place) }
        ensures some { IfOk result (λ page. 0 < page) }
        ensures places { length self.new.table.items ≡ length self.old.table.items }
        ensures others { (at : ℕ) → at ≢ place
            → slice_index self.new.table.items at ≡ slice_index self.old.table.items at }
        ensures same { OnOk result ((at spot : ℕ) → spot < 64
            → number_on_page self.new.table.items self.new.numbers.items at spot
            ≡ number_on_page self.old.table.items self.old.numbers.items at spot) }
        ensures table { OnErr result (self.new.table.items ≡ self.old.table.items) }
        ensures numbers { OnErr result (self.new.numbers.items ≡ self.old.numbers.items) }
    {
        let known = self.table[place];
        if known > 0 {
            return Ok(known);
        }
        let end = self.numbers.len();
        let Ok(page) = u16::try_from(end / PAGE) else {
            return Err(NoMemory);
        };
        self.numbers.resize(end + PAGE, 0)?;
        self.table[place] = page;
        Ok(page)
    }

    /// Sets the number of a cell, and gives the one that it had. Where there is no memory the numbers stay.
    pub(crate) fn replace(&mut self, cell: Cell, number: u32) -> Result<u32, NoMemory>
        ensures before { IfOk result (λ before. before
            ≡ cell_number self.old.table.items self.old.numbers.items cell) }
        ensures set { OnOk result (IsSet cell number
            (cell_number self.old.table.items self.old.numbers.items)
            (cell_number self.new.table.items self.new.numbers.items)) }
        ensures others { (place : ℕ) → place ≢ page_place cell
            → slice_index self.new.table.items place ≡ slice_index self.old.table.items place }
        ensures table { OnErr result (self.new.table.items ≡ self.old.table.items) }
        ensures numbers { OnErr result (self.new.numbers.items ≡ self.old.numbers.items) }
    {
        let place = place(cell);
        let page = self.page(place)?;
        let at = page as usize * PAGE + spot(cell);
        let before = self.numbers[at];
        self.numbers[at] = number;
        Ok(before)
    }
}
