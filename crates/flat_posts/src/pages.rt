//! Buffers that are filled with a part of a list, item by item.
ghost use Rattle.std.specs.Prelude.{◌≡◌, ◌-◌, ◌++◌, ◌∷◌, [], ℕ, List, map, min};
ghost use Rattle.flat_posts.specs.Cells.{flat_cell};
ghost use Rattle.flat_posts.specs.declared.cells.FlatCell.{FlatCell};
ghost use Rattle.flat_posts.specs.declared.replied.FlatReply.{FlatReply};
ghost use Rattle.flat_posts.specs.inner.Filling.{IsFilling};

use crate::cells::FlatCell;
use crate::replied::FlatReply;
use nav_types::Cell;

/// How far a buffer is filled: how many items are to be passed over yet, and how many were written.
#[derive(Clone, Copy, Debug)]
pub struct Filling {
    pub ahead: u64,
    pub count: usize,
}

impl Filling {
    /// Takes the next reply.
    pub fn take_reply(&mut self, buffer: &mut [FlatReply], reply: FlatReply)
        ensures { (first : ℕ) (all old : List FlatReply) → IsFilling first all old self.old.ahead self.old.count buffer.old
            → IsFilling first (all ++ reply ∷ []) old self.new.ahead self.new.count buffer.new }
    {
        if self.ahead > 0 {
            self.ahead -= 1;
        } else if self.count < buffer.len() {
            buffer[self.count] = reply;
            self.count += 1;
        }
    }

    /// Takes the next cells.
    pub fn take_cells(&mut self, buffer: &mut [FlatCell], cells: &[Cell])
        ensures { (first : ℕ) (all old : List FlatCell) → IsFilling first all old self.old.ahead self.old.count buffer.old
            → IsFilling first (all ++ map flat_cell cells.now) old self.new.ahead self.new.count buffer.new }
    {
        let (_, wanted) = cells.split_at(self.pass(cells.len()));
        self.take_each(buffer, wanted);
    }

    /// Passes over the first of so many items, as far as items are to be passed over yet, and gives how many.
    fn pass(&mut self, items: usize) -> usize
        ensures passed { result ≡ min self.old.ahead items }
        ensures ahead { self.new.ahead ≡ self.old.ahead - items }
        ensures count { self.new.count ≡ self.old.count }
    {
        let passed = self.ahead.min(items as u64);
        self.ahead -= passed;
        passed as usize
    }

    /// Takes each of the cells.
    fn take_each(&mut self, buffer: &mut [FlatCell], cells: &[Cell])
        ensures { (first : ℕ) (all old : List FlatCell) → IsFilling first all old self.old.ahead self.old.count buffer.old
            → IsFilling first (all ++ map flat_cell cells.now) old self.new.ahead self.new.count buffer.new }
    {
        for cell in cells {
            self.take_cell(buffer, FlatCell::of(*cell));
        }
    }

    /// Takes the next cell.
    fn take_cell(&mut self, buffer: &mut [FlatCell], cell: FlatCell)
        ensures { (first : ℕ) (all old : List FlatCell) → IsFilling first all old self.old.ahead self.old.count buffer.old
            → IsFilling first (all ++ cell ∷ []) old self.new.ahead self.new.count buffer.new }
    {
        if self.ahead > 0 {
            self.ahead -= 1;
        } else if self.count < buffer.len() {
            buffer[self.count] = cell;
            self.count += 1;
        }
    }
}
