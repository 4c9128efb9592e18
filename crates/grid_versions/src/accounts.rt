//! What the searches of a class have cost.
ghost use Rattle.std.specs.Prelude.{◌≡◌};
ghost use Rattle.nav_types.specs.Cells.{IsInside};

use nav_types::{Cell, Size};
use std::sync::atomic::{AtomicU64, Ordering};

/// How many jump states the searches of a class have opened that have not paid for tables of landmarks, and the cell from
/// which the last of them went. Threads note their searches side by side.
#[derive(Drop)]
pub struct Account {
    opened: AtomicU64,
    column: AtomicU64,
    row: AtomicU64,
}

impl Account {
    /// No search yet.
    pub fn new() -> Account {
        Account {
            opened: AtomicU64::new(0),
            column: AtomicU64::new(0),
            row: AtomicU64::new(0),
        }
    }

    /// Notes a search that went from a cell and opened so many jump states.
    pub fn note(&self, start: Cell, opened: u64) {
        self.opened.fetch_add(opened, Ordering::SeqCst);
        self.column.store(u64::from(start.i), Ordering::SeqCst);
        self.row.store(u64::from(start.j), Ordering::SeqCst);
    }

    /// How many jump states were opened.
    pub fn opened(&self) -> u64 {
        self.opened.load(Ordering::SeqCst)
    }

    /// Pays so many of these.
    pub fn pay(&self, price: u64) {
        let left = self.opened().saturating_sub(price);
        self.opened.store(left, Ordering::SeqCst);
    }

    /// The same account, for others to note in. This one then counts from 0.
    pub fn hand_on(&self) -> Account {
        Account {
            opened: AtomicU64::new(self.opened.swap(0, Ordering::SeqCst)),
            column: AtomicU64::new(self.column.load(Ordering::SeqCst)),
            row: AtomicU64::new(self.row.load(Ordering::SeqCst)),
        }
    }

    /// The cell from which the last search went, on a map of this size. Where two are noted at once, it may have the
    /// column of one and the row of the other: a landmark far from there is a worse one, and no wrong one.
    pub fn last_start(&self, size: Size) -> Cell
        ensures { IsInside size result }
    {
        let column = self
            .column
            .load(Ordering::SeqCst)
            .min(u64::from(size.w - 1));
        let row = self.row.load(Ordering::SeqCst).min(u64::from(size.h - 1));
        Cell::new(column as u16, row as u16)
    }
}
