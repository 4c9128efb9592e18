//! The standing obstructions in the order of their numbers.
ghost use Rattle.std.specs.Prelude.{◌≡◌};
ghost use Rattle.std.specs.FinMap as map;

use crate::entries::Entries;
use crate::pages::Page;
use std::marker::Model;

/// The standing obstructions of a store in the order of their numbers. Contracts see what stands (`Standing`).
#[derive(Drop)]
pub struct Listed {
    page: Page,
}

impl Model for Listed {
    ghost use Rattle.std.specs.FinMap as map;
    ghost use Rattle.std.specs.Coded.{coded_ℕ};
    ghost use Rattle.obstruction_shapes.specs.contracts.shapes.Obstruction.{the_row as obstruction_row};
    ghost use Rattle.obstruction_store.specs.Standing.{Standing};

    ghost Value = { Standing };

    ghost coded = { map.code coded_ℕ obstruction_row.coded };

    ghost view = { λ l. l.page };
}

impl Listed {
    /// The obstructions of a page.
    pub(crate) fn new(page: Page) -> Listed
        ensures { result ≡ page }
    {
        Listed { page }
    }

    /// The standing obstructions, each with its number, by rising number. It takes no memory.
    pub fn entries(&self) -> Entries<'_>
        ensures { result ≡ map.entries self.now }
    {
        self.page.entries()
    }
}
