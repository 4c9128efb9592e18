//! The standing obstructions one after another.
ghost use Rattle.std.specs.Prelude.{◌≡◌};
ghost use Rattle.std.specs.Iterator.{YieldsFirstBy, item_count};
ghost use Rattle.obstruction_store.specs.inner.Held.{held_entries, HaveFullSlots};

use obstruction_shapes::Obstruction;
use slab::Slab;
use std::collections::btree_map::Iter;
use std::marker::Model;

/// The standing obstructions, each with its number, by rising number. Contracts see the list of those
/// that are left.
#[derive(Drop)]
pub struct Entries<'a> {
    keys: Iter<'a, u32, usize>,
    obstructions: &'a Slab<Obstruction>,
}

impl<'a> Model for Entries<'a> {
    ghost use Rattle.std.specs.Prelude.{ℕ, List};
    ghost use Rattle.obstruction_shapes.specs.declared.shapes.Obstruction.{Obstruction as Standing};
    ghost use Rattle.obstruction_store.specs.inner.Held.{held_entries, HaveFullSlots};

    ghost Value = { List (ℕ × Standing) };

    ghost view = { λ it. held_entries it.obstructions.now.slots it.keys };

    ghost invariant = { λ it. HaveFullSlots it.obstructions.now.slots it.keys };
}

impl<'a> Entries<'a> {
    /// The obstructions of these numbers by their keys.
    pub(crate) fn new(
        keys: Iter<'a, u32, usize>,
        obstructions: &'a Slab<Obstruction>,
    ) -> Entries<'a>
        requires { HaveFullSlots obstructions.now.slots keys }
        ensures { result ≡ held_entries obstructions.now.slots keys.entry }
    {
        Entries { keys, obstructions }
    }
}

impl<'a> Iterator for Entries<'a> {
    type Item = (u32, &'a Obstruction);

    ghost next_gives = { YieldsFirstBy (λ item. (item.0, item.1.now)) (λ rest. rest) };

    ghost remaining = { item_count (λ rest. rest) };

    fn next(&mut self) -> Option<(u32, &'a Obstruction)> {
        let Some((&id, &key)) = self.keys.next() else {
            return None;
        };
        Some((id, &self.obstructions[key]))
    }
}
