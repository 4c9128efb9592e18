//! One page of a store: the obstructions of some numbers.
ghost use Rattle.std.specs.Prelude.{ℕ, ◌≡◌, ◌↔◌, ◌++◌, List, Some, None, IsErr, IfOk, OnOk, OnErr, option_copied};
ghost use Rattle.std.specs.FinMap as map;
ghost use Rattle.obstruction_shapes.specs.declared.shapes.Obstruction.{Obstruction};
ghost use Rattle.obstruction_store.specs.Standing.{Stands, IsFull};

use crate::entries::Entries;
use crate::refusals::AddRefusal;
use nav_types::NoMemory;
use nav_types::limits::MAX_OBSTRUCTIONS;
use obstruction_shapes::Obstruction;
use slab::Slab;
use std::alloc::Global;
use std::collections::BTreeMap;
use std::marker::Model;

/// No obstruction stands under this number.
#[derive(Debug, Drop)]
pub struct UnknownId;

/// Obstructions, each under its number, at most 65,536. Contracts see the finite map from number to obstruction
/// (`Standing`).
#[derive(Debug, Drop)]
pub struct Page {
    // The key of each number in `obstructions`.
    keys: BTreeMap<u32, usize>,
    obstructions: Slab<Obstruction>,
}

impl Model for Page {
    ghost use Rattle.std.specs.FinMap as map;
    ghost use Rattle.std.specs.Coded.{coded_ℕ};
    ghost use Rattle.obstruction_shapes.specs.contracts.shapes.Obstruction.{the_row as obstruction_row};
    ghost use Rattle.obstruction_store.specs.Standing.{Standing};

    ghost Value = { Standing };

    ghost coded = { map.code coded_ℕ obstruction_row.coded };

    ghost use Rattle.obstruction_store.specs.inner.Held.{held_standing, IsHeld};

    ghost view = { λ s. held_standing s.keys s.obstructions.slots };

    ghost invariant = { λ s. IsHeld s.keys s.obstructions.slots };
}

impl Page {
    /// The page on which nothing stands.
    pub fn new(alloc: Global) -> Result<Page, NoMemory>
        ensures { IfOk result (λ page. page ≡ map.empty) }
    {
        Ok(Page {
            keys: BTreeMap::new(alloc),
            obstructions: Slab::new(alloc),
        })
    }

    /// Adds the obstruction under its number. `DuplicateId` exactly where one stands under the number, else
    /// `StoreFull` exactly where 65,536 stand. After a refusal the same obstructions stand.
    pub fn add(&mut self, id: u32, obstruction: Obstruction) -> Result<(), AddRefusal>
        ensures added { OnOk result (self.new ≡ map.insert self.old id obstruction) }
        ensures kept { OnErr result (self.new ≡ self.old) }
        ensures duplicate { (result ≡ Err AddRefusal.DuplicateId) ↔ Stands self.old id }
        ensures full { (result ≡ Err AddRefusal.StoreFull) ↔ ((map.get self.old id ≡ None) × IsFull self.old) }
    {
        if self.keys.contains_key(&id) {
            return Err(AddRefusal::DuplicateId);
        }
        if self.keys.len() >= MAX_OBSTRUCTIONS as usize {
            return Err(AddRefusal::StoreFull);
        }
        let Ok(()) = self.obstructions.reserve(1) else {
            return Err(AddRefusal::NoMemory);
        };
        let Ok(_) = self.keys.insert(id, self.obstructions.vacant_key()) else {
            return Err(AddRefusal::NoMemory);
        };
        // Taken apart, since the check asks for the shape's type to be named by a variable here.
        let Obstruction { shape, mask } = obstruction;
        self.obstructions
            .insert_reserved(Obstruction { shape, mask });
        Ok(())
    }

    /// Takes out the obstruction of the number and hands it back. `UnknownId` exactly where none stands
    /// under it, and then the same obstructions stand. It takes no memory.
    pub fn remove(&mut self, id: u32) -> Result<Obstruction, UnknownId>
        ensures taken { IfOk result (λ obstruction. map.get self.old id ≡ Some obstruction) }
        ensures removed { OnOk result (self.new ≡ map.remove self.old id) }
        ensures kept { OnErr result (self.new ≡ self.old) }
        ensures unknown { IsErr result ↔ (map.get self.old id ≡ None) }
    {
        let Some(key) = self.keys.remove(&id) else {
            return Err(UnknownId);
        };
        Ok(self.obstructions.remove(key))
    }

    /// Puts the obstruction in place of the one that stands under the number. `UnknownId` exactly where none stands under
    /// it, and then the same obstructions stand. It takes no memory.
    pub fn replace(&mut self, id: u32, obstruction: Obstruction) -> Result<(), UnknownId>
        ensures replaced { OnOk result (self.new ≡ map.insert self.old id obstruction) }
        ensures kept { OnErr result (self.new ≡ self.old) }
        ensures unknown { IsErr result ↔ (map.get self.old id ≡ None) }
    {
        let Some(key) = self.keys.get(&id) else {
            return Err(UnknownId);
        };
        self.obstructions[*key] = obstruction;
        Ok(())
    }

    /// The obstruction of the number. None exactly where none stands under it.
    pub fn get(&self, id: u32) -> Option<&Obstruction>
        ensures { option_copied result ≡ map.get self.now id }
    {
        match self.keys.get(&id) {
            Some(&key) => self.obstructions.get(key),
            None => None,
        }
    }

    /// The standing obstructions, each with its number, by rising number. It takes no memory.
    pub fn entries(&self) -> Entries<'_>
        ensures { result ≡ map.entries self.now }
    {
        Entries::new(self.keys.iter(), &self.obstructions)
    }

    /// A page on which the same obstructions stand.
    pub fn copy(&self, _alloc: Global) -> Result<Page, NoMemory>
        ensures { IfOk result (λ copy. copy ≡ self.now) }
    {
        Ok(Page {
            keys: self.keys.clone()?,
            obstructions: self.obstructions.clone()?,
        })
    }
}

/// Adds what stands on a page. It refuses also where one of its numbers is taken.
pub fn add_all(all: &mut Page, page: &Page) -> Result<(), NoMemory>
    ensures { OnOk result ((es : List (ℕ × Obstruction)) → all.old ≡ map.from_entries es
        → all.new ≡ map.from_entries (es ++ map.entries page.now)) }
{
    for (id, obstruction) in page.entries() {
        let Ok(()) = all.add(id, *obstruction) else {
            return Err(NoMemory);
        };
    }
    Ok(())
}
