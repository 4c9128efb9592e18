//! The store of the standing obstructions.
ghost use Rattle.std.specs.Prelude.{◌≡◌, ◌≤◌, ◌↔◌, Some, None, IsSomeAnd, IfOk, OnOk, OnErr, is_some, replicate, option_copied};
ghost use Rattle.std.specs.FinMap as map;
ghost use Rattle.obstruction_shapes.specs.Shapes.{FitsMap, moved_to};
ghost use Rattle.obstruction_store.specs.Standing.{Stands, IsFull, moved};
ghost use Rattle.obstruction_store.specs.inner.Paged.{page_of};

use crate::listings::Listed;
use crate::owned_pages::{add_on, remove_on, replace_on};
use crate::pages::{Page, add_all};
use crate::refusals::{AddRefusal, MoveRefusal, RemoveRefusal};
use fixed_point::Fixed;
use nav_types::limits::MAX_OBSTRUCTIONS;
use nav_types::{NoMemory, Size};
use obstruction_shapes::{Obstruction, check};
use shared_list::SharedList;
use std::alloc::Global;
use std::marker::Model;
use std::sync::Arc;

/// How many pages a store has. It is a prime, so that numbers in equal steps lie on all pages.
const PAGES: u32 = 509;

/// The standing obstructions, each under its number. At most 65,536 stand at one time.
///
/// Contracts see the finite map from number to obstruction (`Standing`). One is found, added, moved or
/// removed without a look at those of other pages, and two stores that were one share the pages on which neither has
/// changed anything since.
#[derive(Drop)]
pub struct Store {
    alloc: Global,
    pages: SharedList<Page>,
    count: u32,
}

impl Model for Store {
    ghost use Rattle.std.specs.FinMap as map;
    ghost use Rattle.std.specs.Coded.{coded_ℕ};
    ghost use Rattle.obstruction_shapes.specs.contracts.shapes.Obstruction.{the_row as obstruction_row};
    ghost use Rattle.obstruction_store.specs.Standing.{Standing};

    ghost Value = { Standing };

    ghost coded = { map.code coded_ℕ obstruction_row.coded };

    ghost use Rattle.obstruction_store.specs.inner.Paged.{standing_in, ArePages};

    ghost view = { λ s. standing_in s.pages };

    ghost invariant = { λ s. ArePages s.pages s.count };
}

impl Store {
    /// The store in which nothing stands.
    pub fn new(alloc: Global) -> Result<Store, NoMemory>
        ensures { IfOk result (λ store. store ≡ map.empty) }
    {
        let pages = empty_pages(alloc)?;
        Ok(Store {
            alloc,
            pages,
            count: 0,
        })
    }

    /// Adds the obstruction under its number. `DuplicateId` exactly where one stands under the number, else
    /// `StoreFull` exactly where 65,536 stand. After a refusal the same obstructions stand.
    pub fn add(&mut self, id: u32, obstruction: Obstruction) -> Result<(), AddRefusal>
        ensures added { OnOk result (self.new ≡ map.insert self.old id obstruction) }
        ensures kept { OnErr result (self.new ≡ self.old) }
        ensures duplicate { (result ≡ Err AddRefusal.DuplicateId) ↔ Stands self.old id }
        ensures full { (result ≡ Err AddRefusal.StoreFull) ↔ ((map.get self.old id ≡ None) × IsFull self.old) }
    {
        if self.stands(id) {
            return Err(AddRefusal::DuplicateId);
        }
        if self.count >= MAX_OBSTRUCTIONS {
            return Err(AddRefusal::StoreFull);
        }
        let at = page_of(id);
        let Ok(()) = add_on(self.alloc, &mut self.pages, at, id, obstruction) else {
            return Err(AddRefusal::NoMemory);
        };
        self.count += 1;
        Ok(())
    }

    /// Takes out the obstruction of the number and hands it back. `UnknownId` exactly where none stands under it. After a
    /// refusal the same obstructions stand.
    pub fn remove(&mut self, id: u32) -> Result<Obstruction, RemoveRefusal>
        ensures taken { IfOk result (λ obstruction. map.get self.old id ≡ Some obstruction) }
        ensures removed { OnOk result (self.new ≡ map.remove self.old id) }
        ensures kept { OnErr result (self.new ≡ self.old) }
        ensures unknown { (result ≡ Err RemoveRefusal.UnknownId) ↔ (map.get self.old id ≡ None) }
    {
        let Some(found) = self.get(id) else {
            return Err(RemoveRefusal::UnknownId);
        };
        let obstruction = *found;
        let at = page_of(id);
        let Ok(()) = remove_on(self.alloc, &mut self.pages, at, id) else {
            return Err(RemoveRefusal::NoMemory);
        };
        self.count -= 1;
        Ok(obstruction)
    }

    /// Moves the middle of the shape of that number to (`x`, `z`), and leaves its mask (`moved`).
    /// `UnknownId` exactly where none stands under the number, else `BadShape` exactly where the moved
    /// shape does not fit a map of this size. After a refusal the same obstructions stand.
    pub fn move_to(&mut self, id: u32, x: Fixed, z: Fixed, size: Size) -> Result<(), MoveRefusal>
        ensures moves { OnOk result (self.new ≡ moved self.old id x z) }
        ensures fits { OnOk result
            (IsSomeAnd (map.get self.old id) (λ obstruction. FitsMap size (moved_to obstruction.shape x z))) }
        ensures kept { OnErr result (self.new ≡ self.old) }
        ensures unknown { (result ≡ Err MoveRefusal.UnknownId) ↔ (map.get self.old id ≡ None) }
        ensures bad_shape { (result ≡ Err MoveRefusal.BadShape)
            ↔ IsSomeAnd (map.get self.old id) (λ obstruction. ¬ FitsMap size (moved_to obstruction.shape x z)) }
    {
        let Some(found) = self.get(id) else {
            return Err(MoveRefusal::UnknownId);
        };
        let obstruction = *found;
        let Ok(shape) = check(obstruction.shape.moved(x, z), size) else {
            return Err(MoveRefusal::BadShape);
        };
        let moved = Obstruction {
            shape,
            mask: obstruction.mask,
        };
        let at = page_of(id);
        let Ok(()) = replace_on(self.alloc, &mut self.pages, at, id, moved) else {
            return Err(MoveRefusal::NoMemory);
        };
        Ok(())
    }

    /// The obstruction of the number. None exactly where none stands under it.
    pub fn get(&self, id: u32) -> Option<&Obstruction>
        ensures { option_copied result ≡ map.get self.now id }
    {
        self.pages.at(page_of(id)).get(id)
    }

    /// How many obstructions stand, at most 65,536.
    pub fn count(&self) -> u32
        ensures value { result ≡ map.len self.now }
        ensures few { result ≤ MAX_OBSTRUCTIONS }
    {
        self.count
    }

    /// The standing obstructions in the order of their numbers.
    pub fn listed(&self, alloc: Global) -> Result<Listed, NoMemory>
        ensures { IfOk result (λ listed. listed ≡ self.now) }
    {
        let mut all = Page::new(alloc)?;
        for at in 0..self.pages.len() {
            add_all(&mut all, self.pages.at(at))?;
        }
        Ok(Listed::new(all))
    }

    /// A store in which the same obstructions stand. Both share their pages.
    pub fn copy(&self, alloc: Global) -> Result<Store, NoMemory>
        ensures { IfOk result (λ copy. copy ≡ self.now) }
    {
        Ok(Store {
            alloc,
            pages: self.pages.share(alloc)?,
            count: self.count,
        })
    }

    /// Whether an obstruction stands under the number.
    fn stands(&self, id: u32) -> bool
        ensures { result ≡ is_some (map.get self.now id) }
    {
        self.get(id).is_some()
    }
}

/// The place of the page of a number.
fn page_of(id: u32) -> usize
    ensures { result ≡ page_of id }
{
    (id % PAGES) as usize
}

/// The pages of a store in which nothing stands. They are one.
fn empty_pages(alloc: Global) -> Result<SharedList<Page>, NoMemory>
    ensures { IfOk result (λ pages. pages ≡ replicate 509 map.empty) }
{
    let empty = Arc::new(alloc, Page::new(alloc)?)?;
    let mut pages = SharedList::with_capacity(alloc, PAGES as usize)?;
    for _ in 0..PAGES {
        pages.push_shared(alloc, Arc::try_clone(&empty)?)?;
    }
    Ok(pages)
}
