//! A list of items that other lists may share.
ghost use Rattle.std.specs.Prelude.{◌≡◌, ◌++◌, ◌∷◌, ◌<◌, [], length, slice_get, slice_set, Some, IfNone, IfOk, IfSome, OnOk, OnErr};
ghost use Rattle.std.specs.Arc.{arc_value};
ghost use Rattle.shared_list.specs.Changing.{IsChangedBy};

use crate::block_lists::BlockList;
use nav_types::NoMemory;
use std::alloc::Global;
use std::marker::Model;
use std::sync::Arc;

/// A list of items that other lists may share. Contracts see the list.
///
/// Two lists that were one hold the same items until one of the two changes. Then that one gets a list of the blocks of
/// its own, and shares with the other the blocks in which no item was replaced since.
#[derive(Drop)]
pub struct SharedList<T> {
    items: Arc<BlockList<T>, Global>,
}

impl<T> Model for SharedList<T> {
    ghost use Rattle.std.specs.Prelude.{List};
    ghost use Rattle.std.specs.Arc.{arc_value};

    ghost Value = { List T };

    ghost view = { λ s. arc_value s.items };
}

impl<T> SharedList<T> {
    /// The empty list, with room for so many items.
    pub fn with_capacity(alloc: Global, count: usize) -> Result<SharedList<T>, NoMemory>
    where
        T: Drop,
        ensures { IfOk result (λ list. list ≡ []) }
    {
        let items = BlockList::with_capacity(alloc, count)?;
        Ok(SharedList {
            items: Arc::new(alloc, items)?,
        })
    }

    /// Appends an item. Where there is no memory the list stays.
    pub fn push(&mut self, alloc: Global, item: T) -> Result<(), NoMemory>
    where
        T: Drop,
        ensures ok { OnOk result (self.new ≡ self.old ++ item ∷ []) }
        ensures err { OnErr result (self.new ≡ self.old) }
    {
        self.push_shared(alloc, Arc::new(alloc, item)?)
    }

    /// Appends an item that others may hold. Where there is no memory, or the list has 2 ^ 32 items, it stays.
    pub fn push_shared(&mut self, alloc: Global, item: Arc<T, Global>) -> Result<(), NoMemory>
    where
        T: Drop,
        ensures ok { OnOk result (self.new ≡ self.old ++ arc_value item ∷ []) }
        ensures err { OnErr result (self.new ≡ self.old) }
    {
        if let Some(items) = Arc::get_mut(&mut self.items) {
            return items.push_shared(alloc, item);
        }
        let mut items = self.items.share(alloc)?;
        items.push_shared(alloc, item)?;
        self.items = Arc::new(alloc, items)?;
        Ok(())
    }

    /// The same list, whose items both hold from then on.
    pub fn share(&self, alloc: Global) -> Result<SharedList<T>, NoMemory>
    where
        T: Drop,
        ensures { IfOk result (λ list. list ≡ self.now) }
    {
        let _ = alloc;
        Ok(SharedList {
            items: Arc::try_clone(&self.items)?,
        })
    }

    /// Puts the item at a place, counted from 0, where it replaces what stood there. The block in which it lies is made
    /// anew; other lists keep theirs. Where there is no memory the list stays.
    pub fn set(&mut self, alloc: Global, at: usize, item: T) -> Result<(), NoMemory>
    where
        T: Drop,
        requires { at < length self.old }
        ensures ok { OnOk result (self.new ≡ slice_set self.old at item) }
        ensures err { OnErr result (self.new ≡ self.old) }
    {
        self.set_shared(alloc, at, Arc::new(alloc, item)?)
    }

    /// The same of an item that others may hold.
    pub fn set_shared(
        &mut self,
        alloc: Global,
        at: usize,
        item: Arc<T, Global>,
    ) -> Result<(), NoMemory>
    where
        T: Drop,
        requires { at < length self.old }
        ensures ok { OnOk result (self.new ≡ slice_set self.old at (arc_value item)) }
        ensures err { OnErr result (self.new ≡ self.old) }
    {
        if let Some(items) = Arc::get_mut(&mut self.items) {
            return items.set_shared(alloc, at, item);
        }
        let mut items = self.items.share(alloc)?;
        items.set_shared(alloc, at, item)?;
        self.items = Arc::new(alloc, items)?;
        Ok(())
    }

    /// Changes the item at a place, counted from 0, where it stands, by the function, and says what that gives. None where
    /// another list holds the item too; then the list stays.
    pub fn change<R, F: FnOnce(&mut T) -> R + Drop>(&mut self, at: usize, change: F) -> Option<R>
        requires place { at < length self.old }
        requires callable { F.IsAlwaysCallable change }
        ensures changed { IfSome result (λ given. IsChangedBy F.FnOnce change at given self.old self.new) }
        ensures kept { IfNone result (self.new ≡ self.old) }
    {
        let Some(items) = Arc::get_mut(&mut self.items) else {
            return None;
        };
        items.change(at, change)
    }

    /// Whether another list holds the item at a place, counted from 0, too.
    pub fn is_shared(&self, at: usize) -> bool
        requires { at < length self.now }
    {
        Arc::strong_count(&self.items) > 1 || self.items.is_shared(at)
    }

    /// The number of items.
    pub fn len(&self) -> usize
        ensures { result ≡ length self.now }
    {
        self.items.len()
    }

    /// The item at a place, counted from 0.
    pub fn at(&self, at: usize) -> &T
        requires { at < length self.now }
        ensures { slice_get self.now at ≡ Some result.now }
    {
        self.items.item(at)
    }

    /// The item at a place, counted from 0, which the caller holds too from then on.
    pub fn shared(&self, at: usize) -> Result<Arc<T, Global>, NoMemory>
        requires { at < length self.now }
        ensures { IfOk result (λ item. slice_get self.now at ≡ Some (arc_value item)) }
    {
        Ok(Arc::try_clone(self.items.item(at))?)
    }
}
