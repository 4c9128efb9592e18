//! Blocks of items that lists share together.
ghost use Rattle.std.specs.Prelude.{◌≡◌, ◌++◌, ◌∷◌, ◌<◌, [], length, slice_get, slice_set, Some, IfOk, OnOk};
ghost use Rattle.std.specs.Prelude.{IfNone, IfSome, OnErr};
ghost use Rattle.std.specs.Arc.{arc_value};
ghost use Rattle.shared_list.specs.Changing.{IsChangedBy};

use nav_types::NoMemory;
use std::alloc::Global;
use std::marker::Model;
use std::sync::Arc;

/// The number of items of a whole block.
pub const BLOCK: usize = 32;

/// The greatest number of whole blocks of a list.
pub const MOST_BLOCKS: usize = 1 << 27;

/// At most 32 items, each of which other blocks may hold. Contracts see the list of the items.
#[derive(Drop)]
pub struct Block<T> {
    items: Vec<Arc<T, Global>>,
}

impl<T> Model for Block<T> {
    ghost use Rattle.std.specs.Prelude.{List, map};
    ghost use Rattle.std.specs.Arc.{arc_value};

    ghost Value = { List T };

    ghost view = { λ b. map arc_value b.items.items };
}

impl<T> Block<T> {
    /// The block without items. It takes no memory yet.
    pub fn new(alloc: Global) -> Block<T>
        ensures { result ≡ [] }
    {
        Block {
            items: Vec::new(alloc),
        }
    }

    /// The number of items.
    pub fn len(&self) -> usize
        ensures { result ≡ length self.now }
    {
        self.items.len()
    }

    /// Appends an item that others may hold. Where there is no memory the block stays.
    pub fn push(&mut self, item: Arc<T, Global>) -> Result<(), NoMemory>
    where
        T: Drop,
        ensures ok { OnOk result (self.new ≡ self.old ++ arc_value item ∷ []) }
        ensures err { OnErr result (self.new ≡ self.old) }
    {
        self.items.push(item)?;
        Ok(())
    }

    /// Puts the item at a place, counted from 0, where it replaces what stood there.
    pub fn set(&mut self, at: usize, item: Arc<T, Global>)
    where
        T: Drop,
        requires { at < length self.old }
        ensures { self.new ≡ slice_set self.old at (arc_value item) }
    {
        self.items[at] = item;
    }

    /// Changes the item at a place, counted from 0, by the function, and says what that gives. None where others hold the
    /// item; then the block stays.
    pub fn change<R, F: FnOnce(&mut T) -> R + Drop>(&mut self, at: usize, change: F) -> Option<R>
        requires place { at < length self.old }
        requires callable { F.IsAlwaysCallable change }
        ensures changed { IfSome result (λ given. IsChangedBy F.FnOnce change at given self.old self.new) }
        ensures kept { IfNone result (self.new ≡ self.old) }
    {
        let Some(item) = Arc::get_mut(&mut self.items[at]) else {
            return None;
        };
        Some(change(item))
    }

    /// The same items, which both blocks hold from then on.
    pub fn share(&self, alloc: Global) -> Result<Block<T>, NoMemory>
    where
        T: Drop,
        ensures { IfOk result (λ block. block ≡ self.now) }
    {
        let mut items = Vec::with_capacity(alloc, BLOCK)?;
        items.extend_with_clones(&self.items)?;
        Ok(Block { items })
    }

    /// These items and one more, as a block that others may hold.
    pub fn with(
        &self,
        alloc: Global,
        item: Arc<T, Global>,
    ) -> Result<Arc<Block<T>, Global>, NoMemory>
    where
        T: Drop,
        ensures { IfOk result (λ block. arc_value block ≡ self.now ++ arc_value item ∷ []) }
    {
        let mut block = self.share(alloc)?;
        block.push(item)?;
        Ok(Arc::new(alloc, block)?)
    }

    /// The item at a place, counted from 0.
    pub fn item(&self, at: usize) -> &Arc<T, Global>
        requires { at < length self.now }
        ensures { slice_get self.now at ≡ Some (arc_value result.now) }
    {
        &self.items[at]
    }
}

/// Puts the block at a place among the others.
pub fn replace<T: Drop>(
    blocks: &mut Vec<Arc<Block<T>, Global>>,
    at: usize,
    block: Arc<Block<T>, Global>,
)
    requires { at < length blocks.old.items }
    ensures { blocks.new.items ≡ slice_set blocks.old.items at block }
{
    blocks[at] = block;
}
