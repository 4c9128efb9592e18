//! A list of items in blocks, each of which other lists may share.
ghost use Rattle.std.specs.Prelude.{◌≡◌, ◌++◌, ◌∷◌, ◌<◌, [], length, slice_get, slice_set, Some, IfNone, IfOk, IfSome, OnOk, OnErr};
ghost use Rattle.std.specs.Arc.{arc_value};
ghost use Rattle.shared_list.specs.Changing.{IsChangedBy};

use crate::blocks::{BLOCK, Block, MOST_BLOCKS, replace};
use nav_types::NoMemory;
use std::alloc::Global;
use std::marker::Model;
use std::sync::Arc;

/// A list of items in blocks of 32, with fewer behind them, all of which other lists may share. Contracts see the list.
#[derive(Drop)]
pub struct BlockList<T> {
    blocks: Vec<Arc<Block<T>, Global>>,
    rest: Block<T>,
}

impl<T> Model for BlockList<T> {
    ghost use Rattle.std.specs.Prelude.{List, map};
    ghost use Rattle.std.specs.Arc.{arc_value};
    ghost use Rattle.shared_list.specs.inner.Blocks.{AreBlocks, in_blocks};

    ghost Value = { List T };

    ghost view = { λ s. in_blocks (map arc_value s.blocks.items) s.rest };

    ghost invariant = { λ s. AreBlocks (map arc_value s.blocks.items) s.rest };
}

impl<T> BlockList<T> {
    /// The empty list, with room for so many items.
    pub fn with_capacity(alloc: Global, count: usize) -> Result<BlockList<T>, NoMemory>
    where
        T: Drop,
        ensures { IfOk result (λ list. list ≡ []) }
    {
        Ok(BlockList {
            blocks: Vec::with_capacity(alloc, count / BLOCK)?,
            rest: Block::new(alloc),
        })
    }

    /// Appends an item that others may hold. Where there is no memory, or the list has 2 ^ 32 items, it stays.
    pub fn push_shared(&mut self, alloc: Global, item: Arc<T, Global>) -> Result<(), NoMemory>
    where
        T: Drop,
        ensures ok { OnOk result (self.new ≡ self.old ++ arc_value item ∷ []) }
        ensures err { OnErr result (self.new ≡ self.old) }
    {
        if self.rest.len() + 1 < BLOCK {
            return self.rest.push(item);
        }
        if self.blocks.len() >= MOST_BLOCKS {
            return Err(NoMemory);
        }
        let block = self.rest.with(alloc, item)?;
        self.blocks.push(block)?;
        self.rest = Block::new(alloc);
        Ok(())
    }

    /// The same list, whose blocks both hold from then on.
    pub fn share(&self, alloc: Global) -> Result<BlockList<T>, NoMemory>
    where
        T: Drop,
        ensures { IfOk result (λ list. list ≡ self.now) }
    {
        let mut blocks = Vec::with_capacity(alloc, self.blocks.len())?;
        blocks.extend_with_clones(&self.blocks)?;
        Ok(BlockList {
            blocks,
            rest: self.rest.share(alloc)?,
        })
    }

    /// Puts the item, which others may hold, at a place, counted from 0, where it replaces what stood there. The block in
    /// which it lies is made anew; other lists keep theirs. Where there is no memory the list stays.
    pub fn set_shared(
        &mut self,
        alloc: Global,
        at: usize,
        item: Arc<T, Global>,
    ) -> Result<(), NoMemory>
    where
        T: Drop,
        requires { at < length self.old }
        ensures ok { OnOk result (self.new ≡ slice_set self.old at (arc_value item)) }
        ensures err { OnErr result (self.new ≡ self.old) }
    {
        let place = at / BLOCK;
        if place < self.blocks.len() {
            let mut block = self.blocks[place].share(alloc)?;
            block.set(at % BLOCK, item);
            replace(&mut self.blocks, place, Arc::new(alloc, block)?);
        } else {
            self.rest.set(at - self.blocks.len() * BLOCK, item);
        }
        Ok(())
    }

    /// Changes the item at a place, counted from 0, where it stands, by the function, and says what that gives. None where
    /// another list holds the item too; then the list stays.
    pub fn change<R, F: FnOnce(&mut T) -> R + Drop>(&mut self, at: usize, change: F) -> Option<R>
        requires place { at < length self.old }
        requires callable { F.IsAlwaysCallable change }
        ensures changed { IfSome result (λ given. IsChangedBy F.FnOnce change at given self.old self.new) }
        ensures kept { IfNone result (self.new ≡ self.old) }
    {
        let place = at / BLOCK;
        if place < self.blocks.len() {
            let Some(block) = Arc::get_mut(&mut self.blocks[place]) else {
                return None;
            };
            return block.change(at % BLOCK, change);
        }
        self.rest.change(at - self.blocks.len() * BLOCK, change)
    }

    /// Whether another list holds the item at a place, counted from 0, too.
    pub fn is_shared(&self, at: usize) -> bool
        requires { at < length self.now }
    {
        let block = match self.blocks.get(at / BLOCK) {
            Some(block) => Arc::strong_count(block),
            None => 1,
        };
        block > 1 || Arc::strong_count(self.item(at)) > 1
    }

    /// The number of items.
    pub fn len(&self) -> usize
        ensures { result ≡ length self.now }
    {
        self.blocks.len() * BLOCK + self.rest.len()
    }

    /// The item at a place, counted from 0.
    pub fn item(&self, at: usize) -> &Arc<T, Global>
        requires { at < length self.now }
        ensures { slice_get self.now at ≡ Some (arc_value result.now) }
    {
        let place = at / BLOCK;
        if place < self.blocks.len() {
            self.blocks[place].item(at % BLOCK)
        } else {
            self.rest.item(at - self.blocks.len() * BLOCK)
        }
    }
}
