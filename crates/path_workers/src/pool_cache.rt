//! The pools that workers keep from turn to turn.
use nav_types::NoMemory;
use std::alloc::Global;
use std::mem;
use turn_core::Pool;

/// Pools of searches that are not in use, for whoever works next. What a search answers does not depend on the pool that it
/// is in, so nothing is said of them: without any, each worker makes its own.
///
/// A pool that has grown large is not kept (`Pool::is_small`), so that one long search does not hold its memory for ever.
#[derive(Drop)]
pub struct PoolCache {
    pools: Vec<Pool>,
}

impl PoolCache {
    /// No pool. It takes no memory.
    pub fn new(alloc: Global) -> PoolCache {
        PoolCache {
            pools: Vec::new(alloc),
        }
    }

    /// A pool that is not in use, or else a new one.
    pub(crate) fn take(&mut self, alloc: Global) -> Result<Pool, NoMemory> {
        match self.pools.pop() {
            Some(pool) => Ok(pool),
            None => Pool::new(alloc),
        }
    }

    /// Keeps a pool for the next, where it is small and there is memory for that.
    pub(crate) fn put(&mut self, pool: Pool) {
        if pool.is_small() {
            let _kept = self.pools.push(pool);
        }
    }

    /// So many of the pools, as far as there are, which are no longer here; none where there is no memory for their list.
    pub(crate) fn split(&mut self, alloc: Global, count: usize) -> PoolCache {
        match self.pools.split_off(self.pools.len().saturating_sub(count)) {
            Ok(pools) => PoolCache { pools },
            Err(_) => PoolCache::new(alloc),
        }
    }

    /// Takes in the pools of the other, where there is memory for that.
    pub(crate) fn take_in(&mut self, mut other: PoolCache) {
        let _kept = self.pools.append(&mut other.pools);
    }

    /// All pools, which are no longer here.
    pub(crate) fn take_all(&mut self, alloc: Global) -> PoolCache {
        mem::replace(self, PoolCache::new(alloc))
    }
}
