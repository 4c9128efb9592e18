//! A queue of places.

use nav_types::{Dir, NoMemory};
use std::alloc::Global;

/// A place that a step reached, with the mark that it got and the step's direction.
#[derive(Clone, Copy)]
pub struct Reached {
    pub place: u32,
    pub mark: u16,
    pub arrived: Dir,
}

/// Places that wait, the first in the first out. What was taken out keeps its memory, so that all is written and read in
/// order.
#[derive(Drop)]
pub struct TableQueue {
    places: Vec<Reached>,
    head: usize,
}

impl TableQueue {
    /// The empty queue. It takes no memory yet.
    pub fn new(alloc: Global) -> TableQueue {
        TableQueue {
            places: Vec::new(alloc),
            head: 0,
        }
    }

    /// The same places once more, without those that were taken out.
    pub fn copy(&self, alloc: Global) -> Result<TableQueue, NoMemory> {
        let gone = self.head.min(self.places.len());
        Ok(TableQueue {
            places: Vec::from_slice(alloc, &self.places.as_slice()[gone..])?,
            head: 0,
        })
    }

    /// Puts a place behind the others.
    #[inline(always)]
    pub fn push(&mut self, reached: Reached) -> Result<(), NoMemory> {
        self.places.push(reached)?;
        Ok(())
    }

    /// The place that comes first. None where none waits.
    #[inline(always)]
    pub fn first(&self) -> Option<Reached> {
        self.places.get(self.head).copied()
    }

    /// Takes out the place that comes first.
    #[inline(always)]
    pub fn drop_first(&mut self) {
        if self.head < self.places.len() {
            self.head += 1;
        }
    }
}
