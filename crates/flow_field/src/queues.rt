//! A queue of places.
ghost use Rattle.std.specs.Prelude.{◌≡◌, ◌<◌, ◌++◌, ◌∷◌, [], length, slice_index, IfSome, IfNone, OnOk};

use nav_types::NoMemory;
use std::alloc::Global;
use std::marker::Model;

/// Places of a table that wait, the first in the first out. Contracts see the list of those that still wait.
///
/// What was taken out keeps its memory, so that all is written and read in order: a sweep over a map takes each place
/// about once.
#[derive(Drop)]
pub struct FieldQueue {
    places: Vec<u32>,
    head: usize,
}

impl Model for FieldQueue {
    ghost use Rattle.std.specs.Prelude.{ℕ, List, ◌≤◌, drop, length};

    ghost Value = { List ℕ };

    ghost view = { λ q. drop q.head q.places.items };

    ghost invariant = { λ q. q.head ≤ length q.places.items };
}

impl FieldQueue {
    /// The empty queue. It takes no memory yet.
    pub fn new(alloc: Global) -> FieldQueue
        ensures { result ≡ [] }
    {
        FieldQueue {
            places: Vec::new(alloc),
            head: 0,
        }
    }

    /// Puts a place behind the others.
    #[inline(always)]
    pub fn push(&mut self, place: u32) -> Result<(), NoMemory>
        ensures { OnOk result (self.new ≡ self.old ++ place ∷ []) }
    {
        self.places.push(place)?;
        Ok(())
    }

    /// The place that comes first. None exactly where none waits.
    #[inline(always)]
    pub fn first(&self) -> Option<u32>
        ensures some { IfSome result (λ place. 0 < length self.now) }
        ensures first { IfSome result (λ place. place ≡ slice_index self.now 0) }
        ensures none { IfNone result (self.now ≡ []) }
    {
        self.places.get(self.head).copied()
    }

    /// Takes out the place that comes first.
    #[inline(always)]
    pub fn take_first(&mut self) -> u32
        requires { 0 < length self.old }
        ensures { self.old ≡ result ∷ self.new }
    {
        let place = self.places[self.head];
        self.head += 1;
        place
    }
}
