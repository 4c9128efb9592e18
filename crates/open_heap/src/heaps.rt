//! The open list.
ghost use Rattle.std.specs.Prelude.{◌≡◌, ◌↔◌, ◌≤◌, ◌<◌, ◌^◌, ℕ, length, None, IsTrue, IsSomeAnd, IfSome, IfNone, IfOk};
ghost use Rattle.std.specs.Prelude.{OnOk, OnErr};
ghost use Rattle.std.specs.FinMap as map;
ghost use Rattle.open_heap.specs.Queue.{IsLeast};
ghost use Rattle.open_heap.specs.inner.Buckets.{estimate_at};

use crate::buckets::{Buckets, known_estimate, reserve_far};
use crate::entries::Entry;
use nav_types::NoMemory;
use std::alloc::Global;
use std::marker::Model;

/// The open list of a search: each of its keys once, with an estimate. An entry of least estimate is taken out, and the
/// estimate of each key can be lowered.
///
/// Contracts see the finite map from key to estimate (`Queue`). It is made of buckets, in the exact order of estimates,
/// and each adding, lowering and taking out looks at few entries. A lowered key gets a further entry, and its earlier
/// one is left out when it is met. A key is a number from 0, in the order in which a search meets its states: the list
/// keeps a place for each number up to the greatest key that it has had. It keeps one for each bucket too, so that
/// estimates should lie near to one another: within some million steps.
#[derive(Debug, Drop)]
pub struct OpenHeap {
    buckets: Buckets,
    estimates: Vec<Option<u64>>,
    count: usize,
}

impl Model for OpenHeap {
    ghost use Rattle.std.specs.FinMap as map;
    ghost use Rattle.std.specs.Coded.{coded_ℕ};
    ghost use Rattle.open_heap.specs.Queue.{Queue};

    ghost Value = { Queue };

    ghost coded = { map.code coded_ℕ coded_ℕ };

    ghost use Rattle.open_heap.specs.inner.Buckets.{queue_of, HasEach};

    ghost view = { λ h. queue_of h.estimates.items };

    ghost invariant = { λ h. HasEach h.count h.buckets.start h.buckets.reached h.buckets.later.items
        h.buckets.here.items h.estimates.items };
}

/// For how many further keys there are places where a key lacks one.
const MORE: usize = 64;

/// Makes room for the estimate of the key, and of some more.
fn make_room(estimates: &mut Vec<Option<u64>>, key: u32) -> Result<(), NoMemory>
    ensures same { (other : ℕ) → estimate_at estimates.new.items other ≡ estimate_at estimates.old.items other }
    ensures key { OnOk result (key < length estimates.new.items) }
    ensures few { length estimates.new.items < 2 ^ 64 }
{
    if estimates.len() <= key as usize {
        reserve_far(estimates, key as usize + MORE)?;
        estimates.resize(key as usize + MORE, None)?;
    }
    Ok(())
}

impl OpenHeap {
    /// The list without a key.
    pub fn new(alloc: Global) -> Result<OpenHeap, NoMemory>
        ensures { IfOk result (λ heap. heap ≡ map.empty) }
    {
        Ok(OpenHeap {
            buckets: Buckets::new(alloc),
            estimates: Vec::new(alloc),
            count: 0,
        })
    }

    /// How many keys the list has.
    pub fn len(&self) -> usize
        ensures { result ≡ map.len self.now }
    {
        self.count
    }

    /// Whether the list has no key.
    pub fn is_empty(&self) -> bool
        ensures { IsTrue result ↔ (self.now ≡ map.empty) }
    {
        self.count == 0
    }

    /// The estimate of the key. None exactly where the list does not have it.
    pub fn get(&self, key: u32) -> Option<u64>
        ensures { result ≡ map.get self.now key }
    {
        known_estimate(&self.estimates, key)
    }

    /// Takes out every key. It takes no memory, and keeps the room that the list has for more.
    pub fn clear(&mut self)
        ensures { self.new ≡ map.empty }
    {
        self.buckets.restart(u64::MAX);
        self.estimates.clear();
        self.count = 0;
    }

    /// Adds a key that the list does not have, with its estimate. Where there is no memory the list stays.
    #[inline(always)]
    pub fn push(&mut self, key: u32, estimate: u64) -> Result<(), NoMemory>
        requires { map.get self.old key ≡ None }
        ensures added { OnOk result (self.new ≡ map.insert self.old key estimate) }
        ensures kept { OnErr result (self.new ≡ self.old) }
    {
        make_room(&mut self.estimates, key)?;
        self.buckets.add(Entry { estimate, key })?;
        self.estimates[key as usize] = Some(estimate);
        self.count += 1;
        Ok(())
    }

    /// Gives a key that the list has an estimate that is not more than its own. Where there is no memory the list stays.
    pub fn lower(&mut self, key: u32, estimate: u64) -> Result<(), NoMemory>
        requires { IsSomeAnd (map.get self.old key) (λ known. estimate ≤ known) }
        ensures lowered { OnOk result (self.new ≡ map.insert self.old key estimate) }
        ensures kept { OnErr result (self.new ≡ self.old) }
    {
        let entry = Entry { estimate, key };
        self.buckets.add(entry)?;
        self.estimates[key as usize] = Some(entry.estimate);
        Ok(())
    }

    /// Takes out a key, where the list has it. It takes no memory.
    pub fn remove(&mut self, key: u32)
        ensures { self.new ≡ map.remove self.old key }
    {
        if self.get(key).is_some() {
            self.estimates[key as usize] = None;
            self.count -= 1;
        }
    }

    /// An entry of least estimate. None exactly where the list is empty. It takes no memory, and the list stays: what is
    /// no longer the entry of its key is left out on the way.
    pub fn peek_least(&mut self) -> Option<Entry>
        ensures least { IfSome result (IsLeast self.old) }
        ensures none { IfNone result (self.old ≡ map.empty) }
        ensures kept { self.new ≡ self.old }
    {
        self.buckets.least(&self.estimates)
    }

    /// Takes out an entry of least estimate. It takes no memory.
    #[inline(always)]
    pub fn pop_least(&mut self) -> Option<Entry>
        ensures least { IfSome result (IsLeast self.old) }
        ensures rest { IfSome result (λ entry. self.new ≡ map.remove self.old entry.key) }
        ensures none { IfNone result (self.old ≡ map.empty) }
        ensures kept { IfNone result (self.new ≡ map.empty) }
    {
        let Some(entry) = self.buckets.least(&self.estimates) else {
            return None;
        };
        self.buckets.take_last();
        self.estimates[entry.key as usize] = None;
        self.count -= 1;
        Some(entry)
    }
}
