//! Adding entries to buckets, and taking the least out.
ghost use Rattle.std.specs.Prelude.{◌≡◌, ◌<◌, ◌≤◌, ◌+◌, ◌-◌, ◌⊎◌, [], ℕ, length, Contains, slice_get, slice_index, slice_index_or};
ghost use Rattle.std.specs.Prelude.{IfSome, IfNone, IsTrue, OnOk, Some, vec_len, vec_capacity, ◌^◌};
ghost use Rattle.open_heap.specs.declared.entries.Entry.{Entry};
ghost use Rattle.open_heap.specs.inner.Buckets.{bucket_of, IsLive};
ghost use Rattle.open_heap.specs.inner.Held.{Holds, HasRoom};

use crate::buckets::{
    Buckets, WIDTH, Waiting, gather, is_live, make_places, place_of, reserve_far, sort_falling,
};
use crate::entries::Entry;
use nav_types::NoMemory;
use std::alloc::Global;

impl Buckets {
    /// No entry.
    pub fn new(alloc: Global) -> Buckets {
        Buckets {
            start: u64::MAX,
            reached: 1,
            heads: Vec::new(alloc),
            later: Vec::new(alloc),
            here: Vec::new(alloc),
        }
    }

    /// Takes out all entries. Buckets are counted from the estimate.
    pub fn restart(&mut self, start: u64) {
        self.start = start;
        self.reached = 1;
        self.heads.clear();
        self.later.clear();
        self.here.clear();
    }

    /// The bucket of an estimate.
    fn bucket_of(&self, estimate: u64) -> usize
        ensures { result ≡ bucket_of self.now.start estimate }
    {
        (estimate.saturating_sub(self.start) / WIDTH) as usize
    }

    /// Adds an entry of the current bucket, or of an earlier one, at its place.
    #[inline(never)]
    fn insert_here(&mut self, entry: Entry) -> Result<(), NoMemory>
        requires { bucket_of self.old.start entry.estimate < self.old.reached }
        ensures added { OnOk result (Holds self.new entry) }
        ensures kept { (other : Entry) → Holds self.old other → Holds self.new other }
    {
        let place = place_of(&self.here, entry.estimate);
        self.here.insert(place, entry)?;
        Ok(())
    }

    /// Whether the entry can be appended to the current bucket: there is room, and no entry is less.
    #[inline(always)]
    fn ends_here(&self, entry: Entry) -> bool
        ensures room { IsTrue result → vec_len self.now.here < vec_capacity self.now.here }
        ensures last { IsTrue result → (place : ℕ) (d : Entry) → place + 1 ≡ length self.now.here.items
            → entry.estimate ≤ (slice_index_or self.now.here.items place d).estimate }
    {
        if self.here.len() == self.here.capacity() {
            return false;
        }
        match self.here.last() {
            Some(last) => entry.estimate <= last.estimate,
            None => true,
        }
    }

    /// Adds an entry of the current bucket, or of an earlier one.
    #[inline(always)]
    fn add_here(&mut self, entry: Entry) -> Result<(), NoMemory>
        requires { bucket_of self.old.start entry.estimate < self.old.reached }
        ensures added { OnOk result (Holds self.new entry) }
        ensures kept { (other : Entry) → Holds self.old other → Holds self.new other }
    {
        if self.ends_here(entry) {
            self.here.push_reserved(entry);
            return Ok(());
        }
        self.insert_here(entry)
    }

    /// Adds an entry of a later bucket, for which there is room.
    #[inline(always)]
    fn link(&mut self, bucket: usize, entry: Entry)
        requires bucket { bucket ≡ bucket_of self.old.start entry.estimate }
        requires later { self.old.reached ≤ bucket }
        requires room { HasRoom self.old bucket }
        ensures added { Holds self.new entry }
        ensures kept { (other : Entry) → Holds self.old other → Holds self.new other }
    {
        let after = self.later.len() as u32 + 1;
        let next = self.heads[bucket];
        self.heads[bucket] = after;
        self.later.push_reserved(Waiting {
            estimate: entry.estimate,
            key: entry.key,
            next,
        });
    }

    /// Whether there is room for one more entry in the later bucket.
    #[inline(always)]
    fn has_room(&self, bucket: usize) -> bool
        ensures { IsTrue result → HasRoom self.now bucket }
    {
        let number = self.later.len();
        bucket < self.heads.len()
            && number < u32::MAX as usize
            && number < self.later.capacity()
            && number < self.here.capacity()
    }

    /// Makes room for one more entry in the later bucket.
    fn make_room(&mut self, bucket: usize) -> Result<(), NoMemory>
        requires { bucket < 2 ^ 63 }
        ensures start { self.new.start ≡ self.old.start }
        ensures reached { self.new.reached ≡ self.old.reached }
        ensures heads { (other : ℕ) → slice_index self.new.heads.items other ≡ slice_index self.old.heads.items other }
        ensures later { self.new.later.items ≡ self.old.later.items }
        ensures here { self.new.here.items ≡ self.old.here.items }
        ensures room { OnOk result (HasRoom self.new bucket) }
    {
        let number = self.later.len();
        if number >= u32::MAX as usize {
            return Err(NoMemory);
        }
        reserve_far(&mut self.later, number + 1)?;
        reserve_far(&mut self.here, self.later.capacity())?;
        make_places(&mut self.heads, bucket)
    }

    /// Adds an entry of a later bucket, for which room is made.
    #[inline(never)]
    fn add_with_room(&mut self, bucket: usize, entry: Entry) -> Result<(), NoMemory>
        requires bucket { bucket ≡ bucket_of self.old.start entry.estimate }
        requires later { self.old.reached ≤ bucket }
        ensures added { OnOk result (Holds self.new entry) }
        ensures kept { (other : Entry) → Holds self.old other → Holds self.new other }
    {
        self.make_room(bucket)?;
        self.link(bucket, entry);
        Ok(())
    }

    /// Adds an entry of a later bucket.
    #[inline(always)]
    fn add_later(&mut self, bucket: usize, entry: Entry) -> Result<(), NoMemory>
        requires bucket { bucket ≡ bucket_of self.old.start entry.estimate }
        requires later { self.old.reached ≤ bucket }
        ensures added { OnOk result (Holds self.new entry) }
        ensures kept { (other : Entry) → Holds self.old other → Holds self.new other }
    {
        if self.has_room(bucket) {
            self.link(bucket, entry);
            return Ok(());
        }
        self.add_with_room(bucket, entry)
    }

    /// Where no entry is left and none has come to a later bucket, buckets are counted from the estimate, or from one
    /// before it. The first entry of all is the first of its bucket.
    fn rebase(&mut self, estimate: u64)
        ensures kept { (other : Entry) → Holds self.old other → Holds self.new other }
    {
        if self.heads.is_empty() && self.here.is_empty() {
            self.restart(estimate.min(self.start));
        }
    }

    /// Adds an entry. Where there is no memory the others stay.
    #[inline(always)]
    pub fn add(&mut self, entry: Entry) -> Result<(), NoMemory>
        ensures added { OnOk result (Holds self.new entry) }
        ensures kept { (other : Entry) → Holds self.old other → Holds self.new other }
    {
        self.rebase(entry.estimate);
        let bucket = self.bucket_of(entry.estimate);
        if bucket < self.reached {
            self.add_here(entry)
        } else {
            self.add_later(bucket, entry)
        }
    }

    /// The last entry of the current bucket, where there is one that is its key's. Those behind it are taken out.
    #[inline(always)]
    fn last_live(&mut self, estimates: &[Option<u64>]) -> Option<Entry>
        ensures live { IfSome result (IsLive estimates.now) }
        ensures last { IfSome result (λ entry. slice_get self.new.here.items (length self.new.here.items - 1)
            ≡ Some entry) }
        ensures kept { (other : Entry) → IsLive estimates.now other → Contains self.old.here.items other
            → Contains self.new.here.items other }
        ensures none { IfNone result (self.new.here.items ≡ []) }
        ensures reached { self.new.reached ≡ self.old.reached }
        ensures start { self.new.start ≡ self.old.start }
        ensures later { self.new.later.items ≡ self.old.later.items }
        ensures heads { self.new.heads.items ≡ self.old.heads.items }
    {
        'stale: while let Some(entry) = self.here.last().copied() {
            if is_live(estimates, entry) {
                return Some(entry);
            }
            self.here.pop();
        }
        None
    }

    /// The first of the later buckets that has entries.
    #[inline(always)]
    fn next_bucket(&self) -> Option<usize>
        ensures some { IfSome result (λ bucket. (self.now.reached ≤ bucket) × (bucket < length self.now.heads.items)) }
        ensures first { IfSome result (λ bucket. (other : ℕ) → self.now.reached ≤ other → other < bucket
            → slice_index self.now.heads.items other ≡ 0) }
        ensures none { IfNone result ((other : ℕ) → self.now.reached ≤ other
            → slice_index self.now.heads.items other ≡ 0) }
    {
        for bucket in self.reached..self.heads.len() {
            if self.heads[bucket] > 0 {
                return Some(bucket);
            }
        }
        None
    }

    /// Makes a later bucket the current one, where all before it are empty.
    #[inline(always)]
    fn take_bucket(&mut self, bucket: usize)
        requires done { self.old.here.items ≡ [] }
        requires later { self.old.reached ≤ bucket }
        requires known { bucket < length self.old.heads.items }
        requires first { (other : ℕ) → self.old.reached ≤ other → other < bucket
            → slice_index self.old.heads.items other ≡ 0 }
        ensures kept { (other : Entry) → Holds self.old other → Holds self.new other }
        ensures reached { self.new.reached ≡ bucket + 1 }
        ensures heads { length self.new.heads.items ≡ length self.old.heads.items }
    {
        gather(&self.later, self.heads[bucket], &mut self.here);
        sort_falling(&mut self.here);
        self.reached = bucket + 1;
    }

    /// An entry of least estimate of those that are their keys'. Those found before it that are not are taken out.
    #[inline(always)]
    pub fn least(&mut self, estimates: &[Option<u64>]) -> Option<Entry>
        ensures live { IfSome result (IsLive estimates.now) }
        ensures last { IfSome result (λ entry. slice_get self.new.here.items (length self.new.here.items - 1)
            ≡ Some entry) }
        ensures first { IfSome result (λ entry. (other : Entry) → IsLive estimates.now other
            → Holds self.old other
            → entry.estimate ≤ other.estimate) }
        ensures kept { (other : Entry) → IsLive estimates.now other
            → Holds self.old other
            → Holds self.new other }
        ensures none { IfNone result ((other : Entry) → IsLive estimates.now other
            → Holds self.old other → ⊥) }
    {
        'take: loop {
            if let Some(entry) = self.last_live(estimates) {
                return Some(entry);
            }
            let Some(bucket) = self.next_bucket() else {
                return None;
            };
            self.take_bucket(bucket);
        }
    }

    /// Takes out the last entry of the current bucket.
    pub fn take_last(&mut self)
        ensures kept { (last other : Entry)
            → slice_get self.old.here.items (length self.old.here.items - 1) ≡ Some last
            → Holds self.old other
            → (last ≡ other) ⊎ Holds self.new other }
    {
        self.here.pop();
    }
}
