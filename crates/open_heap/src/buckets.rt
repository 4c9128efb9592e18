//! Entries by buckets of estimates.
ghost use Rattle.std.specs.Prelude.{◌≡◌, ◌↔◌, ◌<◌, ◌≤◌, ◌+◌, ℕ, length, Contains, slice_index_or, IsTrue, vec_len};
ghost use Rattle.std.specs.Prelude.{vec_capacity, slice_index, OnOk, ◌^◌};
ghost use Rattle.open_heap.specs.declared.entries.Entry.{Entry};
ghost use Rattle.open_heap.specs.inner.Buckets.{estimate_at, IsLive, AreFalling, AreBuckets};
ghost use Rattle.open_heap.specs.inner.Buckets.{IsChain, AreGathered};

use crate::entries::Entry;
use nav_types::NoMemory;

/// How wide the estimates of a bucket lie: a quarter of what a straight step costs.
pub const WIDTH: u64 = 16384;

/// For how many further buckets there are places where a bucket lacks one.
const MORE: usize = 256;

/// An entry of a later bucket, with one more than the number of the last one of its bucket before it; 0 for none.
#[derive(Clone, Copy, Debug)]
pub struct Waiting {
    pub estimate: u64,
    pub key: u32,
    pub next: u32,
}

/// The entries of the current bucket and those of later ones.
///
/// Bucket 0 has the estimates up to one width past `start`, and each further bucket those of one width more. The
/// buckets before the number `reached` have been reached, and the last of them is the current one. What stands in `here`
/// is of a bucket that has been reached, and the estimates fall, so that the least is the last. In `later` are the
/// entries that were added to later buckets, in the order in which they came. A bucket leads to the last of its own by
/// its head, and that to the one before it, and so on. Entries of buckets that were reached since are left there, and
/// are no longer looked at.
#[derive(Debug, Drop)]
pub struct Buckets {
    pub start: u64,
    pub reached: usize,
    pub heads: Vec<u32>,
    pub later: Vec<Waiting>,
    pub here: Vec<Entry>,
    pub ghost sound: { AreBuckets start reached heads.items later.items here.items (vec_capacity here) },
}

/// The estimate that the key has.
pub fn known_estimate(estimates: &[Option<u64>], key: u32) -> Option<u64>
    ensures { result ≡ estimate_at estimates.now key }
{
    match estimates.get(key as usize) {
        Some(known) => *known,
        None => None,
    }
}

/// Whether the entry is its key's.
pub fn is_live(estimates: &[Option<u64>], entry: Entry) -> bool
    ensures { IsTrue result ↔ IsLive estimates.now entry }
{
    match estimates.get(entry.key as usize) {
        Some(Some(estimate)) => *estimate == entry.estimate,
        Some(None) => false,
        None => false,
    }
}

/// The place of the estimate among entries of falling estimates: behind those that are not less.
pub fn place_of(entries: &[Entry], estimate: u64) -> usize
    requires { AreFalling entries.now }
    ensures inside { result ≤ length entries.now }
    ensures before { (place : ℕ) (d : Entry) → place < result
        → estimate ≤ (slice_index_or entries.now place d).estimate }
    ensures behind { (place : ℕ) (d : Entry) → result ≤ place → place < length entries.now
        → (slice_index_or entries.now place d).estimate ≤ estimate }
{
    let mut least = 0;
    let mut most = entries.len();
    'halve: while least < most {
        let middle = least + (most - least) / 2;
        if entries[middle].estimate < estimate {
            most = middle;
        } else {
            least = middle + 1;
        }
    }
    most
}

/// Appends the entry before the number `end`, and those that are linked from there.
#[inline(always)]
pub fn gather(later: &[Waiting], end: u32, here: &mut Vec<Entry>)
    requires chain { (start : ℕ) × ((bucket : ℕ) × IsChain start later.now bucket end) }
    requires room { vec_len here.old + end ≤ vec_capacity here.old }
    ensures gathered { (start bucket : ℕ) → IsChain start later.now bucket end
        → AreGathered start later.now bucket here.old.items here.new.items }
    ensures capacity { vec_capacity here.new ≡ vec_capacity here.old }
{
    let mut after = end;
    'walk: while after > 0 {
        let waiting = later[(after - 1) as usize];
        here.push_reserved(Entry {
            estimate: waiting.estimate,
            key: waiting.key,
        });
        after = waiting.next;
    }
}

/// Makes room for so many items in all. The room grows fourfold, since items are moved each time.
pub fn reserve_far<T>(list: &mut Vec<T>, all: usize) -> Result<(), NoMemory>
    ensures items { list.new.items ≡ list.old.items }
    ensures room { OnOk result (all ≤ vec_capacity list.new) }
    ensures capacity { vec_capacity list.old ≤ vec_capacity list.new }
{
    if list.capacity() < all {
        list.reserve(all.max(list.len().saturating_mul(4)) - list.len())?;
    }
    Ok(())
}

/// Makes places for the buckets up to the number, and for some more.
pub fn make_places(heads: &mut Vec<u32>, bucket: usize) -> Result<(), NoMemory>
    requires { bucket < 2 ^ 63 }
    ensures same { (other : ℕ) → slice_index heads.new.items other ≡ slice_index heads.old.items other }
    ensures known { OnOk result (bucket < length heads.new.items) }
{
    if heads.len() <= bucket {
        reserve_far(heads, bucket + MORE)?;
        heads.resize(bucket + MORE, 0)?;
    }
    Ok(())
}

/// Puts entries in the order of falling estimates. Most buckets of a search in narrow ways have one entry.
#[inline(always)]
pub fn sort_falling(entries: &mut Vec<Entry>)
    ensures falling { AreFalling entries.new.items }
    ensures same { (entry : Entry) → Contains entries.new.items entry ↔ Contains entries.old.items entry }
    ensures capacity { vec_capacity entries.new ≡ vec_capacity entries.old }
{
    if entries.len() > 1 {
        entries.sort_unstable_by(|one, other| other.estimate.cmp(&one.estimate));
    }
}
