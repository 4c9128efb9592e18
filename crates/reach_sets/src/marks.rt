//! Places of a row that are marked, by bits, with the number of marked places before each word.
ghost use Rattle.std.specs.Prelude.{ℕ, ◌≡◌, ◌<◌, ◌≤◌, ◌/◌, ◌^◌, ◌||◌, ◌==◌, length, IfOk};
ghost use Rattle.reach_sets.specs.inner.EndMarks.{is_marked, marked_before, AreCounts};

use nav_types::NoMemory;
use std::alloc::Global;
use std::marker::Model;

/// How many places a word has bits for.
pub const WORD: u32 = 64;

/// Marks a place.
pub fn mark(words: &mut [u64], place: u32)
    requires { place / 64 < length words.old }
    ensures { (k : ℕ) → is_marked words.new k ≡ (is_marked words.old k || k == place) }
{
    words[(place / WORD) as usize] |= 1 << (place % WORD);
}

/// The marked places of a row. Contracts see the words with their bits.
#[derive(Drop)]
pub struct EndMarks {
    words: Vec<u64>,
    // for each word how many places are marked before its own
    before: Vec<u32>,
}

impl Model for EndMarks {
    ghost use Rattle.std.specs.Prelude.{ℕ, List};
    ghost use Rattle.reach_sets.specs.inner.EndMarks.{AreCounts};

    ghost Value = { List ℕ };

    ghost view = { λ m. m.words.items };

    ghost invariant = { λ m. AreCounts m.words.items m.before.items };
}

impl EndMarks {
    /// The marks of these words.
    pub fn new(alloc: Global, words: Vec<u64>) -> Result<EndMarks, NoMemory>
        requires { length words.items ≤ 2 ^ 26 }
        ensures { IfOk result (λ marks. marks ≡ words.items) }
    {
        let before = counts_before(alloc, &words)?;
        Ok(EndMarks { words, before })
    }

    /// How many places before this one are marked.
    pub fn before(&self, place: u32) -> u32
        requires { place / 64 < length self.now }
        ensures { result ≡ marked_before self.now place }
    {
        let word = (place / WORD) as usize;
        let below = (1 << (place % WORD)) - 1;
        self.before[word] + (self.words[word] & below).count_ones()
    }

    /// Whether the place is marked.
    pub fn is_marked(&self, place: u32) -> bool
        requires { place / 64 < length self.now }
        ensures { result ≡ is_marked self.now place }
    {
        let _ = &self.before;
        (self.words[(place / WORD) as usize] >> (place % WORD)) & 1 == 1
    }
}

/// For each word how many places are marked before its own.
fn counts_before(alloc: Global, words: &[u64]) -> Result<Vec<u32>, NoMemory>
    requires { length words.now ≤ 2 ^ 26 }
    ensures { IfOk result (λ before. AreCounts words.now before.items) }
{
    let mut before = Vec::with_capacity(alloc, words.len())?;
    let mut count: u64 = 0;
    for word in words {
        before.push_reserved(count as u32);
        count += u64::from(word.count_ones());
    }
    Ok(before)
}
