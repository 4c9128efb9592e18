//! Which word of a command line is wrong.
ghost use Rattle.std.specs.Prelude.{◌≡◌, ◌↔◌, ◌≤◌, IfSome, IsSome, None};
ghost use Rattle.pathserve.specs.Commands.{command_of};
ghost use Rattle.pathserve.specs.WrongWords.{IsFirstWrong};
ghost use Rattle.pathserve.specs.inner.WordPlaces.{wrong_at, wrong_behind_make, wrong_option, wrong_count};

use crate::commands::{is_script_word, seed_of, worker_count};
use nav_types::{Bytes, Words};

/// The number, from 1, of the first word that is wrong: with the words up to it no command begins (`IsFirstWrong`). One
/// more than there are words where the command goes on behind them. None exactly where the words are in the grammar.
#[tactic(auto, using(crate::proofs::WrongWords::is_first_wrong, crate::proofs::WrongWords::none_wrong))]
pub fn first_wrong(words: &Words) -> Option<u64>
    ensures first { IfSome result (IsFirstWrong words.now) }
    ensures none { (result ≡ None) ↔ IsSome (command_of words.now) }
{
    wrong_at(words.as_slice())
}

/// The first wrong word of a whole command line.
fn wrong_at(words: &[Bytes]) -> Option<u64>
    ensures { result ≡ wrong_at words.now }
{
    match words {
        [] => Some(1),
        [word, behind @ ..] => {
            let word = word.as_slice();
            if word == b"make".as_slice() {
                wrong_behind_make(behind)
            } else if is_script_word(word) {
                wrong_option(behind, 2)
            } else {
                Some(1)
            }
        }
    }
}

/// The first wrong word of those behind `make`.
fn wrong_behind_make(words: &[Bytes]) -> Option<u64>
    ensures { result ≡ wrong_behind_make words.now }
{
    match words {
        [] => Some(2),
        [number, behind @ ..] => {
            if seed_of(number.as_slice()).is_some() {
                wrong_option(behind, 3)
            } else {
                Some(2)
            }
        }
    }
}

/// The first wrong word of those behind a command, the first of them being the word of this number.
fn wrong_option(words: &[Bytes], place: u64) -> Option<u64>
    requires few { place ≤ 3 }
    ensures { result ≡ wrong_option words.now place }
{
    match words {
        [] => None,
        [option, behind @ ..] => {
            if option.as_slice() == b"--workers".as_slice() {
                wrong_count(behind, place + 1)
            } else {
                Some(place)
            }
        }
    }
}

/// The same of those behind `--workers`.
fn wrong_count(words: &[Bytes], place: u64) -> Option<u64>
    requires few { place ≤ 4 }
    ensures { result ≡ wrong_count words.now place }
{
    match words {
        [] => Some(place),
        [count, behind @ ..] => {
            if worker_count(count.as_slice()).is_none() {
                Some(place)
            } else if behind.is_empty() {
                None
            } else {
                Some(place + 1)
            }
        }
    }
}
