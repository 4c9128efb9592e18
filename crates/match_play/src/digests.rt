//! Digests of texts, for games that compare what their players were told.
ghost use Rattle.std.specs.Prelude.{◌≡◌, IfOk};
ghost use Rattle.match_play.specs.Digests.{digest_of, digest_with, turn_digest};

use answer_text::turn_text;
use nav_types::NoMemory;
use posts::TurnReplies;
use std::alloc::Global;

/// Digests are numbers modulo this: 2^64 - 59, the greatest prime below 2^64.
pub const DIGEST_PRIME: u64 = 18_446_744_073_709_551_557;

/// What 2^64 is modulo the prime.
const EXCESS: u64 = 59;

/// How many numbers have 56 bits.
const TOP: u64 = 72_057_594_037_927_936;

/// How many bytes stand before the text of a turn of one digit: those of `turn 0 `.
const NUMBER_BYTES: usize = 7;

/// The digest of bytes (`digest_of`): the number that they are in base 256, modulo [`DIGEST_PRIME`].
pub fn digest_of(bytes: &[u8]) -> u64
    ensures { result ≡ digest_of bytes.now }
{
    let mut digest = 0;
    for byte in bytes {
        digest = digest_with(digest, *byte);
    }
    digest
}

/// The digest of a turn (`turn_digest`): that of the text of its answers from the word behind its number on.
pub fn turn_digest(alloc: Global, told: &TurnReplies) -> Result<u64, NoMemory>
    ensures { IfOk result (λ digest. digest ≡ turn_digest told.now) }
{
    let text = turn_text(alloc, 0, told)?;
    Ok(digest_of(&text.as_slice()[NUMBER_BYTES..]))
}

/// The digest of one byte more. It goes by what 2^64 is modulo the prime, and divides nothing.
fn digest_with(digest: u64, byte: u8) -> u64
    ensures { result ≡ digest_with digest byte }
{
    let excess = digest / TOP * EXCESS;
    let low = digest % TOP * 256 + u64::from(byte);
    let room = DIGEST_PRIME - excess;
    if low < room {
        return low + excess;
    }
    low - room
}
