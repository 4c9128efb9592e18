//! Texts of numbers: what a status, a refusal or a fault of a post says, and the version.
ghost use Rattle.std.specs.Prelude.{◌≡◌, codes, length};
ghost use Rattle.pathserve_c.specs.Words.{fault_text, refusal_text, status_text, text_in};

use crate::checks::{NOT_ZERO, WRONG_CALLER, WRONG_CLASS, WRONG_GOAL, WRONG_KIND};
use crate::statuses::{
    BAD_LINE, BAD_VALUE, CLOSED, DONE, ENDED, NO_JOURNAL, NO_MAP, NO_MEMORY, OPEN, OTHER,
    PAST_LIMIT, SMALL, TOO_LONG,
};
use flat_posts::refusals::{
    BAD_SHAPE, DUPLICATE_ID, GOAL_OUTSIDE, START_OUTSIDE, STORE_FULL, UNKNOWN_CLASS, UNKNOWN_ID,
};

/// Writes what a status says, as much as the buffer holds, and answers how many bytes that has.
#[unsafe(no_mangle)]
pub extern "C" fn pathserve_status_text(status: u32, buffer: &mut [u8]) -> usize
    ensures text { buffer.new ≡ text_in (status_text status) buffer.old }
    ensures whole { result ≡ length (status_text status) }
{
    write_text(status_text(status), buffer)
}

/// Writes the word of the answers for why a post is refused, as much as the buffer holds, and answers how many bytes that has.
#[unsafe(no_mangle)]
pub extern "C" fn pathserve_refusal_text(why: u32, buffer: &mut [u8]) -> usize
    ensures text { buffer.new ≡ text_in (refusal_text why) buffer.old }
    ensures whole { result ≡ length (refusal_text why) }
{
    write_text(refusal_text(why), buffer)
}

/// Writes what is wrong with a post that a match does not take, as much as the buffer holds, and answers how many bytes that
/// has.
#[unsafe(no_mangle)]
pub extern "C" fn pathserve_fault_text(why: u32, buffer: &mut [u8]) -> usize
    ensures text { buffer.new ≡ text_in (fault_text why) buffer.old }
    ensures whole { result ≡ length (fault_text why) }
{
    write_text(fault_text(why), buffer)
}

/// Writes the version, as much as the buffer holds, and answers how many bytes that has.
#[unsafe(no_mangle)]
pub extern "C" fn pathserve_version_text(buffer: &mut [u8]) -> usize
    ensures text { buffer.new ≡ text_in (codes "0.1.0") buffer.old }
    ensures whole { result ≡ length (codes "0.1.0") }
{
    write_text(b"0.1.0", buffer)
}

/// Writes a text, as much as the buffer holds, and answers how many bytes the text has.
fn write_text(text: &[u8], buffer: &mut [u8]) -> usize
    ensures text { buffer.new ≡ text_in text.now buffer.old }
    ensures whole { result ≡ length text.now }
{
    if buffer.len() < text.len() {
        let (first, _) = text.split_at(buffer.len());
        buffer.copy_from_slice(first);
    } else {
        buffer[..text.len()].copy_from_slice(text);
    }
    text.len()
}

/// What a status says.
fn status_text(status: u32) -> &'static [u8]
    ensures { result.now ≡ status_text status }
{
    match status {
        DONE => b"done",
        BAD_LINE => b"a line of the script is not valid",
        NO_MEMORY => b"out of memory",
        TOO_LONG => b"a line or the script is too long",
        CLOSED => b"the handle is closed",
        OPEN => b"the handle is open already",
        OTHER => b"the handle is of another kind",
        ENDED => b"the script has ended",
        NO_MAP => b"the map line has not been fed yet",
        BAD_VALUE => b"a value is no such kind, number or size, or an unused field is not 0",
        SMALL => b"the buffer is too small",
        PAST_LIMIT => b"more than the limit that was set",
        NO_JOURNAL => b"the match keeps no journal",
        _ => b"no such status",
    }
}

/// The word of the answers for why a post is refused.
fn refusal_text(why: u32) -> &'static [u8]
    ensures { result.now ≡ refusal_text why }
{
    if why == u32::from(BAD_SHAPE) {
        b"bad-shape"
    } else if why == u32::from(DUPLICATE_ID) {
        b"duplicate-id"
    } else if why == u32::from(STORE_FULL) {
        b"store-full"
    } else if why == u32::from(UNKNOWN_ID) {
        b"unknown-id"
    } else if why == u32::from(UNKNOWN_CLASS) {
        b"unknown-class"
    } else if why == u32::from(START_OUTSIDE) {
        b"start-outside"
    } else if why == u32::from(GOAL_OUTSIDE) {
        b"goal-outside"
    } else {
        b"no such refusal"
    }
}

/// What is wrong with a post that a match does not take.
fn fault_text(why: u32) -> &'static [u8]
    ensures { result.now ≡ fault_text why }
{
    match why {
        WRONG_KIND => b"an unknown kind of posts",
        WRONG_CALLER => b"the map has no such caller",
        WRONG_CLASS => b"the map has no such class",
        WRONG_GOAL => b"an unknown kind of goals",
        NOT_ZERO => b"an unused field is not 0",
        _ => b"no such fault",
    }
}
