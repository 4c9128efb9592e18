//! Scripts whose bytes are pushed.
ghost use Rattle.std.specs.Prelude.{◌≡◌, ◌+◌, ◌≤◌, [], length, false, IfErr, IsFalse, IsSome, IsTrue, IsErrOf, OnErr, OnOk};
ghost use Rattle.std.specs.Prelude.{IfOk, IfSome, Some};
ghost use Rattle.nav_types.specs.declared.limits.TheConstants.{MAX_INPUT_BYTES, MAX_LINE_BYTES};
ghost use Rattle.input_lines.specs.Lines.{IsPlain};
ghost use Rattle.input_lines.specs.Held.{after_line, bytes_of};
ghost use Rattle.input_lines.specs.Pushed.{PushAnswer};
ghost use Rattle.script_text.specs.Script.{accept, counted, finish};
ghost use Rattle.script_text.specs.Reader.{HaveLinesAt, HoldsRefused, held_cause, rules_at, taken_bytes};
ghost use Rattle.script_text.specs.Items.{HasFewPosts};
ghost use Rattle.script_text.specs.Led.{LedBy};
ghost use Rattle.script_text.specs.Pushed.{EndTold, KeepsRules, PushTold, TakenUpTo, is_refused};
ghost use Rattle.script_text.specs.inner.Judging.{EndsHere, GivesItem, HasFewerPosts, IsBadAt, cause_of_held, held_at};

use crate::causes::Cause;
use crate::faults::ScriptFault;
use crate::items::ScriptItem;
use crate::progress::Progress;
use input_lines::{LineFault, PushedLine};
use nav_types::NoMemory;
use std::alloc::Global;
use std::marker::Model;

/// Reads a script whose bytes are pushed in pieces that are cut anywhere. It keeps the beginning of one line, and hands
/// out what each whole line gives.
///
/// Contracts see it as they see a reader: the place that it has come to, the bytes that no line has used yet, whether
/// the input has ended, and whether it was refused.
///
/// ```
/// let mut script = PushedScript::new(alloc);
/// for piece in pieces {
///     let mut bytes = piece;
///     while let Some(item) = script.next(alloc, &mut bytes)? {
///         play(item)?;
///     }
/// }
/// while let Some(item) = script.finish(alloc)? {
///     play(item)?;
/// }
/// ```
#[derive(Drop)]
pub struct PushedScript {
    line: PushedLine,
    progress: Progress,
    ended: bool,
    failed: bool,
}

impl Model for PushedScript {
    ghost use Rattle.input_lines.specs.Held.{bytes_of};
    ghost use Rattle.script_text.specs.Reader.{Held};
    ghost use Rattle.script_text.specs.inner.Judging.{IsPushedTo};

    ghost Value = { Held };

    ghost view = { λ s.
        record { place = s.progress; bytes = bytes_of s.line; ended = s.ended; over = s.failed; failed = s.failed } };

    ghost invariant = { λ s. IsPushedTo s.progress s.line s.failed };
}

impl PushedScript {
    ghost use Rattle.script_text.specs.Reader.{unread};

    /// A script of which nothing was pushed.
    pub fn new(alloc: Global) -> PushedScript
        ensures { result ≡ unread }
    {
        PushedScript {
            line: PushedLine::new(alloc),
            progress: Progress::new(alloc),
            ended: false,
            failed: false,
        }
    }

    /// Takes line after line from the bytes, up to the first that gives something, and answers it. None where the bytes
    /// are used up; then the next piece may come. What is left of the bytes is behind what was taken.
    ///
    /// It refuses a line that is not in the grammar in its place, by its number, and a line or an input past its limit.
    /// No call follows such a refusal. Where there is no memory, nothing is lost: the call may come again with the bytes
    /// that are left.
    pub fn next(
        &mut self,
        alloc: Global,
        bytes: &mut &[u8],
    ) -> Result<Option<ScriptItem>, ScriptFault>
        requires going { IsFalse self.old.failed }
        requires more { IsFalse self.old.ended }
        ensures told { PushTold self.old self.new bytes.old.now bytes.new.now result }
        ensures taken { TakenUpTo self.old self.new bytes.old.now bytes.new.now result }
        ensures rules { KeepsRules (rules_at self.old.place.part) (rules_at self.new.place.part) result }
        ensures few { IfOk result (λ next. IfSome next HasFewPosts) }
        ensures count { OnOk result (taken_bytes self.new + length bytes.new.now ≡ taken_bytes self.old + length bytes.old.now) }
        ensures short { length self.new.bytes ≤ MAX_LINE_BYTES + 1 }
        ensures limit { self.new.place.bytes ≤ MAX_INPUT_BYTES }
        ensures bad { IfErr result (HoldsRefused self.new) }
        ensures more { IsFalse self.new.ended }
        ensures failed { self.new.failed ≡ is_refused result }
    {
        let answer = next_item(alloc, bytes, &mut self.line, &mut self.progress);
        self.failed = is_refused(&answer);
        answer
    }

    /// Says that no more bytes come. It answers what the last line gives where it has no newline and gives something,
    /// and is then called again; None where the input is whole. No bytes are pushed behind it.
    ///
    /// It refuses a last line that is not in the grammar in its place, and an input that may not end there, by the number
    /// of the line that is missing. No call follows such a refusal. Where there is no memory, the call may come again.
    pub fn finish(&mut self, alloc: Global) -> Result<Option<ScriptItem>, ScriptFault>
        requires going { IsFalse self.old.failed }
        ensures told { EndTold self.old self.new result }
        ensures led { LedBy self.old.place self.new.place result }
        ensures rules { KeepsRules (rules_at self.old.place.part) (rules_at self.new.place.part) result }
        ensures few { IfOk result (λ next. IfSome next HasFewPosts) }
        ensures limit { self.new.place.bytes ≤ MAX_INPUT_BYTES }
        ensures bad { IfErr result (HoldsRefused self.new) }
        ensures ended { IsTrue self.new.ended }
        ensures failed { self.new.failed ≡ is_refused result }
    {
        let answer = last_item(alloc, &mut self.line, &mut self.progress);
        self.ended = true;
        self.failed = is_refused(&answer);
        answer
    }

    /// How many bytes are held: those that were pushed and that no line has used yet.
    pub fn held(&self) -> usize
        ensures bytes { result ≡ length self.now.bytes }
        ensures few { result ≤ MAX_LINE_BYTES + 1 }
    {
        self.line.held()
    }

    /// Why the line that a call refused as bad is not in the grammar in its place, as [`crate::ScriptReader::cause`] tells it.
    pub fn cause(&self, alloc: Global) -> Result<Cause, NoMemory>
        requires bad { IsSome (held_cause self.now) }
        ensures cause { IfOk result (λ found. Some found ≡ held_cause self.now) }
    {
        self.progress.cause(alloc, self.held(), self.line.line())
    }

    /// Why bytes are refused that come next and were not pushed: by how many they are and their first line.
    pub(crate) fn cause_behind(
        &self,
        alloc: Global,
        count: usize,
        line: &[u8],
    ) -> Result<Cause, NoMemory>
        requires bad { IsSome (cause_of_held self.now.place count line.now) }
        ensures cause { IfOk result (λ found. Some found ≡ cause_of_held self.now.place count line.now) }
    {
        self.progress.cause(alloc, count, line)
    }
}

/// Whether no call follows an answer.
fn is_refused(answer: &Result<Option<ScriptItem>, ScriptFault>) -> bool
    ensures { result ≡ is_refused answer.now }
{
    match answer {
        Ok(_) => false,
        Err(ScriptFault::NoMemory) => false,
        Err(_) => true,
    }
}

/// Takes line after line, up to the first that gives something.
fn next_item(
    alloc: Global,
    bytes: &mut &[u8],
    line: &mut PushedLine,
    progress: &mut Progress,
) -> Result<Option<ScriptItem>, ScriptFault>
    requires behind { line.old.rest ≡ record { bytes = []; ended = false } }
    requires have { HaveLinesAt progress.old.part progress.old.posts }
    requires few { HasFewerPosts progress.old }
    ensures told { PushTold (held_at progress.old line.old) (held_at progress.new line.new) bytes.old.now bytes.new.now
        result }
    ensures taken { TakenUpTo (held_at progress.old line.old) (held_at progress.new line.new) bytes.old.now
        bytes.new.now result }
    ensures rules { KeepsRules (rules_at progress.old.part) (rules_at progress.new.part) result }
    ensures few_posts { IfOk result (λ next. IfSome next HasFewPosts) }
    ensures count { OnOk result (taken_bytes (held_at progress.new line.new) + length bytes.new.now
        ≡ taken_bytes (held_at progress.old line.old) + length bytes.old.now) }
    ensures short { length (bytes_of line.new) ≤ MAX_LINE_BYTES + 1 }
    ensures limit { progress.new.bytes ≤ MAX_INPUT_BYTES }
    ensures bad { IfErr result (HoldsRefused (held_at progress.new line.new)) }
    ensures behind { line.new.rest ≡ record { bytes = []; ended = false } }
    ensures have { IsFalse (is_refused result) → HaveLinesAt progress.new.part progress.new.posts }
    ensures few { IsFalse (is_refused result) → HasFewerPosts progress.new }
{
    'lines: loop {
        let room = progress.room();
        let found = match next_size(line, bytes, room) {
            Ok(found) => found,
            Err(fault) => return Err(progress.no_line(fault)),
        };
        let Some(size) = found else {
            return Ok(None);
        };
        if let Some(item) = take_held(alloc, line, progress, size)? {
            return Ok(Some(item));
        }
    }
}

/// Takes from the bytes what they have of the next line, and answers how many bytes the whole line has. A line that is
/// held whole waited for memory: it is judged before more is taken.
fn next_size(line: &mut PushedLine, bytes: &mut &[u8], room: u64) -> Result<Option<u64>, LineFault>
    requires behind { line.old.rest ≡ record { bytes = []; ended = false } }
    ensures takes { PushAnswer line.old line.new room result bytes.old.now bytes.new.now }
    ensures begun { OnErr result (bytes_of line.old ≡ line.old.line) }
    ensures refused { OnErr result ((line.new ≡ line.old) × (bytes.new.now ≡ bytes.old.now)) }
    ensures plain { IsPlain line.new.line }
    ensures short { length (bytes_of line.new) ≤ MAX_LINE_BYTES + 1 }
    ensures behind { line.new.rest ≡ record { bytes = []; ended = false } }
{
    let held = line.held();
    if held > line.line().len() {
        return Ok(Some(held as u64));
    }
    line.take(bytes, room)
}

/// Takes the line that is held, of so many bytes with its newline where it has one, and answers what it gives.
fn take_held(
    alloc: Global,
    line: &mut PushedLine,
    progress: &mut Progress,
    size: u64,
) -> Result<Option<ScriptItem>, ScriptFault>
    requires some_byte { 1 ≤ size }
    requires have { HaveLinesAt progress.old.part progress.old.posts }
    requires few { HasFewerPosts progress.old }
    ensures gives { GivesItem (accept size line.old.line progress.old) progress.new result }
    ensures plain { IsPlain line.old.line }
    ensures line { OnOk result (line.new ≡ after_line line.old) }
    ensures kept { OnErr result (line.new ≡ line.old) }
    ensures used { OnOk result (progress.new.bytes ≡ progress.old.bytes + size) }
    ensures rules { KeepsRules (rules_at progress.old.part) (rules_at progress.new.part) result }
    ensures have { OnOk result (HaveLinesAt progress.new.part progress.new.posts) }
    ensures few { OnOk result (HasFewerPosts progress.new) }
    ensures few_posts { IfOk result (λ next. IfSome next HasFewPosts) }
    ensures limit { progress.new.bytes ≤ MAX_INPUT_BYTES }
    ensures bad { IfErr result (IsBadAt progress.new (counted progress.old size)) }
    ensures memory { IsErrOf result ScriptFault.NoMemory → progress.new ≡ progress.old }
{
    let next = progress.take_line(alloc, line.line(), size)?;
    line.use_line();
    Ok(next)
}

/// Takes what is held as the last line, and then the end.
fn last_item(
    alloc: Global,
    line: &mut PushedLine,
    progress: &mut Progress,
) -> Result<Option<ScriptItem>, ScriptFault>
    requires behind { line.old.rest ≡ record { bytes = []; ended = false } }
    requires have { HaveLinesAt progress.old.part progress.old.posts }
    requires few { HasFewerPosts progress.old }
    ensures told { EndTold (held_at progress.old line.old) (held_at progress.new line.new) result }
    ensures led { LedBy progress.old progress.new result }
    ensures rules { KeepsRules (rules_at progress.old.part) (rules_at progress.new.part) result }
    ensures few_posts { IfOk result (λ next. IfSome next HasFewPosts) }
    ensures limit { progress.new.bytes ≤ MAX_INPUT_BYTES }
    ensures bad { IfErr result (HoldsRefused (held_at progress.new line.new)) }
    ensures behind { line.new.rest ≡ record { bytes = []; ended = false } }
    ensures have { IsFalse (is_refused result) → HaveLinesAt progress.new.part progress.new.posts }
    ensures few { IsFalse (is_refused result) → HasFewerPosts progress.new }
{
    let size = line.held() as u64;
    if size == 0 {
        return end_item(progress);
    }
    match take_held(alloc, line, progress, size)? {
        Some(item) => Ok(Some(item)),
        None => end_item(progress),
    }
}

/// What an input gives that ends here: nothing, where it is whole.
fn end_item(progress: &Progress) -> Result<Option<ScriptItem>, ScriptFault>
    ensures ends { EndsHere (finish progress.now) result }
    ensures memory { IsErrOf result ScriptFault.NoMemory → ⊥ }
    ensures limit { progress.now.bytes ≤ MAX_INPUT_BYTES }
{
    match progress.finish() {
        Ok(()) => Ok(None),
        Err(fault) => Err(fault),
    }
}
