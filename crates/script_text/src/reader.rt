//! Scripts, read item by item.
ghost use Rattle.std.specs.Prelude.{◌≡◌, ◌+◌, ◌≤◌, length, IfOk, IfSome, IsFalse, IsSome, Some};
ghost use Rattle.nav_types.specs.declared.limits.TheConstants.{MAX_INPUT_BYTES, MAX_LINE_BYTES};
ghost use Rattle.input_lines.specs.declared.intake.TheConstants.{READ_SIZE};
ghost use Rattle.script_text.specs.Items.{HasFewPosts, ItemTold};
ghost use Rattle.script_text.specs.Led.{LedBy};
ghost use Rattle.script_text.specs.Pushed.{KeepsRules, is_refused};
ghost use Rattle.script_text.specs.Reader.{HoldsTurn, Leaves, LeavesHeld, TakesFrom, TakesNoneAhead, WantsTurn};
ghost use Rattle.script_text.specs.Reader.{held_cause, is_last, rules_at};
ghost use Rattle.script_text.specs.inner.Judging.{IsApart, IsPushed, IsReadable, held_with};

use crate::causes::Cause;
use crate::faults::ScriptFault;
use crate::items::ScriptItem;
use crate::pushed::PushedScript;
use input_lines::Intake;
use io_edges::Source;
use nav_types::NoMemory;
use std::alloc::Global;
use std::marker::Model;

/// Reads a script from a source, and hands out what each of its lines gives. It keeps only the bytes that no line has used
/// yet: those of one read, and the beginning of one line.
///
/// Contracts see the place that it has come to, these bytes, whether the end of the input was met, whether no call may
/// follow, and whether it has failed.
///
/// ```
/// let mut reader = ScriptReader::new(alloc)?;
/// while let Some(item) = reader.next_item(alloc, source)? {
///     play(item)?;
/// }
/// ```
#[derive(Drop)]
pub struct ScriptReader {
    script: PushedScript,
    taken: Intake,
    over: bool,
    failed: bool,
}

impl Model for ScriptReader {
    ghost use Rattle.std.specs.Prelude.{◌++◌, IsFalse};
    ghost use Rattle.script_text.specs.Reader.{Held};
    ghost use Rattle.script_text.specs.inner.Judging.{IsApart, IsReadable};

    ghost Value = { Held };

    ghost view = { λ r.
        record { place = r.script.place; bytes = r.script.bytes ++ r.taken.bytes; ended = r.taken.ended; over = r.over; failed = r.failed } };

    ghost invariant = { λ r. IsApart r.script r.taken × (IsFalse r.over → IsReadable r.script r.taken) };
}

impl ScriptReader {
    ghost use Rattle.script_text.specs.Reader.{unread};

    /// A reader at the beginning of an input. The buffer of one read, 65,536 bytes, is taken here, once.
    pub fn new(alloc: Global) -> Result<ScriptReader, NoMemory>
        ensures { IfOk result (λ made. made ≡ unread) }
    {
        let taken = Intake::new(alloc)?;
        Ok(ScriptReader {
            script: PushedScript::new(alloc),
            taken,
            over: false,
            failed: false,
        })
    }

    /// Reads the next item: what the next line gives that gives something. None exactly where the input ended after the
    /// map line, a base line or an end line. No call follows None or a refusal.
    ///
    /// It reads only while the lines that are held neither give an item nor stop the script, so an item is answered
    /// before anything more is taken than the read that completed it (`HoldsTurn`, `TakesNoneAhead`).
    ///
    /// It refuses a line that is not in the grammar in its place, by its number, a line or an input past its limit, and
    /// a fault of the source that comes before the line of the next item is whole.
    pub fn next_item<S: Source>(
        &mut self,
        alloc: Global,
        source: &mut S,
    ) -> Result<Option<ScriptItem>, ScriptFault>
        requires going { IsFalse self.old.over }
        ensures told { ItemTold self.old self.new (S.left source.old) (S.left source.new) result }
        ensures still { HoldsTurn self.old → source.new ≡ source.old }
        ensures ahead { TakesNoneAhead WantsTurn self.old (S.left source.old) (S.left source.new) }
        ensures takes { TakesFrom (S.left source.old) (S.left source.new) (S.faults source.old) (S.faults source.new) result }
        ensures rules { KeepsRules (rules_at self.old.place.part) (rules_at self.new.place.part) result }
        ensures led { LedBy self.old.place self.new.place result }
        ensures few { IfOk result (λ next. IfSome next HasFewPosts) }
        ensures leaves { Leaves self.old self.new (is_last result) result }
    {
        let answer = read_item(alloc, source, &mut self.script, &mut self.taken);
        self.failed = answer.is_err();
        self.over = is_last(&answer);
        answer
    }

    /// How many bytes are held: those that were taken and that no line has used yet.
    pub fn held(&self) -> usize
        ensures bytes { result ≡ length self.now.bytes }
        ensures few { result ≤ MAX_LINE_BYTES + READ_SIZE }
    {
        self.script.held() + self.taken.len()
    }

    /// Why the line that a call refused as bad is not in the grammar in its place, or why the script may not end where
    /// it does (`held_cause`). After such a refusal there is a cause (`HoldsBad`). The only refusal is want of memory.
    pub fn cause(&self, alloc: Global) -> Result<Cause, NoMemory>
        requires bad { IsSome (held_cause self.now) }
        ensures cause { IfOk result (λ found. Some found ≡ held_cause self.now) }
    {
        if self.script.held() > 0 {
            return self.script.cause(alloc);
        }
        self.script
            .cause_behind(alloc, self.taken.len(), self.taken.first_line())
    }

    /// Whether a call was refused.
    pub fn failed(&self) -> bool
        ensures { result ≡ self.now.failed }
    {
        self.failed
    }
}

/// Whether no call follows an answer.
fn is_last(answer: &Result<Option<ScriptItem>, ScriptFault>) -> bool
    ensures { result ≡ is_last answer.now }
{
    match answer {
        Ok(Some(_)) => false,
        Ok(None) => true,
        Err(_) => true,
    }
}

/// Pushes what was taken, read by read, until a line gives an item, or the script stops.
fn read_item<S: Source>(
    alloc: Global,
    source: &mut S,
    script: &mut PushedScript,
    taken: &mut Intake,
) -> Result<Option<ScriptItem>, ScriptFault>
    requires ready { IsReadable script.old taken.old }
    ensures told { ItemTold (held_with script.old taken.old) (held_with script.new taken.new) (S.left source.old)
        (S.left source.new) result }
    ensures still { HoldsTurn (held_with script.old taken.old) → source.new ≡ source.old }
    ensures ahead { TakesNoneAhead WantsTurn (held_with script.old taken.old) (S.left source.old) (S.left source.new) }
    ensures takes { TakesFrom (S.left source.old) (S.left source.new) (S.faults source.old) (S.faults source.new) result }
    ensures rules { KeepsRules (rules_at script.old.place.part) (rules_at script.new.place.part) result }
    ensures led { LedBy script.old.place script.new.place result }
    ensures few { IfOk result (λ next. IfSome next HasFewPosts) }
    ensures apart { IsApart script.new taken.new }
    ensures ready { IfOk result (λ next. IfSome next (λ item. IsReadable script.new taken.new)) }
    ensures leaves { LeavesHeld (held_with script.old taken.old) (held_with script.new taken.new) result }
{
    if taken.has_ended() {
        return script.finish(alloc);
    }
    'pieces: loop {
        if let Some(item) = push_taken(alloc, script, taken)? {
            return Ok(Some(item));
        }
        if taken.refill(source).is_err() {
            return Err(ScriptFault::ReadFault);
        }
        if taken.is_used_up() {
            return script.finish(alloc);
        }
    }
}

/// Pushes what was taken, up to the first line that gives something. Nothing is left of it where the script is refused.
fn push_taken(
    alloc: Global,
    script: &mut PushedScript,
    taken: &mut Intake,
) -> Result<Option<ScriptItem>, ScriptFault>
    requires going { IsFalse script.old.failed }
    requires more { IsFalse script.old.ended }
    requires unmet { IsFalse taken.old.ended }
    ensures pushed { IsPushed script.old script.new taken.old taken.new result }
    ensures rules { KeepsRules (rules_at script.old.place.part) (rules_at script.new.place.part) result }
    ensures few { IfOk result (λ next. IfSome next HasFewPosts) }
    ensures short { length script.new.bytes ≤ MAX_LINE_BYTES + 1 }
    ensures limit { script.new.place.bytes ≤ MAX_INPUT_BYTES }
    ensures more { IsFalse script.new.ended }
    ensures failed { script.new.failed ≡ is_refused result }
{
    let held = taken.len();
    let mut bytes = taken.held();
    let answer = script.next(alloc, &mut bytes);
    let left = bytes.len();
    match answer {
        Ok(next) => {
            taken.use_first(held - left);
            Ok(next)
        }
        Err(fault) => {
            taken.use_first(held);
            Err(fault)
        }
    }
}
