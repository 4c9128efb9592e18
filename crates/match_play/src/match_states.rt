//! How a match goes from bytes to texts.
ghost use Rattle.std.specs.Prelude.{◌≡◌, ◌≢◌, ◌++◌, ℕ, List, [], IsFalse, IsTrue, ◌↔◌, IfOk, OnErr, OnOk, Err};
ghost use Rattle.script_text.specs.Reader.{held_cause};
ghost use Rattle.match_play.specs.declared.faults.MatchFault.TheVariants.{Ended, NoMemory as no_memory};
ghost use Rattle.match_play.specs.declared.states.NextItem.TheVariants.{Lines};
ghost use Rattle.match_play.specs.Playing.{FeedPlays, FinishPlays, IsOver, IsTold, Plays, TakesAll, TellsWhy, bad_cause, cause_by, stop_of};
ghost use Rattle.match_play.specs.Texts.{stop_text};
ghost use Rattle.match_play.specs.inner.Fitting.{HoldsStop, IsFit, IsGoing, IsStopped, TellsStop, fault_of, stop_in};

use crate::faults::MatchFault;
use crate::match_progress::play_item;
use crate::states::{MatchState, NextItem, ScriptStop};
use answer_text::bad_line_text;
use nav_types::{Bytes, NoMemory};
use script_text::{Cause, PushedScript, ScriptFault};
use std::alloc::Global;
use std::mem;
use turn_core::Answerer;

/// Plays the next bytes of the script. At a stop it takes them all.
pub(crate) fn feed<A: Answerer>(
    alloc: Global,
    answerer: &mut A,
    match_state: &mut MatchState,
    bytes: &mut &[u8],
) -> Result<(), MatchFault>
    requires fit { IsFit match_state.old }
    requires takes { (count : ℕ) → A.takes answerer.old count }
    ensures plays { FeedPlays match_state.old match_state.new bytes.old.now bytes.new.now result }
    ensures all { TakesAll bytes.new.now result }
    ensures ended { (result ≡ Err Ended) ↔ IsTrue match_state.old.ended }
    ensures kept { result ≡ Err Ended → (match_state.new ≡ match_state.old) × (bytes.new.now ≡ bytes.old.now) }
    ensures stays { match_state.new.ended ≡ match_state.old.ended }
    ensures why { TellsWhy result (bad_cause match_state.new) }
    ensures fit { IsFit match_state.new }
{
    if match_state.ended {
        return Err(MatchFault::Ended);
    }
    if is_stopped(&match_state.next_item) {
        *bytes = &[];
        return tell_stop(alloc, match_state);
    }
    read_on(alloc, answerer, match_state, bytes)
}

/// Ends the script, and plays what is left of it.
pub(crate) fn finish<A: Answerer>(
    alloc: Global,
    answerer: &mut A,
    match_state: &mut MatchState,
) -> Result<(), MatchFault>
    requires fit { IsFit match_state.old }
    requires takes { (count : ℕ) → A.takes answerer.old count }
    ensures plays { FinishPlays match_state.old match_state.new result }
    ensures ended { IsTrue match_state.new.ended }
    ensures over { result ≢ Err no_memory → IsOver match_state.new }
    ensures again { (result ≡ Err Ended) ↔ IsOver match_state.old }
    ensures kept { result ≡ Err Ended → match_state.new ≡ match_state.old }
    ensures why { TellsWhy result (bad_cause match_state.new) }
    ensures fit { IsFit match_state.new }
{
    if is_over(match_state) {
        return Err(MatchFault::Ended);
    }
    match_state.ended = true;
    if is_stopped(&match_state.next_item) {
        return tell_stop(alloc, match_state);
    }
    read_rest(alloc, answerer, match_state)
}

/// Whether a stop was met.
fn is_stopped(next_item: &NextItem) -> bool
    ensures { IsTrue result ↔ IsStopped next_item.now }
{
    match next_item {
        NextItem::Lines | NextItem::Item(_) | NextItem::Whole => false,
        NextItem::Stop(_) | NextItem::Nothing(_) => true,
    }
}

/// Whether the script has ended, and all was told.
fn is_over(match_state: &MatchState) -> bool
    ensures { IsTrue result ↔ IsOver match_state.now }
{
    match_state.ended && is_told(&match_state.next_item)
}

/// Whether all was told that the script gives.
fn is_told(next_item: &NextItem) -> bool
    ensures { IsTrue result ↔ IsTold next_item.now }
{
    match next_item {
        NextItem::Lines | NextItem::Item(_) | NextItem::Stop(_) => false,
        NextItem::Nothing(_) | NextItem::Whole => true,
    }
}

/// Plays the next bytes of a script that has not stopped.
fn read_on<A: Answerer>(
    alloc: Global,
    answerer: &mut A,
    match_state: &mut MatchState,
    bytes: &mut &[u8],
) -> Result<(), MatchFault>
    requires fit { IsFit match_state.old }
    requires takes { (count : ℕ) → A.takes answerer.old count }
    requires going { IsGoing match_state.old.next_item }
    requires unended { IsFalse match_state.old.ended }
    ensures plays { FeedPlays match_state.old match_state.new bytes.old.now bytes.new.now result }
    ensures all { TakesAll bytes.new.now result }
    ensures answer { result ≢ Err Ended }
    ensures stays { match_state.new.ended ≡ match_state.old.ended }
    ensures why { TellsWhy result (bad_cause match_state.new) }
    ensures fit { IsFit match_state.new }
{
    'items: loop {
        match tell_item(alloc, answerer, match_state) {
            Ok(()) => {}
            Err(NoMemory) => return Err(MatchFault::NoMemory),
        }
        match match_state.script.next(alloc, bytes) {
            Ok(Some(item)) => match_state.next_item = NextItem::Item(item),
            Ok(None) => return Ok(()),
            Err(fault) => match stop_in(fault) {
                Some(stop) => {
                    *bytes = &[];
                    match_state.next_item = NextItem::Stop(stop);
                    return tell_stop(alloc, match_state);
                }
                None => return Err(MatchFault::NoMemory),
            },
        }
    }
}

/// Plays what is left of a script that has ended.
fn read_rest<A: Answerer>(
    alloc: Global,
    answerer: &mut A,
    match_state: &mut MatchState,
) -> Result<(), MatchFault>
    requires fit { IsFit match_state.old }
    requires takes { (count : ℕ) → A.takes answerer.old count }
    requires going { IsGoing match_state.old.next_item }
    requires ended { IsTrue match_state.old.ended }
    ensures plays { FinishPlays match_state.old match_state.new result }
    ensures answer { result ≢ Err Ended }
    ensures ended { IsTrue match_state.new.ended }
    ensures told { result ≢ Err no_memory → IsTold match_state.new.next_item }
    ensures why { TellsWhy result (bad_cause match_state.new) }
    ensures fit { IsFit match_state.new }
{
    'items: loop {
        match tell_item(alloc, answerer, match_state) {
            Ok(()) => {}
            Err(NoMemory) => return Err(MatchFault::NoMemory),
        }
        match match_state.script.finish(alloc) {
            Ok(Some(item)) => match_state.next_item = NextItem::Item(item),
            Ok(None) => {
                match_state.next_item = NextItem::Whole;
                return Ok(());
            }
            Err(fault) => match stop_in(fault) {
                Some(stop) => {
                    match_state.next_item = NextItem::Stop(stop);
                    return tell_stop(alloc, match_state);
                }
                None => return Err(MatchFault::NoMemory),
            },
        }
    }
}

/// Tells the item that waits, if one does.
fn tell_item<A: Answerer>(
    alloc: Global,
    answerer: &mut A,
    match_state: &mut MatchState,
) -> Result<(), NoMemory>
    requires fit { IsFit match_state.old }
    requires takes { (count : ℕ) → A.takes answerer.old count }
    requires going { IsGoing match_state.old.next_item }
    ensures plays { (left : List ℕ) → Plays match_state.old match_state.new left left }
    ensures fit { IsFit match_state.new }
    ensures going { IsGoing match_state.new.next_item }
    ensures told { OnOk result (match_state.new.next_item ≡ Lines) }
    ensures script { match_state.new.script ≡ match_state.old.script }
    ensures takes { (count : ℕ) → A.takes answerer.new count }
    ensures ended { match_state.new.ended ≡ match_state.old.ended }
{
    match mem::replace(&mut match_state.next_item, NextItem::Lines) {
        NextItem::Item(item) => {
            let report = match_state.report;
            match play_item(
                alloc,
                answerer,
                report,
                &mut match_state.progress,
                item,
                &mut match_state.waiting,
            ) {
                Ok(()) => Ok(()),
                Err((NoMemory, item)) => {
                    match_state.next_item = NextItem::Item(item);
                    Err(NoMemory)
                }
            }
        }
        NextItem::Lines => Ok(()),
        NextItem::Stop(_) | NextItem::Nothing(_) | NextItem::Whole => unreachable!(),
    }
}

/// The stop that a refusal of the script is, if it is one.
fn stop_in(fault: ScriptFault) -> Option<ScriptStop>
    ensures { result ≡ stop_in fault }
{
    match fault {
        ScriptFault::BadLine(number) => Some(ScriptStop::BadLine(number)),
        ScriptFault::TooLong(number) => Some(ScriptStop::TooLong(number)),
        ScriptFault::ReadFault | ScriptFault::NoMemory => None,
    }
}

/// Tells the stop that was met, unless it was told.
fn tell_stop(alloc: Global, match_state: &mut MatchState) -> Result<(), MatchFault>
    requires fit { IsFit match_state.old }
    requires stopped { IsStopped match_state.old.next_item }
    ensures plays { (left : List ℕ) → Plays match_state.old match_state.new left left }
    ensures stop { TellsStop match_state.new.next_item result }
    ensures ended { match_state.new.ended ≡ match_state.old.ended }
    ensures fit { IsFit match_state.new }
{
    let stop = match match_state.next_item {
        NextItem::Stop(stop) => stop,
        NextItem::Nothing(stop) => return Err(fault_of(stop)),
        NextItem::Lines | NextItem::Item(_) | NextItem::Whole => unreachable!(),
    };
    match append_stop(alloc, stop, &mut match_state.waiting) {
        Ok(()) => {
            match_state.next_item = NextItem::Nothing(stop);
            Err(fault_of(stop))
        }
        Err(NoMemory) => Err(MatchFault::NoMemory),
    }
}

/// Why the line is bad at which the script has stopped. None where it has met no bad line.
pub(crate) fn cause(alloc: Global, match_state: &MatchState) -> Result<Option<Cause>, NoMemory>
    requires fit { IsFit match_state.now }
    ensures { IfOk result (λ why. why ≡ bad_cause match_state.now) }
{
    match match_state.next_item {
        NextItem::Stop(stop) => cause_by(alloc, &match_state.script, stop),
        NextItem::Nothing(stop) => cause_by(alloc, &match_state.script, stop),
        NextItem::Lines | NextItem::Item(_) | NextItem::Whole => Ok(None),
    }
}

/// Why the line is bad that the script holds at a stop. None of a line that is too long.
fn cause_by(
    alloc: Global,
    script: &PushedScript,
    stop: ScriptStop,
) -> Result<Option<Cause>, NoMemory>
    requires { HoldsStop stop script.now }
    ensures { IfOk result (λ why. why ≡ cause_by stop (held_cause script.now)) }
{
    match stop {
        ScriptStop::BadLine(_) => match script.cause(alloc) {
            Ok(cause) => Ok(Some(cause)),
            Err(NoMemory) => Err(NoMemory),
        },
        ScriptStop::TooLong(_) => Ok(None),
    }
}

/// Appends the text of a stop.
fn append_stop(alloc: Global, stop: ScriptStop, text: &mut Bytes) -> Result<(), NoMemory>
    ensures ok { OnOk result (text.new ≡ text.old ++ stop_text (stop_of stop)) }
    ensures err { OnErr result (text.new ≡ text.old) }
{
    match stop {
        ScriptStop::BadLine(number) => text.extend(bad_line_text(alloc, number)?.as_slice()),
        ScriptStop::TooLong(_) => Ok(()),
    }
}

/// The refusal of a match that has stopped.
fn fault_of(stop: ScriptStop) -> MatchFault
    ensures { result ≡ fault_of stop }
{
    match stop {
        ScriptStop::BadLine(number) => MatchFault::BadLine(number),
        ScriptStop::TooLong(number) => MatchFault::TooLong(number),
    }
}
