//! What a whole script says.
ghost use Rattle.std.specs.Prelude.{◌≡◌, ◌++◌, ◌∷◌, ℕ, List, [], None, Some, IfErr, IfOk, IsFalse, OnOk};
ghost use Rattle.script_text.specs.Pushed.{item_of};
ghost use Rattle.script_text.specs.Reader.{unread};
ghost use Rattle.script_text.specs.Script.{map_after_item, turns_of};
ghost use Rattle.match_play.specs.Scripts.{IsBadLineOf, RefusesScript, SaysAs};
ghost use Rattle.match_play.specs.inner.Reading.{FitsMap, HasRead, HasReadAll, HoldsCause, GoesWith, fault_in};

use crate::faults::MatchFault;
use nav_types::NoMemory;
use posts::{BaseRects, Journal, MapSpec};
use script_text::{Cause, PushedScript, ScriptFault, ScriptItem};
use std::alloc::Global;

/// A match as its script says it: the map, and the turns on it.
#[derive(Drop)]
pub struct SavedMatch {
    pub map: MapSpec,
    pub journal: Journal,
}

/// Why a line is bad, with its number, from 1.
#[derive(Drop)]
pub struct NumberedCause {
    pub number: u64,
    pub cause: Cause,
}

/// What the lines of a script have said so far.
#[derive(Drop)]
pub struct SaidSoFar {
    pub map: Option<MapSpec>,
    pub journal: Journal,
}

/// The map and the turns that a whole script says (`SaysAs`). It refuses a script by the number of the line at which it
/// stops, which is the one behind the last where a turn that has begun lacks its end line.
pub fn read_script(alloc: Global, script: &[u8]) -> Result<SavedMatch, MatchFault>
    ensures { SaysAs script.now result }
{
    let mut lines = PushedScript::new(alloc);
    let SaidSoFar { map, journal } = read_all(alloc, script, &mut lines)?;
    match map {
        Some(map) => Ok(SavedMatch { map, journal }),
        None => unreachable!(),
    }
}

/// The bad line at which a script stops (`IsBadLineOf`): None where it is whole, or stops at a line that is too long.
pub fn bad_line_of(alloc: Global, script: &[u8]) -> Result<Option<NumberedCause>, NoMemory>
    ensures { IfOk result (IsBadLineOf script.now) }
{
    let mut lines = PushedScript::new(alloc);
    match read_all(alloc, script, &mut lines) {
        Ok(_) => Ok(None),
        Err(MatchFault::BadLine(number)) => {
            let cause = lines.cause(alloc)?;
            Ok(Some(NumberedCause { number, cause }))
        }
        Err(MatchFault::TooLong(_)) => Ok(None),
        Err(MatchFault::Ended) | Err(MatchFault::NoMemory) => Err(NoMemory),
    }
}

/// Reads a whole script. Where it stops at a bad line, the reader holds its cause.
fn read_all(alloc: Global, script: &[u8], lines: &mut PushedScript) -> Result<SaidSoFar, MatchFault>
    requires unread { lines.old ≡ unread }
    ensures ok { IfOk result (HasReadAll script.now) }
    ensures keeps { IfOk result (GoesWith lines.new) }
    ensures err { IfErr result (RefusesScript script.now) }
    ensures cause { IfErr result (HoldsCause script.now lines.new) }
{
    let mut said = SaidSoFar {
        map: None,
        journal: Journal::new(alloc),
    };
    read_lines(alloc, script, lines, &mut said)?;
    read_rest(alloc, lines, &mut said)?;
    Ok(said)
}

/// Reads the lines of a script that end with a newline.
fn read_lines(
    alloc: Global,
    script: &[u8],
    lines: &mut PushedScript,
    said: &mut SaidSoFar,
) -> Result<(), MatchFault>
    requires unread { lines.old ≡ unread }
    requires unsaid { said.old ≡ record { map = None; journal = [] } }
    ensures ok { OnOk result (HasRead script.now lines.new [] said.new) }
    ensures err { IfErr result (RefusesScript script.now) }
    ensures cause { IfErr result (HoldsCause script.now lines.new) }
    ensures keeps { OnOk result (GoesWith lines.new said.new) }
    ensures going { OnOk result (IsFalse lines.new.failed) }
{
    let mut left = script;
    'items: loop {
        match lines.next(alloc, &mut left) {
            Ok(Some(item)) => take_item(said, item)?,
            Ok(None) => return Ok(()),
            Err(fault) => return Err(fault_in(fault)),
        }
    }
}

/// Reads what stands behind the last newline, and the end.
fn read_rest(
    alloc: Global,
    lines: &mut PushedScript,
    said: &mut SaidSoFar,
) -> Result<(), MatchFault>
    requires keeps { GoesWith lines.old said.old }
    requires going { IsFalse lines.old.failed }
    ensures ok { OnOk result ((script : List ℕ) → HasRead script lines.old [] said.old → HasReadAll script said.new) }
    ensures err { IfErr result (λ fault. (script : List ℕ) → HasRead script lines.old [] said.old → RefusesScript script fault) }
    ensures cause { IfErr result (λ fault. (script : List ℕ) → HasRead script lines.old [] said.old
        → HoldsCause script lines.new fault) }
    ensures keeps { OnOk result (GoesWith lines.new said.new) }
{
    'items: loop {
        match lines.finish(alloc) {
            Ok(Some(item)) => take_item(said, item)?,
            Ok(None) => return Ok(()),
            Err(fault) => return Err(fault_in(fault)),
        }
    }
}

/// Takes what a line says.
fn take_item(said: &mut SaidSoFar, item: ScriptItem) -> Result<(), NoMemory>
    requires fits { FitsMap said.old.map item }
    ensures map { OnOk result (said.new.map ≡ map_after_item said.old.map (item_of item)) }
    ensures turns { OnOk result (said.new.journal ≡ said.old.journal ++ turns_of (item_of item ∷ [])) }
{
    match item {
        ScriptItem::Map(map) => {
            said.map = Some(map);
            Ok(())
        }
        ScriptItem::Base(rects) => add_base(&mut said.map, &rects),
        ScriptItem::Turn(posts) => {
            said.journal.push(posts)?;
            Ok(())
        }
    }
}

/// Adds base rectangles to the map.
fn add_base(map: &mut Option<MapSpec>, rects: &BaseRects) -> Result<(), NoMemory>
    requires fits { FitsMap map.old (ScriptItem.Base rects.now) }
    ensures { OnOk result (map.new ≡ map_after_item map.old (item_of (ScriptItem.Base rects.now))) }
{
    match map {
        Some(map) => map.add_base(rects.as_slice()),
        None => unreachable!(),
    }
}

/// The refusal of a match that a refusal of its script is.
fn fault_in(fault: ScriptFault) -> MatchFault
    ensures { result ≡ fault_in fault }
{
    match fault {
        ScriptFault::BadLine(number) => MatchFault::BadLine(number),
        ScriptFault::TooLong(number) => MatchFault::TooLong(number),
        ScriptFault::ReadFault | ScriptFault::NoMemory => MatchFault::NoMemory,
    }
}
