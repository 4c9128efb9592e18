//! How far a script was read, and what its next line gives.
ghost use Rattle.std.specs.Prelude.{◌≡◌, ◌+◌, ◌≤◌, ◌<◌, ◌∷◌, [], length, All, IfErr, IfOk, IfSome, IsFalse, IsSome, IsErrOf, OnOk};
ghost use Rattle.std.specs.Prelude.{OnErr, option_and_then, option_map, Some};
ghost use Rattle.std.specs.List.{list_all};
ghost use Rattle.serde_json.specs.View.{view};
ghost use Rattle.nav_types.specs.Cells.{IsRectInside};
ghost use Rattle.script_text.specs.Forms.{map_of, base_of};
ghost use Rattle.script_text.specs.Script.{is_empty, reading_of};
ghost use Rattle.script_text.specs.inner.Judging.{turn_item};

use crate::causes::{self, Cause};
use crate::faults::ScriptFault;
use crate::forms::{self, CallerPost};
use crate::items::ScriptItem;
use crate::nesting::is_shallow;
use crate::parts::{Part, Rules};
use input_lines::LineFault;
use nav_types::limits::{MAX_INPUT_BYTES, MAX_LINE_BYTES};
use nav_types::{NoMemory, Size};
use posts::{BaseRects, MapSpec, Posts, TurnPosts, empty_lists, push_post};
use serde_json::Value;
use std::alloc::Global;
use std::marker::Model;
use std::mem;

/// The place that the reading of a script has come to.
#[derive(Drop)]
pub struct Progress {
    posts: Vec<Posts>,
    bytes: u64,
    lines: u64,
    turns: u64,
    part: Part,
}

impl Model for Progress {
    ghost use Rattle.script_text.specs.Script.{Place};
    ghost use Rattle.script_text.specs.inner.Judging.{IsReadTo};

    ghost Value = { Place };

    ghost view = { λ p.
        record { bytes = p.bytes; lines = p.lines; part = p.part; turns = p.turns; posts = p.posts.items } };

    ghost invariant = { λ p.
        IsReadTo (record { bytes = p.bytes; lines = p.lines; part = p.part; turns = p.turns; posts = p.posts.items }) };
}

impl Progress {
    ghost use Rattle.posts.specs.Posts.{post_count};
    ghost use Rattle.script_text.specs.Script.{beginning, rules_of, accept, counted, end_line, finish, is_long};
    ghost use Rattle.script_text.specs.Script.{arrived, begins, map_line, no_posts, placed_in_turn, with_post};
    ghost use Rattle.script_text.specs.Reader.{HaveLinesAt, callers_of, rules_at};
    ghost use Rattle.script_text.specs.Faults.{script_fault};
    ghost use Rattle.script_text.specs.Pushed.{KeepsRules};
    ghost use Rattle.script_text.specs.Items.{HasFewPosts};
    ghost use Rattle.script_text.specs.Causes.{end_cause};
    ghost use Rattle.script_text.specs.inner.Judging.{cause_of_held};
    ghost use Rattle.script_text.specs.inner.Judging.{AddsBase, BeginsMap, CountsPosts, GivesItem, GivesTurn, IsBadAt, IsBase};
    ghost use Rattle.script_text.specs.inner.Judging.{HasFewerPosts, IsInTurns, IsInsideAt, IsNoBaseAt, Stops};

    /// Nothing is read yet.
    pub fn new(alloc: Global) -> Progress
        ensures { result ≡ beginning }
    {
        Progress {
            posts: Vec::new(alloc),
            bytes: 0,
            lines: 0,
            turns: 0,
            part: Part::BeforeMap,
        }
    }

    /// How many bytes the input may still have.
    pub fn room(&self) -> u64
        ensures room { result + self.now.bytes ≡ MAX_INPUT_BYTES }
        ensures limit { self.now.bytes ≤ MAX_INPUT_BYTES }
    {
        MAX_INPUT_BYTES - self.bytes
    }

    /// Takes line 1, of so many bytes with its newline where it has one.
    pub fn map_line(
        &mut self,
        alloc: Global,
        line: &[u8],
        size: u64,
    ) -> Result<MapSpec, ScriptFault>
        requires first { self.old.part ≡ Part.BeforeMap }
        requires some_byte { 1 ≤ size }
        ensures begins { BeginsMap (accept size line.now self.old) self.new result }
        ensures part { IfOk result (λ map. self.new.part ≡ Part.InBase (rules_of map)) }
        ensures posts { OnOk result (post_count self.new.posts ≡ 0) }
        ensures limit { self.new.bytes ≤ MAX_INPUT_BYTES }
        ensures bad { IfErr result (IsBadAt self.new (counted self.old size)) }
        ensures used { OnOk result (self.new.bytes ≡ self.old.bytes + size) }
        ensures memory { IsErrOf result ScriptFault.NoMemory → self.new ≡ self.old }
    {
        if self.is_long(line, size) {
            return Err(ScriptFault::TooLong(self.lines + 1));
        }
        let Some(map) = read_map(alloc, line)? else {
            return Err(self.bad_line(size));
        };
        let posts = empty_lists(alloc, usize::from(map.callers()))?;
        self.count(size);
        self.begin(&map, posts);
        Ok(map)
    }

    /// Goes on behind the map line, with an empty list of posts for each caller.
    fn begin(&mut self, map: &MapSpec, posts: Vec<Posts>)
        requires first { self.old.part ≡ Part.BeforeMap }
        requires lists { posts.items ≡ no_posts map.now.callers }
        ensures begins { map_line self.old (Some map.now) ≡ arrived (begins map.now ∷ []) self.new }
        ensures part { self.new.part ≡ Part.InBase (rules_of map.now) }
        ensures bytes { self.new.bytes ≡ self.old.bytes }
        ensures posts { post_count self.new.posts ≡ 0 }
    {
        self.posts = posts;
        self.part = Part::InBase(Rules {
            size: map.size(),
            version: map.version(),
            callers: map.callers(),
        });
    }

    /// Takes the next line where it is a base line, and answers its rectangles. Where it is none, nothing changes.
    pub fn base_line(
        &mut self,
        alloc: Global,
        line: &[u8],
        size: u64,
    ) -> Result<Option<BaseRects>, ScriptFault>
        requires base { IsBase self.old.part }
        requires some_byte { 1 ≤ size }
        ensures adds { AddsBase self.old self.new size line.now result }
        ensures used { IfOk result (λ next. IfSome next (λ rects. self.new.bytes ≡ self.old.bytes + size)) }
        ensures inside { IfOk result (λ next. IfSome next (λ rects. IsInsideAt self.old.part rects)) }
        ensures part { self.new.part ≡ self.old.part }
        ensures posts { self.new.posts ≡ self.old.posts }
        ensures limit { self.new.bytes ≤ MAX_INPUT_BYTES }
        ensures memory { IsErrOf result ScriptFault.NoMemory → self.new ≡ self.old }
    {
        let Part::InBase(rules) = self.part else {
            unreachable!();
        };
        if self.is_long(line, size) {
            return Err(ScriptFault::TooLong(self.lines + 1));
        }
        match read_base(alloc, rules.size, line)? {
            Some(rects) => {
                self.count(size);
                Ok(Some(rects))
            }
            None => Ok(None),
        }
    }

    /// Takes the next line of a turn, of so many bytes with its newline where it has one. It answers the posts of the
    /// turn where the line ends it.
    pub fn accept(
        &mut self,
        alloc: Global,
        line: &[u8],
        size: u64,
    ) -> Result<Option<TurnPosts>, ScriptFault>
        requires begun { IsSome (rules_at self.old.part) }
        requires no_base { IsNoBaseAt self.old.part line.now }
        requires some_byte { 1 ≤ size }
        ensures gives { GivesTurn (accept size line.now self.old) self.new result }
        ensures used { OnOk result (self.new.bytes ≡ self.old.bytes + size) }
        ensures rules { rules_at self.new.part ≡ rules_at self.old.part }
        ensures limit { self.new.bytes ≤ MAX_INPUT_BYTES }
        ensures counts { IfOk result (CountsPosts self.old.posts self.new.posts) }
        ensures lists { IfOk result (λ next. IfSome next (λ turn. length turn ≡ callers_of self.old.part)) }
        ensures bad { IfErr result (IsBadAt self.new (counted self.old size)) }
        ensures memory { IsErrOf result ScriptFault.NoMemory → self.new ≡ self.old }
    {
        if self.is_long(line, size) {
            return Err(ScriptFault::TooLong(self.lines + 1));
        }
        match read_line(alloc, line)? {
            Some(value) => self.take_reading(alloc, size, &value),
            None => Err(self.bad_line(size)),
        }
    }

    /// Takes the next line, of so many bytes with its newline where it has one, and answers what it gives. Where there is
    /// no memory, nothing changes, and the line may come again.
    #[tactic(auto, using(crate::proofs::TurnItems::turn_gives, crate::proofs::TurnItems::turn_ok, crate::proofs::TurnItems::turn_bad, crate::proofs::TurnItems::turn_kept, crate::proofs::TurnItems::turn_rules, crate::proofs::TurnItems::turn_have, crate::proofs::TurnItems::turn_fewer, crate::proofs::TurnItems::turn_few))]
    pub fn take_line(
        &mut self,
        alloc: Global,
        line: &[u8],
        size: u64,
    ) -> Result<Option<ScriptItem>, ScriptFault>
        requires some_byte { 1 ≤ size }
        requires have { HaveLinesAt self.old.part self.old.posts }
        requires few { HasFewerPosts self.old }
        ensures gives { GivesItem (accept size line.now self.old) self.new result }
        ensures used { OnOk result (self.new.bytes ≡ self.old.bytes + size) }
        ensures rules { KeepsRules (rules_at self.old.part) (rules_at self.new.part) result }
        ensures have { OnOk result (HaveLinesAt self.new.part self.new.posts) }
        ensures few { OnOk result (HasFewerPosts self.new) }
        ensures few_posts { IfOk result (λ next. IfSome next HasFewPosts) }
        ensures limit { self.new.bytes ≤ MAX_INPUT_BYTES }
        ensures bad { IfErr result (IsBadAt self.new (counted self.old size)) }
        ensures memory { IsErrOf result ScriptFault.NoMemory → self.new ≡ self.old }
    {
        match self.part {
            Part::BeforeMap => match self.map_line(alloc, line, size) {
                Ok(map) => Ok(Some(ScriptItem::Map(map))),
                Err(fault) => Err(fault),
            },
            Part::InBase(_) => match self.base_line(alloc, line, size) {
                Ok(Some(rects)) => Ok(Some(ScriptItem::Base(rects))),
                Ok(None) => turn_item(self.accept(alloc, line, size)),
                Err(fault) => Err(fault),
            },
            Part::InTurns(_) => turn_item(self.accept(alloc, line, size)),
        }
    }

    /// The refusal where the next line did not come.
    pub fn no_line(&self, fault: LineFault) -> ScriptFault
        ensures { result ≡ script_fault (self.now.lines + 1) fault }
    {
        match fault {
            LineFault::TooLong => ScriptFault::TooLong(self.lines + 1),
            LineFault::ReadFault => ScriptFault::ReadFault,
            LineFault::NoMemory => ScriptFault::NoMemory,
        }
    }

    /// Whether an input that ends here is whole.
    pub fn finish(&self) -> Result<(), ScriptFault>
        ensures stops { Stops (finish self.now) result }
        ensures memory { IsErrOf result ScriptFault.NoMemory → ⊥ }
        ensures limit { self.now.bytes ≤ MAX_INPUT_BYTES }
    {
        match self.part {
            Part::BeforeMap => Err(ScriptFault::BadLine(self.lines + 1)),
            Part::InBase(_) => Ok(()),
            Part::InTurns(_) => self.end_between_turns(),
        }
    }

    /// Whether an input that ends here, among the lines of turns, is whole.
    fn end_between_turns(&self) -> Result<(), ScriptFault>
        requires begun { IsInTurns self.now.part }
        ensures stops { Stops (finish self.now) result }
        ensures memory { IsErrOf result ScriptFault.NoMemory → ⊥ }
    {
        if are_empty(self.posts.as_slice()) {
            Ok(())
        } else {
            Err(ScriptFault::BadLine(self.lines + 1))
        }
    }

    /// Why what is held is refused here: the first line of so many bytes that are held, which the place may have counted,
    /// or the end of the input, where none is held.
    pub fn cause(&self, alloc: Global, held: usize, line: &[u8]) -> Result<Cause, NoMemory>
        requires bad { IsSome (cause_of_held self.now held line.now) }
        ensures cause { IfOk result (λ found. Some found ≡ cause_of_held self.now held line.now) }
    {
        match self.found_cause(alloc, held, line)? {
            Some(found) => Ok(found),
            None => unreachable!(),
        }
    }

    /// The same, where there is a cause.
    fn found_cause(
        &self,
        alloc: Global,
        held: usize,
        line: &[u8],
    ) -> Result<Option<Cause>, NoMemory>
        ensures { IfOk result (λ found. found ≡ cause_of_held self.now held line.now) }
    {
        if held == 0 {
            return Ok(self.end_cause());
        }
        causes::cause_of(alloc, self.part, self.turns + 1, line)
    }

    /// Why an input may not end here.
    fn end_cause(&self) -> Option<Cause>
        ensures { result ≡ end_cause self.now.part self.now.posts }
    {
        match self.part {
            Part::BeforeMap => Some(Cause::NoLine),
            Part::InBase(_) => None,
            Part::InTurns(_) if are_empty(self.posts.as_slice()) => None,
            Part::InTurns(_) => Some(Cause::EndsInsideTurn),
        }
    }

    /// Whether the line is longer than a line may be, or the input with it than an input may be.
    fn is_long(&self, line: &[u8], size: u64) -> bool
        ensures long { result ≡ is_long self.now size line.now }
        ensures fits { IsFalse result → self.now.bytes + size ≤ MAX_INPUT_BYTES }
        ensures limit { self.now.bytes ≤ MAX_INPUT_BYTES }
    {
        // The newline counts in the limit of the input, and not in that of the line.
        let room = self.room();
        line.len() as u64 > MAX_LINE_BYTES || size > room
    }

    /// Counts a line of so many bytes.
    fn count(&mut self, size: u64)
        requires some_byte { 1 ≤ size }
        requires fits { self.old.bytes + size ≤ MAX_INPUT_BYTES }
        ensures counted { self.new ≡ counted self.old size }
        ensures turns { self.new.turns < self.new.lines }
    {
        self.bytes += size;
        self.lines += 1;
    }

    /// Counts a line that is bad, and names it.
    fn bad_line(&mut self, size: u64) -> ScriptFault
        requires some_byte { 1 ≤ size }
        requires fits { self.old.bytes + size ≤ MAX_INPUT_BYTES }
        ensures counted { self.new ≡ counted self.old size }
        ensures named { result ≡ ScriptFault.BadLine (counted self.old size).lines }
    {
        self.count(size);
        ScriptFault::BadLine(self.lines)
    }

    /// Takes a line of a turn, of so many bytes, by its reading. It is counted last: where there is no memory, the line
    /// may come again.
    fn take_reading(
        &mut self,
        alloc: Global,
        size: u64,
        value: &Value,
    ) -> Result<Option<TurnPosts>, ScriptFault>
        requires begun { IsSome (rules_at self.old.part) }
        requires some_byte { 1 ≤ size }
        requires fits { self.old.bytes + size ≤ MAX_INPUT_BYTES }
        ensures gives { IfSome (rules_at self.old.part)
            (λ rules. GivesTurn (placed_in_turn (counted self.old size) rules (Some (view value.now))) self.new result) }
        ensures used { OnOk result (self.new.bytes ≡ self.old.bytes + size) }
        ensures limit { self.new.bytes ≤ MAX_INPUT_BYTES }
        ensures memory { IsErrOf result ScriptFault.NoMemory → self.new ≡ self.old }
        ensures rules { rules_at self.new.part ≡ rules_at self.old.part }
        ensures counts { IfOk result (CountsPosts self.old.posts self.new.posts) }
        ensures lists { IfOk result (λ next. IfSome next (λ turn. length turn ≡ callers_of self.old.part)) }
        ensures bad { IfErr result (IsBadAt self.new (counted self.old size)) }
    {
        let rules = self.rules();
        match forms::post_of(rules.version, rules.callers, value) {
            Some(said) => {
                self.keep_post(rules, said)?;
                self.count(size);
                Ok(None)
            }
            None => self.end_turn(alloc, size, rules, forms::end_of(value)),
        }
    }

    /// What the lines after the map line keep to.
    fn rules(&self) -> Rules
        requires begun { IsSome (rules_at self.now.part) }
        ensures { rules_at self.now.part ≡ Some result }
    {
        match self.part {
            Part::BeforeMap => unreachable!(),
            Part::InBase(rules) => rules,
            Part::InTurns(rules) => rules,
        }
    }

    /// Keeps the post behind those of its caller.
    fn keep_post(&mut self, rules: Rules, said: CallerPost) -> Result<(), NoMemory>
        requires rules { rules_at self.old.part ≡ Some rules }
        requires caller { said.caller < rules.callers }
        ensures ok { OnOk result (self.new
            ≡ record self.old { part = Part.InTurns rules; posts = with_post self.old.posts said }) }
        ensures err { OnErr result (self.new ≡ self.old) }
        ensures counts { OnOk result (post_count self.new.posts ≡ post_count self.old.posts + 1) }
    {
        push_post(&mut self.posts, usize::from(said.caller), said.post)?;
        self.part = Part::InTurns(rules);
        Ok(())
    }

    /// Hands out the posts of the turn, where the number of its end line, of so many bytes, is that of the turn.
    fn end_turn(
        &mut self,
        alloc: Global,
        size: u64,
        rules: Rules,
        number: Option<u64>,
    ) -> Result<Option<TurnPosts>, ScriptFault>
        requires rules { rules_at self.old.part ≡ Some rules }
        requires some_byte { 1 ≤ size }
        requires fits { self.old.bytes + size ≤ MAX_INPUT_BYTES }
        ensures gives { GivesTurn (end_line (counted self.old size) rules number) self.new result }
        ensures used { OnOk result (self.new.bytes ≡ self.old.bytes + size) }
        ensures limit { self.new.bytes ≤ MAX_INPUT_BYTES }
        ensures memory { IsErrOf result ScriptFault.NoMemory → self.new ≡ self.old }
        ensures rules { rules_at self.new.part ≡ rules_at self.old.part }
        ensures counts { IfOk result (CountsPosts self.old.posts self.new.posts) }
        ensures lists { IfOk result (λ next. IfSome next (λ turn. length turn ≡ rules.callers)) }
        ensures bad { IfErr result (IsBadAt self.new (counted self.old size)) }
    {
        let Some(number) = number else {
            return Err(self.bad_line(size));
        };
        if number != self.turns + 1 {
            return Err(self.bad_line(size));
        }
        let empty = empty_lists(alloc, usize::from(rules.callers))?;
        self.count(size);
        self.turns += 1;
        self.part = Part::InTurns(rules);
        let posts = mem::replace(&mut self.posts, empty);
        Ok(Some(TurnPosts::from(posts)))
    }
}

/// What a line of a turn gives: the turn, where the line ends it.
fn turn_item(
    answer: Result<Option<TurnPosts>, ScriptFault>,
) -> Result<Option<ScriptItem>, ScriptFault>
    ensures { result ≡ turn_item answer }
{
    match answer {
        Ok(Some(turn)) => Ok(Some(ScriptItem::Turn(turn))),
        Ok(None) => Ok(None),
        Err(fault) => Err(fault),
    }
}

/// Whether no caller has a post.
fn are_empty(posts: &[Posts]) -> bool
    ensures { result ≡ list_all is_empty posts.now }
{
    posts.iter().all(|list| list.is_empty())
}

/// The map of a map line, which this line may be.
fn read_map(alloc: Global, line: &[u8]) -> Result<Option<MapSpec>, NoMemory>
    ensures { IfOk result (λ made. made ≡ option_and_then map_of (reading_of line.now)) }
{
    match read_line(alloc, line)? {
        Some(value) => forms::map_of(alloc, &value),
        None => Ok(None),
    }
}

/// The rectangles of a base line, which this line may be.
fn read_base(alloc: Global, size: Size, line: &[u8]) -> Result<Option<BaseRects>, NoMemory>
    ensures rects { IfOk result (λ made. made ≡ option_and_then (base_of size) (reading_of line.now)) }
    ensures inside { IfOk result (λ made. IfSome made (All (λ entry. IsRectInside size entry.0))) }
{
    match read_line(alloc, line)? {
        Some(value) => forms::base_of(alloc, size, &value),
        None => Ok(None),
    }
}

/// The reading of a line, where it has one.
pub(crate) fn read_line(alloc: Global, line: &[u8]) -> Result<Option<Value>, NoMemory>
    ensures { IfOk result (λ read. option_map view read ≡ reading_of line.now) }
{
    if !is_shallow(line) {
        return Ok(None);
    }
    match Value::from_slice(alloc, line) {
        Ok(value) => Ok(Some(value)),
        Err(error) => {
            if error.is_memory() {
                Err(NoMemory)
            } else {
                Ok(None)
            }
        }
    }
}
