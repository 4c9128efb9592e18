//! The lines of an input whose bytes are pushed, one after another: the next one is held until it is used.
ghost use Rattle.std.specs.Prelude.{◌≡◌, ◌+◌, ◌≤◌, ◌++◌, [], length, false, IfErr, IsSome, None, OnErr, OnOk};
ghost use Rattle.nav_types.specs.declared.limits.TheConstants.{MAX_LINE_BYTES};

use crate::faults::LineFault;
use crate::intake::first_newline;
use nav_types::limits::MAX_LINE_BYTES;
use std::alloc::Global;
use std::marker::Model;

/// The next line of an input, or the beginning of it. The input's bytes come in pieces that are cut anywhere, and what
/// stands behind the line stays in its piece.
#[derive(Drop)]
pub struct PushedLine {
    line: Vec<u8>,
    is_whole: bool,
}

impl Model for PushedLine {
    ghost use Rattle.input_lines.specs.Held.{HeldLine};
    ghost use Rattle.input_lines.specs.Pushed.{IsPushedLine, pushed_line};

    ghost Value = { HeldLine };

    ghost view = { λ l. pushed_line l.line.items l.is_whole };

    ghost invariant = { λ l. IsPushedLine l.line.items };
}

impl PushedLine {
    ghost use Rattle.input_lines.specs.declared.faults.LineFault.TheVariants.{TooLong};
    ghost use Rattle.input_lines.specs.Lines.{IsPlain};
    ghost use Rattle.input_lines.specs.Held.{after_line, bytes_of};
    ghost use Rattle.input_lines.specs.Pushed.{PushAnswer, pushed_line};
    ghost use Rattle.input_lines.specs.inner.Pushing.{IsNoPart};

    /// Nothing is held.
    pub fn new(alloc: Global) -> PushedLine
        ensures { result ≡ pushed_line [] false }
    {
        PushedLine {
            line: Vec::new(alloc),
            is_whole: false,
        }
    }

    /// How many bytes are held.
    pub fn held(&self) -> usize
        ensures bytes { result ≡ length (bytes_of self.now) }
        ensures few { result ≤ MAX_LINE_BYTES + 1 }
    {
        self.line.len() + usize::from(self.is_whole)
    }

    /// The line that is held, or the beginning of it, without its newline.
    pub fn line(&self) -> &[u8]
        ensures line { result.now ≡ self.now.line }
        ensures plain { IsPlain result.now }
    {
        self.line.as_slice()
    }

    /// Lets go of the line that is held, and of its newline.
    pub fn use_line(&mut self)
        ensures used { self.new ≡ after_line self.old }
    {
        self.line.clear();
        self.is_whole = false;
    }

    /// Takes from the bytes what they have of the next line: up to the first newline, and all where there is none. It
    /// answers how many bytes the whole line has, with its newline, and None where the line goes on behind these bytes.
    /// A line that is held whole stays, and nothing is taken.
    ///
    /// It refuses a line that is longer than a line may be, or than the room that the input has left. A refusal takes
    /// nothing.
    pub fn take(&mut self, bytes: &mut &[u8], room: u64) -> Result<Option<u64>, LineFault>
        ensures takes { PushAnswer self.old self.new room result bytes.old.now bytes.new.now }
        ensures kept { IsSome self.old.line_end → (self.new ≡ self.old) × (bytes.new.now ≡ bytes.old.now) }
        ensures refused { OnErr result ((self.new ≡ self.old) × (bytes.new.now ≡ bytes.old.now)) }
        ensures plain { IsPlain self.new.line }
        ensures few { length self.new.line ≤ MAX_LINE_BYTES }
        ensures behind { self.new.rest ≡ record { bytes = []; ended = false } }
    {
        if self.is_whole {
            return Ok(Some(self.line.len() as u64 + 1));
        }
        let all: &[u8] = *bytes;
        match first_newline(all) {
            Some(at) => {
                self.push_part(&all[..at], room)?;
                *bytes = &all[at + 1..];
                self.is_whole = true;
                Ok(Some(self.line.len() as u64 + 1))
            }
            None => {
                self.push_part(all, room)?;
                *bytes = &[];
                Ok(None)
            }
        }
    }

    /// Puts a part of the line behind what is held of it.
    fn push_part(&mut self, part: &[u8], room: u64) -> Result<(), LineFault>
        requires going { self.old.line_end ≡ None }
        requires plain { IsPlain part.now }
        ensures ok { OnOk result (self.new ≡ pushed_line (self.old.line ++ part.now) false) }
        ensures refused { OnErr result (self.new ≡ self.old) }
        ensures fault { IfErr result (IsNoPart (self.old.line ++ part.now) room) }
        ensures plain { IsPlain self.new.line }
        ensures few { length self.new.line ≤ MAX_LINE_BYTES }
    {
        // Tested before the bytes are kept: a line without an end must not fill the memory.
        let size = self.line.len() as u64 + part.len() as u64;
        if size > MAX_LINE_BYTES || size > room {
            return Err(LineFault::TooLong);
        }
        match self.line.extend_from_slice(part) {
            Ok(()) => Ok(()),
            Err(_) => Err(LineFault::NoMemory),
        }
    }
}
