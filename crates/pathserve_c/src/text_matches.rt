//! Matches by text, whose text is taken piece by piece.
ghost use Rattle.std.specs.Prelude.{◌≡◌, Some, drop, length, min, take, IfOk, IsTrue};
ghost use Rattle.match_play.specs.Playing.{IsView, bad_cause, said_of};
ghost use Rattle.pathserve_c.specs.LineLimits.{IsLimitAfter, fits_limit, limit_to};
ghost use Rattle.pathserve_c.specs.Texts.{Feeds, Finishes, IsUnread, Takes};

use crate::line_limits::LineLimit;
use grid_versions::Version;
use match_play::{Match, MatchFault};
use nav_types::NoMemory;
use posts::Report;
use script_text::Cause;
use std::alloc::Global;
use std::marker::Model;

/// A match by text. Contracts see the match, the text that was told and not taken yet, and the limit of its lines
/// (`TextState`).
///
/// Text that was taken keeps its memory until none waits.
#[derive(Drop)]
pub struct TextMatch {
    game: Match,
    taken: usize,
    limit: Option<LineLimit>,
}

impl Model for TextMatch {
    ghost use Rattle.std.specs.Prelude.{◌≤◌, drop, length};
    ghost use Rattle.match_play.specs.contracts.matches.Match.{the_row as match_row};
    ghost use Rattle.pathserve_c.specs.contracts.line_limits.LineLimit.{the_row as limit_row};
    ghost use Rattle.pathserve_c.specs.Texts.{TextState};
    ghost use Rattle.pathserve_c.specs.inner.Codes.{text_code};

    ghost Value = { TextState };

    ghost coded = { text_code match_row.coded limit_row.coded };

    ghost view = { λ m. record { game = m.game; waiting = drop m.taken m.game.waiting; limit = m.limit } };

    ghost invariant = { λ m. m.taken ≤ length m.game.waiting };
}

impl TextMatch {
    /// A match of whose script no byte has come, and what it tells beside the answers.
    pub fn open(alloc: Global, report: Report) -> TextMatch
        ensures { IsUnread report result }
    {
        TextMatch {
            game: Match::open(alloc, report),
            taken: 0,
            limit: None,
        }
    }

    /// Lets a line have at most so many bytes. Those of the line that has begun count from the first limit on.
    pub fn limit_line(&mut self, most: usize)
        ensures { self.new ≡ record self.old { limit = Some (limit_to most self.old.limit) } }
    {
        let begun = match self.limit {
            Some(limit) => limit.begun,
            None => 0,
        };
        self.limit = Some(LineLimit { most, begun });
    }

    /// Whether no line of these bytes has more than it may.
    pub fn has_room(&self, bytes: &[u8]) -> bool
        ensures { result ≡ fits_limit self.now.limit bytes.now }
    {
        match self.limit {
            Some(limit) => limit.after(bytes).is_some(),
            None => true,
        }
    }

    /// Takes the next bytes of the script, as the match does. What is left of the bytes is behind what was taken. No line of
    /// them has more than it may, which [`TextMatch::has_room`] tells.
    pub fn feed(&mut self, alloc: Global, bytes: &mut &[u8]) -> Result<(), MatchFault>
        requires fits { IsTrue (fits_limit self.old.limit bytes.old.now) }
        ensures { Feeds self.old self.new bytes.old.now bytes.new.now result }
    {
        let piece = *bytes;
        let answer = self.game.feed(alloc, bytes);
        self.limit = limit_after(self.limit, &piece[..piece.len() - bytes.len()]);
        answer
    }

    /// Ends the script, as the match does.
    pub fn finish(&mut self, alloc: Global) -> Result<(), MatchFault>
        ensures { Finishes self.old self.new result }
    {
        self.game.finish(alloc)
    }

    /// What stands after the turns that were told, as a version of its own. None exactly where the map has not come.
    pub fn view(&self, alloc: Global) -> Result<Option<Version>, NoMemory>
        ensures { IfOk result (IsView (said_of self.now.game.progress)) }
    {
        let _ = self.taken;
        self.game.view(alloc)
    }

    /// Why the line is bad at which the match has stopped. None where it has met no bad line.
    pub fn cause(&self, alloc: Global) -> Result<Option<Cause>, NoMemory>
        ensures { IfOk result (λ why. why ≡ bad_cause self.now.game) }
    {
        let _ = self.taken;
        self.game.cause(alloc)
    }

    /// How many bytes of text wait.
    pub fn count_waiting(&self) -> usize
        ensures { result ≡ length self.now.waiting }
    {
        self.game.waiting().len() - self.taken
    }

    /// Copies the first bytes of text that wait into the buffer, as many as it holds. They wait no longer.
    pub fn take(&mut self, buffer: &mut [u8]) -> usize
        ensures count { result ≡ min (length buffer.old) (length self.old.waiting) }
        ensures copied { take result buffer.new ≡ take result self.old.waiting }
        ensures behind { drop result buffer.new ≡ drop result buffer.old }
        ensures takes { Takes self.old self.new result }
    {
        let waiting = &self.game.waiting()[self.taken..];
        let count = buffer.len().min(waiting.len());
        let all = count == waiting.len();
        buffer[..count].copy_from_slice(&waiting[..count]);
        if all {
            self.game.clear();
            self.taken = 0;
        } else {
            self.taken += count;
        }
        count
    }
}

/// The limit of a match that was fed with these bytes, no line of which has more than it may.
fn limit_after(limit: Option<LineLimit>, bytes: &[u8]) -> Option<LineLimit>
    requires { IsTrue (fits_limit limit bytes.now) }
    ensures { IsLimitAfter limit bytes.now result }
{
    limit?.after(bytes)
}
