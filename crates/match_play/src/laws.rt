//! Laws of matches.
ghost use Rattle.std.specs.Prelude.{◌≡◌, ℕ, List, Some};
ghost use Rattle.script_text.specs.declared.causes.Cause.{Cause};
ghost use Rattle.script_text.specs.Causes.{stop_cause};
ghost use Rattle.script_text.specs.Script.{beginning};
ghost use Rattle.match_play.specs.declared.states.MatchState.{MatchState};
ghost use Rattle.match_play.specs.Playing.{HasPlayed, bad_cause};

/// A law: the cause that a match tells of the bad line at which it has stopped is that of the first bad line of all that it was
/// fed with.
pub fn one_cause()
    ensures { (m : MatchState) (fed told : List ℕ) (cause : Cause) → HasPlayed m fed told → bad_cause m ≡ Some cause
        → stop_cause fed beginning ≡ Some cause }
{}
