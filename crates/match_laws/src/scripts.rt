//! Laws of whole scripts.
ghost use Rattle.std.specs.Prelude.{◌≡◌, ◌↔◌, ◌+◌, ◌≤◌, ◌<◌, ℕ, List, length, take};
ghost use Rattle.posts.specs.declared.posts.Post.{Post};
ghost use Rattle.posts.specs.Maps.{Map};
ghost use Rattle.script_text.specs.Script.{bad_line, beginning, reading, stuck_by};
ghost use Rattle.script_text.specs.ReadsBack.{ReadsAs};
ghost use Rattle.match_laws.specs.Scripts.{IsScriptText, BeginScript, AreShort, lines_of};

/// A law: an input reads as a map and turns exactly where it is within the limits and its lines are a script that says
/// them.
pub fn scripts_are_read()
    ensures { (m : Map) (turns : List (List (List Post))) (bytes : List ℕ)
        → ReadsAs m turns bytes ↔ (AreShort bytes × IsScriptText m turns (lines_of bytes)) }
{}

/// A law: a bad line is the first with which the lines begin no script, or the one after the last where the lines begin a
/// script and are not a whole one.
pub fn bad_lines()
    ensures before { (bytes : List ℕ) (n : ℕ) → (reading bytes beginning).ends ≡ stuck_by (bad_line (n + 1))
        → (n ≤ length (lines_of bytes)) × BeginScript (take n (lines_of bytes)) }
    ensures there { (bytes : List ℕ) (n : ℕ) → (reading bytes beginning).ends ≡ stuck_by (bad_line (n + 1))
        → n < length (lines_of bytes) → BeginScript (take (n + 1) (lines_of bytes)) → ⊥ }
    ensures whole { (bytes : List ℕ) (n : ℕ) (m : Map) (turns : List (List (List Post)))
        → (reading bytes beginning).ends ≡ stuck_by (bad_line (n + 1)) → IsScriptText m turns (lines_of bytes) → ⊥ }
{}
