//! Laws of what is written under `serve`.
ghost use Rattle.std.specs.Prelude.{◌≡◌, ℕ, List};
ghost use Rattle.posts.specs.declared.notes.Report.TheVariants.{Answers};
ghost use Rattle.script_text.specs.ReadsBack.{IsMapValue, AreTurns, IsWithinLimits, canon_script};
ghost use Rattle.match_play.specs.Texts.{IsOut};
ghost use Rattle.pathserve.specs.Output.{turn_texts};
ghost use Rattle.pathserve.specs.Serving.{IsServed};
ghost use Rattle.match_laws.specs.ToldJournals.{script_lines};

/// A law: the journal of a served input has such values as a canonical script is written from.
pub fn served_values()
    ensures map { (bytes out : List ℕ) (served : IsServed bytes out) → IsMapValue served.map }
    ensures turns { (bytes out : List ℕ) (served : IsServed bytes out) → AreTurns served.map served.journal }
{}

/// A law: the journal that a served input gives is told by its output: the lines that begin with `{` are its canonical
/// script.
pub fn journal_is_told()
    ensures { (bytes out : List ℕ) (served : IsServed bytes out)
        → script_lines out ≡ canon_script served.map served.journal }
{}

/// A law: so an output has one map and one journal, where the journal's script is within the limits of an input.
pub fn one_journal()
    ensures map { (a b out : List ℕ) (first : IsServed a out) (second : IsServed b out)
        → IsWithinLimits (script_lines out) → first.map ≡ second.map }
    ensures journal { (a b out : List ℕ) (first : IsServed a out) (second : IsServed b out)
        → IsWithinLimits (script_lines out) → first.journal ≡ second.journal }
{}

/// A law: the answers behind a journal are those that `replay` writes for its script, where that is within the limits of
/// an input.
pub fn served_answers_are_replayed()
    ensures { (bytes out : List ℕ) (served : IsServed bytes out) → IsWithinLimits (script_lines out)
        → IsOut Answers (script_lines out) (turn_texts 1 served.told) }
{}
