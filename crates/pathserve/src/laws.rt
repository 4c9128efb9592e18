//! Laws of the output texts: there is one of each report, what a run that stops early has written is a prefix of it,
//! and the text of the turns is that of the replies of one thread.
ghost use Rattle.std.specs.Prelude.{◌≡◌, ◌≢◌, ◌++◌, ◌<◌, ℕ, List, length, None, Some};
ghost use Rattle.posts.specs.declared.replies.TurnReplies.{TurnReplies};
ghost use Rattle.posts.specs.Maps.{Map};
ghost use Rattle.input_lines.specs.Lines.{full_lines};
ghost use Rattle.script_text.specs.Script.{Stop, bad_line, too_long, stuck_by, beginning, walk, reading, map_after, turns_of};
ghost use Rattle.posts.specs.declared.notes.Note.{Note};
ghost use Rattle.posts.specs.declared.notes.Report.{Report};
ghost use Rattle.posts.specs.declared.notes.Report.TheVariants.{Answers};
ghost use Rattle.turn_core.specs.Words.{bare};
ghost use Rattle.turn_core.specs.Turns.{IsOneThread};
ghost use Rattle.pathserve.specs.Output.{IsOut, IsBeginning, IsTakenText, IsText, IsSummary, turn_texts, noted_texts, AreNotesInTurns};

/// An input has at most one output text of a report.
pub fn one_out()
    ensures { (report : Report) (bytes a b : List ℕ) → IsOut report bytes a → IsOut report bytes b → a ≡ b }
{}

/// A beginning of the output text is a prefix of it.
pub fn beginning_is_prefix()
    ensures { (report : Report) (bytes out whole : List ℕ) → IsBeginning report bytes out → IsOut report bytes whole
        → (rest : List ℕ) × (whole ≡ out ++ rest) }
{}

/// A number has at most one summary of the match that it makes.
pub fn one_summary()
    ensures { (seed : ℕ) (a b : List ℕ) → IsSummary seed a → IsSummary seed b → a ≡ b }
{}

/// The text of the turns taken is one, and it is a beginning of the output text.
pub fn taken_text()
    ensures one { (report : Report) (bytes rest a b : List ℕ) → IsTakenText report bytes rest a
        → IsTakenText report bytes rest b → a ≡ b }
    ensures beginning { (report : Report) (bytes rest out : List ℕ) → IsTakenText report bytes rest out
        → IsBeginning report bytes out }
{}

/// The line that stops an input does not lie among the full lines taken: no beginning of them stops, and a bad line
/// or one that passes a limit comes after them.
pub fn stop_is_not_taken()
    ensures no_stop { (report : Report) (bytes rest out : List ℕ) (text : IsTakenText report bytes rest out)
        (front back : List (List ℕ)) (stop : Stop)
        → full_lines text.taken ≡ front ++ back → (walk front beginning).ends ≢ stuck_by stop }
    ensures later { (report : Report) (bytes rest out : List ℕ) (text : IsTakenText report bytes rest out) (n : ℕ)
        → (reading bytes beginning).ends ≡ stuck_by (bad_line n) → length (full_lines text.taken) < n }
    ensures later_long { (report : Report) (bytes rest out : List ℕ) (text : IsTakenText report bytes rest out) (n : ℕ)
        → (reading bytes beginning).ends ≡ stuck_by (too_long n) → length (full_lines text.taken) < n }
{}

/// A law: where an input gives a map, the text of its turns is that of the replies of one thread to its journal, where
/// nothing is told beside the answers.
pub fn text_is_one_thread()
    ensures told { (bytes text : List ℕ) (m : Map) → map_after None (reading bytes beginning).items ≡ Some m
        → IsText Answers (reading bytes beginning).items text
        → (all : List TurnReplies) × (IsOneThread m (turns_of (reading bytes beginning).items) all
        × (text ≡ turn_texts 1 all)) }
    ensures text { (bytes : List ℕ) (m : Map) (all : List TurnReplies)
        → map_after None (reading bytes beginning).items ≡ Some m
        → IsOneThread m (turns_of (reading bytes beginning).items) all
        → IsText Answers (reading bytes beginning).items (turn_texts 1 all) }
{}

/// A law: where an input gives a map, the text of its turns under a report is that of the replies of one thread to its
/// journal and of the notes of the requests of each turn.
pub fn notes_are_one_thread()
    ensures told { (report : Report) (bytes text : List ℕ) (m : Map)
        → map_after None (reading bytes beginning).items ≡ Some m
        → IsText report (reading bytes beginning).items text
        → (all : List TurnReplies) × ((lists : List (List Note))
        × (IsOneThread m (turns_of (reading bytes beginning).items) all
        × (AreNotesInTurns m bare report (turns_of (reading bytes beginning).items) lists
        × (text ≡ noted_texts 1 all lists)))) }
    ensures text { (report : Report) (bytes : List ℕ) (m : Map) (all : List TurnReplies) (lists : List (List Note))
        → map_after None (reading bytes beginning).items ≡ Some m
        → IsOneThread m (turns_of (reading bytes beginning).items) all
        → AreNotesInTurns m bare report (turns_of (reading bytes beginning).items) lists
        → IsText report (reading bytes beginning).items (noted_texts 1 all lists) }
{}
