//! Laws of the lines of output texts, for a client that splits them at newlines.
ghost use Rattle.std.specs.Prelude.{◌≡◌, ◌+◌, ℕ, List, [], length, sum_by};
ghost use Rattle.posts.specs.declared.notes.Report.{Report};
ghost use Rattle.posts.specs.declared.notes.Report.TheVariants.{Answers};
ghost use Rattle.posts.specs.declared.posts.Post.{Post};
ghost use Rattle.posts.specs.declared.replies.TurnReplies.{TurnReplies};
ghost use Rattle.posts.specs.Maps.{Map};
ghost use Rattle.turn_core.specs.Words.{Standing};
ghost use Rattle.turn_core.specs.Turns.{IsTurnTold};
ghost use Rattle.input_lines.specs.Lines.{full_lines, tail_of};
ghost use Rattle.script_text.specs.Script.{beginning, reading, turns_of};
ghost use Rattle.match_play.specs.Texts.{IsTurnText, IsOut};
ghost use Rattle.match_laws.specs.AnswerLines.{one_line, lines_of_reply, places_of, lines_of_stop, lines_of_turn, HasTurnLines};

/// A law: the text of a turn is whole lines. The first is that of the turn. Then, caller by caller and post by post, comes the
/// line of each reply, and behind that of a path one of what is told of it beside the answers.
pub fn answer_lines()
    ensures { (report : Report) (m : Map) (standing : Standing) (number : ℕ) (turn : List (List Post)) (text : List ℕ)
        → IsTurnText report m standing number turn text
        → (told : TurnReplies) × (IsTurnTold m standing turn told
        × HasTurnLines number (places_of (lines_of_reply report) 0 told.replies) text) }
{}

/// A law: so under the report of answers a turn has one line for itself, and then one for each post, in the order of the
/// callers and of their posts.
pub fn turns_have_a_line_a_post()
    ensures places { (m : Map) (standing : Standing) (number : ℕ) (turn : List (List Post)) (text : List ℕ)
        → IsTurnText Answers m standing number turn text → HasTurnLines number (places_of one_line 0 turn) text }
    ensures count { (m : Map) (standing : Standing) (number : ℕ) (turn : List (List Post)) (text : List ℕ)
        → IsTurnText Answers m standing number turn text → length (full_lines text) ≡ lines_of_turn turn }
{}

/// A law: an output text is whole lines. Under the report of answers they are those of its turns, and one more where a line of
/// the input is bad.
pub fn outputs_are_lines()
    ensures ended { (report : Report) (bytes out : List ℕ) → IsOut report bytes out → tail_of out ≡ [] }
    ensures count { (bytes out : List ℕ) → IsOut Answers bytes out
        → length (full_lines out) ≡ sum_by lines_of_turn (turns_of (reading bytes beginning).items)
        + lines_of_stop (reading bytes beginning).ends }
{}
