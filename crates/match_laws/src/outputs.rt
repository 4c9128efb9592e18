//! Laws of the output text of an input.
ghost use Rattle.std.specs.Prelude.{◌≡◌, ◌↔◌, ℕ, List, []};
ghost use Rattle.posts.specs.declared.notes.Report.{Report};
ghost use Rattle.posts.specs.declared.notes.Report.TheVariants.{Answers};
ghost use Rattle.posts.specs.declared.posts.Request.{Request};
ghost use Rattle.posts.specs.declared.replies.Answer.{Answer};
ghost use Rattle.posts.specs.Maps.{Map};
ghost use Rattle.turn_core.specs.Words.{Standing};
ghost use Rattle.turn_core.specs.Solving.{IsAnswerTo};
ghost use Rattle.script_text.specs.Script.{beginning, reading, turns_of};
ghost use Rattle.match_play.specs.Texts.{IsOut};
ghost use Rattle.match_laws.specs.Outputs.{HasNote, CanTellInput};

/// A law: an input has an output text under a report exactly where each request of its turns has its note and each turn
/// its numbers. So one that ends no turn has one. Under the report of answers a request has its note where it has an
/// answer.
pub fn has_out()
    ensures exactly { (report : Report) (bytes : List ℕ)
        → CanTellInput report bytes ↔ ((out : List ℕ) × IsOut report bytes out) }
    ensures no_turn { (report : Report) (bytes : List ℕ) → turns_of (reading bytes beginning).items ≡ []
        → (out : List ℕ) × IsOut report bytes out }
    ensures answers { (m : Map) (standing : Standing) (request : Request)
        → HasNote m standing Answers request ↔ ((answer : Answer) × IsAnswerTo m standing request answer) }
{}

/// A law: each input has an output text under each report.
pub fn each_input_has_an_output_text()
    ensures { (report : Report) (bytes : List ℕ) → (out : List ℕ) × IsOut report bytes out }
{}
