//! Laws of output texts, under every report.
ghost use Rattle.std.specs.Prelude.{◌≡◌, ◌≤◌, ◌++◌, ℕ, List};
ghost use Rattle.posts.specs.declared.notes.Note.{Note};
ghost use Rattle.posts.specs.declared.notes.Report.{Report};
ghost use Rattle.posts.specs.declared.posts.Post.{Post};
ghost use Rattle.posts.specs.declared.replies.TurnReplies.{TurnReplies};
ghost use Rattle.posts.specs.Maps.{Map};
ghost use Rattle.turn_core.specs.Words.{bare};
ghost use Rattle.turn_core.specs.Turns.{standing};
ghost use Rattle.match_play.specs.Saved.{saved};
ghost use Rattle.match_laws.specs.OpenedTexts.{IsMatchText, GoesOnWith};

/// A law: where two journals leave the same standing obstructions, the same turns after them have the same text under
/// every report, but for the turns' numbers.
pub fn further_texts()
    ensures { (report : Report) (m : Map) (a b more : List (List (List Post))) (one two : List ℕ)
        → standing m bare a ≡ standing m bare b
        → IsMatchText report m (a ++ more) one → IsMatchText report m (b ++ more) two
        → (further : List TurnReplies) × ((notes : List (List Note))
        × (GoesOnWith report m a further notes one × GoesOnWith report m b further notes two)) }
{}

/// A law: so a match that is opened again by its map and one turn of adds writes of further turns what the match that went
/// on writes, but with numbers from 2 on.
pub fn saved_texts_go_on()
    ensures { (report : Report) (m : Map) (journal more : List (List (List Post))) (one two : List ℕ) → 1 ≤ m.callers
        → IsMatchText report m (journal ++ more) one
        → IsMatchText report m (saved m (standing m bare journal) ++ more) two
        → (further : List TurnReplies) × ((notes : List (List Note)) × (GoesOnWith report m journal further notes one
        × GoesOnWith report m (saved m (standing m bare journal)) further notes two)) }
{}
