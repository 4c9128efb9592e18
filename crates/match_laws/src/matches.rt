//! Laws of matches that go on.
ghost use Rattle.std.specs.Prelude.{◌≡◌, ◌≤◌, ◌++◌, List, drop, length, map};
ghost use Rattle.std.specs.FinMap as fin_map;
ghost use Rattle.posts.specs.declared.posts.Post.{Post};
ghost use Rattle.posts.specs.declared.replies.TurnReplies.{TurnReplies};
ghost use Rattle.posts.specs.Maps.{Map};
ghost use Rattle.posts.specs.Callers.{of_caller};
ghost use Rattle.turn_core.specs.Words.{bare};
ghost use Rattle.turn_core.specs.Turns.{standing, replies_in, IsOneThread};
ghost use Rattle.script_text.specs.ReadsBack.{AreTurns};
ghost use Rattle.match_play.specs.Saved.{saved};
ghost use Rattle.match_laws.specs.SavedMatches.{added_to};

/// A law: the replies to further turns depend on the map and what stands alone. Where two journals leave the same
/// standing obstructions, the same turns after them are answered alike, numbers of relabelled regions included.
pub fn further_turns()
    ensures { (m : Map) (a b more : List (List (List Post))) (all_a all_b : List TurnReplies)
        → standing m bare a ≡ standing m bare b
        → IsOneThread m (a ++ more) all_a → IsOneThread m (b ++ more) all_b
        → drop (length a) all_a ≡ drop (length b) all_b }
{}

/// A law: one turn in which the first caller adds all that stands, in the order of the numbers, leaves the same
/// standing obstructions. A map has at least one caller.
pub fn saved_standing()
    ensures { (m : Map) (journal : List (List (List Post))) → 1 ≤ m.callers
        → standing m bare (saved m (standing m bare journal)) ≡ standing m bare journal }
{}

/// A law: so a match that is opened again by its map and one turn of adds answers further turns as the match that went
/// on.
pub fn saved_matches_go_on()
    ensures { (m : Map) (journal more : List (List (List Post))) (all again : List TurnReplies) → 1 ≤ m.callers
        → IsOneThread m (journal ++ more) all
        → IsOneThread m (saved m (standing m bare journal) ++ more) again
        → drop (length journal) all ≡ drop 1 again }
{}

/// A law: and that turn can be written as a script where the journal can: its posts have lines in the map's version, and
/// their numbers fit.
pub fn saved_turns_can_be_written()
    ensures { (m : Map) (journal : List (List (List Post))) → 1 ≤ m.callers → AreTurns m journal
        → AreTurns m (saved m (standing m bare journal)) }
{}

/// A law: each add of that turn is answered `Added`.
pub fn saved_obstructions_are_added()
    ensures { (m : Map) (journal : List (List (List Post))) (again : List TurnReplies) → 1 ≤ m.callers
        → IsOneThread m (saved m (standing m bare journal)) again
        → of_caller 0 (replies_in again) ≡ map added_to (fin_map.entries (standing m bare journal)) }
{}
