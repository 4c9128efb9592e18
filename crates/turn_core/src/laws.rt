//! Laws of turns, and of what one thread answers to them.
ghost use Rattle.std.specs.Prelude.{◌≡◌, ℕ, ◌++◌, ◌∷◌, [], List, length, map, take};
ghost use Rattle.posts.specs.declared.posts.Post.{Post};
ghost use Rattle.posts.specs.declared.posts.Request.{Request};
ghost use Rattle.posts.specs.declared.replies.Answer.{Answer};
ghost use Rattle.posts.specs.declared.replies.Reply.{Reply};
ghost use Rattle.posts.specs.declared.replies.TurnReplies.{TurnReplies};
ghost use Rattle.posts.specs.Maps.{Map};
ghost use Rattle.posts.specs.Callers.{of_caller};
ghost use Rattle.turn_core.specs.Solving.{IsAnswerTo};
ghost use Rattle.turn_core.specs.Words.{Standing, bare};
ghost use Rattle.turn_core.specs.Turns.{standing, IsTurnTold, OneThread, IsOneThread};

/// A law: a request has one answer on a map with what stands on it.
pub fn one_answer()
    ensures { (m : Map) (standing : Standing) (request : Request) (a b : Answer)
        → IsAnswerTo m standing request a → IsAnswerTo m standing request b → a ≡ b }
{}

/// A law: a journal has one list of replies.
pub fn one_list_of_replies()
    ensures { (m : Map) (standing : Standing) (journal : List (List (List Post))) (a b : List (List (List Reply)))
        → OneThread m standing journal a → OneThread m standing journal b → a ≡ b }
{}

/// A law: a turn has one answer, with its numbers.
pub fn turns_are_told_once()
    ensures { (m : Map) (standing : Standing) (turn : List (List Post)) (a b : TurnReplies)
        → IsTurnTold m standing turn a → IsTurnTold m standing turn b → a ≡ b }
{}

/// A law: a journal has one answer, with the numbers of each turn.
pub fn one_thread_answers_once()
    ensures { (m : Map) (journal : List (List (List Post))) (a b : List TurnReplies)
        → IsOneThread m journal a → IsOneThread m journal b → a ≡ b }
{}

/// A law: the answer to a journal and that to one turn more are the answer to the longer journal.
pub fn one_turn_more()
    ensures { (m : Map) (journal : List (List (List Post))) (turn : List (List Post)) (all : List TurnReplies)
        (told : TurnReplies)
        → IsOneThread m journal all → IsTurnTold m (standing m bare journal) turn told
        → IsOneThread m (journal ++ turn ∷ []) (all ++ told ∷ []) }
{}

/// A law: each caller gets as many replies as it posts.
pub fn replies_are_as_many_as_posts()
    ensures { (m : Map) (standing : Standing) (journal : List (List (List Post))) (all : List (List (List Reply)))
        (caller : ℕ)
        → OneThread m standing journal all → length (of_caller caller all) ≡ length (of_caller caller journal) }
{}

/// A law: the answer to the first turns of a journal is the first of the answer to all of it.
pub fn answer_to_first_turns()
    ensures { (m : Map) (journal rest : List (List (List Post))) (all : List TurnReplies)
        → IsOneThread m (journal ++ rest) all → IsOneThread m journal (take (length journal) all) }
{}
