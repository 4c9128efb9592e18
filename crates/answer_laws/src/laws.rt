//! Laws that requests, turns and journals have answers, on every map and with whatever stands on it.
ghost use Rattle.std.specs.Prelude.{◌≤◌, List, length};
ghost use Rattle.nav_types.specs.declared.limits.TheConstants.{MAX_CLASSES};
ghost use Rattle.posts.specs.declared.notes.Note.{Note};
ghost use Rattle.posts.specs.declared.notes.Report.{Report};
ghost use Rattle.posts.specs.declared.posts.Post.{Post};
ghost use Rattle.posts.specs.declared.posts.Request.{Request};
ghost use Rattle.posts.specs.declared.replies.Answer.{Answer};
ghost use Rattle.posts.specs.declared.replies.TurnReplies.{TurnReplies};
ghost use Rattle.posts.specs.Maps.{Map};
ghost use Rattle.turn_core.specs.Words.{Standing, TellsNumbers};
ghost use Rattle.turn_core.specs.Solving.{IsAnswerTo, AreAnswersTo};
ghost use Rattle.turn_core.specs.Turns.{IsTurnTold, IsOneThread};
ghost use Rattle.turn_core.specs.Notes.{IsNote, AreNotes};
ghost use Rattle.answer_laws.specs.WordFits.{AnswerFits, NoteFits, NumbersFit};

/// A law: each request has an answer on each map with whatever stands on it, and requests have a list of answers.
pub fn each_request_has_an_answer()
    ensures one { (m : Map) (standing : Standing) (request : Request)
        → (answer : Answer) × IsAnswerTo m standing request answer }
    ensures list { (m : Map) (standing : Standing) (requests : List Request)
        → (answers : List Answer) × AreAnswersTo m standing requests answers }
{}

/// A law: the answers to requests fit the program's words: the cells of a path lie on the map, its cost has 64 bits, the
/// numbers of chunks and regions have 16 bits, and those of areas 32.
pub fn answers_fit()
    ensures { (m : Map) (standing : Standing) (request : Request) (answer : Answer)
        → IsAnswerTo m standing request answer → AnswerFits m.size answer }
{}

/// A law: each request has a note under each report, and requests have a list of notes.
pub fn each_request_has_a_note()
    ensures one { (m : Map) (standing : Standing) (report : Report) (request : Request)
        → (note : Note) × IsNote m standing report request note }
    ensures list { (m : Map) (standing : Standing) (report : Report) (requests : List Request)
        → (notes : List Note) × AreNotes m standing report requests notes }
{}

/// A law: the notes of requests fit the program's words: the numbers have 64 bits, and the points lie on the map.
pub fn notes_fit()
    ensures { (m : Map) (standing : Standing) (report : Report) (request : Request) (note : Note)
        → IsNote m standing report request note → NoteFits m.size note }
{}

/// A law: there are numbers of regions, region edges, areas and changed pairs of class and chunk, whatever stood before and
/// stands now.
pub fn each_turn_has_numbers()
    ensures { (m : Map) (before now : Standing) → (told : TurnReplies) × TellsNumbers m before now told }
{}

/// A law: the numbers of a turn fit the program's words, where the map has no more than 16 classes: those of regions, edges
/// and areas have 64 bits, and that of changed pairs has 32.
pub fn numbers_fit()
    ensures { (m : Map) (before now : Standing) (told : TurnReplies)
        → length m.classes ≤ MAX_CLASSES → TellsNumbers m before now told → NumbersFit told }
{}

/// A law: each turn has an answer, with its numbers.
pub fn each_turn_has_an_answer()
    ensures { (m : Map) (standing : Standing) (turn : List (List Post))
        → (told : TurnReplies) × IsTurnTold m standing turn told }
{}

/// A law: each journal has an answer, with the numbers of each turn.
pub fn each_journal_has_an_answer()
    ensures { (m : Map) (journal : List (List (List Post))) → (all : List TurnReplies) × IsOneThread m journal all }
{}
