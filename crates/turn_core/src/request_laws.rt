//! Laws of requests and of their answers.
ghost use Rattle.std.specs.Prelude.{◌≡◌, ◌↔◌, Bool, ℕ, ℤ, All, List, IsTrue, Some, length, slice_get};
ghost use Rattle.nav_types.specs.declared.cells.Cell.{Cell};
ghost use Rattle.nav_types.specs.declared.cells.Size.{Size};
ghost use Rattle.fixed_point.specs.Plane.{IsOnAxis, IsUpTo, is_up_to};
ghost use Rattle.goal_shapes.specs.declared.goals.Goal.{Goal};
ghost use Rattle.goal_shapes.specs.Limits.{IsWellFormed};
ghost use Rattle.goal_reach.specs.declared.targets.Target.{Target};
ghost use Rattle.goal_reach.specs.Targets.{hit_by, AreTargets};
ghost use Rattle.flow_field.specs.Flows.{IsFar};
ghost use Rattle.posts.specs.declared.replies.PathAnswer.{PathAnswer};
ghost use Rattle.posts.specs.declared.posts.Request.{Request};
ghost use Rattle.posts.specs.declared.replies.Answer.{Answer};
ghost use Rattle.posts.specs.declared.replies.TurnReplies.{TurnReplies};
ghost use Rattle.posts.specs.Maps.{Map};
ghost use Rattle.posts.specs.declared.notes.Note.{Note};
ghost use Rattle.posts.specs.declared.notes.Note.TheVariants.{Nothing};
ghost use Rattle.posts.specs.declared.notes.Report.{Report};
ghost use Rattle.posts.specs.declared.notes.Report.TheVariants.{Answers};
ghost use Rattle.turn_core.specs.Words.{Standing, TellsNumbers};
ghost use Rattle.turn_core.specs.NamedGoals.{is_on_map, is_well_formed};
ghost use Rattle.turn_core.specs.Solving.{IsAnswerTo, IsPathAnswer, AreAnswersTo};
ghost use Rattle.turn_core.specs.Notes.{IsNote, AreNotes};

/// A law: the tests of points, lengths and goals hold exactly where what they test does.
pub fn tests_hold_where_they_should()
    ensures on_map { (size : Size) (x z : ℤ) → IsTrue (is_on_map size x z) ↔ (IsOnAxis size.w x × IsOnAxis size.h z) }
    ensures up_to { (most : ℕ) (length : ℤ) → IsTrue (is_up_to most length) ↔ IsUpTo most length }
    ensures well_formed { (goal : Goal) → IsTrue (is_well_formed goal) ↔ IsWellFormed goal }
{}

/// A law: requests have one list of answers on a map with what stands on it.
pub fn one_list_of_answers()
    ensures { (map : Map) (standing : Standing) (requests : List Request) (a b : List Answer)
        → AreAnswersTo map standing requests a → AreAnswersTo map standing requests b → a ≡ b }
{}

/// A law: answers are answers to requests where there are as many, and each is one to the request in its place.
pub fn answers_by_place()
    ensures { (map : Map) (standing : Standing) (requests : List Request) (answers : List Answer)
        → AreAnswersTo map standing requests answers
        ↔ ((length answers ≡ length requests)
        × ((place : ℕ) (request : Request) (answer : Answer) → slice_get requests place ≡ Some request
        → slice_get answers place ≡ Some answer
        → IsAnswerTo map standing request answer)) }
{}

/// A law: a request has one note under a report on a map with what stands on it.
pub fn one_note_of_a_request()
    ensures { (map : Map) (standing : Standing) (report : Report) (request : Request) (a b : Note)
        → IsNote map standing report request a → IsNote map standing report request b → a ≡ b }
{}

/// A law: requests have one list of notes under a report on a map with what stands on it.
pub fn one_list_of_notes()
    ensures { (map : Map) (standing : Standing) (report : Report) (requests : List Request) (a b : List Note)
        → AreNotes map standing report requests a → AreNotes map standing report requests b → a ≡ b }
{}

/// A law: notes are notes of requests where there are as many, and each is that of the request in its place.
pub fn notes_by_place()
    ensures { (map : Map) (standing : Standing) (report : Report) (requests : List Request) (notes : List Note)
        → AreNotes map standing report requests notes
        ↔ ((length notes ≡ length requests)
        × ((place : ℕ) (request : Request) (note : Note) → slice_get requests place ≡ Some request
        → slice_get notes place ≡ Some note
        → IsNote map standing report request note)) }
{}

/// A law: under the report of answers nothing is told beside them.
pub fn answers_tell_nothing()
    ensures { (map : Map) (standing : Standing) (requests : List Request) (notes : List Note)
        → AreNotes map standing Answers requests notes → All (λ note. note ≡ Nothing) notes }
{}

/// A law: a path costs the distance of its start to the nearest of its targets, which is what their flow field has there.
pub fn paths_cost_their_distance()
    ensures { (passes : Cell → Bool) (x z : ℤ) (goal : Goal) (path : PathAnswer) → IsPathAnswer passes x z goal path
        → (target : Target) × (AreTargets passes path.start goal target
        × IsFar passes (hit_by target) path.start path.start (Some path.cost.0)) }
{}

/// A law: a turn has one set of numbers.
pub fn one_set_of_numbers()
    ensures tallies { (map : Map) (before after : Standing) (a b : TurnReplies)
        → TellsNumbers map before after a → TellsNumbers map before after b → a.tallies ≡ b.tallies }
    ensures relabelled { (map : Map) (before after : Standing) (a b : TurnReplies)
        → TellsNumbers map before after a → TellsNumbers map before after b → a.relabelled ≡ b.relabelled }
{}
