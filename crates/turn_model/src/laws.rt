//! Laws of the turn machine and of its runs.
ghost use Rattle.std.specs.Prelude.{◌≡◌, ℕ, ◌++◌, List, Option, None, Some, length, map, slice_index};
ghost use Rattle.posts.specs.declared.posts.Post.{Post};
ghost use Rattle.posts.specs.declared.replies.Answer.{Answer};
ghost use Rattle.posts.specs.declared.replies.Reply.{Reply};
ghost use Rattle.posts.specs.Maps.{Map};
ghost use Rattle.posts.specs.Posts.{jobs};
ghost use Rattle.posts.specs.Callers.{list_of};
ghost use Rattle.path_service.specs.declared.events.Event.{Event};
ghost use Rattle.path_service.specs.declared.events.Event.TheVariants.{Stage, Deliver};
ghost use Rattle.turn_core.specs.Solving.{AreAnswersTo};
ghost use Rattle.turn_core.specs.Words.{bare};
ghost use Rattle.turn_core.specs.Turns.{after_turn, AreTurnReplies, OneThread};
ghost use Rattle.path_service.specs.machine.States.{State, opening, stands_after_done};
ghost use Rattle.path_service.specs.machine.Effects.{IsStep, IsMachineRun, joined_up};
ghost use Rattle.path_service.specs.machine.Facts.{Facts};
ghost use Rattle.path_service.specs.machine.Arrival.{post_events, answering, arrival, CanStage, answered_run, in_stage, in_run};
ghost use Rattle.path_service.specs.machine.Arrival.{at_end, CanArrive, HasArrived};

/// A law: what holds of each state that the machine reaches holds of the state in which it opens.
pub fn facts_hold_at_opening()
    ensures { (m : Map) → Facts (opening m) }
{}

/// A law: each step keeps what holds of each state that the machine reaches.
pub fn facts_are_kept()
    ensures { (old : State) (event : Event) (handed : Option Reply) (new : State)
        → Facts old → IsStep old event handed new → Facts new }
{}

/// A law: the facts hold after each run from a state in which they hold.
pub fn facts_hold_after_runs()
    ensures { (old : State) (events : List Event) (handed : List (Option Reply)) (new : State)
        → Facts old → IsMachineRun old events handed new → Facts new }
{}

/// A law: a run and one from the state that it leaves are one run.
pub fn runs_join()
    ensures { (old : State) (events : List Event) (handed : List (Option Reply)) (mid : State) (more : List Event) (rest : List (Option Reply))
        (new : State)
        → IsMachineRun old events handed mid → IsMachineRun mid more rest new → IsMachineRun old (events ++ more) (handed ++ rest) new }
{}

/// A law: each caller can post its list, caller by caller, and then has it behind what it posted before.
pub fn lists_are_posted()
    ensures { (s : State) (posted : List (List Post)) → length s.posted ≡ s.map.callers → length posted ≡ s.map.callers
        → (handed : List (Option Reply)) × IsMachineRun s (post_events 0 posted) handed
        (record s { posted = joined_up s.posted posted }) }
{}

/// A law: where no turn is staged, a turn can be staged that holds the next posts of each caller. A turn may run beside
/// it.
pub fn posted_turns_are_staged()
    ensures { (s : State) (turn : List (List Post)) → Facts s → s.staged ≡ None → length turn ≡ s.map.callers
        → CanStage s turn
        → IsStep s (Stage (map length turn)) None (in_stage s turn) }
{}

/// A law: where no turn runs, the staged turn can be started and its jobs claimed and finished, and the answers to them
/// stand in its run.
pub fn staged_turns_are_answered()
    ensures { (s : State) (turn : List (List Post)) (answers : List Answer) → s.staged ≡ Some turn → s.running ≡ None
        → AreAnswersTo s.map (after_turn s.map (stands_after_done s) turn) (jobs turn) answers
        → (handed : List (Option Reply)) × IsMachineRun s (answering turn) handed (in_run s (answered_run turn answers)) }
{}

/// A law: a running turn whose jobs are answered can be delivered, with the replies of one thread to it.
pub fn answered_turns_are_delivered()
    ensures { (s : State) (turn : List (List Post)) (answers : List Answer) (replies : List (List Reply))
        → s.running ≡ Some (answered_run turn answers)
        → AreAnswersTo s.map (after_turn s.map (stands_after_done s) turn) (jobs turn) answers
        → AreTurnReplies s.map (after_turn s.map (stands_after_done s) turn) (stands_after_done s) turn replies
        → IsStep s Deliver None (at_end s turn replies) }
{}

/// A law: events lead to one state, and hand out the same replies.
pub fn one_run()
    ensures replies { (old : State) (events : List Event) (a b : List (Option Reply)) (s t : State)
        → IsMachineRun old events a s → IsMachineRun old events b t → a ≡ b }
    ensures state { (old : State) (events : List Event) (a b : List (Option Reply)) (s t : State)
        → IsMachineRun old events a s → IsMachineRun old events b t → s ≡ t }
{}

/// A law: the machine can come to each journal that one thread answers. Where each caller's posts in the
/// journal are the first of its list, and it is to collect no more replies than these, each event of the
/// arrival is enabled in its turn, and the state that they leave is the one wanted.
pub fn each_journal_is_reached()
    ensures reached { (m : Map) (journal : List (List (List Post))) (posted : List (List Post)) (counts : List ℕ)
        (all : List (List (List Reply)))
        → CanArrive m journal posted counts → OneThread m bare journal all
        → (handed : List (Option Reply)) × ((new : State)
        × (IsMachineRun (opening m) (arrival journal posted counts) handed new × HasArrived m new journal posted counts all)) }
    ensures each { (m : Map) (journal : List (List (List Post))) (posted : List (List Post)) (counts : List ℕ)
        (all : List (List (List Reply)))
        (handed : List (Option Reply)) (new : State)
        → CanArrive m journal posted counts → OneThread m bare journal all
        → IsMachineRun (opening m) (arrival journal posted counts) handed new → HasArrived m new journal posted counts all }
{}

/// A law: where nothing is staged or running and all posts are taken, each post has exactly one reply.
pub fn settled_posts_have_one_reply()
    ensures { (s : State) → Facts s → s.staged ≡ None → s.running ≡ None
        → ((caller : ℕ) → slice_index s.taken caller ≡ length (list_of s.posted caller))
        → (caller : ℕ) → length (list_of s.replies caller) ≡ length (list_of s.posted caller) }
{}
