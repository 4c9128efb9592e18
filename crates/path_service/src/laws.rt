//! Laws of callers, and of services that have ended.
ghost use Rattle.std.specs.Prelude.{◌≡◌, ◌∷◌, List, false};
ghost use Rattle.posts.specs.declared.posts.Post.{Post};
ghost use Rattle.posts.specs.declared.replies.Reply.{Reply};
ghost use Rattle.path_service.specs.machine.States.{State};
ghost use Rattle.path_service.specs.Callers.{CallerState, EndedState};
ghost use Rattle.path_service.specs.CallerSteps.{HasListsOf, PostsInStep, CollectsInStep};
ghost use Rattle.path_service.specs.Services.{DriverState};
ghost use Rattle.path_service.specs.Closings.{ClosedState, IsClosedBy, IsReachedByMachine};

/// A law: a post is a step of the turn machine, from each state whose lists for the caller are the caller's.
pub fn posts_are_steps()
    ensures { (s : State) (caller : CallerState) (post : Post) (next : List Reply) → HasListsOf s caller next
        → PostsInStep s caller post next }
{}

/// A law: so is collecting the next reply.
pub fn collected_replies_are_steps()
    ensures { (s : State) (caller : CallerState) (reply : Reply) (next : List Reply) → HasListsOf s caller (reply ∷ next)
        → CollectsInStep s caller reply next }
{}

/// A law: what a closed service left, where its driver had not failed, is a state that the turn machine reaches.
pub fn closed_services_are_reached()
    ensures { (driver : DriverState) (ended : List EndedState) (closed : ClosedState) → driver.failed ≡ false
        → IsClosedBy driver ended closed → IsReachedByMachine ended closed }
{}
