//! Flow fields, written into buffers of a game.
ghost use Rattle.std.specs.Prelude.{◌≡◌, ◌<◌, ℕ, length, IfOk, IfSome, IsNone, IsTrue, Some};
ghost use Rattle.posts.specs.declared.posts.Post.TheVariants.{Ask};
ghost use Rattle.posts.specs.declared.posts.PathRequest.{PathRequest};
ghost use Rattle.posts.specs.declared.posts.Request.TheVariants.{Path as AsksPath};
ghost use Rattle.posts.specs.declared.replies.Answer.TheVariants.{Path as IsPath};
ghost use Rattle.flat_posts.specs.Posts.{IsPost};
ghost use Rattle.goal_shapes.specs.Limits.{IsSoundGoal};
ghost use Rattle.grid_versions.specs.Versions.{passes_of};
ghost use Rattle.turn_core.specs.Solving.{IsAnswerTo};
ghost use Rattle.flat_ways.specs.Steps.{HasDistance, HasStep};
ghost use Rattle.pathserve_c.specs.Fields.{IsFieldMade, MakesFieldAs};
ghost use Rattle.pathserve_c.specs.Handles.{IsHandle, state_of};
ghost use Rattle.pathserve_c.specs.inner.PathFields.{IsAnsweredWith, IsFieldAsked, IsFieldFor, IsFieldNamed, IsFieldToGoal, IsSized, IsWrittenBy, asks_path};

use crate::finds::asked;
use crate::handles::Handle;
use crate::states::State;
use crate::statuses::{CLOSED, OTHER, PostFault, status_of_posts};
use class_config::ClassName;
use flat_posts::{FlatPost, FlatReply};
use flat_ways::{write_distances, write_steps};
use flow_field::{Field, field};
use goal_reach::made_reachable;
use goal_shapes::{Goal, GoalSpec};
use grid_versions::Version;
use nav_types::{Cell, Class, NoMemory, Size, View};
use posts::{Answer, PathAnswer, Reply, Request};
use std::alloc::Global;
use turn_core::{goal_of, solve};

/// Makes the flow field of a post that asks for a path, on what a view shows: its reply, and of each cell the step and the
/// distance, row by row, as far as the buffers reach.
#[unsafe(no_mangle)]
pub extern "C" fn pathserve_field(
    alloc: Global,
    view: &mut Handle,
    post: &FlatPost,
    reply: &mut FlatReply,
    steps: &mut [u8],
    distances: &mut [u64],
) -> u32
    requires handle { IsHandle view.old }
    ensures handle { IsHandle view.new }
    ensures same { state_of view.new ≡ state_of view.old }
    ensures made { IsFieldMade (state_of view.old) post.now
        (record { reply = reply.old; steps = steps.old; distances = distances.old })
        (record { reply = reply.new; steps = steps.new; distances = distances.new }) result }
{
    let Some(state) = view.take(alloc) else {
        return CLOSED;
    };
    let status = make_field_in(alloc, &state, post, reply, steps, distances);
    view.put(state);
    status
}

/// Makes the field of a post on what a handle shows; anything else than a view refuses.
fn make_field_in(
    alloc: Global,
    state: &State,
    post: &FlatPost,
    reply: &mut FlatReply,
    steps: &mut [u8],
    distances: &mut [u64],
) -> u32
    ensures { IsFieldMade (Some state.now) post.now
        (record { reply = reply.old; steps = steps.old; distances = distances.old })
        (record { reply = reply.new; steps = steps.new; distances = distances.new }) result }
{
    let State::View(version) = state else {
        return OTHER;
    };
    status_of_posts(make_field(alloc, version, post, reply, steps, distances))
}

/// Makes the field of a post on a version. Where it refuses nothing is written.
#[tactic(auto, using(crate::proofs::FieldLaws::makes_field, crate::proofs::FieldLaws::sized))]
fn make_field(
    alloc: Global,
    version: &Version,
    post: &FlatPost,
    reply: &mut FlatReply,
    steps: &mut [u8],
    distances: &mut [u64],
) -> Result<(), PostFault>
    ensures { MakesFieldAs version.now post.now
        (record { reply = reply.old; steps = steps.old; distances = distances.old })
        (record { reply = reply.new; steps = steps.new; distances = distances.new }) result }
{
    let Some((caller, request)) = path_asked(version, post) else {
        return Err(PostFault::BadValue);
    };
    let Ok(FieldAnswer { answer, field }) = answer_with_field(alloc, version, &request) else {
        return Err(PostFault::NoMemory);
    };
    write_field(&field, version.map().size(), steps, distances);
    *reply = FlatReply::of(usize::from(caller), 0, 0, &Reply::Answer(answer));
    Ok(())
}

/// Writes the steps and the distances of a field, where there is one.
fn write_field(field: &Option<Field>, size: Size, steps: &mut [u8], distances: &mut [u64])
    requires { IsSized field.now size }
    ensures steps { IsWrittenBy HasStep field.now size steps.old steps.new }
    ensures distances { IsWrittenBy HasDistance field.now size distances.old distances.new }
{
    if let Some(field) = field {
        write_steps(field, size, steps);
        write_distances(field, size, distances);
    }
}

/// The request for a path that a post is on the map of a version, with its caller. None exactly where it is none.
#[tactic(auto, using(crate::proofs::FieldLaws::region_asks_no_path))]
pub(crate) fn path_asked(version: &Version, post: &FlatPost) -> Option<(u8, Request)>
    ensures some { IfSome result (λ asked. IsPost version.now.map post.now asked.0 (Ask asked.1)) }
    ensures path { IfSome result (λ asked. IsTrue (asks_path asked.1)) }
    ensures none { IsNone result → (caller : ℕ) (request : PathRequest)
        → IsPost version.now.map post.now caller (Ask (AsksPath request)) → ⊥ }
{
    match asked(version, post) {
        Some((caller, request)) => {
            if asks_path(&request) {
                Some((caller, request))
            } else {
                None
            }
        }
        None => None,
    }
}

/// Whether a request asks for a path.
fn asks_path(request: &Request) -> bool
    ensures { result ≡ asks_path request.now }
{
    match request {
        Request::Path(_) => true,
        Request::Region(_) => false,
    }
}

/// The answer to a request, and its flow field where it is a path.
#[derive(Drop)]
struct FieldAnswer {
    answer: Answer,
    field: Option<Field>,
}

/// The answer to a request, with its flow field where it is a path.
fn answer_with_field(
    alloc: Global,
    version: &Version,
    request: &Request,
) -> Result<FieldAnswer, NoMemory>
    ensures { IfOk result (IsAnsweredWith version.now request.now) }
{
    let answer = solve(alloc, version, request)?;
    let field = match &answer {
        Answer::Path(path) => Some(field_of(alloc, version, request, path)?),
        Answer::Refused(_) | Answer::Nowhere | Answer::Region(_) => None,
    };
    Ok(FieldAnswer { answer, field })
}

/// The flow field of a request that is answered by a path.
#[tactic(auto, using(crate::proofs::FieldLaws::asked_by_path, crate::proofs::FieldLaws::region_has_no_path))]
fn field_of(
    alloc: Global,
    version: &Version,
    request: &Request,
    path: &PathAnswer,
) -> Result<Field, NoMemory>
    requires { IsAnswerTo version.now.map version.now.standing request.now (IsPath path.now) }
    ensures { IfOk result (IsFieldFor version.now request.now path.now.start) }
{
    match request {
        Request::Path(request) => {
            field_named(alloc, version, &request.class, &request.goal, path.start)
        }
        Request::Region(_) => unreachable!(),
    }
}

/// The flow field to a goal for a class by its name, in the area of a start.
#[tactic(auto, using(crate::proofs::FieldLaws::field_named))]
fn field_named(
    alloc: Global,
    version: &Version,
    name: &ClassName,
    spec: &GoalSpec,
    start: Cell,
) -> Result<Field, NoMemory>
    requires { IsFieldAsked version.now name.now spec.now start }
    ensures { IfOk result (IsFieldNamed version.now name.now spec.now start) }
{
    let Some(class) = version.map().classes().find(name) else {
        unreachable!()
    };
    match goal_of(version, spec) {
        Ok(goal) => field_to(alloc, version, class, start, &goal),
        Err(_) => unreachable!(),
    }
}

/// The flow field to a goal for a class, in the area of a passable start.
fn field_to(
    alloc: Global,
    version: &Version,
    class: Class,
    start: Cell,
    goal: &Goal,
) -> Result<Field, NoMemory>
    requires class { class < length version.now.map.classes }
    requires start { IsTrue (passes_of version.now class start) }
    requires goal { IsSoundGoal version.now.map.size goal.now }
    ensures { IfOk result (IsFieldToGoal version.now class start goal.now) }
{
    let target = made_reachable(version, class, start, goal);
    let view = version.class_view(class);
    field(alloc, &view, class, start, &target)
}
