//! Why an event is not enabled.
ghost use Rattle.std.specs.Prelude.{◌≡◌, ◌-◌, ◌≤◌, None, length, slice_index_or};
ghost use Rattle.nav_types.specs.declared.limits.TheConstants.{MAX_CALLERS};
ghost use Rattle.path_service.specs.machine.Table.{or_else, why_no_caller, why_not_each, why_staged, why_few, why_none_staged};
ghost use Rattle.path_service.specs.machine.Table.{why_running, why_no_claim, why_no_finish, why_answered, why_unanswered};
ghost use Rattle.path_service.specs.machine.Table.{why_no_delivery, why_collected};
ghost use Rattle.turn_model.specs.inner.Runs.{option_run_of, option_posts_of};

use crate::machines::running::RunningTurn;
use crate::machines::staging::number_at;
use path_service::{Takes, Why};
use posts::{Answer, Posts};

/// The first cause, where there is one, else the second.
pub(crate) fn or_else(first: Option<Why>, second: Option<Why>) -> Option<Why>
    ensures { result ≡ or_else first second }
{
    match first {
        None => second,
        Some(why) => Some(why),
    }
}

/// There is no caller of the number.
pub(crate) fn why_no_caller(callers: u8, caller: u8) -> Option<Why>
    ensures { result ≡ why_no_caller callers caller }
{
    if caller < callers {
        None
    } else {
        Some(Why::Callers(callers))
    }
}

/// There is not one number for each caller.
pub(crate) fn why_not_each(callers: u8, takes: &Takes) -> Option<Why>
    ensures { result ≡ why_not_each callers takes.now }
{
    if takes.len() == usize::from(callers) {
        None
    } else {
        Some(Why::Callers(callers))
    }
}

/// A turn is staged.
pub(crate) fn why_staged(last: u64, staged: &Option<RunningTurn>) -> Option<Why>
    ensures { result ≡ why_staged last (option_posts_of staged.now) }
{
    match staged {
        None => None,
        Some(_) => Some(Why::Staged(last)),
    }
}

/// The first caller that is to have more posts taken than it has left.
pub(crate) fn why_few(posted: &[Posts], taken: &[u64], takes: &[u64]) -> Option<Why>
    requires { length posted.now ≤ MAX_CALLERS }
    ensures { result ≡ why_few 0 posted.now taken.now takes.now }
{
    for (caller, posts) in posted.iter().enumerate() {
        let wanted = number_at(takes, caller);
        let left = left_of(posts, number_at(taken, caller));
        if wanted > left {
            return Some(Why::Posted(caller as u8, left));
        }
    }
    None
}

/// How many of the posts are not taken.
fn left_of(posts: &Posts, taken: u64) -> u64
    ensures { result ≡ length posts.now - taken }
{
    (posts.len() as u64).saturating_sub(taken)
}

/// No turn is staged.
pub(crate) fn why_none_staged(last: u64, staged: &Option<RunningTurn>) -> Option<Why>
    ensures { result ≡ why_none_staged last (option_posts_of staged.now) }
{
    match staged {
        None => Some(Why::NoneStaged(last)),
        Some(_) => None,
    }
}

/// A turn runs.
pub(crate) fn why_running(number: u64, running: &Option<RunningTurn>) -> Option<Why>
    ensures { result ≡ why_running number (option_run_of running.now) }
{
    match running {
        None => None,
        Some(_) => Some(Why::Running(number)),
    }
}

/// No turn runs, or it has no job that is not claimed.
pub(crate) fn why_no_claim(last: u64, running: &Option<RunningTurn>) -> Option<Why>
    ensures { result ≡ why_no_claim last (option_run_of running.now) }
{
    let Some(run) = running else {
        return Some(Why::NoneRunning(last));
    };
    let count = run.ready.jobs().len() as u64;
    if run.claimed < count {
        None
    } else {
        Some(Why::AllClaimed(count))
    }
}

/// No turn runs, or the job is not claimed, or it is answered.
pub(crate) fn why_no_finish(job: u64, last: u64, running: &Option<RunningTurn>) -> Option<Why>
    ensures { result ≡ why_no_finish job last (option_run_of running.now) }
{
    let Some(run) = running else {
        return Some(Why::NoneRunning(last));
    };
    if job >= run.claimed {
        return Some(Why::Claimed(run.claimed));
    }
    why_answered(job, run.answers.as_slice())
}

/// The job is answered.
fn why_answered(job: u64, answers: &[Option<Answer>]) -> Option<Why>
    ensures { result ≡ why_answered job (slice_index_or answers.now job None) }
{
    match answers.get(job as usize) {
        Some(Some(_)) => Some(Why::Answered(job)),
        _ => None,
    }
}

/// The least job that is not answered.
fn why_unanswered(answers: &[Option<Answer>]) -> Option<Why>
    ensures { result ≡ why_unanswered 0 answers.now }
{
    for (job, answer) in answers.iter().enumerate() {
        if answer.is_none() {
            return Some(Why::Unanswered(job as u64));
        }
    }
    None
}

/// No turn runs, or a job is not claimed, or one is not answered.
pub(crate) fn why_no_delivery(last: u64, running: &Option<RunningTurn>) -> Option<Why>
    ensures { result ≡ why_no_delivery last (option_run_of running.now) }
{
    let Some(run) = running else {
        return Some(Why::NoneRunning(last));
    };
    if run.claimed < run.ready.jobs().len() as u64 {
        return Some(Why::Unclaimed(run.claimed));
    }
    why_unanswered(run.answers.as_slice())
}

/// All replies are collected.
pub(crate) fn why_collected(count: u64, replies: u64) -> Option<Why>
    ensures { result ≡ why_collected count replies }
{
    if count < replies {
        None
    } else {
        Some(Why::Collected(count))
    }
}
