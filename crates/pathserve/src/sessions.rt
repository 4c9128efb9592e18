//! Sessions: callers that post by themselves, and a driver that makes turns out of what has come and has them answered.
ghost use Rattle.std.specs.Prelude.{ℕ, ◌≡◌, ◌<◌, ◌≤◌, ◌^◌, All, IfOk, OnOk, length, map};
ghost use denote.Param.Send.{IsSync};
ghost use Rattle.nav_types.specs.declared.limits.TheConstants.{MAX_WORKERS};
ghost use Rattle.posts.specs.Callers.{list_of, of_caller};
ghost use Rattle.posts.specs.Posts.{post_count};
ghost use Rattle.turn_core.specs.Notes.{AreNotes};
ghost use Rattle.turn_core.specs.Solving.{AreAnswersTo};
ghost use Rattle.turn_core.specs.Turns.{replies_in, IsOneThread};
ghost use Rattle.path_service.specs.Callers.{AreNumbered, caller_id, ended_id};
ghost use Rattle.path_service.specs.Closings.{IsClosedBy};
ghost use Rattle.pathserve.specs.Serving.{IsJournalOf, all_taken, collected_by, post_lane, sent_to};
ghost use Rattle.pathserve.specs.inner.Sessions.{HasServed, IsAtStart, IsDriven};
ghost use Rattle.pathserve.specs.inner.Works.{HasPostedNone};

use crate::teams::Team;
use crate::works::{Session, begin_all, end_all, join_all};
use grid_versions::{MapSpec, Version};
use io_edges::Gate;
use nav_types::NoMemory;
use path_service::{Callers, Closed, Driver, EndedCallers, start_service};
use path_workers::{PoolCache, Workers};
use std::alloc::Global;
use std::sync::Wait;
use std::sync::atomic::{AtomicBool, Ordering};
use std::thread;
use std::thread::{Scope, Threads};
use turn_core::{Answerer, Jobs, NotedAnswers, Report, TurnPosts, count_posts};

/// A service all of whose callers have ended.
#[derive(Drop)]
struct Driven {
    driver: Driver,
    ended: EndedCallers,
}

/// Serves callers who post by themselves: each of the map's callers has a work of its own, which posts its list of posts
/// in order, and a driver makes turns of what has come and delivers the replies, until each post has its reply. What was
/// made of the posts is told by the journal of the service, which is then closed.
///
/// The work of a caller passes the gate once, before its first post, and collects once after each post. It waits for no
/// reply. Once each post has its reply, each caller collects what is left of its replies: in all, those of one thread to
/// its posts (`collected`). So many workers, 1 to 64, answer the jobs of a turn, while the next turn is staged. The
/// session may wait. It refuses for want of memory alone.
///
/// Into which turns the posts fall differs from one session to the next.
pub fn serve_session<R: Threads + Wait + Sync, G: Gate + Sync>(
    rt: &R,
    alloc: Global,
    spec: &MapSpec,
    posts: &TurnPosts,
    workers: u8,
    gate: &G,
) -> Result<Closed, NoMemory>
    requires wide { length posts.now ≡ spec.now.callers }
    requires count { post_count posts.now < 2 ^ 32 }
    requires some { 1 ≤ workers }
    requires few { workers ≤ MAX_WORKERS }
    ensures map { IfOk result (λ closed. closed.map ≡ spec.now) }
    ensures journal { IfOk result (λ closed. IsJournalOf spec.now.callers (list_of posts.now) closed.journal) }
    ensures replies { IfOk result (λ closed. IsOneThread spec.now closed.journal closed.replies) }
    ensures posted { IfOk result (λ closed. map post_lane closed.callers ≡ map all_taken posts.now) }
    ensures sent { IfOk result (λ closed. (caller : ℕ)
        → list_of (map sent_to closed.callers) caller ≡ of_caller caller (replies_in closed.replies)) }
    ensures collected { IfOk result (λ closed. (caller : ℕ)
        → list_of (map collected_by closed.callers) caller ≡ of_caller caller (replies_in closed.replies)) }
{
    let short = AtomicBool::new(false);
    let session = Session {
        rt,
        alloc,
        workers,
        gate,
        short: &short,
    };
    let (driver, callers) = start_service(rt, alloc, spec.copy(alloc)?)?;
    let Driven { driver, ended } = run_works(&session, driver, callers, posts)?;
    close(rt, driver, ended)
}

/// Ends a service all of whose callers have ended.
fn close(rt: &impl Wait, driver: Driver, ended: EndedCallers) -> Result<Closed, NoMemory>
    requires callers { map ended_id ended ≡ driver.callers }
    ensures { IfOk result (IsClosedBy driver ended) }
{
    match driver.close(rt, ended) {
        Ok(closed) => Ok(closed),
        Err(refused) => {
            drop(refused);
            Err(NoMemory)
        }
    }
}

/// Runs the works of the callers, and the driver beside them, until each post has its reply and each reply is collected.
fn run_works<R: Threads + Wait + Sync, G: Gate + Sync>(
    session: &Session<'_, R, G>,
    driver: Driver,
    callers: Callers,
    posts: &TurnPosts,
) -> Result<Driven, NoMemory>
    requires driver { IsAtStart driver }
    requires callers { map caller_id callers ≡ driver.callers }
    requires numbers { AreNumbered 0 driver.callers }
    requires first { All HasPostedNone callers }
    requires wide { length posts.now ≡ length callers }
    requires count { post_count posts.now < 2 ^ 32 }
    requires some { 1 ≤ session.now.workers }
    requires few { session.now.workers ≤ MAX_WORKERS }
    ensures { IfOk result (λ driven. IsDriven driver driven.driver posts.now driven.ended) }
{
    let Session {
        rt,
        alloc,
        workers,
        gate,
        short,
    } = *session;
    thread::scope(
        thread::scope_env(),
        rt,
        move |scope| -> Result<Driven, NoMemory>
            requires { IsAtStart driver × (map caller_id callers ≡ driver.callers) × AreNumbered 0 driver.callers
                × All HasPostedNone callers × (length posts.now ≡ length callers) × (post_count posts.now < 2 ^ 32)
                × (1 ≤ workers) × (workers ≤ MAX_WORKERS) }
            ensures { IfOk result (λ driven. IsDriven driver driven.driver posts.entry.now driven.ended) }
        {
            let session = Session {
                rt,
                alloc,
                workers,
                gate,
                short,
            };
            let mut driver = driver;
            match run_beside(scope, &session, &mut driver, callers, posts) {
                Ok(ended) => Ok(Driven { driver, ended }),
                Err(NoMemory) => {
                    drop(driver);
                    Err(NoMemory)
                }
            }
        },
    )
}

/// Begins the works on threads of a scope, has the driver serve them, and ends the callers once their works have ended.
fn run_beside<'s, E, R: Threads + Wait + Sync, G: Gate + Sync>(
    scope: &'s Scope<'s, E>,
    session: &Session<'s, R, G>,
    driver: &mut Driver,
    callers: Callers,
    posts: &'s TurnPosts,
) -> Result<EndedCallers, NoMemory>
    requires driver { IsAtStart driver.old }
    requires callers { map caller_id callers ≡ driver.old.callers }
    requires numbers { AreNumbered 0 driver.old.callers }
    requires first { All HasPostedNone callers }
    requires wide { length posts.now ≡ length callers }
    requires count { post_count posts.now < 2 ^ 32 }
    requires some { 1 ≤ session.now.workers }
    requires few { session.now.workers ≤ MAX_WORKERS }
    ensures { IfOk result (IsDriven driver.old driver.new posts.now) }
{
    let works = begin_all(scope, session, callers, posts)?;
    drive(session, driver, count_posts(posts.as_slice()))?;
    let callers = join_all(session.rt, session.alloc, works)?;
    end_all(session.rt, session.alloc, driver, callers)
}

/// Has turns answered until so many posts have their replies.
fn drive<R: Threads + Wait + Sync, G: Gate + Sync>(
    session: &Session<'_, R, G>,
    driver: &mut Driver,
    posts: u64,
) -> Result<(), NoMemory>
    requires begins { IsAtStart driver.old }
    requires count { posts < 2 ^ 32 }
    requires some { 1 ≤ session.now.workers }
    requires few { session.now.workers ≤ MAX_WORKERS }
    ensures { OnOk result (HasServed driver.old driver.new posts) }
{
    let Session {
        rt,
        alloc,
        workers,
        gate,
        short,
    } = *session;
    let workers = Workers::new(workers, gate);
    let mut team = Team {
        pool_cache: PoolCache::new(alloc),
        run: move |alloc: Global, pool_cache: PoolCache, version: &Version, jobs: &Jobs, report: Report| -> (
            PoolCache,
            Result<NotedAnswers, NoMemory>,
        )
            requires { IsSync R.row × IsSync G.row × (length jobs.now < 2 ^ 32) }
            ensures { IfOk result.1 (λ noted. AreAnswersTo version.now.map version.now.standing jobs.now noted.answers
                × AreNotes version.now.map version.now.standing report jobs.now noted.notes) }
        { workers.answer_in(rt, alloc, pool_cache, version, jobs, report) },
    };
    make_turns(rt, driver, posts, &mut team, gate, short)
}

/// Stages, starts and delivers turns that someone answers, until so many posts have their replies.
fn make_turns<A: Answerer + Send, R: Threads + Wait + Sync, G: Gate>(
    rt: &R,
    driver: &mut Driver,
    posts: u64,
    answerer: &mut A,
    gate: &G,
    short: &AtomicBool,
) -> Result<(), NoMemory>
    requires takes { (count : ℕ) → count < 2 ^ 32 → A.takes answerer.old count }
    requires begins { IsAtStart driver.old }
    requires count { posts < 2 ^ 32 }
    ensures { OnOk result (HasServed driver.old driver.new posts) }
{
    let mut delivered = 0;
    let mut next = 0;
    for _ in rt.forever() {
        if delivered >= posts {
            return Ok(());
        }
        if short.load(Ordering::SeqCst) {
            return Err(NoMemory);
        }
        if next == 0 {
            thread::yield_now();
            next = driver.stage(rt)?;
        } else {
            delivered += next;
            next = driver.start(rt, answerer, gate)?;
            driver.deliver(rt)?;
        }
    }
    unreachable!()
}
