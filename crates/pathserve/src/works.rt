//! The works of callers: each posts its posts by itself, on a thread of its own.
ghost use Rattle.std.specs.Prelude.{◌≡◌, ◌++◌, ◌≤◌, ◌^◌, All, IfOk, List, OnOk, Some, length, map, slice_get};
ghost use Rattle.posts.specs.declared.posts.Post.{Post as APost};
ghost use Rattle.path_service.specs.Callers.{AreNumbered, CallerId, caller_id};
ghost use Rattle.pathserve.specs.inner.Works.{AllEndWith, EndsWith, HasPosted, HasPostedNone, HaveAllPosted, IsShort};
ghost use Rattle.pathserve.specs.inner.Begun.{Begins, BeginAll};

use io_edges::Gate;
use nav_types::NoMemory;
use path_service::{Caller, Callers, Driver, EndedCaller, EndedCallers};
use std::alloc::Global;
use std::snapshot::Snapshot;
use std::sync::Wait;
use std::sync::atomic::{AtomicBool, Ordering};
use std::thread::{Promise, PromisedHandle, Scope, Threads};
use turn_core::{Post, Posts, TurnPosts};

/// What all of a session works with: the number of workers who answer its turns, 1 to 64, the gate that they and the
/// callers' works pass, and a flag that is raised where there was no memory for a post.
#[derive(Drop)]
pub(crate) struct Session<'a, R, G> {
    pub rt: &'a R,
    pub alloc: Global,
    pub workers: u8,
    pub gate: &'a G,
    pub short: &'a AtomicBool,
}

/// What the work of a caller promises: it gives back that caller, and what it posted are the first of these posts.
#[derive(Drop)]
pub(crate) struct PostsOf {
    caller: Snapshot<Caller>,
    posts: Snapshot<Posts>,
}

impl Promise<Caller> for PostsOf {
    ghost use Rattle.pathserve.specs.inner.Works.{HasPosted};

    ghost kept_by = { λ promise caller. HasPosted promise.caller.value.id promise.posts.value caller };
}

/// The work of a caller that was begun.
#[derive(Drop)]
pub(crate) enum Begun {
    /// It goes on, on a thread of its own.
    There(PromisedHandle<Caller, PostsOf>),
    /// No thread could be started for it, and it was done at once.
    Here(Caller),
}

/// Begins the works of callers, each of the posts in its place.
pub(crate) fn begin_all<'s, E, R: Wait + Sync, G: Gate + Sync>(
    scope: &'s Scope<'s, E>,
    session: &Session<'s, R, G>,
    callers: Callers,
    posts: &'s TurnPosts,
) -> Result<Vec<Begun>, NoMemory>
    requires first { All HasPostedNone callers }
    requires wide { length posts.now ≡ length callers }
    requires room { All IsShort posts.now }
    ensures { IfOk result (λ works. BeginAll (map caller_id callers) posts.now works.items) }
{
    let lists = posts.as_slice();
    let mut works = Vec::with_capacity(session.alloc, lists.len())?;
    let mut callers = callers.into_items().into_iter();
    for list in lists {
        let Some(caller) = callers.next() else {
            unreachable!();
        };
        works.push_reserved(begin(scope, session, caller, list));
    }
    Ok(works)
}

/// Begins the work of a caller. Where no thread can be started for it, it is done at once.
fn begin<'s, E, R: Wait + Sync, G: Gate + Sync>(
    scope: &'s Scope<'s, E>,
    session: &Session<'s, R, G>,
    caller: Caller,
    posts: &'s Posts,
) -> Begun
    requires first { HasPostedNone caller }
    requires room { IsShort posts.now }
    ensures { Begins caller.id posts.now result }
{
    let promise = PostsOf {
        caller: Snapshot::of(&caller),
        posts: Snapshot::of(posts),
    };
    let rt = session.rt;
    let gate = session.gate;
    let short = session.short;
    let begun = scope.spawn_with(
        promise,
        move || -> Caller
            requires { HasPostedNone caller × IsShort posts.now }
            ensures { HasPosted caller.id posts.entry.now result }
        { work(rt, gate, short, caller, posts) },
    );
    match begun {
        Ok(handle) => Begun::There(handle),
        Err(refused) => Begun::Here((refused.value)()),
    }
}

/// The work of a caller: it passes the gate and posts its posts. Where there is no memory for a post it raises the flag
/// and posts no more. It waits for no reply.
fn work<R: Wait, G: Gate>(
    rt: &R,
    gate: &G,
    short: &AtomicBool,
    caller: Caller,
    posts: &Posts,
) -> Caller
    requires first { HasPostedNone caller }
    requires room { IsShort posts.now }
    ensures { HasPosted caller.id posts.now result }
{
    let mut caller = caller;
    gate.begun(caller.number());
    if post_all(rt, &mut caller, posts.as_slice()).is_err() {
        short.store(true, Ordering::SeqCst);
    }
    caller
}

/// Posts the posts in their order, and collects once after each.
fn post_all(rt: &impl Wait, caller: &mut Caller, posts: &[Post]) -> Result<(), NoMemory>
    requires { length (caller.old.posted ++ posts.now) ≤ 2 ^ 62 }
    ensures caller { caller.new.id ≡ caller.old.id }
    ensures first { (rest : List APost) × (caller.new.posted ++ rest ≡ caller.old.posted ++ posts.now) }
{
    for post in posts {
        caller.post(rt, *post)?;
        let _reply = caller.collect(rt);
    }
    Ok(())
}

/// The callers of the works, each when its work has ended.
pub(crate) fn join_all(
    rt: &impl Threads,
    alloc: Global,
    works: Vec<Begun>,
) -> Result<Callers, NoMemory>
    ensures { IfOk result (λ callers. (ids : List CallerId) (lists : List (List APost))
        → BeginAll ids lists works.items → HaveAllPosted ids lists callers) }
{
    let mut callers = Vec::with_capacity(alloc, works.len())?;
    for begun in works {
        callers.push_reserved(join_work(rt, begun));
    }
    Ok(Callers::from(callers))
}

/// The caller of a work that was begun, when it has ended.
fn join_work(rt: &impl Threads, begun: Begun) -> Caller
    ensures { (id : CallerId) (posts : List APost) → Begins id posts begun → HasPosted id posts result }
{
    match begun {
        Begun::There(handle) => handle.join(rt),
        Begun::Here(caller) => caller,
    }
}

/// Ends the callers, each once it has collected every reply that was sent to it.
pub(crate) fn end_all(
    rt: &impl Wait,
    alloc: Global,
    driver: &mut Driver,
    callers: Callers,
) -> Result<EndedCallers, NoMemory>
    requires callers { map caller_id callers ≡ driver.old.callers }
    requires numbers { AreNumbered 0 driver.old.callers }
    ensures driver { OnOk result (driver.new ≡ driver.old) }
    ensures ended { IfOk result (AllEndWith driver.old.sent callers) }
{
    let mut ended = Vec::with_capacity(alloc, callers.len())?;
    for caller in callers.into_items() {
        ended.push_reserved(end(rt, driver, caller));
    }
    Ok(EndedCallers::from(ended))
}

/// Ends a caller, once it has collected every reply that was sent to it. Its driver tells it how many those are, so it
/// waits for none.
fn end(rt: &impl Wait, driver: &mut Driver, caller: Caller) -> EndedCaller
    requires { slice_get driver.old.callers caller.id.number ≡ Some caller.id }
    ensures driver { driver.new ≡ driver.old }
    ensures ended { EndsWith driver.old.sent caller result }
{
    let mut caller = caller;
    let notice = driver.notice(rt, caller.number());
    caller.hear(rt, notice);
    'collecting: while caller.collect(rt).is_some() {}
    caller.end()
}
