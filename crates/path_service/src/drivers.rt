//! Drivers.
ghost use Rattle.std.specs.Prelude.{◌≡◌, ◌<◌, ◌^◌, ℕ, [], false, true, All, IfOk, IfErr, IfSome, IsSome, IsTrue, None, OnOk, OnErr, length, map, replicate, vec_capacity, vec_len, ◌↔◌, List};
ghost use Rattle.posts.specs.declared.replies.Reply.{Reply as AReply};
ghost use Rattle.posts.specs.Callers.{list_of};
ghost use Rattle.turn_core.specs.Words.{bare};
ghost use Rattle.path_service.specs.machine.Table.{last_turn, running_turn};
ghost use Rattle.path_service.specs.Callers.{ended_id, HasPostLane, HasReplyLane};
ghost use Rattle.path_service.specs.Services.{started_on, told_of, with_machine};
ghost use Rattle.path_service.specs.Steps.{HasReceived, HasStaged, HasStarted, HasBrokenOff, HasDelivered, HasSentSome};
ghost use Rattle.path_service.specs.Closings.{IsClosedBy};
ghost use Rattle.path_service.specs.inner.Opening.{IsNew};
ghost use Rattle.path_service.specs.inner.Zips.{AllPaired};
ghost use Rattle.path_service.specs.inner.Channels.{ids_from, HasRoomOn, SendsParts};

use crate::callers::EndedCallers;
use crate::channels::{Channel, send_all};
use crate::closing::{Closed, close_all};
use crate::intakes::{TurnIntake, next_turn};
use crate::runs::{AnsweredRun, Beside, Incoming, RunAndNext, both, run_beside, version_for_next};
use grid_versions::{MapSpec, Version};
use io_edges::Gate;
use nav_types::{NoMemory, Sequence};
use request_lanes::Notice;
use std::alloc::Global;
use std::marker::Model;
use std::mem;
use std::sync::Wait;
use std::thread::Threads;
use turn_core::{Answerer, Post, Posts, ReadyTurn, Reply, TurnPosts, TurnReplies};

/// The driver of a service: it stages what the callers posted as turns, runs them and delivers the replies. Contracts see
/// the state of the turn machine as far as the driver knows it, and what went over the lanes (`DriverState`).
///
/// ```
/// let (mut driver, callers) = start_service(rt, alloc, map)?;
/// // The callers go to threads of their own. Then, over and over:
/// if driver.staged().is_none() {
///     driver.stage(rt)?;
/// }
/// if driver.staged().is_some() {
///     driver.start(rt, &mut answerer, gate)?;
///     driver.deliver(rt)?;
/// }
/// ```
#[derive(Drop)]
pub struct Driver {
    alloc: Global,
    map: MapSpec,
    version: Version,
    channels: Vec<Channel>,
    all_pending: Vec<Posts>,
    staged: Option<ReadyTurn>,
    running: Option<AnsweredRun>,
    // A turn that was started, for whose answers there was no memory.
    broken: Option<TurnPosts>,
    journal: Vec<TurnPosts>,
    replies: Vec<TurnReplies>,
    failed: bool,
}

impl Model for Driver {
    ghost use Rattle.path_service.specs.Services.{DriverState};

    ghost Value = { DriverState };

    ghost use Rattle.path_service.specs.inner.Holding.{driver_of, HoldsDriver};

    ghost view = { driver_of };

    ghost invariant = { HoldsDriver };
}

impl Driver {
    /// The driver of a service that starts.
    pub(crate) fn new(
        alloc: Global,
        map: MapSpec,
        version: Version,
        channels: Vec<Channel>,
        all_pending: Vec<Posts>,
    ) -> Driver
        requires map { version.map ≡ map }
        requires standing { version.standing ≡ bare }
        requires count { length channels.items ≡ map.callers }
        requires channels { All IsNew channels.items }
        requires all_pending { all_pending.items ≡ replicate map.callers [] }
        ensures { result ≡ started_on map (ids_from 0 channels.items) }
    {
        Driver {
            alloc,
            map,
            version,
            channels,
            all_pending,
            staged: None,
            running: None,
            broken: None,
            journal: Vec::new(alloc),
            replies: Vec::new(alloc),
            failed: false,
        }
    }

    /// The number of the staged turn, where one is staged. Turns are numbered from 1 as they are staged.
    pub fn staged(&self) -> Option<u64>
        ensures some { IsSome result ↔ IsSome self.now.machine.staged }
        ensures number { IfSome result (λ number. number ≡ last_turn self.now.machine) }
    {
        match &self.staged {
            None => None,
            Some(_) => Some(self.journal.len() as u64 + u64::from(self.runs()) + 1),
        }
    }

    /// The number of the running turn, where one runs.
    pub fn running(&self) -> Option<u64>
        ensures some { IsSome result ↔ IsSome self.now.machine.running }
        ensures number { IfSome result (λ number. number ≡ running_turn self.now.machine) }
    {
        if self.runs() {
            Some(self.journal.len() as u64 + 1)
        } else {
            None
        }
    }

    /// Whether a turn runs.
    fn runs(&self) -> bool
        ensures { IsTrue result ↔ IsSome self.now.machine.running }
    {
        self.running.is_some() || self.broken.is_some()
    }

    /// Whether the driver has failed: memory was refused to a start or a delivery. Then it can only be closed.
    pub fn failed(&self) -> bool
        ensures { result ≡ self.now.failed }
    {
        self.failed
    }

    /// Learns that a caller posted so many times, by a notice of that caller. Of several notices the highest count stands.
    pub fn hear(&mut self, rt: &impl Wait, caller: u8, notice: Notice<Post>)
        requires { HasPostLane self.old.callers caller notice.lane }
        ensures { self.new ≡ told_of self.old caller notice.count }
    {
        let channel = &mut self.channels[usize::from(caller)];
        channel.posts.hear(rt, notice);
    }

    /// A notice of how many replies were sent to a caller so far. That caller may hear it.
    pub fn notice(&mut self, rt: &impl Wait, caller: u8) -> Notice<Reply>
        requires { caller < length self.old.callers }
        ensures same { self.new ≡ self.old }
        ensures lane { HasReplyLane self.old.callers caller result.lane }
        ensures count { result.count ≡ length (list_of self.old.sent caller) }
    {
        let channel = &mut self.channels[usize::from(caller)];
        channel.replies.notice(rt)
    }

    /// Takes posts off the lanes and stages them, behind the pending ones, as the next turn, which it makes ready on the map
    /// after the turns before it. It answers the number of posts that are staged: 0 leaves nothing staged. It may wait for
    /// callers.
    ///
    /// Each lane is looked at until it is found empty, or the turn has 2^31 posts. So each post is staged of which the
    /// driver was told, by notices heard until then. Where there is no memory nothing is staged, the posts that were taken
    /// are pending, and the next stage begins with them.
    pub fn stage(&mut self, rt: &impl Wait) -> Result<u64, NoMemory>
        requires none { self.old.machine.staged ≡ None }
        requires sound { self.old.failed ≡ false }
        ensures ok { IfOk result (HasStaged self.old.told self.old.machine self.new.machine) }
        ensures refused { OnErr result (HasReceived self.old.machine self.new.machine) }
        ensures rest { self.new ≡ with_machine self.old self.new.machine }
    {
        let channels = mem::replace(&mut self.channels, Vec::new(self.alloc));
        let all_pending = mem::replace(&mut self.all_pending, Vec::new(self.alloc));
        let base = version_for_next(&self.version, &self.running);
        let intake = next_turn(rt, self.alloc, base, channels, all_pending);
        let TurnIntake {
            channels,
            all_pending,
            staged,
            count,
        } = intake;
        self.channels = channels;
        self.all_pending = all_pending;
        self.staged = staged;
        count
    }

    /// Starts the staged turn, which then runs: the answerer answers its requests, perhaps on another thread, and beside
    /// that the next turn is staged as `stage` does it, and the gate is told of its posts. It answers the number of these.
    /// It may wait for callers.
    ///
    /// Where there is no memory for the answers or for the next turn, the driver has failed.
    pub fn start<A: Answerer + Send, G: Gate, R: Threads + Wait + Sync>(
        &mut self,
        rt: &R,
        answerer: &mut A,
        gate: &G,
    ) -> Result<u64, NoMemory>
        requires takes { (count : ℕ) → count < 2 ^ 32 → A.takes answerer.old count }
        requires staged { IsSome self.old.machine.staged }
        requires none_runs { self.old.machine.running ≡ None }
        requires sound { self.old.failed ≡ false }
        ensures ok { IfOk result (HasStarted self.old.told self.old.machine self.new.machine) }
        ensures rest { OnOk result (self.new ≡ with_machine self.old self.new.machine) }
        ensures refused { OnErr result (HasBrokenOff self.old.told self.old.machine self.new.machine) }
        ensures failed { OnErr result (self.new ≡ record self.old { machine = self.new.machine; failed = true }) }
        ensures takes { (count : ℕ) → A.takes answerer.old count → A.takes answerer.new count }
    {
        let Some(ready) = self.staged.take() else {
            unreachable!();
        };
        let channels = mem::replace(&mut self.channels, Vec::new(self.alloc));
        let all_pending = mem::replace(&mut self.all_pending, Vec::new(self.alloc));
        let incoming = Incoming {
            channels,
            all_pending,
            gate,
        };
        let Beside { answers, intake } = run_beside(rt, self.alloc, answerer, &ready, incoming);
        let TurnIntake {
            channels,
            all_pending,
            staged,
            count,
        } = intake;
        self.channels = channels;
        self.all_pending = all_pending;
        self.staged = staged;
        let Ok(done) = both(answers, count) else {
            let (posts, _version) = ready.into_parts();
            self.broken = Some(posts);
            self.failed = true;
            return Err(NoMemory);
        };
        let RunAndNext { answers, count } = done;
        self.running = Some(AnsweredRun::new(ready, answers));
        Ok(count)
    }

    /// Delivers the running turn: each caller is sent the replies to its posts, in their order. Where there is no memory
    /// the driver has failed, and each caller was sent the first of them. It may wait for callers.
    pub fn deliver(&mut self, rt: &impl Wait) -> Result<(), NoMemory>
        requires runs { IsSome self.old.machine.running }
        requires sound { self.old.failed ≡ false }
        ensures ok { OnOk result (HasDelivered self.old self.new) }
        ensures refused { OnErr result (HasSentSome self.old self.new) }
    {
        let Some(run) = self.running.take() else {
            unreachable!();
        };
        let sent = send_turn(
            rt,
            self.alloc,
            &mut self.channels,
            &mut self.journal,
            &mut self.replies,
            &run,
        );
        let Ok(()) = sent else {
            self.running = Some(run);
            self.failed = true;
            return Err(NoMemory);
        };
        let AnsweredRun {
            posts,
            replies,
            after,
            ..
        } = run;
        self.journal.push_reserved(posts);
        self.replies.push_reserved(replies);
        self.version = after;
        Ok(())
    }

    /// Ends the service of this driver and its callers, all of which have ended. Where there is no memory all come back
    /// untouched. It may wait.
    ///
    /// A turn that is staged or runs is let go, with its replies; its posts are told by what the driver took of each
    /// caller.
    pub fn close(
        self,
        rt: &impl Wait,
        ended: EndedCallers,
    ) -> Result<Closed, (NoMemory, Driver, EndedCallers)>
        requires callers { map ended_id ended ≡ self.callers }
        ensures ok { IfOk result (IsClosedBy self ended) }
        ensures driver { IfErr result (λ refused. refused.1 ≡ self) }
        ensures ended { IfErr result (λ refused. refused.2 ≡ ended) }
    {
        let Ok(room) = Vec::with_capacity(self.alloc, self.channels.len()) else {
            return Err((NoMemory, self, ended));
        };
        let Driver {
            map,
            channels,
            journal,
            replies,
            ..
        } = self;
        let callers = close_all(rt, room, channels, ended);
        Ok(Closed::new(
            map,
            Sequence::from(journal),
            Sequence::from(replies),
            callers,
        ))
    }
}

/// Sends the replies of a running turn, once there is room for the turn among those that are delivered.
fn send_turn(
    rt: &impl Wait,
    alloc: Global,
    channels: &mut Vec<Channel>,
    journal: &mut Vec<TurnPosts>,
    all: &mut Vec<TurnReplies>,
    run: &AnsweredRun,
) -> Result<(), NoMemory>
    requires wide { length run.now.replies.replies ≡ length channels.old.items }
    requires room { AllPaired HasRoomOn channels.old.items run.now.replies.replies }
    ensures sends { (parts : List (List AReply))
        × SendsParts channels.old.items channels.new.items run.now.replies.replies result parts }
    ensures journal { journal.new.items ≡ journal.old.items }
    ensures all { all.new.items ≡ all.old.items }
    ensures turn_room { OnOk result (vec_len journal.new < vec_capacity journal.new) }
    ensures reply_room { OnOk result (vec_len all.new < vec_capacity all.new) }
{
    journal.reserve(1)?;
    all.reserve(1)?;
    send_all(rt, alloc, channels, run.replies.replies.as_slice())
}
