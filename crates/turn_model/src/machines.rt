//! The turn machine with what it holds of maps.
ghost use Rattle.std.specs.Prelude.{◌≡◌, ◌<◌, ◌≤◌, IfOk, IsOk, OnErr, None, length, slice_set};
ghost use Rattle.nav_types.specs.declared.limits.TheConstants.{MAX_CALLERS};
ghost use Rattle.posts.specs.Callers.{list_of};
ghost use Rattle.path_service.specs.machine.States.{opening};
ghost use Rattle.path_service.specs.machine.Table.{why_not, last_turn, running_turn};
ghost use Rattle.path_service.specs.machine.Effects.{Effect, TakesNoMemory};
ghost use Rattle.path_service.specs.machine.Facts.{Facts};

mod causes;
mod delivered;
mod running;
mod staging;

use delivered::{DeliveredTurn, ReplyPlace};
use grid_versions::{MapSpec, Version};
use nav_types::NoMemory;
use path_service::{Event, Takes, Why};
use posts::{Post, Posts, Reply, empty_lists, push_post};
use running::RunningTurn;
use staging::NextTurn;
use std::alloc::Global;
use std::marker::Model;
use turn_core::{AnsweredTurn, bare_version};

/// The turn machine: the version after the turns that are delivered, and what the callers posted, have
/// taken from them, and collected, with the place that each has come to among the turns. Contracts see a state
/// (`State`).
#[derive(Drop)]
pub(crate) struct Machine {
    alloc: Global,
    version: Version,
    posted: Vec<Posts>,
    taken: Vec<u64>,
    staged: Option<RunningTurn>,
    running: Option<RunningTurn>,
    delivered: Vec<DeliveredTurn>,
    collected: Vec<u64>,
    places: Vec<ReplyPlace>,
}

impl Model for Machine {
    ghost use Rattle.path_service.specs.machine.States.{State};

    ghost Value = { State };

    ghost use Rattle.turn_model.specs.inner.Machines.{state_of, HoldsState};

    ghost view = { state_of };

    ghost invariant = { HoldsState };
}

impl Machine {
    /// The machine of a map in its opening state.
    pub(crate) fn new(alloc: Global, map: &MapSpec) -> Result<Machine, NoMemory>
        ensures { IfOk result (λ made. made ≡ opening map.now) }
    {
        let callers = usize::from(map.callers());
        let taken = vec![in alloc; 0; callers]?;
        let collected = vec![in alloc; 0; callers]?;
        let places = vec![in alloc; ReplyPlace::beginning(); callers]?;
        let posted = empty_lists(alloc, callers)?;
        let version = bare_version(alloc, map)?;
        Ok(Machine {
            alloc,
            version,
            posted,
            taken,
            staged: None,
            running: None,
            delivered: Vec::new(alloc),
            collected,
            places,
        })
    }

    /// The number of callers.
    fn callers(&self) -> u8
        ensures value { result ≡ self.now.map.callers }
        ensures few { result ≤ MAX_CALLERS }
    {
        self.version.map().callers()
    }

    /// The number of the turn that was staged last, or 0 where none was.
    fn last_turn(&self) -> u64
        ensures { result ≡ last_turn self.now }
    {
        self.delivered.len() as u64
            + u64::from(self.running.is_some())
            + u64::from(self.staged.is_some())
    }

    /// The number of the running turn.
    fn running_turn(&self) -> u64
        ensures { result ≡ running_turn self.now }
    {
        self.delivered.len() as u64 + 1
    }

    /// Why the event is not enabled.
    pub(crate) fn why_not(&self, event: &Event) -> Option<Why>
        requires { Facts self.now }
        ensures { result ≡ why_not self.now event.now }
    {
        match event {
            Event::Post { caller, .. } => causes::why_no_caller(self.callers(), *caller),
            Event::Stage { takes } => self.why_no_stage(takes),
            Event::Start => causes::or_else(
                causes::why_none_staged(self.last_turn(), &self.staged),
                causes::why_running(self.running_turn(), &self.running),
            ),
            Event::Claim => causes::why_no_claim(self.last_turn(), &self.running),
            Event::Finish { job } => causes::why_no_finish(*job, self.last_turn(), &self.running),
            Event::Deliver => causes::why_no_delivery(self.last_turn(), &self.running),
            Event::Collect { caller } => self.why_no_collect(*caller),
        }
    }

    /// Why no turn can be staged that takes so many posts of each caller.
    fn why_no_stage(&self, takes: &Takes) -> Option<Why>
        requires { Facts self.now }
        ensures { result ≡ why_not self.now (Event.Stage takes.now) }
    {
        let callers = self.callers();
        let staged = causes::why_staged(self.last_turn(), &self.staged);
        let not_each = causes::why_not_each(callers, takes);
        let few = causes::why_few(
            self.posted.as_slice(),
            self.taken.as_slice(),
            takes.as_slice(),
        );
        causes::or_else(staged, causes::or_else(not_each, few))
    }

    /// Why the caller can't collect a reply.
    fn why_no_collect(&self, caller: u8) -> Option<Why>
        requires { Facts self.now }
        ensures { result ≡ why_not self.now (Event.Collect caller) }
    {
        let count = staging::number_at(self.collected.as_slice(), usize::from(caller));
        causes::or_else(
            causes::why_no_caller(self.callers(), caller),
            causes::why_collected(count, self.reply_count(usize::from(caller))),
        )
    }

    /// How many replies there are to a caller, collected or not. There is one to each of its posts that were taken,
    /// but for those in turns that are not delivered, so no delivered turn is looked at.
    fn reply_count(&self, caller: usize) -> u64
        requires { Facts self.now }
        ensures { result ≡ length (list_of self.now.replies caller) }
    {
        let taken = staging::number_at(self.taken.as_slice(), caller);
        taken
            - running::post_count(&self.running, caller)
            - running::post_count(&self.staged, caller)
    }

    /// Lets an event that is enabled have its effect, and hands out the reply where it is a collect. Without
    /// memory the machine stays.
    pub(crate) fn apply(&mut self, event: &Event) -> Result<Option<Reply>, NoMemory>
        requires facts { Facts self.old }
        requires enabled { why_not self.old event.now ≡ None }
        ensures ok { IfOk result (λ handed. Effect self.old event.now handed self.new) }
        ensures err { OnErr result (self.new ≡ self.old) }
        ensures free { TakesNoMemory event.now → IsOk result }
    {
        match event {
            Event::Post { caller, post } => self.post(*caller, post),
            Event::Stage { takes } => self.stage(takes),
            Event::Start => Ok(self.start()),
            Event::Claim => Ok(self.claim()),
            Event::Finish { job } => self.finish(*job),
            Event::Deliver => self.deliver(),
            Event::Collect { caller } => self.collect(*caller),
        }
    }

    /// A caller posts.
    fn post(&mut self, caller: u8, post: &Post) -> Result<Option<Reply>, NoMemory>
        requires { caller < length self.old.posted }
        ensures ok { IfOk result (λ handed. Effect self.old (Event.Post caller post.now) handed self.new) }
        ensures err { OnErr result (self.new ≡ self.old) }
    {
        push_post(&mut self.posted, usize::from(caller), *post)?;
        Ok(None)
    }

    /// A turn is staged.
    fn stage(&mut self, takes: &Takes) -> Result<Option<Reply>, NoMemory>
        requires { length self.old.taken ≡ length self.old.posted }
        ensures ok { IfOk result (λ handed. Effect self.old (Event.Stage takes.now) handed self.new) }
        ensures err { OnErr result (self.new ≡ self.old) }
    {
        let NextTurn { turn, taken } = staging::next_turn(
            self.alloc,
            self.posted.as_slice(),
            self.taken.as_slice(),
            takes.as_slice(),
        )?;
        let base = running::version_for_next(&self.version, &self.running);
        let ready = running::begin(self.alloc, base, turn)?;
        self.taken = taken;
        self.staged = Some(ready);
        Ok(None)
    }

    /// The staged turn begins to run.
    fn start(&mut self) -> Option<Reply>
        requires { why_not self.old Event.Start ≡ None }
        ensures { Effect self.old Event.Start result self.new }
    {
        let Some(ready) = self.staged.take() else {
            return None;
        };
        self.running = Some(ready);
        None
    }

    /// The least job that is not claimed is claimed.
    fn claim(&mut self) -> Option<Reply>
        requires { why_not self.old Event.Claim ≡ None }
        ensures { Effect self.old Event.Claim result self.new }
    {
        running::claim(&mut self.running);
        None
    }

    /// A job gets its answer.
    fn finish(&mut self, job: u64) -> Result<Option<Reply>, NoMemory>
        requires facts { Facts self.old }
        requires enabled { why_not self.old (Event.Finish job) ≡ None }
        ensures ok { IfOk result (λ handed. Effect self.old (Event.Finish job) handed self.new) }
        ensures err { OnErr result (self.new ≡ self.old) }
    {
        let answer = running::answer_to(self.alloc, &self.running, job)?;
        running::put_answer(&mut self.running, job, answer);
        Ok(None)
    }

    /// The running turn is done, and its replies go to their callers. All memory is taken before the turn is taken
    /// apart.
    fn deliver(&mut self) -> Result<Option<Reply>, NoMemory>
        requires facts { Facts self.old }
        requires enabled { why_not self.old Event.Deliver ≡ None }
        ensures ok { IfOk result (λ handed. Effect self.old Event.Deliver handed self.new) }
        ensures err { OnErr result (self.new ≡ self.old) }
    {
        self.delivered.reserve(1)?;
        let room = running::answer_room(self.alloc, &self.running)?;
        let Some(run) = self.running.take() else {
            return Ok(None);
        };
        let RunningTurn { ready, answers, .. } = run;
        let (posts, answered) = ready.answered(running::given_answers(answers, room));
        let AnsweredTurn { replies, after } = answered;
        let turn = DeliveredTurn {
            posts,
            replies: replies.replies,
        };
        delivered::push_turn(&mut self.delivered, turn);
        self.version = after;
        Ok(None)
    }

    /// A caller collects its next reply.
    fn collect(&mut self, caller: u8) -> Result<Option<Reply>, NoMemory>
        requires facts { Facts self.old }
        requires enabled { why_not self.old (Event.Collect caller) ≡ None }
        ensures ok { IfOk result (λ handed. Effect self.old (Event.Collect caller) handed self.new) }
        ensures err { OnErr result (self.new ≡ self.old) }
    {
        let at = usize::from(caller);
        let place = delivered::place_of(self.places.as_slice(), at);
        let Some((reply, behind)) = delivered::next_reply(self.delivered.as_slice(), at, place)
        else {
            return Ok(None);
        };
        let reply = reply.copy(self.alloc)?;
        // Memory ends long before a caller has so many replies.
        let count = staging::number_at(self.collected.as_slice(), at);
        let Some(next) = count.checked_add(1) else {
            return Err(NoMemory);
        };
        put_number(&mut self.collected, at, next);
        delivered::put_place(&mut self.places, at, behind);
        Ok(Some(reply))
    }
}

/// Puts the number at a place.
fn put_number(numbers: &mut Vec<u64>, at: usize, number: u64)
    requires { at < length numbers.old.items }
    ensures { numbers.new.items ≡ slice_set numbers.old.items at number }
{
    numbers[at] = number;
}
