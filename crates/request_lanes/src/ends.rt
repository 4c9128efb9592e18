//! The two ends of a lane.
ghost use Rattle.std.specs.Prelude.{◌≡◌, ◌^◌, ◌<◌, ◌≤◌, max, [], ◌∷◌, ◌++◌, List, length, IfOk, IfErr, IfSome, IfNone, OnOk, OnErr};
ghost use Rattle.request_lanes.specs.Ends.{Leaves};

use crate::queue::{LanePass, Queue};
use crate::rule::{Apart, Counted, Heard, Posted, Taken, Together};
use crate::whole::Whole;
use crossbeam_queue::RuledSegQueue;
use nav_types::NoMemory;
use std::alloc::Global;
use std::marker::Model;
use std::sync::{Arc, Wait};

/// The end of a lane at which items are posted. Contracts see its lane and the list of all that was posted.
#[derive(Drop)]
pub struct LaneIn<T> {
    queue: Arc<Queue<T>, Global>,
    pass: LanePass<T>,
    posted: u64,
}

impl<T> Model for LaneIn<T> {
    ghost use Rattle.request_lanes.specs.Ends.{Posting};
    ghost use Rattle.request_lanes.specs.inner.Passes.{posting_end, MayPost};
    ghost use Rattle.crossbeam_queue.specs.SegTies.{IsSegPassOf};
    ghost use Rattle.std.specs.Arc.{arc_value};

    ghost Value = { Posting T };

    ghost view = { λ l. posting_end (arc_value l.queue).ruled.web l.pass.me.view.client };

    ghost invariant = { λ l. IsSegPassOf (arc_value l.queue).ruled l.pass × MayPost l.pass.me.view.client l.posted };
}

/// The end of a lane at which items are taken. Contracts see its lane, the list of all that was taken, and of how many
/// posts it was told.
#[derive(Drop)]
pub struct LaneOut<T> {
    queue: Arc<Queue<T>, Global>,
    pass: LanePass<T>,
    taken: u64,
}

impl<T> Model for LaneOut<T> {
    ghost use Rattle.request_lanes.specs.Ends.{Taking};
    ghost use Rattle.request_lanes.specs.inner.Passes.{taking_end, MayTake};
    ghost use Rattle.crossbeam_queue.specs.SegTies.{IsSegPassOf};
    ghost use Rattle.std.specs.Arc.{arc_value};

    ghost Value = { Taking T };

    ghost view = { λ l. taking_end (arc_value l.queue).ruled.web l.pass.me.view.client };

    ghost invariant = { λ l. IsSegPassOf (arc_value l.queue).ruled l.pass × MayTake l.pass.me.view.client l.taken };
}

/// A lane on which nothing more is posted. Contracts see its lane and the list of all that was posted.
#[derive(Drop)]
pub struct Ended<T> {
    lane_in: LaneIn<T>,
}

impl<T> Model for Ended<T> {
    ghost use Rattle.request_lanes.specs.Ends.{Posting};

    ghost Value = { Posting T };

    ghost view = { λ e. e.lane_in };
}

/// A notice that so many items were posted on a lane. It takes no memory, and may be sent to another thread.
#[derive(Drop)]
pub struct Notice<T> {
    pass: LanePass<T>,
}

impl<T> Model for Notice<T> {
    ghost use Rattle.request_lanes.specs.Ends.{Posts};
    ghost use Rattle.request_lanes.specs.inner.Passes.{posts_known};
    ghost use Rattle.std.specs.Prelude.{◌≡◌, None};

    ghost Value = { Posts };

    ghost view = { λ n. posts_known n.pass.web n.pass.me.view.client };

    ghost invariant = { λ n. (n.pass.me.hand ≡ None) × (n.pass.me.spare ≡ None) };
}

/// A new lane on which nothing was posted, by its two ends. They may go to two threads where the items may.
///
/// Its rule is `InOrder` of `specs/inner/Order.antt`: what was taken, followed by what is queued, is what was posted.
pub fn lane<T: Drop>(_rt: &impl Wait, alloc: Global) -> Result<(LaneIn<T>, LaneOut<T>), NoMemory>
    ensures one { IfOk result (λ ends. ends.0.lane ≡ ends.1.lane) }
    ensures posted { IfOk result (λ ends. ends.0.posted ≡ []) }
    ensures taken { IfOk result (λ ends. (ends.1.taken ≡ []) × (ends.1.told ≡ 0)) }
{
    let (ruled, mut pass) = RuledSegQueue::with_rule(alloc)?;
    let other = ruled.another::<Apart>(&mut pass);
    let queue = Arc::new(alloc, Queue { ruled })?;
    let theirs = Arc::try_clone(&queue)?;
    let lane_in = LaneIn {
        queue,
        pass,
        posted: 0,
    };
    let lane_out = LaneOut {
        queue: theirs,
        pass: other,
        taken: 0,
    };
    Ok((lane_in, lane_out))
}

impl<T: Drop> LaneIn<T> {
    /// Posts the item, and answers its place: how many were posted before. Where there is no memory nothing is posted
    /// and the item is handed back. A lane takes 2^62 items at most. It may wait for the other end.
    pub fn post(&mut self, rt: &impl Wait, item: T) -> Result<u64, (NoMemory, T)>
        requires room { length self.old.posted < 2 ^ 62 }
        ensures lane { self.new.lane ≡ self.old.lane }
        ensures place { IfOk result (λ place. place ≡ length self.old.posted) }
        ensures posted { OnOk result (self.new.posted ≡ self.old.posted ++ item ∷ []) }
        ensures refused { OnErr result (self.new ≡ self.old) }
        ensures item { IfErr result (λ refused. refused.1 ≡ item) }
    {
        let queue = &self.queue.ruled;
        match queue.push_as::<Posted, _>(rt, &mut self.pass, item) {
            Ok(()) => {
                let place = self.posted;
                self.posted += 1;
                Ok(place)
            }
            Err(item) => Err((NoMemory, item)),
        }
    }

    /// A notice of how many items were posted so far. The other end may hear it.
    pub fn notice(&mut self, _rt: &impl Wait) -> Notice<T>
        ensures same { self.new ≡ self.old }
        ensures lane { result.lane ≡ self.old.lane }
        ensures count { result.count ≡ length self.old.posted }
    {
        Notice {
            pass: self.queue.ruled.another::<Counted>(&mut self.pass),
        }
    }

    /// Posts nothing more on this lane.
    pub fn end(self) -> Ended<T>
        ensures { result ≡ self }
    {
        Ended { lane_in: self }
    }
}

impl<T: Drop> LaneOut<T> {
    /// Takes the next item, and answers it with its place: how many were taken before. It may wait for the other end.
    ///
    /// None only where the lane was empty at a step of this call. So each item is taken that this end was told of, by
    /// notices heard until then.
    pub fn take(&mut self, rt: &impl Wait) -> Option<(u64, T)>
        ensures lane { self.new.lane ≡ self.old.lane }
        ensures told { self.new.told ≡ self.old.told }
        ensures place { IfSome result (λ next. next.0 ≡ length self.old.taken) }
        ensures taken { IfSome result (λ next. self.new.taken ≡ self.old.taken ++ next.1 ∷ []) }
        ensures few { IfSome result (λ _. length self.new.taken ≤ 2 ^ 62) }
        ensures none { IfNone result (self.new ≡ self.old) }
        ensures empty { IfNone result (self.old.told ≤ length self.old.taken) }
    {
        let item = self.queue.next(rt, &mut self.pass)?;
        let place = self.taken;
        self.taken += 1;
        Some((place, item))
    }

    /// Learns that so many items were posted. Of several notices the highest count stands.
    pub fn hear(&mut self, _rt: &impl Wait, notice: Notice<T>)
        requires { notice.lane ≡ self.old.lane }
        ensures lane { self.new.lane ≡ self.old.lane }
        ensures taken { self.new.taken ≡ self.old.taken }
        ensures told { self.new.told ≡ max self.old.told notice.count }
    {
        let queue = &self.queue.ruled;
        queue.absorb::<Heard>(&mut self.pass, notice.pass);
    }

    /// Puts both ends of one lane together. What was taken, followed by what is left, is then exactly what was posted
    /// (`Leaves`).
    pub fn finish(self, rt: &impl Wait, ended: Ended<T>) -> Whole<T>
        requires { self.lane ≡ ended.lane }
        ensures posted { result.posted ≡ ended.posted }
        ensures taken { result.taken ≡ self.taken }
        ensures left { (left : List T) × Leaves result left }
    {
        let LaneOut {
            queue: _,
            pass: other,
            taken,
        } = self;
        let LaneIn {
            queue,
            mut pass,
            ..
        } = ended.lane_in;
        queue.ruled.absorb::<Together>(&mut pass, other);
        // A look at the queue shows that what was taken begins what was posted.
        queue.ruled.len_as::<Taken, _>(rt, &mut pass);
        Whole::new(queue, pass, taken)
    }
}
