//! A lane on which nothing more is posted, with both of its ends.
ghost use Rattle.std.specs.Prelude.{◌≡◌, true, [], ◌∷◌, ◌++◌, List, length, IfSome, IfNone, IsNone, ◌↔◌};
ghost use Rattle.std.specs.Arc.{arc_value};
ghost use Rattle.crossbeam_queue.specs.SegTies.{IsSegPassOf};
ghost use Rattle.request_lanes.specs.Ends.{Leaves};
ghost use Rattle.request_lanes.specs.inner.Passes.{both_ends, MayTake};

use crate::queue::{LanePass, Queue};
use std::alloc::Global;
use std::marker::Model;
use std::sync::{Arc, Wait};

/// A lane on which nothing more is posted. Contracts see the list of all that was posted and the list of all that was
/// taken: what is left is the rest of the first after the second.
#[derive(Drop)]
pub struct Whole<T> {
    queue: Arc<Queue<T>, Global>,
    pass: LanePass<T>,
    taken: u64,
}

impl<T> Model for Whole<T> {
    ghost use Rattle.request_lanes.specs.Ends.{Closing};
    ghost use Rattle.request_lanes.specs.inner.Passes.{both_ends, MayTake};
    ghost use Rattle.std.specs.Prelude.{◌≡◌, true};
    ghost use Rattle.crossbeam_queue.specs.SegTies.{IsSegPassOf};
    ghost use Rattle.std.specs.Arc.{arc_value};

    ghost Value = { Closing T };

    ghost view = { λ w. both_ends w.pass.me.view.client };

    ghost invariant = { λ w. IsSegPassOf (arc_value w.queue).ruled w.pass × (w.pass.me.view.client.posts ≡ true)
        × MayTake w.pass.me.view.client w.taken };
}

impl<T: Drop> Whole<T> {
    pub(crate) fn new(queue: Arc<Queue<T>, Global>, pass: LanePass<T>, taken: u64) -> Whole<T>
        requires { IsSegPassOf (arc_value queue).ruled pass × (pass.me.view.client.posts ≡ true)
            × MayTake pass.me.view.client taken }
        ensures { result ≡ both_ends pass.me.view.client }
    {
        Whole { queue, pass, taken }
    }

    /// Takes the next item that is left, and answers it with its place: how many were taken before. None exactly where
    /// none is left.
    pub fn take(&mut self, rt: &impl Wait) -> Option<(u64, T)>
        ensures posted { self.new.posted ≡ self.old.posted }
        ensures place { IfSome result (λ next. next.0 ≡ length self.old.taken) }
        ensures taken { IfSome result (λ next. self.new.taken ≡ self.old.taken ++ next.1 ∷ []) }
        ensures next { IfSome result (λ next. (left : List T) × Leaves self.old (next.1 ∷ left)) }
        ensures none { IfNone result (self.new ≡ self.old) }
        ensures exactly { IsNone result ↔ Leaves self.old [] }
    {
        let item = self.queue.next(rt, &mut self.pass)?;
        let place = self.taken;
        self.taken += 1;
        Some((place, item))
    }
}
