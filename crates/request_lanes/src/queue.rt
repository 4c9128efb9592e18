//! The queue between the two ends of a lane.
ghost use Rattle.std.specs.Prelude.{◌≡◌, ◌^◌, ◌≤◌, true, ◌++◌, ◌∷◌, length, List, IfSome, IfNone};
ghost use Rattle.crossbeam_queue.specs.SegTies.{IsSegPassOf};
ghost use Rattle.request_lanes.specs.inner.Order.{taking};

use crate::rule::{Log, Order, Taken};
use crossbeam_queue::{RuledSegQueue, SegPass};
use std::sync::Wait;

// What one end may do and knows. It has no bytes.
pub type LanePass<T> = SegPass<T, Log<T>>;

// The items that were posted and not yet taken. The two ends own it together.
pub struct Queue<T> {
    pub ruled: RuledSegQueue<T, Log<T>, Order>,
}

impl<T: Drop> Queue<T> {
    // The next item, which joins what the pass has taken. None only if the queue was empty at one moment of the call.
    pub fn next(&self, rt: &impl Wait, pass: &mut LanePass<T>) -> Option<T>
        requires own { IsSegPassOf self.now.ruled pass.old }
        requires may { pass.old.me.view.client.takes ≡ true }
        ensures own { IsSegPassOf self.now.ruled pass.new }
        ensures item { IfSome result (λ item. pass.new.me.view.client ≡ taking pass.old.me.view.client item) }
        ensures few { IfSome result (λ _. length pass.new.me.view.client.taken ≤ 2 ^ 62) }
        ensures next { IfSome result
            (λ item. pass.old.me.view.client.posts ≡ true
            → (left : List T) × (pass.old.me.view.client.posted ≡ pass.old.me.view.client.taken ++ item ∷ left)) }
        ensures none { IfNone result (pass.new.me.view.client ≡ pass.old.me.view.client) }
        ensures told { IfNone result (pass.old.me.view.client.told ≤ length pass.old.me.view.client.taken) }
        ensures empty { IfNone result
            (pass.old.me.view.client.posts ≡ true → pass.old.me.view.client.posted ≡ pass.old.me.view.client.taken) }
    {
        self.ruled.pop_as::<Taken, _>(rt, pass)
    }
}

impl<T: Drop> Drop for Queue<T> {
    fn drop(self) {
        let Self { ruled } = self;
        ruled.destroy();
    }
}
