//! The rule of a lane, and what each step of it tells. These types are for the proofs alone.
ghost use Rattle.std.specs.Prelude.{◌≡◌, ◌^◌, ◌+◌, ◌≤◌, true, List, ◌∷◌, ◌++◌, length};
ghost use Rattle.request_lanes.specs.inner.Order.{posting, taking};

use crossbeam_queue::protocol::{Join, Lesson, Outcome, Protocol, Split};
use std::collections::LinkedList;

// What a pass may do, what it has posted and taken, and how many posts it was told of. No value of it is made.
pub struct Log<T> {
    pub posts: bool,
    pub takes: bool,
    pub posted: LinkedList<T>,
    pub taken: LinkedList<T>,
    pub told: u64,
}

pub struct Order;

impl<T> Protocol<T, Log<T>> for Order {
    ghost use Rattle.std.specs.Prelude.{true, []};
    ghost use Rattle.request_lanes.specs.inner.Order.{log, InOrder};

    ghost holds = { InOrder };

    ghost first = { log true true [] [] 0 };
}

// The two ends of a lane.
pub struct Apart;

impl<T> Split<Log<T>> for Apart {
    ghost use Rattle.std.specs.Prelude.{true, false, []};
    ghost use Rattle.request_lanes.specs.inner.Order.{log};

    ghost left = { λ v. log true false v.posted [] 0 };

    ghost right = { λ v. log false true [] v.taken 0 };
}

// The two ends in one pass again.
pub struct Together;

impl<T> Join<Log<T>> for Together {
    ghost use Rattle.std.specs.Prelude.{true, false, []};
    ghost use Rattle.request_lanes.specs.inner.Order.{log};

    ghost both = { λ v w. log true true v.posted w.taken 0 };

    ghost spent = { log false false [] [] 0 };
}

// A pass that knows how many items were posted.
pub struct Counted;

impl<T> Split<Log<T>> for Counted {
    ghost use Rattle.std.specs.Prelude.{false, [], length};
    ghost use Rattle.request_lanes.specs.inner.Order.{log};

    ghost left = { λ v. v };

    ghost right = { λ v. log false false [] [] (length v.posted) };
}

// What another pass was told of is told to this one.
pub struct Heard;

impl<T> Join<Log<T>> for Heard {
    ghost use Rattle.std.specs.Prelude.{false, [], max};
    ghost use Rattle.request_lanes.specs.inner.Order.{log};

    ghost both = { λ v w. log v.posts v.takes v.posted v.taken (max v.told w.told) };

    ghost spent = { log false false [] [] 0 };
}

pub struct Posted;

impl<T> Outcome<T, Log<T>> for Posted {
    ghost then = { λ v item w. w ≡ posting v item };
}

// It also says what follows for a pass that has both ends.
pub struct Taken;

impl<T> Outcome<T, Log<T>> for Taken {
    ghost then = { λ v item w. (w ≡ taking v item) × (length w.taken ≤ 2 ^ 62)
        × (v.posts ≡ true → (left : List T) × (v.posted ≡ v.taken ++ item ∷ left)) };
}

impl<T> Lesson<T, Log<T>> for Taken {
    ghost fact = { λ v queued. (v.told ≤ length v.taken + length queued)
        × (v.posts ≡ true → v.posted ≡ v.taken ++ queued) };
}
