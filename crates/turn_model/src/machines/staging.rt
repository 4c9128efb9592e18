//! The next turn, out of what the callers posted.
ghost use Rattle.std.specs.Prelude.{◌≡◌, ◌+◌, ◌++◌, ◌∷◌, ◌<◌, ◌^◌, [], IfOk, OnOk, drop, length, map, take, slice_index};
ghost use Rattle.path_service.specs.machine.Effects.{next_posts, added_up};

use nav_types::{NoMemory, Sequence};
use posts::{Post, Posts, TurnPosts};
use std::alloc::Global;

/// A turn, and how many posts of each caller are taken with it.
#[derive(Drop)]
pub(crate) struct NextTurn {
    pub turn: TurnPosts,
    pub taken: Vec<u64>,
}

impl NextTurn {
    /// Appends the posts that are taken of the next caller, after so many that were taken before.
    fn push(&mut self, alloc: Global, before: u64, posts: &[Post]) -> Result<(), NoMemory>
        requires { before + length posts.now < 2 ^ 64 }
        ensures turn { OnOk result (self.new.turn ≡ self.old.turn ++ posts.now ∷ []) }
        ensures taken { OnOk result (self.new.taken.items ≡ self.old.taken.items ++ (before + length posts.now) ∷ []) }
    {
        self.taken.push(before + posts.len() as u64)?;
        let mut taken = Posts::new(alloc);
        taken.extend(posts)?;
        self.turn.push(taken)?;
        Ok(())
    }
}

/// The next turn: of each caller's posts, after those that are taken, as many as `takes` says.
pub(crate) fn next_turn(
    alloc: Global,
    posted: &[Posts],
    taken: &[u64],
    takes: &[u64],
) -> Result<NextTurn, NoMemory>
    requires { length taken.now ≡ length posted.now }
    ensures turn { IfOk result (λ next. next.turn ≡ next_posts posted.now taken.now takes.now) }
    ensures taken { IfOk result (λ next. next.taken.items
        ≡ added_up taken.now (map length (next_posts posted.now taken.now takes.now))) }
{
    let mut next = NextTurn {
        turn: Sequence::new(alloc),
        taken: Vec::new(alloc),
    };
    for (caller, posts) in posted.iter().enumerate() {
        let from = number_at(taken, caller);
        let part = part_of(posts.as_slice(), from, number_at(takes, caller));
        next.push(alloc, from, part)?;
    }
    Ok(next)
}

/// The number at a place, or 0 past the end.
pub(crate) fn number_at(numbers: &[u64], at: usize) -> u64
    ensures value { result ≡ slice_index numbers.now at }
    ensures fits { result < 2 ^ 64 }
{
    if at < numbers.len() { numbers[at] } else { 0 }
}

/// As many posts as `count` says, after the first `from`; fewer where there are fewer.
fn part_of(posts: &[Post], from: u64, count: u64) -> &[Post]
    ensures value { result.now ≡ take count (drop from posts.now) }
    ensures fits { from + length result.now < 2 ^ 64 }
{
    let rest = past(posts, from as usize);
    if (count as usize) < rest.len() {
        &rest[..count as usize]
    } else {
        rest
    }
}

/// The items past the first `count`.
fn past<T>(items: &[T], count: usize) -> &[T]
    ensures { result.now ≡ drop count items.now }
{
    if count < items.len() {
        &items[count..]
    } else {
        &[]
    }
}
