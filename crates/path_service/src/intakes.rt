//! The next turn, made of the pending posts and of those on the lanes.
ghost use Rattle.std.specs.Prelude.{◌≡◌, ◌≤◌, [], All, IfOk, IfErr, length, replicate};
ghost use Rattle.nav_types.specs.declared.limits.TheConstants.{MAX_STAGED_POSTS as MOST};
ghost use Rattle.posts.specs.Posts.{post_count};
ghost use Rattle.path_service.specs.inner.Channels.{IsInRoom};
ghost use Rattle.path_service.specs.inner.Intakes.{HasTakenIn};

use crate::channels::{Channel, fill_all};
use grid_versions::Version;
use nav_types::limits::MAX_STAGED_POSTS;
use nav_types::{NoMemory, Sequence};
use std::alloc::Global;
use std::sync::Wait;
use turn_core::{Posts, ReadyTurn, count_posts, empty_lists};

/// What was made of the pending posts and on the lanes: the turn that is ready, where there is one, and the number of its
/// posts. Where there was no memory the posts are pending.
#[derive(Drop)]
pub(crate) struct TurnIntake {
    pub channels: Vec<Channel>,
    pub all_pending: Vec<Posts>,
    pub staged: Option<ReadyTurn>,
    pub count: Result<u64, NoMemory>,
}

/// A turn that is ready, and empty lists of pending posts.
#[derive(Drop)]
struct Prepared {
    ready: ReadyTurn,
    all_pending: Vec<Posts>,
}

/// Takes posts off the lanes, behind the pending ones, and makes a turn of all of them on a version. Each lane is looked at
/// until it is found empty or the turn is full. Where there is no post there is no turn.
pub(crate) fn next_turn(
    rt: &impl Wait,
    alloc: Global,
    version: &Version,
    mut channels: Vec<Channel>,
    mut all_pending: Vec<Posts>,
) -> TurnIntake
    requires wide { length all_pending.items ≡ length channels.items }
    requires room { All IsInRoom channels.items }
    requires few { post_count all_pending.items ≤ MOST }
    ensures { HasTakenIn version.now.map version.now.standing channels.items all_pending.items result }
{
    let room = MAX_STAGED_POSTS - count_posts(all_pending.as_slice());
    let left = fill_all(rt, alloc, &mut channels, &mut all_pending, room);
    let Ok(left) = left else {
        return TurnIntake {
            channels,
            all_pending,
            staged: None,
            count: Err(NoMemory),
        };
    };
    if left == MAX_STAGED_POSTS {
        return TurnIntake {
            channels,
            all_pending,
            staged: None,
            count: Ok(0),
        };
    }
    match prepare(alloc, version, all_pending) {
        Ok(prepared) => TurnIntake {
            channels,
            all_pending: prepared.all_pending,
            staged: Some(prepared.ready),
            count: Ok(MAX_STAGED_POSTS - left),
        },
        Err(all_pending) => TurnIntake {
            channels,
            all_pending,
            staged: None,
            count: Err(NoMemory),
        },
    }
}

/// The turn of all posts pending, ready on a version. Where there is no memory the posts come back.
fn prepare(
    alloc: Global,
    version: &Version,
    all_pending: Vec<Posts>,
) -> Result<Prepared, Vec<Posts>>
    ensures ready { IfOk result (λ prepared. prepared.ready
        ≡ record { map = version.now.map; before = version.now.standing; turn = all_pending.items }) }
    ensures empty { IfOk result (λ prepared. prepared.all_pending.items ≡ replicate (length all_pending.items) []) }
    ensures kept { IfErr result (λ kept. kept.items ≡ all_pending.items) }
{
    let Ok(empty) = empty_lists(alloc, all_pending.len()) else {
        return Err(all_pending);
    };
    match ReadyTurn::new(alloc, version, Sequence::from(all_pending)) {
        Ok(ready) => Ok(Prepared {
            ready,
            all_pending: empty,
        }),
        Err(refused) => {
            let (NoMemory, posts) = refused;
            Err(posts.into_items())
        }
    }
}
