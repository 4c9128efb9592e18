//! Flat replies.
ghost use Rattle.std.specs.Prelude.{◌≡◌, ℕ};
ghost use Rattle.flat_posts.specs.Replies as form;

use crate::cells::FlatCell;
use crate::refusals::{
    BAD_SHAPE, DUPLICATE_ID, GOAL_OUTSIDE, START_OUTSIDE, STORE_FULL, UNKNOWN_CLASS, UNKNOWN_ID,
};
use crate::reply_kinds::{ADDED, AT_GOAL, IN_REGION, MOVED, NEAR_GOAL, NOWHERE, REFUSED, REMOVED};
use posts::{Answer, EditReply, PathAnswer, Refusal, RegionAnswer, Reply};
use std::mem::size_of;

/// The reply to a post as numbers. Each kind uses `kind`, `caller`, `post` and the fields that are named at it here; every
/// other field is 0.
///
/// | kind | uses |
/// |---|---|
/// | `ADDED`, `REMOVED`, `MOVED` | `id` |
/// | `REFUSED` | `why` |
/// | `NOWHERE` | |
/// | `AT_GOAL`, `NEAR_GOAL` | `start`, `end`, `waypoints`, `first_waypoint`, `cost` |
/// | `IN_REGION` | `chunk`, `region`, `area` |
///
/// `post` is the post's number among those of its caller in the turn, and `first_waypoint` the place of a path's first
/// waypoint among those of the turn. A number that a field is too narrow for is told as the field's greatest.
#[repr(C)]
#[derive(Clone, Copy, Debug, PartialEq, Eq)]
pub struct FlatReply {
    pub kind: u8,
    pub caller: u8,
    pub why: u8,
    pub zero: u8,
    pub post: u32,
    pub id: u32,
    pub start: FlatCell,
    pub end: FlatCell,
    pub chunk: FlatCell,
    pub region: u16,
    pub zero_too: u16,
    pub area: u32,
    pub waypoints: u64,
    pub first_waypoint: u64,
    pub cost: u64,
}

const _: () = prove!(size_of::<FlatReply>() == 56);

impl FlatReply {
    ghost use Rattle.flat_posts.specs.Replies.{flat_reply};

    /// The flat form of the reply to the post of a number of a caller (`flat_reply`). The waypoints of a path begin at the
    /// place `first` among those that are told.
    pub fn of(caller: usize, post: usize, first: u64, reply: &Reply) -> FlatReply
        ensures { result ≡ flat_reply caller post first reply.now }
    {
        match reply {
            Reply::Edit(reply) => flat_edit_reply(caller, post, reply),
            Reply::Answer(answer) => flat_answer(caller, post, first, answer),
        }
    }
}

/// A flat reply to the post of a number of a caller whose other fields are 0.
fn bare_reply(kind: u8, caller: usize, post: usize) -> FlatReply
    ensures { result ≡ form.bare_reply kind caller post }
{
    let nowhere = FlatCell { i: 0, j: 0 };
    FlatReply {
        kind,
        caller: caller.min(255) as u8,
        why: 0,
        zero: 0,
        post: post.min(4_294_967_295) as u32,
        id: 0,
        start: nowhere,
        end: nowhere,
        chunk: nowhere,
        region: 0,
        zero_too: 0,
        area: 0,
        waypoints: 0,
        first_waypoint: 0,
        cost: 0,
    }
}

/// The flat form of the reply to an edit.
fn flat_edit_reply(caller: usize, post: usize, reply: &EditReply) -> FlatReply
    ensures { result ≡ form.flat_edit_reply caller post reply.now }
{
    match *reply {
        EditReply::Added(id) => FlatReply {
            id,
            ..bare_reply(ADDED, caller, post)
        },
        EditReply::Removed(id) => FlatReply {
            id,
            ..bare_reply(REMOVED, caller, post)
        },
        EditReply::Moved(id) => FlatReply {
            id,
            ..bare_reply(MOVED, caller, post)
        },
        EditReply::Refused(refusal) => flat_refusal(caller, post, refusal),
    }
}

/// The flat form of a refusal.
fn flat_refusal(caller: usize, post: usize, refusal: Refusal) -> FlatReply
    ensures { result ≡ form.flat_refusal caller post refusal }
{
    FlatReply {
        why: why(refusal),
        ..bare_reply(REFUSED, caller, post)
    }
}

/// The number of a refusal.
fn why(refusal: Refusal) -> u8
    ensures { result ≡ form.why refusal }
{
    match refusal {
        Refusal::BadShape => BAD_SHAPE,
        Refusal::DuplicateId => DUPLICATE_ID,
        Refusal::StoreFull => STORE_FULL,
        Refusal::UnknownId => UNKNOWN_ID,
        Refusal::UnknownClass => UNKNOWN_CLASS,
        Refusal::StartOutside => START_OUTSIDE,
        Refusal::GoalOutside => GOAL_OUTSIDE,
    }
}

/// The flat form of the answer to a request.
fn flat_answer(caller: usize, post: usize, first: u64, answer: &Answer) -> FlatReply
    ensures { result ≡ form.flat_answer caller post first answer.now }
{
    match answer {
        Answer::Refused(refusal) => flat_refusal(caller, post, *refusal),
        Answer::Nowhere => bare_reply(NOWHERE, caller, post),
        Answer::Path(path) => flat_path(caller, post, first, path),
        Answer::Region(region) => flat_region(caller, post, region),
    }
}

/// The flat form of a path.
fn flat_path(caller: usize, post: usize, first: u64, path: &PathAnswer) -> FlatReply
    ensures { result ≡ form.flat_path caller post first path.now }
{
    let kind = if path.near { NEAR_GOAL } else { AT_GOAL };
    FlatReply {
        start: FlatCell::of(path.start),
        end: FlatCell::of(path.end),
        waypoints: path.waypoints.len() as u64,
        first_waypoint: first,
        cost: path.cost.0,
        ..bare_reply(kind, caller, post)
    }
}

/// The flat form of a region and an area.
fn flat_region(caller: usize, post: usize, answer: &RegionAnswer) -> FlatReply
    ensures { result ≡ form.flat_region caller post answer.now }
{
    FlatReply {
        chunk: FlatCell {
            i: answer.ci,
            j: answer.cj,
        },
        region: answer.region,
        area: answer.area,
        ..bare_reply(IN_REGION, caller, post)
    }
}
