//! Flat posts.
ghost use Rattle.std.specs.Prelude.{◌≡◌, ◌<◌, ◌↔◌, IfErr, IfOk, IfSome, IsNone, IsTrue, OnErr, ℕ, option_and_then};
ghost use Rattle.posts.specs.declared.posts.Post.{Post};
ghost use Rattle.flat_posts.specs.Posts as form;

use crate::asked::{asked_class, flat_request, post_of};
use crate::edits::flat_edit;
use crate::goal_kinds::{OBSTRUCTION, POINT};
use crate::post_kinds::{ADD_UNIT, PATH, REGION};
use posts::{MapSpec, Post};
use std::mem::size_of;

/// A post as numbers. Each kind uses `kind`, `caller` and the fields that are named at it here; every other field is 0.
///
/// | kind | uses |
/// |---|---|
/// | `ADD_UNIT` | `id`, `mask`, the middle (`x`, `z`), `radius` as half its side |
/// | `ADD_SQUARE` | `id`, `mask`, the middle (`x`, `z`), `ux`, `uz`, `hw`, `hh` |
/// | `REMOVE` | `id` |
/// | `MOVE` | `id`, the new middle (`x`, `z`) |
/// | `PATH` | `class_number`, the start (`x`, `z`), `goal` and what that uses |
/// | `REGION` | `class_number`, the point (`x`, `z`) |
///
/// Goals: `POINT` uses (`goal_x`, `goal_z`); `CIRCLE` and `NOT_CIRCLE` these and `radius`; `SQUARE` and `NOT_SQUARE` these
/// and `ux`, `uz`, `hw`, `hh`; `OBSTRUCTION` uses `id` and `radius` as the distance about it.
#[repr(C)]
#[derive(Clone, Copy, Debug, PartialEq, Eq)]
pub struct FlatPost {
    pub kind: u8,
    pub caller: u8,
    pub class_number: u8,
    pub goal: u8,
    pub mask: u16,
    pub zero: u16,
    pub id: u32,
    pub x: i32,
    pub z: i32,
    pub goal_x: i32,
    pub goal_z: i32,
    pub ux: i32,
    pub uz: i32,
    pub hw: i32,
    pub hh: i32,
    pub radius: i32,
}

const _: () = prove!(size_of::<FlatPost>() == 48);

/// What is wrong with a flat post that is no post of a map.
#[derive(Clone, Copy, Debug, PartialEq, Eq)]
pub enum FlatFault {
    /// There is no such kind of posts.
    Kind,
    /// The map has no such caller.
    Caller,
    /// The map has no class of the number.
    Class,
    /// There is no such kind of goals.
    Goal,
    /// A field that the kind does not use is not 0.
    UnusedField,
}

/// A flat post of a kind and a caller whose other fields are 0.
pub fn bare_post(kind: u8, caller: u8) -> FlatPost
    ensures { result ≡ form.bare_post kind caller }
{
    FlatPost {
        kind,
        caller,
        class_number: 0,
        goal: 0,
        mask: 0,
        zero: 0,
        id: 0,
        x: 0,
        z: 0,
        goal_x: 0,
        goal_z: 0,
        ux: 0,
        uz: 0,
        hw: 0,
        hh: 0,
        radius: 0,
    }
}

impl FlatPost {
    ghost use Rattle.flat_posts.specs.Posts.{IsPost, first_fault, flat_post};
    ghost use Rattle.flat_posts.specs.inner.Reading.{HasSameNumbers, HasSamePlaces, HasSameShape};

    /// The caller and the post that this is on the map (`IsPost`).
    ///
    /// Refused exactly where it is no post: the kind, the caller, the class of a request or the goal of a path is none that
    /// there is, or a field that the kind does not use is not 0. Every other value is taken, and judged at the end of the
    /// turn.
    pub fn read(&self, map: &MapSpec) -> Result<(u8, Post), FlatFault>
        ensures post { IfOk result (λ read. IsPost map.now self.now read.0 read.1) }
        ensures none { OnErr result ((caller : ℕ) (post : Post) → ¬ IsPost map.now self.now caller post) }
        ensures fault { IfErr result (λ fault. fault ≡ first_fault map.now self.now) }
    {
        let Some(post) = post_of(self, map.classes()) else {
            return Err(self.fault(map));
        };
        if self.caller < map.callers() && self.is_same(&self.form(&post)) {
            Ok((self.caller, post))
        } else {
            Err(self.fault(map))
        }
    }

    /// The flat form of a post of a caller of the map. None exactly where the map has no such caller, or no class of the
    /// name that a request asks for.
    pub fn of(caller: u8, post: &Post, map: &MapSpec) -> Option<FlatPost>
        ensures form { IfSome result (λ flat. IsPost map.now flat caller post.now) }
        ensures none { IsNone result → (flat : FlatPost) → ¬ IsPost map.now flat caller post.now }
    {
        if caller >= map.callers() {
            return None;
        }
        match post {
            Post::Edit(edit) => Some(flat_edit(caller, edit)),
            Post::Ask(request) => {
                let class = map.classes().find(asked_class(request))?;
                Some(flat_request(caller, class.number(), request))
            }
        }
    }

    /// The flat form that the post would have, for this caller and this number of a class.
    fn form(&self, post: &Post) -> FlatPost
        ensures { result ≡ flat_post self.now.caller self.now.class_number post.now }
    {
        match post {
            Post::Edit(edit) => flat_edit(self.caller, edit),
            Post::Ask(request) => flat_request(self.caller, self.class_number, request),
        }
    }

    /// Whether both are one flat post.
    fn is_same(&self, other: &FlatPost) -> bool
        ensures { IsTrue result ↔ (self.now ≡ other.now) }
    {
        self.has_same_numbers(other) && self.has_same_places(other) && self.has_same_shape(other)
    }

    /// Whether both have the same kinds and numbers.
    fn has_same_numbers(&self, other: &FlatPost) -> bool
        ensures { IsTrue result ↔ HasSameNumbers self.now other.now }
    {
        self.kind == other.kind
            && self.caller == other.caller
            && self.class_number == other.class_number
            && self.goal == other.goal
            && self.mask == other.mask
            && self.zero == other.zero
            && self.id == other.id
    }

    /// Whether both have the same points.
    fn has_same_places(&self, other: &FlatPost) -> bool
        ensures { IsTrue result ↔ HasSamePlaces self.now other.now }
    {
        self.x == other.x
            && self.z == other.z
            && self.goal_x == other.goal_x
            && self.goal_z == other.goal_z
    }

    /// Whether both have the same vector and lengths.
    fn has_same_shape(&self, other: &FlatPost) -> bool
        ensures { IsTrue result ↔ HasSameShape self.now other.now }
    {
        self.ux == other.ux
            && self.uz == other.uz
            && self.hw == other.hw
            && self.hh == other.hh
            && self.radius == other.radius
    }

    /// What is wrong first with a flat post that is no post of the map (`first_fault`).
    fn fault(&self, map: &MapSpec) -> FlatFault
        ensures { result ≡ first_fault map.now self.now }
    {
        if !(ADD_UNIT <= self.kind && self.kind <= REGION) {
            FlatFault::Kind
        } else if map.callers() <= self.caller {
            FlatFault::Caller
        } else if (self.kind == PATH || self.kind == REGION)
            && map.classes().count() <= self.class_number
        {
            FlatFault::Class
        } else if self.kind == PATH && !(POINT <= self.goal && self.goal <= OBSTRUCTION) {
            FlatFault::Goal
        } else {
            FlatFault::UnusedField
        }
    }
}
