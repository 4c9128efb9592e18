//! Posts of a match.
ghost use Rattle.std.specs.Prelude.{◌≡◌, ◌<◌, IfOk, OnOk, option_to_list};
ghost use Rattle.made_match.specs.Making.{add_of, class_name, draw_first_post, draw_removal, draw_addition, draw_path, draw_first_posts, draw_later_posts, draw_posts, one_in_four};

use crate::draws::Draws;
use crate::places;
use class_config::ClassName;
use goal_shapes::GoalSpec;
use nav_types::{NoMemory, Sequence};
use obstruction_shapes::{Obstruction, Shape};
use posts::{Edit, PathRequest, Post, Posts, Request, push_some};
use std::alloc::Global;

/// How many obstruction numbers each caller has.
const NUMBERS_PER_CALLER: u32 = 25;

/// The posts of a caller in the turn of a number.
#[tactic(auto, unfolding(crate::specs::Making::draw_posts))]
pub(crate) fn posts(
    alloc: Global,
    draws: &mut Draws,
    turn: u32,
    caller: u32,
) -> Result<Posts, NoMemory>
    requires { caller < 16 }
    ensures value { IfOk result (λ posts. posts ≡ (draw_posts turn caller draws.old).value) }
    ensures state { OnOk result (draws.new ≡ (draw_posts turn caller draws.old).state) }
{
    if turn == 1 {
        first_posts(alloc, draws, caller)
    } else {
        later_posts(alloc, draws, turn, caller)
    }
}

/// The posts of a caller in the first turn.
#[tactic(auto, using(crate::proofs::Drawing::drawing), unfolding(crate::specs::Making::draw_first_posts))]
fn first_posts(alloc: Global, draws: &mut Draws, caller: u32) -> Result<Posts, NoMemory>
    requires { caller < 16 }
    ensures value { IfOk result (λ posts. posts ≡ (draw_first_posts caller draws.old).value) }
    ensures state { OnOk result (draws.new ≡ (draw_first_posts caller draws.old).state) }
{
    let mut posts = Sequence::new(alloc);
    for number in 0..NUMBERS_PER_CALLER {
        push_some(&mut posts, Some(first_post(draws, caller, number)))?;
    }
    Ok(posts)
}

/// An add of the first turn.
#[tactic(auto, unfolding(crate::specs::Making::draw_first_post))]
fn first_post(draws: &mut Draws, caller: u32, number: u32) -> Post
    requires caller { caller < 16 }
    requires number { number < 25 }
    ensures value { result ≡ (draw_first_post caller number draws.old).value }
    ensures state { draws.new ≡ (draw_first_post caller number draws.old).state }
{
    let id = NUMBERS_PER_CALLER * caller + number;
    if number % 2 == 0 {
        add(id, places::unit(draws))
    } else {
        add(id, places::square(draws))
    }
}

/// The posts of a caller in a later turn.
#[tactic(auto, unfolding(crate::specs::Making::draw_later_posts))]
fn later_posts(alloc: Global, draws: &mut Draws, turn: u32, caller: u32) -> Result<Posts, NoMemory>
    requires { caller < 16 }
    ensures value { IfOk result (λ posts. posts ≡ (draw_later_posts turn caller draws.old).value) }
    ensures state { OnOk result (draws.new ≡ (draw_later_posts turn caller draws.old).state) }
{
    let mut posts = Sequence::new(alloc);
    push_some(&mut posts, some_removal(draws, caller))?;
    push_some(&mut posts, some_addition(draws, caller))?;
    push_some(&mut posts, Some(path(draws, turn, caller)))?;
    Ok(posts)
}

/// With one chance in four the removal of one of the caller's numbers.
#[tactic(auto, unfolding(crate::specs::Making::one_in_four))]
fn some_removal(draws: &mut Draws, caller: u32) -> Option<Post>
    requires { caller < 16 }
    ensures value { option_to_list result ≡ (one_in_four (draw_removal caller) draws.old).value }
    ensures state { draws.new ≡ (one_in_four (draw_removal caller) draws.old).state }
{
    if draws.below(4) == 0 {
        Some(removal(draws, caller))
    } else {
        None
    }
}

/// With one chance in four the add of a unit under one of the caller's numbers.
#[tactic(auto, unfolding(crate::specs::Making::one_in_four))]
fn some_addition(draws: &mut Draws, caller: u32) -> Option<Post>
    requires { caller < 16 }
    ensures value { option_to_list result ≡ (one_in_four (draw_addition caller) draws.old).value }
    ensures state { draws.new ≡ (one_in_four (draw_addition caller) draws.old).state }
{
    if draws.below(4) == 0 {
        Some(addition(draws, caller))
    } else {
        None
    }
}

/// The removal of one of the caller's numbers.
#[tactic(auto, unfolding(crate::specs::Making::draw_removal))]
fn removal(draws: &mut Draws, caller: u32) -> Post
    requires { caller < 16 }
    ensures value { result ≡ (draw_removal caller draws.old).value }
    ensures state { draws.new ≡ (draw_removal caller draws.old).state }
{
    let number = draws.below(NUMBERS_PER_CALLER);
    Post::Edit(Edit::Remove {
        id: NUMBERS_PER_CALLER * caller + number,
    })
}

/// The add of a unit under one of the caller's numbers.
#[tactic(auto, unfolding(crate::specs::Making::draw_addition))]
fn addition(draws: &mut Draws, caller: u32) -> Post
    requires { caller < 16 }
    ensures value { result ≡ (draw_addition caller draws.old).value }
    ensures state { draws.new ≡ (draw_addition caller draws.old).state }
{
    let number = draws.below(NUMBERS_PER_CALLER);
    add(NUMBERS_PER_CALLER * caller + number, places::unit(draws))
}

/// The add of a shape, which blocks every class.
fn add(id: u32, shape: Shape) -> Post
    ensures { result ≡ add_of id shape }
{
    Post::Edit(Edit::Add {
        id,
        obstruction: Obstruction {
            shape,
            mask: u16::MAX,
        },
    })
}

/// The path of a caller in the turn of a number.
#[tactic(auto, unfolding(crate::specs::Making::draw_path))]
fn path(draws: &mut Draws, turn: u32, caller: u32) -> Post
    ensures value { result ≡ (draw_path turn caller draws.old).value }
    ensures state { draws.new ≡ (draw_path turn caller draws.old).state }
{
    let class = class_name(draws.below(8));
    let start = places::point(draws);
    let kind = draws.below(5);
    let aim = places::aim(draws, turn, caller, start);
    let goal = places::goal(draws, kind, aim);
    Post::Ask(Request::Path(PathRequest {
        class,
        x: places::fixed(start.0),
        z: places::fixed(start.1),
        goal: GoalSpec::Plain(goal),
    }))
}

/// The name of the class of a number.
#[tactic(auto, using(crate::proofs::Naming::one_digit, crate::proofs::Naming::is_name))]
pub(crate) fn class_name(class: u32) -> ClassName
    requires { class < 8 }
    ensures { result ≡ class_name class }
{
    match ClassName::new(&[b'c', b'0' + class as u8]) {
        Some(name) => name,
        None => unreachable!(),
    }
}
