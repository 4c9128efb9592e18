//! Turns of a match.
ghost use Rattle.std.specs.Prelude.{◌≡◌, ◌<◌, ◌+◌, IfOk, OnOk};
ghost use Rattle.made_match.specs.Making.{draw_each, draw_turn};

use crate::drawn_posts::posts;
use crate::draws::Draws;
use nav_types::{NoMemory, Sequence};
use posts::{Journal, TurnPosts};
use std::alloc::Global;

/// How many turns a match has.
const TURNS: u32 = 50;

/// The turns of a match.
#[tactic(auto, using(crate::proofs::Drawing::drawing))]
pub(crate) fn journal(alloc: Global, draws: &mut Draws) -> Result<Journal, NoMemory>
    ensures value { IfOk result (λ journal. journal ≡ (draw_each draw_turn 50 draws.old).value) }
{
    let mut journal = Sequence::new(alloc);
    for before in 0..TURNS {
        journal.push(turn(alloc, draws, before)?)?;
    }
    Ok(journal)
}

/// The turn that comes after so many turns.
#[tactic(auto, using(crate::proofs::Drawing::drawing), unfolding(crate::specs::Making::draw_turn))]
fn turn(alloc: Global, draws: &mut Draws, before: u32) -> Result<TurnPosts, NoMemory>
    requires { before < 50 }
    ensures value { IfOk result (λ turn. turn ≡ (draw_turn before draws.old).value) }
    ensures state { OnOk result (draws.new ≡ (draw_turn before draws.old).state) }
{
    let mut turn = Sequence::new(alloc);
    for caller in 0..16 {
        turn.push(posts(alloc, draws, before + 1, caller)?)?;
    }
    Ok(turn)
}
