//! A match as a whole: its map and its journal.
ghost use Rattle.std.specs.Prelude.{◌≡◌, IfOk};
ghost use Rattle.made_match.specs.Making.{made_map, made_journal};

use crate::draws::Draws;
use crate::{maps, turns};
use nav_types::NoMemory;
use posts::{Journal, MapSpec};
use std::alloc::Global;

/// A match: its map, and what is posted in its turns.
#[derive(Drop)]
pub struct Made {
    pub map: MapSpec,
    pub journal: Journal,
}

/// The match that a number makes: a map of 512 by 512 navcells with 8 classes and 24 base rectangles (`made_map`), and
/// 50 turns of 16 callers (`made_journal`). The first turn adds 400 obstructions; in each later one each caller asks for
/// a path, and removes and adds an obstruction now and then.
///
/// Everything is drawn from a generator that begins with the number, so the same number makes the same match.
#[tactic(auto, unfolding(crate::specs::Making::made_journal))]
pub fn make_script(alloc: Global, seed: u64) -> Result<Made, NoMemory>
    ensures map { IfOk result (λ made. made.map ≡ made_map seed) }
    ensures journal { IfOk result (λ made. made.journal ≡ made_journal seed) }
{
    let mut draws = Draws::new(seed);
    let map = maps::map(alloc, &mut draws)?;
    let journal = turns::journal(alloc, &mut draws)?;
    Ok(Made { map, journal })
}
