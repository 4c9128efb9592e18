//! Matches that are opened again from a script.
ghost use Rattle.std.specs.Prelude.{◌≡◌, All, IfOk};
ghost use Rattle.match_play.specs.Posted.{Kept};
ghost use Rattle.match_play.specs.Replays.{IsLastTold, PlaysAs};
ghost use Rattle.match_play.specs.Scripts.{IsTurnOn};

use crate::faults::MatchFault;
use crate::posted::{EndedTurn, PostedMatch};
use crate::scripts::{SavedMatch, read_script};
use nav_types::NoMemory;
use posts::{Journal, MapSpec, Report, TurnReplies};
use std::alloc::Global;

/// A match that was opened from a script, and what its last turn was answered: none where it has no turn.
#[derive(Drop)]
pub struct OpenedMatch {
    pub game: PostedMatch,
    pub told: Option<TurnReplies>,
}

/// Opens a match from a whole script, and plays its turns (`PlaysAs`). It refuses a script as [`read_script`] does.
pub fn open_script(alloc: Global, script: &[u8]) -> Result<OpenedMatch, MatchFault>
    ensures { PlaysAs script.now result }
{
    let SavedMatch { map, journal } = read_script(alloc, script)?;
    match play(alloc, &map, journal) {
        Ok(opened) => Ok(opened),
        Err(NoMemory) => Err(MatchFault::NoMemory),
    }
}

/// Plays turns on a map.
fn play(alloc: Global, map: &MapSpec, journal: Journal) -> Result<OpenedMatch, NoMemory>
    requires turns { All (IsTurnOn map.now) journal }
    ensures game { IfOk result (λ opened. opened.game ≡ record { map = map.now; past = Kept journal }) }
    ensures told { IfOk result (λ opened. IsLastTold map.now journal opened.told) }
{
    let mut game = PostedMatch::open(alloc, map)?;
    let mut told = None;
    for posts in journal.into_items() {
        match game.end_turn(alloc, Report::Answers, posts) {
            Ok(EndedTurn { replies, .. }) => told = Some(replies),
            Err(_) => return Err(NoMemory),
        }
    }
    Ok(OpenedMatch { game, told })
}
