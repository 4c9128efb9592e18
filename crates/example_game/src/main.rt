//! A game that links the crates: two players, two turns, and what each turn is answered.
//!
//! It plays `examples/skirmish.script` by data, without a script: a map is made, posts are put in lists, and a turn is
//! answered on the version before it. What it prints is `examples/skirmish.answers`.
#![tactic(auto)]

mod maps;
mod players;

use answer_text::turn_text;
use class_config::ClassRefusal;
use maps::{Classes, PLAYERS};
use nav_types::NoMemory;
use posts::{MapSpec, TurnPosts, empty_lists};
use std::alloc::Global;
use std::io::{self, Write};
use std::process::ExitCode;
use turn_core::{OneThread, bare_version};

/// Why the game ended early.
#[derive(Drop)]
enum Trouble {
    /// The map breaks a limit.
    BadMap,
    NoMemory,
    Output(io::Error),
}

impl From<NoMemory> for Trouble {
    fn from(_error: NoMemory) -> Trouble {
        Trouble::NoMemory
    }
}

impl From<ClassRefusal> for Trouble {
    fn from(refusal: ClassRefusal) -> Trouble {
        match refusal {
            ClassRefusal::NotClasses => Trouble::BadMap,
            ClassRefusal::NoMemory => Trouble::NoMemory,
        }
    }
}

impl From<io::Error> for Trouble {
    fn from(error: io::Error) -> Trouble {
        Trouble::Output(error)
    }
}

/// The posts of a turn: a list for each player.
fn turn(alloc: Global, classes: &Classes, number: u64) -> Result<TurnPosts, NoMemory> {
    let mut lists = empty_lists(alloc, PLAYERS)?;
    match number {
        1 => players::post_first(&mut lists, classes)?,
        _ => players::post_second(&mut lists, classes)?,
    }
    Ok(lists.into())
}

/// Plays both turns on the map, and prints what each is answered.
fn play(
    out: &mut impl Write,
    alloc: Global,
    classes: &Classes,
    map: &MapSpec,
) -> Result<(), Trouble> {
    let mut thread = OneThread::new();
    let mut version = bare_version(alloc, map)?;
    for number in 1..3 {
        let posts = turn(alloc, classes, number)?;
        let answered = thread.answer_turn(alloc, &version, &posts)?;
        let text = turn_text(alloc, number, &answered.replies)?;
        out.write_all(text.as_slice())?;
        version = answered.after;
    }
    Ok(())
}

/// The whole game.
fn game(out: &mut impl Write, alloc: Global) -> Result<(), Trouble> {
    let classes = Classes::new().ok_or(Trouble::BadMap)?;
    let map = maps::skirmish(alloc, &classes)?.ok_or(Trouble::BadMap)?;
    play(out, alloc, &classes, &map)
}

fn main(rt: HostRuntime) -> ExitCode {
    match game(&mut rt.stdout(), rt.alloc()) {
        Ok(()) => ExitCode::SUCCESS,
        Err(Trouble::BadMap) => ExitCode::from(3),
        Err(Trouble::NoMemory) => ExitCode::from(6),
        Err(Trouble::Output(_)) => ExitCode::from(5),
    }
}
