//! The program: the words and standard input in, answers on standard output.
#![tactic(auto)]

use io_edges::{OpenGate, StdSink, StdSource};
use nav_types::{Bytes, NoMemory, Words};
use pathserve::{Status, first_wrong, run};
use std::env;
use std::fmt::Display;
use std::io::{self, ErrorKind, Write};
use std::process::ExitCode;

/// The version of the program, as the file `VERSION` has it.
const VERSION: &str = "0.1.0";

/// The number of the answers: programs with the same one answer each script alike (`PATHSERVE_ANSWERS` of `pathserve.h`).
const ANSWERS: u32 = 2;

/// The exit status where the system does not give the words as text.
const NO_TEXT: u8 = 9;

/// Why the words could not be had.
#[derive(Clone, Copy, Debug, PartialEq, Eq)]
enum WordsRefusal {
    NoText,
    NoMemory,
}

impl From<NoMemory> for WordsRefusal {
    fn from(_error: NoMemory) -> WordsRefusal {
        WordsRefusal::NoMemory
    }
}

impl From<io::Error> for WordsRefusal {
    fn from(error: io::Error) -> WordsRefusal {
        match error.kind() {
            ErrorKind::OutOfMemory => WordsRefusal::NoMemory,
            _ => WordsRefusal::NoText,
        }
    }
}

/// The words after the program's name.
fn words_after_name(rt: &HostRuntime) -> Result<Words, WordsRefusal> {
    let mut words = Words::new(rt.alloc());
    for word in env::args(rt)?.skip(1) {
        let mut bytes = Bytes::new(rt.alloc());
        bytes.extend(word.as_bytes())?;
        if words.push(bytes).is_err() {
            return Err(WordsRefusal::NoMemory);
        }
    }
    Ok(words)
}

/// Writes one line to standard error. Where that takes nothing, the answers and the exit status stay as they are.
fn say<T: Display>(rt: &HostRuntime, reason: &T) {
    let mut errors = rt.stderr();
    let _said = writeln!(errors, "pathserve: {reason}");
}

/// Says which word is wrong, what the words may be, and which version of the program this is.
fn say_usage(rt: &HostRuntime, words: &Words) {
    if let Some(number) = first_wrong(words) {
        match word_at(words, number) {
            Some(word) => say(rt, &format_args!("word {number} is wrong: {word}")),
            None => say(rt, &format_args!("word {number} is missing")),
        }
    }
    say(rt, &Status::Usage);
    say(rt, &format_args!("version {VERSION}, answers {ANSWERS}"));
}

/// The word of this number, from 1. None where there are fewer.
fn word_at(words: &Words, number: u64) -> Option<&str> {
    let place = usize::try_from(number).ok()?.checked_sub(1)?;
    str::from_utf8(words.as_slice().get(place)?.as_slice()).ok()
}

fn main(rt: HostRuntime) -> ExitCode {
    let words = match words_after_name(&rt) {
        Ok(words) => words,
        Err(WordsRefusal::NoText) => {
            say(&rt, &"the system does not give the words as text");
            return ExitCode::from(NO_TEXT);
        }
        Err(WordsRefusal::NoMemory) => {
            say(&rt, &Status::NoMemory);
            return ExitCode::from(Status::NoMemory as u8);
        }
    };
    let mut source = StdSource::new(rt.stdin());
    let mut sink = StdSink::new(rt.stdout());
    let mut why = None;
    let status = run(
        &rt,
        rt.alloc(),
        &words,
        &mut source,
        &mut sink,
        &OpenGate,
        &mut why,
    );
    match why {
        Some(reason) => say(&rt, &reason),
        None if status == Status::Done => {}
        None if status == Status::Usage => say_usage(&rt, &words),
        None => say(&rt, &status),
    }
    ExitCode::from(status as u8)
}
