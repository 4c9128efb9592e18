//! The words of the command line.
ghost use Rattle.std.specs.Prelude.{◌≡◌, ◌<◌, ◌≤◌, ◌^◌, ◌&&◌, IfOk, IfSome};
ghost use Rattle.std.specs.Result.{result_ok};
ghost use Rattle.std.specs.Str.Parse.{digits_value};
ghost use Rattle.fixed_point.specs.Text.{some_if};
ghost use Rattle.nav_types.specs.declared.limits.TheConstants.{MAX_WORKERS};
ghost use Rattle.pathserve.specs.Commands.{command_of, command_by, is_script_word, report_by, make_by, is_whole_number, seed_of, workers_of, workers_in};

use nav_types::Words;
use nav_types::limits::MAX_WORKERS;
use turn_core::Report;

/// The workers where the words name no number of them.
const DEFAULT_WORKERS: u8 = 4;

/// What the program is asked to do, with so many workers, 1 to 64.
#[derive(Clone, Copy, Debug, PartialEq, Eq)]
pub enum Command {
    /// Answers a script turn by turn, with what the report tells beside the answers.
    Replay { report: Report, workers: u8 },
    /// Serves the callers of a script, and writes the journal that comes of it with its answers.
    Serve { workers: u8 },
    /// Makes a match out of a number, answers it and sums it up.
    Make { seed: u64, workers: u8 },
}

/// The words are not in the grammar.
#[derive(Clone, Copy, Debug, PartialEq, Eq)]
pub struct NotWords;

/// The command of the words: one that answers a script (`report_by`), `serve`, or `make SEED`, for 4 workers, or with
/// `--workers N` behind it for N workers. N is 1 to 64 and SEED is below 2^64, in decimal without a sign or a leading zero. Refused exactly
/// where the words are none of these.
pub fn read_words(words: &Words) -> Result<Command, NotWords>
    ensures command { result_ok result ≡ command_of words.now }
    ensures workers { IfOk result (λ command. (1 ≤ workers_in command) × (workers_in command ≤ MAX_WORKERS)) }
{
    let command = match words.as_slice() {
        [word] => command_by(word.as_slice(), DEFAULT_WORKERS),
        [word, number] => make_by(word.as_slice(), number.as_slice(), DEFAULT_WORKERS),
        [word, option, count] if option.as_slice() == b"--workers".as_slice() => {
            match worker_count(count.as_slice()) {
                Some(workers) => command_by(word.as_slice(), workers),
                None => None,
            }
        }
        [word, number, option, count] if option.as_slice() == b"--workers".as_slice() => {
            match worker_count(count.as_slice()) {
                Some(workers) => make_by(word.as_slice(), number.as_slice(), workers),
                None => None,
            }
        }
        _ => None,
    };
    match command {
        Some(command) => Ok(command),
        None => Err(NotWords),
    }
}

/// The command of one word by so many workers.
fn command_by(word: &[u8], workers: u8) -> Option<Command>
    ensures command { result ≡ command_by word.now workers }
    ensures workers { IfSome result (λ command. workers_in command ≡ workers) }
{
    if word == b"serve".as_slice() {
        return Some(Command::Serve { workers });
    }
    match report_by(word) {
        Some(report) => Some(Command::Replay { report, workers }),
        None => None,
    }
}

/// Whether a word alone is a command.
pub(crate) fn is_script_word(word: &[u8]) -> bool
    ensures { result ≡ is_script_word word.now }
{
    word == b"serve".as_slice() || report_by(word).is_some()
}

/// What a word asks to be told beside the answers to a script. These are the words, with their numbers in the library;
/// `tools/reports.py` writes this table wherever else they are listed.
///
/// | word | number | what it writes |
/// |---|---|---|
/// | `replay` | 0 | the answers |
/// | `profile` | 1 | and for each path how many states its search expands |
/// | `flow` | 2 | and for each path four numbers of the flow field to its goal |
/// | `smooth` | 3 | and for each path its smoothed waypoints |
fn report_by(word: &[u8]) -> Option<Report>
    ensures { result ≡ report_by word.now }
{
    if word == b"replay".as_slice() {
        Some(Report::Answers)
    } else if word == b"profile".as_slice() {
        Some(Report::OpenedNumbers)
    } else if word == b"flow".as_slice() {
        Some(Report::Flows)
    } else if word == b"smooth".as_slice() {
        Some(Report::Smoothed)
    } else {
        None
    }
}

/// The command of a word and a number by so many workers.
fn make_by(word: &[u8], number: &[u8], workers: u8) -> Option<Command>
    ensures command { result ≡ make_by word.now number.now workers }
    ensures workers { IfSome result (λ command. workers_in command ≡ workers) }
{
    if word != b"make".as_slice() {
        return None;
    }
    match seed_of(number) {
        Some(seed) => Some(Command::Make { seed, workers }),
        None => None,
    }
}

/// The number below 2^64 that a word is.
pub(crate) fn seed_of(word: &[u8]) -> Option<u64>
    ensures { result ≡ seed_of word.now }
{
    match whole_number(word) {
        Some(number) if number <= u128::from(u64::MAX) => Some(number as u64),
        _ => None,
    }
}

/// The number that a word of at most twenty digits is, without a leading zero.
fn whole_number(word: &[u8]) -> Option<u128>
    ensures { result ≡ some_if (is_whole_number word.now) (digits_value 10 word.now) }
{
    if word.is_empty() || word.len() > 20 || (word.len() > 1 && word[0] == b'0') {
        return None;
    }
    let mut number: u128 = 0;
    for digit in word {
        if !digit.is_ascii_digit() {
            return None;
        }
        number = number * 10 + u128::from(digit - b'0');
    }
    Some(number)
}

/// The number of workers that a word names.
pub(crate) fn worker_count(word: &[u8]) -> Option<u8>
    ensures count { result ≡ workers_of word.now }
    ensures bounds { IfSome result (λ n. (1 ≤ n) × (n ≤ MAX_WORKERS)) }
{
    let count = match *word {
        [units @ b'1'..=b'9'] => units - b'0',
        [tens @ b'1'..=b'9', units @ b'0'..=b'9'] => (tens - b'0') * 10 + (units - b'0'),
        _ => return None,
    };
    if count <= MAX_WORKERS {
        Some(count)
    } else {
        None
    }
}
