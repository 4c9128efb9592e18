//! Why a step of the machine was not made.
ghost use Rattle.std.specs.Prelude.{◌≡◌, Some};
ghost use Rattle.turn_model.specs.Refusals.{refusal_text};

use nav_types::NoMemory;
use path_service::Why;
use std::error::Error;
use std::fmt;

/// Why a step was not made.
#[derive(Clone, Copy, Debug, PartialEq, Eq)]
pub enum StepRefusal {
    /// The event is not enabled.
    NotEnabled(Why),
    /// There was no memory.
    NoMemory,
}

impl From<NoMemory> for StepRefusal {
    ghost use Rattle.turn_model.specs.declared.refusals.StepRefusal.TheVariants.{NoMemory as no_memory};

    ghost from_gives = { λ _ refusal. refusal ≡ no_memory };

    fn from(_refused: NoMemory) -> StepRefusal {
        StepRefusal::NoMemory
    }
}

impl fmt::Display for StepRefusal {
    ghost output = { λ refusal. Some (refusal_text refusal) };

    fn fmt<W: fmt::Write>(&self, f: &mut fmt::Formatter<W>) -> fmt::Result {
        match self {
            StepRefusal::NotEnabled(why) => write!(f, "the event is not enabled: {why}"),
            StepRefusal::NoMemory => f.write_str("there is no memory"),
        }
    }
}

impl Error for StepRefusal {}
