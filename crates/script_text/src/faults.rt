//! Why no part of a script came.
ghost use Rattle.std.specs.Prelude.{◌≡◌};

use nav_types::NoMemory;

/// Why no part of a script came.
#[derive(Clone, Copy, Debug, PartialEq, Eq)]
pub enum ScriptFault {
    /// The line of this number is not in the grammar in its place.
    BadLine(u64),
    /// The line of this number is past the limit of a line, or the input with it past its own.
    TooLong(u64),
    /// The source met a fault.
    ReadFault,
    /// There was no memory.
    NoMemory,
}

impl From<NoMemory> for ScriptFault {
    ghost use Rattle.script_text.specs.declared.faults.ScriptFault.TheVariants.{NoMemory as no_memory};

    ghost from_gives = { λ _ fault. fault ≡ no_memory };

    fn from(_none: NoMemory) -> ScriptFault {
        ScriptFault::NoMemory
    }
}
