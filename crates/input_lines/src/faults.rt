//! Why no line came.
ghost use Rattle.std.specs.Prelude.{◌≡◌};

use nav_types::NoMemory;

/// Why no line came.
#[derive(Clone, Copy, Debug, PartialEq, Eq)]
pub enum LineFault {
    /// The line or the input is past its limit.
    TooLong,
    /// The source met a fault.
    ReadFault,
    /// There was no memory.
    NoMemory,
}

impl From<NoMemory> for LineFault {
    ghost use Rattle.input_lines.specs.declared.faults.LineFault.TheVariants.{NoMemory as no_memory};

    ghost from_gives = { λ _ fault. fault ≡ no_memory };

    fn from(_none: NoMemory) -> LineFault {
        LineFault::NoMemory
    }
}
