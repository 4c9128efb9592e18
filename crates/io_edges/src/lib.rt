//! Where bytes come in and go out, with counts of faults, and the gate that callers and workers pass.
//!
//! ```text
//!    Source --> the program --> Sink
//! ```
//!
//! A [`Source`] may tell the bytes that it has left, and a [`Sink`] those that it keeps: memory does
//! ([`MemorySource`], [`MemorySink`]), so the program's contracts speak of them. The adapters of standard input and
//! output ([`StdSource`], [`StdSink`]) tell nothing and count faults. Callers and workers pass a
//! [`Gate`]; tests choose by it who goes first, and it can change no answer. Nothing here reads ahead.
#![tactic(auto)]

mod adapters;
mod counts;
mod edges;
mod memory;
mod never_fails;
mod open_gate;

pub use adapters::{StdSink, StdSource};
pub use edges::{Failed, Gate, Sink, Source, WriteRefusal};
pub use memory::{MemorySink, MemorySource};
pub use never_fails::{InMemory, NeverFails};
pub use open_gate::OpenGate;
