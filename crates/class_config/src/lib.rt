//! Passability classes: their names and clearances, and the table of a map's classes.
//!
//! A [`ClassTable`] has 1 to 16 [`PassabilityClass`]es, each with a [`ClassName`] of its own, and a clearance: how far a
//! unit's middle keeps from obstructions. Classes are numbered by their place. A table is made out of classes
//! ([`ClassTable::new`]) or read from a JSON value; the tests of a JSON object's keys, which the reader of scripts uses
//! too, stand here as well.
#![tactic(auto)]

mod forms;
mod names;
mod table;

pub use forms::{has_keys, text_under};
pub use names::ClassName;
pub use table::{ClassRefusal, ClassTable, PassabilityClass};
