//! Scripts: the grammar of their lines, their readers, why a line is bad, and the canonical text.
//!
//! ```text
//!    map line, base lines, then for each turn: post lines of its callers, an end line
//! ```
//!
//! [`PushedScript`] is given a script's bytes in pieces, and hands out item by item what its lines give;
//! [`ScriptReader`] reads such pieces from a source and pushes them. What both say is what `specs/Script.antt` says of whole
//! inputs. `write_map` and `write_journal` write the canonical script, which reads back as what it was written from. A bad
//! line has a [`Cause`] in plain words. Nothing here answers a post.
//!
//! ```text
//!    the table of forms       table (forms, keys, versions, what stands under a key), causes::keys (their texts), goals
//!    what a line says         forms, forms::{post_lines, bases, values}, goals, parts, versions
//!    why a line is bad        causes, causes::{strange_keys, wrong_values, mistakes}, nesting, faults
//!    lines to items           progress, items, pushed (bytes that are given), reader (bytes of a source)
//!    the canonical text       canon, canon::{form_lines, maps, post_lines, pieces}
//!    laws                     laws
//! ```
#![tactic(auto)]

mod canon;
mod causes;
mod faults;
mod forms;
mod goals;
mod items;
mod laws;
mod nesting;
mod parts;
mod progress;
mod pushed;
mod reader;
mod table;
mod versions;

pub use canon::{write_journal, write_map};
pub use causes::{Cause, Key, Mistake, Wanted};
pub use faults::ScriptFault;
pub use forms::CallerPost;
pub use goals::GoalKey;
pub use input_lines::READ_SIZE;
pub use items::ScriptItem;
pub use laws::{
    base_lines, blank_lines, canonical_reads_back, deep_lines, end_causes, end_lines, line_causes,
    map_lines, one_line, post_lines, strange_lines, true_causes, unread_lines, wrong_values,
};
pub use pushed::PushedScript;
pub use reader::ScriptReader;
pub use versions::have_lines;
