//! A gate that stands open.

use crate::edges::Gate;

/// A gate where nobody waits: each of its calls does nothing.
#[derive(Clone, Copy, Debug, Default, PartialEq, Eq)]
pub struct OpenGate;

impl Gate for OpenGate {
    fn pass(&self, _job: u64) {}

    fn staged(&self, _posts: u64) {}

    fn begun(&self, _caller: u8) {}
}
