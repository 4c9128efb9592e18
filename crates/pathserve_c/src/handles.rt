//! Handles: what C holds.
ghost use Rattle.std.specs.Prelude.{◌≡◌, None, Some, IfNone, IfSome, OnErr, OnOk};
ghost use Rattle.pathserve_c.specs.Handles.{IsHandle, state_of};

use crate::held::Held;
use crate::raw_box::RawBox;
use crate::states::State;
use std::alloc::{AllocError, Global};
use std::mem;

/// What C holds: whether it is open, and the box of its state. It is the header's `pathserve_match` and
/// `pathserve_view`.
#[repr(C)]
#[derive(Drop)]
pub struct Handle {
    pub live: u64,
    pub held: Held,
}

impl Handle {
    /// Opens a closed handle. Where there is no memory it stays closed.
    pub fn open(&mut self, alloc: Global, state: State) -> Result<(), AllocError>
        requires { IsHandle self.old }
        ensures handle { IsHandle self.new }
        ensures opened { OnOk result (state_of self.new ≡ Some state) }
        ensures same { OnErr result (state_of self.new ≡ state_of self.old) }
    {
        self.held = Held::new(alloc, state)?;
        self.live = 1;
        Ok(())
    }

    /// Takes out what the handle holds: none of a closed handle. It is closed then.
    pub fn take(&mut self, alloc: Global) -> Option<Box<State, Global>>
        requires { IsHandle self.old }
        ensures handle { IsHandle self.new }
        ensures some { IfSome result (λ state. state_of self.old ≡ Some state.value) }
        ensures none { IfNone result (state_of self.old ≡ None) }
        ensures closed { state_of self.new ≡ None }
        ensures live { self.new.live ≡ 0 }
    {
        if self.live == 0 {
            return None;
        }
        self.live = 0;
        let held = mem::replace(&mut self.held, Held::empty(alloc));
        Some(held.into_raw().into_box())
    }

    /// Puts back what was taken out.
    pub fn put(&mut self, state: Box<State, Global>)
        ensures handle { IsHandle self.new }
        ensures state { state_of self.new ≡ Some state.value }
    {
        self.held = Held::of_raw(RawBox::of(state));
        self.live = 1;
    }
}

/// Lets nothing pass but what may go to another thread.
fn crossing<T: Send>(value: T) -> T
    ensures { result ≡ value }
{
    value
}

/// A law: a handle may go to another thread.
pub fn handles_may_cross(handle: Handle) -> Handle
    ensures { result ≡ handle }
{
    crossing(handle)
}
