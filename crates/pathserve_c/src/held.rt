//! What a handle holds: a box of its state, in a type that names no other, so that it crosses to C.
ghost use Rattle.std.specs.Prelude.{◌≡◌, Option, Some, None, IsSome, IfOk};
ghost use Rattle.pathserve_c.specs.declared.states.State.{State};
ghost use Rattle.pathserve_c.specs.inner.Owned.{held_coded, held_owns};

use crate::raw_box::RawBox;
use crate::states::State;
use std::alloc::{AllocError, Global};
use std::marker::Model;
use std::ptr;

/// A box of a state, or none. Contracts see the state.
#[repr(C)]
#[derive(Drop)]
pub struct Held {
    at: *mut u8,
    alloc: Global,
    pub ghost value: { Option State } by { held_coded },
}

impl Model for Held {
    ghost also_owns = { λ held. held_owns held.alloc held.at held.value };
}

unsafe impl Send for Held {}

impl Held {
    /// The state in a box.
    pub fn new(alloc: Global, state: State) -> Result<Held, AllocError>
        ensures { IfOk result (λ held. held.value ≡ Some state) }
    {
        Ok(Held::of_raw(RawBox::of(Box::new(alloc, state)?)))
    }

    /// No state.
    pub fn empty(alloc: Global) -> Held
        ensures { result.value ≡ None }
    {
        Held {
            at: ptr::null_mut(),
            alloc,
        }
    }

    /// The state that lies there.
    pub fn of_raw(raw: RawBox<State, Global>) -> Held
        ensures { result.value ≡ Some raw.value }
    {
        let RawBox { at, alloc } = raw;
        Held {
            at: at as *mut u8,
            alloc,
        }
    }

    /// Where the state lies.
    pub fn into_raw(self) -> RawBox<State, Global>
        requires { IsSome self.value }
        ensures { Some result.value ≡ self.value }
    {
        let Held { at, alloc } = self;
        RawBox {
            at: at as *mut State,
            alloc,
        }
    }
}
