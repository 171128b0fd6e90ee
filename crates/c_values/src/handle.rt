//! Declarations that C keeps.
ghost use Rattle.std.specs.Prelude.{◌≡◌, Option, Some, None, option_map};
ghost use Rattle.xdr_lang.specs.declared.declarations.Declared.{Declared};

use super::state::State;
use c_handles::{Keeper, Loose};
use std::alloc::Global;
use std::marker::Model;

/// Declarations that were read, in C's hands, or none.
#[repr(C)]
pub struct Handle {
    at: *mut u8,
    live: bool,
    pub ghost declared: { Option Declared },
}

impl Model for Handle {
    ghost use Rattle.c_handles.specs.Retained.{retained};
    ghost use Rattle.c_values.specs.contracts.state.State.{the_row};

    ghost also_owns = { λ h. retained the_row h.live h.at h.declared };
}

// What it owns names no thread: a block of the heap, and declarations, which are plain data.
unsafe impl Send for Handle {}

impl Keeper<State> for Handle {
    ghost held = { λ h. h.declared };

    /// No declarations.
    fn none(at: *mut u8) -> Handle
        ensures { result.declared ≡ None }
    {
        Handle { at, live: false }
    }

    /// These declarations.
    fn of(loose: Loose<State, Global>) -> Handle
        ensures { result.declared ≡ Some loose.value }
    {
        let Loose { at, alloc: _ } = loose;
        Handle {
            at: at as *mut u8,
            live: true,
        }
    }

    /// The declarations, where there are any.
    fn opened(self, alloc: Global) -> Option<Loose<State, Global>>
        ensures { option_map (λ b. b.value) result ≡ self.declared }
    {
        let Handle { at, live } = self;
        if live {
            return Some(Loose {
                at: at as *mut State,
                alloc,
            });
        }
        None
    }
}
