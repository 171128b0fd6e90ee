//! A registry that C keeps.
ghost use Rattle.std.specs.Prelude.{◌≡◌, Option, Some, None, option_map};
ghost use Rattle.c_registry.specs.declared.state.State.{State};

use super::state::State;
use c_handles::{Keeper, Loose};
use std::alloc::Global;
use std::marker::Model;

/// A registry in C's hands, or none.
#[repr(C)]
pub struct Registry {
    at: *mut u8,
    live: bool,
    pub ghost held: { Option State },
}

impl Model for Registry {
    ghost use Rattle.c_handles.specs.Retained.{retained};
    ghost use Rattle.c_registry.specs.contracts.state.State.{the_row};

    ghost also_owns = { λ h. retained the_row h.live h.at h.held };
}

// What it owns names no thread: a block of the heap, and plain data.
unsafe impl Send for Registry {}

impl Keeper<State> for Registry {
    ghost held = { λ h. h.held };

    /// No registry.
    fn none(at: *mut u8) -> Registry
        ensures { result.held ≡ None }
    {
        Registry { at, live: false }
    }

    /// This registry.
    fn of(loose: Loose<State, Global>) -> Registry
        ensures { result.held ≡ Some loose.value }
    {
        let Loose { at, alloc: _ } = loose;
        Registry {
            at: at as *mut u8,
            live: true,
        }
    }

    /// The registry, where there is one.
    fn opened(self, alloc: Global) -> Option<Loose<State, Global>>
        ensures { option_map (λ b. b.value) result ≡ self.held }
    {
        let Registry { at, live } = self;
        if live {
            return Some(Loose {
                at: at as *mut State,
                alloc,
            });
        }
        None
    }
}
