//! A reader of records that C keeps.
ghost use Rattle.std.specs.Prelude.{◌≡◌, Option, Some, None, option_map};
ghost use Rattle.c_records.specs.declared.state.State.{State};

use super::state::State;
use c_handles::{Keeper, Loose};
use std::alloc::Global;
use std::marker::Model;

/// A reader in C's hands, or none.
#[repr(C)]
pub struct Records {
    at: *mut u8,
    live: bool,
    pub ghost held: { Option State },
}

impl Model for Records {
    ghost use Rattle.c_handles.specs.Retained.{retained};
    ghost use Rattle.c_records.specs.contracts.state.State.{the_row};

    ghost also_owns = { λ h. retained the_row h.live h.at h.held };
}

// What it owns names no thread: a block of the heap, and plain data.
unsafe impl Send for Records {}

impl Keeper<State> for Records {
    ghost held = { λ h. h.held };

    /// No reader.
    fn none(at: *mut u8) -> Records
        ensures { result.held ≡ None }
    {
        Records { at, live: false }
    }

    /// This reader.
    fn of(loose: Loose<State, Global>) -> Records
        ensures { result.held ≡ Some loose.value }
    {
        let Loose { at, alloc: _ } = loose;
        Records {
            at: at as *mut u8,
            live: true,
        }
    }

    /// The reader, where there is one.
    fn opened(self, alloc: Global) -> Option<Loose<State, Global>>
        ensures { option_map (λ b. b.value) result ≡ self.held }
    {
        let Records { at, live } = self;
        if live {
            return Some(Loose {
                at: at as *mut State,
                alloc,
            });
        }
        None
    }
}
