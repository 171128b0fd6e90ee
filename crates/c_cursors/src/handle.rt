//! A cursor that C keeps.
ghost use Rattle.std.specs.Prelude.{◌≡◌, Option, Some, None, option_map};
ghost use Rattle.c_cursors.specs.declared.state.State.{State};

use super::state::State;
use c_handles::{Keeper, Loose};
use std::alloc::Global;
use std::marker::Model;

/// A cursor in C's hands, or none.
#[repr(C)]
pub struct PartsCursor {
    at: *mut u8,
    live: bool,
    pub ghost held: { Option State },
}

impl Model for PartsCursor {
    ghost use Rattle.c_handles.specs.Retained.{retained};
    ghost use Rattle.c_cursors.specs.contracts.state.State.{the_row};

    ghost also_owns = { λ h. retained the_row h.live h.at h.held };
}

// What it owns names no thread: a block of the heap, and plain data.
unsafe impl Send for PartsCursor {}

impl Keeper<State> for PartsCursor {
    ghost held = { λ h. h.held };

    /// No cursor.
    fn none(at: *mut u8) -> PartsCursor
        ensures { result.held ≡ None }
    {
        PartsCursor { at, live: false }
    }

    /// This cursor.
    fn of(loose: Loose<State, Global>) -> PartsCursor
        ensures { result.held ≡ Some loose.value }
    {
        let Loose { at, alloc: _ } = loose;
        PartsCursor {
            at: at as *mut u8,
            live: true,
        }
    }

    /// The cursor, where there is one.
    fn opened(self, alloc: Global) -> Option<Loose<State, Global>>
        ensures { option_map (λ b. b.value) result ≡ self.held }
    {
        let PartsCursor { at, live } = self;
        if live {
            return Some(Loose {
                at: at as *mut State,
                alloc,
            });
        }
        None
    }
}
