//! A session that C keeps.
ghost use Rattle.std.specs.Prelude.{◌≡◌, Option, Some, None, option_map};
ghost use Rattle.c_registry.specs.declared.connected.Connected.{Connected};

use super::connected::Connected;
use c_handles::{Keeper, Loose};
use std::alloc::Global;
use std::marker::Model;

/// The session of a connection in C's hands, or none.
#[repr(C)]
pub struct Connection {
    at: *mut u8,
    live: bool,
    pub ghost held: { Option Connected },
}

impl Model for Connection {
    ghost use Rattle.c_handles.specs.Retained.{retained};
    ghost use Rattle.c_registry.specs.contracts.connected.Connected.{the_row};

    ghost also_owns = { λ h. retained the_row h.live h.at h.held };
}

// What it owns names no thread: a block of the heap, and plain data.
unsafe impl Send for Connection {}

impl Keeper<Connected> for Connection {
    ghost held = { λ h. h.held };

    /// No session.
    fn none(at: *mut u8) -> Connection
        ensures { result.held ≡ None }
    {
        Connection { at, live: false }
    }

    /// This session.
    fn of(loose: Loose<Connected, Global>) -> Connection
        ensures { result.held ≡ Some loose.value }
    {
        let Loose { at, alloc: _ } = loose;
        Connection {
            at: at as *mut u8,
            live: true,
        }
    }

    /// The session, where there is one.
    fn opened(self, alloc: Global) -> Option<Loose<Connected, Global>>
        ensures { option_map (λ b. b.value) result ≡ self.held }
    {
        let Connection { at, live } = self;
        if live {
            return Some(Loose {
                at: at as *mut Connected,
                alloc,
            });
        }
        None
    }
}
