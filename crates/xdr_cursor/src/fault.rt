//! Why a cursor does not go on.
ghost use Rattle.std.specs.Prelude.{◌≡◌};
ghost use Rattle.xdr_cursor.specs.declared.fault.CursorFault.TheVariants as faults;

use std::alloc::{AllocError, AllocFailed};
use thiserror::Error;

/// Why a cursor does not go on.
#[derive(Clone, Copy, Debug, PartialEq, Eq, Error)]
pub enum CursorFault {
    /// Memory was refused. The call may be made again.
    #[error("out of memory")]
    NoMemory,
    /// The schema or the input is not the one that the cursor was started with. It has lost its place for good.
    #[error("not the schema or the input of the start")]
    Astray,
}

impl<T: Drop> From<AllocFailed<T>> for CursorFault {
    ghost from_gives = { λ _ e. e ≡ faults.NoMemory };

    fn from(_: AllocFailed<T>) -> CursorFault {
        CursorFault::NoMemory
    }
}
