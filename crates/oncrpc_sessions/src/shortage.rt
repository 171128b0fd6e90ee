//! The limit on open files, where it is too low.
ghost use Rattle.std.specs.Prelude.{◌≡◌, ◌<◌, IfOk, IfSome, string_bytes};
ghost use Rattle.oncrpc_sessions.specs.Places.{most_files, shortage_line};

use crate::bounds::Bounds;
use libc::types::rlimit;
use libc::{RLIMIT_NOFILE, getrlimit};
use std::alloc::{AllocError, Global};

/// Fewer files may be open than may have to be.
#[derive(Clone, Copy, Debug, PartialEq, Eq)]
pub struct Shortage {
    /// How many files this process may have open.
    pub limit: u64,
    /// How many may have to be open at a time.
    pub wanted: u64,
}

impl Shortage {
    /// What a registry within these bounds lacks. None: nothing, or the system does not tell the limit. It is the soft
    /// one of the process, which stays as it is: the toolchain has no call that changes it.
    pub fn of(bounds: Bounds) -> Option<Shortage>
        ensures wanted { IfSome result (λ s. s.wanted ≡ most_files bounds.connections) }
        ensures short { IfSome result (λ s. s.limit < s.wanted) }
    {
        let limit = limit_of_files()?;
        let wanted = bounds.files() as u64;
        if limit < wanted {
            Some(Shortage { limit, wanted })
        } else {
            None
        }
    }

    /// The line of it, with its line feed. The error is an allocation failure.
    pub fn line(self, alloc: Global) -> Result<String, AllocError>
        ensures { IfOk result (λ text. string_bytes text ≡ shortage_line self) }
    {
        let Shortage { limit, wanted } = self;
        format!(in alloc;
            "warning: the limit on open files is {limit}, and {wanted} may be needed\n"
        )
    }
}

/// The soft limit on open files of this process, where the system tells it (POSIX `getrlimit`).
fn limit_of_files() -> Option<u64> {
    let mut limit = rlimit {
        rlim_cur: 0,
        rlim_max: 0,
    };
    match getrlimit(RLIMIT_NOFILE, &mut limit) {
        0 => Some(limit.rlim_cur),
        _ => None,
    }
}
