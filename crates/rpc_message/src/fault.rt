//! Why bytes are no reply.

ghost use Rattle.std.specs.Prelude.{◌≡◌};
ghost use Rattle.rpc_message.specs.declared.fault.ReplyFault.TheVariants as faults;

use std::alloc::{AllocError, AllocFailed};
use thiserror::Error;
use xdr_units::NoMemory;

/// Why bytes are no reply: the first fault in the order of the bytes (RFC 5531 sections 8.2 and 9).
#[derive(Clone, Copy, Debug, PartialEq, Eq, Error)]
pub enum ReplyFault {
    /// The bytes end inside of a number, of the verifier's body or of its padding.
    #[error("the reply is cut")]
    Truncated,
    /// The second word is not 1.
    #[error("not a reply")]
    NotAReply,
    /// The reply's status is above 1, an accepted reply's above 5, or a denied reply's above 1.
    #[error("a status that there is not")]
    BadStatus,
    /// The verifier has more than 400 bytes, or padding that is not zero.
    #[error("a verifier that is too long or badly padded")]
    BadAuth,
    /// Bytes follow a reply that has no results.
    #[error("bytes after the reply")]
    Rest,
    /// Memory was refused.
    #[error("out of memory")]
    NoMemory,
}

impl From<AllocError> for ReplyFault {
    ghost from_gives = { λ _ e. e ≡ faults.NoMemory };

    fn from(_e: AllocError) -> ReplyFault {
        ReplyFault::NoMemory
    }
}

impl From<NoMemory> for ReplyFault {
    ghost from_gives = { λ _ e. e ≡ faults.NoMemory };

    fn from(_e: NoMemory) -> ReplyFault {
        ReplyFault::NoMemory
    }
}

impl<T: Drop> From<AllocFailed<T>> for ReplyFault {
    ghost from_gives = { λ _ e. e ≡ faults.NoMemory };

    fn from(_e: AllocFailed<T>) -> ReplyFault {
        ReplyFault::NoMemory
    }
}
