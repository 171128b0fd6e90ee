//! The messages as values (RFC 5531 section 9). Each word of a message is a `u32`, in the order of its bytes.

ghost use Rattle.std.specs.Prelude.{◌≡◌, IfOk};
ghost use Rattle.rpc_message.specs.View.{auth_view, lent_view, call_view, lent_call_view};

use std::alloc::Global;
use xdr_units::NoMemory;

/// A flavor of authentication and its body, `opaque_auth` (section 8.2). In a message the body has at most 400
/// bytes. Flavors that RFC 5531 does not name are kept as they are.
#[derive(Debug, PartialEq, Eq, Drop)]
pub struct OpaqueAuth {
    pub flavor: u32,
    pub body: Vec<u8>,
}

/// The body of the flavor AUTH_SYS (appendix A): at most 255 bytes of machine name, and at most 16 gids.
#[derive(Debug, PartialEq, Eq, Drop)]
pub struct AuthSys {
    pub stamp: u32,
    pub machine: Vec<u8>,
    pub uid: u32,
    pub gid: u32,
    pub gids: Vec<u32>,
}

/// A call of version 2 of RPC, `call_body` with its xid. The arguments go to the end of the message.
#[derive(Debug, PartialEq, Eq, Drop)]
pub struct Call {
    pub xid: u32,
    pub prog: u32,
    pub vers: u32,
    pub proc: u32,
    pub cred: OpaqueAuth,
    pub verf: OpaqueAuth,
    pub args: Vec<u8>,
}

/// A flavor of authentication whose body lies in the bytes of a message.
#[derive(Clone, Copy, Debug)]
pub struct LentAuth<'a> {
    pub flavor: u32,
    pub body: &'a [u8],
}

impl LentAuth<'_> {
    /// The same with a body of its own.
    pub fn copied(self, alloc: Global) -> Result<OpaqueAuth, NoMemory>
        ensures { IfOk result (λ a. auth_view a ≡ lent_view self.entry) }
    {
        Ok(OpaqueAuth {
            flavor: self.flavor,
            body: Vec::from_slice(alloc, self.body)?,
        })
    }
}

/// A call that lies in the bytes of its message: nothing of it is copied.
#[derive(Clone, Copy, Debug)]
pub struct LentCall<'a> {
    pub xid: u32,
    pub prog: u32,
    pub vers: u32,
    pub proc: u32,
    pub cred: LentAuth<'a>,
    pub verf: LentAuth<'a>,
    pub args: &'a [u8],
}

impl LentCall<'_> {
    /// The same with parts of its own.
    pub fn copied(self, alloc: Global) -> Result<Call, NoMemory>
        ensures { IfOk result (λ c. call_view c ≡ lent_call_view self.entry) }
    {
        Ok(Call {
            xid: self.xid,
            prog: self.prog,
            vers: self.vers,
            proc: self.proc,
            cred: self.cred.copied(alloc)?,
            verf: self.verf.copied(alloc)?,
            args: Vec::from_slice(alloc, self.args)?,
        })
    }
}

/// What the bytes of a message are, as a call that lies in them: the cases of `CallRead`.
#[derive(Clone, Copy, Debug)]
pub enum LentRead<'a> {
    /// A call, with all its parts.
    Whole(LentCall<'a>),
    /// A call of another version of RPC than 2.
    OtherVersion { xid: u32, version: u32 },
    /// No credential can be read.
    BadCred { xid: u32 },
    /// No verifier can be read.
    BadVerf { xid: u32 },
    /// No call, or less than its front.
    NotACall,
}

/// What the bytes of a message are, as a call. One of the five applies to all bytes.
#[derive(Debug, PartialEq, Eq, Drop)]
pub enum CallRead {
    /// A call, with all its parts.
    Whole(Call),
    /// A call of another version of RPC than 2. What follows the version is not looked at.
    OtherVersion { xid: u32, version: u32 },
    /// Byte 24 begins no credential: it is cut, longer than 400 bytes, or has padding that is not zero.
    BadCred { xid: u32 },
    /// No verifier follows the credential, for the same reasons.
    BadVerf { xid: u32 },
    /// Fewer than 12 bytes, a second word that is not 0, or version 2 with fewer than 24 bytes.
    NotACall,
}

/// What an accepted call came to, `accept_stat` with what follows it.
#[derive(Debug, PartialEq, Eq, Drop)]
pub enum Status {
    /// The results, to the end of the message.
    Success(Vec<u8>),
    /// The program is not here.
    ProgUnavail,
    /// The program is here in the versions from `low` to `high`.
    ProgMismatch { low: u32, high: u32 },
    /// The program has no such procedure.
    ProcUnavail,
    /// The arguments cannot be read.
    GarbageArgs,
    /// The call failed here, as where memory is refused.
    SystemErr,
}

/// Why a call was denied, `reject_stat` with what follows it.
#[derive(Clone, Copy, Debug, PartialEq, Eq)]
pub enum Why {
    /// RPC is spoken here in the versions from `low` to `high`.
    RpcMismatch { low: u32, high: u32 },
    /// The caller is not believed. The number is an `auth_stat`; one that RFC 5531 does not name is kept as it is.
    AuthError(u32),
}

/// A reply, `reply_body` with its xid.
#[derive(Debug, PartialEq, Eq, Drop)]
pub enum Reply {
    /// The call was accepted, and came to a status.
    Accepted {
        xid: u32,
        verf: OpaqueAuth,
        status: Status,
    },
    /// The call was denied.
    Denied {
        xid: u32,
        why: Why,
    },
}
