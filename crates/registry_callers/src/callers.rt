//! Who calls, and to which host.
ghost use Rattle.std.specs.Prelude.{◌≡◌};
ghost use Rattle.registry_callers.specs.Callers.{is_trusted};

/// The `auth_stat` of a caller who is known and may not do this (RFC 5531 section 9).
pub const AUTH_TOOWEAK: u32 = 5;

/// Who calls, as the transport knows it.
#[derive(Clone, Copy, Debug, PartialEq, Eq)]
pub enum Peer {
    /// Someone at another host.
    Remote,
    /// Someone at this host.
    Local,
    /// The user of this host with this uid, as the kernel says.
    LocalUser(u32),
}

/// What a transport knows of a call beside its bytes.
#[derive(Clone, Copy, Debug, PartialEq, Eq)]
pub struct Caller {
    /// Who calls.
    pub peer: Peer,
    /// The host to whose address the call came, where that is known.
    pub host: Option<[u8; 4]>,
    /// Changes by callers of other hosts are taken.
    pub trusts_remote: bool,
}

impl Caller {
    /// Whether changes of rows by this caller are taken.
    pub fn is_trusted(&self) -> bool
        ensures { result ≡ is_trusted self.now }
    {
        match self.peer {
            Peer::Remote => self.trusts_remote,
            Peer::Local => true,
            Peer::LocalUser(_) => true,
        }
    }
}
