//! A row of the registry, and who may remove it.
ghost use Rattle.std.specs.Prelude.{◌≡◌};
ghost use Rattle.std.specs.Str.{bytes_eq};
ghost use Rattle.registry_rows.specs.Steps.{is_unset, superuser, may_remove};
ghost use Rattle.registry_rows.specs.LookUp.{is_over};
ghost use Rattle.registry_rows.specs.Views.{plain_row};

/// A row of the registry: who serves a version of a program over a transport, and where (RFC 1833 section 2.1, `rpcb`).
#[derive(Debug, Drop)]
pub struct Row {
    /// The program's number.
    pub prog: u32,
    /// The version's number.
    pub vers: u32,
    /// The name of the transport, as `tcp`: 1 to 64 bytes.
    pub netid: Vec<u8>,
    /// The universal address, kept as it was given: 1 to 256 bytes.
    pub address: Vec<u8>,
    /// Who set the row: at most 10 bytes.
    pub owner: Vec<u8>,
}

impl Row {
    /// Whether an `unset` of these by this owner removes the row (RFC 1833 section 2.2.1, RPCBPROC_UNSET). It does
    /// where its program and version are these, its netid is this one or the one given is empty, and the owner may
    /// remove it.
    pub fn is_unset(&self, prog: u32, vers: u32, netid: &[u8], owner: &[u8]) -> bool
        ensures { result ≡ is_unset prog vers netid.now owner.now (plain_row self.now) }
    {
        prog == self.prog
            && vers == self.vers
            && (netid.is_empty() || netid == self.netid.as_slice())
            && self.may_remove(owner)
    }

    /// Whether the row is of this program and over this transport, in whatever version.
    pub fn is_over(&self, prog: u32, netid: &[u8]) -> bool
        ensures { result ≡ is_over prog netid.now (plain_row self.now) }
    {
        prog == self.prog && netid == self.netid.as_slice()
    }

    /// Whether the owner may remove the row: it is the row's own, or `superuser`.
    pub fn may_remove(&self, owner: &[u8]) -> bool
        ensures { result ≡ may_remove owner.now (plain_row self.now) }
    {
        owner == self.owner.as_slice() || is_superuser(owner)
    }
}

// Whether the owner may remove every row.
fn is_superuser(owner: &[u8]) -> bool
    ensures { result ≡ bytes_eq owner.now superuser }
{
    owner == b"superuser".as_slice()
}
