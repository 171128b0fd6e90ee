//! Who calls, as C tells it.
ghost use Rattle.std.specs.Prelude.{◌≡◌};
ghost use Rattle.c_registry.specs.Callers.{caller_of, host_of, peer_of};

use registry_callers::{Caller, Peer};

/// Who sends a record: the `oncrpc_caller` of the header. All zeros are someone at another host, from whom no change of
/// rows is taken.
#[repr(C)]
#[derive(Clone, Copy)]
pub struct CallerParts {
    /// 0: someone at another host. 1: someone at this host. 2: the user of this host with this uid, as the kernel says.
    pub peer: u32,
    pub uid: u32,
    /// The host to whose address the call came, where that is known.
    pub host: [u8; 4],
    pub has_host: bool,
    /// Whether changes of rows by callers of other hosts are taken.
    pub trusts_remote: bool,
}

/// Who calls, by a number of the header. `None`: it is above 2.
fn peer_of(number: u32, uid: u32) -> Option<Peer>
    ensures { result ≡ peer_of number uid }
{
    match number {
        0 => Some(Peer::Remote),
        1 => Some(Peer::Local),
        2 => Some(Peer::LocalUser(uid)),
        _ => None,
    }
}

/// The host that was called, where that is known.
fn host_of(parts: &CallerParts) -> Option<[u8; 4]>
    ensures { result ≡ host_of parts.now }
{
    if parts.has_host {
        return Some(parts.host);
    }
    None
}

/// The caller. `None`: `peer` is above 2.
pub fn caller_of(parts: &CallerParts) -> Option<Caller>
    ensures { result ≡ caller_of parts.now }
{
    let peer = peer_of(parts.peer, parts.uid)?;
    Some(Caller {
        peer,
        host: host_of(parts),
        trusts_remote: parts.trusts_remote,
    })
}
