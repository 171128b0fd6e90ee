//! Transports by their netids.
ghost use Rattle.std.specs.Prelude.{◌≡◌, MatchOption};
ghost use Rattle.registry_answer.specs.Views.{netid_of};
ghost use Rattle.c_registry.specs.Answered.{IsTransport};
ghost use Rattle.c_registry.specs.Callers.{IsOrigin, IsStream};

use registry_answer::Transport;

/// The transport with this netid, of those whose callers are not known.
pub fn transport_of(netid: &[u8]) -> Option<Transport>
    ensures { MatchOption result (IsTransport netid.now → ⊥)
        (λ t. IsTransport netid.now × (netid_of t ≡ netid.now)) }
{
    if netid == b"tcp".as_slice() {
        return Some(Transport::Tcp);
    }
    if netid == b"udp".as_slice() {
        return Some(Transport::Udp);
    }
    None
}

/// The transport with this netid, a local socket too.
pub fn origin_of(netid: &[u8]) -> Option<Transport>
    ensures { MatchOption result (IsOrigin netid.now → ⊥) (λ t. IsOrigin netid.now × (netid_of t ≡ netid.now)) }
{
    if netid == b"local".as_slice() {
        return Some(Transport::Local);
    }
    transport_of(netid)
}

/// The transport with this netid, of those with connections.
pub fn stream_of(netid: &[u8]) -> Option<Transport>
    ensures { MatchOption result (IsStream netid.now → ⊥) (λ t. IsStream netid.now × (netid_of t ≡ netid.now)) }
{
    if netid == b"tcp".as_slice() {
        return Some(Transport::Tcp);
    }
    if netid == b"local".as_slice() {
        return Some(Transport::Local);
    }
    None
}
