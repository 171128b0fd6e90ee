//! The transports that version 2 knows, each by its number and by its netid (RFC 1833 section 3.1).
ghost use Rattle.std.specs.Prelude.{◌≡◌, option_map};
ghost use Rattle.registry_rows.specs.Ports.{netid_of_prot, prot_of_netid};

/// The number of TCP.
const IPPROTO_TCP: u32 = 6;

/// The number of UDP.
const IPPROTO_UDP: u32 = 17;

/// The netid of a transport's number: `tcp` for 6, `udp` for 17, none for another.
pub fn netid_of_prot(prot: u32) -> Option<&'static [u8]>
    ensures { option_map (λ b. b.now) result ≡ netid_of_prot prot }
{
    match prot {
        IPPROTO_TCP => Some(b"tcp"),
        IPPROTO_UDP => Some(b"udp"),
        _ => None,
    }
}

/// The number of a transport's netid: 6 for `tcp`, 17 for `udp`, none for another.
pub fn prot_of_netid(netid: &[u8]) -> Option<u32>
    ensures { result ≡ prot_of_netid netid.now }
{
    if netid == b"tcp".as_slice() {
        Some(IPPROTO_TCP)
    } else if netid == b"udp".as_slice() {
        Some(IPPROTO_UDP)
    } else {
        None
    }
}
