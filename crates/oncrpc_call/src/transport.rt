//! Over what a program is reached.
ghost use Rattle.std.specs.Prelude.{◌≡◌};
ghost use Rattle.oncrpc_call.specs.Questions.{netid, protocol, versions_asked};

/// TCP or UDP, over IPv4 or over IPv6 (RFC 5665 section 5.1).
#[derive(Clone, Copy, Debug, PartialEq, Eq)]
pub enum Transport {
    /// TCP over IPv4.
    Tcp,
    /// UDP over IPv4.
    Udp,
    /// TCP over IPv6.
    Tcp6,
    /// UDP over IPv6.
    Udp6,
}

impl Transport {
    /// Its netid (RFC 5665 section 5.1): `tcp`, `udp`, `tcp6` or `udp6`.
    pub fn netid(self) -> &'static [u8]
        ensures { result.now ≡ netid self }
    {
        match self {
            Transport::Tcp => b"tcp",
            Transport::Udp => b"udp",
            Transport::Tcp6 => b"tcp6",
            Transport::Udp6 => b"udp6",
        }
    }

    /// The number of its protocol, which a `mapping` has (RFC 1833 section 3.1): 6 of TCP, 17 of UDP.
    pub fn protocol(self) -> u32
        ensures { result ≡ protocol self }
    {
        match self {
            Transport::Tcp | Transport::Tcp6 => 6,
            Transport::Udp | Transport::Udp6 => 17,
        }
    }

    /// The versions of the registry that tell ports over it, in the order in which they are asked: 4, 3 and, over IPv4
    /// alone, 2 (RFC 1833 sections 2 and 3).
    pub fn registries(self) -> &'static [u32]
        ensures { result.now ≡ versions_asked self }
    {
        match self {
            Transport::Tcp | Transport::Udp => &[4, 3, 2],
            Transport::Tcp6 | Transport::Udp6 => &[4, 3],
        }
    }
}
