//! The transports over which the registry is served.
ghost use Rattle.std.specs.Prelude.{◌≡◌, not};
ghost use Rattle.registry_answer.specs.Answer.{is_too_long};
ghost use Rattle.registry_answer.specs.Views.{netid_of};

/// How many bytes a datagram over IPv4 has at most.
const MOST_DATAGRAM: usize = 65507;

/// A transport (RFC 5665 section 5.1).
#[derive(Clone, Copy, Debug, PartialEq, Eq)]
pub enum Transport {
    /// TCP over IPv4, netid `tcp`.
    Tcp,
    /// UDP over IPv4, netid `udp`: a reply is one datagram of at most 65507 bytes.
    Udp,
    /// A stream over a Unix socket of this host, netid `local`.
    Local,
}

impl Transport {
    /// The transport's netid.
    pub fn netid(self) -> &'static [u8]
        ensures { result.now ≡ netid_of self }
    {
        match self {
            Transport::Tcp => b"tcp",
            Transport::Udp => b"udp",
            Transport::Local => b"local",
        }
    }

    /// Whether a reply of so many bytes can be sent.
    pub fn carries(self, count: usize) -> bool
        ensures { result ≡ not (is_too_long (netid_of self) count) }
    {
        match self {
            Transport::Tcp => true,
            Transport::Udp => count <= MOST_DATAGRAM,
            Transport::Local => true,
        }
    }
}
