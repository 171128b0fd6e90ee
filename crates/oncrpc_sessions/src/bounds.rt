//! What a registry's sockets hold at most.
ghost use Rattle.std.specs.Prelude.{◌≡◌, nat_lt};
ghost use Rattle.oncrpc_sessions.specs.Places.{local_places, most_files, most_open};

use std::time::Duration;

/// How many connections may be open at a time over the Unix socket.
const LOCAL_PLACES: usize = 16;

/// How many files may have to be open beside the connections over TCP: 16 over the Unix socket, the three streams, and
/// the wait. Then three sockets that listen, one by which an address is found, and eight that were open before.
const OTHER_FILES: usize = 32;

/// What a registry's sockets hold at most.
#[derive(Clone, Copy, Debug, PartialEq, Eq)]
pub struct Bounds {
    /// How many connections over TCP may be open at a time. The Unix socket has 16 places beside them. Others wait, and
    /// none of them is refused.
    pub connections: usize,
    /// How long a connection may stay that sends no whole record and takes nothing of its replies.
    pub idle: Duration,
    /// SET and UNSET of callers of other hosts are taken.
    pub trusts_remote: bool,
}

impl Bounds {
    /// How many connections may be open at a time in all: 16 more than over TCP, and at most 2^64 - 1.
    pub fn most(&self) -> usize
        ensures { result ≡ most_open self.now.connections }
    {
        self.connections.saturating_add(LOCAL_PLACES)
    }

    /// How many files may have to be open at a time: 32 more than connections over TCP, and at most 2^64 - 1.
    pub fn files(&self) -> usize
        ensures { result ≡ most_files self.now.connections }
    {
        self.connections.saturating_add(OTHER_FILES)
    }
}

/// Where one more connection has a place.
#[derive(Clone, Copy, Debug, PartialEq, Eq)]
pub struct Room {
    /// Over TCP.
    pub tcp: bool,
    /// Over the Unix socket.
    pub local: bool,
}

/// Where one more connection has a place, while so many are open over TCP and over the Unix socket.
pub fn room_within(bounds: Bounds, tcp: usize, local: usize) -> Room
    // Neither takes a place of the other.
    ensures tcp { result.tcp ≡ nat_lt tcp bounds.connections }
    ensures local { result.local ≡ nat_lt local local_places }
{
    Room {
        tcp: tcp < bounds.connections,
        local: local < LOCAL_PLACES,
    }
}
