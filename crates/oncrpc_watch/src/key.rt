//! The number under which a call is kept.
ghost use Rattle.std.specs.Prelude.{◌≡◌};
ghost use Rattle.oncrpc_watch.specs.Waiting.{key};

/// The key of a call: its way, and then its xid.
pub fn key(way: u32, xid: u32) -> u64
    ensures { result ≡ key way xid }
{
    (way as u64) * 4294967296 + xid as u64
}
