//! What is said of bytes that no message has.
ghost use Rattle.std.specs.Prelude.{◌≡◌};
ghost use Rattle.oncrpc_capture.specs.Notes.{told_name, why_unread, is_unread};

use capture_packets::Reason;
use capture_records::Told;

/// The word of it.
pub fn told_name(told: Told) -> &'static str
    ensures { result.now ≡ told_name told }
{
    match told {
        Told::Missing => "missing",
        Told::Unfinished => "unfinished",
        Told::Passed => "passed",
        Told::Dropped => "dropped",
    }
}

/// The word of a reason why a packet is not read.
pub fn why_unread(reason: Reason) -> &'static str
    ensures { result.now ≡ why_unread reason }
{
    match reason {
        Reason::UnknownLink => "UnknownLink",
        Reason::Cut => "Cut",
        Reason::NotInternet => "NotInternet",
        Reason::BadInternet => "BadInternet",
        Reason::Fragment => "Fragment",
        Reason::OtherProtocol => "OtherProtocol",
        Reason::BadDatagram => "BadDatagram",
        Reason::BadSegment => "BadSegment",
    }
}

/// Whether a packet that carries nothing for this reason may have carried a message: all do but those of other
/// protocols.
pub fn is_unread(reason: Reason) -> bool
    ensures { result ≡ is_unread reason }
{
    match reason {
        Reason::NotInternet | Reason::OtherProtocol => false,
        Reason::UnknownLink => true,
        Reason::Cut => true,
        Reason::BadInternet => true,
        Reason::Fragment => true,
        Reason::BadDatagram => true,
        Reason::BadSegment => true,
    }
}
