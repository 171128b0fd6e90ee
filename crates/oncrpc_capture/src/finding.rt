//! Where bytes begin as a call does.
ghost use Rattle.std.specs.Prelude.{◌↔◌, IsTrue};
ghost use Rattle.oncrpc_capture.specs.Brought.{BeginsCall};

use xdr_units::first_word;

/// Whether bytes begin as a call of version 2 does: behind its xid come 0 and 2.
pub fn begins_call(bytes: &[u8]) -> bool
    ensures { IsTrue result ↔ BeginsCall bytes.now }
{
    let Some((_xid, rest)) = first_word(bytes) else {
        return false;
    };
    let Some((kind, rest)) = first_word(rest) else {
        return false;
    };
    let Some((version, _rest)) = first_word(rest) else {
        return false;
    };
    if kind != 0 {
        return false;
    }
    version == 2
}
