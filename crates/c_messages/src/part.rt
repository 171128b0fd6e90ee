//! Where a part of a message lies.
ghost use Rattle.std.specs.Prelude.{◌≡◌, ◌≤◌, ◌+◌};
ghost use Rattle.c_messages.specs.Parts.{part, none, padded_size};

/// So many bytes, behind so many bytes of the message.
#[repr(C)]
#[derive(Clone, Copy)]
pub struct Part {
    pub at: usize,
    pub count: usize,
}

impl Part {
    /// No part.
    pub(crate) fn none() -> Part
        ensures { result ≡ none }
    {
        Part { at: 0, count: 0 }
    }
}

/// How many bytes so many have with their padding (RFC 4506 section 3).
pub(crate) fn padded_size(count: usize) -> usize
    requires { count ≤ 400 }
    ensures size { result ≡ padded_size count }
    ensures least { count ≤ result }
    ensures most { result ≤ count + 3 }
{
    count + (4 - count % 4) % 4
}
