//! Laws of the definitions that the contracts name. No call of them does anything.
ghost use Rattle.oncrpc_messages.specs.Canonical.{CanonicalIsEncoded};

/// A message that is found to be canonical is a call or a reply. Its bytes, those of its credential of AUTH_SYS and
/// those of its arguments or results, whose kinds are known, are those that encoding gives of what was read.
pub fn canonical_is_encoded()
    ensures { CanonicalIsEncoded }
{}
