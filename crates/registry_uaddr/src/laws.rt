//! The laws of universal addresses.
ghost use Rattle.registry_uaddr.specs.Laws.{ReadsOnlyTexts, ReadsAllTexts, EachTextIsOneAddress};

/// A text that is read is the text of its address, the text of an address is read as it, and two addresses with the
/// same text are one.
pub fn uaddr_reads_back()
    // A text that is read is the text of its address.
    ensures only { ReadsOnlyTexts }
    // The text of an address is read as it.
    ensures all { ReadsAllTexts }
    // Two addresses with one text are one.
    ensures one { EachTextIsOneAddress }
{}
