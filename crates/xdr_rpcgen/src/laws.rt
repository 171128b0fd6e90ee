//! What a text of the RFCs' language means in the dialect.
ghost use Rattle.xdr_rpcgen.specs.Laws.{KeepsMeanings};

/// A text without a construct of the dialect means there what `xdr_lang::read` gives for it. The call does nothing.
pub fn texts_keep_their_meanings()
    ensures { KeepsMeanings }
{}
