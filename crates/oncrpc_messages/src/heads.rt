//! The types by which the head of a message and a credential of AUTH_SYS are judged.
ghost use Rattle.std.specs.Prelude.{◌<◌, length};

use xdr_lang::Declared;
use xdr_types::KindId;

/// What the text of RFC 5531 declares of messages, and its two types.
#[derive(Drop)]
pub struct Heads {
    pub(crate) declared: Declared,
    /// The head of a message, up to what a procedure has (section 9).
    pub(crate) message: KindId,
    /// The body of AUTH_SYS (appendix A).
    pub(crate) auth_sys: KindId,
    ghost known_message: { message.place < length declared.schema.kinds },
    ghost known_auth_sys: { auth_sys.place < length declared.schema.kinds },
}
