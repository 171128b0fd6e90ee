//! Who calls.
ghost use Rattle.std.specs.Prelude.{◌≡◌, ◌≤◌, length};
ghost use Rattle.rpc_message.specs.View.{lent_view};
ghost use Rattle.registry_answer.specs.Callers.{IsCaller};
ghost use Rattle.registry_answer.specs.Owners.{owner_text, caller_view};

use itoa::Buffer;
use rpc_message::{
    AUTH_BADCRED, AUTH_NONE, AUTH_REJECTEDCRED, AUTH_SYS, LentAuth, read_auth_sys_uid,
};

/// The owner of the rows that a caller sets.
#[derive(Clone, Copy)]
pub enum Owner {
    /// A caller without a name.
    Unknown,
    /// The user with this uid.
    User(u32),
}

/// The caller that a credential names.
#[derive(Clone, Copy)]
pub enum Caller {
    /// A caller who is believed.
    Owner(Owner),
    /// One who is not, with the `auth_stat` that says why.
    Refused(u32),
}

impl Owner {
    /// The owner's text, at most 10 bytes.
    pub fn text<'a>(self, buffer: &'a mut Buffer) -> &'a [u8]
        ensures text { result.now ≡ owner_text self }
        ensures short { length result.now ≤ 10 }
    {
        match self {
            Owner::Unknown => b"unknown",
            Owner::User(0) => b"superuser",
            Owner::User(uid) => buffer.format(uid).as_bytes(),
        }
    }
}

/// The caller that a credential names: AUTH_NONE with any body, or AUTH_SYS with a body that reads (RFC 5531 sections
/// 8.2, 9 and appendix A). It takes no memory.
pub fn caller_of(cred: &LentAuth<'_>) -> Caller
    ensures { IsCaller (lent_view cred.now) (caller_view result) }
{
    match cred.flavor {
        AUTH_NONE => Caller::Owner(Owner::Unknown),
        AUTH_SYS => match read_auth_sys_uid(cred.body) {
            Some(uid) => Caller::Owner(Owner::User(uid)),
            None => Caller::Refused(AUTH_BADCRED),
        },
        _ => Caller::Refused(AUTH_REJECTEDCRED),
    }
}
