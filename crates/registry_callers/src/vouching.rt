//! The credential by which the owner of a changed row is found.
ghost use Rattle.std.specs.Prelude.{◌≡◌, ◌≤◌, ◌↔◌, length, IfOk, IsTrue, MatchOption};
ghost use Rattle.rpc_message.specs.Spelling.{CallBytes};
ghost use Rattle.rpc_message.specs.View.{auth_view, lent_view, lent_call_view};
ghost use Rattle.registry_callers.specs.Vouching.{ClaimsSuperuser, IsVouched, Vouches, no_cred, user_cred, with_cred};

use crate::callers::Peer;
use rpc_message::{
    AUTH_NONE, AUTH_SYS, AuthSys, LentAuth, LentCall, OpaqueAuth, read_auth_sys_uid,
    write_auth_sys, write_call,
};
use std::alloc::Global;
use xdr_units::NoMemory;

/// The bytes of a call with the credential by which an owner is found. `None`: it is the one that the call has.
pub fn vouched(alloc: Global, peer: Peer, call: &LentCall<'_>) -> Result<Option<Vec<u8>>, NoMemory>
    requires { length call.now.verf.body.now ≤ 400 }
    ensures { let c = lent_call_view call.now in
        IfOk result (λ o. MatchOption o (Vouches c.cred peer c.cred) (λ v. IsVouched peer c v.items)) }
{
    match peer {
        Peer::Local => Ok(None),
        Peer::LocalUser(uid) => {
            let cred = user_cred(alloc, uid)?;
            Ok(Some(written_with(alloc, call, cred)?))
        }
        Peer::Remote => {
            if !claims_superuser(&call.cred) {
                return Ok(None);
            }
            let cred = OpaqueAuth {
                flavor: AUTH_NONE,
                body: Vec::new(alloc),
            };
            Ok(Some(written_with(alloc, call, cred)?))
        }
    }
}

/// Whether the credential claims to be that of the superuser. It takes no memory.
fn claims_superuser(cred: &LentAuth<'_>) -> bool
    ensures { IsTrue result ↔ ClaimsSuperuser (lent_view cred.now) }
{
    cred.flavor == AUTH_SYS && read_auth_sys_uid(cred.body) == Some(0)
}

/// The AUTH_SYS credential of a user of whom no more than the uid is known (RFC 5531 appendix A).
fn user_cred(alloc: Global, uid: u32) -> Result<OpaqueAuth, NoMemory>
    ensures cred { IfOk result (λ a. auth_view a ≡ user_cred uid) }
    ensures short { IfOk result (λ a. length a.body.items ≤ 400) }
{
    let parms = AuthSys {
        stamp: 0,
        machine: Vec::new(alloc),
        uid,
        gid: 0,
        gids: Vec::new(alloc),
    };
    Ok(OpaqueAuth {
        flavor: AUTH_SYS,
        body: write_auth_sys(alloc, &parms)?,
    })
}

/// The bytes of the call with this credential.
fn written_with(alloc: Global, call: &LentCall<'_>, cred: OpaqueAuth) -> Result<Vec<u8>, NoMemory>
    requires cred { length cred.body.items ≤ 400 }
    requires verf { length call.now.verf.body.now ≤ 400 }
    ensures { IfOk result (λ v. CallBytes (with_cred (lent_call_view call.now) (auth_view cred)) v.items) }
{
    let mut own = call.copied(alloc)?;
    own.cred = cred;
    write_call(alloc, &own)
}
