//! Whose the rows are that a call sets.
ghost use Rattle.std.specs.Prelude.{◌≢◌, ℕ, List, codes};
ghost use Rattle.rpc_message.specs.Message.{CallView};
ghost use Rattle.registry_answer.specs.Callers.{IsCaller, Owner};
ghost use Rattle.registry_callers.specs.Vouching.{IsVouched};
ghost use Rattle.registry_callers.specs.declared.callers.Peer.TheVariants as peer;

use registry_callers::{nobody_afar_is_superuser, user_is_owner};

/// What user 7 of this host sets is owned by "7", whatever its calls claim.
pub fn is_owned_by_its_user()
    ensures { (c : CallView) (asked : List ℕ) → (v : IsVouched (peer.LocalUser 7) c asked)
        → IsCaller v.cred (Owner (codes "7")) }
{
    user_is_owner();
}

/// User 0 of this host is the superuser.
pub fn is_owned_by_the_superuser()
    ensures { (c : CallView) (asked : List ℕ) → (v : IsVouched (peer.LocalUser 0) c asked)
        → IsCaller v.cred (Owner (codes "superuser")) }
{
    user_is_owner();
}

/// Nobody of another host is.
pub fn is_no_superuser_afar()
    ensures { (c : CallView) (asked owner : List ℕ) → (v : IsVouched peer.Remote c asked)
        → IsCaller v.cred (Owner owner) → owner ≢ codes "superuser" }
{
    nobody_afar_is_superuser();
}
