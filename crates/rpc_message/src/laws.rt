//! Laws of the definitions that the contracts name. No call of them does anything.

ghost use Rattle.std.specs.Prelude.{◌≡◌, ◌↔◌, List, ℕ};
ghost use Rattle.rpc_message.specs.Message.{AuthSysView, CallView, CaseView, ReplyView};
ghost use Rattle.xdr_units.specs.Numbers.{AreBytes};
ghost use Rattle.rpc_message.specs.Spelling.{AuthSysBytes, CallBytes, ReplyBytes};
ghost use Rattle.rpc_message.specs.Cases.{IsCase, NoTwoCases};

/// Two calls are equal exactly if their bytes are (RFC 5531 section 9).
pub fn call_bytes_are_exact()
    ensures { (c d : CallView) (a b : List ℕ) → CallBytes c a → CallBytes d b → ((c ≡ d) ↔ (a ≡ b)) }
{}

/// Two replies are equal exactly if their bytes are (RFC 5531 section 9).
pub fn reply_bytes_are_exact()
    ensures { (q r : ReplyView) (a b : List ℕ) → ReplyBytes q a → ReplyBytes r b → ((q ≡ r) ↔ (a ≡ b)) }
{}

/// Two bodies of AUTH_SYS are equal exactly if their bytes are (RFC 5531 appendix A).
pub fn auth_sys_bytes_are_exact()
    ensures { (p q : AuthSysView) (a b : List ℕ) → AuthSysBytes p a → AuthSysBytes q b → ((p ≡ q) ↔ (a ≡ b)) }
{}

/// Each list of bytes is in one of the five cases of `read_call`, and in no other.
pub fn five_cases()
    // One of them applies,
    ensures covering { (bytes : List ℕ) → AreBytes bytes → (k : CaseView) × IsCase bytes k }
    // and no two of them.
    ensures exclusive { NoTwoCases }
{}
