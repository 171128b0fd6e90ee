//! The laws of the definitions that the contracts name. No call of them does anything.
ghost use Rattle.registry_answer.specs.Laws.{OneAnswer, SomeAnswer};

use rpc_message::{auth_sys_bytes_are_exact, five_cases};
use xdr_laws::one_outcome;

/// A record has one answer: the rows, the transport's netid, the record's bytes and whether memory was refused fix the
/// new rows and what is sent, silence or the bytes of one reply.
pub fn one_answer()
    ensures { OneAnswer }
{
    five_cases();
    auth_sys_bytes_are_exact();
    one_outcome();
}

/// Each record has an answer with no memory refused: so SYSTEM_ERR for an allocation failure is never the only lawful
/// one.
pub fn each_record_has_an_answer()
    ensures { SomeAnswer }
{
    five_cases();
}
