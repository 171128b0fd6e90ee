//! Laws of the definitions that the contracts name. No call of them does anything.
ghost use Rattle.registry_callers.specs.Laws.{LocalIsAsEver, OneAnswerFrom, OthersAreAsEver, RemoteIsDenied};
ghost use Rattle.registry_callers.specs.Laws.{NobodyAfarIsSuperuser, RefusedRowsStay, SomeAnswerFrom, UserIsOwner};
ghost use Rattle.registry_callers.specs.Laws.{SuperusersRowsStay};

use registry_answer::{each_record_has_an_answer, one_answer};
use rpc_message::{auth_sys_bytes_are_exact, call_bytes_are_exact, five_cases};

/// A record has one answer: who calls, the rows, the transport's netid, the record's bytes and whether memory was
/// refused fix the new rows and what is sent.
pub fn one_answer_from()
    ensures { OneAnswerFrom }
{
    call_bytes_are_exact();
    one_answer();
    five_cases();
}

/// Each record of each caller has an answer with no memory refused: so SYSTEM_ERR for an allocation failure is never
/// the only lawful one.
pub fn each_caller_has_an_answer()
    ensures { SomeAnswerFrom }
{
    each_record_has_an_answer();
}

/// A caller of this host has the plain answer, where it sets no row again and looks no address at 0.0.0.0 up.
pub fn local_is_as_ever()
    ensures { LocalIsAsEver }
{}

/// A record that is neither SET nor UNSET, and looks no address up, has the plain answer, whoever calls.
pub fn others_are_as_ever()
    ensures { OthersAreAsEver }
{}

/// Where memory is refused the rows stay, whoever calls.
pub fn refused_rows_stay()
    ensures { RefusedRowsStay }
{}

/// A SET or UNSET by a caller from whom no change is taken changes no row, and is AUTH_TOOWEAK where memory is not
/// refused.
pub fn remote_is_denied()
    ensures { RemoteIsDenied }
{
    call_bytes_are_exact();
}

/// What a user of this host sets is owned by the user whom the kernel names, whatever the call claims.
pub fn user_is_owner()
    ensures { UserIsOwner }
{}

/// Nobody of another host is the superuser, who may remove each row.
pub fn nobody_afar_is_superuser()
    ensures { NobodyAfarIsSuperuser }
{}

/// A row of the superuser stays, unless user 0 of this host calls, or one of this host whom the kernel does not name.
pub fn superusers_rows_stay()
    ensures { SuperusersRowsStay }
{
    auth_sys_bytes_are_exact();
    call_bytes_are_exact();
}
