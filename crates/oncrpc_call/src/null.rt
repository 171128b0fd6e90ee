//! The call of procedure 0, which each program has.
ghost use Rattle.std.specs.Prelude.{◌≡◌, [], IfOk};
ghost use Rattle.rpc_message.specs.View.{auth_view, call_view};
ghost use Rattle.oncrpc_call.specs.Asked.{CanBeMade};
ghost use Rattle.oncrpc_call.specs.Asking.{AsksNull, null_call};

use crate::asked::{Asked, Form};
use rpc_message::{Call, OpaqueAuth};
use std::alloc::Global;
use xdr_types::{KindId, Limits, NoMemory, Schema};

/// The kind without bytes of the basic schema.
const VOID: KindId = KindId { place: 5 };

/// The call of procedure 0 of a version of a program, by nobody, with xid 1 and neither arguments nor results (RFC 5531
/// section 12.1). Its result is printed as a line of no bytes.
pub fn ask_null(alloc: Global, program: u32, version: u32) -> Result<Asked, NoMemory>
    // What is asked is that call,
    ensures asked { IfOk result (λ a. AsksNull program version a) }
    // and it can be made.
    ensures ready { IfOk result (λ a. CanBeMade a) }
{
    Ok(Asked {
        call: null_call(alloc, program, version),
        schema: Schema::basic(alloc)?,
        result: VOID,
        limits: Limits::new(4096, 16777216).unwrap(),
        form: Form::Hex,
    })
}

fn null_call(alloc: Global, program: u32, version: u32) -> Call
    ensures { call_view result ≡ null_call program version }
{
    Call {
        xid: 1,
        prog: program,
        vers: version,
        proc: 0,
        cred: nobody(alloc),
        verf: nobody(alloc),
        args: Vec::new(alloc),
    }
}

// AUTH_NONE with an empty body (RFC 5531 section 10.1).
fn nobody(alloc: Global) -> OpaqueAuth
    ensures { auth_view result ≡ record { flavor = 0; body = [] } }
{
    OpaqueAuth {
        flavor: 0,
        body: Vec::new(alloc),
    }
}
