//! The call that a name and arguments ask for.
ghost use Rattle.std.specs.Prelude.{◌≡◌, ◌≤◌, ◌<◌, IfErr, IfOk, length, option_map};
ghost use Rattle.rpc_message.specs.View.{auth_view, call_view};
ghost use Rattle.xdr_lang.specs.Views.{declared_of};
ghost use Rattle.oncrpc_procedures.specs.View.{target_of};
ghost use Rattle.oncrpc_call.specs.Asked.{CanBeMade};
ghost use Rattle.oncrpc_call.specs.Asking.{AsksFor, AsksNothing, IsResultKind, LacksResult, call_for, terms_of};

use crate::arguments::judge_arguments;
use crate::asked::{Asked, Form};
use crate::unasked::Unasked;
use oncrpc_procedures::{Named, procedure_named};
use rpc_message::{Call, OpaqueAuth};
use std::alloc::Global;
use xdr_lang::Declared;
use xdr_types::{KindId, Limits, Schema};

/// The most bytes of arguments.
pub const MOST_ARGUMENTS: usize = 16777216;

/// The kind without bytes of the basic schema.
const VOID: KindId = KindId { place: 5 };

/// What a caller chooses beside the procedure and its arguments.
#[derive(Drop)]
pub struct Terms {
    /// The number of the call, which its reply has to have (RFC 5531 section 9).
    pub xid: u32,
    /// Who calls: a flavor, and a body of at most 400 bytes (RFC 5531 section 8.2).
    pub cred: OpaqueAuth,
    /// The limits on each argument and on the result.
    pub limits: Limits,
    /// How the result is printed.
    pub form: Form,
}

/// The call that a name and arguments ask for in what is declared, and the kind of its result. The arguments are judged
/// here: a value of each kind that the procedure has, one behind another, at most 16777216 bytes in all. The credential
/// has at most 400 bytes.
///
/// Of several reasons why nothing is asked the first of these is told: `TooLong`; `Name`; the first argument that is
/// refused, as `Argument` or `Kind`; `Follows`; `Kind` of the result. Memory is taken for arguments, as
/// `judge_arguments` takes it, and for a result of void: so `NoMemory` never comes in the place of `TooLong` or `Name`.
pub fn ask(
    alloc: Global,
    declared: Declared,
    name: &[u8],
    arguments: Vec<u8>,
    terms: Terms,
) -> Result<Asked, Unasked>
    requires { length terms.cred.body.items ≤ 400 }
    // What is asked is the call of the procedure that the name names, with these arguments,
    ensures asked { IfOk result (λ a. AsksFor name.now (declared_of declared) arguments.items (terms_of terms) a) }
    // and it can be made.
    ensures ready { IfOk result (λ a. CanBeMade a) }
    // A refusal says why nothing is asked, of several reasons the first.
    ensures refused { IfErr result (λ why.
        AsksNothing name.now (declared_of declared) arguments.items terms.limits why) }
{
    if arguments.len() > MOST_ARGUMENTS {
        return Err(Unasked::TooLong);
    }
    let named = procedure_named(&declared, name)?;
    judge_arguments(
        alloc,
        &declared.schema,
        &named.procedure.arguments,
        terms.limits,
        &arguments,
    )?;
    let result = named.procedure.result;
    let call = call_for(alloc, named, terms.xid, terms.cred, arguments);
    let (schema, kind) = result_kind(alloc, declared.schema, result)?;
    Ok(Asked {
        call,
        schema,
        result: kind,
        limits: terms.limits,
        form: terms.form,
    })
}

// The call of a procedure, with an empty verifier.
fn call_for(alloc: Global, named: Named<'_>, xid: u32, cred: OpaqueAuth, args: Vec<u8>) -> Call
    ensures { call_view result ≡ call_for (target_of named.entry) xid (auth_view cred) args.items }
{
    Call {
        xid,
        prog: named.program,
        vers: named.version,
        proc: named.procedure.number,
        cred,
        verf: OpaqueAuth {
            flavor: 0,
            body: Vec::new(alloc),
        },
        args,
    }
}

// The kind of a result, and the schema that has it.
fn result_kind(
    alloc: Global,
    schema: Schema,
    declared: Option<KindId>,
) -> Result<(Schema, KindId), Unasked>
    ensures found { IfOk result (λ r.
        IsResultKind schema.kinds (option_map (λ k. k.place) declared) r.0.kinds r.1.place) }
    ensures known { IfOk result (λ r. r.1.place < length r.0.kinds) }
    ensures refused { IfErr result (λ why. LacksResult schema.kinds (option_map (λ k. k.place) declared) why) }
{
    match declared {
        Some(kind) if schema.has(kind) => Ok((schema, kind)),
        Some(_) => Err(Unasked::Kind),
        None => Ok((Schema::basic(alloc)?, VOID)),
    }
}
