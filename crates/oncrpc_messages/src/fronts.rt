//! The line over a message, as text and as JSON. Nothing is answered but an allocation failure.
ghost use Rattle.std.specs.Prelude.{◌≡◌, ◌++◌, IfOk, option_map, string_bytes};
ghost use Rattle.rpc_message.specs.View.{lent_call_view, reply_view, status_view, why_view};
ghost use Rattle.oncrpc_messages.specs.Lines.{call_front, cred_text, ending_text, fields_key, flavor_part, flavor_text};
ghost use Rattle.oncrpc_messages.specs.Lines.{known_text, reply_front, reply_line};
ghost use Rattle.oncrpc_messages.specs.Lines.{name_part, numbers_text, record_front, status_text, target_text};
ghost use Rattle.oncrpc_messages.specs.Lines.{why_text, xid_of};

use crate::asked::Asked;
use crate::form::Form;
use rpc_message::{LentCall, Reply, Status, Why};
use std::alloc::{AllocError, Global};

/// The front of a call: its xid and its procedure.
pub fn call_front(
    alloc: Global,
    form: Form,
    call: &LentCall<'_>,
    name: Option<&str>,
) -> Result<String, AllocError>
    ensures { IfOk result (λ text. string_bytes text ≡ call_front form (lent_call_view call.now)
        (option_map (λ n. n.now) name.entry)) }
{
    let xid = call.xid;
    let target = target_text(alloc, form, call.prog, call.vers, call.proc, name)?;
    match form {
        Form::Lines => format!(in alloc; "call {xid}{}", target.as_str()),
        Form::Json => format!(in alloc; "{{\"type\":\"call\",\"xid\":{xid}{}", target.as_str()),
    }
}

// A procedure: the numbers of its program, its version and itself, and its name where it is declared.
fn target_text(
    alloc: Global,
    form: Form,
    program: u32,
    version: u32,
    procedure: u32,
    name: Option<&str>,
) -> Result<String, AllocError>
    ensures { IfOk result (λ text. string_bytes text ≡ target_text form program version procedure
        (option_map (λ n. n.now) name.entry)) }
{
    let numbers = numbers_text(alloc, form, program, version, procedure)?;
    match name {
        None => Ok(numbers),
        Some(name) => named_text(alloc, form, numbers, name),
    }
}

// The numbers of a procedure.
fn numbers_text(
    alloc: Global,
    form: Form,
    program: u32,
    version: u32,
    procedure: u32,
) -> Result<String, AllocError>
    ensures { IfOk result (λ text. string_bytes text ≡ numbers_text form program version procedure) }
{
    match form {
        Form::Lines => format!(in alloc; " {program}.{version}.{procedure}"),
        Form::Json => format!(in alloc;
            ",\"program\":{program},\"version\":{version},\"procedure\":{procedure}"
        ),
    }
}

// A procedure with its name.
fn named_text(alloc: Global, form: Form, numbers: String, name: &str) -> Result<String, AllocError>
    ensures { IfOk result (λ text. string_bytes text ≡ string_bytes numbers ++ name_part form name.now) }
{
    match form {
        Form::Lines => format!(in alloc; "{} {name}", numbers.as_str()),
        Form::Json => format!(in alloc; "{},\"name\":\"{name}\"", numbers.as_str()),
    }
}

/// The credential of a call: its flavor, and of AUTH_SYS its fields where there are some.
pub fn cred_text(
    alloc: Global,
    form: Form,
    flavor: u32,
    fields: Option<Vec<u8>>,
) -> Result<Vec<u8>, AllocError>
    ensures { IfOk result (λ text. text.items ≡ cred_text form flavor (option_map (λ f. f.items) fields)) }
{
    let mut text = flavor_part(alloc, form, flavor)?.into_bytes();
    match fields {
        None => Ok(text),
        Some(fields) => {
            text.extend_from_slice(fields_key(form))?;
            text.extend_from_slice(&fields)?;
            Ok(text)
        }
    }
}

// The flavor of a credential.
fn flavor_part(alloc: Global, form: Form, flavor: u32) -> Result<String, AllocError>
    ensures { IfOk result (λ text. string_bytes text ≡ flavor_part form flavor) }
{
    let name = flavor_text(alloc, flavor)?;
    match form {
        Form::Lines => format!(in alloc; " {}", name.as_str()),
        Form::Json => format!(in alloc; ",\"flavor\":\"{}\"", name.as_str()),
    }
}

// What stands before the fields of a credential.
fn fields_key(form: Form) -> &'static [u8]
    ensures { result.now ≡ fields_key form }
{
    match form {
        Form::Lines => b" ",
        Form::Json => b",\"credential\":",
    }
}

// The name of a flavor, or its number.
fn flavor_text(alloc: Global, flavor: u32) -> Result<String, AllocError>
    ensures { IfOk result (λ text. string_bytes text ≡ flavor_text flavor) }
{
    match flavor {
        0 => String::from_str(alloc, "AUTH_NONE"),
        1 => String::from_str(alloc, "AUTH_SYS"),
        2 => String::from_str(alloc, "AUTH_SHORT"),
        3 => String::from_str(alloc, "AUTH_DH"),
        6 => String::from_str(alloc, "RPCSEC_GSS"),
        _ => format!(in alloc; "flavor {flavor}"),
    }
}

/// The front of a reply: its xid, the procedure of the call that is known of it, and its status.
pub fn reply_front(
    alloc: Global,
    form: Form,
    reply: &Reply,
    asked: Option<Asked>,
    name: Option<&str>,
) -> Result<String, AllocError>
    ensures { IfOk result (λ text. string_bytes text ≡ reply_front form (reply_view reply.now) asked
        (option_map (λ n. n.now) name.entry)) }
{
    let target = known_text(alloc, form, asked, name)?;
    let ending = ending_text(alloc, reply)?;
    reply_line(alloc, form, xid_of(reply), &target, &ending)
}

// An xid, a procedure and a status.
fn reply_line(
    alloc: Global,
    form: Form,
    xid: u32,
    target: &str,
    ending: &str,
) -> Result<String, AllocError>
    ensures { IfOk result (λ text. string_bytes text ≡ reply_line form xid target.now ending.now) }
{
    match form {
        Form::Lines => format!(in alloc; "reply {xid}{target} {ending}"),
        Form::Json => format!(in alloc;
            "{{\"type\":\"reply\",\"xid\":{xid}{target},\"status\":\"{ending}\""
        ),
    }
}

/// The xid of a reply.
pub fn xid_of(reply: &Reply) -> u32
    ensures { result ≡ xid_of (reply_view reply.now) }
{
    match reply {
        Reply::Accepted { xid, .. } => *xid,
        Reply::Denied { xid, .. } => *xid,
    }
}

// The procedure of the call that is known, or that none is.
fn known_text(
    alloc: Global,
    form: Form,
    asked: Option<Asked>,
    name: Option<&str>,
) -> Result<String, AllocError>
    ensures { IfOk result (λ text. string_bytes text ≡ known_text form asked (option_map (λ n. n.now) name.entry)) }
{
    match asked {
        Some(a) => target_text(alloc, form, a.program, a.version, a.procedure, name),
        None => match form {
            Form::Lines => String::from_str(alloc, " no call"),
            Form::Json => String::from_str(alloc, ",\"call\":false"),
        },
    }
}

// What a call came to.
fn ending_text(alloc: Global, reply: &Reply) -> Result<String, AllocError>
    ensures { IfOk result (λ text. string_bytes text ≡ ending_text (reply_view reply.now)) }
{
    match reply {
        Reply::Accepted { status, .. } => status_text(alloc, status),
        Reply::Denied { why, .. } => why_text(alloc, *why),
    }
}

fn status_text(alloc: Global, status: &Status) -> Result<String, AllocError>
    ensures { IfOk result (λ text. string_bytes text ≡ status_text (status_view status.now)) }
{
    match status {
        Status::Success(_) => String::from_str(alloc, "SUCCESS"),
        Status::ProgUnavail => String::from_str(alloc, "PROG_UNAVAIL"),
        Status::ProgMismatch { low, high } => format!(in alloc; "PROG_MISMATCH {low} {high}"),
        Status::ProcUnavail => String::from_str(alloc, "PROC_UNAVAIL"),
        Status::GarbageArgs => String::from_str(alloc, "GARBAGE_ARGS"),
        Status::SystemErr => String::from_str(alloc, "SYSTEM_ERR"),
    }
}

fn why_text(alloc: Global, why: Why) -> Result<String, AllocError>
    ensures { IfOk result (λ text. string_bytes text ≡ why_text (why_view why)) }
{
    match why {
        Why::RpcMismatch { low, high } => format!(in alloc; "RPC_MISMATCH {low} {high}"),
        Why::AuthError(stat) => format!(in alloc; "AUTH_ERROR {stat}"),
    }
}

/// The front of bytes that are no message.
pub fn record_front(form: Form) -> &'static [u8]
    ensures { result.now ≡ record_front form }
{
    match form {
        Form::Lines => b"record",
        Form::Json => b"{\"type\":\"record\"",
    }
}
