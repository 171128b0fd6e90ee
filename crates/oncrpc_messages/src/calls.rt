//! What is printed of a call, where that is wanted.
ghost use Rattle.std.specs.Prelude.{◌≡◌, ◌+◌, ◌++◌, ◌<◌, ◌^◌, IfOk, length, option_map};
ghost use Rattle.rpc_message.specs.Spelling.{CallBytes};
ghost use Rattle.rpc_message.specs.View.{lent_call_view};
ghost use Rattle.xdr_lang.specs.Views.{procedure_of};
ghost use Rattle.oncrpc_messages.specs.Lines.{call_front, cred_text};
ghost use Rattle.oncrpc_messages.specs.Messages.{TellsArgumentsOf, TellsCall};
ghost use Rattle.oncrpc_messages.specs.Private.Kept.{IsKept, kept};
ghost use Rattle.oncrpc_messages.specs.Settings.{settings_of};

use crate::bodies::{Body, body_of, nothing_body};
use crate::credential::fields_of;
use crate::fronts::{call_front, cred_text};
use crate::procedures::{argument_kinds, name_of};
use crate::refusal::{Refusal, Verdict};
use crate::settings::Reading;
use crate::show::Show;
use rpc_message::LentCall;
use std::alloc::{AllocError, Global};
use xdr_lang::Procedure;
use xdr_types::NoMemory;

/// What is printed of these bytes, which are this call, and what they are found to be.
pub fn call_page(
    alloc: Global,
    reading: &Reading<'_, '_>,
    call: &LentCall<'_>,
    bytes: &[u8],
) -> Result<Body, NoMemory>
    requires { CallBytes (lent_call_view call.now) bytes.now }
    ensures { IfOk result (λ b. IsKept reading.now.show (λ text. TellsCall (settings_of reading.now.settings.now)
        bytes.now (lent_call_view call.now) text b.verdict) b.text.items) }
{
    let declared = reading.settings.declared;
    let procedure = declared.procedure(call.prog, call.vers, call.proc);
    let fields = fields_of(alloc, reading, call.cred)?;
    let start = bytes.len() - call.args.len();
    let body = arguments_body(alloc, reading, call, procedure, start, fields.refusal)?;
    let name = name_of(procedure);
    let text = call_text(alloc, reading, call, name, fields.text, &body.text)?;
    Ok(Body {
        text,
        verdict: body.verdict,
    })
}

// The text of a call, with these fields of its credential and this text behind it, where that is wanted.
fn call_text(
    alloc: Global,
    reading: &Reading<'_, '_>,
    call: &LentCall<'_>,
    name: Option<&str>,
    fields: Option<Vec<u8>>,
    behind: &[u8],
) -> Result<Vec<u8>, AllocError>
    ensures { IfOk result (λ text. text.items ≡ kept reading.now.show
        (call_front reading.now.settings.now.form (lent_call_view call.now) (option_map (λ n. n.now) name.entry)
        ++ (cred_text reading.now.settings.now.form call.now.cred.flavor (option_map (λ f. f.items) fields)
        ++ behind.now))) }
{
    let form = reading.settings.form;
    match reading.show {
        Show::Text => {
            let mut text = call_front(alloc, form, call, name)?.into_bytes();
            let cred = cred_text(alloc, form, call.cred.flavor, fields)?;
            text.extend_from_slice(&cred)?;
            text.extend_from_slice(behind)?;
            Ok(text)
        }
        Show::Nothing => Ok(Vec::new(alloc)),
    }
}

// What is printed behind the credential: the arguments, which begin at this place, unless that was refused.
fn arguments_body(
    alloc: Global,
    reading: &Reading<'_, '_>,
    call: &LentCall<'_>,
    procedure: Option<&Procedure>,
    start: usize,
    refused: Option<Refusal>,
) -> Result<Body, NoMemory>
    requires place { start + length call.now.args.now < 2 ^ 64 }
    ensures { IfOk result (λ b. IsKept reading.now.show (λ text. TellsArgumentsOf
        (settings_of reading.now.settings.now) start (lent_call_view call.now)
        (option_map (λ p. procedure_of p.now) procedure.entry) refused text b.verdict) b.text.items) }
{
    if let Some(refusal) = refused {
        return Ok(Body {
            text: nothing_body(alloc, reading)?,
            verdict: Verdict::Refused(refusal),
        });
    }
    let schema = &reading.settings.declared.schema;
    let kinds = argument_kinds(schema, call.cred.flavor, procedure);
    body_of(alloc, reading, true, kinds, start, call.args)
}
