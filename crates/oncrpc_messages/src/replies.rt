//! What is printed of a reply, where that is wanted.
ghost use Rattle.std.specs.Prelude.{◌≡◌, ◌+◌, ◌++◌, ◌≤◌, ◌<◌, ◌^◌, false, IfOk, IfSome, length, option_map};
ghost use Rattle.rpc_message.specs.Spelling.{ReplyBytes};
ghost use Rattle.rpc_message.specs.View.{reply_view};
ghost use Rattle.xdr_lang.specs.Views.{procedure_of};
ghost use Rattle.oncrpc_messages.specs.Asked.{results_of};
ghost use Rattle.oncrpc_messages.specs.Bodies.{TellsBody};
ghost use Rattle.oncrpc_messages.specs.Lines.{reply_front};
ghost use Rattle.oncrpc_messages.specs.Messages.{TellsEnding, TellsReply, declared_of_call, results_of_call};
ghost use Rattle.oncrpc_messages.specs.Private.Kept.{IsKept, kept};
ghost use Rattle.oncrpc_messages.specs.Private.Told.{results_size};
ghost use Rattle.oncrpc_messages.specs.Settings.{settings_of};

use crate::asked::Asked;
use crate::bodies::{Body, body_of, nothing_body};
use crate::fronts::reply_front;
use crate::procedures::{name_of, result_kind};
use crate::refusal::Verdict;
use crate::settings::{Reading, Settings};
use crate::show::Show;
use rpc_message::{Reply, Status};
use std::alloc::{AllocError, Global};
use xdr_lang::Procedure;
use xdr_types::{KindId, NoMemory};

/// What is printed of these bytes, which are this reply, and what they are found to be. The call is the one that is
/// known of its xid.
pub fn reply_page(
    alloc: Global,
    reading: &Reading<'_, '_>,
    asked: Option<Asked>,
    reply: &Reply,
    bytes: &[u8],
) -> Result<Body, NoMemory>
    requires { ReplyBytes (reply_view reply.now) bytes.now }
    ensures { IfOk result (λ b. IsKept reading.now.show (λ text. TellsReply (settings_of reading.now.settings.now)
        asked bytes.now (reply_view reply.now) text b.verdict) b.text.items) }
{
    let procedure = procedure_of(reading.settings, asked);
    let kinds = kinds_of(reading.settings, asked, procedure);
    let body = ending_body(alloc, reading, kinds, reply, bytes.len())?;
    let name = name_of(procedure);
    let text = reply_text(alloc, reading, reply, asked, name, &body.text)?;
    Ok(Body {
        text,
        verdict: body.verdict,
    })
}

// The text of a reply, with this text behind its front, where that is wanted.
fn reply_text(
    alloc: Global,
    reading: &Reading<'_, '_>,
    reply: &Reply,
    asked: Option<Asked>,
    name: Option<&str>,
    behind: &[u8],
) -> Result<Vec<u8>, AllocError>
    ensures { IfOk result (λ text. text.items ≡ kept reading.now.show
        (reply_front reading.now.settings.now.form (reply_view reply.now) asked (option_map (λ n. n.now) name.entry)
        ++ behind.now)) }
{
    match reading.show {
        Show::Text => {
            let front = reply_front(alloc, reading.settings.form, reply, asked, name)?;
            let mut text = front.into_bytes();
            text.extend_from_slice(behind)?;
            Ok(text)
        }
        Show::Nothing => Ok(Vec::new(alloc)),
    }
}

// The procedure for which the call asked that is known.
fn procedure_of<'a>(settings: &Settings<'a>, asked: Option<Asked>) -> Option<&'a Procedure>
    ensures { option_map (λ p. procedure_of p.now) result ≡ declared_of_call (settings_of settings.now) asked }
{
    let a = asked?;
    settings
        .declared
        .procedure(a.program, a.version, a.procedure)
}

// The kind of its results, by which they are judged.
fn kinds_of(
    settings: &Settings<'_>,
    asked: Option<Asked>,
    procedure: Option<&Procedure>,
) -> Option<Option<KindId>>
    requires { option_map (λ p. procedure_of p.now) procedure ≡ declared_of_call (settings_of settings.now) asked }
    ensures kinds { option_map (λ r. results_of (option_map (λ k. k.place) r)) result
        ≡ results_of_call (settings_of settings.now) asked }
    ensures known { IfSome result (λ r. IfSome r (λ k. k.place < length settings.now.declared.now.schema.kinds)) }
{
    let a = asked?;
    result_kind(&settings.declared.schema, a.flavor, procedure)
}

// What is printed behind the status: of a success the results.
fn ending_body(
    alloc: Global,
    reading: &Reading<'_, '_>,
    kinds: Option<Option<KindId>>,
    reply: &Reply,
    size: usize,
) -> Result<Body, NoMemory>
    requires known { IfSome kinds
        (λ r. IfSome r (λ k. k.place < length reading.now.settings.now.declared.now.schema.kinds)) }
    requires fits { results_size (reply_view reply.now) ≤ size }
    ensures { IfOk result (λ b. IsKept reading.now.show (λ text. TellsEnding (settings_of reading.now.settings.now)
        (option_map (λ r. results_of (option_map (λ k. k.place) r)) kinds) size (reply_view reply.now) text
        b.verdict) b.text.items) }
{
    match reply {
        Reply::Accepted {
            status: Status::Success(results),
            ..
        } => results_body(alloc, reading, kinds, size - results.len(), results),
        _ => Ok(Body {
            text: nothing_body(alloc, reading)?,
            verdict: Verdict::Canonical,
        }),
    }
}

// What is printed of results, which begin at this place.
fn results_body(
    alloc: Global,
    reading: &Reading<'_, '_>,
    kinds: Option<Option<KindId>>,
    start: usize,
    results: &[u8],
) -> Result<Body, NoMemory>
    requires known { IfSome kinds
        (λ r. IfSome r (λ k. k.place < length reading.now.settings.now.declared.now.schema.kinds)) }
    requires within { start + length results.now < 2 ^ 64 }
    ensures { IfOk result (λ b. IsKept reading.now.show (λ text. TellsBody (settings_of reading.now.settings.now) false
        (option_map (λ r. results_of (option_map (λ k. k.place) r)) kinds) start results.now text b.verdict)
        b.text.items) }
{
    match kinds {
        None => body_of(alloc, reading, false, None, start, results),
        Some(None) => {
            let kinds: [KindId; 0] = [];
            body_of(
                alloc,
                reading,
                false,
                Some(kinds.as_slice()),
                start,
                results,
            )
        }
        Some(Some(kind)) => {
            let kinds = [kind];
            body_of(
                alloc,
                reading,
                false,
                Some(kinds.as_slice()),
                start,
                results,
            )
        }
    }
}
