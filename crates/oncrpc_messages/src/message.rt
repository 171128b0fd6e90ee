//! What is printed of a message, and what it is found to be.
ghost use Rattle.std.specs.Prelude.{◌≡◌, ℕ, ◌++◌, IfOk, MatchOption, Option};
ghost use Rattle.rpc_message.specs.Message.{CallView};
ghost use Rattle.rpc_message.specs.Spelling.{CallBytes, ReplyBytes};
ghost use Rattle.rpc_message.specs.View.{lent_call_view, reply_view};
ghost use Rattle.oncrpc_messages.specs.declared.asked.Asked.{Asked};
ghost use Rattle.oncrpc_messages.specs.Bodies.{nothing_text};
ghost use Rattle.oncrpc_messages.specs.Lines.{record_front};
ghost use Rattle.oncrpc_messages.specs.Messages.{FindsMessage, IsNoMessage, SaysReply, TellsPage};
ghost use Rattle.oncrpc_messages.specs.Private.Kept.{KeepsPage, kept};
ghost use Rattle.oncrpc_messages.specs.Settings.{settings_of};

use crate::asked::Asked;
use crate::bodies::nothing_text;
use crate::calls::call_page;
use crate::flaws::flaw_of;
use crate::fronts::{record_front, xid_of};
use crate::page::{Found, Page, Said};
use crate::refusal::Verdict;
use crate::replies::reply_page;
use crate::settings::{Reading, Settings};
use crate::show::Show;
use rpc_message::{LentCall, LentRead, REPLY, Reply, ReplyFault, read_lent_call, read_reply};
use std::alloc::{AllocError, Global};
use xdr_types::NoMemory;
use xdr_units::first_word;

/// The xid of bytes that say that they are a reply, by their second number (RFC 5531 section 9). It takes no memory.
pub fn reply_xid(bytes: &[u8]) -> Option<u32>
    ensures { MatchOption result ((xid : ℕ) → SaysReply xid bytes.now → ⊥) (λ xid. SaysReply xid bytes.now) }
{
    let (xid, rest) = first_word(bytes)?;
    let (kind, _rest) = first_word(rest)?;
    if kind == REPLY { Some(xid) } else { None }
}

/// The program of bytes that are a call. It takes no memory.
pub fn call_program(bytes: &[u8]) -> Option<u32>
    ensures { MatchOption result ((c : CallView) → CallBytes c bytes.now → ⊥)
        (λ program. (c : CallView) × CallBytes c bytes.now × (program ≡ c.prog)) }
{
    let call = whole_call(bytes)?;
    Some(call.prog)
}

/// What is printed of a record of these bytes. The call, where one is given, is the one of its xid: by it the results
/// of a reply are read. What is a call is printed with its arguments, judged by the kinds that are declared of its
/// procedure. Of what is neither it is said why, and where. The error is an allocation failure.
pub fn read_message(
    alloc: Global,
    settings: &Settings<'_>,
    asked: Option<Asked>,
    bytes: &[u8],
) -> Result<Page, NoMemory>
    ensures { IfOk result (λ p. TellsPage (settings_of settings.now) asked bytes.now p) }
{
    let reading = Reading {
        settings,
        show: Show::Text,
    };
    page_of(alloc, &reading, asked, bytes)
}

/// What a record of these bytes is found to be: just what `read_message` finds of it, of which no text is made. The
/// error is an allocation failure.
pub fn judge_message(
    alloc: Global,
    settings: &Settings<'_>,
    asked: Option<Asked>,
    bytes: &[u8],
) -> Result<Found, NoMemory>
    ensures { IfOk result (λ f. FindsMessage (settings_of settings.now) asked bytes.now f) }
{
    let reading = Reading {
        settings,
        show: Show::Nothing,
    };
    let page = page_of(alloc, &reading, asked, bytes)?;
    Ok(Found {
        verdict: page.verdict,
        said: page.said,
    })
}

// What is printed of a record of these bytes, where that is wanted, and what it is found to be.
fn page_of(
    alloc: Global,
    reading: &Reading<'_, '_>,
    asked: Option<Asked>,
    bytes: &[u8],
) -> Result<Page, NoMemory>
    ensures { IfOk result (λ p. KeepsPage reading.now.show (settings_of reading.now.settings.now) asked bytes.now p) }
{
    match whole_call(bytes) {
        Some(call) => page_of_call(alloc, reading, &call, bytes),
        None => page_of_other(alloc, reading, asked, bytes),
    }
}

// The call that the bytes are.
fn whole_call(bytes: &[u8]) -> Option<LentCall<'_>>
    ensures { MatchOption result ((c : CallView) → CallBytes c bytes.now → ⊥)
        (λ k. CallBytes (lent_call_view k) bytes.now) }
{
    match read_lent_call(bytes) {
        LentRead::Whole(call) => Some(call),
        LentRead::NotACall => None,
        LentRead::OtherVersion { .. } => None,
        LentRead::BadCred { .. } => None,
        LentRead::BadVerf { .. } => None,
    }
}

// What is printed of bytes that are no call.
fn page_of_other(
    alloc: Global,
    reading: &Reading<'_, '_>,
    asked: Option<Asked>,
    bytes: &[u8],
) -> Result<Page, NoMemory>
    requires { (c : CallView) → CallBytes c bytes.now → ⊥ }
    ensures { IfOk result (λ p. KeepsPage reading.now.show (settings_of reading.now.settings.now) asked bytes.now p) }
{
    match read_reply(alloc, bytes) {
        Ok(reply) => page_of_reply(alloc, reading, asked, &reply, bytes),
        Err(ReplyFault::NoMemory) => Err(NoMemory),
        Err(_) => page_of_none(alloc, reading, bytes),
    }
}

fn page_of_call(
    alloc: Global,
    reading: &Reading<'_, '_>,
    call: &LentCall<'_>,
    bytes: &[u8],
) -> Result<Page, NoMemory>
    requires { CallBytes (lent_call_view call.now) bytes.now }
    ensures { (asked : Option Asked) → IfOk result
        (λ p. KeepsPage reading.now.show (settings_of reading.now.settings.now) asked bytes.now p) }
{
    let body = call_page(alloc, reading, call, bytes)?;
    Ok(Page {
        text: body.text,
        verdict: body.verdict,
        said: Said::Call {
            xid: call.xid,
            asked: Asked {
                program: call.prog,
                version: call.vers,
                procedure: call.proc,
                flavor: call.cred.flavor,
                time: 0,
            },
        },
    })
}

fn page_of_reply(
    alloc: Global,
    reading: &Reading<'_, '_>,
    asked: Option<Asked>,
    reply: &Reply,
    bytes: &[u8],
) -> Result<Page, NoMemory>
    requires { ReplyBytes (reply_view reply.now) bytes.now }
    ensures { IfOk result (λ p. KeepsPage reading.now.show (settings_of reading.now.settings.now) asked bytes.now p) }
{
    let body = reply_page(alloc, reading, asked, reply, bytes)?;
    Ok(Page {
        text: body.text,
        verdict: body.verdict,
        said: Said::Reply { xid: xid_of(reply) },
    })
}

fn page_of_none(alloc: Global, reading: &Reading<'_, '_>, bytes: &[u8]) -> Result<Page, NoMemory>
    requires { IsNoMessage bytes.now }
    ensures { (asked : Option Asked) → IfOk result
        (λ p. KeepsPage reading.now.show (settings_of reading.now.settings.now) asked bytes.now p) }
{
    let flaw = flaw_of(alloc, reading.settings, bytes)?;
    let text = record_text(alloc, reading)?;
    Ok(Page {
        text,
        verdict: Verdict::Refused(flaw),
        said: Said::Neither,
    })
}

// The text of bytes that are no message, where that is wanted.
fn record_text(alloc: Global, reading: &Reading<'_, '_>) -> Result<Vec<u8>, AllocError>
    ensures { IfOk result (λ text. text.items ≡ kept reading.now.show
        (record_front reading.now.settings.now.form ++ nothing_text reading.now.settings.now.form)) }
{
    let form = reading.settings.form;
    match reading.show {
        Show::Text => {
            let mut text = Vec::from_slice(alloc, record_front(form))?;
            let end = nothing_text(alloc, form)?;
            text.extend_from_slice(&end)?;
            Ok(text)
        }
        Show::Nothing => Ok(Vec::new(alloc)),
    }
}
