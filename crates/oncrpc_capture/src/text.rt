//! The lines of a capture.
ghost use Rattle.std.specs.Prelude.{◌≡◌, IfOk, string_bytes};
ghost use Rattle.oncrpc_watch.specs.Events.{stream_line};
ghost use Rattle.oncrpc_capture.specs.Entries.{place_of};
ghost use Rattle.oncrpc_capture.specs.Texts.{behind, front_of, front_text, note_text, thousand_text, time_text};
ghost use Rattle.oncrpc_capture.specs.Texts.{unread_of, unread_text};
ghost use Rattle.std.specs.Net.Text.{socket_text};

use crate::seen::Seen;
use oncrpc_messages::{Form, Verdict};
use std::alloc::{AllocError, Global};
use std::net::SocketAddr;

/// A text behind what tells its packet. Of JSON it begins with a brace, which is left out.
pub fn joined(form: Form, front: Vec<u8>, text: &[u8]) -> Result<Vec<u8>, AllocError>
    ensures { IfOk result (λ joined. joined.items ≡ behind form front.items text.now) }
{
    let mut joined = front;
    match form {
        Form::Lines => joined.extend_from_slice(text)?,
        Form::Json => {
            if text.len() > 1 {
                joined.extend_from_slice(&text[1..])?;
            }
        }
    }
    Ok(joined)
}

/// What stands before a message: the number of its packet, the time, and who sent it to whom.
pub fn front_text(alloc: Global, form: Form, seen: Seen) -> Result<String, AllocError>
    ensures { IfOk result (λ text. string_bytes text ≡ front_text form seen) }
{
    let time = time_text(alloc, seen.time)?;
    let from = node_text(alloc, seen.from)?;
    let to = node_text(alloc, seen.to)?;
    let text = front_of(
        alloc,
        form,
        seen.frame,
        time.as_str(),
        from.as_str(),
        to.as_str(),
    )?;
    Ok(text)
}

fn node_text(alloc: Global, node: SocketAddr) -> Result<String, AllocError>
    ensures { IfOk result (λ text. string_bytes text ≡ socket_text node) }
{
    format!(in alloc; "{node}")
}

fn front_of(
    alloc: Global,
    form: Form,
    frame: u64,
    time: &str,
    from: &str,
    to: &str,
) -> Result<String, AllocError>
    ensures { IfOk result (λ text. string_bytes text ≡ front_of form frame time.now from.now to.now) }
{
    match form {
        Form::Lines => format!(in alloc; "{frame} {time} {from} > {to} "),
        Form::Json => format!(in alloc;
            "{{\"packet\":{frame},\"time\":\"{time}\",\"from\":\"{from}\",\"to\":\"{to}\","
        ),
    }
}

/// A count of bytes of which something is said.
pub fn note_text(alloc: Global, form: Form, what: &str, count: u64) -> Result<String, AllocError>
    ensures { IfOk result (λ text. string_bytes text ≡ note_text form what.now count) }
{
    match form {
        Form::Lines => format!(in alloc; "{what} {count} bytes\n"),
        Form::Json => format!(in alloc; "{{\"type\":\"{what}\",\"bytes\":{count}}}\n"),
    }
}

/// The line of a packet that is not read, for a reason.
pub fn unread_text(
    alloc: Global,
    form: Form,
    frame: u64,
    time: u64,
    why: &str,
) -> Result<String, AllocError>
    ensures { IfOk result (λ text. string_bytes text ≡ unread_text form frame time why.now) }
{
    let time = time_text(alloc, time)?;
    let text = unread_of(alloc, form, frame, time.as_str(), why)?;
    Ok(text)
}

fn unread_of(
    alloc: Global,
    form: Form,
    frame: u64,
    time: &str,
    why: &str,
) -> Result<String, AllocError>
    ensures { IfOk result (λ text. string_bytes text ≡ unread_of form frame time.now why.now) }
{
    match form {
        Form::Lines => format!(in alloc; "{frame} {time} unread {why}\n"),
        Form::Json => format!(in alloc;
            "{{\"packet\":{frame},\"time\":\"{time}\",\"type\":\"unread\",\"why\":\"{why}\"}}\n"
        ),
    }
}

/// The line of something that is refused and is no message.
pub fn refused_text(
    alloc: Global,
    form: Form,
    what: &str,
    why: &str,
    at: u64,
) -> Result<String, AllocError>
    ensures { IfOk result (λ text. string_bytes text ≡ stream_line form what.now why.now at) }
{
    match form {
        Form::Lines => format!(in alloc; "{what} refused {why} at {at}\n"),
        Form::Json => format!(in alloc;
            "{{\"type\":\"{what}\",\"refused\":\"{why}\",\"at\":{at}}}\n"
        ),
    }
}

// Seconds, and nine digits of a second.
#[tactic(auto, unfolding(crate::specs::Texts::time_text))]
fn time_text(alloc: Global, time: u64) -> Result<String, AllocError>
    ensures { IfOk result (λ text. string_bytes text ≡ time_text time) }
{
    let seconds = time / 1_000_000_000;
    let millis = thousand_text(alloc, time / 1_000_000 % 1000)?;
    let micros = thousand_text(alloc, time / 1000 % 1000)?;
    let nanos = thousand_text(alloc, time % 1000)?;
    format!(in alloc;
        "{seconds}.{}{}{}",
        millis.as_str(),
        micros.as_str(),
        nanos.as_str()
    )
}

// Three digits.
fn thousand_text(alloc: Global, number: u64) -> Result<String, AllocError>
    ensures { IfOk result (λ text. string_bytes text ≡ thousand_text number) }
{
    let hundreds = number / 100 % 10;
    let tens = number / 10 % 10;
    let ones = number % 10;
    format!(in alloc; "{hundreds}{tens}{ones}")
}

/// The place of a refusal is that in the message.
pub fn place_of(verdict: Verdict) -> u64
    ensures { result ≡ place_of verdict }
{
    match verdict {
        Verdict::Refused(refusal) => refusal.at as u64,
        Verdict::Canonical | Verdict::Unjudged => 0,
    }
}
