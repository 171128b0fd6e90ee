//! A message closed, with what is refused of it.
ghost use Rattle.std.specs.Prelude.{◌≡◌, ◌++◌, IfOk, string_bytes};
ghost use Rattle.oncrpc_messages.specs.Closing.{closed, refusal_text};

use crate::form::Form;
use crate::page::Page;
use crate::refusal::{Verdict, Why, why_name};
use std::alloc::{AllocError, Global};

/// The whole text of a message: that of its page, the reason of what is refused with its place in the stream, which the
/// caller knows, and the end of its object. The error is an allocation failure.
pub fn close_page(alloc: Global, form: Form, page: Page, place: u64) -> Result<Vec<u8>, AllocError>
    ensures { IfOk result (λ text. text.items ≡ closed form page.text.items page.verdict place) }
{
    let mut text = page.text;
    if let Verdict::Refused(refusal) = page.verdict {
        let line = refusal_text(alloc, form, refusal.why, place)?;
        text.extend_from_slice(line.as_bytes())?;
    }
    if let Form::Json = form {
        text.extend_from_slice(b"}\n")?;
    }
    Ok(text)
}

fn refusal_text(alloc: Global, form: Form, why: Why, place: u64) -> Result<String, AllocError>
    ensures { IfOk result (λ text. string_bytes text ≡ refusal_text form why place) }
{
    let why = why_name(why);
    match form {
        Form::Lines => format!(in alloc; "refused {why} at {place}\n"),
        Form::Json => format!(in alloc; ",\"refused\":\"{why}\",\"at\":{place}"),
    }
}
