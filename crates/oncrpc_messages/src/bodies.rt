//! What is printed of arguments and results, where that is wanted.
ghost use Rattle.std.specs.Prelude.{◌≡◌, ◌+◌, ◌++◌, ◌<◌, ◌^◌, IfOk, IfSome, OnOk, length, option_map, string_bytes};
ghost use Rattle.xdr_lang.specs.Views.{places};
ghost use Rattle.oncrpc_messages.specs.Bodies.{TellsBody, body_text, nothing_text, unjudged_text};
ghost use Rattle.oncrpc_messages.specs.Bodies.{values_key, values_text};
ghost use Rattle.oncrpc_messages.specs.Private.Kept.{IsKept, kept, values_show};
ghost use Rattle.oncrpc_messages.specs.Private.Told.{AreKinds};
ghost use Rattle.oncrpc_messages.specs.Settings.{settings_of};

use crate::form::Form;
use crate::refusal::{Refusal, Verdict};
use crate::settings::Reading;
use crate::show::Show;
use crate::values::{Terms, Values, values_of};
use std::alloc::{AllocError, Global};
use xdr_types::{KindId, NoMemory};

/// What is made of what is printed of a part of a message, and what its bytes are found to be.
#[derive(Drop)]
pub struct Body {
    pub text: Vec<u8>,
    pub verdict: Verdict,
}

/// What is printed of bytes that begin at this place of a message: the arguments of a call or the results of a reply,
/// judged by these kinds, which the schema has. Without kinds that is their count.
pub fn body_of(
    alloc: Global,
    reading: &Reading<'_, '_>,
    call: bool,
    kinds: Option<&[KindId]>,
    start: usize,
    bytes: &[u8],
) -> Result<Body, NoMemory>
    requires known { IfSome kinds (λ k. AreKinds reading.now.settings.now.declared.now.schema.kinds (places k.now)) }
    requires within { start + length bytes.now < 2 ^ 64 }
    ensures { IfOk result (λ b. IsKept reading.now.show (λ text. TellsBody (settings_of reading.now.settings.now) call
        (option_map (λ k. places k.now) kinds.entry) start bytes.now text b.verdict) b.text.items) }
{
    let settings = reading.settings;
    let Some(kinds) = kinds else {
        return Ok(Body {
            text: unjudged_body(alloc, reading, bytes.len())?,
            verdict: Verdict::Unjudged,
        });
    };
    let terms = Terms {
        schema: &settings.declared.schema,
        limits: settings.limits,
        form: settings.form,
        show: values_show(reading),
    };
    match values_of(alloc, &terms, kinds, bytes)? {
        Values::Shown(values) => Ok(Body {
            text: values_body(alloc, reading, call, &values)?,
            verdict: Verdict::Canonical,
        }),
        Values::Refused(refusal) => Ok(Body {
            text: nothing_body(alloc, reading)?,
            verdict: Verdict::Refused(Refusal {
                why: refusal.why,
                at: start + refusal.at,
            }),
        }),
    }
}

/// Nothing more of a message, where that is wanted.
pub fn nothing_body(alloc: Global, reading: &Reading<'_, '_>) -> Result<Vec<u8>, AllocError>
    ensures { IfOk result (λ text. text.items
        ≡ kept reading.now.show (nothing_text reading.now.settings.now.form)) }
{
    match reading.show {
        Show::Text => nothing_text(alloc, reading.settings.form),
        Show::Nothing => Ok(Vec::new(alloc)),
    }
}

/// Nothing more of a message.
pub fn nothing_text(alloc: Global, form: Form) -> Result<Vec<u8>, AllocError>
    ensures { IfOk result (λ text. text.items ≡ nothing_text form) }
{
    match form {
        Form::Lines => Ok(Vec::from_slice(alloc, b"\n")?),
        Form::Json => Ok(Vec::new(alloc)),
    }
}

// So many bytes that no declared kind judges, where that is wanted.
fn unjudged_body(
    alloc: Global,
    reading: &Reading<'_, '_>,
    count: usize,
) -> Result<Vec<u8>, AllocError>
    ensures { IfOk result (λ text. text.items
        ≡ kept reading.now.show (unjudged_text reading.now.settings.now.form count)) }
{
    match reading.show {
        Show::Text => Ok(unjudged_text(alloc, reading.settings.form, count)?.into_bytes()),
        Show::Nothing => Ok(Vec::new(alloc)),
    }
}

// So many bytes that no declared kind judges.
fn unjudged_text(alloc: Global, form: Form, count: usize) -> Result<String, AllocError>
    ensures { IfOk result (λ text. string_bytes text ≡ unjudged_text form count) }
{
    match form {
        Form::Lines => format!(in alloc; ", {count} bytes\n"),
        Form::Json => format!(in alloc; ",\"bytes\":{count}"),
    }
}

// What is made of the text of values: nothing, where messages are printed in brief.
fn values_show(reading: &Reading<'_, '_>) -> Show
    ensures { result ≡ values_show reading.now.settings.now.brief reading.now.show }
{
    if reading.settings.brief {
        Show::Nothing
    } else {
        reading.show
    }
}

// Values in their place, or nothing more, where messages are printed in brief.
fn values_body(
    alloc: Global,
    reading: &Reading<'_, '_>,
    call: bool,
    values: &[u8],
) -> Result<Vec<u8>, AllocError>
    ensures { IfOk result (λ text. text.items
        ≡ kept reading.now.show
        (body_text reading.now.settings.now.brief reading.now.settings.now.form call values.now)) }
{
    if reading.settings.brief {
        return nothing_body(alloc, reading);
    }
    match reading.show {
        Show::Text => values_text(alloc, reading.settings.form, call, values),
        Show::Nothing => Ok(Vec::new(alloc)),
    }
}

// Values in their place.
fn values_text(alloc: Global, form: Form, call: bool, values: &[u8]) -> Result<Vec<u8>, AllocError>
    ensures { IfOk result (λ text. text.items ≡ values_text form call values.now) }
{
    let mut text = Vec::new(alloc);
    match form {
        Form::Lines => {
            text.extend_from_slice(b"\n")?;
            text.extend_from_slice(values)?;
        }
        Form::Json => {
            text.extend_from_slice(values_key(call))?;
            text.extend_from_slice(values)?;
            text.extend_from_slice(b"]")?;
        }
    }
    Ok(text)
}

fn values_key(call: bool) -> &'static [u8]
    ensures { result.now ≡ values_key call }
{
    if call {
        b",\"arguments\":["
    } else {
        b",\"results\":["
    }
}
