//! Values of kinds, one behind another, judged, and printed where that is wanted.
ghost use Rattle.std.specs.Prelude.{◌≡◌, ◌++◌, ◌<◌, true, IfOk, OnOk, length};
ghost use Rattle.xdr_lang.specs.Views.{places};
ghost use Rattle.xdr_parts.specs.Coming.{IsOneValue};
ghost use Rattle.xdr_types.specs.Tree.{Tree};
ghost use Rattle.oncrpc_messages.specs.Private.Told.{AreKinds, AreTold, IsPlacedIn, TakesValue, shown_behind};
ghost use Rattle.oncrpc_messages.specs.Values.{between, shown_in};

use crate::form::Form;
use crate::judge::judge;
use crate::refusal::{Refusal, Why};
use crate::show::Show;
use std::alloc::{AllocError, Global};
use xdr_codec::{DecodeFault, Reason};
use xdr_json::{Layout, json_of_bytes};
use xdr_show::show_whole;
use xdr_types::{KindId, Limits, NoMemory, Schema};

/// By what values are judged, how they are printed, and whether they are.
#[derive(Clone, Copy)]
pub struct Terms<'a> {
    pub schema: &'a Schema,
    pub limits: Limits,
    pub form: Form,
    pub show: Show,
}

/// What bytes are that are to be values of kinds.
#[derive(Drop)]
pub enum Values {
    /// Values, one behind another and nothing after. This is made of what is printed of them.
    Shown(Vec<u8>),
    /// None, for this reason, at this place of the bytes.
    Refused(Refusal),
}

/// What bytes begin with.
#[derive(Clone, Copy)]
pub enum Step {
    /// A value of so many bytes.
    Taken(usize),
    /// No value.
    Refused(DecodeFault),
}

/// Judges bytes as values of these kinds, one behind another and nothing after (RFC 4506 section 4), and prints them
/// where that is wanted. The schema has the kinds. The error is an allocation failure.
pub fn values_of(
    alloc: Global,
    terms: &Terms<'_>,
    kinds: &[KindId],
    bytes: &[u8],
) -> Result<Values, NoMemory>
    requires { AreKinds terms.now.schema.now.kinds (places kinds.now) }
    ensures told { IfOk result (λ v. AreTold terms.now.show terms.now.form terms.now.schema.now.kinds terms.now.limits
        true (places kinds.now) bytes.now v) }
    ensures within { IfOk result (λ v. IsPlacedIn (length bytes.now) v) }
{
    let mut text = Vec::new(alloc);
    let mut rest = bytes;
    let mut first = true;
    'values: for (index, kind) in kinds.iter().enumerate() {
        match push_value(alloc, &mut text, terms, *kind, first, rest)? {
            Step::Taken(used) => rest = &rest[used..],
            Step::Refused(fault) => {
                return Ok(Values::Refused(Refusal {
                    why: Why::Bytes(fault.why),
                    at: bytes.len() - rest.len() + fault.at,
                }));
            }
        }
        first = false;
    }
    if rest.is_empty() {
        Ok(Values::Shown(text))
    } else {
        Ok(Values::Refused(Refusal {
            why: Why::MoreFollows,
            at: bytes.len() - rest.len(),
        }))
    }
}

// Judges the value that begins the bytes, and prints it behind what was printed, where that is wanted.
fn push_value(
    alloc: Global,
    text: &mut Vec<u8>,
    terms: &Terms<'_>,
    kind: KindId,
    first: bool,
    bytes: &[u8],
) -> Result<Step, NoMemory>
    requires { kind.place < length terms.now.schema.now.kinds }
    ensures { IfOk result (λ s. TakesValue terms.now.show terms.now.form terms.now.schema.now.kinds terms.now.limits
        kind.place first bytes.now text.old.items text.new.items s) }
{
    match judge(alloc, terms.schema, kind, terms.limits, bytes) {
        Ok(used) => {
            push_shown(alloc, text, terms, kind, first, &bytes[..used])?;
            Ok(Step::Taken(used))
        }
        Err(fault) if fault.why == Reason::NoMemory => Err(NoMemory),
        Err(fault) => Ok(Step::Refused(fault)),
    }
}

// Prints the value whose encoding these bytes are, all of them, behind what was printed, where that is wanted.
fn push_shown(
    alloc: Global,
    text: &mut Vec<u8>,
    terms: &Terms<'_>,
    kind: KindId,
    first: bool,
    bytes: &[u8],
) -> Result<(), NoMemory>
    requires { (v : Tree) × IsOneValue terms.now.schema.now.kinds kind.place terms.now.limits bytes.now v }
    ensures { OnOk result ((v : Tree)
        → IsOneValue terms.now.schema.now.kinds kind.place terms.now.limits bytes.now v
        → text.new.items ≡ text.old.items
        ++ shown_behind terms.now.show terms.now.form terms.now.schema.now.kinds kind.place first v) }
{
    match terms.show {
        Show::Text => {
            push_between(text, terms.form, first)?;
            let shown = shown_of(alloc, terms, kind, bytes)?;
            text.extend_from_slice(&shown)?;
            Ok(())
        }
        Show::Nothing => Ok(()),
    }
}

// What stands between a value and the one before it.
fn push_between(text: &mut Vec<u8>, form: Form, first: bool) -> Result<(), AllocError>
    ensures { OnOk result (text.new.items ≡ text.old.items ++ between form first) }
{
    match form {
        Form::Lines => Ok(()),
        Form::Json => {
            if !first {
                text.extend_from_slice(b",")?;
            }
            Ok(())
        }
    }
}

// What is printed of the value whose encoding these bytes are, all of them.
fn shown_of(
    alloc: Global,
    terms: &Terms<'_>,
    kind: KindId,
    bytes: &[u8],
) -> Result<Vec<u8>, NoMemory>
    requires { (v : Tree) × IsOneValue terms.now.schema.now.kinds kind.place terms.now.limits bytes.now v }
    ensures { IfOk result (λ text. (v : Tree)
        → IsOneValue terms.now.schema.now.kinds kind.place terms.now.limits bytes.now v
        → text.items ≡ shown_in terms.now.form terms.now.schema.now.kinds kind.place v) }
{
    let Terms {
        schema,
        limits,
        form,
        ..
    } = *terms;
    match form {
        Form::Lines => show_whole(alloc, schema, kind, limits, bytes),
        Form::Json => json_of_bytes(alloc, schema, kind, limits, bytes, Layout::Compact),
    }
}
