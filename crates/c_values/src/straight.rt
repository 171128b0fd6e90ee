//! A value's encoding straight from its items, and where that tells nothing by the writer.
ghost use Rattle.std.specs.Prelude.{◌≡◌, ◌≤◌, ◌<◌, ◌++◌, ℕ, List, length, take, IfOk, IfErr, IfSome};
ghost use Rattle.xdr_writer.specs.Items.{ItemView};
ghost use Rattle.xdr_filling.specs.Filled.{HasFilled};
ghost use Rattle.c_values.specs.Items.{given, AreTold};
ghost use Rattle.c_values.specs.Written.{IsEncoded};
ghost use Rattle.c_values.specs.Private.Encodings.{bytes_in, FillsMore};
ghost use Rattle.c_values.specs.Private.Writing.{IsUnwritten};

use super::answer::Answer;
use super::encoding::Encoding;
use super::item::ValueItem;
use super::numbers::{MOST, copy_numbers};
use super::writing::encode_items;
use std::alloc::{AllocError, Global};
use xdr_filling::Filling;
use xdr_types::{KindId, Limits, Schema};

// Puts the numbers with which the items begin, where they are due; tells how many, of which 0 says nothing.
fn put_numbers(
    filling: &mut Filling,
    items: &[ValueItem],
    encoding: &mut Encoding,
) -> Result<usize, AllocError>
    ensures few { IfOk result (λ n. n ≤ length items.now) }
    ensures filled { IfOk result (λ n. (content : List ℕ)
        → FillsMore filling.old filling.new content (take n items.now) (bytes_in encoding.old)
        (bytes_in encoding.new)) }
    ensures schema { filling.new.schema.now ≡ filling.old.schema.now }
{
    if filling.numbers_due() < 2 {
        return Ok(0);
    }
    let mut numbers = [0; MOST];
    let count = copy_numbers(items, &mut numbers);
    encoding.put_numbers(filling, &numbers[..count])
}

// Puts the numbers with which the items begin, or else the first item; tells how many, of which 0 says nothing.
fn put_next<'a>(
    filling: &mut Filling,
    items: &[ValueItem],
    content: &'a [u8],
    encoding: &mut Encoding<'a>,
) -> Result<usize, AllocError>
    requires { 1 ≤ length items.now }
    ensures few { IfOk result (λ n. n ≤ length items.now) }
    ensures filled { IfOk result (λ n. 0 < n → FillsMore filling.old filling.new content.now (take n items.now)
        (bytes_in encoding.old) (bytes_in encoding.new)) }
    ensures schema { filling.new.schema.now ≡ filling.old.schema.now }
{
    let count = put_numbers(filling, items, encoding)?;
    if count > 0 {
        return Ok(count);
    }
    let Ok(told) = items[0].told(content) else {
        return Ok(0);
    };
    match filling.take(told)? {
        Some(spelled) => {
            encoding.put(spelled)?;
            Ok(1)
        }
        None => Ok(0),
    }
}

// The encoding of the value of the kind within the limits that has these items. `None` says nothing: it is answered
// where there is none, too.
fn encode_straight<'a>(
    alloc: Global,
    schema: &Schema,
    kind: KindId,
    limits: Limits,
    items: &[ValueItem],
    content: &'a [u8],
) -> Result<Option<Encoding<'a>>, AllocError>
    ensures { IfOk result (λ o. IfSome o (λ e. IsEncoded
        (record { kinds = schema.now.kinds; place = kind.place; limits = limits }) (given items.now content.now)
        (bytes_in e))) }
{
    let most = limits.bytes() as usize;
    let mut filling = Filling::start(alloc, schema, kind, limits);
    let mut encoding = Encoding::start(alloc)?;
    let mut at = 0;
    while at < items.len() {
        let count = put_next(&mut filling, &items[at..], content, &mut encoding)?;
        if count == 0 || encoding.len() > most {
            return Ok(None);
        }
        at += count;
    }
    if filling.is_whole()? {
        Ok(Some(encoding))
    } else {
        Ok(None)
    }
}

/// The encoding of the value of the kind within the limits that has these items, or why there is none.
pub fn encode<'a>(
    alloc: Global,
    schema: &Schema,
    kind: KindId,
    limits: Limits,
    items: &[ValueItem],
    content: &'a [u8],
) -> Result<Encoding<'a>, Answer>
    requires { kind.place < length schema.now.kinds }
    ensures encoded { IfOk result (λ e. IsEncoded
        (record { kinds = schema.now.kinds; place = kind.place; limits = limits }) (given items.now content.now)
        (bytes_in e)) }
    ensures unwritten { IfErr result (λ a. IsUnwritten
        (record { kinds = schema.now.kinds; place = kind.place; limits = limits }) (given items.now content.now) a) }
{
    match encode_straight(alloc, schema, kind, limits, items, content) {
        Ok(Some(encoding)) => return Ok(encoding),
        Ok(None) => {}
        Err(_) => return Err(Answer::NoMemory),
    }
    match encode_items(alloc, schema, kind, limits, items, content) {
        Ok(bytes) => Ok(Encoding::of(bytes)),
        Err(answer) => Err(answer),
    }
}
