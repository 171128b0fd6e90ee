//! The encoding of a value, from its items.
ghost use Rattle.std.specs.Prelude.{◌≡◌, ◌<◌, ◌≤◌, ℕ, List, [], ◌∷◌, ◌++◌, length, take, IfOk, IfErr};
ghost use Rattle.c_values.specs.Answers.{Question};
ghost use Rattle.c_values.specs.Items.{Given, given};
ghost use Rattle.c_values.specs.Written.{IsEncoded, AreTooFew};
ghost use Rattle.c_values.specs.Private.Writing.{asked, IsWriting, IsTaken, IsUnwritten, Reports};

use super::answer::Answer;
use super::encoding::FIRST;
use super::item::{ItemFault, ItemWhy, ValueItem};
use super::judge::judge;
use super::numbers::{MOST, copy_numbers};
use std::alloc::Global;
use xdr_types::{KindId, Limits, Schema};
use xdr_writer::{Step, Why, Writer};

/// The answer to an item that the writer refuses.
fn refusal(why: Why, at: usize) -> Answer
    ensures { Reports why at result }
{
    match why {
        Why::NoMemory => Answer::NoMemory,
        _ => Answer::BadItem(ItemFault {
            why: ItemWhy::Refused(why),
            at,
        }),
    }
}

/// Puts an item behind so many others.
fn put_item(
    writer: &mut Writer,
    item: &ValueItem,
    at: usize,
    content: &[u8],
    out: &mut Vec<u8>,
) -> Result<Step, Answer>
    ensures writes { IfOk result (λ s. (before : List ValueItem)
        → IsWriting writer.old content.now before out.old.items
        → IsWriting writer.new content.now (before ++ item.now ∷ []) out.new.items
        × IsTaken (asked writer.old) (given (before ++ item.now ∷ []) content.now) out.new.items s) }
    ensures refuses { IfErr result (λ a. (before after : List ValueItem)
        → IsWriting writer.old content.now before out.old.items → at ≡ length before
        → IsUnwritten (asked writer.old) (given (before ++ item.now ∷ after) content.now) a) }
    ensures same { asked writer.new ≡ asked writer.old }
{
    let told = match item.told(content) {
        Ok(told) => told,
        Err(why) => return Err(Answer::BadItem(ItemFault { why, at })),
    };
    match writer.put(told, out) {
        Ok(step) => Ok(step),
        Err(refused) => Err(refusal(refused.why, at)),
    }
}

/// Puts the numbers with which the items begin, or else the first item, behind so many others. It answers how many,
/// and what the last of them brings.
fn put_next(
    writer: &mut Writer,
    items: &[ValueItem],
    at: usize,
    content: &[u8],
    numbers: &mut [i128],
    out: &mut Vec<u8>,
) -> Result<(usize, Step), Answer>
    requires { 1 ≤ length items.now }
    ensures some { IfOk result (λ t. (1 ≤ t.0) × (t.0 ≤ length items.now)) }
    ensures writes { IfOk result (λ t. (before : List ValueItem)
        → IsWriting writer.old content.now before out.old.items
        → IsWriting writer.new content.now (before ++ take t.0 items.now) out.new.items
        × IsTaken (asked writer.old) (given (before ++ take t.0 items.now) content.now) out.new.items t.1) }
    ensures refuses { IfErr result (λ a. (before : List ValueItem)
        → IsWriting writer.old content.now before out.old.items → at ≡ length before
        → IsUnwritten (asked writer.old) (given (before ++ items.now) content.now) a) }
    ensures same { asked writer.new ≡ asked writer.old }
{
    let count = copy_numbers(items, numbers);
    if count < 2 {
        return match put_item(writer, &items[0], at, content, out) {
            Ok(step) => Ok((1, step)),
            Err(answer) => Err(answer),
        };
    }
    match writer.put_numbers(&numbers[..count], out) {
        Ok(step) => Ok((count, step.unwrap_or(Step::More))),
        Err(refused) => Err(refusal(refused.why, refused.item)),
    }
}

/// The answer where so many items are too few.
fn too_few(at: usize) -> Answer
    ensures { (q : Question) (g : Given) → AreTooFew q g at → IsUnwritten q g result }
{
    Answer::BadItem(ItemFault {
        why: ItemWhy::Unfinished,
        at,
    })
}

/// The encoding of a value without items, which has no bytes.
fn encode_nothing(
    alloc: Global,
    schema: &Schema,
    kind: KindId,
    limits: Limits,
) -> Result<Vec<u8>, Answer>
    requires { kind.place < length schema.now.kinds }
    ensures encoded { IfOk result (λ out. (content : List ℕ) → IsEncoded
        (record { kinds = schema.now.kinds; place = kind.place; limits = limits }) (given [] content) out.items) }
    ensures unwritten { IfErr result (λ a. (content : List ℕ) → IsUnwritten
        (record { kinds = schema.now.kinds; place = kind.place; limits = limits }) (given [] content) a) }
{
    let _in_range = limits.depth();
    match judge(alloc, schema, kind, limits, &[]) {
        Answer::NoMemory => Err(Answer::NoMemory),
        Answer::Refused(_) => Err(too_few(0)),
        _ => Ok(Vec::new(alloc)),
    }
}

/// The encoding of the value of the kind within the limits that has these items.
pub fn encode_items(
    alloc: Global,
    schema: &Schema,
    kind: KindId,
    limits: Limits,
    items: &[ValueItem],
    content: &[u8],
) -> Result<Vec<u8>, Answer>
    requires { kind.place < length schema.now.kinds }
    ensures encoded { IfOk result (λ out. IsEncoded
        (record { kinds = schema.now.kinds; place = kind.place; limits = limits }) (given items.now content.now)
        out.items) }
    ensures unwritten { IfErr result (λ a. IsUnwritten
        (record { kinds = schema.now.kinds; place = kind.place; limits = limits }) (given items.now content.now) a) }
{
    if items.is_empty() {
        return encode_nothing(alloc, schema, kind, limits);
    }
    let mut writer = Writer::start(alloc, schema, kind, limits);
    let mut out = Vec::new(alloc);
    if out.reserve(FIRST).is_err() {
        return Err(Answer::NoMemory);
    }
    let mut numbers = [0; MOST];
    let mut last = Step::More;
    let mut at = 0;
    while at < items.len() {
        match put_next(
            &mut writer,
            &items[at..],
            at,
            content,
            &mut numbers,
            &mut out,
        ) {
            Ok((count, step)) => {
                at += count;
                last = step;
            }
            Err(answer) => return Err(answer),
        }
    }
    match last {
        Step::Done => Ok(out),
        Step::More => Err(too_few(items.len())),
    }
}
