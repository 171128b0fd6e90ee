//! What an input of JSON stands for that spells several arguments.
ghost use Rattle.std.specs.Prelude.{◌≡◌, ◌≢◌, ◌+◌, ◌<◌, ◌≤◌, length, nat_lt, IfOk, IfErr, OnOk, IsErrOf, IsTrue};
ghost use Rattle.xdr_io.specs.Reported.{Counts, CountsAtMost, MovesAtMost};
ghost use Rattle.xdr_io.specs.declared.input.TheConstants.{MOST_READS};
ghost use Rattle.oncrpc_encode.specs.Arguments.{IsRightEach, IsRightEachFor, knows_each, places_of};
ghost use Rattle.oncrpc_encode.specs.Arrays.{AreItems};
ghost use Rattle.oncrpc_encode.specs.Encoding.{most_bytes};
ghost use Rattle.oncrpc_encode.specs.Private.Each.{AreRight, IsRightItem};

use super::encoded::{Encoded, most_text, refusal_of};
use super::item::Item;
use super::items::items_of;
use super::refusal::Refusal;
use oncrpc_answers::Failure;
use std::alloc::Global;
use xdr_codec::encode;
use xdr_io::{Source, read_past};
use xdr_json_reader::{JsonFault, read_json};
use xdr_types::{KindId, Limits, Schema};

/// What a text of JSON stands for that spells several arguments.
#[derive(Drop)]
pub enum Arguments {
    /// These bytes, of the values that its items spell, one behind another.
    Bytes(Vec<u8>),
    /// None, for this reason: of the first item that spells no value, or of the whole text.
    Refused(Refusal),
    /// None, since the text is no array of so many items.
    Unlisted,
}

/// Whether the schema has each of the kinds.
pub fn has_each(schema: &Schema, kinds: &[KindId]) -> bool
    ensures { result ≡ knows_each schema.now.kinds kinds.now }
{
    for kind in kinds {
        if !is_known(schema, *kind) {
            return false;
        }
    }
    true
}

fn is_known(schema: &Schema, kind: KindId) -> bool
    ensures { result ≡ nat_lt kind.place (length schema.now.kinds) }
{
    schema.has(kind)
}

/// Reads the input until it ends or more bytes are there than a text may have, and tells what it stands for: a JSON
/// array with a value of each kind, in their order. The schema must have each kind. A refusal has its line and its
/// column in the whole text.
#[tactic(auto, using(crate::proofs::Reading::moved_by))]
pub fn arguments_over<I: Source>(
    alloc: Global,
    schema: &Schema,
    kinds: &[KindId],
    limits: Limits,
    input: &mut I,
) -> Result<Arguments, Failure>
    requires { IsTrue (knows_each schema.now.kinds kinds.now) }
    // Where it answers, what the input stands for is told right,
    ensures right { IfOk result (λ e. IsRightEachFor (record {
      kinds = schema.now.kinds;
      places = places_of kinds.now;
      limits = limits;
    }) (I.left input.old) e) }
    // and no read failed.
    ensures none_failed { OnOk result (Counts 0 (I.failures input.old) (I.failures input.new)) }
    // The fault Read comes after a read that failed, and after every other fault none did. TooManyReads comes after as
    // many reads as there may be, and Write never.
    ensures failed { (IsErrOf result Failure.Read → Counts 1 (I.failures input.old) (I.failures input.new))
        × IfErr result (λ f. f ≢ Failure.Read → Counts 0 (I.failures input.old) (I.failures input.new))
        × (IsErrOf result Failure.TooManyReads → Counts MOST_READS (I.reads input.old) (I.reads input.new))
        × (IsErrOf result Failure.Write → ⊥) }
    // No more than the most reads are made, and at most a page more than the limit on a text is read.
    ensures bounded { CountsAtMost MOST_READS (I.reads input.old) (I.reads input.new)
        × MovesAtMost (most_bytes limits + 4096) (I.left input.old) (I.left input.new) }
{
    let most = most_text(limits);
    let text = read_past(alloc, input, most)?;
    if text.len() > most {
        return Ok(Arguments::Refused(Refusal::TooLong));
    }
    arguments_in(alloc, schema, kinds, limits, &text)
}

// What a text stands for that is not too long.
fn arguments_in(
    alloc: Global,
    schema: &Schema,
    kinds: &[KindId],
    limits: Limits,
    text: &[u8],
) -> Result<Arguments, Failure>
    requires known { IsTrue (knows_each schema.now.kinds kinds.now) }
    requires short { length text.now ≤ most_bytes limits }
    ensures right { IfOk result (λ e. IsRightEach (record {
      kinds = schema.now.kinds;
      places = places_of kinds.now;
      limits = limits;
    }) text.now e) }
    ensures memory { IfErr result (λ f. f ≡ Failure.NoMemory) }
{
    match items_of(alloc, text, kinds.len())? {
        Some(items) => encoded_items(alloc, schema, kinds, limits, text, &items),
        None => Ok(Arguments::Unlisted),
    }
}

// What the items of a text stand for.
fn encoded_items(
    alloc: Global,
    schema: &Schema,
    kinds: &[KindId],
    limits: Limits,
    text: &[u8],
    items: &[Item],
) -> Result<Arguments, Failure>
    requires known { IsTrue (knows_each schema.now.kinds kinds.now) }
    requires items { AreItems text.now (length kinds.now) items.now }
    requires counted { length items.now ≡ length kinds.now }
    ensures right { IfOk result (λ e. AreRight (record {
      kinds = schema.now.kinds;
      places = places_of kinds.now;
      limits = limits;
    }) text.now items.now e) }
    ensures memory { IfErr result (λ f. f ≡ Failure.NoMemory) }
{
    let mut all = Vec::new(alloc);
    for number in 0..kinds.len() {
        let (kind, item) = (kinds[number], items[number]);
        let encoded = encoded_item(alloc, schema, kind, limits, text, item)?;
        match encoded {
            Encoded::Bytes(bytes) => all.extend_from_slice(&bytes)?,
            Encoded::Refused(refusal) => return Ok(Arguments::Refused(refusal)),
        }
    }
    Ok(Arguments::Bytes(all))
}

// What an item of a text stands for.
#[tactic(auto, using(crate::proofs::Arguing::item_short))]
fn encoded_item(
    alloc: Global,
    schema: &Schema,
    kind: KindId,
    limits: Limits,
    text: &[u8],
    item: Item,
) -> Result<Encoded, Failure>
    requires known { kind.place < length schema.now.kinds }
    requires begins { item.begin ≤ item.end }
    requires ends { item.end ≤ length text.now }
    ensures right { IfOk result (λ e. IsRightItem (record {
      kinds = schema.now.kinds;
      place = kind.place;
      limits = limits;
    }) text.now item e) }
    ensures memory { IfErr result (λ f. f ≡ Failure.NoMemory) }
{
    match read_json(alloc, schema, kind, limits, &text[item.begin..item.end]) {
        Ok(value) => {
            let bytes = encode(alloc, schema, kind, &value, limits)?;
            Ok(Encoded::Bytes(bytes))
        }
        Err(fault) => {
            let at = item.begin + fault.at;
            let refusal = refusal_of(text, JsonFault { why: fault.why, at })?;
            Ok(Encoded::Refused(refusal))
        }
    }
}
