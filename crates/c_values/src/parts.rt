//! The parts of a value, by declarations that were read.
ghost use Rattle.std.specs.Prelude.{◌≡◌, ◌<◌, length, option_map, Some};
ghost use Rattle.xdr_lang.specs.Views.{declared_of};
ghost use Rattle.c_values.specs.Parted.{IsParted, IsPartedByHeld, ReportsParts};

use super::asking::kind_asked;
use super::handle::Handle;
use super::listed::{Listed, PartsOutcome};
use super::listing::list_parts;
use super::part::ValuePart;
use super::room::lacking;
use c_handles::{keep, taken};
use std::alloc::Global;
use xdr_codec::PartCounts;
use xdr_lang::Declared;
use xdr_types::{KindId, Limits, Schema};

/// Puts the parts of the value that begins the input into the buffers.
fn list_into(
    alloc: Global,
    schema: &Schema,
    kind: KindId,
    limits: Limits,
    input: &[u8],
    parts: &mut [ValuePart],
    names: &mut [u8],
) -> Listed
    requires { kind.place < length schema.now.kinds }
    ensures { IsParted (record { kinds = schema.now.kinds; place = kind.place; limits = limits }) input.now
        (record { parts = parts.old; names = names.old }) (record { parts = parts.new; names = names.new }) result }
{
    let list = match list_parts(alloc, schema, kind, limits, input) {
        Ok(list) => list,
        Err(answer) => return answer,
    };
    let counts = PartCounts {
        used: list.used,
        parts: list.parts.len(),
        names: list.names.len(),
    };
    if !list.put(parts, names) {
        return Listed::NoRoom(counts);
    }
    if counts.used < input.len() {
        Listed::Followed(counts)
    } else {
        Listed::Whole(counts)
    }
}

/// The same where no list is made if there is no buffer for a part, which is how a caller asks for the counts. The
/// input is judged once.
fn parts_into(
    alloc: Global,
    schema: &Schema,
    kind: KindId,
    limits: Limits,
    input: &[u8],
    parts: &mut [ValuePart],
    names: &mut [u8],
) -> Listed
    requires { kind.place < length schema.now.kinds }
    ensures { IsParted (record { kinds = schema.now.kinds; place = kind.place; limits = limits }) input.now
        (record { parts = parts.old; names = names.old }) (record { parts = parts.new; names = names.new }) result }
{
    if parts.is_empty() {
        if let Some(answer) = lacking(alloc, schema, kind, limits, input, parts, names) {
            return answer;
        }
    }
    list_into(alloc, schema, kind, limits, input, parts, names)
}

/// The same by declarations. The name is looked at before the limits.
fn parts_by(
    alloc: Global,
    declared: &Declared,
    name: &[u8],
    depth: u32,
    bytes: u32,
    input: &[u8],
    parts: &mut [ValuePart],
    names: &mut [u8],
) -> Listed
    ensures { IsPartedByHeld (Some (declared_of declared.now)) name.now depth bytes input.now
        (record { parts = parts.old; names = names.old }) (record { parts = parts.new; names = names.new }) result }
{
    let Some(kind) = kind_asked(declared, name) else {
        return Listed::NoKind;
    };
    let Some(limits) = Limits::new(depth, bytes) else {
        return Listed::BadLimits;
    };
    parts_into(alloc, &declared.schema, kind, limits, input, parts, names)
}

/// Puts the parts of the value that begins the input into the buffers, as `oncrpc_declarations_parts` says.
pub fn parts_by_declarations(
    alloc: Global,
    handle: &mut Handle,
    name: &[u8],
    depth: u32,
    bytes: u32,
    input: &[u8],
    parts: &mut [ValuePart],
    names: &mut [u8],
    outcome: &mut PartsOutcome,
) -> u32
    // What the handle holds stays.
    ensures stay { handle.new.declared ≡ handle.old.declared }
    // The status and the outcome are those of an answer that is right by it.
    ensures answer { ReportsParts (IsPartedByHeld (option_map declared_of handle.old.declared) name.now depth bytes
        input.now (record { parts = parts.old; names = names.old }) (record { parts = parts.new; names = names.new }))
        result outcome.new }
{
    let answer = match taken(alloc, handle) {
        Some(state) => {
            let declared = state.declared();
            let answer = parts_by(alloc, declared, name, depth, bytes, input, parts, names);
            keep(alloc, handle, state);
            answer
        }
        None => Listed::NoDeclarations,
    };
    *outcome = answer.outcome();
    answer.status()
}
