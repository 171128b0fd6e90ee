//! What is read of a text.
ghost use Rattle.std.specs.Prelude.{◌≡◌, ◌⊎◌, ◌<◌, ◌≤◌, [], ◌∷◌, codes, length, negsuc, IfErr, IsErr, MatchResult};
ghost use Rattle.xdr_types.specs.Kinds as xdr;
ghost use Rattle.xdr_types.specs.Kinds.{maybe};
ghost use Rattle.xdr_types.specs.Tree.{absent, from_list, hyper, none, present};
ghost use Rattle.xdr_types.specs.View.{tree};
ghost use Rattle.xdr_types.specs.Within.{FitsWithin};
ghost use Rattle.xdr_json_reader.specs.declared.fault.JsonReason.TheVariants.{NoMemory, NotJson, NotWhole, WrongType};
ghost use Rattle.example_json.specs.Files.{file_kinds, part, sillyprog, sillyprog_text};

use std::alloc::Global;
use xdr_json::{Layout, write_json};
use xdr_json_reader::{JsonFault, JsonReason, line_and_column, read_json};
use xdr_types::{KindId, Limits, Schema, Value};

/// What was written is read as the value that it was written for, in either layout.
pub fn reads_what_was_written(
    alloc: Global,
    schema: &Schema,
    kind: KindId,
    value: &Value,
    limits: Limits,
    layout: Layout,
) -> Result<Value, JsonFault>
    requires has { kind.place < length schema.now.kinds }
    requires fits { FitsWithin schema.now.kinds kind.place limits (tree value.now) }
    ensures { MatchResult result (λ v. tree v ≡ tree value.now) (λ f. f.why ≡ NoMemory) }
{
    match write_json(alloc, schema, kind, value, limits, layout) {
        Ok(text) => read_json(alloc, schema, kind, limits, text.as_slice()),
        Err(_) => Err(JsonFault {
            why: JsonReason::NoMemory,
            at: 0,
        }),
    }
}

/// The JSON of the file of RFC 4506 section 7 is read as that file.
pub fn reads_the_file(
    alloc: Global,
    schema: &Schema,
    limits: Limits,
    text: &[u8],
) -> Result<Value, JsonFault>
    requires kinds { schema.now.kinds ≡ file_kinds }
    requires text { text.now ≡ sillyprog_text }
    requires deep { 3 ≤ limits.depth }
    requires buffer { 48 ≤ limits.bytes }
    ensures { MatchResult result (λ v. tree v ≡ sillyprog) (λ f. f.why ≡ NoMemory) }
{
    read_json(alloc, schema, KindId { place: 5 }, limits, text)
}

/// A hyper is read from a string.
pub fn reads_a_hyper(
    alloc: Global,
    schema: &Schema,
    limits: Limits,
    text: &[u8],
) -> Result<Value, JsonFault>
    requires kinds { schema.now.kinds ≡ xdr.hyper ∷ [] }
    requires text { text.now ≡ codes "\"-5\"" }
    requires deep { 1 ≤ limits.depth }
    requires buffer { 8 ≤ limits.bytes }
    ensures { MatchResult result (λ v. tree v ≡ (hyper (negsuc 4), none)) (λ f. f.why ≡ NoMemory) }
{
    read_json(alloc, schema, KindId { place: 0 }, limits, text)
}

/// It is read from a number too, and white space says nothing.
pub fn reads_a_hyper_that_is_a_number(
    alloc: Global,
    schema: &Schema,
    limits: Limits,
    text: &[u8],
) -> Result<Value, JsonFault>
    requires kinds { schema.now.kinds ≡ xdr.hyper ∷ [] }
    requires text { text.now ≡ codes "  -5 " }
    requires deep { 1 ≤ limits.depth }
    requires buffer { 8 ≤ limits.bytes }
    ensures { MatchResult result (λ v. tree v ≡ (hyper (negsuc 4), none)) (λ f. f.why ≡ NoMemory) }
{
    read_json(alloc, schema, KindId { place: 0 }, limits, text)
}

/// What is there of an optional of an optional is in brackets.
pub fn reads_an_optional_of_an_optional(
    alloc: Global,
    schema: &Schema,
    limits: Limits,
    text: &[u8],
) -> Result<Value, JsonFault>
    requires kinds { schema.now.kinds ≡ xdr.int ∷ maybe 0 ∷ maybe 1 ∷ [] }
    requires text { text.now ≡ codes "[null]" }
    requires deep { 2 ≤ limits.depth }
    requires buffer { 8 ≤ limits.bytes }
    ensures { MatchResult result (λ v. tree v ≡ (present, from_list ((absent, none) ∷ [])))
        (λ f. f.why ≡ NoMemory) }
{
    read_json(alloc, schema, KindId { place: 2 }, limits, text)
}

/// A flag is no int. The place of the refusal is a line and a column.
pub fn refuses_a_flag(
    alloc: Global,
    schema: &Schema,
    limits: Limits,
    text: &[u8],
) -> Result<Value, (JsonReason, usize, usize)>
    requires kinds { schema.now.kinds ≡ xdr.int ∷ [] }
    requires text { text.now ≡ codes " true" }
    ensures refused { IsErr result }
    ensures line { IfErr result (λ f. f.1 ≡ 1) }
    ensures why { IfErr result (λ f. (f.0 ≡ WrongType) ⊎ (f.0 ≡ NoMemory)) }
{
    match read_json(alloc, schema, KindId { place: 0 }, limits, text) {
        Ok(value) => Ok(value),
        Err(fault) => {
            let (line, column) = line_and_column(text, fault.at);
            Err((fault.why, line, column))
        }
    }
}

/// A number with a fraction is refused as such.
pub fn refuses_a_fraction(
    alloc: Global,
    schema: &Schema,
    limits: Limits,
    text: &[u8],
) -> Result<Value, JsonFault>
    requires kinds { schema.now.kinds ≡ xdr.int ∷ [] }
    requires text { text.now ≡ codes "1.5" }
    ensures refused { IsErr result }
    ensures why { IfErr result (λ f. (f.why ≡ NotWhole) ⊎ (f.why ≡ NoMemory)) }
{
    read_json(alloc, schema, KindId { place: 0 }, limits, text)
}

/// Of two faults the first in the order of the text is told, though the other one is of the first field.
pub fn tells_the_first_fault(
    alloc: Global,
    schema: &Schema,
    limits: Limits,
    text: &[u8],
) -> Result<Value, JsonFault>
    requires kinds { schema.now.kinds
        ≡ xdr.int ∷ xdr.structure (part (codes "a") 0 ∷ part (codes "b") 0 ∷ []) ∷ [] }
    requires text { text.now ≡ codes "{\"b\":1.5,\"a\":true}" }
    ensures refused { IsErr result }
    ensures why { IfErr result (λ f. (f.why ≡ NotWhole) ⊎ (f.why ≡ NoMemory)) }
{
    read_json(alloc, schema, KindId { place: 1 }, limits, text)
}

/// A text that is no UTF-8 is no JSON: here a string whose one byte begins no character.
pub fn refuses_what_is_no_utf8(
    alloc: Global,
    schema: &Schema,
    limits: Limits,
    text: &[u8],
) -> Result<Value, JsonFault>
    requires kinds { schema.now.kinds ≡ xdr.text 9 ∷ [] }
    requires text { text.now ≡ 34 ∷ 255 ∷ 34 ∷ [] }
    ensures refused { IsErr result }
    ensures why { IfErr result (λ f. (f.why ≡ NotJson) ⊎ (f.why ≡ NoMemory)) }
{
    read_json(alloc, schema, KindId { place: 0 }, limits, text)
}
