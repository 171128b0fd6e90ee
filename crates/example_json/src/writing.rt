//! What is written for a value.
ghost use Rattle.std.specs.Prelude.{◌≡◌, ◌≤◌, [], ◌∷◌, codes, negsuc, None, pos, IfOk};
ghost use Rattle.xdr_types.specs.Kinds as xdr;
ghost use Rattle.xdr_types.specs.Kinds.{kind_at, maybe, up_to};
ghost use Rattle.xdr_types.specs.Spelling.{bytes_of};
ghost use Rattle.xdr_types.specs.Tree.{absent, from_list, hyper, int, items, none, numbered, present, tag};
ghost use Rattle.xdr_types.specs.View.{tree};
ghost use Rattle.xdr_types.specs.Within.{FitsWithin};
ghost use Rattle.example_json.specs.Files.{arm, constant, content, part};
ghost use Rattle.example_json.specs.Files.{file_kinds, plain, plain_lines, sillyprog, sillyprog_text};

use std::alloc::Global;
use xdr_json::{Layout, json_of_bytes, write_json};
use xdr_types::{KindId, Limits, NoMemory, Schema, Value};

/// The file of RFC 4506 section 7: an object with its fields in order. An opaque is hexadecimal, and a union says its
/// case by name.
pub fn writes_the_file(
    alloc: Global,
    schema: &Schema,
    value: &Value,
    limits: Limits,
) -> Result<Vec<u8>, NoMemory>
    requires kinds { schema.now.kinds ≡ file_kinds }
    requires value { tree value.now ≡ sillyprog }
    requires deep { 3 ≤ limits.depth }
    requires buffer { 48 ≤ limits.bytes }
    ensures { IfOk result (λ b. b.items ≡ sillyprog_text) }
{
    write_json(
        alloc,
        schema,
        KindId { place: 5 },
        value,
        limits,
        Layout::Compact,
    )
}

/// A void arm is not written, and the indented layout has a line for each member.
pub fn writes_lines(
    alloc: Global,
    schema: &Schema,
    value: &Value,
    limits: Limits,
) -> Result<Vec<u8>, NoMemory>
    requires kinds { schema.now.kinds ≡ file_kinds }
    requires value { tree value.now ≡ plain }
    requires deep { 3 ≤ limits.depth }
    requires buffer { 40 ≤ limits.bytes }
    ensures { IfOk result (λ b. b.items ≡ plain_lines) }
{
    write_json(
        alloc,
        schema,
        KindId { place: 5 },
        value,
        limits,
        Layout::Indented,
    )
}

/// An int is a number.
pub fn writes_an_int(
    alloc: Global,
    schema: &Schema,
    kind: KindId,
    value: &Value,
    limits: Limits,
) -> Result<Vec<u8>, NoMemory>
    requires fits { FitsWithin schema.now.kinds kind.place limits (tree value.now) }
    requires kind { kind_at schema.now.kinds kind.place ≡ xdr.int }
    requires value { tree value.now ≡ (int (negsuc 4), none) }
    ensures { IfOk result (λ b. b.items ≡ codes "-5") }
{
    write_json(alloc, schema, kind, value, limits, Layout::Compact)
}

/// A hyper is a string, so that no reader rounds it.
pub fn writes_a_hyper(
    alloc: Global,
    schema: &Schema,
    kind: KindId,
    value: &Value,
    limits: Limits,
) -> Result<Vec<u8>, NoMemory>
    requires fits { FitsWithin schema.now.kinds kind.place limits (tree value.now) }
    requires kind { kind_at schema.now.kinds kind.place ≡ xdr.hyper }
    requires value { tree value.now ≡ (hyper (negsuc 4), none) }
    ensures { IfOk result (λ b. b.items ≡ codes "\"-5\"") }
{
    write_json(alloc, schema, kind, value, limits, Layout::Compact)
}

/// A number of an enumeration is the name of the first member that has it.
pub fn writes_a_member(
    alloc: Global,
    schema: &Schema,
    kind: KindId,
    value: &Value,
    limits: Limits,
) -> Result<Vec<u8>, NoMemory>
    requires fits { FitsWithin schema.now.kinds kind.place limits (tree value.now) }
    requires kind { kind_at schema.now.kinds kind.place ≡
        xdr.numbered (constant (codes "TWO") 2 ∷ constant (codes "ONE") 1 ∷ constant (codes "UN") 1 ∷ []) }
    requires value { tree value.now ≡ (numbered (pos 1), none) }
    ensures { IfOk result (λ b. b.items ≡ codes "\"ONE\"") }
{
    write_json(alloc, schema, kind, value, limits, Layout::Compact)
}

/// A string that is UTF-8 stands as it is, but for what RFC 8259 has escaped.
pub fn writes_a_string(
    alloc: Global,
    schema: &Schema,
    kind: KindId,
    value: &Value,
    limits: Limits,
) -> Result<Vec<u8>, NoMemory>
    requires fits { FitsWithin schema.now.kinds kind.place limits (tree value.now) }
    requires kind { kind_at schema.now.kinds kind.place ≡ xdr.text 9 }
    requires value { tree value.now ≡ content (97 ∷ 34 ∷ 10 ∷ 195 ∷ 169 ∷ []) }
    ensures { IfOk result (λ b. b.items ≡ 34 ∷ 97 ∷ 92 ∷ 34 ∷ 92 ∷ 110 ∷ 195 ∷ 169 ∷ 34 ∷ []) }
{
    write_json(alloc, schema, kind, value, limits, Layout::Compact)
}

/// Bytes of a string that are no UTF-8 stand in hexadecimal, in an object.
pub fn writes_other_bytes(
    alloc: Global,
    schema: &Schema,
    kind: KindId,
    value: &Value,
    limits: Limits,
) -> Result<Vec<u8>, NoMemory>
    requires fits { FitsWithin schema.now.kinds kind.place limits (tree value.now) }
    requires kind { kind_at schema.now.kinds kind.place ≡ xdr.text 9 }
    requires value { tree value.now ≡ content (255 ∷ 34 ∷ []) }
    ensures { IfOk result (λ b. b.items ≡ codes "{\"hex\":\"ff22\"}") }
{
    write_json(alloc, schema, kind, value, limits, Layout::Compact)
}

/// An arm that is called `case` leaves that key to the discriminant.
pub fn writes_an_arm_called_case(
    alloc: Global,
    schema: &Schema,
    value: &Value,
    limits: Limits,
) -> Result<Vec<u8>, NoMemory>
    requires fits { FitsWithin schema.now.kinds 2 limits (tree value.now) }
    requires kinds { schema.now.kinds
        ≡ xdr.int ∷ xdr.boolean ∷ xdr.choice 1 (arm 1 (part (codes "case") 0) ∷ []) None ∷ [] }
    requires value { tree value.now ≡ (tag (pos 1), from_list ((int (pos 7), none) ∷ [])) }
    ensures { IfOk result (λ b. b.items ≡ codes "{\"case\":true,\"case_\":7}") }
{
    write_json(
        alloc,
        schema,
        KindId { place: 2 },
        value,
        limits,
        Layout::Compact,
    )
}

/// What is there of an optional of an optional is in brackets, so that an absent one inside is told from none.
pub fn writes_an_optional_of_an_optional(
    alloc: Global,
    schema: &Schema,
    value: &Value,
    limits: Limits,
) -> Result<Vec<u8>, NoMemory>
    requires fits { FitsWithin schema.now.kinds 2 limits (tree value.now) }
    requires kinds { schema.now.kinds ≡ xdr.int ∷ maybe 0 ∷ maybe 1 ∷ [] }
    requires value { tree value.now ≡ (present, from_list ((absent, none) ∷ [])) }
    ensures { IfOk result (λ b. b.items ≡ codes "[null]") }
{
    write_json(
        alloc,
        schema,
        KindId { place: 2 },
        value,
        limits,
        Layout::Compact,
    )
}

/// An array that has no items stays on its line.
pub fn writes_an_empty_array(
    alloc: Global,
    schema: &Schema,
    kind: KindId,
    item: KindId,
    value: &Value,
    limits: Limits,
) -> Result<Vec<u8>, NoMemory>
    requires fits { FitsWithin schema.now.kinds kind.place limits (tree value.now) }
    requires kind { kind_at schema.now.kinds kind.place ≡ up_to item.place 9 }
    requires value { tree value.now ≡ (items 0, none) }
    ensures { IfOk result (λ b. b.items ≡ codes "[]") }
{
    write_json(alloc, schema, kind, value, limits, Layout::Indented)
}

/// The JSON of a value's bytes is that of the value, in either layout.
pub fn writes_the_same_of_bytes(
    alloc: Global,
    schema: &Schema,
    kind: KindId,
    value: &Value,
    bytes: &[u8],
    limits: Limits,
    layout: Layout,
) -> Result<(Vec<u8>, Vec<u8>), NoMemory>
    requires fits { FitsWithin schema.now.kinds kind.place limits (tree value.now) }
    requires bytes { bytes.now ≡ bytes_of schema.now.kinds kind.place (tree value.now) }
    ensures { IfOk result (λ texts. texts.0.items ≡ texts.1.items) }
{
    let of_value = write_json(alloc, schema, kind, value, limits, layout)?;
    let of_bytes = json_of_bytes(alloc, schema, kind, limits, bytes, layout)?;
    Ok((of_value, of_bytes))
}
