//! What is shown of a value.
ghost use Rattle.std.specs.Prelude.{◌≡◌, ◌≤◌, [], ◌∷◌, codes, negsuc, pos, IfOk, IfSome};
ghost use Rattle.xdr_types.specs.Kinds as xdr;
ghost use Rattle.xdr_types.specs.Kinds.{kind_at, maybe, up_to};
ghost use Rattle.xdr_types.specs.Tree.{absent, int, items, none, numbered};
ghost use Rattle.xdr_types.specs.View.{tree};
ghost use Rattle.xdr_types.specs.Within.{FitsWithin};
ghost use Rattle.example_xdr.specs.Rfc.{constant, content, file_kinds, sillyprog, sillyprog_bytes, sillyprog_lines};

use std::alloc::Global;
use xdr_codec::parts;
use xdr_show::{show, show_parts};
use xdr_types::{KindId, Limits, NoMemory, Schema, Value};

/// The file of RFC 4506 section 7: a line for each part, two spaces further in for each level.
pub fn shows_the_file(
    alloc: Global,
    schema: &Schema,
    value: &Value,
    limits: Limits,
) -> Result<Vec<u8>, NoMemory>
    requires kinds { schema.now.kinds ≡ file_kinds }
    requires value { tree value.now ≡ sillyprog }
    requires deep { 3 ≤ limits.depth }
    requires buffer { 48 ≤ limits.bytes }
    ensures { IfOk result (λ b. b.items ≡ sillyprog_lines) }
{
    show(alloc, schema, KindId { place: 6 }, value, limits)
}

/// The same lines are printed from the parts of its 48 bytes, and no value is made.
pub fn shows_the_lent_file(
    alloc: Global,
    schema: &Schema,
    limits: Limits,
    input: &[u8],
) -> Option<Vec<u8>>
    requires kinds { schema.now.kinds ≡ file_kinds }
    requires deep { 3 ≤ limits.depth }
    requires buffer { 48 ≤ limits.bytes }
    requires input { input.now ≡ sillyprog_bytes }
    ensures { IfSome result (λ b. b.items ≡ sillyprog_lines) }
{
    let _in_range = limits.depth();
    match parts(alloc, schema, KindId { place: 6 }, limits, input) {
        Ok(lent) => show_parts(alloc, schema, &lent).ok(),
        Err(_) => None,
    }
}

/// A number is shown in decimal, after a minus sign where it is negative.
pub fn shows_a_number(
    alloc: Global,
    schema: &Schema,
    kind: KindId,
    value: &Value,
    limits: Limits,
) -> Result<Vec<u8>, NoMemory>
    requires fits { FitsWithin schema.now.kinds kind.place limits (tree value.now) }
    requires kind { kind_at schema.now.kinds kind.place ≡ xdr.int }
    requires value { tree value.now ≡ (int (negsuc 4), none) }
    ensures { IfOk result (λ b. b.items ≡ codes "-5\n") }
{
    show(alloc, schema, kind, value, limits)
}

/// A boolean is shown by its name.
pub fn shows_a_boolean(alloc: Global) -> Option<Vec<u8>>
    ensures { IfSome result (λ b. b.items ≡ codes "TRUE\n") }
{
    let schema = Schema::basic(alloc).ok()?;
    let limits = Limits::new(1, 4)?;
    show(
        alloc,
        &schema,
        KindId { place: 4 },
        &Value::Bool(true),
        limits,
    )
    .ok()
}

/// A number of an enumeration is shown with the name of the first member that has this very number.
pub fn shows_a_member(
    alloc: Global,
    schema: &Schema,
    kind: KindId,
    value: &Value,
    limits: Limits,
) -> Result<Vec<u8>, NoMemory>
    requires fits { FitsWithin schema.now.kinds kind.place limits (tree value.now) }
    requires kind { kind_at schema.now.kinds kind.place ≡
        xdr.numbered (constant (codes "TWO") 2 ∷ constant (codes "ONE") 1 ∷ []) }
    requires value { tree value.now ≡ (numbered (pos 1), none) }
    ensures { IfOk result (λ b. b.items ≡ codes "ONE = 1\n") }
{
    show(alloc, schema, kind, value, limits)
}

/// A byte of a string that is no plain character is shown by its number, as are the quotation mark and the backslash.
#[tactic(auto, unfolding(hex::specs::Hex::encode_with))]
pub fn shows_a_string(alloc: Global, value: &Value) -> Option<Vec<u8>>
    requires { tree value.now ≡ content (97 ∷ 34 ∷ 92 ∷ 127 ∷ []) }
    ensures { IfSome result (λ b. b.items ≡ codes "\"a\\x22\\x5c\\x7f\"\n") }
{
    let schema = Schema::basic(alloc).ok()?;
    let limits = Limits::new(1, 8)?;
    show(alloc, &schema, KindId { place: 7 }, value, limits).ok()
}

/// An opaque is shown in hexadecimal.
#[tactic(auto, unfolding(hex::specs::Hex::encode_with))]
pub fn shows_an_opaque(alloc: Global, value: &Value) -> Option<Vec<u8>>
    requires { tree value.now ≡ content (97 ∷ 34 ∷ 92 ∷ 127 ∷ []) }
    ensures { IfSome result (λ b. b.items ≡ codes "0x61225c7f\n") }
{
    let schema = Schema::basic(alloc).ok()?;
    let limits = Limits::new(1, 8)?;
    show(alloc, &schema, KindId { place: 6 }, value, limits).ok()
}

/// An array of changing size is shown with its count, also where it has no item.
pub fn shows_an_empty_array(
    alloc: Global,
    schema: &Schema,
    kind: KindId,
    item: KindId,
    value: &Value,
    limits: Limits,
) -> Result<Vec<u8>, NoMemory>
    requires fits { FitsWithin schema.now.kinds kind.place limits (tree value.now) }
    requires kind { kind_at schema.now.kinds kind.place ≡ up_to item.place 9 }
    requires value { tree value.now ≡ (items 0, none) }
    ensures { IfOk result (λ b. b.items ≡ codes "list of 0\n") }
{
    show(alloc, schema, kind, value, limits)
}

/// An optional item that is not there is shown as absent.
pub fn shows_an_absent_item(
    alloc: Global,
    schema: &Schema,
    kind: KindId,
    item: KindId,
    value: &Value,
    limits: Limits,
) -> Result<Vec<u8>, NoMemory>
    requires fits { FitsWithin schema.now.kinds kind.place limits (tree value.now) }
    requires kind { kind_at schema.now.kinds kind.place ≡ maybe item.place }
    requires value { tree value.now ≡ (absent, none) }
    ensures { IfOk result (λ b. b.items ≡ codes "absent\n") }
{
    show(alloc, schema, kind, value, limits)
}
