//! Which values are of a kind and within limits, how many bytes they have, their copies, and when they are the same.
//!
//! Each function calls the library, and its `ensures` is what the library's contract makes certain about the answer. A
//! kind is named by its place in a schema; `requires` says what stands there.
ghost use Rattle.std.specs.Prelude.{◌≡◌, ◌≢◌, ◌<◌, ◌≤◌, length, codes, true, false, IfOk};
ghost use Rattle.xdr_types.specs.Kinds as xdr;
ghost use Rattle.xdr_types.specs.Kinds.{KindView, kind_at};
ghost use Rattle.xdr_types.specs.Fits.{Fits};
ghost use Rattle.xdr_types.specs.Spelling.{bytes_of};
ghost use Rattle.xdr_types.specs.Tree.{Tree, depth};
ghost use Rattle.xdr_types.specs.View.{tree};
ghost use Rattle.example_xdr.specs.Optional.{AreAlike};
ghost use Rattle.example_xdr.specs.Rfc.{file_kinds};

use std::alloc::Global;
use xdr_types::{
    KindId, Limits, NoMemory, Schema, Value, each_spelling_is_one_value, fits, is_equal, size,
};

/// A number is one of an int (RFC 4506 section 4.1).
pub fn int_fits_in_one_unit(schema: &Schema, id: KindId, number: i32) -> bool
    requires has { id.place < length schema.now.kinds }
    requires int { kind_at schema.now.kinds id.place ≡ xdr.int }
    ensures { result ≡ true }
{
    let Some(limits) = Limits::new(1, 4) else {
        return true;
    };
    fits(schema, id, &Value::Int(number), limits)
}

/// It is none of an unsigned int, also where the number would be one.
pub fn int_is_no_unsigned(schema: &Schema, id: KindId, limits: Limits) -> bool
    requires { kind_at schema.now.kinds id.place ≡ xdr.unsigned }
    ensures { result ≡ false }
{
    fits(schema, id, &Value::Int(7), limits)
}

/// No value is of a kind that the schema does not have.
pub fn no_value_of_no_kind(schema: &Schema, id: KindId, value: &Value, limits: Limits) -> bool
    requires { length schema.now.kinds ≤ id.place }
    ensures { result ≡ false }
{
    fits(schema, id, value, limits)
}

/// A hyper has eight bytes, so it is too large by one unit where four are allowed (RFC 4506 section 4.5).
pub fn hyper_is_one_unit_too_large(schema: &Schema, id: KindId, number: i64) -> bool
    requires { kind_at schema.now.kinds id.place ≡ xdr.hyper }
    ensures { result ≡ false }
{
    let Some(limits) = Limits::new(1, 4) else {
        return false;
    };
    fits(schema, id, &Value::Hyper(number), limits)
}

/// It fits where exactly eight are.
pub fn hyper_fits_exactly(schema: &Schema, id: KindId, number: i64) -> bool
    requires has { id.place < length schema.now.kinds }
    requires hyper { kind_at schema.now.kinds id.place ≡ xdr.hyper }
    ensures { result ≡ true }
{
    let Some(limits) = Limits::new(1, 8) else {
        return true;
    };
    fits(schema, id, &Value::Hyper(number), limits)
}

/// A value that is deeper than the limit does not fit.
pub fn deeper_than_the_limit(schema: &Schema, id: KindId, value: &Value) -> bool
    requires { 1 < depth (tree value.now) }
    ensures { result ≡ false }
{
    let Some(limits) = Limits::new(1, 16777216) else {
        return false;
    };
    fits(schema, id, value, limits)
}

/// A void has depth 1 and no bytes (RFC 4506 section 4.16).
pub fn void_fits(schema: &Schema, id: KindId) -> bool
    requires has { id.place < length schema.now.kinds }
    requires void { kind_at schema.now.kinds id.place ≡ xdr.nothing }
    ensures { result ≡ true }
{
    let Some(limits) = Limits::new(1, 4) else {
        return true;
    };
    fits(schema, id, &Value::Nothing, limits)
}

/// An enumeration has no value without a name, as 3 among the file's kinds (RFC 4506 sections 4.3 and 7).
pub fn number_without_a_name(schema: &Schema, limits: Limits) -> bool
    requires { schema.now.kinds ≡ file_kinds }
    ensures { result ≡ false }
{
    fits(schema, KindId { place: 0 }, &Value::Numbered(3), limits)
}

/// A copy is the same value.
pub fn copy_is_the_same(value: &Value, alloc: Global) -> Result<bool, NoMemory>
    ensures { IfOk result (λ same. same ≡ true) }
{
    let copy = value.copy(alloc)?;
    Ok(is_equal(value, &copy))
}

/// A number of an enumeration is no int, though both have the same bytes.
pub fn numbered_is_no_int(number: i32) -> bool
    ensures { result ≡ false }
{
    Value::Numbered(number) == Value::Int(number)
}

/// Values that differ are not the same.
pub fn differing_values(a: &Value, b: &Value) -> bool
    requires { tree a.now ≢ tree b.now }
    ensures { result ≡ false }
{
    is_equal(a, b)
}

/// What `size` says is how many bytes the value's encoding has: four of an int.
pub fn int_has_four_bytes(schema: &Schema, id: KindId, number: i32, limits: Limits) -> u32
    requires int { kind_at schema.now.kinds id.place ≡ xdr.int }
    requires has { id.place < length schema.now.kinds }
    ensures { result ≡ 4 }
{
    let value = Value::Int(number);
    if fits(schema, id, &value, limits) {
        size(schema, id, &value, limits)
    } else {
        4
    }
}

/// Two values of a kind with the same bytes are one value.
pub fn same_bytes_are_one_value(schema: &Schema, id: KindId, a: &Value, b: &Value) -> bool
    requires first { Fits schema.now.kinds id.place (tree a.now) }
    requires second { Fits schema.now.kinds id.place (tree b.now) }
    requires bytes { bytes_of schema.now.kinds id.place (tree a.now) ≡ bytes_of schema.now.kinds id.place (tree b.now) }
    ensures { result ≡ true }
{
    each_spelling_is_one_value();
    is_equal(a, b)
}

/// A union without a default has no value under a discriminant without an arm, whatever its part: the type of a file
/// has none for 3 (RFC 4506 sections 4.15 and 7).
pub fn discriminant_without_a_part(schema: &Schema, part: Box<Value>, limits: Limits) -> bool
    requires { schema.now.kinds ≡ file_kinds }
    ensures { result ≡ false }
{
    let value = Value::Choice { tag: 3, part };
    fits(schema, KindId { place: 4 }, &value, limits)
}

/// The content of a string may be as long as its maximum: "abc" has a length, its bytes and a zero (RFC 4506 section
/// 4.11).
pub fn string_of_exactly_the_maximum(schema: &Schema, id: KindId, text: Vec<u8>) -> bool
    requires has { id.place < length schema.now.kinds }
    requires string { kind_at schema.now.kinds id.place ≡ xdr.text 3 }
    requires abc { text.items ≡ codes "abc" }
    ensures { result ≡ true }
{
    let Some(limits) = Limits::new(1, 8) else {
        return true;
    };
    fits(schema, id, &Value::Bytes(text), limits)
}

/// One byte more is none of its values.
pub fn string_longer_than_the_maximum(
    schema: &Schema,
    id: KindId,
    text: Vec<u8>,
    limits: Limits,
) -> bool
    requires string { kind_at schema.now.kinds id.place ≡ xdr.text 3 }
    requires bytes { length text.items ≡ 4 }
    ensures { result ≡ false }
{
    fits(schema, id, &Value::Bytes(text), limits)
}

/// Optional data has the bytes of a union of bool with a void FALSE arm, and of an array of at most one element (RFC
/// 4506 section 4.19). The definitions alone say so, and nothing is called.
pub fn optional_data_is_a_union_and_an_array()
    ensures { (element : KindView) (v : Tree) → AreAlike element v }
{}
