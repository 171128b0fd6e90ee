//! Schemas, values, encoding and decoding.
use crate::Reported;
use std::alloc::Global;
use std::string::String;
use xdr_codec::{Checker, Decoder, Progress, decode, encode, parts};
use xdr_lang::read;
use xdr_show::show;
use xdr_types::{Kind, KindId, Limits, Member, Schema, Value, fits};

// `struct { int x; string name<8>; }` at place 2, with the kinds of its fields before it.
fn pair_schema(alloc: Global) -> Option<Schema> {
    let fields = vec![in alloc;
        Member {
            name: "x".to_string(alloc).ok()?,
            kind: KindId { place: 0 }
        },
        Member {
            name: "name".to_string(alloc).ok()?,
            kind: KindId { place: 1 }
        },
    ]
    .ok()?;
    let kinds = vec![in alloc;
        Kind::Int,
        Kind::Text { max: 8 },
        Kind::Structure { fields },
    ]
    .ok()?;
    let names = vec![in alloc; ("pair".to_string(alloc).ok()?, KindId { place: 2 })].ok()?;
    Schema::build(alloc, kinds, names).ok()
}

/// A schema by hand, a value of it, its bytes, and the value of the bytes.
pub fn structure_by_hand(alloc: Global) -> Reported {
    let schema = pair_schema(alloc)?;
    let pair = schema.named("pair")?;
    let limits = Limits::new(4096, 16777216)?;
    let name = Value::Bytes("abc".as_bytes().to_vec(alloc).ok()?);
    let value = Value::Group(vec![in alloc; Value::Int(-1), name].ok()?);
    if !fits(&schema, pair, &value, limits) {
        return None;
    }
    let bytes = encode(alloc, &schema, pair, &value, limits).ok()?;
    if !schema.has(pair) {
        return None;
    }
    let (same, used) = decode(alloc, &schema, pair, limits, &bytes).ok()?;
    format!(in alloc;
        "a structure of {used} bytes, the same again: {}",
        same == value
    )
    .ok()
}

const FILE: &str = "enum kind { TEXT = 0, DATA = 1 };
struct file { string name<255>; kind type; opaque data<65535>; };
program FILES { version ONE { file READ(string) = 1; } = 1; } = 536870912;
";

/// A text of declarations, bytes of one of its types, and the value as lines of text.
pub fn declared_value(alloc: Global) -> Reported {
    let declared = read(alloc, FILE.as_bytes()).ok()?;
    let file = declared.kind("file")?;
    let input = b"\0\0\0\x02ab\0\0\0\0\0\x01\0\0\0\x01\xff\0\0\0";
    let limits = Limits::new(4096, 16777216)?;
    if !declared.schema.has(file) {
        return None;
    }
    let (value, _used) = decode(alloc, &declared.schema, file, limits, input).ok()?;
    if !fits(&declared.schema, file, &value, limits) {
        return None;
    }
    let lines = show(alloc, &declared.schema, file, &value, limits).ok()?;
    let text = std::str::from_utf8(&lines).ok()?;
    let result = declared.procedure(536870912, 1, 1)?.result?;
    format!(in alloc; "the result of READ is a file: {}\n{text}", result == file).ok()
}

/// The same input in two pieces, of which the second has a byte more than the value.
pub fn fed_in_pieces(alloc: Global) -> Reported {
    let schema = Schema::basic(alloc).ok()?;
    let string = schema.named("string")?;
    let limits = Limits::new(1, 1024)?;
    if !schema.has(string) {
        return None;
    }
    let mut decoder = Decoder::start(alloc, &schema, string, limits);
    let Ok(Progress::More) = decoder.feed(b"\0\0\0\x03a") else {
        return None;
    };
    let Ok(Progress::Done { used }) = decoder.feed(b"bc\0\xff") else {
        return None;
    };
    let value = decoder.finish().ok()?;
    let Value::Bytes(content) = value else {
        return None;
    };
    format!(in alloc;
        "a string of {} bytes, after {used} of the second piece",
        content.len()
    )
    .ok()
}

/// The same pieces, judged without a value.
pub fn counted_in_pieces(alloc: Global) -> Reported {
    let schema = Schema::basic(alloc).ok()?;
    let string = schema.named("string")?;
    let limits = Limits::new(1, 1024)?;
    if !schema.has(string) {
        return None;
    }
    let mut checker = Checker::start(alloc, &schema, string, limits);
    let Ok(Progress::More) = checker.feed(b"\0\0\0\x03a") else {
        return None;
    };
    let Ok(Progress::Done { .. }) = checker.feed(b"bc\0\xff") else {
        return None;
    };
    let count = checker.finish().ok()?;
    format!(in alloc; "a value of {count} bytes, which was not made").ok()
}

/// The same bytes where they lie: a length, and content that is lent.
pub fn lent_in_place(alloc: Global) -> Reported {
    let schema = Schema::basic(alloc).ok()?;
    let string = schema.named("string")?;
    let limits = Limits::new(1, 1024)?;
    if !schema.has(string) {
        return None;
    }
    let found = parts(alloc, &schema, string, limits, b"\0\0\0\x03abc\0\xff").ok()?;
    let [_, content] = found.as_slice() else {
        return None;
    };
    format!(in alloc;
        "content of {} bytes at {}",
        content.bytes.len(),
        content.at
    )
    .ok()
}
