//! The values that are measured, with their schemas.
use std::alloc::{AllocError, Global};
use xdr_types::{Arm, Flaw, Kind, KindId, Member, Schema, SchemaFault, Value};

/// A value, its kind, and the schema that has the kind.
#[derive(Drop)]
pub struct Sample {
    pub schema: Schema,
    pub kind: KindId,
    pub value: Value,
}

/// Why there is no sample: memory, a schema, or the name.
#[derive(Debug, Drop)]
pub enum NoSample {
    Memory,
    Schema,
    Name,
}

impl From<AllocError> for NoSample {
    fn from(_error: AllocError) -> NoSample {
        NoSample::Memory
    }
}

impl From<SchemaFault> for NoSample {
    fn from(_fault: SchemaFault) -> NoSample {
        NoSample::Schema
    }
}

/// The sample with this name.
pub fn make_sample(alloc: Global, name: &str) -> Result<Sample, NoSample> {
    let (kinds, place, value) = match name {
        "opaque1M" => opaque(alloc, 1048572)?,
        "opaque16M" => opaque(alloc, 16777212)?,
        "uint1M" => numbers(alloc)?,
        "list2000" => list(alloc)?,
        "file1M" => file(alloc)?,
        _ => return Err(NoSample::Name),
    };
    let schema = Schema::build(alloc, kinds, Vec::new(alloc))?;
    let kind = KindId { place };
    Ok(Sample {
        schema,
        kind,
        value,
    })
}

fn member(alloc: Global, name: &str, place: u32) -> Result<Member, AllocError> {
    Ok(Member {
        name: String::from_str(alloc, name)?,
        kind: KindId { place },
    })
}

fn bytes(alloc: Global, text: &[u8]) -> Result<Value, AllocError> {
    let mut content = Vec::with_capacity(alloc, text.len())?;
    content.extend_from_slice(text)?;
    Ok(Value::Bytes(content))
}

// An opaque of so many bytes, four fewer than it takes with its length.
fn opaque(alloc: Global, size: u32) -> Result<(Vec<Kind>, u32, Value), AllocError> {
    let mut content = Vec::with_capacity(alloc, size as usize)?;
    for number in 0..size {
        content.push((number % 251) as u8)?;
    }
    let kinds = vec![in alloc; Kind::OpaqueUpTo { max: 4294967295 }]?;
    Ok((kinds, 0, Value::Bytes(content)))
}

// A list of 1,000,000 unsigned numbers.
fn numbers(alloc: Global) -> Result<(Vec<Kind>, u32, Value), AllocError> {
    let mut items = Vec::with_capacity(alloc, 1000000)?;
    for number in 0u32..1000000 {
        items.push(Value::Unsigned(number.wrapping_mul(2654435761)))?;
    }
    let item = KindId { place: 0 };
    let kinds = vec![in alloc;
        Kind::Unsigned,
        Kind::UpTo {
            item,
            max: 4294967295
        },
    ]?;
    Ok((kinds, 1, Value::List(items)))
}

// struct entry { string item<>; entry *next; }, and 2000 of them.
fn list(alloc: Global) -> Result<(Vec<Kind>, u32, Value), AllocError> {
    let fields = vec![in alloc; member(alloc, "item", 0)?, member(alloc, "next", 2)?]?;
    let entry = KindId { place: 1 };
    let kinds = vec![in alloc;
        Kind::Text { max: 4294967295 },
        Kind::Structure { fields },
        Kind::Maybe { item: entry },
    ]?;
    let mut value = Value::Maybe(None);
    for number in 0u32..2000 {
        let text = format!(in alloc; "item {number:06}")?;
        let fields = vec![in alloc; bytes(alloc, text.as_bytes())?, value]?;
        value = Value::Maybe(Some(Box::new(alloc, Value::Group(fields))?));
    }
    Ok((kinds, 2, value))
}

// The file structure of RFC 4506 section 7.
fn file_kinds(alloc: Global) -> Result<Vec<Kind>, AllocError> {
    let members = vec![in alloc;
        (String::from_str(alloc, "TEXT")?, 0),
        (String::from_str(alloc, "DATA")?, 1),
        (String::from_str(alloc, "EXEC")?, 2),
    ]?;
    let arms = vec![in alloc;
        Arm {
            cases: vec![in alloc; 0]?,
            member: member(alloc, "", 7)?
        },
        Arm {
            cases: vec![in alloc; 1]?,
            member: member(alloc, "creator", 1)?
        },
        Arm {
            cases: vec![in alloc; 2]?,
            member: member(alloc, "interpretor", 1)?
        },
    ]?;
    let tag = KindId { place: 0 };
    let fields = vec![in alloc;
        member(alloc, "filename", 1)?,
        member(alloc, "type", 2)?,
        member(alloc, "owner", 3)?,
        member(alloc, "data", 4)?,
    ]?;
    Ok(vec![in alloc;
        Kind::Numbered { members },
        Kind::Text { max: 255 },
        Kind::Choice {
            tag,
            arms,
            other: None
        },
        Kind::Text { max: 32 },
        Kind::OpaqueUpTo { max: 65535 },
        Kind::Structure { fields },
        Kind::Int,
        Kind::Nothing,
    ]?)
}

fn file(alloc: Global) -> Result<(Vec<Kind>, u32, Value), AllocError> {
    let part = Box::new(alloc, bytes(alloc, b"lisp")?)?;
    let parts = vec![in alloc;
        bytes(alloc, b"sillyprog")?,
        Value::Choice { tag: 2, part },
        bytes(alloc, b"john")?,
        bytes(alloc, b"(quit)")?,
    ]?;
    Ok((file_kinds(alloc)?, 5, Value::Group(parts)))
}
