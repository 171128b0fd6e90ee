//! Texts of declarations (RFC 4506 section 6, RFC 5531 section 12).

use crate::random::{Random, count_of};
use xdr_units::{NoMemory, push_decimal};

/// Types of a text have numbers: so many are declared before any other.
const FIRST: u32 = 4;

const STEMS: &[&[u8]] = &[
    b"attr", b"name", b"handle", b"cookie", b"verf", b"count", b"status", b"dir", b"file", b"lock",
    b"owner", b"access", b"offset", b"length", b"state", b"result",
];

const BASICS: &[&[u8]] = &[
    b"int",
    b"unsigned int",
    b"hyper",
    b"unsigned hyper",
    b"bool",
    b"unsigned int",
    b"int",
    b"unsigned hyper",
];

/// Writes a text.
pub fn push(out: &mut Vec<u8>, text: &[u8]) -> Result<(), NoMemory> {
    out.extend_from_slice(text)?;
    Ok(())
}

// One of some texts.
fn one_of<'a>(random: &mut Random, texts: &[&'a [u8]]) -> &'a [u8] {
    match texts.get(random.below(count_of(texts.len())) as usize) {
        Some(text) => *text,
        None => b"int",
    }
}

/// Writes a name with a number.
pub fn push_name(out: &mut Vec<u8>, stem: &[u8], number: u32) -> Result<(), NoMemory> {
    push(out, stem)?;
    push(out, b"_")?;
    push_decimal(out, number)
}

// A name of a number that no other name of the same place has.
fn push_own_name(out: &mut Vec<u8>, random: &mut Random, number: u32) -> Result<(), NoMemory> {
    let stem = one_of(random, STEMS);
    push_name(out, stem, number)
}

// A type that is declared before the one of a number, or a basic one.
fn push_type(out: &mut Vec<u8>, random: &mut Random, before: u32) -> Result<(), NoMemory> {
    if random.one_in(2) {
        push(out, one_of(random, BASICS))
    } else {
        push_name(out, b"type", random.below(before))
    }
}

// A field.
fn push_field(
    out: &mut Vec<u8>,
    random: &mut Random,
    before: u32,
    number: u32,
) -> Result<(), NoMemory> {
    push(out, b"    ")?;
    match random.below(8) {
        0 => {
            push(out, b"string ")?;
            push_own_name(out, random, number)?;
            push(out, b"<MAXIMUM>;\n")
        }
        1 => {
            push(out, b"opaque ")?;
            push_own_name(out, random, number)?;
            push(out, b"[16];\n")
        }
        2 => {
            push_type(out, random, before)?;
            push(out, b" ")?;
            push_own_name(out, random, number)?;
            push(out, b"<>;\n")
        }
        _ => {
            push_type(out, random, before)?;
            push(out, b" ")?;
            push_own_name(out, random, number)?;
            push(out, b";\n")
        }
    }
}

fn push_struct(out: &mut Vec<u8>, random: &mut Random, number: u32) -> Result<(), NoMemory> {
    push(out, b"struct ")?;
    push_name(out, b"type", number)?;
    push(out, b" {\n")?;
    for field in 0..random.within(2, 14) {
        push_field(out, random, number, field)?;
    }
    push(out, b"};\n\n")
}

fn push_enum(out: &mut Vec<u8>, random: &mut Random, number: u32) -> Result<(), NoMemory> {
    push(out, b"enum ")?;
    push_name(out, b"type", number)?;
    push(out, b" {\n")?;
    let count = random.within(2, 40);
    for member in 0..count {
        push(out, b"    MEMBER_")?;
        push_decimal(out, number)?;
        push(out, b"_")?;
        push_decimal(out, member)?;
        push(out, b" = ")?;
        push_decimal(out, member.saturating_mul(3))?;
        push(out, if member + 1 < count { b",\n" } else { b"\n" })?;
    }
    push(out, b"};\n\n")
}

fn push_union(out: &mut Vec<u8>, random: &mut Random, number: u32) -> Result<(), NoMemory> {
    push(out, b"union ")?;
    push_name(out, b"type", number)?;
    push(out, b" switch (int which) {\n")?;
    for case in 0..random.within(1, 8) {
        push(out, b"case ")?;
        push_decimal(out, case)?;
        push(out, b":\n")?;
        push_field(out, random, number, case)?;
    }
    push(out, b"default:\n    void;\n};\n\n")
}

fn push_typedef(out: &mut Vec<u8>, random: &mut Random, number: u32) -> Result<(), NoMemory> {
    push(out, b"typedef ")?;
    push_type(out, random, number)?;
    push(out, b" ")?;
    push_name(out, b"type", number)?;
    push(out, if random.one_in(4) { b"[3];\n" } else { b";\n" })
}

fn push_comment(out: &mut Vec<u8>, random: &mut Random) -> Result<(), NoMemory> {
    push(out, b"/*\n * What follows is asked for by procedure ")?;
    push_decimal(out, random.below(100))?;
    push(
        out,
        b" of the protocol, and by those after it.\n * The reply has the same fields in the same order.\n */\n",
    )
}

fn push_definition(out: &mut Vec<u8>, random: &mut Random, number: u32) -> Result<(), NoMemory> {
    if random.one_in(3) {
        push_comment(out, random)?;
    }
    match random.below(8) {
        0..=3 => push_struct(out, random, number),
        4 => push_enum(out, random, number),
        5..=6 => push_union(out, random, number),
        _ => push_typedef(out, random, number),
    }
}

fn push_program(out: &mut Vec<u8>, random: &mut Random, types: u32) -> Result<(), NoMemory> {
    push(out, b"program SERVICE {\n    version SERVICE_V1 {\n")?;
    for procedure in 0..random.within(4, 24) {
        push(out, b"        ")?;
        push_name(out, b"type", random.below(types))?;
        push(out, b" ")?;
        push_name(out, b"PROC", procedure)?;
        push(out, b"(")?;
        push_name(out, b"type", random.below(types))?;
        push(out, b") = ")?;
        push_decimal(out, procedure)?;
        push(out, b";\n")?;
    }
    push(out, b"    } = 1;\n} = 100003;\n")
}

/// Writes a text of so many types, and a program over them. Where it is wrong, a name at its end is not declared.
pub fn push_text(
    out: &mut Vec<u8>,
    random: &mut Random,
    types: u32,
    is_wrong: bool,
) -> Result<(), NoMemory> {
    push_comment(out, random)?;
    push(out, b"const MAXIMUM = 255;\n\n")?;
    for number in 0..FIRST {
        push(out, b"typedef unsigned int ")?;
        push_name(out, b"type", number)?;
        push(out, b";\n")?;
    }
    for number in FIRST..types {
        push_definition(out, random, number)?;
    }
    push_program(out, random, types.min(FIRST))?;
    if is_wrong {
        push(out, b"typedef unknown known;\n")?;
    }
    Ok(())
}

/// Writes an enumeration and a union with so many members and arms, and lists of them.
pub fn push_long_kinds(out: &mut Vec<u8>, count: u32) -> Result<(), NoMemory> {
    push(out, b"enum code {")?;
    for member in 0..count {
        push_name(out, b"C", member)?;
        push(out, b"=")?;
        push_decimal(out, member.saturating_mul(7))?;
        push(out, b",")?;
    }
    push(out, b"LAST=-1};union choice switch(int d){")?;
    for arm in 0..count {
        push(out, b"case ")?;
        push_decimal(out, arm.saturating_mul(7))?;
        push(out, b":int ")?;
        push_name(out, b"a", arm)?;
        push(out, b";")?;
    }
    push(out, b"};typedef code codes<>;typedef choice choices<>;")
}
