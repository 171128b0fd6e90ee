//! Texts of unions over enumerations, whose cases are members' names, and of aliases, of which one text in three has
//! a name twice (RFC 4506 sections 4.15 and 4.18, RFC 5531 section 12.3).

use crate::declarations::add_read;
use crate::digest::Digest;
use crate::random::Random;
use crate::texts::{push, push_name};
use std::alloc::Global;
use xdr_units::{NoMemory, push_decimal};

/// The numbers of an enumeration's members are this apart.
const STEP: u32 = 3;

// A member of an enumeration.
fn push_member(out: &mut Vec<u8>, enumeration: u32, member: u32) -> Result<(), NoMemory> {
    push(out, b"CODE_")?;
    push_decimal(out, enumeration)?;
    push(out, b"_")?;
    push_decimal(out, member)
}

fn push_enumeration(out: &mut Vec<u8>, number: u32, members: u32) -> Result<(), NoMemory> {
    push(out, b"enum ")?;
    push_name(out, b"type", number)?;
    push(out, b" {\n")?;
    for member in 0..members {
        push(out, b"    ")?;
        push_member(out, number, member)?;
        push(out, b" = ")?;
        push_decimal(out, member.saturating_mul(STEP))?;
        push(
            out,
            if member + 1 < members {
                b",\n"
            } else {
                b"\n};\n"
            },
        )?;
    }
    Ok(())
}

// A union over the enumeration before it. Where it has a default, every other member is a case.
fn push_union(
    out: &mut Vec<u8>,
    number: u32,
    members: u32,
    has_default: bool,
) -> Result<(), NoMemory> {
    let tag = number.saturating_sub(1);
    push(out, b"union ")?;
    push_name(out, b"type", number)?;
    push(out, b" switch (")?;
    push_name(out, b"type", tag)?;
    push(out, b" which) {\n")?;
    for member in 0..members {
        if has_default && member % 2 == 1 {
            continue;
        }
        push(out, b"case ")?;
        push_member(out, tag, member)?;
        push(out, b":\n    unsigned int ")?;
        push_name(out, b"part", member)?;
        push(out, b";\n")?;
    }
    push(
        out,
        if has_default {
            b"default:\n    void;\n};\n"
        } else {
            b"};\n"
        },
    )
}

fn push_alias(out: &mut Vec<u8>, random: &mut Random, number: u32) -> Result<(), NoMemory> {
    push(out, b"typedef ")?;
    push_name(out, b"type", random.below(number))?;
    push(out, b" ")?;
    push_name(out, b"type", number)?;
    push(out, b";\n")
}

// A text of so many pairs of an enumeration and a union, and so many aliases. Returns how many types it has.
fn push_text(
    out: &mut Vec<u8>,
    random: &mut Random,
    pairs: u32,
    aliases: u32,
) -> Result<u32, NoMemory> {
    let mut number = 0u32;
    for _ in 0..pairs {
        let members = random.within(4, 60);
        push_enumeration(out, number, members)?;
        push_union(out, number.saturating_add(1), members, random.one_in(2))?;
        number = number.saturating_add(2);
    }
    for _ in 0..aliases {
        push_alias(out, random, number)?;
        number = number.saturating_add(1);
    }
    Ok(number)
}

/// Reads so many texts.
pub fn work(
    alloc: Global,
    random: &mut Random,
    rounds: u32,
    digest: &mut Digest,
) -> Result<(), NoMemory> {
    let mut text = Vec::new(alloc);
    for _ in 0..rounds {
        text.clear();
        let pairs = random.within(2, 20);
        let aliases = random.within(20, 100);
        let types = push_text(&mut text, random, pairs, aliases)?;
        if random.one_in(3) {
            // (the last name is one of the aliases')
            let twice = types
                .saturating_sub(random.below(aliases))
                .saturating_sub(1);
            push(&mut text, b"typedef unsigned int ")?;
            push_name(&mut text, b"type", twice)?;
            push(&mut text, b";\n")?;
        }
        add_read(alloc, &text, types, digest)?;
    }
    Ok(())
}
