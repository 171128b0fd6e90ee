//! Random schemas, inputs and limits for tests, which a generator makes: the same for the same seed.
use rand_core::utils::NextWord;
use rand_pcg::Pcg32;
use std::alloc::{AllocError, Global};
use std::string::String;
use xdr_types::{Arm, Kind, KindId, Limits, Member, Schema};

// The numbers, boolean, void and content come first, and then so many others.
const FIRST: u32 = 8;

const ALL: u32 = 14;

const VOID: u32 = 5;

const NAMES: [&str; 3] = ["a", "b", "c"];

/// A number below this, or 0.
pub fn below(random: &mut Pcg32, bound: u32) -> u32 {
    random.next_word() % bound.max(1)
}

/// One of so many numbers, from the least on.
pub fn from(random: &mut Pcg32, least: u32, count: u32) -> u32 {
    least.saturating_add(below(random, count))
}

fn id(place: u32) -> KindId {
    KindId { place }
}

// A kind below this place, but not void.
fn solid(random: &mut Pcg32, most: u32) -> KindId {
    match below(random, most) {
        VOID => id(0),
        place => id(place),
    }
}

fn member(alloc: Global, name: &str, kind: KindId) -> Result<Member, AllocError> {
    Ok(Member {
        name: String::from_str(alloc, name)?,
        kind,
    })
}

fn numbered(random: &mut Pcg32, alloc: Global) -> Result<Kind, AllocError> {
    let mut members = Vec::new(alloc);
    for name in &NAMES {
        members.push((
            String::from_str(alloc, name)?,
            below(random, 4).cast_signed(),
        ))?;
    }
    Ok(Kind::Numbered { members })
}

fn structure(random: &mut Pcg32, alloc: Global, most: u32) -> Result<Kind, AllocError> {
    let mut fields = Vec::new(alloc);
    for name in &NAMES {
        if fields.is_empty() || below(random, 2) == 0 {
            fields.push(member(alloc, name, solid(random, most))?)?;
        }
    }
    Ok(Kind::Structure { fields })
}

// The part of an arm: void, or any kind.
fn part(random: &mut Pcg32, alloc: Global, most: u32) -> Result<Member, AllocError> {
    match below(random, 4) {
        0 => member(alloc, "", id(VOID)),
        1 => member(alloc, "part", solid(random, ALL)),
        _ => member(alloc, "part", solid(random, most)),
    }
}

fn choice(random: &mut Pcg32, alloc: Global, most: u32) -> Result<Kind, AllocError> {
    let tag = match below(random, 4) {
        0 => id(0),
        1 => id(1),
        2 => id(4),
        _ => solid(random, most),
    };
    let mut arms = Vec::new(alloc);
    for first in 0..2i64 {
        let cases = vec![in alloc; first]?;
        let member = part(random, alloc, most)?;
        arms.push(Arm { cases, member })?;
    }
    let other = match below(random, 2) {
        0 => Some(part(random, alloc, most)?),
        _ => None,
    };
    Ok(Kind::Choice { tag, arms, other })
}

// A kind whose direct parts lie below its own place.
fn other_kind(random: &mut Pcg32, alloc: Global, most: u32) -> Result<Kind, AllocError> {
    match below(random, 8) {
        0 => Ok(Kind::Opaque {
            size: from(random, 1, 9),
        }),
        1 => Ok(Kind::OpaqueUpTo {
            max: below(random, 9),
        }),
        2 => numbered(random, alloc),
        3 => Ok(Kind::Fixed {
            item: solid(random, most),
            size: from(random, 1, 3),
        }),
        4 => Ok(Kind::UpTo {
            item: solid(random, ALL),
            max: below(random, 5),
        }),
        5 => structure(random, alloc, most),
        6 => choice(random, alloc, most),
        _ => Ok(Kind::Maybe {
            item: solid(random, ALL),
        }),
    }
}

fn kind_at(random: &mut Pcg32, alloc: Global, place: u32) -> Result<Kind, AllocError> {
    match place {
        0 => Ok(Kind::Int),
        1 => Ok(Kind::Unsigned),
        2 => Ok(Kind::Hyper),
        3 => Ok(Kind::UnsignedHyper),
        4 => Ok(Kind::Bool),
        VOID => Ok(Kind::Nothing),
        6 => Ok(Kind::OpaqueUpTo { max: 4294967295 }),
        7 => Ok(Kind::Text { max: 4294967295 }),
        _ => other_kind(random, alloc, place),
    }
}

/// A schema, where the kinds that were made are one.
pub fn schema(random: &mut Pcg32, alloc: Global) -> Option<Schema> {
    let mut kinds = Vec::new(alloc);
    for place in 0..ALL {
        kinds.push(kind_at(random, alloc, place).ok()?).ok()?;
    }
    Schema::build(alloc, kinds, Vec::new(alloc)).ok()
}

/// The place of one of a schema's kinds that were made at random.
pub fn made(random: &mut Pcg32) -> u32 {
    from(random, FIRST, ALL - FIRST)
}

/// The number of a unit: small numbers are counts and tags more often than others.
pub fn unit(random: &mut Pcg32) -> u32 {
    match below(random, 10) {
        0 => random.next_word(),
        1 => u32::MAX.saturating_sub(below(random, 3)),
        2 => below(random, 20),
        3 => 0,
        _ => below(random, 4),
    }
}

/// Units, of which the last may be cut.
pub fn input(random: &mut Pcg32, alloc: Global) -> Result<Vec<u8>, AllocError> {
    let mut bytes = Vec::new(alloc);
    for _ in 0..from(random, 0, 24) {
        bytes.extend_from_slice(&unit(random).to_be_bytes())?;
    }
    if below(random, 8) == 0 {
        bytes.pop();
    }
    Ok(bytes)
}

/// Limits, half of them the widest.
pub fn limits(random: &mut Pcg32) -> Option<Limits> {
    match below(random, 4) {
        0 => Limits::new(from(random, 1, 8), 16777216),
        1 => Limits::new(4096, from(random, 1, 16).saturating_mul(4)),
        _ => Limits::new(4096, 16777216),
    }
}
