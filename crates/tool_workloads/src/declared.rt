//! The digest of what a text declares: each kind with all that it has, each type's name, each constant, and each
//! program down to its procedures.

use crate::digest::Digest;
use crate::random::count_of;
use std::alloc::Global;
use xdr_lang::{Declared, Procedure, Program, Version};
use xdr_types::{Arm, Kind, KindId, Member};
use xdr_units::NoMemory;

fn add_place(digest: &mut Digest, kind: KindId) {
    digest.number(u64::from(kind.place));
}

// A number that no place is stands for none.
fn add_option(digest: &mut Digest, kind: Option<KindId>) {
    match kind {
        Some(kind) => add_place(digest, kind),
        None => digest.number(u64::MAX),
    }
}

fn add_member(digest: &mut Digest, member: &Member) {
    digest.bytes(member.name.as_bytes());
    add_place(digest, member.kind);
}

// The members of an enumeration.
fn add_numbers(digest: &mut Digest, members: &[(String, i32)]) {
    digest.number(members.len() as u64);
    for (name, number) in members {
        digest.bytes(name.as_bytes());
        digest.number(u64::from(number.cast_unsigned()));
    }
}

fn add_fields(digest: &mut Digest, fields: &[Member]) {
    digest.number(fields.len() as u64);
    for field in fields {
        add_member(digest, field);
    }
}

// The arms of a union, each with its cases, and its default.
fn add_arms(digest: &mut Digest, arms: &[Arm], other: &Option<Member>) {
    digest.number(arms.len() as u64);
    for arm in arms {
        digest.number(arm.cases.len() as u64);
        for case in &arm.cases {
            digest.number(case.cast_unsigned());
        }
        add_member(digest, &arm.member);
    }
    match other {
        Some(member) => add_member(digest, member),
        None => digest.number(u64::MAX),
    }
}

// A number for each sort of kind (RFC 4506 sections 4.1 to 4.19).
fn sort_of(kind: &Kind) -> u64 {
    match kind {
        Kind::Int => 1,
        Kind::Unsigned => 2,
        Kind::Hyper => 3,
        Kind::UnsignedHyper => 4,
        Kind::Bool => 5,
        Kind::Numbered { .. } => 6,
        Kind::Opaque { .. } => 7,
        Kind::OpaqueUpTo { .. } => 8,
        Kind::Text { .. } => 9,
        Kind::Fixed { .. } => 10,
        Kind::UpTo { .. } => 11,
        Kind::Structure { .. } => 12,
        Kind::Choice { .. } => 13,
        Kind::Maybe { .. } => 14,
        Kind::Nothing => 15,
    }
}

fn add_kind(digest: &mut Digest, kind: &Kind) {
    digest.number(sort_of(kind));
    match kind {
        Kind::Numbered { members } => add_numbers(digest, members),
        Kind::Structure { fields } => add_fields(digest, fields),
        Kind::Choice { tag, arms, other } => {
            add_place(digest, *tag);
            add_arms(digest, arms, other);
        }
        Kind::Opaque { size: count }
        | Kind::OpaqueUpTo { max: count }
        | Kind::Text { max: count } => {
            digest.number(u64::from(*count));
        }
        Kind::Fixed { item, size: count } | Kind::UpTo { item, max: count } => {
            add_place(digest, *item);
            digest.number(u64::from(*count));
        }
        Kind::Maybe { item } => add_place(digest, *item),
        Kind::Int
        | Kind::Unsigned
        | Kind::Hyper
        | Kind::UnsignedHyper
        | Kind::Bool
        | Kind::Nothing => {}
    }
}

// A number from -2^63 to 2^64 - 1, and whether it is below 0.
fn add_constant(digest: &mut Digest, number: i128) {
    match i64::try_from(number) {
        Ok(number) => digest.number(number.cast_unsigned()),
        Err(_) => digest.number(u64::try_from(number).unwrap_or(0)),
    }
    digest.number(u64::from(number < 0));
}

fn add_procedure(digest: &mut Digest, procedure: &Procedure) {
    digest.bytes(procedure.name.as_bytes());
    digest.number(u64::from(procedure.number));
    digest.number(procedure.arguments.len() as u64);
    for argument in &procedure.arguments {
        add_place(digest, *argument);
    }
    add_option(digest, procedure.result);
}

fn add_version(digest: &mut Digest, version: &Version) {
    digest.bytes(version.name.as_bytes());
    digest.number(u64::from(version.number));
    digest.number(version.procedures.len() as u64);
    for procedure in &version.procedures {
        add_procedure(digest, procedure);
    }
}

fn add_program(digest: &mut Digest, program: &Program) {
    digest.bytes(program.name.as_bytes());
    digest.number(u64::from(program.number));
    digest.number(program.versions.len() as u64);
    for version in &program.versions {
        add_version(digest, version);
    }
}

/// Adds what the names of types with the numbers below a bound name, as `texts` gives them.
pub fn add_types(
    alloc: Global,
    digest: &mut Digest,
    declared: &Declared,
    types: u32,
) -> Result<(), NoMemory> {
    for number in 0..types {
        let Ok(name) = format!(in alloc; "type_{number}") else {
            return Err(NoMemory);
        };
        add_option(digest, declared.kind(name.as_str()));
    }
    Ok(())
}

/// Adds the kinds, the constants and the programs.
pub fn add_declared(digest: &mut Digest, declared: &Declared) {
    let schema = &declared.schema;
    digest.number(schema.len() as u64);
    for place in 0..count_of(schema.len()) {
        let id = KindId { place };
        if schema.has(id) {
            add_kind(digest, schema.kind(id));
        }
    }
    digest.number(declared.constants.len() as u64);
    for (name, number) in &declared.constants {
        digest.bytes(name.as_bytes());
        add_constant(digest, *number);
    }
    digest.number(declared.programs.len() as u64);
    for program in &declared.programs {
        add_program(digest, program);
    }
}
