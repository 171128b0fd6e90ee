//! What texts declare, as text: kinds in the words of the language, the kinds that they name by their places, and `; `
//! between two.
use crate::reported::Report;
use xdr_lang::{Declared, LangFault, Procedure, Program, Version};
use xdr_types::{Arm, Kind, KindId, Member, Schema};

// Two marks and a size between them.
fn sized(out: &mut Report, mark: &str, size: u32, end: &str) {
    out.number(mark, u64::from(size));
    out.text(end);
}

// A name and its number.
fn number_of(out: &mut Report, name: &String, number: i128) {
    out.text(name.as_str());
    out.signed(" = ", number);
}

// The members of an enumeration.
fn members(out: &mut Report, members: &[(String, i32)]) {
    for (number, member) in members.iter().enumerate() {
        out.between(number, "; ");
        number_of(out, &member.0, i128::from(member.1));
    }
}

// A field of a structure, or the part of an arm: its kind's place and its name.
fn member(out: &mut Report, member: &Member) {
    out.number("", u64::from(member.kind.place));
    out.text(" ");
    out.text(member.name.as_str());
}

fn fields(out: &mut Report, fields: &[Member]) {
    for (number, field) in fields.iter().enumerate() {
        out.between(number, "; ");
        member(out, field);
    }
}

// An arm: the cases that it stands under, and its part.
fn arm(out: &mut Report, arm: &Arm) {
    for case in &arm.cases {
        out.signed("case ", i128::from(*case));
        out.text(": ");
    }
    member(out, &arm.member);
}

fn choice(out: &mut Report, tag: KindId, arms: &[Arm], other: &Option<Member>) {
    sized(out, "union ", tag.place, " (");
    for (number, each) in arms.iter().enumerate() {
        out.between(number, "; ");
        arm(out, each);
    }
    if let Some(default) = other {
        out.text("; default: ");
        member(out, default);
    }
}

// An array of items: how many there are stands between two marks.
fn array(out: &mut Report, item: KindId, mark: &str, size: u32, end: &str) {
    out.number("array ", u64::from(item.place));
    sized(out, mark, size, end);
}

// A kind that has parts.
fn holder(out: &mut Report, kind: &Kind) {
    match kind {
        Kind::Fixed { item, size } => array(out, *item, "[", *size, "]"),
        Kind::UpTo { item, max } => array(out, *item, "<", *max, ">"),
        Kind::Structure { fields: all } => {
            out.text("struct (");
            fields(out, all);
            out.text(")");
        }
        Kind::Choice { tag, arms, other } => {
            choice(out, *tag, arms, other);
            out.text(")");
        }
        Kind::Maybe { item } => out.number("optional ", u64::from(item.place)),
        _ => out.text("void"),
    }
}

fn kind(out: &mut Report, kind: &Kind) {
    match kind {
        Kind::Int => out.text("int"),
        Kind::Unsigned => out.text("unsigned int"),
        Kind::Hyper => out.text("hyper"),
        Kind::UnsignedHyper => out.text("unsigned hyper"),
        Kind::Bool => out.text("bool"),
        Kind::Numbered { members: all } => {
            out.text("enum (");
            members(out, all);
            out.text(")");
        }
        Kind::Opaque { size } => sized(out, "opaque[", *size, "]"),
        Kind::OpaqueUpTo { max } => sized(out, "opaque<", *max, ">"),
        Kind::Text { max } => sized(out, "string<", *max, ">"),
        _ => holder(out, kind),
    }
}

// The kinds of a schema, each behind a line feed.
fn kinds(out: &mut Report, schema: &Schema) {
    for place in 0..schema.len() {
        let id = KindId {
            place: place.min(4294967295) as u32,
        };
        if schema.has(id) {
            out.text("\n");
            kind(out, schema.kind(id));
        }
    }
}

// The names of a schema with the places of their kinds, as `("int", 0)`. A schema hands out no list of them but in its
// text for debugging.
fn names(out: &mut Report, schema: &Schema) {
    let mut all = Report::new(out.alloc);
    all.name("", schema);
    let text = std::str::from_utf8(all.bytes()).unwrap_or("");
    let (_, behind) = text.split_once(" names: [").unwrap_or(("", ""));
    let (names, _) = behind.split_once(']').unwrap_or(("", ""));
    for part in names.split("KindId { place: ") {
        for piece in part.split(" }") {
            out.text(piece);
        }
    }
}

// Constants and their numbers.
fn constants(out: &mut Report, constants: &[(String, i128)]) {
    for (number, constant) in constants.iter().enumerate() {
        out.between(number, "; ");
        number_of(out, &constant.0, constant.1);
    }
}

// A procedure: the place of its result's kind, its name, and the places of its arguments' kinds, as in the language.
fn procedure(out: &mut Report, procedure: &Procedure) {
    match procedure.result {
        Some(kind) => out.number(" ", u64::from(kind.place)),
        None => out.text(" void"),
    }
    out.text(" ");
    out.text(procedure.name.as_str());
    out.text("(");
    for (number, kind) in procedure.arguments.iter().enumerate() {
        out.between(number, ", ");
        out.number("", u64::from(kind.place));
    }
    out.number(") = ", u64::from(procedure.number));
    out.text(";");
}

// What stands before the parts of a program or a version.
fn head(out: &mut Report, word: &str, name: &String, number: u32) {
    out.text(word);
    out.text(name.as_str());
    out.number(" = ", u64::from(number));
    out.text(" {");
}

fn version(out: &mut Report, version: &Version) {
    head(out, " version ", &version.name, version.number);
    for each in &version.procedures {
        procedure(out, each);
    }
    out.text(" }");
}

// Programs with their versions and procedures, each behind a line feed.
fn programs(out: &mut Report, programs: &[Program]) {
    for program in programs {
        head(out, "\nprogram ", &program.name, program.number);
        for each in &program.versions {
            version(out, each);
        }
        out.text(" }");
    }
}

/// The kinds of a schema and their names.
pub fn schema_words(out: &mut Report, schema: &Schema) {
    out.begin(" kinds=");
    kinds(out, schema);
    out.end();
    out.begin(" names=");
    names(out, schema);
    out.end();
}

// All that a text declares.
fn declared_words(out: &mut Report, declared: &Declared) {
    schema_words(out, &declared.schema);
    out.begin(" constants=");
    constants(out, &declared.constants);
    out.end();
    out.begin(" programs=");
    programs(out, &declared.programs);
    out.end();
}

// A fault as the program prints it. An allocation failure has the number 13.
fn refused(out: &mut Report, fault: LangFault) {
    out.number("declaration refused: ", u64::from(fault.number));
    if fault.inner > 0 {
        out.number(" (", u64::from(fault.inner));
        out.text(")");
    }
    out.number(" at ", fault.line as u64);
    out.number(":", fault.column as u64);
    out.end();
}

/// What a text means, or why it has no meaning, where so many growths were met.
pub fn meaning_words(out: &mut Report, met: u64, answer: &Result<Declared, LangFault>) {
    out.answer(met);
    match answer {
        Ok(declared) => {
            out.text("ok");
            out.end();
            declared_words(out, declared);
        }
        Err(fault) => refused(out, *fault),
    }
}
