//! Lists of kinds and of names that a case has, one behind another with a comma between two. What memory is refused for
//! is left out.
//!
//! A kind is a word and numbers, with colons between: `int`, `unsigned`, `hyper`, `unsigned-hyper`, `bool`, `void`; of
//! a size, or of at most so many bytes, `opaque:3`, `bytes:9`, `string:9`. Of the kind at place 0 it is `array:0:3`, of
//! so many items, `list:0:9`, of at most so many, or `optional:0`. Parts stand behind it, with semicolons before them:
//! members of `enum;a:1`, by name and number; fields of `struct;x:0`, by name and place; arms of `union:0;x:2:1:3`, by
//! name, place and cases. A union's default stands in front of these: `union:0:other:2;x:2:1`.
//!
//! A name of a kind is written as a field is.
use std::alloc::Global;
use std::string::String;
use xdr_types::{Arm, Kind, KindId, Member};

// What stands before a colon and behind it.
fn parted(text: &str) -> (&str, &str) {
    text.split_once(':').unwrap_or((text, ""))
}

fn count(text: &str) -> u32 {
    text.parse::<u32>().unwrap_or(0)
}

fn id(text: &str) -> KindId {
    KindId { place: count(text) }
}

fn named(alloc: Global, name: &str) -> String {
    match String::from_str(alloc, name) {
        Ok(name) => name,
        Err(_) => String::new(alloc),
    }
}

// A name and the place of a kind.
fn member(alloc: Global, text: &str) -> Member {
    let (name, place) = parted(text);
    Member {
        name: named(alloc, name),
        kind: id(place),
    }
}

fn enumeration(alloc: Global, parts: &str) -> Kind {
    let mut members = Vec::new(alloc);
    for part in parts.split_terminator(';') {
        let (name, number) = parted(part);
        let _pushed = members.push((named(alloc, name), number.parse::<i32>().unwrap_or(0)));
    }
    Kind::Numbered { members }
}

fn structure(alloc: Global, parts: &str) -> Kind {
    let mut fields = Vec::new(alloc);
    for part in parts.split_terminator(';') {
        let _pushed = fields.push(member(alloc, part));
    }
    Kind::Structure { fields }
}

fn arm(alloc: Global, text: &str) -> Arm {
    let (name, behind) = parted(text);
    let (place, numbers) = parted(behind);
    let mut cases = Vec::new(alloc);
    for number in numbers.split_terminator(':') {
        let _pushed = cases.push(number.parse::<i64>().unwrap_or(0));
    }
    let member = Member {
        name: named(alloc, name),
        kind: id(place),
    };
    Arm { cases, member }
}

// A union by what stands behind its word, and its arms.
fn union(alloc: Global, head: &str, parts: &str) -> Kind {
    let (tag, other) = parted(head);
    let mut arms = Vec::new(alloc);
    for part in parts.split_terminator(';') {
        let _pushed = arms.push(arm(alloc, part));
    }
    let other = if other.is_empty() {
        None
    } else {
        Some(member(alloc, other))
    };
    Kind::Choice {
        tag: id(tag),
        arms,
        other,
    }
}

// A kind of a word alone.
fn plain(word: &str) -> Kind {
    match word {
        "int" => Kind::Int,
        "unsigned" => Kind::Unsigned,
        "hyper" => Kind::Hyper,
        "unsigned-hyper" => Kind::UnsignedHyper,
        "bool" => Kind::Bool,
        _ => Kind::Nothing,
    }
}

// A kind without names, by its word and the numbers behind it.
fn sized(word: &str, numbers: &str) -> Kind {
    let (first, second) = parted(numbers);
    match word {
        "opaque" => Kind::Opaque { size: count(first) },
        "bytes" => Kind::OpaqueUpTo { max: count(first) },
        "string" => Kind::Text { max: count(first) },
        "array" => Kind::Fixed {
            item: id(first),
            size: count(second),
        },
        "list" => Kind::UpTo {
            item: id(first),
            max: count(second),
        },
        "optional" => Kind::Maybe { item: id(first) },
        _ => plain(word),
    }
}

fn kind(alloc: Global, text: &str) -> Kind {
    let (head, parts) = text.split_once(';').unwrap_or((text, ""));
    let (word, behind) = parted(head);
    match word {
        "enum" => enumeration(alloc, parts),
        "struct" => structure(alloc, parts),
        "union" => union(alloc, behind, parts),
        _ => sized(word, behind),
    }
}

/// The kinds that a list has.
pub fn kinds(alloc: Global, list: &str) -> Vec<Kind> {
    let mut kinds = Vec::new(alloc);
    for text in list.split_terminator(',') {
        let _pushed = kinds.push(kind(alloc, text));
    }
    kinds
}

/// The names that a list has, with the places of their kinds.
pub fn names(alloc: Global, list: &str) -> Vec<(String, KindId)> {
    let mut names = Vec::new(alloc);
    for text in list.split_terminator(',') {
        let (name, place) = parted(text);
        let _pushed = names.push((named(alloc, name), id(place)));
    }
    names
}
