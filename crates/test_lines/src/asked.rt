//! The kind of a case, within limits.
use crate::case::Case;
use xdr_lang::Declared;
use xdr_types::{KindId, Limits, Schema};

/// What is asked for: a kind of a schema, within limits.
#[derive(Clone, Copy)]
pub struct Asked<'a> {
    pub schema: &'a Schema,
    pub kind: KindId,
    pub limits: Limits,
}

// The kind of a case. `void` is the one without a value's bytes, which no text names.
fn kind_of(case: &Case<'_>, declared: &Declared) -> Option<KindId> {
    match case.word("kind") {
        "void" => Some(KindId { place: 5 }),
        name => declared.kind(name),
    }
}

/// What a case asks for with its declarations; none where they have no such kind, or its limits are none.
pub fn asked_of<'a>(case: &Case<'_>, declared: &'a Declared) -> Option<Asked<'a>> {
    match (kind_of(case, declared), case.limits()) {
        (Some(kind), Some(limits)) => Some(Asked {
            schema: &declared.schema,
            kind,
            limits,
        }),
        _ => None,
    }
}
