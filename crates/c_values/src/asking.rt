//! What is asked of bytes by declarations.
ghost use Rattle.std.specs.Prelude.{◌≡◌, MatchOption};
ghost use Rattle.xdr_lang.specs.Views.{declared_of};
ghost use Rattle.c_values.specs.Answers.{IsRight, Names, NamesNone};

use super::answer::Answer;
use super::judge::judge;
use super::state::State;
use oncrpc_kinds::kind_named;
use std::alloc::Global;
use std::str::from_utf8;
use xdr_lang::Declared;
use xdr_types::{KindId, Limits};

/// What the bytes are by the declarations, which stay. The name is looked at before the limits.
pub fn answer_by(
    alloc: Global,
    state: &mut State,
    name: &[u8],
    depth: u32,
    bytes: u32,
    input: &[u8],
) -> Answer
    ensures stay { state.new ≡ state.old }
    ensures answer { IsRight (declared_of state.old) name.now depth bytes input.now result }
{
    let Some(kind) = state.kind(name) else {
        return Answer::NoKind;
    };
    match Limits::new(depth, bytes) {
        Some(limits) => judge(alloc, &state.declared().schema, kind, limits, input),
        None => Answer::BadLimits,
    }
}

/// The kind that the name names. None where the name is no text, or that of no kind.
pub fn kind_asked(declared: &Declared, name: &[u8]) -> Option<KindId>
    ensures { MatchOption result (NamesNone (declared_of declared.now) name.now)
        (λ kind. Names (declared_of declared.now) name.now kind.place) }
{
    let Ok(name) = from_utf8(name) else {
        return None;
    };
    match kind_named(declared, name) {
        Some(kind) if declared.schema.has(kind) => Some(kind),
        _ => None,
    }
}
