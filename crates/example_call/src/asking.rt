//! Calls of a program that squares numbers, asked for by names.
ghost use Rattle.std.specs.Prelude.{◌≡◌, ◌≤◌, [], ◌∷◌, MatchResult, IfOk, length};
ghost use Rattle.rpc_message.specs.View.{auth_view, call_view};
ghost use Rattle.xdr_lang.specs.Views.{declared_of};
ghost use Rattle.xdr_types.specs.Named.{basic};
ghost use Rattle.oncrpc_procedures.specs.declared.unnamed.Unnamed.TheVariants as unnamed;
ghost use Rattle.oncrpc_call.specs.declared.unasked.Unasked.TheVariants as unasked;
ghost use Rattle.example_call.specs.Squares.{programs, question};

use oncrpc_call::{Asked, Terms, Unasked, ask};
use oncrpc_procedures::names_have_one_reading;
use std::alloc::Global;
use xdr_lang::Declared;

/// With the bytes of 7 the square of 7 is asked for: that call, whose result is an unsigned number. Nothing can be
/// wanting, since numbers take no memory.
pub fn asks_for_a_square(
    alloc: Global,
    declared: Declared,
    arguments: Vec<u8>,
    terms: Terms,
) -> Result<Asked, Unasked>
    requires declares { (declared_of declared).programs ≡ programs }
    requires kinds { declared.schema.kinds ≡ basic.kinds }
    requires seven { arguments.items ≡ 0 ∷ 0 ∷ 0 ∷ 7 ∷ [] }
    requires caller { length terms.cred.body.items ≤ 400 }
    ensures asked { MatchResult result (λ a. call_view a.call ≡ question terms.xid (auth_view terms.cred)) (λ _. ⊥) }
    ensures answered { IfOk result (λ a. a.result.place ≡ 1) }
{
    names_have_one_reading();
    let _in_range = terms.limits.depth();
    ask(alloc, declared, b"SQUARES.FIRST.SQUARE", arguments, terms)
}

/// There is no procedure for cubes: that is told, whatever the arguments are, and no memory is taken to tell it.
pub fn tells_the_name_first(
    alloc: Global,
    declared: Declared,
    arguments: Vec<u8>,
    terms: Terms,
) -> Result<Asked, Unasked>
    requires declares { (declared_of declared).programs ≡ programs }
    requires short { length arguments.items ≤ 16777216 }
    requires caller { length terms.cred.body.items ≤ 400 }
    ensures { MatchResult result (λ _. ⊥) (λ why. why ≡ unasked.Name unnamed.NoProcedure) }
{
    names_have_one_reading();
    ask(alloc, declared, b"SQUARES.FIRST.CUBE", arguments, terms)
}
