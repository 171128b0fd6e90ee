//! Arguments that are refused.
ghost use Rattle.std.specs.Prelude.{◌≡◌, [], ◌∷◌, MatchResult, IfErr, length};
ghost use Rattle.oncrpc_call.specs.declared.unasked.Unasked.TheVariants as unasked;
ghost use Rattle.example_call.specs.Refused.{IsFirst};

use oncrpc_call::{Unasked, judge_arguments};
use std::alloc::Global;
use xdr_types::{KindId, Limits, Schema};

/// Where there are no arguments, four bytes are four too many, and no memory is taken to tell it.
pub fn counts_what_follows(
    alloc: Global,
    schema: &Schema,
    limits: Limits,
    bytes: &[u8],
) -> Result<(), Unasked>
    requires { length bytes.now ≡ 4 }
    ensures { MatchResult result (λ _. ⊥) (λ why. why ≡ unasked.Follows 4) }
{
    judge_arguments(alloc, schema, &[], limits, bytes)
}

/// Where there is one argument, it is that one which is refused, at a place within the bytes.
pub fn refuses_the_only_argument(
    alloc: Global,
    schema: &Schema,
    kind: KindId,
    limits: Limits,
    bytes: &[u8],
) -> Result<(), Unasked>
    ensures { IfErr result (λ why. IsFirst (length bytes.now) why) }
{
    judge_arguments(alloc, schema, &[kind], limits, bytes)
}
