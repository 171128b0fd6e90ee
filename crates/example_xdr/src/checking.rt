//! Bytes that are judged without a value.
ghost use Rattle.std.specs.Prelude.{◌≡◌, ◌<◌, length, IfOk, IfErr, IfSome, IsOk, Ok, Err};
ghost use Rattle.xdr_types.specs.Kinds.{kind_at, opaque_up_to};
ghost use Rattle.xdr_stream.specs.declared.fault.Reason.TheVariants.{NoMemory};
ghost use Rattle.xdr_codec.specs.Checks.{IsDone};
ghost use Rattle.xdr_stream.specs.declared.reader.Progress.TheVariants.{Done};

use std::alloc::Global;
use xdr_codec::{Checker, DecodeFault, Progress};
use xdr_types::{KindId, Limits, Schema};

/// What the end counts is what the only piece was used for.
pub fn counts_what_was_used(
    alloc: Global,
    schema: &Schema,
    kind: KindId,
    limits: Limits,
    piece: &[u8],
) -> Result<Option<(usize, u32)>, DecodeFault>
    requires has { kind.place < length schema.now.kinds }
    ensures { IfOk result (λ r. IfSome r (λ counts. counts.0 ≡ counts.1)) }
{
    let mut checker = Checker::start(alloc, schema, kind, limits);
    match checker.feed(piece)? {
        Progress::More => Ok(None),
        Progress::Done { used } => {
            let count = checker.finish()?;
            Ok(Some((used, count)))
        }
    }
}

/// A refusal comes again, whatever comes after it, and at the end too.
pub fn refuses_for_ever(
    mut checker: Checker<'_>,
    piece: &[u8],
    later: &[u8],
) -> Option<
    (
        DecodeFault,
        Result<Progress, DecodeFault>,
        Result<u32, DecodeFault>,
    ),
>
    ensures { IfSome result (λ r. (r.1 ≡ Err r.0) × (r.2 ≡ Err r.0)) }
{
    match checker.feed(piece) {
        Ok(_) => None,
        Err(fault) => {
            let again = checker.feed(later);
            let last = checker.finish();
            Some((fault, again, last))
        }
    }
}

/// Where a value is whole, what follows is not looked at.
pub fn looks_at_nothing_more(
    checker: &mut Checker<'_>,
    later: &[u8],
) -> Result<Progress, DecodeFault>
    requires { IsDone checker.old }
    ensures { result ≡ Ok (Done 0) }
{
    checker.feed(later)
}

/// And the end counts it: no memory is asked for.
pub fn counts_what_is_whole(checker: Checker<'_>) -> Result<u32, DecodeFault>
    requires { IsDone checker }
    ensures { IsOk result }
{
    checker.finish()
}

/// Content is not kept, so that no memory is asked for where nothing else is there.
pub fn is_sure_of_an_opaque(
    alloc: Global,
    schema: &Schema,
    kind: KindId,
    limits: Limits,
    piece: &[u8],
) -> Result<Progress, DecodeFault>
    requires has { kind.place < length schema.now.kinds }
    requires kind { kind_at schema.now.kinds kind.place ≡ opaque_up_to 4294967295 }
    ensures { IfErr result (λ f. f.why ≡ NoMemory → ⊥) }
{
    let mut checker = Checker::start(alloc, schema, kind, limits);
    checker.feed(piece)
}
