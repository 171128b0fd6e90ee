//! What the words of a task name: a kind, in the schema that declares it, and the limits on a value of it.
ghost use Rattle.std.specs.Prelude.{◌≡◌, ◌<◌, length, IfOk, IfErr, IsErrOf};
ghost use Rattle.oncrpc_tasks.specs.Refusals.{IsReason};
ghost use Rattle.oncrpc_tasks.specs.Sources.{FileFails};
ghost use Rattle.oncrpc_tasks.specs.Tasks.{AsksFor, HasNoQuestion};

use super::declaring::declared;
use super::open::Opener;
use super::unusable::Unusable;
use oncrpc_answers::{Failure, ValueTask};
use oncrpc_kinds::kind_named;
use std::alloc::Global;
use xdr_types::{KindId, Limits, Schema};

/// A kind that its schema has, and the limits on a value of it.
#[derive(Drop)]
pub struct Target {
    pub schema: Schema,
    pub kind: KindId,
    pub limits: Limits,
}

/// What the task names. The declarations are looked at first, then the name, then the limits.
#[tactic(auto, using(crate::proofs::Questions::undeclared))]
pub fn target_of<P: Opener>(
    alloc: Global,
    what: &ValueTask,
    opener: &mut P,
) -> Result<Target, Unusable>
    // What is found is what the words name in texts that are reported,
    ensures asks { IfOk result (λ t. AsksFor (P.reported opener.old) what.now t) }
    // and the schema has its kind.
    ensures known { IfOk result (λ t. t.kind.place < length t.schema.kinds) }
    // A refusal says why the words name nothing,
    ensures none { IfErr result (λ why. HasNoQuestion (P.reported opener.old) what.now why) }
    // by the first reason that holds,
    ensures reason { IfErr result (λ why. IsReason (P.reported opener.old) what.now why) }
    // and the failure Read that a text could not be read.
    ensures failed { IsErrOf result (Unusable.Failed Failure.Read)
        → FileFails P.Text.left P.Text.failures (P.reported opener.old) what.now.types.files.items
        (P.failures opener.old) (P.failures opener.new) }
{
    let declared = declared(alloc, &what.types, opener)?;
    let kind = match kind_named(&declared, &what.name) {
        Some(kind) if declared.schema.has(kind) => kind,
        _ => return Err(Unusable::Name),
    };
    let Some(limits) = Limits::new(what.depth, what.bytes) else {
        return Err(Unusable::Limits);
    };
    Ok(Target {
        schema: declared.schema,
        kind,
        limits,
    })
}
