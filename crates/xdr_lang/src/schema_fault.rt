//! Where a fault of a schema stands.
ghost use Rattle.std.specs.Prelude.{◌≡◌, None};
ghost use Rattle.xdr_types.specs.declared.fault.Flaw.TheVariants as flaw;

use xdr_grammar::Outline;
use xdr_tokens::{Fault, FlawNumber, Wrong};
use xdr_types::{Flaw, SchemaFault};

/// The number of what is wrong with a schema. An allocation failure, the last, is wrong with none.
fn flaw_number(why: Flaw) -> Option<FlawNumber>
    ensures { why ≡ flaw.NoMemory → result ≡ None }
{
    let value = why.number();
    if value <= 10 {
        Some(FlawNumber { value })
    } else {
        None
    }
}

/// The fault of a schema, where the definition or declaration that spells the kind begins. The eight
/// basic kinds come first. Too many kinds are no kind's fault, and stand at the beginning.
pub fn schema_fault(outline: &Outline<'_>, fault: SchemaFault) -> Fault
    ensures { fault.why ≡ flaw.NoMemory → result ≡ Fault.NoMemory }
{
    let Some(number) = flaw_number(fault.why) else {
        return Fault::NoMemory;
    };
    let left = match outline.drafts.get(fault.place.saturating_sub(8)) {
        Some(draft) if fault.why != Flaw::TooManyKinds => draft.left,
        _ => usize::MAX,
    };
    Fault::Refused {
        wrong: Wrong::BadSchema(number),
        left,
    }
}
