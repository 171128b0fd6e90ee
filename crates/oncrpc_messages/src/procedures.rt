//! The kinds of a procedure's arguments and result.
ghost use Rattle.std.specs.Prelude.{◌≡◌, ◌<◌, length, nat_lt, option_map, IfSome};
ghost use Rattle.std.specs.List.{list_all};
ghost use Rattle.xdr_lang.specs.Views.{places, procedure_of};
ghost use Rattle.oncrpc_messages.specs.Asked.{arguments_in, is_wrapped, known_places, name_in, places_in};
ghost use Rattle.oncrpc_messages.specs.Asked.{results_in, results_of};
ghost use Rattle.oncrpc_messages.specs.Private.Told.{AreKinds};

use xdr_lang::Procedure;
use xdr_types::{KindId, Schema};

/// The flavor under which arguments and results may be wrapped (RFC 2203 section 5.3.2).
const RPCSEC_GSS: u32 = 6;

/// The kinds by which the arguments of a call are judged that has a credential of this flavor. None where they may be
/// wrapped, or the procedure is not declared.
pub fn argument_kinds<'a>(
    schema: &Schema,
    flavor: u32,
    procedure: Option<&'a Procedure>,
) -> Option<&'a [KindId]>
    ensures kinds { option_map (λ k. places k.now) result ≡ places_in schema.now.kinds flavor
        (arguments_in (option_map (λ p. procedure_of p.now) procedure.entry)) }
    ensures known { IfSome result (λ k. AreKinds schema.now.kinds (places k.now)) }
{
    match procedure {
        None => None,
        Some(procedure) => {
            if is_wrapped(flavor) {
                return None;
            }
            known_kinds(schema, procedure.arguments.as_slice())
        }
    }
}

// These kinds, where the schema has all of them.
fn known_kinds<'a>(schema: &Schema, kinds: &'a [KindId]) -> Option<&'a [KindId]>
    ensures kinds { option_map (λ k. places k.now) result ≡ known_places schema.now.kinds (places kinds.now) }
    ensures known { IfSome result (λ k. AreKinds schema.now.kinds (places k.now)) }
{
    if !are_kinds(schema, kinds) {
        return None;
    }
    Some(kinds)
}

/// The kind by which the results of a call are judged that had a credential of this flavor, none where they are void.
/// None where they may be wrapped, or the procedure is not declared.
pub fn result_kind(
    schema: &Schema,
    flavor: u32,
    procedure: Option<&Procedure>,
) -> Option<Option<KindId>>
    ensures kinds { option_map (λ r. results_of (option_map (λ k. k.place) r)) result
        ≡ places_in schema.now.kinds flavor (results_in (option_map (λ p. procedure_of p.now) procedure.entry)) }
    ensures known { IfSome result (λ r. IfSome r (λ k. k.place < length schema.now.kinds)) }
{
    let procedure = procedure?;
    if is_wrapped(flavor) {
        return None;
    }
    match procedure.result {
        None => Some(None),
        Some(kind) if schema.has(kind) => Some(Some(kind)),
        Some(_) => None,
    }
}

/// The name of a procedure.
pub fn name_of(procedure: Option<&Procedure>) -> Option<&str>
    ensures { option_map (λ n. n.now) result ≡ name_in (option_map (λ p. procedure_of p.now) procedure.entry) }
{
    match procedure {
        Some(procedure) => Some(procedure.name.as_str()),
        None => None,
    }
}

fn is_wrapped(flavor: u32) -> bool
    ensures { result ≡ is_wrapped flavor }
{
    flavor == RPCSEC_GSS
}

// Whether the schema has all these kinds.
fn are_kinds(schema: &Schema, kinds: &[KindId]) -> bool
    ensures { result ≡ list_all (λ k. nat_lt k (length schema.now.kinds)) (places kinds.now) }
{
    for kind in kinds {
        if !schema.has(*kind) {
            return false;
        }
    }
    true
}
