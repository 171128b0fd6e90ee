//! The kinds and names of the registry's types.
ghost use Rattle.std.specs.Prelude.{◌≡◌, ◌++◌, ◌∷◌, [], IfOk, MatchResult, map, string_bytes, OnOk};
ghost use Rattle.xdr_types.specs.Kinds as xdr;
ghost use Rattle.xdr_types.specs.KindViews.{kind_view, part_of_member, name_of, lists_of};
ghost use Rattle.xdr_types.specs.Faults.{IsWellFormed, fault};
ghost use Rattle.xdr_types.specs.Sound.{IsSound};
ghost use Rattle.xdr_types.specs.declared.fault.Flaw.TheVariants as flaw;
ghost use Rattle.xdr_types.specs.Named.{named};
ghost use Rattle.registry_dumps.specs.Dir.{any_text, dir_kinds, dir_lists, rpcb, mapping};

use std::alloc::Global;
use std::string::String;
use xdr_types::{Kind, KindId, Member, NoMemory, Schema, SchemaFault, basic_kinds, basic_names};

// The places of the kinds that are named here: the basic ones, and then the registry's own.
const UNSIGNED: u32 = 1;

const NETID: u32 = 8;

const ADDRESS: u32 = 9;

const OWNER: u32 = 10;

const RPCB: u32 = 11;

const RPCB_NEXT: u32 = 12;

const RPCB_NODE: u32 = 13;

const RPCB_LIST: u32 = 14;

const MAPPING: u32 = 15;

const MAPPING_NEXT: u32 = 16;

const MAPPING_NODE: u32 = 17;

const MAPPING_LIST: u32 = 18;

/// The schema of the registry's types (RFC 1833 sections 2.1 and 3.1), after the basic kinds. Places 8 to 10 are the
/// strings of `rpcb`, 11 is `rpcb`, 12 an optional node, 13 `rp__list`, 14 `rpcblist`. Place 15 is `mapping`, 16 an
/// optional node, 17 `pm__list`, 18 `pmaplist`. The lists are well formed and sound, so that the only error is an
/// allocation failure.
#[tactic(auto, using(crate::proofs::Legal::well_formed, crate::proofs::Legal::sound))]
pub fn directory_schema(alloc: Global) -> Result<Schema, NoMemory>
    // The schema has just these kinds and names,
    ensures schema { IfOk result (λ s. s ≡ dir_lists) }
    // in which there is no fault,
    ensures well_formed { IsWellFormed dir_lists }
    // and whose kinds have values.
    ensures sound { IsSound dir_kinds }
{
    let kinds = dir_kinds(alloc)?;
    let names = dir_names(alloc)?;
    match build_lists(alloc, kinds, names) {
        Ok(schema) => Ok(schema),
        Err(_) => Err(NoMemory),
    }
}

// The schema of the registry's lists, in which no fault is found: a refusal is an allocation failure.
fn build_lists(
    alloc: Global,
    kinds: Vec<Kind>,
    names: Vec<(String, KindId)>,
) -> Result<Schema, SchemaFault>
    requires { lists_of kinds.items names.items ≡ dir_lists }
    ensures { MatchResult result (λ s. s ≡ dir_lists) (λ e. e ≡ fault flaw.NoMemory 0) }
{
    Schema::build(alloc, kinds, names)
}

// All names, the basic ones first.
fn dir_names(alloc: Global) -> Result<Vec<(String, KindId)>, NoMemory>
    ensures { IfOk result (λ v. map name_of v.items ≡ dir_lists.names) }
{
    let own = [
        ("rpcb", RPCB),
        ("rp__list", RPCB_NODE),
        ("rpcblist", RPCB_LIST),
        ("mapping", MAPPING),
        ("pm__list", MAPPING_NODE),
        ("pmaplist", MAPPING_LIST),
    ];
    let mut names = basic_names(alloc)?;
    push_names(alloc, &mut names, &own)?;
    Ok(names)
}

// Adds names and the places that they name.
fn push_names(
    alloc: Global,
    names: &mut Vec<(String, KindId)>,
    own: &[(&str, u32)],
) -> Result<(), NoMemory>
    ensures { OnOk result (map name_of names.new.items
        ≡ map name_of names.old.items ++ map (λ r. named r.0.now r.1) own.now) }
{
    for row in own {
        names.push((String::from_str(alloc, row.0)?, KindId { place: row.1 }))?;
    }
    Ok(())
}

// A row of versions 3 and 4.
fn row_kind(alloc: Global) -> Result<Kind, NoMemory>
    ensures { IfOk result (λ k. kind_view k ≡ rpcb) }
{
    let fields = [
        ("r_prog", UNSIGNED),
        ("r_vers", UNSIGNED),
        ("r_netid", NETID),
        ("r_addr", ADDRESS),
        ("r_owner", OWNER),
    ];
    structure_of(alloc, &fields)
}

// A structure of these fields, each a name and the place of its kind.
fn structure_of(alloc: Global, rows: &[(&str, u32)]) -> Result<Kind, NoMemory>
    ensures { IfOk result (λ k. kind_view k ≡ xdr.structure (map (λ r. named r.0.now r.1) rows.now)) }
{
    let mut fields = Vec::with_capacity(alloc, rows.len())?;
    for row in rows {
        fields.push(Member {
            name: String::from_str(alloc, row.0)?,
            kind: KindId { place: row.1 },
        })?;
    }
    Ok(Kind::Structure { fields })
}

// The kinds, the basic ones first.
fn dir_kinds(alloc: Global) -> Result<Vec<Kind>, NoMemory>
    ensures { IfOk result (λ v. map kind_view v.items ≡ dir_kinds) }
{
    let mut kinds = basic_kinds(alloc)?;
    push_texts(&mut kinds)?;
    let rpcb_node = [("rpcb_map", RPCB), ("rpcb_next", RPCB_NEXT)];
    push_list(
        &mut kinds,
        row_kind(alloc)?,
        structure_of(alloc, &rpcb_node)?,
        RPCB_NODE,
    )?;
    let mapping_node = [("map", MAPPING), ("next", MAPPING_NEXT)];
    push_list(
        &mut kinds,
        port_kind(alloc)?,
        structure_of(alloc, &mapping_node)?,
        MAPPING_NODE,
    )?;
    Ok(kinds)
}

// How many strings a row has.
const STRINGS: usize = 3;

// Adds the strings of a row: its netid, its address and its owner.
fn push_texts(kinds: &mut Vec<Kind>) -> Result<(), NoMemory>
    ensures { OnOk result (map kind_view kinds.new.items ≡ map kind_view kinds.old.items
        ++ any_text ∷ any_text ∷ any_text ∷ []) }
{
    for _ in 0..STRINGS {
        kinds.push(Kind::Text { max: u32::MAX })?;
    }
    Ok(())
}

// Adds a row, what follows a node, the node, which stands at a place, and the list.
fn push_list(kinds: &mut Vec<Kind>, row: Kind, node: Kind, place: u32) -> Result<(), NoMemory>
    ensures { OnOk result (map kind_view kinds.new.items ≡ map kind_view kinds.old.items
        ++ kind_view row ∷ xdr.maybe place ∷ kind_view node ∷ xdr.maybe place ∷ []) }
{
    kinds.push(row)?;
    kinds.push(maybe(place))?;
    kinds.push(node)?;
    kinds.push(maybe(place))?;
    Ok(())
}

// An optional value.
fn maybe(place: u32) -> Kind
    ensures { kind_view result ≡ xdr.maybe place }
{
    Kind::Maybe {
        item: KindId { place },
    }
}

// A row of version 2.
fn port_kind(alloc: Global) -> Result<Kind, NoMemory>
    ensures { IfOk result (λ k. kind_view k ≡ mapping) }
{
    let fields = [
        ("prog", UNSIGNED),
        ("vers", UNSIGNED),
        ("prot", UNSIGNED),
        ("port", UNSIGNED),
    ];
    structure_of(alloc, &fields)
}
