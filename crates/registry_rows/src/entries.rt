//! The entries of a map that hold the rows: one is found, added at the end, or removed with the rest in order.
ghost use Rattle.std.specs.Prelude.{◌≡◌, ◌<◌, ◌++◌, ◌∷◌, [], length, OnOk, OnErr, not, false, option_map, ◌≤◌, IfSome};
ghost use Rattle.std.specs.Prelude.{is_some};
ghost use Rattle.std.specs.List.{list_any};
ghost use Rattle.std.specs.Option.{option_map_or};
ghost use Rattle.registry_rows.specs.Steps.{row_at, may_remove, is_unset, unset, without};
ghost use Rattle.registry_rows.specs.Rows.{is_at, IsRow, IsRegistry};
ghost use Rattle.registry_rows.specs.Views.{plain_row, plain_rows, AreEntries};

use crate::key::Key;
use crate::row::Row;
use indexmap::IndexMap;
use registry_uaddr::NoMemory;
use std::hash::BuildHasher;

/// How many rows there are. Its clauses are what always holds of the rows: each keeps to its bounds, and no program,
/// version and netid is there twice.
pub fn count<S: BuildHasher>(rows: &IndexMap<Key, Row, S>) -> u32
    requires { AreEntries rows.now.entries }
    // How many rows the list has,
    ensures value { result ≡ length (plain_rows rows.now.entries) }
    // 1024 at most.
    ensures few { result ≤ 1024 }
    // The rows are those of a registry.
    ensures registry { IsRegistry (plain_rows rows.now.entries) }
{
    rows.len() as u32
}

/// The row of a program, a version and a netid: one look-up by the key's hash, so what it costs does not grow with the
/// rows, unless the hasher puts many keys together. It takes no memory.
pub fn find<'a, S: BuildHasher>(
    rows: &'a IndexMap<Key, Row, S>,
    prog: u32,
    vers: u32,
    netid: &[u8],
) -> Option<&'a Row>
    requires { AreEntries rows.now.entries }
    // What is found is the row that the definition finds;
    ensures value { let row = row_at (plain_rows rows.now.entries) prog vers netid.now in
        option_map (λ r. plain_row r.now) result ≡ row }
    // one is found where some row is there,
    ensures some { is_some result ≡ list_any (is_at prog vers netid.now) (plain_rows rows.now.entries) }
    // and it keeps to the bounds of a row.
    ensures row { IfSome result (λ r. IsRow (plain_row r.now)) }
{
    if netid.len() > 64 {
        return None;
    }
    rows.get(&Key::new(prog, vers, netid))
}

/// Adds a row, whose key no row has, at the end. `NoMemory` leaves the rows as they were.
pub fn append<S: BuildHasher>(rows: &mut IndexMap<Key, Row, S>, row: Row) -> Result<(), NoMemory>
    requires entries { AreEntries rows.old.entries }
    requires space { length rows.old.entries < 1024 }
    requires row { IsRow (plain_row row) }
    requires absent { list_any (is_at row.prog row.vers row.netid.items) (plain_rows rows.old.entries) ≡ false }
    // The entries keep to what they keep to,
    ensures entries { AreEntries rows.new.entries }
    // the row is behind the others,
    ensures ok { OnOk result (plain_rows rows.new.entries ≡ plain_rows rows.old.entries ++ plain_row row ∷ []) }
    // or, without memory, the rows are as they were.
    ensures err { OnErr result (plain_rows rows.new.entries ≡ plain_rows rows.old.entries) }
{
    let key = Key::new(row.prog, row.vers, &row.netid);
    match rows.insert(key, row) {
        Ok(_) => Ok(()),
        Err(_) => Err(NoMemory),
    }
}

/// Removes the row of a program, a version and a netid that is not empty, where the owner may remove it: one look-up,
/// and one removal, which moves the rows behind it up by one. It takes no memory.
pub fn remove_one<S: BuildHasher>(
    rows: &mut IndexMap<Key, Row, S>,
    prog: u32,
    vers: u32,
    netid: &[u8],
    owner: &[u8],
) -> bool
    requires entries { AreEntries rows.old.entries }
    requires named { 0 < length netid.now }
    // The entries keep to what they keep to,
    ensures entries { AreEntries rows.new.entries }
    // rows and answer are those of the step,
    ensures step { let after = unset (plain_rows rows.old.entries) prog vers netid.now owner.now in
        (plain_rows rows.new.entries, result) ≡ after }
    // and where none is removed all are as they were.
    ensures refused { result ≡ false → plain_rows rows.new.entries ≡ plain_rows rows.old.entries }
{
    if !may_take_out(rows, prog, vers, netid, owner) {
        return false;
    }
    take_out(rows, prog, vers, netid);
    true
}

// Whether there is a row of a program, a version and a netid, and the owner may remove it.
fn may_take_out<S: BuildHasher>(
    rows: &IndexMap<Key, Row, S>,
    prog: u32,
    vers: u32,
    netid: &[u8],
    owner: &[u8],
) -> bool
    requires { AreEntries rows.now.entries }
    ensures { let row = row_at (plain_rows rows.now.entries) prog vers netid.now in
        result ≡ option_map_or (may_remove owner.now) row false }
{
    match find(rows, prog, vers, netid) {
        Some(row) => row.may_remove(owner),
        None => false,
    }
}

// Removes the row of a program, a version and a netid.
fn take_out<S: BuildHasher>(rows: &mut IndexMap<Key, Row, S>, prog: u32, vers: u32, netid: &[u8])
    requires entries { AreEntries rows.old.entries }
    requires short { length netid.now ≤ 64 }
    ensures entries { AreEntries rows.new.entries }
    ensures rows { let rest = without (is_at prog vers netid.now) (plain_rows rows.old.entries) in
        plain_rows rows.new.entries ≡ rest.0 }
{
    rows.shift_remove(&Key::new(prog, vers, netid));
}

/// Removes the rows that an `unset` by this owner names, in one pass that keeps the order of the rest. It takes no
/// memory.
pub fn remove_all<S: BuildHasher>(
    rows: &mut IndexMap<Key, Row, S>,
    prog: u32,
    vers: u32,
    netid: &[u8],
    owner: &[u8],
) -> bool
    requires entries { AreEntries rows.old.entries }
    // The entries keep to what they keep to,
    ensures entries { AreEntries rows.new.entries }
    // rows and answer are those of the step,
    ensures step { let after = unset (plain_rows rows.old.entries) prog vers netid.now owner.now in
        (plain_rows rows.new.entries, result) ≡ after }
    // and where none is removed all are as they were.
    ensures refused { result ≡ false → plain_rows rows.new.entries ≡ plain_rows rows.old.entries }
{
    let before = rows.len();
    rows.retain(
        |_key: &Key, row: &mut Row| -> bool
            ensures { (result ≡ not (is_unset prog vers netid.entry.now owner.entry.now (plain_row row.old)))
                × (row.new ≡ row.old) }
        { !row.is_unset(prog, vers, netid, owner) },
    );
    rows.len() < before
}
