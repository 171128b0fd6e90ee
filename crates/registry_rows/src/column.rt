//! The rows and the column of their programs, which change together.
ghost use Rattle.std.specs.Prelude.{◌≡◌, ◌<◌, ◌++◌, ◌∷◌, [], length, take, remove, OnOk, OnErr, false, is_some, IfSome};
ghost use Rattle.std.specs.List.{list_any};
ghost use Rattle.std.specs.Option.{option_map_or};
ghost use Rattle.registry_rows.specs.Columns.{IsColumn};
ghost use Rattle.registry_rows.specs.Rows.{is_at, IsRow};
ghost use Rattle.registry_rows.specs.Steps.{row_at, may_remove, unset, without};
ghost use Rattle.registry_rows.specs.Views.{plain_row, plain_rows, AreEntries};

use crate::entries::{append, remove_all};
use crate::key::Key;
use crate::row::Row;
use crate::scan::next_place;
use arrayvec::ArrayVec;
use indexmap::IndexMap;
use registry_uaddr::NoMemory;
use std::hash::BuildHasher;

/// The program of each row, in the order of the rows: four bytes a row, which stand in the value, so that none takes
/// memory.
pub type Programs = ArrayVec<u32, 1024>;

/// `append`, with the program of the row at the end of the column. `NoMemory` leaves rows and column as they were.
pub fn append_beside<S: BuildHasher>(
    rows: &mut IndexMap<Key, Row, S>,
    column: &mut Programs,
    row: Row,
) -> Result<(), NoMemory>
    requires entries { AreEntries rows.old.entries }
    requires column { IsColumn column.old.items (plain_rows rows.old.entries) }
    requires space { length rows.old.entries < 1024 }
    requires row { IsRow (plain_row row) }
    requires absent { list_any (is_at row.prog row.vers row.netid.items) (plain_rows rows.old.entries) ≡ false }
    // Entries and column keep to what they keep to,
    ensures entries { AreEntries rows.new.entries }
    ensures column { IsColumn column.new.items (plain_rows rows.new.entries) }
    // the row is behind the others,
    ensures ok { OnOk result (plain_rows rows.new.entries ≡ plain_rows rows.old.entries ++ plain_row row ∷ []) }
    // or, without memory, the rows are as they were.
    ensures err { OnErr result (plain_rows rows.new.entries ≡ plain_rows rows.old.entries) }
{
    let prog = row.prog;
    append(rows, row)?;
    column.push(prog);
    Ok(())
}

/// `remove_one`, with the program of the row out of the column: one look-up by the key's hash, and one removal. It
/// takes no memory.
pub fn remove_one_beside<S: BuildHasher>(
    rows: &mut IndexMap<Key, Row, S>,
    column: &mut Programs,
    prog: u32,
    vers: u32,
    netid: &[u8],
    owner: &[u8],
) -> bool
    requires entries { AreEntries rows.old.entries }
    requires column { IsColumn column.old.items (plain_rows rows.old.entries) }
    requires named { 0 < length netid.now }
    // Entries and column keep to what they keep to,
    ensures entries { AreEntries rows.new.entries }
    ensures column { IsColumn column.new.items (plain_rows rows.new.entries) }
    // rows and answer are those of the step,
    ensures step { let after = unset (plain_rows rows.old.entries) prog vers netid.now owner.now in
        (plain_rows rows.new.entries, result) ≡ after }
    // and where none is removed all are as they were.
    ensures refused { result ≡ false → plain_rows rows.new.entries ≡ plain_rows rows.old.entries }
{
    match place_to_free(rows, prog, vers, netid, owner) {
        Some(at) => {
            take_out_at(rows, column, at);
            true
        }
        None => false,
    }
}

// Where the row of a program, a version and a netid stands, if the owner may remove it.
fn place_to_free<S: BuildHasher>(
    rows: &IndexMap<Key, Row, S>,
    prog: u32,
    vers: u32,
    netid: &[u8],
    owner: &[u8],
) -> Option<usize>
    requires { AreEntries rows.now.entries }
    ensures may { let row = row_at (plain_rows rows.now.entries) prog vers netid.now in
        is_some result ≡ option_map_or (may_remove owner.now) row false }
    ensures within { IfSome result (λ at. at < length rows.now.entries) }
    // What is left without the row at the place is what is left without the rows of the key.
    ensures one { let rest = without (is_at prog vers netid.now) (plain_rows rows.now.entries) in
        IfSome result (λ at. remove (plain_rows rows.now.entries) at ≡ rest.0) }
{
    if netid.len() > 64 {
        return None;
    }
    match rows.get_full(&Key::new(prog, vers, netid)) {
        Some((at, _key, row)) => {
            if row.may_remove(owner) {
                Some(at)
            } else {
                None
            }
        }
        None => None,
    }
}

// Removes the row at a place.
fn take_out_at<S: BuildHasher>(rows: &mut IndexMap<Key, Row, S>, column: &mut Programs, at: usize)
    requires entries { AreEntries rows.old.entries }
    requires column { IsColumn column.old.items (plain_rows rows.old.entries) }
    requires within { at < length rows.old.entries }
    ensures entries { AreEntries rows.new.entries }
    ensures rows { plain_rows rows.new.entries ≡ remove (plain_rows rows.old.entries) at }
    ensures column { IsColumn column.new.items (plain_rows rows.new.entries) }
{
    rows.shift_remove_index(at);
    column.remove(at);
}

/// `remove_all`, with the programs of the rows that are left in the column. It takes no memory.
pub fn remove_all_beside<S: BuildHasher>(
    rows: &mut IndexMap<Key, Row, S>,
    column: &mut Programs,
    prog: u32,
    vers: u32,
    netid: &[u8],
    owner: &[u8],
) -> bool
    requires entries { AreEntries rows.old.entries }
    requires column { IsColumn column.old.items (plain_rows rows.old.entries) }
    // Entries and column keep to what they keep to,
    ensures entries { AreEntries rows.new.entries }
    ensures column { IsColumn column.new.items (plain_rows rows.new.entries) }
    // rows and answer are those of the step,
    ensures step { let after = unset (plain_rows rows.old.entries) prog vers netid.now owner.now in
        (plain_rows rows.new.entries, result) ≡ after }
    // and where none is removed all are as they were.
    ensures refused { result ≡ false → plain_rows rows.new.entries ≡ plain_rows rows.old.entries }
{
    let is_gone = remove_all(rows, prog, vers, netid, owner);
    if is_gone {
        // (the rows before the first of the program stand where they stood)
        let first = next_place(column, prog, 0);
        column.truncate(first);
        fill(rows, column);
    }
    is_gone
}

// Puts the programs of the rows behind those that a column has.
fn fill<S: BuildHasher>(rows: &IndexMap<Key, Row, S>, column: &mut Programs)
    requires entries { AreEntries rows.now.entries }
    requires begun { IsColumn column.old.items (take (length column.old.items) (plain_rows rows.now.entries)) }
    ensures { IsColumn column.new.items (plain_rows rows.now.entries) }
{
    while let Some((_key, row)) = rows.get_index(column.len()) {
        column.push(row.prog);
    }
}
