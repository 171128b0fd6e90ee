//! The look-up of a row, which falls back to the greatest version.
ghost use Rattle.std.specs.Prelude.{◌≡◌, ◌+◌, true, nat_lt, option_map, filter, is_some, IfSome, MatchOption};
ghost use Rattle.registry_rows.specs.Columns.{IsColumn};
ghost use Rattle.std.specs.List.{list_any};
ghost use Rattle.std.specs.Option.{option_map_or};
ghost use Rattle.registry_rows.specs.LookUp.{look_up, greatest, is_over};
ghost use Rattle.registry_rows.specs.Rows.{IsRow};
ghost use Rattle.registry_rows.specs.Views.{plain_row, plain_rows, AreEntries};

use crate::entries::find;
use crate::key::Key;
use crate::row::Row;
use crate::scan::{has_many, next_place};
use indexmap::IndexMap;
use std::hash::BuildHasher;

/// The row of a program, a version and a netid; where there is none, the row of greatest version with that program and
/// netid. The first is one look-up by the key's hash, the second a pass over the rows besides. It takes no memory.
pub fn look_up<'a, S: BuildHasher>(
    rows: &'a IndexMap<Key, Row, S>,
    prog: u32,
    vers: u32,
    netid: &[u8],
) -> Option<&'a Row>
    requires { AreEntries rows.now.entries }
    // What is found is the row that the definition finds;
    ensures value { let row = look_up (plain_rows rows.now.entries) prog vers netid.now in
        option_map (λ r. plain_row r.now) result ≡ row }
    // one is found where the program has a row over the transport,
    ensures some { is_some result ≡ list_any (is_over prog netid.now) (plain_rows rows.now.entries) }
    // and it keeps to the bounds of a row.
    ensures row { IfSome result (λ r. IsRow (plain_row r.now)) }
{
    match find(rows, prog, vers, netid) {
        Some(row) => Some(row),
        None => find_greatest(rows, prog, netid),
    }
}

/// `look_up` with the programs of the rows in a column. Where there is no row of the version, the column is gone over
/// in place of the rows, unless more than a tenth of these have the program. It takes no memory.
pub fn look_up_beside<'a, S: BuildHasher>(
    rows: &'a IndexMap<Key, Row, S>,
    column: &[u32],
    prog: u32,
    vers: u32,
    netid: &[u8],
) -> Option<&'a Row>
    requires entries { AreEntries rows.now.entries }
    requires column { IsColumn column.now (plain_rows rows.now.entries) }
    // What is found is the row that the definition finds;
    ensures value { let row = look_up (plain_rows rows.now.entries) prog vers netid.now in
        option_map (λ r. plain_row r.now) result ≡ row }
    // one is found where the program has a row over the transport,
    ensures some { is_some result ≡ list_any (is_over prog netid.now) (plain_rows rows.now.entries) }
    // and it keeps to the bounds of a row.
    ensures row { IfSome result (λ r. IsRow (plain_row r.now)) }
{
    match find(rows, prog, vers, netid) {
        Some(row) => Some(row),
        None => find_greatest_beside(rows, column, prog, netid),
    }
}

// The row of greatest version of a program over a transport, of the rows whose program the column has.
fn find_greatest_beside<'a, S: BuildHasher>(
    rows: &'a IndexMap<Key, Row, S>,
    column: &[u32],
    prog: u32,
    netid: &[u8],
) -> Option<&'a Row>
    requires entries { AreEntries rows.now.entries }
    requires column { IsColumn column.now (plain_rows rows.now.entries) }
    ensures value { let over = filter (is_over prog netid.now) (plain_rows rows.now.entries) in
        option_map (λ r. plain_row r.now) result ≡ greatest over }
    ensures row { IfSome result (λ r. IsRow (plain_row r.now)) }
{
    if has_many(column, prog) {
        return find_greatest(rows, prog, netid);
    }
    let mut greatest = None;
    let mut at = next_place(column, prog, 0);
    while let Some((_key, row)) = rows.get_index(at) {
        if row.is_over(prog, netid) && is_greater(row, greatest) {
            greatest = Some(row);
        }
        at = next_place(column, prog, at + 1);
    }
    greatest
}

// The row of greatest version of a program over a transport. It is kept out of its callers, so that the program that
// each row is compared with stays in a register.
#[inline(never)]
fn find_greatest<'a, S: BuildHasher>(
    rows: &'a IndexMap<Key, Row, S>,
    prog: u32,
    netid: &[u8],
) -> Option<&'a Row>
    requires { AreEntries rows.now.entries }
    ensures value { let over = filter (is_over prog netid.now) (plain_rows rows.now.entries) in
        option_map (λ r. plain_row r.now) result ≡ greatest over }
    ensures row { IfSome result (λ r. IsRow (plain_row r.now)) }
{
    let mut greatest = None;
    let mut above = 0;
    for row in rows.values() {
        if row.is_over(prog, netid) && is_above(row, greatest, above) {
            greatest = Some(row);
            above = u64::from(row.vers) + 1;
        }
    }
    greatest
}

// Whether the row's version is greater than that of another, or there is no other.
fn is_greater(row: &Row, other: Option<&Row>) -> bool
    ensures { result ≡ option_map_or (λ r. nat_lt r.now.vers row.now.vers) other.entry true }
{
    match other {
        Some(other) => other.vers < row.vers,
        None => true,
    }
}

// The same, where the least version that is greater than that of the other is known: so a loop does not ask what the
// other is.
#[inline(always)]
fn is_above(row: &Row, other: Option<&Row>, above: u64) -> bool
    requires { MatchOption other (above ≡ 0) (λ r. above ≡ r.now.vers + 1) }
    ensures { result ≡ option_map_or (λ r. nat_lt r.now.vers row.now.vers) other.entry true }
{
    let _other = other;
    above <= u64::from(row.vers)
}
