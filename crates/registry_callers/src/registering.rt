//! A SET of a row that may be there already.
ghost use Rattle.std.specs.Prelude.{◌≡◌, false, slice_get};
ghost use Rattle.std.specs.Option.{option_map_or};
ghost use Rattle.std.specs.List.{list_any};
ghost use Rattle.registry_rows.specs.Views.{plain_row};
ghost use Rattle.registry_answer.specs.Views.{netid_of};
ghost use Rattle.registry_callers.specs.From as plain;
ghost use Rattle.registry_callers.specs.Private.Registering.{AppendsAgain};

use registry_answer::{Appended, Transport, append_answer};
use registry_rows::Row;
use rpc_directory::Directory;
use std::alloc::Global;
use std::hash::{BuildHasher, BuildHasherDefault, DefaultHasher};

/// What became of a message that may set a row that is there.
#[derive(Clone, Copy)]
pub enum Again {
    /// It sets no such row.
    Other,
    /// It does, and the reply TRUE was written.
    Reply,
    /// Memory was refused.
    OutOfMemory,
}

/// Writes the reply to a SET of a row that is there with the same address and owner. Where it is none, and where memory
/// is refused, `out` holds what it held. What a message sets is what a registry without rows has after it.
pub fn append_again<S: BuildHasher>(
    alloc: Global,
    directory: &Directory<S>,
    transport: Transport,
    asked: &[u8],
    out: &mut Vec<u8>,
) -> Again
    ensures { AppendsAgain directory.now (netid_of transport) asked.now out.old.items out.new.items result }
{
    let before = out.len();
    let mut made = Directory::new(alloc, BuildHasherDefault::<DefaultHasher>::new());
    match append_answer(alloc, &mut made, transport, asked, out) {
        Appended::OutOfMemory { xid: _xid } => Again::OutOfMemory,
        Appended::Nothing => Again::Other,
        Appended::Reply => {
            if is_there(directory, &made) {
                return Again::Reply;
            }
            out.truncate(before);
            Again::Other
        }
    }
}

/// Whether the other registry has one row, and the first has one as it.
fn is_there<S: BuildHasher, T: BuildHasher>(directory: &Directory<S>, made: &Directory<T>) -> bool
    ensures { result ≡ plain.is_there directory.now made.now }
{
    if made.rows() != 1 {
        return false;
    }
    match made.row(0) {
        Some(row) => holds(directory, row),
        None => false,
    }
}

/// Whether the registry has a row as this one.
fn holds<S: BuildHasher>(directory: &Directory<S>, row: &Row) -> bool
    ensures { result ≡ list_any (plain.is_same (plain_row row.now)) directory.now }
{
    for index in 0..directory.rows() {
        if is_at(directory, index, row) {
            return true;
        }
    }
    false
}

/// Whether the row at an index, if one is there, is as this one.
fn is_at<S: BuildHasher>(directory: &Directory<S>, index: u32, row: &Row) -> bool
    ensures { result ≡ option_map_or (plain.is_same (plain_row row.now)) (slice_get directory.now index) false }
{
    match directory.row(index) {
        Some(held) => is_same(row, held),
        None => false,
    }
}

/// Whether one row is as the other.
fn is_same(row: &Row, held: &Row) -> bool
    ensures { result ≡ plain.is_same (plain_row row.now) (plain_row held.now) }
{
    row.prog == held.prog
        && row.vers == held.vers
        && row.netid.as_slice() == held.netid.as_slice()
        && (row.address.as_slice() == held.address.as_slice()
            && row.owner.as_slice() == held.owner.as_slice())
}
