//! The rows of a registry, listed for C.
ghost use Rattle.std.specs.Prelude.{◌≡◌, [], IfOk, option_map};
ghost use Rattle.c_registry.specs.Held.{held_of};
ghost use Rattle.c_registry.specs.Listed.{buffers, texts_of, IsListed, IsListedBy, ReportsRows};
ghost use Rattle.c_registry.specs.Private.Laid.{rows_behind};

use super::handle::Registry;
use super::hasher::Seeded;
use super::listed::{Listed, RowCounts};
use super::row::{RowList, RowParts};
use super::state::State;
use c_handles::{keep, taken};
use rpc_directory::Directory;
use rpc_message::NoMemory;
use std::alloc::Global;

/// The rows in their order, and the bytes of their texts.
fn list_of(alloc: Global, directory: &Directory<Seeded>) -> Result<RowList, NoMemory>
    ensures rows { IfOk result (λ l. l.rows.items ≡ rows_behind [] directory.now) }
    ensures bytes { IfOk result (λ l. l.bytes.items ≡ texts_of directory.now) }
{
    let mut list = RowList::new(alloc);
    let rows = directory.rows();
    for index in 0..rows {
        match directory.row(index) {
            Some(row) => list.push(row)?,
            None => unreachable!(),
        }
    }
    Ok(list)
}

/// Puts the rows into the buffers.
fn list_into(alloc: Global, state: &State, rows: &mut [RowParts], bytes: &mut [u8]) -> Listed
    ensures { IsListed (held_of state.now).rows (buffers rows.old bytes.old) (buffers rows.new bytes.new) result }
{
    let Ok(list) = list_of(alloc, &state.directory) else {
        return Listed::NoMemory;
    };
    let counts = RowCounts {
        rows: list.rows.len(),
        bytes: list.bytes.len(),
    };
    if list.put(rows, bytes) {
        Listed::Whole(counts)
    } else {
        Listed::NoRoom(counts)
    }
}

/// Puts the rows of the registry into the buffers, as `oncrpc_registry_rows` says.
pub fn list_rows(
    alloc: Global,
    handle: &mut Registry,
    rows: &mut [RowParts],
    bytes: &mut [u8],
    counts: &mut RowCounts,
) -> u32
    // What the handle holds stays.
    ensures stay { handle.new.held ≡ handle.old.held }
    // The status and the counts are those of an answer that is right by it.
    ensures answer { ReportsRows (IsListedBy (option_map held_of handle.old.held) (buffers rows.old bytes.old)
        (buffers rows.new bytes.new)) result counts.new }
{
    let answer = match taken(alloc, handle) {
        Some(state) => {
            let answer = list_into(alloc, &state, rows, bytes);
            keep(alloc, handle, state);
            answer
        }
        None => Listed::NoRegistry,
    };
    *counts = answer.counts();
    answer.status()
}
