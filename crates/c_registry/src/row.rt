//! The rows of a registry, as C sees them.
ghost use Rattle.std.specs.Prelude.{◌≡◌, [], ◌∷◌, ◌++◌, length, IfOk, OnOk, MatchBool};
ghost use Rattle.registry_rows.specs.Views.{plain_row};
ghost use Rattle.c_messages.specs.Parts.{part};
ghost use Rattle.c_registry.specs.Listed.{buffers, ArePut};
ghost use Rattle.c_registry.specs.Private.Laid.{row_behind, bytes_behind, HaveTooFew};

use c_messages::Part;
use registry_rows::Row;
use rpc_message::NoMemory;
use std::alloc::Global;

/// A row: its numbers, and where its texts lie in the bytes beside the rows (RFC 1833 section 2.1).
#[repr(C)]
#[derive(Clone, Copy)]
pub struct RowParts {
    pub program: u32,
    pub version: u32,
    pub netid: Part,
    pub address: Part,
    pub owner: Part,
}

/// Rows, and the bytes of their texts, one directly behind the other.
#[derive(Drop)]
pub struct RowList {
    pub rows: Vec<RowParts>,
    pub bytes: Vec<u8>,
}

/// Puts a text behind the bytes, and tells where it lies.
fn push_text(bytes: &mut Vec<u8>, text: &[u8]) -> Result<Part, NoMemory>
    ensures part { IfOk result (λ p. p ≡ part (length bytes.old.items) text.now) }
    ensures bytes { OnOk result (bytes.new.items ≡ bytes.old.items ++ text.now) }
{
    let at = bytes.len();
    bytes.extend_from_slice(text)?;
    Ok(Part {
        at,
        count: text.len(),
    })
}

impl RowList {
    /// No rows. It takes no memory.
    pub fn new(alloc: Global) -> RowList
        ensures rows { result.rows.items ≡ [] }
        ensures bytes { result.bytes.items ≡ [] }
    {
        RowList {
            rows: Vec::new(alloc),
            bytes: Vec::new(alloc),
        }
    }

    /// Adds a row at the end.
    pub fn push(&mut self, row: &Row) -> Result<(), NoMemory>
        ensures rows { OnOk result (self.new.rows.items
            ≡ self.old.rows.items ++ row_behind self.old.bytes.items (plain_row row.now) ∷ []) }
        ensures bytes { OnOk result
            (self.new.bytes.items ≡ bytes_behind self.old.bytes.items (plain_row row.now)) }
    {
        let netid = push_text(&mut self.bytes, &row.netid)?;
        let address = push_text(&mut self.bytes, &row.address)?;
        let owner = push_text(&mut self.bytes, &row.owner)?;
        self.rows.push(RowParts {
            program: row.prog,
            version: row.vers,
            netid,
            address,
            owner,
        })?;
        Ok(())
    }

    /// Puts rows and bytes at the front of the buffers. Where one of them does not go into its buffer both stay as they
    /// are.
    pub fn put(&self, rows: &mut [RowParts], bytes: &mut [u8]) -> bool
        ensures { let old = buffers rows.old bytes.old in let new = buffers rows.new bytes.new in
            MatchBool result (ArePut self.now.rows.items self.now.bytes.items old new)
            (HaveTooFew self.now.rows.items self.now.bytes.items old new) }
    {
        if rows.len() < self.rows.len() || bytes.len() < self.bytes.len() {
            return false;
        }
        rows[..self.rows.len()].copy_from_slice(&self.rows);
        bytes[..self.bytes.len()].copy_from_slice(&self.bytes);
        true
    }
}
