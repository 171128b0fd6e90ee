//! The rows of the registry, and the calls of versions 3 and 4.
ghost use Rattle.std.specs.Prelude.{◌≡◌, ◌≤◌, [], length, false, OnErr, IfOk, IfSome, None, ◌↔◌, option_map, slice_get};
ghost use Rattle.std.specs.Prelude.{OnOk, is_some};
ghost use Rattle.std.specs.List.{list_any};
ghost use Rattle.std.specs.Option.{option_map_or};
ghost use Rattle.registry_rows.specs.LookUp as looking;
ghost use Rattle.registry_rows.specs.Steps as step;
ghost use Rattle.registry_rows.specs.Ports as ports;
ghost use Rattle.registry_rows.specs.Rows.{row_of, is_at, IsRow, IsRegistry};
ghost use Rattle.registry_rows.specs.Views.{plain_row};
ghost use Rattle.xdr_types.specs.Within.{FitsWithin};
ghost use Rattle.registry_dumps.specs.Dir.{dir_kinds, rpcb_list_kind, mapping_list_kind};
ghost use Rattle.registry_dumps.specs.Dumps.{rpcb_list, mapping_list, dump_limits};
ghost use Rattle.rpc_directory.specs.Private.Own.{set_both};

use crate::ports::any_host;
use indexmap::IndexMap;
use registry_rows::{
    Key, PROGRAM, Programs, Row, append_beside, count, find, look_up_beside, remove_all_beside,
    remove_one_beside,
};
use registry_uaddr::NoMemory;
use std::alloc::Global;
use std::hash::BuildHasher;
use std::marker::Model;

/// The rows of a registry in order of insertion, at most 1024, no program, version and netid twice.
#[derive(Drop)]
pub struct Directory<S: BuildHasher> {
    rows: IndexMap<Key, Row, S>,
    // The program of each row, side by side.
    programs: Programs,
}

impl<S: BuildHasher> Model for Directory<S> {
    ghost use Rattle.std.specs.Prelude.{List};
    ghost use Rattle.registry_rows.specs.Rows.{Row as PlainRow};
    ghost use Rattle.registry_rows.specs.Views.{plain_rows, AreEntries};
    ghost use Rattle.registry_rows.specs.Columns.{IsColumn};

    ghost Value = { List PlainRow };

    ghost view = { λ d. plain_rows d.rows.entries };

    ghost invariant = { λ d. AreEntries d.rows.entries
        × IsColumn d.programs.items (plain_rows d.rows.entries) };
}

impl<S: BuildHasher> Directory<S> {
    /// No rows. It takes no memory.
    pub fn new(alloc: Global, hasher: S) -> Self
        ensures { result ≡ [] }
    {
        Directory {
            rows: IndexMap::with_hasher(alloc, hasher),
            programs: Programs::new(),
        }
    }

    /// The registry's own rows: program 100000 in versions 2, 3 and 4, each over `tcp` and then over `udp`, at every
    /// host and this port, owned by `superuser` (RFC 1833 sections 2 and 3). Its only error is `NoMemory`.
    pub fn start(alloc: Global, hasher: S, port: u16) -> Result<Self, NoMemory>
    where
        S: Drop,
        ensures { IfOk result (λ d. d ≡ ports.own_rows port) }
    {
        let mut directory = Directory::new(alloc, hasher);
        let address = any_host(alloc, port)?;
        directory.set_own(alloc, 2, &address)?;
        directory.set_own(alloc, 3, &address)?;
        directory.set_own(alloc, 4, &address)?;
        Ok(directory)
    }

    // Adds the registry's own rows of a version, where they may be added.
    fn set_own(&mut self, alloc: Global, vers: u32, address: &[u8]) -> Result<(), NoMemory>
        ensures { OnOk result (self.new ≡ set_both self.old vers address.now) }
    {
        self.set(alloc, PROGRAM, vers, b"tcp", address, b"superuser")?;
        self.set(alloc, PROGRAM, vers, b"udp", address, b"superuser")?;
        Ok(())
    }

    /// How many rows there are: at most 1024. It takes no memory. Its clauses are what always holds of the rows: each
    /// keeps to its bounds, and no program, version and netid is there twice. As a dump they fit the kinds at places 14
    /// and 18 of `directory_schema` within depth 4096 and 16777216 bytes.
    pub fn rows(&self) -> u32
        // How many rows the list has,
        ensures value { result ≡ length self.now }
        // 1024 at most.
        ensures few { result ≤ 1024 }
        // They are the rows of a registry,
        ensures registry { IsRegistry self.now }
        // and fit `rpcblist`
        ensures dump { FitsWithin dir_kinds rpcb_list_kind dump_limits (rpcb_list self.now) }
        // and `pmaplist` within the limits of a dump.
        ensures dump_ports { FitsWithin dir_kinds mapping_list_kind dump_limits (mapping_list self.now) }
    {
        let rows = &self.rows;
        count(rows)
    }

    /// The row at an index, in order of insertion from 0; `None` at `rows()` and past it. Its netid has 1 to 64 bytes,
    /// its address 1 to 256 and its owner at most 10. It takes no memory.
    pub fn row(&self, index: u32) -> Option<&Row>
        // It is the row of the list,
        ensures value { option_map (λ r. plain_row r.now) result ≡ slice_get self.now index }
        // and keeps to the bounds of a row.
        ensures row { IfSome result (λ r. IsRow (plain_row r.now)) }
    {
        match self.rows.get_index(index as usize) {
            Some((_key, row)) => Some(row),
            None => None,
        }
    }

    // The row of a program, a version and a netid.
    fn find(&self, prog: u32, vers: u32, netid: &[u8]) -> Option<&Row>
        ensures value { option_map (λ r. plain_row r.now) result ≡ step.row_at self.now prog vers netid.now }
        ensures some { is_some result ≡ list_any (is_at prog vers netid.now) self.now }
        ensures row { IfSome result (λ r. IsRow (plain_row r.now)) }
    {
        let rows = &self.rows;
        find(rows, prog, vers, netid)
    }

    // That row; where there is none, the row of greatest version with that program and netid.
    pub(crate) fn look_up(&self, prog: u32, vers: u32, netid: &[u8]) -> Option<&Row>
        ensures value { option_map (λ r. plain_row r.now) result ≡ looking.look_up self.now prog vers netid.now }
        ensures some { is_some result ≡ list_any (looking.is_over prog netid.now) self.now }
        ensures row { IfSome result (λ r. IsRow (plain_row r.now)) }
    {
        let rows = &self.rows;
        look_up_beside(rows, self.programs.as_slice(), prog, vers, netid)
    }

    // Whether there is a row of a program, a version and a netid.
    fn has(&self, prog: u32, vers: u32, netid: &[u8]) -> bool
        ensures { result ≡ list_any (is_at prog vers netid.now) self.now }
    {
        self.find(prog, vers, netid).is_some()
    }

    /// The universal address of a version of a program over a transport, at most 256 bytes (RFC 1833 section 2.2.1,
    /// RPCBPROC_GETADDR): the registered one. Where that version is not registered, it is the address of the greatest
    /// version of the program that is registered over the transport; it is empty exactly where none is. For a version
    /// that is registered it is one look-up by the key's hash. So what it costs does not grow with the rows, unless the
    /// hasher puts many keys together. For another it is a pass over the programs of all rows besides. It takes no
    /// memory.
    pub fn getaddr(&self, prog: u32, vers: u32, netid: &[u8]) -> &[u8]
        // It is the address that the definition finds,
        ensures value { result.now ≡ looking.getaddr self.now prog vers netid.now }
        // has at most 256 bytes,
        ensures short { length result.now ≤ 256 }
        // and empty exactly where the program has no row over the transport.
        ensures empty { (result.now ≡ []) ↔ (list_any (looking.is_over prog netid.now) self.now ≡ false) }
    {
        address_of(self.look_up(prog, vers, netid))
    }

    /// The registered universal address of just this version of a program over a transport, at most 256 bytes, and
    /// empty exactly where there is none (RFC 1833 section 2.2.1, RPCBPROC_GETVERSADDR). It is one look-up by the key's
    /// hash, as `getaddr` of a version that is registered. It takes no memory.
    pub fn getversaddr(&self, prog: u32, vers: u32, netid: &[u8]) -> &[u8]
        // It is the address that the definition finds,
        ensures value { result.now ≡ step.getversaddr self.now prog vers netid.now }
        // has at most 256 bytes,
        ensures short { length result.now ≤ 256 }
        // and empty exactly where the version has no row.
        ensures empty { (result.now ≡ []) ↔ (step.row_at self.now prog vers netid.now ≡ None) }
    {
        address_of(self.find(prog, vers, netid))
    }

    /// Adds a row at the end (RFC 1833 section 2.2.1, RPCBPROC_SET). False, with nothing changed: an empty netid or
    /// address, a netid over 64 bytes, an address over 256, the row's key is there, or 1024 rows are. `NoMemory`
    /// changes nothing either: all memory is taken before the rows change.
    pub fn set(
        &mut self,
        alloc: Global,
        prog: u32,
        vers: u32,
        netid: &[u8],
        address: &[u8],
        owner: &[u8],
    ) -> Result<bool, NoMemory>
        requires { length owner.now ≤ 10 }
        // Rows and answer are those of the step;
        ensures ok { let row = row_of prog vers netid.now address.now owner.now in
            IfOk result (λ done. (self.new, done) ≡ step.set self.old row) }
        // false changes nothing,
        ensures refused { IfOk result (λ done. done ≡ false → self.new ≡ self.old) }
        // nor does an allocation failure.
        ensures err { OnErr result (self.new ≡ self.old) }
    {
        if !self.may_add(prog, vers, netid, address) {
            return Ok(false);
        }
        let row = Row {
            prog,
            vers,
            netid: Vec::from_slice(alloc, netid)?,
            address: Vec::from_slice(alloc, address)?,
            owner: Vec::from_slice(alloc, owner)?,
        };
        append_beside(&mut self.rows, &mut self.programs, row)?;
        Ok(true)
    }

    // Whether a row may be added.
    fn may_add(&self, prog: u32, vers: u32, netid: &[u8], address: &[u8]) -> bool
        ensures { result ≡ step.may_add self.now (row_of prog vers netid.now address.now []) }
    {
        !netid.is_empty()
            && !address.is_empty()
            && netid.len() <= 64
            && address.len() <= 256
            && self.rows() < 1024
            && !self.has(prog, vers, netid)
    }

    /// Removes the row of a program, a version and a netid, or with an empty netid every row of the program and version
    /// (RFC 1833 section 2.2.1, RPCBPROC_UNSET). A row goes only where its owner is `owner`, or `owner` is `superuser`.
    /// True exactly where at least one was removed; the rest keep their order, and false changes nothing. With a netid
    /// it is one look-up and one removal, which moves the rows behind it up by one; without one it is a pass over all
    /// rows. It takes no memory.
    pub fn unset(&mut self, prog: u32, vers: u32, netid: &[u8], owner: &[u8]) -> bool
        // Rows and answer are those of the step,
        ensures value { (self.new, result) ≡ step.unset self.old prog vers netid.now owner.now }
        // and false changes nothing.
        ensures refused { result ≡ false → self.new ≡ self.old }
    {
        if netid.is_empty() {
            remove_all_beside(&mut self.rows, &mut self.programs, prog, vers, netid, owner)
        } else {
            remove_one_beside(&mut self.rows, &mut self.programs, prog, vers, netid, owner)
        }
    }
}

// The address of a row, empty where there is none.
fn address_of(row: Option<&Row>) -> &[u8]
    requires { IfSome row (λ r. IsRow (plain_row r.now)) }
    ensures value { let plain = option_map (λ r. plain_row r.now) row.entry in
        result.now ≡ option_map_or (λ r. r.address) plain [] }
    ensures short { length result.now ≤ 256 }
    ensures empty { (result.now ≡ []) ↔ (option_map (λ r. plain_row r.now) row.entry ≡ None) }
{
    match row {
        Some(row) => &row.address,
        None => &[],
    }
}
