//! The rows as values.
ghost use Rattle.std.specs.Prelude.{◌≡◌, IfOk, option_map};
ghost use Rattle.xdr_types.specs.View.{tree};
ghost use Rattle.xdr_types.specs.Within.{FitsWithin};
ghost use Rattle.registry_rows.specs.Rows.{IsRegistry};
ghost use Rattle.registry_rows.specs.Views.{plain_row};
ghost use Rattle.registry_dumps.specs.Dir.{dir_kinds, rpcb_list_kind, mapping_list_kind};
ghost use Rattle.registry_dumps.specs.Dumps.{rpcb_list, mapping_list, dump_limits};
ghost use Rattle.rpc_directory.specs.Private.Listings.{item_of, list_of};

use crate::directory::Directory;
use registry_dumps::{linked, mapping, rpcb};
use registry_rows::Row;
use registry_uaddr::NoMemory;
use std::alloc::Global;
use std::hash::BuildHasher;
use xdr_types::Value;

// The two lists that are dumped.
#[derive(Clone, Copy)]
enum Listing {
    Rpcbs,
    Mappings,
}

// What a row adds to a list, if it adds anything.
fn item(alloc: Global, listing: Listing, row: &Row) -> Result<Option<Value>, NoMemory>
    ensures { IfOk result (λ v. option_map tree v ≡ item_of listing (plain_row row.now)) }
{
    match listing {
        Listing::Rpcbs => Ok(Some(rpcb(alloc, row)?)),
        Listing::Mappings => Ok(mapping(alloc, row)?),
    }
}

impl<S: BuildHasher> Directory<S> {
    /// All rows in order as an `rpcblist` (RFC 1833 section 2.2.1, RPCBPROC_DUMP): a value of the kind at place 14 of
    /// `directory_schema`, within depth 4096 and 16777216 bytes. Its only error is `NoMemory`.
    pub fn dump(&self, alloc: Global) -> Result<Value, NoMemory>
        // It has all rows in their order,
        ensures all { IfOk result (λ v. tree v ≡ rpcb_list self.now) }
        // and is a value of its kind.
        ensures fits { IfOk result (λ v. FitsWithin dir_kinds rpcb_list_kind dump_limits (tree v)) }
    {
        let list = self.list(alloc, Listing::Rpcbs)?;
        Ok(list)
    }

    /// The rows over `tcp` and `udp` whose address is a universal address over IPv4, in order, as a `pmaplist` (RFC
    /// 1833 section 3.2, PMAPPROC_DUMP). It is a value of the kind at place 18 of `directory_schema`, within depth 4096
    /// and 16777216 bytes. Its only error is `NoMemory`.
    pub fn dump_ports(&self, alloc: Global) -> Result<Value, NoMemory>
        // It has all mappings in their order,
        ensures all { IfOk result (λ v. tree v ≡ mapping_list self.now) }
        // and is a value of its kind.
        ensures fits { IfOk result (λ v. FitsWithin dir_kinds mapping_list_kind dump_limits (tree v)) }
    {
        let list = self.list(alloc, Listing::Mappings)?;
        Ok(list)
    }

    // The list of what the rows add to it, which is made from the last row on.
    fn list(&self, alloc: Global, listing: Listing) -> Result<Value, NoMemory>
        ensures all { IfOk result (λ v. tree v ≡ list_of listing self.now) }
        ensures registry { IsRegistry self.now }
    {
        let mut list = Value::Maybe(None);
        let mut left = self.rows();
        while left > 0 {
            left -= 1;
            match self.row(left) {
                Some(row) => match item(alloc, listing, row)? {
                    Some(first) => list = linked(alloc, first, list)?,
                    None => {}
                },
                None => unreachable!(),
            }
        }
        Ok(list)
    }
}
