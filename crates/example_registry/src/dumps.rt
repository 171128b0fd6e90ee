//! The rows of a directory as values, and the schema of their kinds.
ghost use Rattle.std.specs.Prelude.{◌≡◌, ◌∷◌, [], codes, true, Some, None, IfOk};
ghost use Rattle.xdr_types.specs.View.{tree};
ghost use Rattle.registry_dumps.specs.Dumps.{linked, group, number, content};

use registry_rows::prot_of_netid;
use rpc_directory::{Directory, NoMemory, directory_schema};
use std::alloc::Global;
use std::hash::BuildHasher;
use xdr_types::{KindId, Limits, Value, fits};

/// The dump of a directory without rows is the empty list.
pub fn empty_dump<S: BuildHasher + Drop>(alloc: Global, hasher: S) -> Result<Value, NoMemory>
    ensures { IfOk result (λ list. tree list ≡ linked []) }
{
    let directory = Directory::new(alloc, hasher);
    directory.dump(alloc)
}

/// The dump of one row is a list of one `rpcb` (RFC 1833 section 2.1).
pub fn dump_of_a_row<S: BuildHasher + Drop>(alloc: Global, hasher: S) -> Result<Value, NoMemory>
    ensures { let address = content (codes "127.0.0.1.8.1") in
        let row = group (number 7 ∷ number 1 ∷ content (codes "tcp") ∷ address ∷ content (codes "1000") ∷ []) in
        IfOk result (λ list. tree list ≡ linked (row ∷ [])) }
{
    let mut directory = Directory::new(alloc, hasher);
    directory.set(alloc, 7, 1, b"tcp", b"127.0.0.1.8.1", b"1000")?;
    directory.dump(alloc)
}

/// Each row is in the dump, in order of insertion.
pub fn dump_of_two_rows<S: BuildHasher + Drop>(alloc: Global, hasher: S) -> Result<Value, NoMemory>
    ensures { let first = group (number 7 ∷ number 1 ∷ content (codes "tcp") ∷ content (codes "a") ∷ content [] ∷ []) in
        let second = group (number 7 ∷ number 1 ∷ content (codes "udp") ∷ content (codes "b") ∷ content [] ∷ []) in
        IfOk result (λ list. tree list ≡ linked (first ∷ second ∷ [])) }
{
    let mut directory = Directory::new(alloc, hasher);
    directory.set(alloc, 7, 1, b"tcp", b"a", b"")?;
    directory.set(alloc, 7, 1, b"udp", b"b", b"")?;
    directory.dump(alloc)
}

/// `dump_ports` leaves out rows over other transports than `tcp` and `udp`, also at an address over IPv4.
pub fn dump_without_ports<S: BuildHasher + Drop>(
    alloc: Global,
    hasher: S,
) -> Result<Value, NoMemory>
    ensures { IfOk result (λ list. tree list ≡ linked []) }
{
    let mut directory = Directory::new(alloc, hasher);
    directory.set(alloc, 9, 1, b"tcp6", b"1.2.3.4.5.6", b"unknown")?;
    directory.dump_ports(alloc)
}

/// `tcp` and `udp` have the protocols 6 and 17 in the list of version 2, and no other transport has one (RFC 1833
/// section 3.1).
pub fn numbers_of_transports() -> (Option<u32>, Option<u32>, Option<u32>)
    ensures { result ≡ (Some 6, Some 17, None) }
{
    (
        prot_of_netid(b"tcp"),
        prot_of_netid(b"udp"),
        prot_of_netid(b"tcp6"),
    )
}

/// A dump is a value of its kind in the schema, within a server's limits.
pub fn dump_fits<S: BuildHasher>(alloc: Global, directory: &Directory<S>) -> Result<bool, NoMemory>
    ensures { IfOk result (λ fits. fits ≡ true) }
{
    let schema = directory_schema(alloc)?;
    let list = directory.dump(alloc)?;
    match Limits::new(4096, 16777216) {
        Some(limits) => Ok(fits(&schema, KindId { place: 14 }, &list, limits)),
        None => Ok(false),
    }
}

/// `rpcblist` and `pmaplist` are names of the schema (RFC 1833 sections 2.1 and 3.1).
pub fn lists_are_named(alloc: Global) -> Result<(Option<KindId>, Option<KindId>), NoMemory>
    ensures { IfOk result (λ ids. ids ≡ (Some (record { place = 14 }), Some (record { place = 18 }))) }
{
    let schema = directory_schema(alloc)?;
    Ok((schema.named("rpcblist"), schema.named("pmaplist")))
}
