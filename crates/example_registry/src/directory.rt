//! What the calls of a directory answer, one after another.
ghost use Rattle.std.specs.Prelude.{◌≡◌, ◌≤◌, length, true, false, IfOk};
ghost use Rattle.registry_rows.specs.Ports.{get_port};

use rpc_directory::{Directory, NoMemory};
use std::alloc::Global;
use std::hash::BuildHasher;

/// A new directory has no rows.
pub fn new_has_no_rows<S: BuildHasher + Drop>(alloc: Global, hasher: S) -> u32
    ensures { result ≡ 0 }
{
    let directory = Directory::new(alloc, hasher);
    directory.rows()
}

/// A directory starts with the registry's own six rows, over `tcp` and `udp`, at the port that it is given (RFC 1833
/// sections 2 and 3).
pub fn starts_with_itself<S: BuildHasher + Drop>(
    alloc: Global,
    hasher: S,
) -> Result<(u32, u32, u32), NoMemory>
    ensures { IfOk result (λ found. found ≡ (6, 111, 111)) }
{
    let directory = Directory::start(alloc, hasher, 111)?;
    let second = directory.get_port(100000, 2, 6);
    let fourth = directory.get_port(100000, 4, 17);
    Ok((directory.rows(), second, fourth))
}

/// What was registered is found: its address as it was given, and its port.
pub fn finds_what_was_set<S: BuildHasher + Drop>(
    alloc: Global,
    hasher: S,
) -> Result<(bool, u32), NoMemory>
    ensures { IfOk result (λ found. found ≡ (true, 2049)) }
{
    let mut directory = Directory::new(alloc, hasher);
    directory.set(alloc, 7, 1, b"tcp", b"127.0.0.1.8.1", b"unknown")?;
    let address = directory.getaddr(7, 1, b"tcp") == b"127.0.0.1.8.1".as_slice();
    Ok((address, directory.get_port(7, 1, 6)))
}

/// A second row of the same program, version and netid is refused, and the first stays.
pub fn second_set_is_refused<S: BuildHasher + Drop>(
    alloc: Global,
    hasher: S,
) -> Result<(bool, bool, u32), NoMemory>
    ensures { IfOk result (λ answers. answers ≡ (true, false, 1)) }
{
    let mut directory = Directory::new(alloc, hasher);
    let first = directory.set(alloc, 7, 1, b"tcp", b"0.0.0.0.0.111", b"unknown")?;
    let second = directory.set(alloc, 7, 1, b"tcp", b"127.0.0.1.8.1", b"unknown")?;
    Ok((first, second, directory.rows()))
}

/// Only its owner and the superuser remove a row.
pub fn owners_remove<S: BuildHasher + Drop>(
    alloc: Global,
    hasher: S,
) -> Result<(bool, bool, bool), NoMemory>
    ensures { IfOk result (λ answers. answers ≡ (false, true, false)) }
{
    let mut directory = Directory::new(alloc, hasher);
    directory.set(alloc, 536870912, 1, b"tcp", b"127.0.0.1.8.1", b"1001")?;
    let other = directory.unset(536870912, 1, b"tcp", b"1000");
    let superuser = directory.unset(536870912, 1, b"tcp", b"superuser");
    let again = directory.unset(536870912, 1, b"tcp", b"superuser");
    Ok((other, superuser, again))
}

/// An empty netid removes all rows of a version, over both transports, and the rest keep their order.
pub fn version_is_removed<S: BuildHasher + Drop>(
    alloc: Global,
    hasher: S,
) -> Result<(bool, u32, u32), NoMemory>
    ensures { IfOk result (λ found. found ≡ (true, 2, 4)) }
{
    let mut directory = Directory::start(alloc, hasher, 111)?;
    let done = directory.unset(100000, 3, b"", b"superuser");
    match (directory.row(1), directory.row(2)) {
        (Some(first), Some(second)) => Ok((done, first.vers, second.vers)),
        _ => Ok((done, 0, 0)),
    }
}

/// Where `unset` with an empty netid finds no row of the version, it answers false.
pub fn no_version_is_removed<S: BuildHasher + Drop>(
    alloc: Global,
    hasher: S,
) -> Result<bool, NoMemory>
    ensures { IfOk result (λ done. done ≡ false) }
{
    let mut directory = Directory::start(alloc, hasher, 111)?;
    Ok(directory.unset(100000, 5, b"", b"superuser"))
}

/// An empty netid is refused, and so is an empty address; nothing changes.
pub fn empty_texts<S: BuildHasher>(
    alloc: Global,
    directory: &mut Directory<S>,
) -> Result<(bool, bool), NoMemory>
    ensures refused { IfOk result (λ done. done ≡ (false, false)) }
    ensures same { directory.new ≡ directory.old }
{
    let netid = directory.set(alloc, 7, 1, b"", b"0.0.0.0.0.111", b"unknown")?;
    let address = directory.set(alloc, 7, 1, b"tcp", b"", b"unknown")?;
    Ok((netid, address))
}

/// A netid of 65 bytes is refused, and nothing changes.
pub fn netid_of_65_bytes<S: BuildHasher>(
    alloc: Global,
    directory: &mut Directory<S>,
    netid: &[u8],
) -> Result<bool, NoMemory>
    requires { length netid.now ≡ 65 }
    ensures refused { IfOk result (λ done. done ≡ false) }
    ensures same { directory.new ≡ directory.old }
{
    directory.set(alloc, 7, 1, netid, b"0.0.0.0.0.111", b"unknown")
}

/// The 1025th row is refused, and nothing changes.
pub fn full_takes_no_row<S: BuildHasher>(
    alloc: Global,
    directory: &mut Directory<S>,
    address: &[u8],
) -> Result<bool, NoMemory>
    requires { length directory.old ≡ 1024 }
    ensures refused { IfOk result (λ done. done ≡ false) }
    ensures same { directory.new ≡ directory.old }
{
    directory.set(alloc, 7, 1, b"tcp", address, b"unknown")
}

/// Version 2 knows no transport 5, and no port above 65535.
pub fn port_is_refused<S: BuildHasher>(
    alloc: Global,
    directory: &mut Directory<S>,
) -> Result<(bool, bool), NoMemory>
    ensures refused { IfOk result (λ done. done ≡ (false, false)) }
    ensures same { directory.new ≡ directory.old }
{
    let transport = directory.set_port(alloc, 7, 1, 5, 111, b"unknown")?;
    let port = directory.set_port(alloc, 7, 1, 17, 65536, b"unknown")?;
    Ok((transport, port))
}

/// A port that is set over transport 17 is found there, and not over 6.
pub fn port_over_udp<S: BuildHasher + Drop>(
    alloc: Global,
    hasher: S,
) -> Result<(bool, u32, u32), NoMemory>
    ensures { IfOk result (λ found. found ≡ (true, 2049, 0)) }
{
    let mut directory = Directory::new(alloc, hasher);
    let done = directory.set_port(alloc, 7, 1, 17, 2049, b"unknown")?;
    Ok((
        done,
        directory.get_port(7, 1, 17),
        directory.get_port(7, 1, 6),
    ))
}

/// No row is found over a transport that version 2 does not know.
pub fn no_port_over_transport_5<S: BuildHasher>(directory: &Directory<S>) -> u32
    ensures { result ≡ 0 }
{
    directory.get_port(7, 1, 5)
}

/// A port fits two bytes, whatever was registered.
pub fn port_is_small<S: BuildHasher>(directory: &Directory<S>) -> u16
    ensures { result ≡ get_port directory.now 7 1 6 }
{
    directory.get_port(7, 1, 6) as u16
}

/// `unset_port` removes what its owner owns over `tcp` and `udp`, and no other's.
pub fn ports_of_an_owner<S: BuildHasher + Drop>(
    alloc: Global,
    hasher: S,
) -> Result<(bool, bool, bool), NoMemory>
    ensures { IfOk result (λ found. found ≡ (true, true, false)) }
{
    let mut directory = Directory::new(alloc, hasher);
    directory.set(alloc, 8, 1, b"tcp", b"0.0.0.0.0.111", b"1001")?;
    directory.set(alloc, 8, 1, b"udp", b"0.0.0.0.0.111", b"1000")?;
    let done = directory.unset_port(8, 1, b"1000");
    let stays = directory.getaddr(8, 1, b"tcp") == b"0.0.0.0.0.111".as_slice();
    Ok((done, stays, directory.unset_port(8, 1, b"1000")))
}

/// Where nothing is removed, nothing changes.
pub fn refused_changes_nothing<S: BuildHasher>(directory: &mut Directory<S>, owner: &[u8]) -> bool
    ensures { result ≡ false → directory.new ≡ directory.old }
{
    if directory.unset(7, 1, b"", owner) {
        return true;
    }
    directory.unset_port(8, 1, owner)
}

/// Where a row is refused, for an allocation failure or else, nothing changes.
pub fn refused_adds_nothing<S: BuildHasher>(
    alloc: Global,
    directory: &mut Directory<S>,
    netid: &[u8],
    port: u32,
) -> bool
    ensures { result ≡ false → directory.new ≡ directory.old }
{
    match directory.set(alloc, 7, 1, netid, b"0.0.0.0.0.111", b"unknown") {
        Ok(true) => true,
        _ => match directory.set_port(alloc, 8, 1, 6, port, b"unknown") {
            Ok(done) => done,
            Err(NoMemory) => false,
        },
    }
}

/// An address has buffer in 256 bytes, whatever was registered.
pub fn address_is_short<S: BuildHasher>(directory: &Directory<S>, netid: &[u8]) -> usize
    ensures { result ≤ 256 }
{
    directory.getaddr(7, 1, netid).len()
}

/// The first byte of a row's netid is there.
pub fn netid_has_a_byte<S: BuildHasher>(directory: &Directory<S>, index: u32) -> Option<u8> {
    match directory.row(index) {
        Some(row) => Some(row.netid[0]),
        None => None,
    }
}

/// The number of rows fits two bytes.
pub fn rows_are_few<S: BuildHasher>(directory: &Directory<S>) -> u16
    ensures { result ≡ length directory.now }
{
    directory.rows() as u16
}
