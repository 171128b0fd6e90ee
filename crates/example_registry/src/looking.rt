//! What a look-up finds where the version that is asked for is not registered.
ghost use Rattle.std.specs.Prelude.{◌≡◌, true, IfOk};

use rpc_directory::{Directory, NoMemory};
use std::alloc::Global;
use std::hash::BuildHasher;

/// A version that is not registered is answered with the greatest that is, in whatever order they were set.
pub fn falls_back_to_the_greatest<S: BuildHasher + Drop>(
    alloc: Global,
    hasher: S,
) -> Result<(bool, bool), NoMemory>
    ensures { IfOk result (λ found. found ≡ (true, true)) }
{
    let mut directory = Directory::new(alloc, hasher);
    directory.set(alloc, 9, 2, b"tcp", b"1.2.3.4.0.2", b"unknown")?;
    directory.set(alloc, 9, 5, b"tcp", b"1.2.3.4.0.5", b"unknown")?;
    directory.set(alloc, 9, 3, b"tcp", b"1.2.3.4.0.3", b"unknown")?;
    let between = directory.getaddr(9, 4, b"tcp") == b"1.2.3.4.0.5".as_slice();
    let above = directory.getaddr(9, 6, b"tcp") == b"1.2.3.4.0.5".as_slice();
    Ok((between, above))
}

/// A version that is registered is found, though a greater one is.
pub fn finds_its_own_version<S: BuildHasher + Drop>(
    alloc: Global,
    hasher: S,
) -> Result<(bool, u32), NoMemory>
    ensures { IfOk result (λ found. found ≡ (true, 3)) }
{
    let mut directory = Directory::new(alloc, hasher);
    directory.set(alloc, 9, 5, b"tcp", b"1.2.3.4.0.5", b"unknown")?;
    directory.set(alloc, 9, 3, b"tcp", b"1.2.3.4.0.3", b"unknown")?;
    let address = directory.getaddr(9, 3, b"tcp") == b"1.2.3.4.0.3".as_slice();
    Ok((address, directory.get_port(9, 3, 6)))
}

/// `getversaddr` answers for no other version (RFC 1833 section 2.2.1, RPCBPROC_GETVERSADDR).
pub fn asks_for_one_version<S: BuildHasher + Drop>(
    alloc: Global,
    hasher: S,
) -> Result<(bool, bool), NoMemory>
    ensures { IfOk result (λ found. found ≡ (true, true)) }
{
    let mut directory = Directory::new(alloc, hasher);
    directory.set(alloc, 9, 3, b"tcp", b"1.2.3.4.0.3", b"unknown")?;
    let own = directory.getversaddr(9, 3, b"tcp") == b"1.2.3.4.0.3".as_slice();
    Ok((own, directory.getversaddr(9, 4, b"tcp").is_empty()))
}

/// A row over another transport, and one of another program, are not fallen back to.
pub fn keeps_to_its_program_and_transport<S: BuildHasher + Drop>(
    alloc: Global,
    hasher: S,
) -> Result<(bool, u32), NoMemory>
    ensures { IfOk result (λ found. found ≡ (true, 0)) }
{
    let mut directory = Directory::new(alloc, hasher);
    directory.set(alloc, 9, 5, b"udp", b"1.2.3.4.0.5", b"unknown")?;
    directory.set(alloc, 8, 3, b"tcp", b"1.2.3.4.0.3", b"unknown")?;
    let none = directory.getaddr(9, 4, b"tcp").is_empty();
    Ok((none, directory.get_port(9, 4, 6)))
}

/// The port of a version that is not registered is that of the greatest that is, 0 where that one's address is not over
/// IPv4.
pub fn ports_of_other_versions<S: BuildHasher + Drop>(
    alloc: Global,
    hasher: S,
) -> Result<(u32, u32), NoMemory>
    ensures { IfOk result (λ found. found ≡ (5, 0)) }
{
    let mut directory = Directory::new(alloc, hasher);
    directory.set(alloc, 9, 5, b"tcp", b"1.2.3.4.0.5", b"unknown")?;
    let before = directory.get_port(9, 4, 6);
    directory.set(alloc, 9, 6, b"tcp", b"localhost", b"unknown")?;
    Ok((before, directory.get_port(9, 4, 6)))
}

/// Where a version is registered, `getaddr` and `getversaddr` answer the same, whatever the rows.
pub fn one_answer_where_registered<S: BuildHasher>(
    directory: &Directory<S>,
    prog: u32,
    vers: u32,
    netid: &[u8],
) -> bool
    ensures { result ≡ true }
{
    let own = directory.getversaddr(prog, vers, netid);
    own.is_empty() || own == directory.getaddr(prog, vers, netid)
}
