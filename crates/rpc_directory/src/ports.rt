//! The calls of version 2, which name a transport by its number.
ghost use Rattle.std.specs.Prelude.{◌≡◌, ◌≤◌, ◌<◌, ◌^◌, length, false, OnErr, IfOk};
ghost use Rattle.registry_rows.specs.Ports as ports;

use crate::directory::Directory;
use registry_rows::netid_of_prot;
use registry_uaddr::{NoMemory, Uaddr, read_uaddr, write_uaddr};
use std::alloc::Global;
use std::hash::BuildHasher;

impl<S: BuildHasher> Directory<S> {
    /// `set` at every host and this port, with netid `tcp` for `prot` 6 and `udp` for 17 (RFC 1833 section 3.2,
    /// PMAPPROC_SET). False, with nothing changed, where `set` answers false, for another `prot`, and for a port above
    /// 65535. `NoMemory` changes nothing.
    pub fn set_port(
        &mut self,
        alloc: Global,
        prog: u32,
        vers: u32,
        prot: u32,
        port: u32,
        owner: &[u8],
    ) -> Result<bool, NoMemory>
        requires { length owner.now ≤ 10 }
        // Rows and answer are those of the step;
        ensures ok { IfOk result (λ done. (self.new, done) ≡ ports.set_port self.old prog vers prot port owner.now) }
        // false changes nothing,
        ensures refused { IfOk result (λ done. done ≡ false → self.new ≡ self.old) }
        // nor does an allocation failure.
        ensures err { OnErr result (self.new ≡ self.old) }
    {
        let netid = match netid_of_prot(prot) {
            Some(netid) => netid,
            None => return Ok(false),
        };
        if port > 65535 {
            return Ok(false);
        }
        let address = any_host(alloc, port as u16)?;
        self.set(alloc, prog, vers, netid, &address, owner)
    }

    /// `unset` of the rows over `tcp` and over `udp` (RFC 1833 section 3.2, PMAPPROC_UNSET). True exactly where at
    /// least one was removed; the rest keep their order, and false changes nothing. It takes no memory.
    pub fn unset_port(&mut self, prog: u32, vers: u32, owner: &[u8]) -> bool
        // Rows and answer are those of the step,
        ensures value { (self.new, result) ≡ ports.unset_port self.old prog vers owner.now }
        // and false changes nothing.
        ensures refused { result ≡ false → self.new ≡ self.old }
    {
        let first = self.unset(prog, vers, b"tcp", owner);
        let second = self.unset(prog, vers, b"udp", owner);
        first || second
    }

    /// The port of a version of a program over the transport of this number (RFC 1833 section 3.2, PMAPPROC_GETPORT),
    /// that of the row which `getaddr` looks up. It is 0 for a `prot` other than 6 and 17, where there is no such row,
    /// and where its address is no universal address over IPv4. It costs what `getaddr` costs, and takes no memory.
    pub fn get_port(&self, prog: u32, vers: u32, prot: u32) -> u32
        ensures value { result ≡ ports.get_port self.now prog vers prot }
        ensures port { result < 2 ^ 16 }
    {
        match netid_of_prot(prot) {
            Some(netid) => self.port_over(prog, vers, netid),
            None => 0,
        }
    }

    // The port of the row that is looked up over a transport.
    fn port_over(&self, prog: u32, vers: u32, netid: &[u8]) -> u32
        ensures value { result ≡ ports.port_over self.now prog vers netid.now }
        ensures port { result < 2 ^ 16 }
    {
        match self.look_up(prog, vers, netid) {
            Some(row) => port_in(&row.address),
            None => 0,
        }
    }
}

// The port of an address, 0 where it is no universal address over IPv4.
fn port_in(text: &[u8]) -> u32
    ensures value { result ≡ ports.port_in text.now }
    ensures port { result < 2 ^ 16 }
{
    match read_uaddr(text) {
        Some(address) => u32::from(address.port),
        None => 0,
    }
}

// The address of a port at every host.
pub(crate) fn any_host(alloc: Global, port: u16) -> Result<Vec<u8>, NoMemory>
    ensures { IfOk result (λ v. v.items ≡ ports.at_port port) }
{
    write_uaddr(alloc, Uaddr { host: [0; 4], port })
}
