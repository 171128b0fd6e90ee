//! The key under which a row stands.
ghost use Rattle.std.specs.Prelude.{◌≡◌, ◌≤◌, ◌-◌, ◌++◌, ◌∷◌, replicate, length, take, min};
ghost use Rattle.std.specs.Hash as fed;
ghost use Rattle.std.specs.Cmp.Rules.{hashing};
ghost use Rattle.std.proofs.Common.{rules};
ghost use Rattle.registry_rows.specs.Keys.{key_of};

use std::hash::{Hash, Hasher};

/// A program, a version and a netid of at most 64 bytes, which stands in 64 bytes beside its length: so a key takes no
/// memory.
#[derive(Debug, Clone, Copy, PartialEq, Eq)]
pub struct Key {
    prog: u32,
    vers: u32,
    name: [u8; 64],
    len: u8,
}

impl Hash for Key {
    ghost hash_input = { λ k. fed.u32 k.prog ++ (fed.u32 k.vers ++ (take (min k.len 64) k.name ∷ fed.u8 k.len)) };

    ghost respects_eq = { Prim.search (hashing, rules) };

    // The netid in one write, without the zeros that follow it.
    fn hash<H: Hasher>(&self, state: &mut H) {
        state.write_u32(self.prog);
        state.write_u32(self.vers);
        state.write(&self.name[..usize::from(self.len).min(64)]);
        state.write_u8(self.len);
    }
}

impl Key {
    /// The key of a program, a version and a netid of at most 64 bytes.
    pub fn new(prog: u32, vers: u32, netid: &[u8]) -> Key
        requires { length netid.now ≤ 64 }
        ensures { result ≡ key_of prog vers netid.now }
    {
        Key {
            prog,
            vers,
            name: padded(netid),
            len: netid.len() as u8,
        }
    }
}

// The netid, followed by zeros.
fn padded(netid: &[u8]) -> [u8; 64]
    requires { length netid.now ≤ 64 }
    ensures { result ≡ netid.now ++ replicate (64 - length netid.now) 0 }
{
    let mut name = [0; 64];
    name[..netid.len()].copy_from_slice(netid);
    name
}
