//! How a registry's rows are hashed.
ghost use Rattle.std.specs.Prelude.{◌≡◌};
ghost use Rattle.std.specs.Hash.DefaultHasher as sip;

use std::hash::{BuildHasher, DefaultHasher, Hasher};

/// SipHash behind the bytes of a seed, so that whoever does not know the seed cannot choose rows that hash alike.
#[derive(Clone, Copy)]
pub struct Seeded {
    begun: DefaultHasher,
}

impl Seeded {
    /// Hashes behind this seed.
    pub fn new(seed: &[u8]) -> Seeded
        ensures { result.begun ≡ sip.write sip.initial seed.now }
    {
        let mut begun = DefaultHasher::new();
        begun.write(seed);
        Seeded { begun }
    }
}

impl BuildHasher for Seeded {
    type Hasher = DefaultHasher;

    ghost build_hasher = { λ s. s.begun };

    fn build_hasher(&self) -> DefaultHasher {
        self.begun
    }
}
