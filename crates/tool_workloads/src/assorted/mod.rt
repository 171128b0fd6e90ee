//! Inputs that the other jobs lack, each as often as the others.
//!
//! - `crowded`: a registry in which one program has most rows. `chosen`: texts of unions over enumerations, and of
//!   aliases. `dumped`: hexadecimal as `od` prints it. `shaped`: small structures of enumerations, and fixed arrays of
//!   numbers.

mod chosen;
mod crowded;
mod dumped;
mod shaped;

use crate::digest::Digest;
use crate::random::Random;
use std::alloc::Global;
use xdr_units::NoMemory;

/// Does so many rounds of each.
pub fn work(
    alloc: Global,
    types: &[u8],
    random: &mut Random,
    rounds: u32,
    digest: &mut Digest,
) -> Result<bool, NoMemory> {
    crowded::work(alloc, random, rounds, digest)?;
    chosen::work(alloc, random, rounds, digest)?;
    Ok(
        dumped::work(alloc, types, random, rounds, digest)?
            && shaped::work(alloc, random, rounds, digest)?,
    )
}
