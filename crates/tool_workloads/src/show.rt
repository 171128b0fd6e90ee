//! Values printed, as `oncrpc show` prints them.

use crate::digest::Digest;
use crate::random::Random;
use crate::results::{Sort, pool, push_value, spoil, type_of};
use crate::streams::{Digesting, Pieced, Pieces};
use oncrpc_tasks::show_over;
use std::alloc::Global;
use xdr_lang::{Declared, read};
use xdr_types::Limits;
use xdr_units::NoMemory;

/// The sort of value that comes next.
fn next_sort(random: &mut Random) -> Sort {
    match random.below(10) {
        0..=4 => Sort::Directory(160),
        5 => Sort::Files(1000),
        6 => Sort::Rows(1000),
        7 => Sort::Numbers(40000),
        8 => Sort::Longs(20000),
        _ => Sort::Statuses(40000),
    }
}

// Prints the value that begins bytes, and adds the status and what was printed.
fn add_shown(
    alloc: Global,
    declared: &Declared,
    sort: Sort,
    bytes: &[u8],
    random: &mut Random,
    digest: &mut Digest,
) {
    let (Some(kind), Some(limits)) = (declared.kind(type_of(sort)), Limits::new(4096, 16777216))
    else {
        return;
    };
    if !declared.schema.has(kind) {
        return;
    }
    let mut input = Pieced::new(bytes, Pieces::Pages, random);
    let mut output = Digesting::new();
    let mut faults = Digesting::new();
    let status = show_over(
        alloc,
        &mut input,
        &mut output,
        &mut faults,
        &declared.schema,
        kind,
        limits,
        false,
    );
    digest.number(u64::from(status));
    digest.number(output.value());
    digest.number(faults.value());
}

/// Prints so many values. One of sixteen has a byte that was changed.
pub fn work(
    alloc: Global,
    types: &[u8],
    random: &mut Random,
    rounds: u32,
    digest: &mut Digest,
) -> Result<bool, NoMemory> {
    let Ok(declared) = read(alloc, types) else {
        return Ok(false);
    };
    let pool = pool(alloc, random, 20000)?;
    let mut bytes = Vec::new(alloc);
    for _ in 0..rounds {
        let sort = next_sort(random);
        bytes.clear();
        push_value(&mut bytes, random, sort, &pool)?;
        if random.one_in(16) {
            spoil(&mut bytes, random);
        }
        add_shown(alloc, &declared, sort, &bytes, random, digest);
    }
    Ok(true)
}
