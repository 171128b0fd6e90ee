//! Jobs that users wait for, each over inputs of its own, which a seed makes: `tool_workloads WORK SEED`, and for a
//! smaller job a count of rounds behind it. WORK is `values`, `show`, `check`, `declarations`,
//! `registry` or `assorted`; all but `declarations` and `registry` read the types of values from standard input. A line
//! is printed: the digest of all results, the same for the same words. `small` does a little of each. `bench/run` times
//! the jobs of `bench/workloads.txt`.
//!
//! - `values`: values decoded and encoded. `show` and `check`: the tasks of the program. `declarations`: texts that are
//!   read. `registry`: calls that are served.
//! - `assorted`: inputs that these lack.
//! - `declared`: what a text declares.
//! - `results`: the bytes of values. `calls`: the bytes of messages. `texts`: texts of declarations.
//! - `random`: numbers of a seed. `digest`: what stands for results. `streams`: where bytes come from and go to.
#![tactic(auto)]

mod assorted;
mod calls;
mod check;
mod declarations;
mod declared;
mod digest;
mod random;
mod registry;
mod results;
mod show;
mod streams;
mod texts;
mod values;

use digest::Digest;
use random::Random;
use std::alloc::Global;
use std::env;
use std::io::{self, Read, Write};
use std::process::ExitCode;
use xdr_units::NoMemory;

// The works, and how many rounds of each are a job.
const WORKS: [(&str, u32); 6] = [
    ("values", 5000),
    ("show", 2500),
    ("check", 2400),
    ("declarations", 2000),
    ("registry", 3600),
    ("assorted", 1000),
];

// Does so many rounds of a work.
fn rounds_of(
    alloc: Global,
    work: &str,
    random: &mut Random,
    types: &[u8],
    rounds: u32,
    digest: &mut Digest,
) -> Result<bool, NoMemory> {
    match work {
        "values" => values::work(alloc, types, random, rounds, digest),
        "show" => show::work(alloc, types, random, rounds, digest),
        "check" => check::work(alloc, types, random, rounds, digest),
        "declarations" => declarations::work(alloc, random, rounds, digest),
        "registry" => registry::work(alloc, random, rounds, digest),
        "assorted" => assorted::work(alloc, types, random, rounds, digest),
        _ => Ok(false),
    }
}

// The digest of a work; none, where it has no such name, or memory is refused.
fn digest_of(alloc: Global, work: &str, seed: u32, types: &[u8], rounds: u32) -> Option<u64> {
    let mut digest = Digest::new();
    let mut random = Random::new(seed);
    match rounds_of(alloc, work, &mut random, types, rounds, &mut digest) {
        Ok(true) => Some(digest.value()),
        _ => None,
    }
}

// How many rounds of a work are a job; none, where there is no such work.
fn job_of(work: &str) -> Option<u32> {
    for (name, rounds) in &WORKS {
        if *name == work {
            return Some(*rounds);
        }
    }
    None
}

// Prints the line of a work, and tells whether it was done.
fn print_work(rt: &HostRuntime, work: &str, seed: u32, types: &[u8], rounds: u32) -> bool {
    let alloc = rt.alloc();
    match digest_of(alloc, work, seed, types, rounds) {
        Some(digest) => match format!(in alloc; "{work} {digest:016x}\n") {
            Ok(line) => io::writer(rt).write_all(line.as_bytes()).is_ok(),
            Err(_) => false,
        },
        None => false,
    }
}

// A little of each work.
fn print_small(rt: &HostRuntime, types: &[u8]) -> bool {
    let mut well = true;
    for (name, _) in &WORKS {
        well = print_work(rt, name, 1, types, 1) && well;
    }
    well
}

// All of standard input; nothing, where it cannot be read.
fn input(rt: &HostRuntime) -> Vec<u8> {
    let mut bytes = Vec::new(rt.alloc());
    match rt.reader().read_to_end(&mut bytes) {
        Ok(_) => bytes,
        Err(_) => Vec::new(rt.alloc()),
    }
}

// Does what the words ask for.
fn does(rt: &HostRuntime, words: &[String]) -> bool {
    match words {
        [small] if small.as_str() == "small" => print_small(rt, &input(rt)),
        [work, seed] => match (job_of(work.as_str()), seed.as_str().parse::<u32>()) {
            (Some(rounds), Ok(seed)) => print_work(rt, work.as_str(), seed, &input(rt), rounds),
            _ => false,
        },
        [work, seed, rounds] => {
            match (seed.as_str().parse::<u32>(), rounds.as_str().parse::<u32>()) {
                (Ok(seed), Ok(rounds)) => {
                    print_work(rt, work.as_str(), seed, &input(rt), rounds)
                }
                _ => false,
            }
        }
        _ => false,
    }
}

fn main(rt: HostRuntime) -> ExitCode {
    let words = match env::args(&rt) {
        Ok(args) => args.skip(1).collect::<Vec<String>>(rt.alloc()),
        Err(_) => return ExitCode::from(2),
    };
    match words {
        Ok(words) if does(&rt, words.as_slice()) => ExitCode::from(0),
        _ => ExitCode::from(1),
    }
}
