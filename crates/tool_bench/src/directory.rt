//! Calls of a registry again and again: WORK is `getaddr`, `refused` (a `set` of a row that is there), `last` or
//! `first` (an `unset` of that row by its key, and a `set` of it again), and ROWS is 1 to 1024.
ghost use Rattle.std.specs.Prelude.{◌<◌};

use rpc_directory::{Directory, NoMemory};
use std::alloc::Global;
use std::hash::{BuildHasherDefault, DefaultHasher};

/// A registry whose order is the same in each run.
pub type Registry = Directory<BuildHasherDefault<DefaultHasher>>;

const ADDRESS: &[u8] = b"127.0.0.1.8.1";

// Adds version 1 of a program over `tcp`.
fn add(alloc: Global, directory: &mut Registry, prog: u32) -> Result<bool, NoMemory> {
    directory.set(alloc, prog, 1, b"tcp", ADDRESS, b"1000")
}

/// A registry of so many rows, of the programs from 0 on.
pub fn filled(alloc: Global, rows: u32) -> Result<Registry, NoMemory> {
    let mut directory = Directory::new(alloc, BuildHasherDefault::new());
    for prog in 0..rows {
        let _added = add(alloc, &mut directory, prog)?;
    }
    Ok(directory)
}

// Looks up so many rows, which lie all over the registry.
fn looks_up(directory: &Registry, rows: u32, count: u32) -> bool
    requires { 0 < rows }
{
    let mut well = directory.rows() == rows;
    for turn in 0..count {
        let prog = turn.wrapping_mul(2654435761) % rows;
        well = well && directory.getaddr(prog, 1, b"tcp") == ADDRESS;
    }
    well
}

// Sets rows that are there, so many times.
fn is_refused(
    alloc: Global,
    directory: &mut Registry,
    rows: u32,
    count: u32,
) -> Result<bool, NoMemory>
    requires { 0 < rows }
{
    let mut well = directory.rows() == rows;
    for turn in 0..count {
        let prog = turn.wrapping_mul(2654435761) % rows;
        well = well && !add(alloc, directory, prog)?;
    }
    Ok(well)
}

// Removes the last row and sets it again, so many times.
fn renews_last(
    alloc: Global,
    directory: &mut Registry,
    rows: u32,
    count: u32,
) -> Result<bool, NoMemory>
    requires { 0 < rows }
{
    let mut well = directory.rows() == rows;
    for _ in 0..count {
        let gone = directory.unset(rows - 1, 1, b"tcp", b"1000");
        well = well && gone && add(alloc, directory, rows - 1)?;
    }
    Ok(well)
}

// Removes the first row and sets it again at the end, so many times.
fn renews_first(
    alloc: Global,
    directory: &mut Registry,
    rows: u32,
    count: u32,
) -> Result<bool, NoMemory>
    requires { 0 < rows }
{
    let mut well = directory.rows() == rows;
    for turn in 0..count {
        let gone = directory.unset(turn % rows, 1, b"tcp", b"1000");
        well = well && gone && add(alloc, directory, turn % rows)?;
    }
    Ok(well)
}

// Does the work so many times, and says whether each call answered as it should.
fn does(alloc: Global, what: &str, rows: u32, count: u32) -> Result<bool, NoMemory>
    requires { 0 < rows }
{
    let mut directory = filled(alloc, rows)?;
    match what {
        "getaddr" => Ok(looks_up(&directory, rows, count)),
        "refused" => is_refused(alloc, &mut directory, rows, count),
        "last" => renews_last(alloc, &mut directory, rows, count),
        "first" => renews_first(alloc, &mut directory, rows, count),
        _ => Ok(false),
    }
}

/// Does the work over so many rows so many times, by the words WORK, ROWS and COUNT, and says whether each call went
/// well.
pub fn work(alloc: Global, words: &[String]) -> bool {
    let [what, rows, count] = words else {
        return false;
    };
    let (Ok(rows), Ok(count)) = (rows.as_str().parse::<u32>(), count.as_str().parse::<u32>()) else {
        return false;
    };
    if rows == 0 {
        return false;
    }
    match does(alloc, what.as_str(), rows, count) {
        Ok(well) => well,
        Err(NoMemory) => false,
    }
}
