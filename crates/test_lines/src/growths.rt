//! What a test can do about memory: count its growths and refuse one, where the process was started with a library
//! that does so (`.ci/heap.c`).
use std::alloc::{AllocError, Global};
use std::env::Env;

/// How many times memory was asked for so far, or `None` where nothing counts.
pub fn count(rt: &impl Env) -> Option<u64> {
    asked(rt, "GROWTHS")
}

/// How many bytes were asked for so far, those of a block that grows anew each time, or `None` where nothing counts.
pub fn bytes(rt: &impl Env) -> Option<u64> {
    asked(rt, "GROWTH_BYTES")
}

/// How many bytes are not given back, each block by all of its buffer, or `None` where nothing counts.
pub fn held(rt: &impl Env) -> Option<u64> {
    asked(rt, "HELD_BYTES")
}

/// Refuses the growth with this number, counted from here from 1; 0 refuses none. False where nothing can refuse.
pub fn refuse(alloc: Global, rt: &impl Env, number: u64) -> Result<bool, AllocError> {
    let name = format!(in alloc; "REFUSE_GROWTH_{number}")?;
    Ok(asked(rt, name.as_str()).is_some())
}

/// Refuses the growth with this number, counted from here from 1, and every later one. False where nothing can refuse.
pub fn refuse_from(alloc: Global, rt: &impl Env, number: u64) -> Result<bool, AllocError> {
    let name = format!(in alloc; "REFUSE_GROWTH_{number}..")?;
    Ok(asked(rt, name.as_str()).is_some())
}

/// Refuses nothing more.
pub fn allow(rt: &impl Env) {
    let _ = asked(rt, "REFUSE_GROWTH_0");
}

// The number that the variable holds, if it holds one.
fn asked(rt: &impl Env, name: &str) -> Option<u64> {
    let mut digits = [0u8; 24];
    let length = rt.var(name, &mut digits).ok()?;
    let text = std::str::from_utf8(&digits[..length]).ok()?;
    text.parse::<u64>().ok()
}
