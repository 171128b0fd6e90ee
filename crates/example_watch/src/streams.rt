//! Segments, and the stream that they give (RFC 9293, section 3.4).
ghost use Rattle.std.specs.Prelude.{◌≡◌, codes, Some, IfOk, true};

use capture_streams::{Direction, Refusal, handed_is_the_stream, one_stream};
use std::alloc::Global;

/// Bytes 0 to 2 and 3 to 5 of a direction, whose first has the number 1000.
pub fn in_order(alloc: Global) -> Result<Vec<u8>, Refusal>
    ensures { IfOk result (λ out. out.items ≡ codes "abcdef") }
{
    one_stream();
    handed_is_the_stream();
    let mut direction = Direction::start(alloc, 1000, 4096);
    let mut out = Vec::new(alloc);
    direction.take(1000, b"abc", &mut out)?;
    direction.take(1003, b"def", &mut out)?;
    Ok(out)
}

/// The same in the other order: what stands behind the hole waits.
pub fn out_of_order(alloc: Global) -> Result<Vec<u8>, Refusal>
    ensures { IfOk result (λ out. out.items ≡ codes "abcdef") }
{
    one_stream();
    handed_is_the_stream();
    let mut direction = Direction::start(alloc, 1000, 4096);
    let mut out = Vec::new(alloc);
    direction.take(1003, b"def", &mut out)?;
    direction.take(1000, b"abc", &mut out)?;
    Ok(out)
}

/// Bytes that come a second time, and are others, are passed over, whether they are handed on or still held.
pub fn first_one_wins(alloc: Global) -> Result<Vec<u8>, Refusal>
    ensures { IfOk result (λ out. out.items ≡ codes "abcdef") }
{
    one_stream();
    handed_is_the_stream();
    let mut direction = Direction::start(alloc, 1000, 4096);
    let mut out = Vec::new(alloc);
    direction.take(1004, b"ef", &mut out)?;
    direction.take(1000, b"ab", &mut out)?;
    direction.take(1001, b"XcdXX", &mut out)?;
    Ok(out)
}

/// Two bytes are missing. They are skipped, which says how many there are, and the bytes behind them follow.
pub fn skips_a_hole(alloc: Global) -> Result<(Option<u64>, Vec<u8>), Refusal>
    ensures { IfOk result (λ r. (r.0 ≡ Some 2) × (r.1.items ≡ codes "abcfg")) }
{
    one_stream();
    handed_is_the_stream();
    let mut direction = Direction::start(alloc, 1000, 4096);
    let mut out = Vec::new(alloc);
    direction.take(1000, b"abc", &mut out)?;
    direction.take(1005, b"fg", &mut out)?;
    let missing = direction.skip_hole();
    if direction.hand_on(&mut out).is_err() {
        return Err(Refusal::NoMemory { taken: 0 });
    }
    Ok((missing, out))
}

/// Bytes at the due place need no space: where nothing may be held they are not refused for the limit.
pub fn needs_no_space(alloc: Global) -> bool
    ensures { result ≡ true }
{
    let mut direction = Direction::start(alloc, 1000, 0);
    let mut out = Vec::new(alloc);
    match direction.take(1000, b"abc", &mut out) {
        Err(Refusal::Full { .. }) => false,
        _ => true,
    }
}

/// Where nothing may be held, bytes ahead of the due place are refused for the limit, before memory is asked for.
pub fn wants_space_first(alloc: Global) -> bool
    ensures { result ≡ true }
{
    let mut direction = Direction::start(alloc, 1000, 0);
    let mut out = Vec::new(alloc);
    match direction.take(1004, b"ef", &mut out) {
        Err(Refusal::NoMemory { taken }) => taken != 0,
        _ => true,
    }
}

/// The number behind 2^32 - 1 is 0.
pub fn wraps(alloc: Global) -> Result<Vec<u8>, Refusal>
    ensures { IfOk result (λ out. out.items ≡ codes "abcd") }
{
    one_stream();
    handed_is_the_stream();
    let mut direction = Direction::start(alloc, 4294967294, 4096);
    let mut out = Vec::new(alloc);
    direction.take(4294967294, b"ab", &mut out)?;
    direction.take(0, b"cd", &mut out)?;
    Ok(out)
}
