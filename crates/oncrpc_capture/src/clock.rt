//! Times of captures.
use capture_files::Captured;

/// How many nanoseconds a second has.
const SECOND: u64 = 1_000_000_000;

/// The time of a packet in nanoseconds since 1970 UTC, or 0 where it has none. A time that is too late is the greatest
/// number.
pub fn time_of(packet: Captured<'_>) -> u64 {
    match packet.time {
        Some(time) => nanoseconds(time, packet.resolution),
        None => 0,
    }
}

// So many units of a resolution: a power of ten, or of two from 128 on.
fn nanoseconds(time: u64, resolution: u8) -> u64 {
    if resolution >= 128 {
        return of_halves(time, resolution - 128);
    }
    if resolution <= 9 {
        return scaled(time, 9 - resolution);
    }
    let mut rest = time;
    for _ in 0..resolution - 9 {
        rest /= 10;
    }
    rest
}

// So many times as many by ten.
fn scaled(time: u64, tens: u8) -> u64 {
    let mut whole = time;
    for _ in 0..tens {
        whole = whole.saturating_mul(10);
    }
    whole
}

// Units of a second that is halved so many times.
fn of_halves(time: u64, halves: u8) -> u64 {
    let mut seconds = time;
    let mut rest = 0u64;
    for _ in 0..halves {
        rest = rest / 2 + (seconds % 2) * (SECOND / 2);
        seconds /= 2;
    }
    seconds.saturating_mul(SECOND).saturating_add(rest)
}
