// The time that passes.
use std::io;
use std::time::{Clock, Instant};

/// The nanoseconds since `start`.
pub fn nanos_since<R: Clock>(rt: &R, start: Instant) -> io::Result<u64> {
    let passed = Instant::now(rt)?.saturating_duration_since(start);
    Ok(
        passed
            .as_secs()
            .saturating_mul(1_000_000_000)
            .saturating_add(passed.subsec_nanos() as u64),
    )
}

/// The microseconds since `start`.
pub fn micros_since<R: Clock>(rt: &R, start: Instant) -> io::Result<u64> {
    Ok(nanos_since(rt, start)? / 1000)
}
