// The calls of `keyed_lock`, `tickets` and `ready_deques`.
mod deques;
mod locks;
mod register;

use crate::clock::nanos_since;
use std::alloc::Global;
use std::io;
use std::sync::Wait;
use std::thread::Threads;
use std::time::{Clock, Instant};

// How often each call is made.
const TURNS: u32 = 1_000_000;

// How many threads make calls side by side.
const THREADS: usize = 4;

/// Prints how long each call lasts, by one thread and by four side by side.
pub fn measure<R: Threads + Wait + Clock + Print + Sync>(rt: &R, alloc: Global) -> io::Result<()> {
    let nanos = register::issues(rt, alloc)?;
    println!(rt; "issue and redeem: {nanos} ns")?;
    for threads in [1, THREADS].iter() {
        let adds = locks::adds(rt, *threads)?;
        let takes = locks::takes(rt, alloc, *threads)?;
        let pushes = deques::pushes(rt, alloc, *threads)?;
        println!(rt;
            "{threads} threads: two fetch_adds {adds} ns, take and put {takes} ns, push and take_own {pushes} ns"
        )?;
    }
    Ok(())
}

// The nanoseconds since `start`, for each of the turns.
fn nanos_each<R: Clock>(rt: &R, start: Instant) -> io::Result<u64> {
    Ok(nanos_since(rt, start)? / TURNS as u64)
}
