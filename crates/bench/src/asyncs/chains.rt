// Two callers that add chains beside two workers.
use async_trials::run_of_two_callers;
use std::alloc::{AllocError, Global};
use std::io;
use std::sync::Wait;
use std::thread::Threads;

// How many tasks each caller adds.
const TASKS: u32 = 50_000;

/// Adds and runs all tasks. It prints where that fails.
pub fn measure<R: Threads + Wait + Print + Sync>(rt: &R, alloc: Global) -> io::Result<()> {
    let Ok(run) = run_of_two_callers(rt, alloc, TASKS) else {
        return Err(AllocError.into());
    };
    match run {
        Some(_) => Ok(()),
        None => println!(rt; "a task has no end"),
    }
}
