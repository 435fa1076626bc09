// Runs of jobs of numbers: by one thread without a lock, and by crews.
use crate::clock::nanos_since;
use crate::nets::{NetKind, net_of};
use outside_io::NoMemory;
use ready_deques::MAX_WORKERS;
use span_profile::SpanCount;
use std::alloc::{AllocError, Global};
use std::io;
use std::sync::{Arc, Wait};
use std::thread::Threads;
use std::time::{Clock, Instant};
use table_frames::run_alone;
use task_graph::Net;
use test_jobs::{NumberJob, START_LIMIT, run_by_workers};

// How many tasks each net has.
const TASKS: u32 = 10_000;

// How often each run is made, of which the least time counts.
const TIMES: u32 = 5;

// A number that no task comes to, so that none faults.
const NEVER: u64 = 0;

// Jobs: which tasks precede which, and how often each task adds to a word. Four hundred additions take some two
// microseconds.
const WORKS: [(NetKind, u64, &str); 4] = [
    (NetKind::Chain, 0, "a chain of empty tasks"),
    (NetKind::Join, 0, "empty tasks before the last"),
    (NetKind::Fan, 0, "empty tasks behind the first"),
    (NetKind::Fan, 400, "tasks of 400 additions behind the first"),
];

// Crews of so many workers, and one thread that needs no lock in place of none.
const CREWS: [usize; 5] = [0, 1, 2, 4, 16];

/// Prints the nanoseconds a start of each job, by each who may run it.
pub fn measure<R: Threads + Wait + Clock + Print + Sync>(rt: &R, alloc: Global) -> io::Result<()> {
    for (kind, additions, name) in &WORKS {
        let net = net_of(alloc, *kind, TASKS, TASKS - 1)?;
        for workers in &CREWS {
            let nanos = nanos_a_start(rt, alloc, &net, *additions, *workers)?;
            println!(rt; "{name}, {workers} workers: {nanos} ns a start")?;
        }
    }
    Ok(())
}

// The nanoseconds a start, the least of five runs. Each task is to be started once.
fn nanos_a_start<R: Threads + Wait + Clock + Sync>(
    rt: &R,
    alloc: Global,
    net: &Arc<Net>,
    additions: u64,
    workers: usize,
) -> io::Result<u64> {
    let starts = net.tasks().len() as u64;
    let mut least = u64::MAX;
    for _ in 0..TIMES {
        let Some(job) = NumberJob::new(Arc::try_clone(net)?, START_LIMIT, 0, NEVER) else {
            return Err(AllocError.into());
        };
        let begun = Instant::now(rt)?;
        let made = starts_made(rt, alloc, job.with_additions(additions), workers);
        let nanos = nanos_since(rt, begun)?;
        if made != Ok(starts) {
            return Err(AllocError.into());
        }
        least = least.min(nanos / starts.max(1));
    }
    Ok(least)
}

// How many starts the run of a job has.
fn starts_made<R: Threads + Wait + Sync>(
    rt: &R,
    alloc: Global,
    job: NumberJob,
    workers: usize,
) -> Result<u64, NoMemory> {
    let run = if workers == 0 || workers > MAX_WORKERS {
        run_alone(rt, alloc, Arc::new(alloc, job)?, &mut SpanCount::new())?
    } else {
        run_by_workers(rt, alloc, job, workers)?
    };
    Ok(run.values.len() as u64)
}
