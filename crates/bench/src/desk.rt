// Rounds of a graph without tasks that are asked of a desk, and the same number without one.
use desk_trials::{ByThreads, Demand, TickJob, run_of_callers, team};
use outside_io::NoMemory;
use span_profile::SpanCount;
use std::alloc::{AllocError, Global};
use std::io;
use std::sync::{Arc, Wait};
use std::thread::Threads;
use std::time::Clock;
use topology_runs::run_times;

// What is asked: by each of four callers 2,500 times for one round.
const DEMAND: Demand = Demand {
    askers: 4,
    each: 2500,
    rounds: 1,
    of_both: false,
};

// How many rounds that is.
const ROUNDS: usize = 10_000;

/// By the word `rounds` one team runs 10,000 rounds of a graph without tasks. By any other, four callers ask a desk for
/// as many, each time for one, beside four that serve. It prints where a round is missing.
pub fn measure<R: Threads + Wait + Clock + Print + Sync>(
    rt: &R,
    alloc: Global,
    word: &str,
) -> io::Result<()> {
    let made = match word {
        "rounds" => rounds_of_a_team(rt, alloc),
        _ => rounds_of_a_desk(rt, alloc),
    };
    match made {
        Ok(count) if count == ROUNDS => Ok(()),
        Ok(count) => println!(rt; "{count} rounds"),
        Err(NoMemory) => Err(AllocError.into()),
    }
}

// How many rounds one team has run.
fn rounds_of_a_team<R: Threads + Wait + Sync>(rt: &R, alloc: Global) -> Result<usize, NoMemory> {
    let job = Arc::new(alloc, TickJob::of_tasks(alloc, 0)?)?;
    let mut alone = team(alloc, 1)?;
    let count = ROUNDS as u64;
    match run_times::<TickJob, SpanCount, ByThreads, R>(rt, alloc, &mut alone, &job, count) {
        Ok(runs) => Ok(runs.len()),
        Err(_) => Err(NoMemory),
    }
}

// How many asks were served.
fn rounds_of_a_desk<R: Threads + Wait + Clock + Sync>(
    rt: &R,
    alloc: Global,
) -> Result<usize, NoMemory> {
    match run_of_callers(rt, alloc, DEMAND, 4)? {
        Some(run) => Ok(run.runs.len()),
        None => Ok(0),
    }
}
