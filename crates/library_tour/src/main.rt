//! A tour of the library: a job of one's own, run by four threads.
//!
//! `sum_job.rt` has the job, whose meaning is in `specs/SumMeaning.antt`; `crew.rt` has it run by a crew. `squares.rt`
//! has a loop over numbers as a job of chunks, which is run by one thread. The program prints with which number each
//! task ended, and the sum of ten squares. It is no part of the product.
#![tactic(auto)]

mod crew;
mod squares;
mod sum_job;

use crew::run_by_crew;
use outside_io::{List, NoMemory};
use run_frame::FrameRun;
use squares::sum_of_squares;
use std::alloc::Global;
use std::io;
use std::sync::{Arc, Wait};
use std::thread::Threads;
use sum_job::SumJob;
use task_graph::{Net, NetBuilder, Shape};

// How many threads work on the run.
const WORKERS: usize = 4;

fn main(rt: HostRuntime) -> io::Result<()> {
    match sums(&rt, rt.alloc()) {
        Ok(sums) => {
            for sum in sums.as_slice() {
                println!(rt; "{sum}")?;
            }
        }
        Err(NoMemory) => println!(rt; "out of memory")?,
    }
    match sum_of_squares(&rt, rt.alloc(), 10, 3) {
        Some(sum) => println!(rt; "{sum}"),
        None => println!(rt; "out of memory"),
    }
}

// The number with which each task of a diamond ends.
fn sums<R: Threads + Wait + Sync>(rt: &R, alloc: Global) -> Result<List<u64>, NoMemory> {
    let net = Arc::new(alloc, diamond(alloc)?)?;
    let job = SumJob::new(net, List::from_slice(alloc, &[1, 20, 300, 4000])?);
    let run = run_by_crew(rt, alloc, job, WORKERS)?;
    ended_with(alloc, &run)
}

// Four tasks: the first leads to the next two, and both of these to the last.
fn diamond(alloc: Global) -> Result<Net, NoMemory> {
    let mut builder = NetBuilder::new(alloc);
    for _ in 0..4 {
        add_task(alloc, &mut builder)?;
    }
    for (from, to) in [(0, 1), (0, 2), (1, 3), (2, 3)] {
        if builder.edge(from, to, false).is_err() {
            return Err(NoMemory);
        }
    }
    Ok(builder.finish())
}

fn add_task(alloc: Global, builder: &mut NetBuilder) -> Result<(), NoMemory> {
    match builder.task(Shape::Plain, List::new(alloc), List::new(alloc)) {
        Ok(_) => Ok(()),
        Err(_) => Err(NoMemory),
    }
}

// The number with which each task ended.
fn ended_with(alloc: Global, run: &FrameRun<SumJob>) -> Result<List<u64>, NoMemory> {
    let mut sums = List::new(alloc);
    for task in 0..4 {
        sums.push(last_sum(run, task))?;
    }
    Ok(sums)
}

// The number with which a task ended, or 0 if it didn't.
fn last_sum(run: &FrameRun<SumJob>, task: u32) -> u64 {
    let Some(place) = run.last_end(task) else {
        return 0;
    };
    match run.value(place) {
        Some(sum) => *sum,
        None => 0,
    }
}
