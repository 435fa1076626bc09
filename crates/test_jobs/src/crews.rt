// Runs by crews of threads.
ghost use Rattle.std.specs.Prelude.{◌≡◌, ◌<◌, ◌≤◌, IfOk, length};
ghost use Rattle.ready_deques.specs.Limits.{max_workers};
ghost use Rattle.span_profile.specs.Watch.{counted};
ghost use Rattle.worker_seat.specs.Crews.{IsEntered, MayEnter};

use crate::job::NumberJob;
use outside_io::NoMemory;
use run_frame::FrameRun;
use span_profile::SpanCount;
use std::alloc::Global;
use std::sync::{Arc, Wait};
use std::thread::{Threads, for_each_mut};
use worker_seat::{Crew, CrewParts, EntersEach, WorkerSeat, run_by_seats};

// Enters each seat by a thread.
struct ByThreads;

impl EntersEach<NumberJob, SpanCount> for ByThreads {
    fn enter_each<R: Threads + Wait + Sync>(
        rt: &R,
        crew: &Crew<NumberJob>,
        seats: &mut [WorkerSeat<NumberJob, SpanCount>],
    ) {
        let threads = seats.len().max(1);
        for_each_mut(
            rt,
            seats,
            threads,
            &|_, seat: &mut WorkerSeat<NumberJob, SpanCount>|
                requires { MayEnter crew.now seat.old }
                ensures { IsEntered counted seat.old seat.new }
            { crew.work_at(rt, seat) },
        );
    }
}

/// The run of a job by a crew of so many workers, each by a thread of its own.
pub fn run_by_workers<R: Threads + Wait + Sync>(
    rt: &R,
    alloc: Global,
    job: NumberJob,
    workers: usize,
) -> Result<FrameRun<NumberJob>, NoMemory>
    requires { (0 < workers) × (workers ≤ max_workers) }
{
    let watchers = new_counts(alloc, workers)?;
    let job = Arc::new(alloc, job)?;
    let Ok(CrewParts { crew, mut seats }) = Crew::new(alloc, watchers) else {
        return Err(NoMemory);
    };
    run_by_seats::<NumberJob, SpanCount, ByThreads, R>(rt, &crew, &mut seats, job).ok_or(NoMemory)
}

// So many watchers that count.
fn new_counts(alloc: Global, count: usize) -> Result<Vec<SpanCount>, NoMemory>
    ensures { IfOk result (λ watchers. length watchers.items ≡ count) }
{
    let mut watchers = Vec::with_capacity(alloc, count)?;
    for _ in 0..count {
        watchers.push_reserved(SpanCount::new());
    }
    Ok(watchers)
}
