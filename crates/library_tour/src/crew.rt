// A run by a crew of threads.
ghost use Rattle.std.specs.Prelude.{◌≡◌, ◌<◌, ◌≤◌, IfOk, length};
ghost use Rattle.std.specs.Arc.{arc_value};
ghost use Rattle.ready_deques.specs.Limits.{max_workers};
ghost use Rattle.span_profile.specs.Watch.{counted};
ghost use Rattle.worker_seat.specs.Crews.{IsEntered, IsKeptOf, MayEnter};
ghost use Rattle.library_tour.specs.SumMeaning.{sum_job};

use crate::sum_job::SumJob;
use outside_io::NoMemory;
use run_frame::FrameRun;
use span_profile::SpanCount;
use std::alloc::Global;
use std::sync::{Arc, Wait};
use std::thread::{Threads, for_each_mut};
use worker_seat::{Crew, CrewParts, EntersEach, WorkerSeat, run_by_seats};

// Enters each seat of a crew by a thread of its own.
struct ByThreads;

impl EntersEach<SumJob, SpanCount> for ByThreads {
    fn enter_each<R: Threads + Wait + Sync>(
        rt: &R,
        crew: &Crew<SumJob>,
        seats: &mut [WorkerSeat<SumJob, SpanCount>],
    ) {
        let threads = seats.len().max(1);
        for_each_mut(
            rt,
            seats,
            threads,
            &|_, seat: &mut WorkerSeat<SumJob, SpanCount>|
                requires { MayEnter crew.now seat.old }
                ensures { IsEntered counted seat.old seat.new }
            { crew.work_at(rt, seat) },
        );
    }
}

/// The run of a job by a crew of so many workers: a legal and complete run of just this job, whatever the threads do.
/// `Err`: an allocation failed.
pub fn run_by_crew<R: Threads + Wait + Sync>(
    rt: &R,
    alloc: Global,
    job: SumJob,
    workers: usize,
) -> Result<FrameRun<SumJob>, NoMemory>
    requires { (0 < workers) × (workers ≤ max_workers) }
    ensures { IfOk result (IsKeptOf sum_job job) }
{
    let watchers = new_counts(alloc, workers)?;
    let job = Arc::new(alloc, job)?;
    let Ok(CrewParts { crew, mut seats }) = Crew::new(alloc, watchers) else {
        return Err(NoMemory);
    };
    run_by_seats::<SumJob, SpanCount, ByThreads, R>(rt, &crew, &mut seats, job).ok_or(NoMemory)
}

// So many watchers, each of which counts the spans of one worker.
fn new_counts(alloc: Global, count: usize) -> Result<Vec<SpanCount>, NoMemory>
    ensures { IfOk result (λ watchers. length watchers.items ≡ count) }
{
    let mut watchers = Vec::with_capacity(alloc, count)?;
    for _ in 0..count {
        watchers.push_reserved(SpanCount::new());
    }
    Ok(watchers)
}
