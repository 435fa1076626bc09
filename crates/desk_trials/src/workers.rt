// Workers of a desk.
ghost use Rattle.std.specs.Prelude.{◌≡◌, ◌<◌, ◌≤◌, IfOk, length};
ghost use Rattle.span_profile.specs.Watch.{counted};
ghost use Rattle.topology_runs.specs.Teams.{IsReady};
ghost use Rattle.worker_seat.specs.Crews.{IsEntered, MayEnter};

use crate::tick_job::TickJob;
use outside_io::NoMemory;
use span_profile::SpanCount;
use std::alloc::Global;
use std::sync::Wait;
use std::thread::{Threads, for_each_mut};
use topology_runs::Team;
use worker_seat::{Crew, EntersEach, WorkerSeat};

/// Enters each seat by a thread.
pub struct ByThreads;

impl EntersEach<TickJob, SpanCount> for ByThreads {
    fn enter_each<R: Threads + Wait + Sync>(
        rt: &R,
        crew: &Crew<TickJob>,
        seats: &mut [WorkerSeat<TickJob, SpanCount>],
    ) {
        let threads = seats.len().max(1);
        for_each_mut(
            rt,
            seats,
            threads,
            &|_, seat: &mut WorkerSeat<TickJob, SpanCount>|
                requires { MayEnter crew.now seat.old }
                ensures { IsEntered counted seat.old seat.new }
            { crew.work_at(rt, seat) },
        );
    }
}

/// A team of so many workers.
pub fn team(alloc: Global, workers: usize) -> Result<Team<TickJob, SpanCount>, NoMemory>
    requires { workers ≤ 16 }
    ensures { IfOk result IsReady }
{
    let mut watchers = Vec::with_capacity(alloc, workers)?;
    for _ in 0..workers {
        watchers.push_reserved(SpanCount::new());
    }
    Ok(Team::new(alloc, watchers)?)
}
