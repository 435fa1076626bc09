// Runs of the jobs: each by one thread in ten orders and by `run_alone`, and each by crews.
ghost use Rattle.std.specs.Prelude.{◌<◌, ◌≤◌};
ghost use Rattle.ready_deques.specs.Limits.{max_workers};

use crate::job_cases::{JobCase, case_of};
use crate::orders::{Order, run_in_order};
use crate::run_checks::{By, check_whole};
use crate::{inner_cases, plain_cases, unit_cases};
use nested_runs::spans;
use ready_deques::MAX_WORKERS;
use run_frame::FrameRun;
use span_profile::{SpanCount, Watch};
use std::alloc::Global;
use std::process::Abort;
use std::sync::{Arc, Wait};
use std::test::Fail;
use std::thread::Threads;
use table_frames::run_alone;
use test_jobs::{NumberJob, run_by_workers};

const ORDERS: [Order; 10] = [
    Order::Newest,
    Order::Oldest,
    Order::Mixed(1),
    Order::Mixed(2),
    Order::Mixed(3),
    Order::Mixed(5),
    Order::Mixed(7),
    Order::Mixed(11),
    Order::Mixed(13),
    Order::Mixed(17),
];

const CREWS: [usize; 4] = [1, 2, 4, 16];

/// How cases are run.
#[derive(Clone, Copy)]
enum Way {
    /// By one thread.
    OneThread,
    /// By each crew, so often.
    Crews(u32),
}

#[test]
fn jobs_are_run_by_one_thread(rt: HostRuntime) -> Result<(), Fail> {
    run_each(&rt, rt.alloc(), Way::OneThread, &plain_cases::TABLES)?;
    run_each(&rt, rt.alloc(), Way::OneThread, &unit_cases::TABLES)?;
    run_each(&rt, rt.alloc(), Way::OneThread, &inner_cases::TABLES)
}

#[test]
fn plain_jobs_are_run_by_crews(rt: HostRuntime) -> Result<(), Fail> {
    run_each(&rt, rt.alloc(), Way::Crews(5), &plain_cases::TABLES)
}

#[test]
fn jobs_with_units_are_run_by_crews(rt: HostRuntime) -> Result<(), Fail> {
    run_each(&rt, rt.alloc(), Way::Crews(10), &unit_cases::TABLES)
}

#[test]
fn jobs_with_runs_inside_are_run_by_crews(rt: HostRuntime) -> Result<(), Fail> {
    run_each(&rt, rt.alloc(), Way::Crews(20), &inner_cases::TABLES)
}

// Runs each case of these tables.
fn run_each<R: Threads + Wait + Abort + Sync>(
    rt: &R,
    alloc: Global,
    way: Way,
    tables: &[&str],
) -> Result<(), Fail> {
    for table in tables {
        run_table(rt, alloc, way, table)?;
    }
    Ok(())
}

fn run_table<R: Threads + Wait + Abort + Sync>(
    rt: &R,
    alloc: Global,
    way: Way,
    table: &str,
) -> Result<(), Fail> {
    for line in table.split('\n') {
        let case = case_of(line)?;
        match way {
            Way::OneThread => run_unless_met(rt, alloc, &case)?,
            Way::Crews(times) => run_by_crews(rt, alloc, &case, times)?,
        }
    }
    Ok(())
}

// By one thread, where no tasks have to meet.
fn run_unless_met(rt: &(impl Wait + Abort), alloc: Global, case: &JobCase<'_>) -> Result<(), Fail> {
    if case.meeting == 0 {
        run_by_one(rt, alloc, case)
    } else {
        Ok(())
    }
}

fn run_by_one(rt: &(impl Wait + Abort), alloc: Global, case: &JobCase<'_>) -> Result<(), Fail> {
    for order in ORDERS {
        let Some((run, told)) = run_in_order(rt, alloc, case.job(alloc)?, order)? else {
            panic!(rt; "{} doesn't end", case.name);
        };
        check_whole(rt, alloc, case, By::OneThread, &run)?;
        check_told(rt, case, &run, told);
    }
    let mut told = SpanCount::new();
    let run = run_alone(rt, alloc, Arc::new(alloc, case.job(alloc)?)?, &mut told)?;
    check_whole(rt, alloc, case, By::OneThread, &run)?;
    check_told(rt, case, &run, told.count());
    Ok(())
}

// So many spans were told as the run has, with those inside it.
fn check_told(rt: &impl Abort, case: &JobCase<'_>, run: &FrameRun<NumberJob>, told: u64) {
    assert!(rt; told == spans(run), "{}: {told} spans", case.name);
}

// By the crews that have as many seats as tasks are to meet.
fn run_by_crews<R: Threads + Wait + Abort + Sync>(
    rt: &R,
    alloc: Global,
    case: &JobCase<'_>,
    times: u32,
) -> Result<(), Fail> {
    for workers in CREWS {
        assert!(rt; 0 < workers && workers <= MAX_WORKERS, "{workers} workers");
        if workers as u64 >= case.meeting {
            run_by_crew(rt, alloc, case, workers, times)?;
        }
    }
    Ok(())
}

fn run_by_crew<R: Threads + Wait + Abort + Sync>(
    rt: &R,
    alloc: Global,
    case: &JobCase<'_>,
    workers: usize,
    times: u32,
) -> Result<(), Fail>
    requires { (0 < workers) × (workers ≤ max_workers) }
{
    for _ in 0..times {
        let run = run_by_workers(rt, alloc, case.job(alloc)?, workers)?;
        check_whole(rt, alloc, case, By::Crew, &run)?;
    }
    Ok(())
}
