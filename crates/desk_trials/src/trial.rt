// A desk of which some callers ask while others serve, each by a thread of its own.
ghost use Rattle.std.specs.Prelude.{◌≡◌, ◌+◌, ◌≤◌, IfOk};
ghost use Rattle.desk_book.specs.Desks.{ArePassesOf, IsPassOf};

use crate::tick_job::TickJob;
use crate::workers::{ByThreads, team};
use outside_io::NoMemory;
use run_desk::{Desk, DeskEnd, DeskParts, DeskPass, DeskRun, Served, serve};
use std::alloc::Global;
use std::sync::atomic::Ordering::SeqCst;
use std::sync::atomic::{AtomicBool, AtomicU64};
use std::sync::{Arc, Wait};
use std::thread::{Threads, for_each_mut, sleep};
use std::time::{Clock, Duration};

// How many microseconds a caller who finds nothing to serve sleeps before it looks again.
const PAUSE: u64 = 100;

/// What is asked of a desk: by so many callers, so often by each, for so many rounds each time, and of the first graph
/// or of both in turn.
#[derive(Clone, Copy)]
pub struct Demand {
    pub askers: u32,
    pub each: u64,
    pub rounds: u64,
    pub of_both: bool,
}

/// A desk, what is asked of it, how many asks were served, and whether one was refused or cut, so that no thread waits
/// for it.
#[derive(Drop)]
pub struct DeskTrial {
    desk: Desk<TickJob>,
    alloc: Global,
    demand: Demand,
    served: AtomicU64,
    failed: AtomicBool,
}

impl DeskTrial {
    fn is_over(&self) -> bool {
        let wanted = (self.demand.askers as u64).saturating_mul(self.demand.each);
        self.failed.load(SeqCst) || self.served.load(SeqCst) >= wanted
    }

    // Asks as often as one caller is to.
    fn ask_all<R: Wait>(&self, rt: &R, pass: &mut DeskPass)
        requires pass { IsPassOf self.now.desk pass.old }
        ensures pass { IsPassOf self.now.desk pass.new }
        ensures caller { pass.new.caller ≡ pass.old.caller }
    {
        for number in 0..self.demand.each {
            let graph = if self.demand.of_both {
                (number % 2) as u32
            } else {
                0
            };
            let Ok(_) = self.desk.ask(rt, pass, graph, self.demand.rounds) else {
                self.failed.store(true, SeqCst);
                return;
            };
        }
    }

    // Serves by one thread until each ask was served.
    fn serve_all<R: Threads + Wait + Clock + Sync>(&self, rt: &R, pass: &mut DeskPass)
        requires pass { IsPassOf self.now.desk pass.old }
        ensures pass { IsPassOf self.now.desk pass.new }
        ensures caller { pass.new.caller ≡ pass.old.caller }
    {
        let Ok(mut team) = team(self.alloc, 1) else {
            self.failed.store(true, SeqCst);
            return;
        };
        for _ in rt.forever() {
            if self.is_over() {
                return;
            }
            match serve::<_, _, ByThreads, _>(rt, self.alloc, &self.desk, pass, &mut team) {
                Served::Ran(_) => {
                    self.served.fetch_add(1, SeqCst);
                }
                Served::Cut(_) => {
                    self.failed.store(true, SeqCst);
                    return;
                }
                Served::Busy(_) | Served::Empty => sleep(rt, Duration::from_micros(PAUSE)),
            }
        }
        unreachable!()
    }

    // What the caller at a place does: the first ones ask, and the others serve.
    fn work_at<R: Threads + Wait + Clock + Sync>(&self, rt: &R, place: usize, pass: &mut DeskPass)
        requires pass { IsPassOf self.now.desk pass.old }
        ensures pass { IsPassOf self.now.desk pass.new }
        ensures caller { pass.new.caller ≡ pass.old.caller }
    {
        if place < self.demand.askers as usize {
            self.ask_all(rt, pass)
        } else {
            self.serve_all(rt, pass)
        }
    }
}

// All callers work, each by a thread of its own.
fn work_together<R: Threads + Wait + Clock + Sync>(
    rt: &R,
    trial: &DeskTrial,
    passes: &mut Vec<DeskPass>,
)
    requires { ArePassesOf trial.now.desk passes.old.items }
    ensures { ArePassesOf trial.now.desk passes.new.items }
{
    let threads = passes.len().max(1);
    for_each_mut(
        rt,
        passes,
        threads,
        &|place, pass: &mut DeskPass|
            requires { IsPassOf trial.now.desk pass.old }
            ensures pass { IsPassOf trial.entry.now.desk pass.new }
            ensures caller { pass.new.caller ≡ pass.old.caller }
        { trial.work_at(rt, place, pass) },
    );
}

// A desk of two graphs with so many callers. The first graph has no task, and the second one.
fn desk_of(alloc: Global, callers: u32) -> Result<DeskParts<TickJob>, NoMemory>
    requires { (1 ≤ callers) × (callers ≤ 64) }
    ensures { IfOk result (λ parts. ArePassesOf parts.desk parts.passes.items) }
{
    let mut jobs = Vec::new(alloc);
    jobs.push(Arc::new(alloc, TickJob::of_tasks(alloc, 0)?)?)?;
    jobs.push(Arc::new(alloc, TickJob::of_tasks(alloc, 1)?)?)?;
    Ok(Desk::new(alloc, jobs, callers)?)
}

/// What a desk of two graphs comes to, of which the first has no task and the second one, where its first callers ask
/// and so many others serve, each by a thread of its own. `None` where an ask was refused or cut.
pub fn run_of_callers<R: Threads + Wait + Clock + Sync>(
    rt: &R,
    alloc: Global,
    demand: Demand,
    servers: u32,
) -> Result<Option<DeskRun<TickJob>>, NoMemory>
    requires { (1 ≤ demand.askers + servers) × (demand.askers + servers ≤ 64) }
{
    let DeskParts { desk, mut passes } = desk_of(alloc, demand.askers + servers)?;
    let trial = DeskTrial {
        desk,
        alloc,
        demand,
        served: AtomicU64::new(0),
        failed: AtomicBool::new(false),
    };
    work_together(rt, &trial, &mut passes);
    let DeskTrial { desk, failed, .. } = trial;
    match desk.finish(rt, passes) {
        DeskEnd::Done(run) if !failed.load(SeqCst) => Ok(Some(run)),
        DeskEnd::Done(_) | DeskEnd::Open(..) => Ok(None),
    }
}
