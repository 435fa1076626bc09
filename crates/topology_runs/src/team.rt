// Teams of workers.
ghost use Rattle.std.specs.Prelude.{◌≡◌, ◌≢◌, ◌<◌, ◌≤◌, [], length, map, vec_capacity, All, IfOk, IfErr, OnOk};
ghost use Rattle.std.specs.List.{list_any};
ghost use Rattle.std.specs.Arc.{arc_value};
ghost use Rattle.nested_runs.specs.Totals.{all_spans};
ghost use Rattle.ready_deques.specs.Limits.{max_workers};
ghost use Rattle.topology_runs.specs.Told.{AreTold};
ghost use Rattle.worker_seat.specs.Crews.{AreSeatsOf, IsKeptOf, MayBegin, state_of, watcher_of};

use outside_io::{Back, NoMemory};
use run_frame::{FrameRun, Job};
use span_profile::{SpanCount, Watch};
use std::alloc::Global;
use std::sync::{Arc, Wait};
use std::thread::Threads;
use table_frames::run_alone;
use worker_seat::{Crew, CrewParts, EntersEach, WorkerSeat, run_by_seats, watchers_of};

/// Workers that run one job after another, each with a watcher of type `X`.
pub struct Team<J: Job + Drop, X> {
    alloc: Global,
    workers: Workers<J, X>,
}

// Who works.
enum Workers<J: Job + Drop, X> {
    // The caller's thread, which needs no lock. It has at most one watcher.
    Alone(Vec<X>),
    // All seats of a crew.
    Seated(Crew<J>, Vec<WorkerSeat<J, X>>),
}

// Written out, so that it is proved here alone and not in each crate above.
impl<J: Job + Drop, X: Drop> Drop for Team<J, X> {
    fn drop(self) {
        let Team { alloc: _, workers } = self;
        match workers {
            Workers::Alone(watchers) => drop(watchers),
            Workers::Seated(crew, seats) => drop((crew, seats)),
        }
    }
}

impl<J: Job + Drop, X: Watch> Team<J, X> {
    ghost use Rattle.topology_runs.specs.Teams.{IsReady, watchers_of};

    /// A team with a worker for each of at most `MAX_WORKERS` watchers, or of one worker without. It may run a job. The
    /// watchers come back if an allocation fails.
    pub fn new(alloc: Global, watchers: Vec<X>) -> Result<Team<J, X>, Back<Vec<X>>>
        requires { length watchers.items ≤ max_workers }
        ensures ready { IfOk result IsReady }
        ensures watchers { IfOk result (λ team. watchers_of team ≡ watchers.items) }
        ensures back { IfErr result (λ back. back.item ≡ watchers) }
    {
        if watchers.len() < 2 {
            let workers = Workers::Alone(watchers);
            return Ok(Team { alloc, workers });
        }
        match Crew::new(alloc, watchers) {
            Ok(CrewParts { crew, seats }) => {
                let workers = Workers::Seated(crew, seats);
                Ok(Team { alloc, workers })
            }
            Err(back) => Err(back),
        }
    }

    /// Runs a job to its end. The watchers, if there are any, are together told as many spans as the run has, with the
    /// runs inside it. After an `Err`, which comes only if an allocation fails, the team runs no further job.
    pub fn run<E: EntersEach<J, X>, R: Threads + Wait + Sync>(
        &mut self,
        rt: &R,
        job: Arc<J>,
    ) -> Result<FrameRun<J>, NoMemory>
        requires { IsReady self.old }
        ensures run { IfOk result (IsKeptOf J.meaning (arc_value job)) }
        ensures ready { OnOk result (IsReady self.new) }
        ensures watchers { IfOk result (λ run. watchers_of self.old ≢ []
            → AreTold X.told (all_spans run) (watchers_of self.old) (watchers_of self.new)) }
        ensures count { length (watchers_of self.new) ≡ length (watchers_of self.old) }
    {
        match &mut self.workers {
            Workers::Alone(watchers) => run_watched(rt, self.alloc, watchers, job),
            Workers::Seated(crew, seats) => run_seated::<J, X, E, R>(rt, crew, seats, job),
        }
    }

    /// The watchers, in their order, in the place of those that there is room for.
    pub fn into_watchers(self, room: Vec<X>) -> Vec<X>
        requires empty { room.items ≡ [] }
        requires room { length (watchers_of self) ≤ vec_capacity room }
        ensures { result.items ≡ watchers_of self }
    {
        let Team { alloc: _, workers } = self;
        match workers {
            Workers::Alone(watchers) => watchers,
            Workers::Seated(_, seats) => watchers_of(seats, room),
        }
    }
}

// Runs a job on the caller's thread, whose watcher is told its spans, if there is one.
fn run_watched<J: Job + Drop, X: Watch, R: Wait>(
    rt: &R,
    alloc: Global,
    watchers: &mut Vec<X>,
    job: Arc<J>,
) -> Result<FrameRun<J>, NoMemory>
    requires { length watchers.old.items < 2 }
    ensures run { IfOk result (IsKeptOf J.meaning (arc_value job)) }
    ensures watchers { IfOk result (λ run. watchers.old.items ≢ []
        → AreTold X.told (all_spans run) watchers.old.items watchers.new.items) }
    ensures count { length watchers.new.items ≡ length watchers.old.items }
{
    if watchers.is_empty() {
        return run_alone(rt, alloc, job, &mut SpanCount::new());
    }
    run_alone(rt, alloc, job, &mut watchers[0])
}

// Runs a job by the seats of a crew. If an allocation failed for one of them, none of them is at a run again, and the
// run is given up, also where others have closed it.
fn run_seated<J: Job + Drop, X: Watch, E: EntersEach<J, X>, R: Threads + Wait + Sync>(
    rt: &R,
    crew: &Crew<J>,
    seats: &mut Vec<WorkerSeat<J, X>>,
    job: Arc<J>,
) -> Result<FrameRun<J>, NoMemory>
    requires seats { AreSeatsOf crew.now seats.old.items }
    requires ready { All MayBegin seats.old.items }
    ensures run { IfOk result (IsKeptOf J.meaning (arc_value job)) }
    ensures seats { OnOk result (AreSeatsOf crew.now seats.new.items) }
    ensures ready { OnOk result (All MayBegin seats.new.items) }
    ensures watchers { IfOk result (λ run. AreTold X.told (all_spans run)
        (map watcher_of seats.old.items) (map watcher_of seats.new.items)) }
    ensures count { length seats.new.items ≡ length seats.old.items }
{
    let run = run_by_seats::<J, X, E, R>(rt, crew, seats, job);
    if any_refused(seats.as_slice()) {
        return Err(NoMemory);
    }
    run.ok_or(NoMemory)
}

// Whether an allocation has failed for one of the seats.
fn any_refused<J: Job + Drop, X>(seats: &[WorkerSeat<J, X>]) -> bool
    ensures { result ≡ list_any (λ seat. (state_of seat).refused) seats.now }
{
    seats.iter().any(
        |seat: &WorkerSeat<J, X>| -> bool
            ensures { result ≡ (state_of seat.now).refused }
        { seat.refused() },
    )
}
