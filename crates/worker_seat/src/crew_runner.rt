// A job run by all seats of a crew.
ghost use Rattle.std.specs.Prelude.{◌≡◌, ◌≤◌, [], None, length, map, All, IfSome, IsSome, vec_capacity};
ghost use Rattle.std.specs.Arc.{arc_value};
ghost use Rattle.std.specs.Thread.{IsSync};
ghost use Rattle.worker_seat.specs.Crews.{AreEntered, AreSeatsOf, AreSpansOf, AreWatched, IsKeptOf, IsServed, MayBegin, MayEnter, state_of, watcher_of};

use crate::crew::Crew;
use crate::seat::WorkerSeat;
use outside_io::NoMemory;
use run_frame::{FrameRun, Job};
use span_profile::Watch;
use std::sync::{Arc, Wait};
use std::thread::Threads;

/// What enters all seats of a crew, each by a thread. It is written once for each type of jobs, since that a seat may
/// go to a thread is shown where the type of the job is known.
pub trait EntersEach<J: Job + Drop, X: Watch> {
    /// Enters each of these seats.
    fn enter_each<R: Threads + Wait + Sync>(rt: &R, crew: &Crew<J>, seats: &mut [WorkerSeat<J, X>])
        requires sync { IsSync R.row }
        requires seats { All (MayEnter crew.now) seats.old }
        ensures { AreEntered X.told seats.old seats.new };
}

/// Runs a job to its end by all seats of a crew, which are at no run and were never refused. `None` comes only if an
/// allocation fails. After a run they are at none; one of them may have been refused all the same, where an allocation
/// failed for it and the run was closed by others. The watcher of a seat that wasn't was told as many spans as its
/// steps ended, and if none was, these are as many as the run has, with the runs inside it.
pub fn run_by_seats<J: Job + Drop, X: Watch, E: EntersEach<J, X>, R: Threads + Wait + Sync>(
    rt: &R,
    crew: &Crew<J>,
    seats: &mut Vec<WorkerSeat<J, X>>,
    job: Arc<J>,
) -> Option<FrameRun<J>>
    requires seats { AreSeatsOf crew.now seats.old.items }
    requires ready { All MayBegin seats.old.items }
    ensures run { IfSome result (IsKeptOf J.meaning (arc_value job)) }
    ensures seats { AreSeatsOf crew.now seats.new.items }
    ensures free { IsSome result → All (λ seat. (state_of seat).job ≡ None) seats.new.items }
    ensures spans { IfSome result
        (λ run. All IsServed seats.new.items → AreSpansOf seats.new.items run) }
    ensures watchers { AreWatched X.told seats.old.items seats.new.items }
{
    match crew.begin(rt, seats, job) {
        Ok(()) => {
            E::enter_each(rt, crew, seats.as_mut_slice());
            crew.finish(rt, seats)
        }
        Err(NoMemory) => None,
    }
}

/// The watchers of seats, in their order, in the place of those that there is room for.
pub fn watchers_of<J: Job + Drop, X: Drop>(
    mut seats: Vec<WorkerSeat<J, X>>,
    mut watchers: Vec<X>,
) -> Vec<X>
    requires empty { watchers.items ≡ [] }
    requires room { length seats.items ≤ vec_capacity watchers }
    ensures { result.items ≡ map watcher_of seats.items }
{
    while !seats.is_empty() {
        watchers.push_reserved(seats.remove(0).into_watcher());
    }
    watchers
}
