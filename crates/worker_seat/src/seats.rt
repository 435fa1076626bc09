// What is done with all seats of a crew.
ghost use Rattle.std.specs.Prelude.{◌≡◌, ◌+◌, [], None, length, map, sum_by, All, IfSome, IsSome, IsNone, OnOk, OnErr, position, vec_capacity};
ghost use Rattle.std.specs.Arc.{arc_value};
ghost use Rattle.ready_deques.specs.Lists.{IsOwnerOf};
ghost use Rattle.worker_seat.specs.Seats.{at_job, away, left_refused};
ghost use Rattle.worker_seat.specs.Crews.{AreAtOneRun, AreSpansOf, HasFound, IsFoundRunOf, IsOpen, MayBegin, MayHaveBook, moved, state_of, watcher_of};
ghost use Rattle.worker_seat.specs.inside.Attendances.{AreNew, HasAllTellers, teller_told};
ghost use Rattle.worker_seat.specs.inside.NewRuns.{HasTellers};
ghost use Rattle.worker_seat.specs.inside.SeatPlaces.{list_name, IsRunOn};

use crate::attendance::FetchedRun;
use crate::crew_run::CrewRun;
use crate::item::CrewItem;
use crate::seat::WorkerSeat;
use outside_io::NoMemory;
use ready_deques::{Owner, Ready};
use run_frame::{FrameRun, Job};
use span_book::Teller;
use std::sync::{Arc, Wait};

/// A run that has begun, and tellers of the book of its spans.
#[derive(Drop)]
pub struct NewRun<J: Job> {
    pub run: Arc<CrewRun<J>>,
    pub tellers: Vec<Teller>,
}

/// Sends all seats to a run of their list, each with a teller. After an `Err` all are refused.
pub fn send_all<J: Job + Drop, X>(
    seats: &mut [WorkerSeat<J, X>],
    new: NewRun<J>,
) -> Result<(), NoMemory>
    requires list { All (λ seat. IsRunOn (state_of seat).list (arc_value new.run)) seats.old }
    requires tellers { HasTellers (length seats.old) new }
    ensures ok { OnOk result (seats.new
        ≡ map (moved (at_job (arc_value new.run).job (arc_value new.run).book)) seats.old) }
    ensures err { OnErr result (seats.new ≡ map (moved left_refused) seats.old) }
{
    let NewRun { run, tellers } = new;
    match try_send_all(seats, &run, tellers) {
        Ok(()) => Ok(()),
        Err(NoMemory) => {
            refuse_all(seats);
            Err(NoMemory)
        }
    }
}

// Sends the seats to a run, until an allocation fails.
fn try_send_all<J: Job + Drop, X>(
    seats: &mut [WorkerSeat<J, X>],
    run: &Arc<CrewRun<J>>,
    mut tellers: Vec<Teller>,
) -> Result<(), NoMemory>
    requires list { All (λ seat. IsRunOn (state_of seat).list (arc_value run.now)) seats.old }
    requires tellers { AreNew (arc_value run.now).book.name tellers.items }
    requires count { length tellers.items ≡ length seats.old }
    ensures ok { OnOk result (seats.new
        ≡ map (moved (at_job (arc_value run.now).job (arc_value run.now).book)) seats.old) }
    ensures err { OnErr result
        (map (moved left_refused) seats.new ≡ map (moved left_refused) seats.old) }
{
    for seat in seats.iter_mut() {
        let run = Arc::try_clone(run)?;
        let Some(teller) = tellers.pop() else {
            unreachable!();
        };
        seat.station.attend(run, teller);
    }
    Ok(())
}

/// All seats leave their run, since an allocation failed.
pub fn refuse_all<J: Job + Drop, X>(seats: &mut [WorkerSeat<J, X>])
    ensures { seats.new ≡ map (moved left_refused) seats.old }
{
    for seat in seats.iter_mut() {
        seat.station.refuse();
    }
}

/// All seats leave a run that was fetched, whose tally collects the tellers of those that have found it closed. If
/// these are all tellers, they told as many spans as the run has.
pub fn leave_all<J: Job + Drop, X>(
    seats: &mut [WorkerSeat<J, X>],
    fetched: FetchedRun<J>,
) -> FrameRun<J>
    requires book { All (MayHaveBook (arc_value fetched.run).book) seats.old }
    requires spans { fetched.closed.spans.book ≡ (arc_value fetched.run).book.name }
    ensures seats { seats.new ≡ map (moved away) seats.old }
    ensures run { result ≡ fetched.closed.run }
    ensures spans { HasAllTellers seats.old fetched
        → fetched.closed.spans.told + sum_by teller_told seats.old
        ≡ fetched.closed.spans.noted }
{
    let FetchedRun { mut closed, run } = fetched;
    for seat in seats.iter_mut() {
        seat.station.leave(&run, &mut closed.spans);
    }
    run.settle(&mut closed.spans);
    closed.run
}

/// The run that a seat has found closed. Then all seats leave it. If no seat has, all stay.
pub fn fetch_first<J: Job + Drop, X, R: Wait>(
    rt: &R,
    seats: &mut [WorkerSeat<J, X>],
) -> Option<FrameRun<J>>
    requires { AreAtOneRun (length seats.old) seats.old }
    ensures none { IsNone result → All IsOpen seats.old × (seats.new ≡ seats.old) }
    ensures run { IfSome result (IsFoundRunOf J.meaning seats.old) }
    ensures left { IsSome result → seats.new ≡ map (moved away) seats.old }
    ensures spans { IfSome result (λ run. All HasFound seats.old → AreSpansOf seats.old run) }
{
    let Some(first) = first_closed(seats) else {
        return None;
    };
    match seats[first].station.fetch(rt) {
        Some(fetched) => Some(leave_all(seats, fetched)),
        None => unreachable!(),
    }
}

// The first seat that has found its run closed.
fn first_closed<J: Job + Drop, X>(seats: &[WorkerSeat<J, X>]) -> Option<usize>
    ensures { result ≡ position (λ seat. (state_of seat).closed) seats.now }
{
    seats.iter().position(
        |seat: &WorkerSeat<J, X>| -> bool
            ensures { result ≡ (state_of seat.now).closed }
        { seat.closed() },
    )
}

/// A seat for each watcher, in their order, in the place of those that there is room for.
pub fn seat_all<J: Job + Drop, X: Drop>(
    ready: &Ready<CrewItem<J>>,
    mut seats: Vec<WorkerSeat<J, X>>,
    mut owners: Vec<Owner<CrewItem<J>>>,
    mut watchers: Vec<X>,
) -> Vec<WorkerSeat<J, X>>
    requires empty { seats.items ≡ [] }
    requires room { vec_capacity seats ≡ length watchers.items }
    requires owners { All (IsOwnerOf ready.now) owners.items }
    requires count { length owners.items ≡ length watchers.items }
    ensures watchers { map watcher_of result.items ≡ watchers.items }
    ensures list { All (λ seat. (state_of seat).list ≡ list_name ready.now) result.items }
    ensures ready { All MayBegin result.items }
    ensures away { All (λ seat. (state_of seat).book ≡ None) result.items }
{
    while let Some(owner) = owners.pop() {
        seats.push_reserved(WorkerSeat::new(owner, watchers.remove(0)));
    }
    seats
}
