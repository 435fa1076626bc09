// Seats.
ghost use Rattle.std.specs.Prelude.{◌≡◌, ◌↔◌, IsTrue};
ghost use Rattle.worker_seat.specs.inside.SeatPlaces.{owner_list};

use crate::item::CrewItem;
use crate::station::Station;
use ready_deques::Owner;
use run_frame::Job;
use span_profile::Watch;

/// A worker's seat in a crew, for a thread of the caller, with its watcher of type `X`.
pub struct WorkerSeat<J: Job + Drop, X> {
    pub(crate) watcher: X,
    pub(crate) station: Station<J>,
}

// Written out, so that it is proved here alone and not in each crate above.
impl<J: Job + Drop, X: Drop> Drop for WorkerSeat<J, X> {
    fn drop(self) {
        let WorkerSeat { watcher, station } = self;
        drop((watcher, station));
    }
}

impl<J: Job + Drop, X: Watch> WorkerSeat<J, X> {
    ghost use Rattle.worker_seat.specs.Crews.{watcher_of};

    /// How many spans its watcher was told.
    pub fn watched(&self) -> u64
        ensures { result ≡ X.told (watcher_of self.now) }
    {
        self.watcher.count()
    }
}

impl<J: Job + Drop, X> WorkerSeat<J, X> {
    ghost use Rattle.worker_seat.specs.Seats.{IsBusy, new_seat};
    ghost use Rattle.worker_seat.specs.Crews.{watcher_of, state_of};

    /// Whether it is at a run: from a `begin` that answered Ok to the `finish` that hands out its run.
    pub fn busy(&self) -> bool
        ensures { IsTrue result ↔ IsBusy (state_of self.now).job }
    {
        self.station.is_at_run()
    }

    /// Whether an `enter` has found that run closed.
    pub fn closed(&self) -> bool
        ensures { result ≡ (state_of self.now).closed }
    {
        self.station.has_found()
    }

    /// Whether a `begin` or an `enter` of it has ever answered NoMemory.
    pub fn refused(&self) -> bool
        ensures { result ≡ (state_of self.now).refused }
    {
        self.station.is_refused()
    }

    /// Its watcher.
    pub fn into_watcher(self) -> X
        ensures { result ≡ watcher_of self }
    {
        let WorkerSeat { watcher, station } = self;
        drop(station);
        watcher
    }

    // A seat at no run.
    pub(crate) fn new(owner: Owner<CrewItem<J>>, watcher: X) -> WorkerSeat<J, X>
        ensures state { state_of result ≡ new_seat (owner_list owner) }
        ensures watcher { watcher_of result ≡ watcher }
    {
        WorkerSeat {
            watcher,
            station: Station::new(owner),
        }
    }
}
