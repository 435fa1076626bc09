// Where a worker is, and what it takes its work from.
ghost use Rattle.std.specs.Prelude.{◌≡◌, ◌↔◌, true, false, IsTrue, IfSome, IsSome, OnOk, OnErr};
ghost use Rattle.std.specs.Arc.{arc_value};
ghost use Rattle.span_book.specs.SpanBooks.{teller_state};
ghost use Rattle.worker_seat.specs.inside.SeatPlaces.{owner_list, IsRunOn};

use crate::attendance::{Attendance, FetchedRun};
use crate::crew_run::CrewRun;
use crate::item::CrewItem;
use crate::list::RunsList;
use outside_io::NoMemory;
use ready_deques::Owner;
use run_frame::Job;
use span_book::{Tally, Teller};
use span_profile::Watch;
use std::alloc::Global;
use std::marker::Model;
use std::mem;
use std::snapshot::Snapshot;
use std::sync::{Arc, Wait};

/// A seat without its watcher.
#[derive(Drop)]
pub struct Station<J: Job + Drop> {
    owner: Owner<CrewItem<J>>,
    attendance: Attendance<J>,
    refused: bool,
    // The teller with which it last found a run closed, since it last went to one.
    told: Option<Snapshot<Teller>>,
}

impl<J: Job + Drop> Model for Station<J> {
    ghost use Rattle.std.specs.Prelude.{◌≡◌};
    ghost use Rattle.worker_seat.specs.Seats.{SeatState};

    ghost Value = { SeatState J };

    ghost use Rattle.worker_seat.specs.inside.SeatPlaces.{book_at, job_at, has_found, owner_list, told_by, FitsRun, HasTold, IsAtRunOn};

    ghost view = { λ station. record {
      list = owner_list station.owner;
      job = job_at station.attendance;
      book = book_at station.attendance;
      closed = has_found
          station.attendance;
      refused = station.refused;
      told = told_by station.told;
    } };

    ghost invariant = { λ station. FitsRun station.attendance
        × IsAtRunOn (owner_list station.owner) station.attendance
        × HasTold (told_by station.told) station.attendance };
}

impl<J: Job + Drop> Station<J> {
    ghost use Rattle.worker_seat.specs.Seats.{IsBusy, at_job, away, refused_seat, left_refused, new_seat};
    ghost use Rattle.worker_seat.specs.Crews.{HasWorked};
    ghost use Rattle.worker_seat.specs.inside.Attendances.{IsFetchedFrom, collected};

    /// At no run.
    pub fn new(owner: Owner<CrewItem<J>>) -> Station<J>
        ensures { result ≡ new_seat (owner_list owner) }
    {
        Station {
            owner,
            attendance: Attendance::Away,
            refused: false,
            told: None,
        }
    }

    /// Whether it is at a run.
    pub fn is_at_run(&self) -> bool
        ensures { IsTrue result ↔ IsBusy self.now.job }
    {
        self.attendance.is_at_run()
    }

    /// Whether it has found that run closed.
    pub fn has_found(&self) -> bool
        ensures { result ≡ self.now.closed }
    {
        self.attendance.has_found()
    }

    /// Whether an allocation has ever failed for it.
    pub fn is_refused(&self) -> bool
        ensures { result ≡ self.now.refused }
    {
        self.refused
    }

    /// Goes to a run of its list, with a new teller.
    pub fn attend(&mut self, run: Arc<CrewRun<J>>, teller: Teller)
        requires run { IsRunOn self.old.list (arc_value run) }
        requires teller { teller ≡ teller_state (arc_value run).book.name 0 }
        ensures { self.new ≡ at_job (arc_value run).job (arc_value run).book self.old }
    {
        self.attendance = Attendance::At(run, teller);
        self.told = None;
    }

    /// Leaves its run, whose tally collects its teller if it has found the run closed.
    pub fn leave(&mut self, run: &CrewRun<J>, spans: &mut Tally)
        requires book { IfSome self.old.book (λ own. own ≡ run.now.book) }
        requires spans { spans.old.book ≡ run.now.book.name }
        ensures seat { self.new ≡ away self.old }
        ensures spans { spans.new ≡ collected self.old.closed self.old.told spans.old }
    {
        mem::replace(&mut self.attendance, Attendance::Away).leave(run, spans);
    }

    /// Leaves its run, since an allocation failed.
    pub fn refuse(&mut self)
        ensures { self.new ≡ left_refused self.old }
    {
        self.attendance = Attendance::Away;
        self.refused = true;
        self.told = None;
    }

    /// Works until its list is closed, and looks then whether its run is closed. The watcher is told each span that a
    /// step here ends. It answers `Err` if the run isn't closed, or if an allocation failed here.
    pub fn enter<X: Watch, R: Wait>(
        &mut self,
        rt: &R,
        alloc: Global,
        list: &RunsList<J>,
        watcher: &mut X,
    ) -> Result<(), NoMemory>
        requires { self.old.list ≡ list.now.list }
        ensures ok { OnOk result (HasWorked X.told self.old watcher.old self.new watcher.new) }
        ensures err { OnErr result (self.new ≡ refused_seat self.old) }
    {
        let attendance = mem::replace(&mut self.attendance, Attendance::Away);
        self.attendance = attendance.enter(rt, alloc, list, &mut self.owner, watcher);
        match self.attendance.found_teller() {
            Some(teller) => {
                self.told = Some(Snapshot::of(teller));
                Ok(())
            }
            None => {
                self.refused = true;
                Err(NoMemory)
            }
        }
    }

    /// Leaves its run, and takes it along if it has found it closed. Its tally has collected the teller then.
    pub fn fetch<R: Wait>(&mut self, rt: &R) -> Option<FetchedRun<J>>
        ensures seat { self.new ≡ away self.old }
        ensures found { self.old.closed ≡ true → IsSome result }
        ensures run { IfSome result (IsFetchedFrom J.meaning self.old) }
    {
        mem::replace(&mut self.attendance, Attendance::Away).fetch(rt)
    }
}
