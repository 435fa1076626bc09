// Where a seat is.
ghost use Rattle.std.specs.Prelude.{◌≡◌, ◌↔◌, ℕ, true, Some, IfOk, IfSome, IsSome, IsTrue};
ghost use Rattle.std.specs.Arc.{arc_value};
ghost use Rattle.std.specs.Option.{option_map};
ghost use Rattle.span_profile.specs.Watch.{TellsOn};
ghost use Rattle.worker_seat.specs.Seats.{IsBusy};
ghost use Rattle.worker_seat.specs.inside.SeatPlaces.{HasEntered, HasTold, IsSameOwner, book_at, found_teller, has_found, job_at, owner_list, run_at, FitsRun, IsAtRunOn, IsRunOn};

use crate::crew_run::CrewRun;
use crate::item::CrewItem;
use crate::list::RunsList;
use crate::steps::Shift;
use outside_io::NoMemory;
use ready_deques::Owner;
use run_frame::Job;
use span_book::{Tally, Teller};
use span_profile::Watch;
use std::alloc::Global;
use std::sync::{Arc, Wait};
use table_frames::ClosedRun;
use tickets::Ticket;

/// Where a seat is, with the teller of the spans that its steps end there.
#[derive(Drop)]
pub enum Attendance<J: Job> {
    /// At no run.
    Away,
    /// At a run that it hasn't entered yet.
    At(Arc<CrewRun<J>>, Teller),
    /// At a run that it has found closed.
    Found(Arc<CrewRun<J>>, Ticket<()>, Teller),
    /// At a run that it has entered and not found closed, since an allocation failed.
    Lost(Arc<CrewRun<J>>),
}

/// A closed run, with what the seats at it share.
#[derive(Drop)]
pub struct FetchedRun<J: Job> {
    pub closed: ClosedRun<J>,
    pub run: Arc<CrewRun<J>>,
}

impl<J: Job + Drop> Attendance<J> {
    ghost use Rattle.worker_seat.specs.inside.Attendances.{IsFetched, TellsMore, collected};

    /// Works at the run, if the seat hasn't entered it yet, and looks then whether it is closed. The watcher is told
    /// each span that a step here ends. The run is lost for the seat if it isn't closed then, or if an allocation
    /// failed here.
    pub fn enter<X: Watch, R: Wait>(
        self,
        rt: &R,
        alloc: Global,
        list: &RunsList<J>,
        owner: &mut Owner<CrewItem<J>>,
        watcher: &mut X,
    ) -> Attendance<J>
        requires fits { FitsRun self }
        requires owner { owner_list owner.old ≡ list.now.list }
        requires on_list { IsAtRunOn list.now.list self }
        ensures fits { FitsRun result }
        ensures owner { IsSameOwner owner.old owner.new }
        ensures run { run_at result ≡ run_at self }
        ensures entered { HasEntered result }
        ensures told { (told : ℕ) → HasTold told self → has_found result ≡ true
            → TellsMore X.told told watcher.old result watcher.new }
    {
        let _ = watcher.count(); // at most the greatest u64
        match self {
            Attendance::At(run, teller) => enter_run(rt, alloc, list, run, owner, teller, watcher),
            Attendance::Found(run, ticket, teller) => Attendance::Found(run, ticket, teller),
            Attendance::Lost(run) => Attendance::Lost(run),
            Attendance::Away => Attendance::Away,
        }
    }

    /// Leaves the run, whose tally collects the teller if the seat has found it closed.
    pub fn leave(self, run: &CrewRun<J>, spans: &mut Tally)
        requires fits { FitsRun self }
        requires book { IfSome (book_at self) (λ own. own ≡ run.now.book) }
        requires spans { spans.old.book ≡ run.now.book.name }
        ensures { (told : ℕ) → HasTold told self
            → spans.new ≡ collected (has_found self) told spans.old }
    {
        match self {
            Attendance::Found(_, _, teller) => run.collect(spans, teller),
            Attendance::At(_, _) => (),
            Attendance::Lost(_) => (),
            Attendance::Away => (),
        }
    }

    /// Leaves the run, and takes it along if the seat has found it closed. Its tally has collected the teller then.
    pub fn fetch<R: Wait>(self, rt: &R) -> Option<FetchedRun<J>>
        requires fits { FitsRun self }
        ensures found { has_found self ≡ true → IsSome result }
        ensures run { IfSome result (IsFetched J.meaning self) }
    {
        match self {
            Attendance::Found(run, ticket, teller) => {
                let mut closed = run.fetch(rt, ticket);
                run.collect(&mut closed.spans, teller);
                Some(FetchedRun { closed, run })
            }
            Attendance::At(_, _) => None,
            Attendance::Lost(_) => None,
            Attendance::Away => None,
        }
    }

    /// Whether it is at a run.
    pub fn is_at_run(&self) -> bool
        ensures { IsTrue result ↔ IsBusy (job_at self.now) }
    {
        match self {
            Attendance::At(_, _) => true,
            Attendance::Found(_, _, _) => true,
            Attendance::Lost(_) => true,
            Attendance::Away => false,
        }
    }

    /// The teller, if it is at a run that it has found closed.
    pub fn found_teller(&self) -> Option<&Teller>
        ensures { option_map (λ teller. teller.now) result ≡ found_teller self.now }
    {
        match self {
            Attendance::Found(_, _, teller) => Some(teller),
            Attendance::At(_, _) => None,
            Attendance::Lost(_) => None,
            Attendance::Away => None,
        }
    }

    /// Whether it is at a run that it has found closed.
    pub fn has_found(&self) -> bool
        ensures { result ≡ has_found self.now }
    {
        match self {
            Attendance::Found(_, _, _) => true,
            Attendance::At(_, _) => false,
            Attendance::Lost(_) => false,
            Attendance::Away => false,
        }
    }
}

// Works at a run, and looks then whether it is closed.
fn enter_run<J: Job + Drop, X: Watch, R: Wait>(
    rt: &R,
    alloc: Global,
    list: &RunsList<J>,
    run: Arc<CrewRun<J>>,
    owner: &mut Owner<CrewItem<J>>,
    teller: Teller,
    watcher: &mut X,
) -> Attendance<J>
    requires teller { teller.book ≡ (arc_value run).book.name }
    requires owner { owner_list owner.old ≡ list.now.list }
    requires on_list { IsRunOn list.now.list (arc_value run) }
    ensures fits { FitsRun result }
    ensures owner { IsSameOwner owner.old owner.new }
    ensures run { run_at result ≡ Some (arc_value run) }
    ensures entered { HasEntered result }
    ensures told { IfSome (found_teller result)
        (λ new. TellsOn X.told teller.told new.told watcher.old watcher.new) }
{
    let Ok(teller) = work_at(rt, alloc, list, &run, owner, teller, watcher) else {
        return Attendance::Lost(run);
    };
    match run.find(rt) {
        Some(ticket) => Attendance::Found(run, ticket, teller),
        None => Attendance::Lost(run),
    }
}

// Works at a run until its list is closed.
fn work_at<J: Job + Drop, X: Watch, R: Wait>(
    rt: &R,
    alloc: Global,
    list: &RunsList<J>,
    run: &CrewRun<J>,
    owner: &mut Owner<CrewItem<J>>,
    teller: Teller,
    watcher: &mut X,
) -> Result<Teller, NoMemory>
    requires teller { teller.book ≡ run.now.book.name }
    requires owner { owner_list owner.old ≡ list.now.list }
    requires on_list { IsRunOn list.now.list run.now }
    ensures owner { IsSameOwner owner.old owner.new }
    ensures book { IfOk result (λ new. new.book ≡ teller.book) }
    ensures told { IfOk result
        (λ new. TellsOn X.told teller.told new.told watcher.old watcher.new) }
{
    match run.number() {
        Some(number) => Shift { list, run, number }.work(rt, alloc, owner, teller, watcher),
        None => Ok(teller), // it was closed as it began
    }
}
