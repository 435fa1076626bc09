// Crews.
ghost use Rattle.std.specs.Prelude.{◌≡◌, ◌≢◌, ◌<◌, ◌≤◌, [], length, map, All, IfOk, IfErr, IfSome, IsSome, IsNone, OnOk, OnErr, vec_capacity};
ghost use Rattle.std.specs.Arc.{arc_value};
ghost use Rattle.ready_deques.specs.Limits.{max_workers};
ghost use Rattle.span_book.specs.SpanBooks.{name_of, tally_state};
ghost use Rattle.worker_seat.specs.inside.Attendances.{AreNew};
ghost use Rattle.worker_seat.specs.inside.Runs.{AreOfRun, IsClosedOf, book_of_run};
ghost use Rattle.worker_seat.specs.inside.SeatPlaces.{IsRunOn};

use crate::crew_run::CrewRun;
use crate::frame_numbers::NumberedFrames;
use crate::list::{RunsList, TaggedList};
use crate::seat::WorkerSeat;
use crate::seats::{NewRun, fetch_first, refuse_all, seat_all, send_all};
use outside_io::{Back, NoMemory};
use ready_deques::{Ready, Shares};
use run_frame::{FrameRun, Job};
use span_book::{SpanBook, Tally, Teller};
use span_profile::Watch;
use std::alloc::Global;
use std::sync::{Arc, Wait};
use table_frames::{ClosedRun, Frame, Release, State, Stepped};

/// What the seats of a crew share.
pub struct Crew<J: Job + Drop> {
    pub(crate) alloc: Global,
    pub(crate) list: RunsList<J>,
}

// Written out, so that it is proved here alone and not in each crate above.
impl<J: Job + Drop> Drop for Crew<J> {
    fn drop(self) {
        let Crew { alloc: _, list } = self;
        drop(list);
    }
}

/// A new crew, and all its seats.
#[derive(Drop)]
pub struct CrewParts<J: Job + Drop, X> {
    pub crew: Crew<J>,
    pub seats: Vec<WorkerSeat<J, X>>,
}

impl<J: Job + Drop> Crew<J> {
    ghost use Rattle.worker_seat.specs.Seats.{IsBusy, away, left_refused, refused_seat};
    ghost use Rattle.worker_seat.specs.Crews.{AreSeatsOf, AreSent, AreSpansOf, HasFound, HasWatched, IsEntered, IsFoundRunOf, IsOpen, IsSeatOf, MayBegin, MayEnter, crew_of, moved, state_of, watcher_of};
    ghost use Rattle.worker_seat.specs.inside.NewRuns.{HasTellers};

    /// A crew with a seat for each of 1 to `MAX_WORKERS` watchers, in their order. They come back if an allocation
    /// fails.
    pub fn new<X: Drop>(alloc: Global, watchers: Vec<X>) -> Result<CrewParts<J, X>, Back<Vec<X>>>
        requires { (0 < length watchers.items) × (length watchers.items ≤ max_workers) }
        ensures crew { IfOk result (λ parts. AreSeatsOf parts.crew parts.seats.items) }
        ensures new { IfOk result (λ parts. All MayBegin parts.seats.items) }
        ensures watchers { IfOk result
            (λ parts. map watcher_of parts.seats.items ≡ watchers.items) }
        ensures back { IfErr result (λ back. back.item ≡ watchers) }
    {
        let count = watchers.len();
        let Ok(begun) = NumberedFrames::new(alloc) else {
            return Err(Back { item: watchers });
        };
        let Ok(Shares { ready, owners }) = Ready::new(alloc, count as u32, &begun) else {
            return Err(Back { item: watchers });
        };
        let Ok(room) = Vec::with_capacity(alloc, count) else {
            return Err(Back { item: watchers });
        };
        let seats = seat_all(&ready, room, owners, watchers);
        let list = TaggedList {
            ready,
            begun,
            owners: count,
        };
        Ok(CrewParts {
            crew: Crew { alloc, list },
            seats,
        })
    }

    /// Begins a run of a job, for all seats of this crew, with one book of its spans. None of them is at a run, and
    /// none was ever refused. After an `Err`, which comes only if an allocation fails, all are refused.
    pub fn begin<X, R: Wait>(
        &self,
        rt: &R,
        seats: &mut Vec<WorkerSeat<J, X>>,
        job: Arc<J>,
    ) -> Result<(), NoMemory>
        requires seats { AreSeatsOf self.now seats.old.items }
        requires ready { All MayBegin seats.old.items }
        ensures ok { OnOk result (AreSent (crew_of self.now).seats (arc_value job)
            seats.old.items seats.new.items) }
        ensures err { OnErr result (seats.new.items ≡ map (moved left_refused) seats.old.items) }
    {
        match self.begun(rt, &job) {
            Ok(new) => send_all(seats.as_mut_slice(), new),
            Err(NoMemory) => {
                refuse_all(seats.as_mut_slice());
                Err(NoMemory)
            }
        }
    }

    /// Works on the run that the seat is at, on the caller's thread, until the run is closed. It may wait. The seat's
    /// watcher is told each span that a step here ends, as soon as it has ended. After an `Err`, which comes only if an
    /// allocation fails here or for another seat of the crew, the seat is refused, also where the run is closed.
    pub fn enter<X: Watch, R: Wait>(
        &self,
        rt: &R,
        seat: &mut WorkerSeat<J, X>,
    ) -> Result<(), NoMemory>
        requires seat { IsSeatOf self.now seat.old }
        requires busy { IsBusy (state_of seat.old).job }
        ensures ok { OnOk result (HasWatched X.told seat.old seat.new) }
        ensures err { OnErr result (state_of seat.new ≡ refused_seat (state_of seat.old)) }
    {
        match seat
            .station
            .enter(rt, self.alloc, &self.list, &mut seat.watcher)
        {
            Ok(()) => Ok(()),
            Err(NoMemory) => {
                self.list.close(); // if the run isn't closed it never is, so nobody has to wait for it
                Err(NoMemory)
            }
        }
    }

    /// Enters a seat, and leaves it to the seat what came of that.
    pub fn work_at<X: Watch, R: Wait>(&self, rt: &R, seat: &mut WorkerSeat<J, X>)
        requires { MayEnter self.now seat.old }
        ensures { IsEntered X.told seat.old seat.new }
    {
        match self.enter(rt, seat) {
            Ok(()) => (),
            Err(NoMemory) => (),
        }
    }

    /// Hands out the run that a seat has found closed, and takes all seats away from it. `None` exactly where no seat
    /// has found it closed. Then all stay as they are. If all have, their steps ended as many spans as the run has.
    pub fn finish<X, R: Wait>(
        &self,
        rt: &R,
        seats: &mut Vec<WorkerSeat<J, X>>,
    ) -> Option<FrameRun<J>>
        requires { AreSeatsOf self.now seats.old.items }
        ensures run { IfSome result (IsFoundRunOf J.meaning seats.old.items) }
        ensures spans { IfSome result
            (λ run. All HasFound seats.old.items → AreSpansOf seats.old.items run) }
        ensures left { IsSome result → seats.new.items ≡ map (moved away) seats.old.items }
        ensures none { IsNone result → All IsOpen seats.old.items
            × (seats.new.items ≡ seats.old.items) }
    {
        let _ = &self.list;
        fetch_first(rt, seats.as_mut_slice())
    }

    // A run of a job, with a teller for each seat, whose first releases are on the list. If it has none it is closed,
    // and so is the list.
    fn begun<R: Wait>(&self, rt: &R, job: &Arc<J>) -> Result<NewRun<J>, NoMemory>
        ensures job { IfOk result (λ new. (arc_value new.run).job ≡ arc_value job.now) }
        ensures tellers { IfOk result (HasTellers (crew_of self.now).seats) }
        ensures list { IfOk result (λ new. IsRunOn (crew_of self.now).list (arc_value new.run)) }
    {
        let count = self.list.owners;
        let room = Vec::with_capacity(self.alloc, count)?;
        let (book, mut spans) = SpanBook::new(self.alloc, count as u64)?;
        let tellers = deal_all(&book, &mut spans, count, room);
        let book = Arc::new(self.alloc, book)?;
        let run = self.run_in(rt, job, book, spans)?;
        Ok(NewRun { run, tellers })
    }

    // A run of a job with this book of its spans, whose tellers are dealt.
    fn run_in<R: Wait>(
        &self,
        rt: &R,
        job: &Arc<J>,
        book: Arc<SpanBook>,
        spans: Tally,
    ) -> Result<Arc<CrewRun<J>>, NoMemory>
        requires { spans ≡ tally_state (name_of (arc_value book)) 0 0 0 0 }
        ensures job { IfOk result (λ run. (arc_value run).job ≡ arc_value job.now) }
        ensures book { IfOk result (λ run. (arc_value run).book ≡ book_of_run (arc_value book)) }
        ensures list { IfOk result (λ run. IsRunOn (crew_of self.now).list (arc_value run)) }
    {
        let job_again = Arc::try_clone(job)?;
        let book_again = Arc::try_clone(&book)?;
        let Stepped { released, state } = Frame::begin(self.alloc, job_again, book_again, spans)?;
        match state {
            State::Closed(closed) => self.closed_run(rt, job, book, closed),
            _ => self.open_run(rt, job, book, released),
        }
    }

    // A run that was closed as it began.
    fn closed_run<R: Wait>(
        &self,
        rt: &R,
        job: &Arc<J>,
        book: Arc<SpanBook>,
        closed: ClosedRun<J>,
    ) -> Result<Arc<CrewRun<J>>, NoMemory>
        requires { IsClosedOf J.meaning (arc_value job.now) (name_of (arc_value book)) closed }
        ensures job { IfOk result (λ run. (arc_value run).job ≡ arc_value job.now) }
        ensures book { IfOk result (λ run. (arc_value run).book ≡ book_of_run (arc_value book)) }
        ensures list { IfOk result (λ run. IsRunOn (crew_of self.now).list (arc_value run)) }
    {
        let run = Arc::new(self.alloc, CrewRun::new(self.alloc, job, book, None)?)?;
        run.close(rt, closed);
        self.list.close();
        Ok(run)
    }

    // A run that has begun with these releases, which go on the list.
    fn open_run<R: Wait>(
        &self,
        rt: &R,
        job: &Arc<J>,
        book: Arc<SpanBook>,
        released: Vec<Release<J>>,
    ) -> Result<Arc<CrewRun<J>>, NoMemory>
        requires some { released.items ≢ [] }
        requires run { AreOfRun (arc_value job.now) (name_of (arc_value book)) released.items }
        ensures job { IfOk result (λ run. (arc_value run).job ≡ arc_value job.now) }
        ensures book { IfOk result (λ run. (arc_value run).book ≡ book_of_run (arc_value book)) }
        ensures list { IfOk result (λ run. IsRunOn (crew_of self.now).list (arc_value run)) }
    {
        let number = self.list.begun.add(rt, &released[0])?;
        self.list.inject_all(rt, &number, released)?;
        self.list.reopen();
        let run = CrewRun::new(self.alloc, job, book, Some(number))?;
        Ok(Arc::new(self.alloc, run)?)
    }
}

// So many tellers of a book, in the place of those that there is room for.
fn deal_all(
    book: &SpanBook,
    spans: &mut Tally,
    count: usize,
    mut tellers: Vec<Teller>,
) -> Vec<Teller>
    requires spans { spans.old ≡ tally_state (name_of book.now) count 0 0 0 }
    requires empty { tellers.items ≡ [] }
    requires room { vec_capacity tellers ≡ count }
    ensures spans { spans.new ≡ tally_state (name_of book.now) 0 0 0 0 }
    ensures tellers { AreNew (name_of book.now) result.items }
    ensures count { length result.items ≡ count }
{
    for _ in 0..count {
        tellers.push_reserved(book.deal(spans));
    }
    tellers
}
