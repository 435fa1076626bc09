// A run that a crew is at.
ghost use Rattle.std.specs.Prelude.{◌≡◌, ◌+◌, IfOk, IfSome};
ghost use Rattle.std.specs.Option.{option_copied};
ghost use Rattle.std.specs.Arc.{arc_value};
ghost use Rattle.worker_seat.specs.inside.Runs.{IsClosedOf, IsNumberOf, book_of_run};

use crate::frame_numbers::FrameNumber;
use crate::run_slot::RunSlot;
use keyed_lock::{Held, KeyedLock};
use outside_io::NoMemory;
use run_frame::Job;
use span_book::{SpanBook, Tally, Teller};
use std::alloc::Global;
use std::marker::Model;
use std::sync::{Arc, Wait};
use table_frames::ClosedRun;
use tickets::{Register, Ticket};

/// What the seats at a run share.
#[derive(Drop)]
pub struct CrewRun<J: Job> {
    register: Register<()>,
    slot: KeyedLock<RunSlot<J>>,
    book: Arc<SpanBook>,
    // `None` of a run that was closed as it began.
    number: Option<FrameNumber<J>>,
}

impl<J: Job> Model for CrewRun<J> {
    ghost use Rattle.std.specs.Prelude.{◌≡◌, IfSome};
    ghost use Rattle.std.specs.Arc.{arc_value};
    ghost use Rattle.worker_seat.specs.inside.Runs.{RunView, IsNumberOf, book_of_run};

    ghost Value = { RunView J };

    ghost use Rattle.keyed_lock.specs.Locks.{made_with};
    ghost use Rattle.span_book.specs.SpanBooks.{name_of};

    ghost view = { λ run. record {
      register = run.register;
      job = (made_with run.slot).job;
      book = book_of_run (arc_value run.book);
      number = run.number;
    } };

    ghost invariant = { λ run. ((made_with run.slot).register ≡ run.register)
        × ((made_with run.slot).book ≡ name_of (arc_value run.book))
        × IfSome run.number
        (IsNumberOf (made_with run.slot).job (name_of (arc_value run.book))) };
}

impl<J: Job + Drop> CrewRun<J> {
    ghost use Rattle.span_book.specs.SpanBooks.{name_of, tally_state};

    /// A run of a job that isn't closed, with the book of its spans, and with its number, if it has one.
    pub fn new(
        alloc: Global,
        job: &Arc<J>,
        book: Arc<SpanBook>,
        number: Option<FrameNumber<J>>,
    ) -> Result<CrewRun<J>, NoMemory>
        requires { IfSome number (IsNumberOf (arc_value job.now) (name_of (arc_value book))) }
        ensures job { IfOk result (λ run. run.job ≡ arc_value job.now) }
        ensures book { IfOk result (λ run. run.book ≡ book_of_run (arc_value book)) }
        ensures number { IfOk result (λ run. run.number ≡ number) }
    {
        let (register, found) = Register::new(alloc)?;
        let slot = KeyedLock::new(alloc, RunSlot::new(job, &book, found))?;
        Ok(CrewRun {
            register,
            slot,
            book,
            number,
        })
    }

    /// Its number, if it has one.
    pub fn number(&self) -> Option<&FrameNumber<J>>
        ensures number { option_copied result ≡ self.now.number }
        ensures job { IfSome result
            (λ number. IsNumberOf self.now.job self.now.book.name number.now) }
    {
        self.number.as_ref()
    }

    /// Leaves the closed run for those who are at it.
    pub fn close<R: Wait>(&self, rt: &R, closed: ClosedRun<J>)
        requires { IsClosedOf J.meaning self.now.job self.now.book.name closed }
    {
        let Held { mut value, pass } = self.slot.take(rt);
        value.close(closed);
        self.slot.put(Held { value, pass });
    }

    /// A ticket, if the run is closed.
    pub fn find<R: Wait>(&self, rt: &R) -> Option<Ticket<()>>
        ensures { IfSome result (λ ticket. ticket.register ≡ self.now.register) }
    {
        let Held { mut value, pass } = self.slot.take(rt);
        let ticket = value.find(&self.register);
        self.slot.put(Held { value, pass });
        ticket
    }

    /// Takes the closed run away. Whoever wants it after that waits for ever.
    pub fn fetch<R: Wait>(&self, rt: &R, ticket: Ticket<()>) -> ClosedRun<J>
        requires { ticket.register ≡ self.now.register }
        ensures { IsClosedOf J.meaning self.now.job self.now.book.name result }
    {
        self.slot.take(rt).value.fetch(&self.register, ticket)
    }

    /// Collects the teller of a seat.
    pub fn collect(&self, spans: &mut Tally, teller: Teller)
        requires spans { spans.old.book ≡ self.now.book.name }
        requires teller { teller.book ≡ self.now.book.name }
        ensures { spans.new ≡ tally_state spans.old.book (spans.old.tellers + 1)
            (spans.old.told + teller.told) spans.old.noted spans.old.opened }
    {
        self.book.collect(spans, teller);
    }

    /// With the tellers of all seats, they told as many spans as the run has.
    pub fn settle(&self, spans: &mut Tally)
        requires { spans.old.book ≡ self.now.book.name }
        ensures same { spans.new ≡ spans.old }
        ensures even { spans.old.tellers ≡ self.now.book.tellers
            → spans.old.told ≡ spans.old.noted }
    {
        self.book.settle(spans);
    }
}
