// What is under the lock of a run that a crew is at.
ghost use Rattle.std.specs.Prelude.{◌≡◌, [], IfSome};
ghost use Rattle.std.specs.Arc.{arc_value};
ghost use Rattle.span_book.specs.SpanBooks.{name_of};
ghost use Rattle.worker_seat.specs.inside.Runs.{IsClosedOf};

use keyed_lock::Keyed;
use run_frame::Job;
use span_book::SpanBook;
use std::marker::Model;
use std::snapshot::Snapshot;
use std::sync::Arc;
use table_frames::ClosedRun;
use tickets::{Book, Register, Ticket};

/// The run of a job once it is closed, and who has found it so.
///
/// Each who finds the run closed has a ticket. While one is out the run is here.
#[derive(Drop)]
pub struct RunSlot<J: Job> {
    job: Snapshot<Arc<J>>,
    book: Snapshot<Arc<SpanBook>>,
    run: Option<ClosedRun<J>>,
    found: Book<()>,
}

impl<J: Job> Model for RunSlot<J> {
    ghost use Rattle.std.specs.Prelude.{◌≡◌, [], MatchOption};
    ghost use Rattle.worker_seat.specs.inside.Runs.{RunKey, IsClosedOf, run_key};

    ghost Value = { RunKey J };

    ghost use Rattle.std.specs.Arc.{arc_value};
    ghost use Rattle.span_book.specs.SpanBooks.{name_of};

    ghost view = { λ slot. run_key slot.found.register (arc_value slot.job.value)
        (name_of (arc_value slot.book.value)) };

    ghost invariant = { λ slot. MatchOption slot.run (slot.found.items ≡ [])
        (IsClosedOf J.meaning (arc_value slot.job.value)
        (name_of (arc_value slot.book.value))) };
}

impl<J: Job> Keyed for RunSlot<J> {
    ghost use Rattle.worker_seat.specs.inside.Runs.{RunKey};

    ghost Key = { RunKey J };

    ghost key = { λ slot. slot };
}

impl<J: Job + Drop> RunSlot<J> {
    ghost use Rattle.worker_seat.specs.inside.Runs.{run_key};

    /// Of a run that isn't closed, with the book of its spans.
    pub fn new(job: &Arc<J>, book: &Arc<SpanBook>, found: Book<()>) -> RunSlot<J>
        requires { found.items ≡ [] }
        ensures { result
            ≡ run_key found.register (arc_value job.now) (name_of (arc_value book.now)) }
    {
        RunSlot {
            job: Snapshot::of(job),
            book: Snapshot::of(book),
            run: None,
            found,
        }
    }

    /// Keeps the run, which is closed.
    pub fn close(&mut self, closed: ClosedRun<J>)
        requires { IsClosedOf J.meaning self.old.job self.old.book closed }
        ensures { self.new ≡ self.old }
    {
        self.run = Some(closed);
    }

    /// A ticket for who finds the run closed, or `None` where it isn't.
    pub fn find(&mut self, register: &Register<()>) -> Option<Ticket<()>>
        requires { self.old.register ≡ register.now }
        ensures same { self.new ≡ self.old }
        ensures ticket { IfSome result (λ ticket. ticket.register ≡ register.now) }
    {
        if self.run.is_none() {
            return None;
        }
        Some(register.issue(&mut self.found, ()))
    }

    /// The run, for one who found it closed.
    pub fn fetch(self, register: &Register<()>, ticket: Ticket<()>) -> ClosedRun<J>
        requires register { self.register ≡ register.now }
        requires ticket { ticket.register ≡ register.now }
        ensures { IsClosedOf J.meaning self.job self.book result }
    {
        let RunSlot { run, mut found, .. } = self;
        register.redeem(&mut found, ticket);
        match run {
            Some(run) => run,
            None => unreachable!(),
        }
    }
}
