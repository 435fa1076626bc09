// Workers' seats.
ghost use Rattle.std.specs.Prelude.{◌≡◌, IfOk, OnErr};
ghost use Rattle.async_tasks.specs.Starts.{IsAfter};
ghost use Rattle.async_tasks.specs.AsyncBooks.{IsSeatOf, HasStepped, HasRun};
ghost use Rattle.async_tasks.specs.declared.seat.AsyncStep.TheVariants.{Ran, Empty};

use crate::book::AsyncBook;
use crate::patience::Patience;
use crate::ready_task::ReadyTask;
use crate::recorded_end::RecordedEnd;
use crate::started::Started;
use crate::work::AsyncWork;
use outside_io::NoMemory;
use ready_deques::Owner;
use std::alloc::Global;
use std::marker::Model;
use std::sync::{Arc, Wait};

/// What a step came to.
#[derive(Clone, Copy, Debug, PartialEq, Eq)]
pub enum AsyncStep {
    /// This task was run, and ended.
    Ran(u32),
    /// The list of ready tasks was found empty.
    Empty,
}

/// A worker's seat at a book of tasks. It has the end of the task that it ran last.
#[derive(Drop)]
pub struct AsyncSeat<W: AsyncWork> {
    pub(crate) alloc: Global,
    pub(crate) owner: Owner<ReadyTask>,
    pub(crate) last: Option<RecordedEnd<W>>,
    pub(crate) patience: Patience,
}

impl<W: AsyncWork> Model for AsyncSeat<W> {
    ghost use Rattle.async_tasks.specs.AsyncBooks.{AsyncSeatState, async_seat_state};

    ghost Value = { AsyncSeatState };

    ghost view = { λ seat. async_seat_state seat.owner seat.last };
}

impl<W: AsyncWork> AsyncSeat<W> {
    /// Takes a ready task through its start, its work and its end. It may wait, and no lock is held while the work is
    /// done. Each task that becomes ready by the end is queued in this call, unless memory for that is refused.
    ///
    /// `Ran` names the task whose end the seat was given in this call: the book recorded it after the end that the seat
    /// had before. `Empty` only where the seat's list was found empty in this call. After an `Err` a task may be
    /// started and have no end for good; its work is at its number. A seat that found nothing in its last sixteen steps
    /// sleeps for some fifty microseconds first.
    pub fn step<R: Wait>(&mut self, rt: &R, book: &AsyncBook<W>) -> Result<AsyncStep, NoMemory>
        requires { IsSeatOf book.now self.old }
        ensures same { IsSeatOf book.now self.new }
        ensures stepped { IfOk result (λ step. HasStepped book.now self.old step self.new) }
        ensures err { OnErr result (self.new.last ≡ self.old.last) }
    {
        self.patience.wait(rt);
        for _ in rt.forever() {
            let Some(item) = self.owner.take(rt) else {
                if book.push_left_over(rt, &mut self.owner)? {
                    continue;
                }
                self.patience.missed();
                return Ok(AsyncStep::Empty);
            };
            self.patience.found();
            match book.start(rt, item.task) {
                Ok(Some(started)) => return self.carry_out(rt, book, started),
                Ok(None) => (),
                Err(error) => {
                    book.push(rt, &mut self.owner, Some(item.task)); // so that a later step may start it
                    return Err(error);
                }
            }
        }
        unreachable!()
    }

    // Does the work of a start and ends it.
    fn carry_out<R: Wait>(
        &mut self,
        rt: &R,
        book: &AsyncBook<W>,
        started: Started<W>,
    ) -> Result<AsyncStep, NoMemory>
        requires seat { IsSeatOf book.now self.old }
        requires started { started.register ≡ book.now.register }
        ensures owner { self.new.owner ≡ self.old.owner }
        ensures ran { IfOk result (λ step. (step ≡ Ran started.task)
            × HasRun book.now self.old started.task self.new) }
        ensures err { OnErr result (self.new.last ≡ self.old.last) }
    {
        let task = started.task;
        let value = started.work.run(self.alloc, &started.ins)?;
        let value = Arc::new(self.alloc, value)?;
        let last = self.last.take();
        let end = book.end(rt, &mut self.owner, started, value, last);
        self.last = Some(end);
        Ok(AsyncStep::Ran(task))
    }
}
