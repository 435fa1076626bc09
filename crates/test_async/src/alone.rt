// A book for one caller and one worker.
ghost use Rattle.std.specs.Prelude.{◌≡◌, ◌≤◌, length};
ghost use Rattle.std.proofs.Props.{props};
ghost use Rattle.async_tasks.specs.AsyncBooks.{IsPassOf, IsSeatOf};

use async_tasks::{AsyncBook, AsyncParts, AsyncRun, AsyncSeat, AsyncStep, Finished, Pass};
use async_trials::{AddTo, Refused};
use outside_io::NoMemory;
use std::alloc::Global;
use std::sync::{Arc, Wait};

/// What the end of a book with one caller and one worker came to.
#[derive(Drop)]
pub enum Outcome {
    Done(AsyncRun<AddTo>),
    Open(Alone, u32),
}

/// A book with one caller and one worker.
#[derive(Drop)]
pub struct Alone {
    book: AsyncBook<AddTo>,
    pass: Pass<AddTo>,
    seat: AsyncSeat<AddTo>,
    ghost pass_of: { IsPassOf book pass } by { Prim.hlevel props },
    ghost seat_of: { IsSeatOf book seat } by { Prim.hlevel props },
    ghost one_caller: { (book.callers ≡ 1) × (pass.caller ≡ 0) },
}

impl Alone {
    /// A book without tasks.
    pub fn new(alloc: Global) -> Result<Alone, NoMemory> {
        let AsyncParts {
            book,
            mut seats,
            mut passes,
        } = AsyncBook::new(alloc, 1, 1)?;
        let pass = passes.remove(0);
        let seat = seats.remove(0);
        Ok(Alone { book, pass, seat })
    }

    /// A book with 1 after nothing, 2 after the first, and 4 after the first and twice the second.
    pub fn of_three_sums<R: Wait>(rt: &R, alloc: Global) -> Result<Alone, Refused> {
        let mut alone = Alone::new(alloc)?;
        alone.add(rt, alloc, 1, &[])?;
        alone.add(rt, alloc, 2, &[0])?;
        alone.add(rt, alloc, 4, &[0, 1, 1])?;
        Ok(alone)
    }

    /// A book with 1 after nothing, 1 after the first for two tasks, and 1 after the first, the second, the first
    /// again and the third.
    pub fn of_a_fork<R: Wait>(rt: &R, alloc: Global) -> Result<Alone, Refused> {
        let mut alone = Alone::new(alloc)?;
        alone.add(rt, alloc, 1, &[])?;
        alone.add(rt, alloc, 1, &[0])?;
        alone.add(rt, alloc, 1, &[0])?;
        alone.add(rt, alloc, 1, &[0, 1, 0, 2])?;
        Ok(alone)
    }

    /// Adds a number after these tasks.
    pub fn add<R: Wait>(
        &mut self,
        rt: &R,
        alloc: Global,
        number: u64,
        after: &[u32],
    ) -> Result<u32, Refused>
        requires { length after.now ≤ 64 }
    {
        let work = Arc::new(alloc, AddTo { number, turns: 0 })?;
        Ok(self.book.add(rt, &mut self.pass, work, after)?)
    }

    /// Takes a step.
    pub fn step<R: Wait>(&mut self, rt: &R) -> Result<AsyncStep, NoMemory> {
        self.seat.step(rt, &self.book)
    }

    /// Ends the book, or gives it back with the task that has no end.
    #[tactic(auto, using(crate::proofs::OnePass::only_pass))]
    pub fn finish<R: Wait>(self, rt: &R, alloc: Global) -> Result<Outcome, NoMemory> {
        let Alone { book, pass, seat } = self;
        let mut passes = Vec::new(alloc);
        passes.push(pass)?;
        match book.finish(rt, passes) {
            Finished::Done(run) => Ok(Outcome::Done(run)),
            Finished::Open {
                book,
                mut passes,
                task,
                ..
            } => {
                let pass = passes.remove(0);
                Ok(Outcome::Open(Alone { book, pass, seat }, task))
            }
        }
    }
}
