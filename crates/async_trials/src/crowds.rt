// Callers that add and workers that step, each by a thread of its own.
ghost use Rattle.std.specs.Prelude.{◌≡◌, ◌≤◌, All, length};
ghost use Rattle.async_tasks.specs.AsyncBooks.{ArePassesOf, IsPassOf, IsSeatOf};
ghost use Rattle.async_trials.specs.Sides.{IsSideOf};

use crate::add_to::{AddTo, Refused};
use async_tasks::{AsyncBook, AsyncSeat, AsyncStep, Pass};
use crossbeam_utils::CachePadded;
use std::alloc::Global;
use std::sync::atomic::Ordering::SeqCst;
use std::sync::atomic::{AtomicBool, AtomicU64};
use std::sync::{Arc, Wait};
use std::thread::{Threads, for_each_mut, yield_now};

// How many callers or workers of a crowd have a thread.
const MOST_THREADS: usize = 4;

/// What each caller adds: so many tasks, each with so many turns, and each after the caller's last one or after
/// nothing.
#[derive(Clone, Copy)]
pub struct CallerAdds {
    pub count: u32,
    pub turns: u32,
    pub chained: bool,
}

/// A book, what each caller is to add, how many tasks are to be run, how many were, and whether an add or a step
/// failed, so that no thread waits for it.
#[derive(Drop)]
pub struct Crowd {
    pub book: AsyncBook<AddTo>,
    alloc: Global,
    adds: CallerAdds,
    wanted: u64,
    // On a cache line of its own, since each step writes it, and looks at the book.
    ran: CachePadded<AtomicU64>,
    failed: AtomicBool,
}

/// The callers of a book, or its workers.
#[derive(Drop)]
pub enum Side {
    Callers(Vec<Pass<AddTo>>),
    Workers(Vec<AsyncSeat<AddTo>>),
}

impl Crowd {
    /// Of so many callers.
    pub fn new(alloc: Global, book: AsyncBook<AddTo>, callers: u32, adds: CallerAdds) -> Crowd
        ensures { result.book ≡ book }
    {
        Crowd {
            book,
            alloc,
            adds,
            wanted: callers as u64 * adds.count as u64,
            ran: CachePadded::new(AtomicU64::new(0)),
            failed: AtomicBool::new(false),
        }
    }

    fn is_over(&self) -> bool {
        self.failed.load(SeqCst) || self.ran.load(SeqCst) >= self.wanted
    }

    // Adds the number 1 after a task, and gives the new task.
    fn add_next<R: Wait>(
        &self,
        rt: &R,
        pass: &mut Pass<AddTo>,
        last: Option<u32>,
    ) -> Result<u32, Refused>
        requires { IsPassOf self.now.book pass.old }
        ensures same { IsPassOf self.now.book pass.new }
        ensures caller { pass.new.caller ≡ pass.old.caller }
    {
        let turns = self.adds.turns;
        let work = Arc::new(self.alloc, AddTo { number: 1, turns })?;
        match last {
            None => Ok(self.book.add(rt, pass, work, &[])?),
            Some(task) => Ok(self.book.add(rt, pass, work, &[task])?),
        }
    }

    // Adds all tasks of a caller.
    fn add_all<R: Wait>(&self, rt: &R, pass: &mut Pass<AddTo>)
        requires { IsPassOf self.now.book pass.old }
        ensures same { IsPassOf self.now.book pass.new }
        ensures caller { pass.new.caller ≡ pass.old.caller }
    {
        let mut last = None;
        for _ in 0..self.adds.count {
            match self.add_next(rt, pass, last) {
                Ok(task) if self.adds.chained => last = Some(task),
                Ok(_) => (),
                Err(_) => {
                    self.failed.store(true, SeqCst);
                    return;
                }
            }
        }
    }

    // Steps until each task was run.
    fn step_all<R: Wait>(&self, rt: &R, seat: &mut AsyncSeat<AddTo>)
        requires { IsSeatOf self.now.book seat.old }
        ensures { IsSeatOf self.now.book seat.new }
    {
        for _ in rt.forever() {
            if self.is_over() {
                return;
            }
            match seat.step(rt, &self.book) {
                Ok(AsyncStep::Ran(_)) => {
                    self.ran.fetch_add(1, SeqCst);
                }
                Ok(AsyncStep::Empty) => yield_now(),
                Err(_) => self.failed.store(true, SeqCst),
            }
        }
        unreachable!()
    }
}

/// All callers add, each by a thread.
pub fn add_together<R: Threads + Wait + Sync>(rt: &R, crowd: &Crowd, passes: &mut [Pass<AddTo>])
    requires { ArePassesOf crowd.now.book passes.old }
    ensures { ArePassesOf crowd.now.book passes.new }
{
    for_each_mut(
        rt,
        passes,
        MOST_THREADS,
        &|_, pass: &mut Pass<AddTo>|
            requires { IsPassOf crowd.now.book pass.old }
            ensures { IsPassOf crowd.entry.now.book pass.new
                × (pass.new.caller ≡ pass.old.caller) }
        { crowd.add_all(rt, pass) },
    );
}

/// All workers step until each task was run, each by a thread.
pub fn step_together<R: Threads + Wait + Sync>(
    rt: &R,
    crowd: &Crowd,
    seats: &mut [AsyncSeat<AddTo>],
)
    requires { All (IsSeatOf crowd.now.book) seats.old }
    ensures { All (IsSeatOf crowd.now.book) seats.new }
{
    for_each_mut(
        rt,
        seats,
        MOST_THREADS,
        &|_, seat: &mut AsyncSeat<AddTo>|
            requires { IsSeatOf crowd.now.book seat.old }
            ensures { IsSeatOf crowd.entry.now.book seat.new }
        { crowd.step_all(rt, seat) },
    );
}

fn work<R: Threads + Wait + Sync>(rt: &R, crowd: &Crowd, side: &mut Side)
    requires { IsSideOf crowd.now.book side.old }
    ensures { IsSideOf crowd.now.book side.new }
{
    match side {
        Side::Callers(passes) => add_together(rt, crowd, passes),
        Side::Workers(seats) => step_together(rt, crowd, seats),
    }
}

/// Has each caller add its tasks, and each worker step until all were run, each by a thread of its own.
pub fn work_together<R: Threads + Wait + Sync>(rt: &R, crowd: &Crowd, sides: &mut [Side])
    requires { All (IsSideOf crowd.now.book) sides.old }
    ensures { All (IsSideOf crowd.now.book) sides.new }
{
    for_each_mut(
        rt,
        sides,
        2,
        &|_, side: &mut Side|
            requires { IsSideOf crowd.now.book side.old }
            ensures { IsSideOf crowd.entry.now.book side.new }
        { work(rt, crowd, side) },
    );
}
