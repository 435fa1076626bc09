// Runs of books of two callers and two workers.
ghost use Rattle.std.specs.Prelude.{All, IfSome};
ghost use Rattle.async_tasks.specs.AsyncBooks.{AsyncBookState};
ghost use Rattle.async_trials.specs.Sides.{IsSideOf};

use crate::add_to::AddTo;
use crate::crowds::{CallerAdds, Crowd, Side, work_together};
use async_tasks::{AsyncBook, AsyncParts, AsyncRun, Finished};
use outside_io::NoMemory;
use std::alloc::Global;
use std::sync::Wait;
use std::thread::Threads;

/// The run of a book to which two callers add so many tasks each, every one after the caller's last, beside two
/// workers. `None` where a task has no end.
pub fn run_of_two_callers<R: Threads + Wait + Sync>(
    rt: &R,
    alloc: Global,
    tasks: u32,
) -> Result<Option<AsyncRun<AddTo>>, NoMemory> {
    let AsyncParts {
        book,
        seats,
        passes,
    } = AsyncBook::new(alloc, 2, 2)?;
    let adds = CallerAdds {
        count: tasks,
        turns: 0,
        chained: true,
    };
    let crowd = Crowd::new(alloc, book, 2, adds);
    let mut sides = Vec::with_capacity(alloc, 2)?;
    sides.push_reserved(Side::Callers(passes));
    sides.push_reserved(Side::Workers(seats));
    work_together(rt, &crowd, sides.as_mut_slice());
    let Some(Side::Callers(passes)) = first_of(sides) else {
        return Ok(None);
    };
    let Crowd { book, .. } = crowd;
    match book.finish(rt, passes) {
        Finished::Done(run) => Ok(Some(run)),
        Finished::Open { .. } => Ok(None),
    }
}

// The first of two sides.
fn first_of(mut sides: Vec<Side>) -> Option<Side>
    ensures { (book : AsyncBookState) → All (IsSideOf book) sides.items
        → IfSome result (IsSideOf book) }
{
    let _workers = sides.pop();
    sides.pop()
}
