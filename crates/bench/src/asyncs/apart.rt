// Workers that run tasks which wait for nothing.
ghost use Rattle.std.specs.Prelude.{◌≤◌};

use async_tasks::{AsyncBook, AsyncParts};
use async_trials::{CallerAdds, Crowd, add_together, step_together};
use std::alloc::{AllocError, Global};
use std::io;
use std::sync::Wait;
use std::thread::Threads;
use std::time::{Clock, Instant};

// What the caller adds. The turns of a task take about two microseconds.
pub const ADDS: CallerAdds = CallerAdds {
    count: 100_000,
    turns: 1000,
    chained: false,
};

/// Prints how long so many workers take for all tasks.
pub fn measure<R: Threads + Wait + Clock + Print + Sync>(
    rt: &R,
    alloc: Global,
    workers: u32,
) -> io::Result<()>
    requires { (1 ≤ workers) × (workers ≤ 4) }
{
    let Ok(
        AsyncParts {
            book,
            mut seats,
            mut passes,
        },
    ) = AsyncBook::new(alloc, workers, 1)
    else {
        return Err(AllocError.into());
    };
    let crowd = Crowd::new(alloc, book, 1, ADDS);
    add_together(rt, &crowd, passes.as_mut_slice());
    let start = Instant::now(rt)?;
    step_together(rt, &crowd, seats.as_mut_slice());
    let micros = Instant::now(rt)?
        .saturating_duration_since(start)
        .as_micros();
    println!(rt; "{workers} workers: {micros} microseconds")
}
