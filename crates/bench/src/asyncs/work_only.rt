// The work of the tasks that wait for nothing, without a book.
use crate::asyncs::apart::ADDS;
use async_tasks::AsyncWork;
use async_trials::AddTo;
use outside_io::{List, NoMemory};
use std::alloc::{AllocError, Global};
use std::io;
use std::time::{Clock, Instant};

/// Prints how long the work takes, with the sum of what it comes to.
pub fn measure<R: Clock + Print>(rt: &R, alloc: Global) -> io::Result<()> {
    let start = Instant::now(rt)?;
    let Ok(sum) = sum_of_all(alloc) else {
        return Err(AllocError.into());
    };
    let micros = Instant::now(rt)?
        .saturating_duration_since(start)
        .as_micros();
    println!(rt; "sum {sum}: {micros} microseconds")
}

fn sum_of_all(alloc: Global) -> Result<u64, NoMemory> {
    let none = List::new(alloc);
    let mut sum = 0u64;
    for number in 0..ADDS.count as u64 {
        let turns = ADDS.turns;
        sum = sum.wrapping_add(AddTo { number, turns }.run(alloc, &none)?);
    }
    Ok(sum)
}
