// Folds of the lines of a text by workers that draw chunks of them, once it is read and its line ends are found.
ghost use Rattle.std.specs.Prelude.{◌≤◌};

use crate::clock::micros_since;
use grain_tasks::{Fold, reduce_drawn};
use line_folds::WordFold;
use std::alloc::{AllocError, Global};
use std::io;
use std::thread::Threads;
use std::time::{Clock, Instant};
use text_ops::Text;

// The most indices.
const MOST: u64 = 16_777_215;

// How many indices a chunk has at least.
const GRAIN: u64 = 1000;

// How often each number of workers folds them.
const TIMES: u8 = 9;

/// Prints for one, two and four workers the least microseconds of a count of the lines with a word.
pub fn measure<R: Threads + Clock + Print + Sync>(
    rt: &R,
    alloc: Global,
    word: &str,
    text: &Text,
) -> io::Result<()> {
    match WordFold::new(alloc, word.as_bytes(), text) {
        Ok(fold) => measure_fold(rt, alloc, &fold),
        Err(_) => Err(AllocError.into()),
    }
}

// Prints for each number of workers the least microseconds of the fold.
fn measure_fold<R: Threads + Clock + Print + Sync>(
    rt: &R,
    alloc: Global,
    fold: &WordFold<'_>,
) -> io::Result<()> {
    for workers in [1, 2, 4].iter() {
        let micros = least_of(rt, alloc, *workers, fold)?;
        println!(rt; "{workers} {micros}")?;
    }
    Ok(())
}

// The least microseconds of several folds by so many workers.
fn least_of<R: Threads + Clock + Sync>(
    rt: &R,
    alloc: Global,
    workers: u32,
    fold: &WordFold<'_>,
) -> io::Result<u64>
    requires { (1 ≤ workers) × (workers ≤ 16) }
{
    let count = fold.count().min(MOST);
    let mut least = u64::MAX;
    for _ in 0..TIMES {
        let start = Instant::now(rt)?;
        if reduce_drawn(rt, alloc, workers, fold, count, GRAIN).is_err() {
            return Err(AllocError.into());
        }
        least = least.min(micros_since(rt, start)?);
    }
    Ok(least)
}
