// `take` and `put` of a lock, and two `fetch_add`s.
use super::{THREADS, TURNS, nanos_each};
use keyed_lock::{Held, KeyedLock};
use std::alloc::{AllocError, Global};
use std::io;
use std::sync::Wait;
use std::sync::atomic::AtomicU64;
use std::sync::atomic::Ordering::SeqCst;
use std::thread::{Threads, for_each_mut};
use std::time::{Clock, Instant};

fn take_often<R: Wait>(rt: &R, lock: &KeyedLock<u64>) {
    for _ in 0..TURNS {
        let Held { value, pass } = lock.take(rt);
        lock.put(Held {
            value: value.wrapping_add(1),
            pass,
        });
    }
}

fn add_often(word: &AtomicU64) {
    for _ in 0..TURNS {
        word.fetch_add(1, SeqCst);
        word.fetch_add(1, SeqCst);
    }
}

/// A `take` with its `put`, by so many threads on one lock.
pub fn takes<R: Threads + Wait + Clock + Sync>(
    rt: &R,
    alloc: Global,
    threads: usize,
) -> io::Result<u64> {
    let Ok(lock) = KeyedLock::new(alloc, 0u64) else {
        return Err(AllocError.into());
    };
    let lock = &lock;
    let mut hands = [0u8; THREADS];
    let start = Instant::now(rt)?;
    for_each_mut(
        rt,
        hands.get_mut(..threads).unwrap_or_default(),
        threads.max(1),
        &|_, _| take_often(rt, lock),
    );
    nanos_each(rt, start)
}

/// Two `fetch_add`s, by so many threads on one word.
pub fn adds<R: Threads + Clock + Sync>(rt: &R, threads: usize) -> io::Result<u64> {
    let word = AtomicU64::new(0);
    let word = &word;
    let mut hands = [0u8; THREADS];
    let start = Instant::now(rt)?;
    for_each_mut(
        rt,
        hands.get_mut(..threads).unwrap_or_default(),
        threads.max(1),
        &|_, _| add_often(word),
    );
    nanos_each(rt, start)
}
