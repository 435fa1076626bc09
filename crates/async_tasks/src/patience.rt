// How long a seat waits that finds nothing to do. Nothing is proved of it but that each call is safe.
use std::sync::Wait;
use std::sync::atomic::AtomicU64;
use std::time::Duration;

// After so many looks in a row that found nothing a seat sleeps before each further one, for so many microseconds.
const MANY: u32 = 16;

const NAP: u64 = 50;

/// How often a seat has found nothing since it last found a task.
#[derive(Drop)]
pub struct Patience {
    misses: u32,
    // What it sleeps on. Nobody wakes it, and it is always 0.
    word: AtomicU64,
}

impl Patience {
    pub fn new() -> Patience {
        Patience {
            misses: 0,
            word: AtomicU64::new(0),
        }
    }

    /// Waits for a moment if the last looks found nothing.
    pub fn wait<R: Wait>(&self, rt: &R) {
        if self.misses >= MANY {
            self.word.park_timeout(rt, 0, Duration::from_micros(NAP));
        }
    }

    /// A look found nothing.
    pub fn missed(&mut self) {
        self.misses = self.misses.saturating_add(1);
    }

    /// It found a task.
    pub fn found(&mut self) {
        self.misses = 0;
    }
}
