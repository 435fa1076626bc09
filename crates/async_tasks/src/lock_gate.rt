// Who goes to the lock of a book next. It only decides when a call tries to take the lock, which it may always do: so
// nothing is proved of it but that each call is safe.
use crossbeam_utils::CachePadded;
use std::hint::spin_loop;
use std::sync::Wait;
use std::sync::atomic::AtomicU64;
use std::sync::atomic::Ordering::SeqCst;
use std::time::Duration;

// What the word says.
const FREE: u64 = 0;

const TAKEN: u64 = 1;

// How many turns a call spins between two looks at the gate. They last a few microseconds at most, in which the call
// that is inside can come back several times. What it works on is then still in the cache of its processor.
const SPINS: u32 = 40;

// How often a call looks before it sleeps, for how many microseconds it sleeps, and how often before it goes on anyway.
const LOOKS: u32 = 12;

const NAP: u64 = 50;

const NAPS: u32 = 40;

/// A gate before a lock, through which one call at a time goes.
#[derive(Drop)]
pub struct LockGate {
    word: CachePadded<AtomicU64>,
}

impl LockGate {
    /// Nobody is inside.
    pub fn new() -> LockGate {
        LockGate {
            word: CachePadded::new(AtomicU64::new(FREE)),
        }
    }

    /// Goes in when nobody is inside, or after some milliseconds.
    pub fn enter<R: Wait>(&self, rt: &R) {
        if self.try_enter() {
            return;
        }
        for _ in 0..NAPS {
            if self.enter_soon() {
                return;
            }
            self.word
                .park_timeout(rt, TAKEN as u32, Duration::from_micros(NAP));
        }
    }

    /// Comes out.
    pub fn leave(&self) {
        self.word.store(FREE, SeqCst);
    }

    // Looks a few times. Whether it went in.
    fn enter_soon(&self) -> bool {
        for _ in 0..LOOKS {
            spin();
            if self.word.load(SeqCst) == FREE && self.try_enter() {
                return true;
            }
        }
        false
    }

    fn try_enter(&self) -> bool {
        self.word.swap(TAKEN, SeqCst) == FREE
    }
}

fn spin() {
    for _ in 0..SPINS {
        spin_loop();
    }
}
