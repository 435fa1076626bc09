// The owners that sleep. Nothing is proved of them but that each call is safe.
use crossbeam_utils::CachePadded;
use crossbeam_utils::sync::Unparker;
use std::sync::atomic::AtomicU64;
use std::sync::atomic::Ordering::SeqCst;

/// Which owners sleep, or are about to.
#[derive(Drop)]
pub struct Sleepers {
    // The set of their numbers, a bit for each.
    asleep: CachePadded<AtomicU64>,
    // What wakes each owner, by its number.
    wakers: Vec<Unparker>,
}

impl Sleepers {
    pub fn new(wakers: Vec<Unparker>) -> Sleepers {
        Sleepers {
            asleep: CachePadded::new(AtomicU64::new(0)),
            wakers,
        }
    }

    /// The owner with this bit is about to sleep. It looks once more for a reason not to.
    pub fn enter(&self, bit: u64) {
        self.asleep.fetch_or(bit, SeqCst);
    }

    /// The owner with this bit is awake.
    pub fn leave(&self, bit: u64) {
        self.asleep.fetch_and(!bit, SeqCst);
    }

    /// Wakes one owner, if any sleeps.
    pub fn wake_one(&self) {
        let asleep = self
            .asleep
            .fetch_update(SeqCst, SeqCst, |asleep| without_lowest(asleep));
        let Ok(asleep) = asleep else { return };
        if let Some(waker) = self.wakers.get(asleep.trailing_zeros() as usize) {
            waker.unpark();
        }
    }

    /// Wakes every owner, now or as soon as it sleeps.
    pub fn wake_all(&self) {
        self.asleep.store(0, SeqCst);
        for waker in self.wakers.iter() {
            waker.unpark();
        }
    }
}

// A set without its lowest number, or `None` of the empty set.
fn without_lowest(set: u64) -> Option<u64> {
    match set.checked_sub(1) {
        Some(below) => Some(set & below),
        None => None,
    }
}
