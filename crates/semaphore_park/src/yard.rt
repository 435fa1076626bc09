// Yards behind their locks.
ghost use Rattle.std.specs.Prelude.{◌≡◌, IfOk};
ghost use Rattle.semaphore_park.specs.Parking.{empty_yard, yard_key};

use crate::parkable::Parkable;
use crate::state::YardState;
use keyed_lock::{Held, KeyedLock};
use outside_io::NoMemory;
use std::alloc::Global;
use std::sync::Wait;

/// A yard, whose state one caller at a time has.
#[derive(Drop)]
pub struct ParkYard<T: Parkable> {
    lock: KeyedLock<YardState<T>>,
}

impl<T: Parkable + Drop> ParkYard<T> {
    ghost use Rattle.semaphore_park.specs.Yards.{opened_as, IsYardPass};

    /// A yard with no item parked on so many semaphores. Its items belong to this home.
    pub fn new(alloc: Global, sems: usize, home: &T::Home) -> Result<ParkYard<T>, NoMemory>
        ensures { IfOk result (λ yard. opened_as yard ≡ empty_yard home.now sems) }
    {
        let state = YardState::new(alloc, sems, home)?;
        let lock = KeyedLock::new(alloc, state)?;
        Ok(ParkYard { lock })
    }

    /// Takes what is parked, as soon as nobody else has it. It may wait.
    pub fn lock<R: Wait>(&self, rt: &R) -> Held<YardState<T>>
        ensures key { yard_key result.value ≡ yard_key (opened_as self.now) }
        ensures pass { IsYardPass self.now result.pass }
    {
        self.lock.take(rt)
    }

    /// Puts it back, and wakes a caller who sleeps for it.
    pub fn unlock(&self, held: Held<YardState<T>>)
        requires key { yard_key held.value ≡ yard_key (opened_as self.now) }
        requires pass { IsYardPass self.now held.pass }
    {
        self.lock.put(held);
    }
}
