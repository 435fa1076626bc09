// What is under the lock of a yard.
ghost use Rattle.std.specs.Prelude.{◌≡◌, ◌↔◌, ◌<◌, ◌++◌, ◌∷◌, [], IfOk, OnOk, OnErr, IfErr, IfSome, IsNone, drop, length, slice_get, replicate};
ghost use Rattle.semaphore_park.specs.Parking.{parked_on, with_parked, empty_yard, yard_key};

use crate::parkable::Parkable;
use crate::queue::Queue;
use keyed_lock::Keyed;
use outside_io::{Back, NoMemory};
use std::alloc::Global;
use std::marker::Model;
use std::snapshot::Snapshot;

/// What is parked in a yard, by semaphore.
#[derive(Drop)]
pub struct YardState<T: Parkable> {
    home: Snapshot<T::Home>,
    queues: Vec<Queue<T>>,
}

impl<T: Parkable> Model for YardState<T> {
    ghost use Rattle.semaphore_park.specs.Parking.{YardView, yard_view};

    ghost Value = { YardView T T.Home };

    ghost use Rattle.semaphore_park.specs.inside.Waiting.{AllWait};

    ghost view = { λ state. yard_view state.home.value state.queues.items };

    ghost invariant = { λ state. AllWait (T.waits_at) (yard_view state.home.value state.queues.items) };
}

impl<T: Parkable> Keyed for YardState<T> {
    ghost use Rattle.semaphore_park.specs.Parking.{YardKey, yard_key};

    ghost Key = { YardKey T.Home };

    ghost key = { yard_key };
}

impl<T: Parkable + Drop> YardState<T> {
    /// With no item parked on so many semaphores. Its items belong to this home.
    pub fn new(alloc: Global, sems: usize, home: &T::Home) -> Result<YardState<T>, NoMemory>
        ensures { IfOk result (λ state. state ≡ empty_yard home.now sems) }
    {
        let queues = empty_queues(alloc, sems)?;
        Ok(YardState {
            home: Snapshot::of(home),
            queues,
        })
    }

    /// Parks an item on a semaphore, behind all that are parked there. If an allocation fails the item is handed back,
    /// and all is as it was.
    pub fn park_in(&mut self, sem: u32, item: T) -> Result<(), Back<T>>
        requires in_range { sem < length self.old.lists }
        requires waits { T.waits_at item self.old.home sem }
        ensures ok { OnOk result
            (self.new ≡ with_parked self.old sem (parked_on self.old sem ++ item ∷ [])) }
        ensures err { OnErr result (self.new ≡ self.old) }
        ensures back { IfErr result (λ back. back.item ≡ item) }
        ensures key { yard_key self.new ≡ yard_key self.old }
    {
        self.queues[sem as usize].push_last(item)
    }

    /// Parks an item on a semaphore, before all that are parked there, so that an item that was woken can go back to
    /// its place. If an allocation fails the item is handed back, and all is as it was.
    pub fn park_first(&mut self, sem: u32, item: T) -> Result<(), Back<T>>
        requires in_range { sem < length self.old.lists }
        requires waits { T.waits_at item self.old.home sem }
        ensures ok { OnOk result
            (self.new ≡ with_parked self.old sem (item ∷ parked_on self.old sem)) }
        ensures err { OnErr result (self.new ≡ self.old) }
        ensures back { IfErr result (λ back. back.item ≡ item) }
        ensures key { yard_key self.new ≡ yard_key self.old }
    {
        self.queues[sem as usize].push_first(item)
    }

    /// Wakes the first item that is parked on a semaphore, which is then parked no more. It is `None` exactly where
    /// none is parked there. It takes no memory.
    pub fn wake_in(&mut self, sem: u32) -> Option<T>
        requires { sem < length self.old.lists }
        ensures none { IsNone result ↔ (parked_on self.old sem ≡ []) }
        ensures first { result ≡ slice_get (parked_on self.old sem) 0 }
        ensures rest { self.new ≡ with_parked self.old sem (drop 1 (parked_on self.old sem)) }
        ensures waits { IfSome result (λ item. T.waits_at item self.old.home sem) }
        ensures key { yard_key self.new ≡ yard_key self.old }
    {
        self.queues[sem as usize].take_first()
    }

    /// How many items are parked on a semaphore. It takes no memory.
    pub fn count(&self, sem: u32) -> usize
        requires { sem < length self.now.lists }
        ensures { result ≡ length (parked_on self.now sem) }
    {
        self.queues[sem as usize].len()
    }
}

// So many queues without an item.
fn empty_queues<T: Drop>(alloc: Global, count: usize) -> Result<Vec<Queue<T>>, NoMemory>
    ensures { IfOk result (λ queues. queues.items ≡ replicate count []) }
{
    let mut queues = Vec::with_capacity(alloc, count)?;
    for _ in 0..count {
        queues.push_reserved(Queue::new(alloc));
    }
    Ok(queues)
}
