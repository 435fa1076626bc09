// What the owners of a list share, and the calls of those outside.
ghost use Rattle.std.specs.Prelude.{◌≡◌, ◌∷◌, [], Some, None, IfErr};
ghost use Rattle.keyed_lock.specs.Locks.{made_with};
ghost use Rattle.crossbeam_deque.specs.Handles.{worker_view};
ghost use Rattle.ready_deques.specs.inside.ListNames.{IsKnown, about};

use crate::count::{Account, Counter};
use crate::deque;
use crate::deque::{ItemWorker, Queued};
use crate::sleepers::Sleepers;
use crate::tagged::Tagged;
use boxcar::tag::Tag;
use keyed_lock::{Held, Keyed, KeyedLock};
use outside_io::Back;
use std::sync::Wait;
use std::sync::atomic::AtomicBool;
use std::sync::atomic::Ordering::SeqCst;

/// The end at which items from outside are queued.
#[derive(Drop)]
pub struct Outside<T: Tagged> {
    pub worker: ItemWorker<T>,
}

impl<T: Tagged> Keyed for Outside<T> {
    ghost use Rattle.std.specs.Prelude.{Option};
    ghost use Rattle.crossbeam_deque.specs.Handles.{worker_view};
    ghost use Rattle.ready_deques.specs.declared.about.About.{About};

    ghost Key = { Option About };

    ghost key = { λ outside. worker_view outside.worker };
}

/// A list of ready items.
pub struct Ready<T: Tagged> {
    pub(crate) tag: Tag,
    pub(crate) counter: Counter,
    pub(crate) outside: KeyedLock<Outside<T>>,
    pub(crate) sleepers: Sleepers,
    pub(crate) closed: AtomicBool,
    ghost named: { worker_view (made_with outside).worker
        ≡ Some (about tag.numbers counter.table.shared.table_id) },
}

// Written out, so that it is proved here alone and not in each crate above.
impl<T: Tagged + Drop> Drop for Ready<T> {
    fn drop(self) {
        let Ready {
            tag,
            counter,
            outside,
            sleepers,
            closed,
        } = self;
        drop((tag, counter, outside, sleepers, closed));
    }
}

// `T` isn't known to be `Drop`, so no item is dropped here: what comes in is queued or given back.
impl<T: Tagged> Ready<T> {
    ghost use Rattle.ready_deques.specs.Lists.{tag_of};
    ghost use Rattle.ready_deques.specs.inside.ListParts.{list_name_of};

    /// Queues an item from outside, where its owners take the oldest first, and wakes one owner that sleeps. It may
    /// wait. After an `Err`, which comes only if an allocation fails, the item is not queued.
    pub fn inject<R: Wait>(&self, rt: &R, item: T) -> Result<(), Back<T>>
        requires { T.tag item ≡ tag_of self.now }
        ensures back { IfErr result (λ back. back.item ≡ item) }
    {
        let seat = self.counter.raise(rt);
        match self.queue_outside(rt, Queued { item, seat }) {
            Ok(()) => {
                self.sleepers.wake_one();
                Ok(())
            }
            Err(queued) => Err(Back {
                item: self.count_out(queued),
            }),
        }
    }

    /// From now on no owner sleeps, and those that do are woken.
    pub fn close(&self) {
        self.closed.store(true, SeqCst);
        self.sleepers.wake_all();
    }

    /// From now on owners may sleep again.
    pub fn reopen(&self) {
        self.closed.store(false, SeqCst);
    }

    /// Whether the list was closed at a step of this call.
    pub fn is_closed(&self) -> bool {
        self.closed.load(SeqCst)
    }

    // The item, whose count goes to those that an owner has to spare.
    pub(crate) fn keep_count(&self, account: &Account, queued: Queued<T>) -> T
        requires { IsKnown T.tag (Some (list_name_of self.now)) (queued ∷ []) }
        ensures item { result ≡ queued.item }
        ensures tag { T.tag result ≡ tag_of self.now }
    {
        let Queued { item, seat } = queued;
        self.counter.keep(account, seat);
        item
    }

    // The item, whose count is taken out of the count word.
    fn count_out(&self, queued: Queued<T>) -> T
        requires { IsKnown T.tag (Some (list_name_of self.now)) (queued ∷ []) }
        ensures item { result ≡ queued.item }
        ensures tag { T.tag result ≡ tag_of self.now }
    {
        let Queued { item, seat } = queued;
        self.counter.lower(seat);
        item
    }

    // Queues an item in the deque for those from outside.
    pub(crate) fn queue_outside<R: Wait>(&self, rt: &R, queued: Queued<T>) -> Result<(), Queued<T>>
        requires { IsKnown T.tag (Some (list_name_of self.now)) (queued ∷ []) }
        ensures { IfErr result (λ back. back ≡ queued) }
    {
        let Held { value, pass } = self.outside.take(rt);
        let Outside { mut worker } = value;
        let pushed = deque::push(&mut worker, queued);
        self.outside.put(Held {
            value: Outside { worker },
            pass,
        });
        pushed
    }
}
