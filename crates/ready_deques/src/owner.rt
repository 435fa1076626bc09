// One owner of a list.
ghost use Rattle.std.specs.Prelude.{◌≡◌, ◌∷◌, ◌+◌, [], All, Some, IfOk, IfErr, IfSome, MatchOption, IsTrue, IsFalse};
ghost use Rattle.std.specs.Arc.{arc_value};
ghost use Rattle.crossbeam_deque.specs.Handles.{view, worker_view};
ghost use Rattle.ready_deques.specs.Lists.{IsOwnerOf};
ghost use Rattle.ready_deques.specs.inside.ListNames.{IsKnown, about};
ghost use Rattle.ready_deques.specs.inside.ListParts.{list_name_of};

use crate::count::Account;
use crate::deque;
use crate::deque::{ItemWorker, Queued};
use crate::ready::Ready;
use crate::stealer::{OwnedStealer, steal_any, stealer_of};
use crate::tagged::Tagged;
use crossbeam_utils::sync::Parker;
use outside_io::{Back, NoMemory};
use std::alloc::Global;
use std::marker::Model;
use std::sync::{Arc, Wait};
use std::thread;

/// The owner of one deque of a list.
pub struct Owner<T: Tagged> {
    ready: Arc<Ready<T>>,
    worker: ItemWorker<T>,
    // Stealers of the deque for items from outside, and then of the other owners' deques, the next owner's first.
    stealers: Vec<OwnedStealer<T>>,
    account: Account,
    parker: Parker,
    // Its bit in the set of sleepers.
    bit: u64,
}

// Written out, so that it is proved here alone and not in each crate above.
impl<T: Tagged + Drop> Drop for Owner<T> {
    fn drop(self) {
        let Owner {
            ready,
            worker,
            stealers,
            account,
            parker,
            bit: _,
        } = self;
        drop((ready, worker, stealers, account, parker));
    }
}

impl<T: Tagged> Model for Owner<T> {
    ghost use Rattle.std.specs.Prelude.{◌≡◌, All, Some};
    ghost use Rattle.std.specs.Arc.{arc_value};
    ghost use Rattle.crossbeam_deque.specs.Handles.{view as pass_view, worker_view};
    ghost use Rattle.ready_deques.specs.Lists.{OwnerState, owner_state};
    ghost use Rattle.ready_deques.specs.inside.ListParts.{list_name_of};

    ghost Value = { OwnerState };

    ghost view = { λ o. owner_state (arc_value o.ready).tag.numbers
        (arc_value o.ready).counter.table.shared.table_id o.account.zeros };

    ghost invariant = { λ o. (worker_view o.worker ≡ Some (list_name_of (arc_value o.ready)))
        × All (λ stealer. pass_view stealer.pass ≡ Some (list_name_of (arc_value o.ready)))
        o.stealers.items
        × (o.account.counts ≡ (arc_value o.ready).counter.table.shared.table_id) };
}

// Queues an item in the owner's deque, or else in the one for items from outside.
fn queue_item<T: Tagged, R: Wait>(
    ready: &Ready<T>,
    rt: &R,
    worker: &mut ItemWorker<T>,
    queued: Queued<T>,
) -> Result<(), Queued<T>>
    requires worker { worker_view worker.old ≡ Some (list_name_of ready.now) }
    requires item { IsKnown T.tag (Some (list_name_of ready.now)) (queued ∷ []) }
    ensures worker { worker_view worker.new ≡ worker_view worker.old }
    ensures refused { IfErr result (λ back. back ≡ queued) }
{
    match deque::push(worker, queued) {
        Ok(()) => Ok(()),
        Err(queued) => ready.queue_outside(rt, queued),
    }
}

// The owner's newest item, else the oldest from outside, else another owner's oldest.
fn find<T: Tagged>(
    ready: &Ready<T>,
    worker: &mut ItemWorker<T>,
    stealers: &mut Vec<OwnedStealer<T>>,
) -> Option<Queued<T>>
    requires worker { worker_view worker.old ≡ Some (list_name_of ready.now) }
    requires stealers { All (λ stealer. view stealer.pass ≡ Some (list_name_of ready.now))
        stealers.old.items }
    ensures worker { worker_view worker.new ≡ worker_view worker.old }
    ensures stealers { All (λ stealer. view stealer.pass ≡ Some (list_name_of ready.now))
        stealers.new.items }
    ensures taken { IfSome result
        (λ queued. IsKnown T.tag (Some (list_name_of ready.now)) (queued ∷ [])) }
{
    match deque::pop(worker) {
        Some(queued) => Some(queued),
        None => steal_any(ready, stealers),
    }
}

// `T` isn't known to be `Drop`, so no item is dropped here: what comes in is queued or given back, and what is taken
// goes to the caller.
impl<T: Tagged> Owner<T> {
    /// Queues an item in this owner's deque, or in the one for items from outside if its own can't grow, and wakes one
    /// owner that sleeps. It may wait. After an `Err`, which comes only if an allocation fails, the item is not queued.
    pub fn push<R: Wait>(&mut self, rt: &R, item: T) -> Result<(), Back<T>>
        requires { T.tag item ≡ self.old.tag }
        ensures same { self.new ≡ self.old }
        ensures back { IfErr result (λ back. back.item ≡ item) }
    {
        let seat = self.ready.counter.count(rt, &mut self.account);
        let queued = Queued { item, seat };
        match queue_item(&self.ready, rt, &mut self.worker, queued) {
            Ok(()) => {
                self.ready.sleepers.wake_one();
                Ok(())
            }
            Err(queued) => Err(Back {
                item: self.ready.keep_count(&self.account, queued),
            }),
        }
    }

    /// The newest item of this owner's deque, or `None` if the deque is empty. It waits for nobody.
    pub fn take_own(&mut self) -> Option<T>
        ensures same { self.new ≡ self.old }
        ensures tag { IfSome result (λ item. T.tag item ≡ self.old.tag) }
    {
        match deque::pop(&mut self.worker) {
            Some(queued) => Some(self.ready.keep_count(&self.account, queued)),
            None => None,
        }
    }

    /// The newest item of this owner's deque, else the oldest from outside, else the oldest of another owner's deque,
    /// beginning with the next owner. It may wait. `None` only if a load of the count word in this call found 0, so
    /// that no item was queued then. It waits for no owner that is busy with an item that it took.
    pub fn take<R: Wait>(&mut self, rt: &R) -> Option<T>
        ensures same { (self.new.tag ≡ self.old.tag) × (self.new.counts ≡ self.old.counts) }
        ensures tag { IfSome result (λ item. T.tag item ≡ self.old.tag) }
        ensures zeros { MatchOption result (self.new.zeros ≡ self.old.zeros + 1)
            (λ _. self.new.zeros ≡ self.old.zeros) }
    {
        for _ in rt.forever() {
            match self.find_item() {
                Some(item) => return Some(item),
                None => {}
            }
            if self.finds_none() {
                return None;
            }
            thread::yield_now();
        }
        unreachable!()
    }

    /// Sleeps until an item is pushed or the list is closed, unless there is an item already or it is closed. It may
    /// also return for no reason.
    pub fn idle<R: Wait>(&mut self, rt: &R)
        ensures { self.new ≡ self.old }
    {
        let sleepers = &self.ready.sleepers;
        sleepers.enter(self.bit);
        if self.ready.counter.is_zero() && !self.ready.is_closed() {
            self.parker.park(rt);
        }
        sleepers.leave(self.bit);
    }

    fn find_item(&mut self) -> Option<T>
        ensures same { self.new ≡ self.old }
        ensures tag { IfSome result (λ item. T.tag item ≡ self.old.tag) }
    {
        match find(&self.ready, &mut self.worker, &mut self.stealers) {
            Some(queued) => Some(self.ready.keep_count(&self.account, queued)),
            None => None,
        }
    }

    // Whether the count word is 0 at a step of this call, which follows on taking the spare counts out of it.
    fn finds_none(&mut self) -> bool
        ensures same { (self.new.tag ≡ self.old.tag) × (self.new.counts ≡ self.old.counts) }
        ensures zero { IsTrue result → self.new.zeros ≡ self.old.zeros + 1 }
        ensures more { IsFalse result → self.new.zeros ≡ self.old.zeros }
    {
        self.ready.counter.gather(&mut self.account);
        self.ready.counter.finds_zero(&mut self.account)
    }
}

impl<T: Tagged + Drop> Owner<T> {
    // An owner that can't steal from another yet.
    pub(crate) fn of(
        alloc: Global,
        ready: &Arc<Ready<T>>,
        worker: ItemWorker<T>,
        outside: OwnedStealer<T>,
        account: Account,
        parker: Parker,
        bit: u64,
    ) -> Result<Owner<T>, NoMemory>
        requires worker { worker_view worker ≡ Some (list_name_of (arc_value ready.now)) }
        requires outside { view outside.pass ≡ Some (list_name_of (arc_value ready.now)) }
        requires account { account.counts ≡ (arc_value ready.now).counter.table.shared.table_id }
        ensures { IfOk result (IsOwnerOf (arc_value ready.now)) }
    {
        let ready = Arc::try_clone(ready)?;
        let mut owner = Owner {
            ready,
            worker,
            stealers: Vec::new(alloc),
            account,
            parker,
            bit,
        };
        owner.gain(outside)?;
        Ok(owner)
    }

    // A stealer of this owner's deque.
    pub(crate) fn lend(&mut self) -> Result<OwnedStealer<T>, NoMemory>
        ensures same { self.new ≡ self.old }
        ensures named { IfOk result
            (λ stealer. view stealer.pass ≡ Some (about self.old.tag self.old.counts)) }
    {
        stealer_of(&mut self.worker)
    }

    // From now on this owner steals with this stealer too, after its other ones.
    pub(crate) fn gain(&mut self, stealer: OwnedStealer<T>) -> Result<(), NoMemory>
        requires { view stealer.pass ≡ Some (about self.old.tag self.old.counts) }
        ensures { self.new ≡ self.old }
    {
        let _ = &self.ready;
        self.stealers.push(stealer)?;
        Ok(())
    }
}
