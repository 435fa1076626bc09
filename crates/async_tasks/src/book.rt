// Books of tasks.
ghost use Rattle.std.specs.Prelude.{◌≡◌, ◌+◌, ◌<◌, ◌≤◌, ◌++◌, ◌∷◌, [], ℕ, length, IfOk, IfErr, OnErr, IfSome, All};
ghost use Rattle.std.specs.Arc.{arc_value};
ghost use Rattle.keyed_lock.specs.Locks.{made_with};
ghost use Rattle.async_tasks.specs.Adds.{after_limit, RefusesAdd};
ghost use Rattle.async_tasks.specs.AsyncBooks.{IsPassOf, HasAdded};
ghost use Rattle.async_tasks.specs.Passes.{seen, kept, LooksAgain};
ghost use Rattle.async_tasks.specs.Starts.{IsAfter};

use crate::lock_gate::LockGate;
use crate::outstanding::Outstanding;
use crate::pass::Pass;
use crate::ready_task::ReadyTask;
use crate::recorded_end::RecordedEnd;
use crate::shelved::Shelved;
use crate::started::Started;
use crate::state::{AddError, BookState};
use crate::work::AsyncWork;
use keyed_lock::{Held, KeyedLock};
use outside_io::{List, NoMemory};
use ready_deques::{Owner, Ready};
use std::alloc::Global;
use std::marker::Model;
use std::sync::atomic::AtomicBool;
use std::sync::atomic::Ordering::SeqCst;
use std::sync::{Arc, Wait};
use tickets::Register;

/// A book of tasks, to which callers add while workers step.
pub struct AsyncBook<W: AsyncWork> {
    pub(crate) register: Register<Outstanding<W, W::V>>,
    pub(crate) lock: KeyedLock<Shelved<W>>,
    pub(crate) ready: Arc<Ready<ReadyTask>>,
    pub(crate) alloc: Global,
    // Whether some ready task may wait in the state, since the list had no room for it.
    pub(crate) left_over: AtomicBool,
    // Before the lock.
    pub(crate) gate: LockGate,
}

impl<W: AsyncWork> Drop for AsyncBook<W> {
    fn drop(self) {
        let AsyncBook {
            register,
            lock,
            ready,
            alloc: _,
            left_over,
            gate,
        } = self;
        drop((register, lock, ready, left_over, gate));
    }
}

impl<W: AsyncWork> Model for AsyncBook<W> {
    ghost use Rattle.std.specs.Prelude.{◌≡◌, []};
    ghost use Rattle.std.specs.Arc.{arc_value};
    ghost use Rattle.ready_deques.specs.Lists.{tag_of};
    ghost use Rattle.keyed_lock.specs.Locks.{made_with};
    ghost use Rattle.async_tasks.specs.AsyncBooks.{AsyncBookState, async_book_state, counts_of};

    ghost Value = { AsyncBookState };

    ghost view = { λ b. async_book_state b.register (made_with b.lock).state.value.callers
        (counts_of (arc_value b.ready)) };

    ghost invariant = { λ b. ((made_with b.lock).state.value.register ≡ b.register)
        × (tag_of (arc_value b.ready) ≡ []) };
}

impl<W: AsyncWork> AsyncBook<W> {
    /// Adds a task, which runs after these tasks, and returns its number. It may wait for the book.
    ///
    /// Each call looks into the book, and the pass has then seen all of its rows. After an `Err` nothing was added,
    /// and the work is handed back: `Full` where the book has `MAX_TASKS`, else `NoSuch` for the first of the tasks
    /// named that the book has not, else `NoMemory`.
    #[tactic(auto, using(crate::proofs::Keys::same_register, crate::proofs::Keys::below_callers, crate::proofs::Keys::ticket_of, crate::proofs::Keys::held_by))]
    pub fn add<R: Wait>(
        &self,
        rt: &R,
        pass: &mut Pass<W>,
        work: Arc<W>,
        after: &[u32],
    ) -> Result<u32, AddError<W>>
        requires pass { IsPassOf self.now pass.old }
        requires few { length after.now ≤ after_limit }
        ensures pass { IsPassOf self.now pass.new }
        ensures looks { LooksAgain pass.old pass.new }
        ensures added { IfOk result (λ id. HasAdded pass.old id after.now pass.new) }
        ensures not_added { OnErr result (kept pass.new ≡ kept pass.old) }
        ensures refused { IfErr result (RefusesAdd (length (seen pass.new)) work after.now) }
    {
        let Some(ticket) = pass.ticket.take() else {
            unreachable!()
        };
        let caller = pass.caller;
        let listed = List::from_slice(self.alloc, after);
        self.gate.enter(rt);
        let Held {
            value: mut shelved,
            pass: lock_pass,
        } = self.lock.take(rt);
        let (ticket, answer) = shelved
            .state
            .add_for(&self.register, ticket, caller, work, after, listed);
        let ready = shelved.state.take_ready();
        self.lock.put(Held {
            value: shelved,
            pass: lock_pass,
        });
        self.gate.leave();
        pass.ticket = Some(ticket);
        self.inject(rt, ready);
        answer
    }
}

impl<W: AsyncWork> AsyncBook<W> {
    // Queues a ready task that was taken off the state, from outside. Where the list has no room for it, it goes back
    // to the state.
    fn inject<R: Wait>(&self, rt: &R, ready: Option<u32>) {
        let Some(task) = ready else { return };
        if self.ready.inject(rt, ReadyTask { task }).is_err() {
            self.put_back(rt, task);
        }
    }

    /// So in the deque of an owner.
    pub(crate) fn push<R: Wait>(&self, rt: &R, owner: &mut Owner<ReadyTask>, ready: Option<u32>)
        requires { owner.old.tag ≡ [] }
        ensures { owner.new ≡ owner.old }
    {
        let Some(task) = ready else { return };
        if owner.push(rt, ReadyTask { task }).is_err() {
            self.put_back(rt, task);
        }
    }

    // Gives a ready task back to the state. It is left over.
    fn put_back<R: Wait>(&self, rt: &R, task: u32) {
        self.gate.enter(rt);
        let Held {
            value: mut shelved,
            pass,
        } = self.lock.take(rt);
        shelved.state.put_ready(task);
        self.lock.put(Held {
            value: shelved,
            pass,
        });
        self.gate.leave();
        self.left_over.store(true, SeqCst);
    }

    // Queues what is ready in the state, in the deque of an owner. After an `Err` some is left over.
    fn push_ready<R: Wait>(
        &self,
        rt: &R,
        owner: &mut Owner<ReadyTask>,
        state: &mut BookState<W>,
    ) -> Result<(), NoMemory>
        requires { owner.old.tag ≡ [] }
        ensures state { state.new ≡ state.old }
        ensures owner { owner.new ≡ owner.old }
    {
        for _ in rt.forever() {
            let Some(task) = state.take_ready() else {
                return Ok(());
            };
            if owner.push(rt, ReadyTask { task }).is_err() {
                state.put_ready(task);
                self.left_over.store(true, SeqCst);
                return Err(NoMemory);
            }
        }
        unreachable!()
    }

    /// Queues what is ready and was left over when the list had no room for it. Whether there may have been something.
    #[tactic(auto, using(crate::proofs::Keys::same_register))]
    pub(crate) fn push_left_over<R: Wait>(
        &self,
        rt: &R,
        owner: &mut Owner<ReadyTask>,
    ) -> Result<bool, NoMemory>
        requires { owner.old.tag ≡ [] }
        ensures { owner.new ≡ owner.old }
    {
        // It is looked at before it is written, since seats that find nothing to do look here again and again.
        if !self.left_over.load(SeqCst) || !self.left_over.swap(false, SeqCst) {
            return Ok(false);
        }
        self.gate.enter(rt);
        let Held {
            value: mut shelved,
            pass,
        } = self.lock.take(rt);
        let pushed = self.push_ready(rt, owner, &mut shelved.state);
        self.lock.put(Held {
            value: shelved,
            pass,
        });
        self.gate.leave();
        match pushed {
            Ok(()) => Ok(true),
            Err(error) => Err(error),
        }
    }

    /// Starts a task. `None` where it may not start.
    #[tactic(auto, using(crate::proofs::Keys::same_register))]
    pub(crate) fn start<R: Wait>(&self, rt: &R, task: u32) -> Result<Option<Started<W>>, NoMemory>
        ensures { IfOk result
            (λ answer. IfSome answer (λ started. started.register ≡ self.now.register)) }
    {
        self.gate.enter(rt);
        let Held {
            value: mut shelved,
            pass,
        } = self.lock.take(rt);
        let started = shelved.state.start_in(&self.register, task);
        self.lock.put(Held {
            value: shelved,
            pass,
        });
        self.gate.leave();
        started
    }

    /// Ends a start with a value, and queues what is ready by that. The end is recorded after the last one.
    #[tactic(auto, using(crate::proofs::Keys::same_register))]
    pub(crate) fn end<R: Wait>(
        &self,
        rt: &R,
        owner: &mut Owner<ReadyTask>,
        started: Started<W>,
        value: Arc<W::V>,
        last: Option<RecordedEnd<W>>,
    ) -> RecordedEnd<W>
        requires owner { owner.old.tag ≡ [] }
        requires started { started.register ≡ self.now.register }
        requires answered { W.answers started.work started.ins (arc_value value) }
        requires last { IfSome last (λ end. end.register ≡ self.now.register) }
        ensures owner { owner.new ≡ owner.old }
        ensures recorded { (result.register ≡ self.now.register)
            × (result.task ≡ started.task) }
        ensures later { IsAfter last result.place }
    {
        self.gate.enter(rt);
        let Held {
            value: mut shelved,
            pass,
        } = self.lock.take(rt);
        let (end, _carried) = shelved
            .state
            .end_after(&self.register, started, value, last);
        let first = shelved.state.take_ready();
        let _ = self.push_ready(rt, owner, &mut shelved.state); // what is left over is queued by a later step
        self.lock.put(Held {
            value: shelved,
            pass,
        });
        self.gate.leave();
        self.push(rt, owner, first);
        end
    }
}
