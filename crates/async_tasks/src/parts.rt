// New books, with their seats and passes.
ghost use Rattle.std.specs.Prelude.{◌≡◌, ◌≤◌, ◌<◌, ◌+◌, [], All, IfOk, length};
ghost use Rattle.std.specs.Arc.{arc_value};
ghost use Rattle.ready_deques.specs.Limits.{max_workers};
ghost use Rattle.ready_deques.specs.Lists.{IsOwnerOf, tag_of};
ghost use Rattle.async_tasks.specs.Books.{key_of, book_key};
ghost use Rattle.async_tasks.specs.AsyncBooks.{ArePassesOf, AreFirstPasses, IsSeatOf, IsNewSeatOf, async_book_state, caller_limit, counts_of};

use crate::book::AsyncBook;
use crate::lock_gate::LockGate;
use crate::opening::Opening;
use crate::outstanding::Outstanding;
use crate::pass::Pass;
use crate::patience::Patience;
use crate::ready_task::ReadyTask;
use crate::seat::AsyncSeat;
use crate::shelved::Shelved;
use crate::state::BookState;
use crate::work::AsyncWork;
use keyed_lock::KeyedLock;
use outside_io::NoMemory;
use ready_deques::{Owner, Ready, Shares};
use std::alloc::Global;
use std::sync::Arc;
use std::sync::atomic::AtomicBool;
use tickets::Register;

/// How many callers a book may have.
pub const MAX_CALLERS: u32 = 64;

/// A new book, with a seat for each worker and a pass for each caller, at the caller's place.
#[derive(Drop)]
pub struct AsyncParts<W: AsyncWork> {
    pub book: AsyncBook<W>,
    pub seats: Vec<AsyncSeat<W>>,
    pub passes: Vec<Pass<W>>,
}

impl<W: AsyncWork> AsyncBook<W> {
    /// A book without tasks, for 1 to `MAX_WORKERS` workers and 1 to `MAX_CALLERS` callers.
    pub fn new(alloc: Global, workers: u32, callers: u32) -> Result<AsyncParts<W>, NoMemory>
        requires workers { (1 ≤ workers) × (workers ≤ max_workers) }
        requires callers { (1 ≤ callers) × (callers ≤ caller_limit) }
        ensures callers { IfOk result (λ parts. parts.book.callers ≡ callers) }
        ensures passes { IfOk result (λ parts. ArePassesOf parts.book parts.passes.items) }
        ensures seats { IfOk result (λ parts. All (IsSeatOf parts.book) parts.seats.items) }
        ensures workers { IfOk result (λ parts. length parts.seats.items ≡ workers) }
    {
        let Opening {
            register,
            mut state,
        } = BookState::new(alloc, callers)?;
        let passes = open_passes(alloc, &register, &mut state, callers)?;
        let shelved = Shelved::new(alloc, state)?;
        let lock = KeyedLock::new(alloc, shelved)?;
        let Shares { ready, owners } = Ready::new(alloc, workers, &ReadyTask { task: 0 })?;
        let seats = seats_of(alloc, &ready, owners)?;
        let book = AsyncBook {
            register,
            lock,
            ready,
            alloc,
            left_over: AtomicBool::new(false),
            gate: LockGate::new(),
        };
        Ok(AsyncParts {
            book,
            seats,
            passes,
        })
    }
}

// A pass for each caller of a new book.
#[tactic(auto, using(crate::proofs::Beginning::register_of, crate::proofs::Beginning::passes_push))]
fn open_passes<W: AsyncWork>(
    alloc: Global,
    register: &Register<Outstanding<W, W::V>>,
    state: &mut BookState<W>,
    callers: u32,
) -> Result<Vec<Pass<W>>, NoMemory>
    requires key { key_of state.old ≡ book_key register.now callers }
    requires none { state.old.items ≡ [] }
    ensures key { key_of state.new ≡ key_of state.old }
    ensures passes { IfOk result (λ passes. (length passes.items ≡ callers)
        × AreFirstPasses register.now passes.items) }
{
    let mut passes = Vec::new(alloc);
    for caller in 0..callers {
        let ticket = Some(state.open_pass(register, caller));
        passes.push(Pass { caller, ticket })?;
    }
    Ok(passes)
}

// A seat for each owner of a list.
fn seats_of<W: AsyncWork>(
    alloc: Global,
    ready: &Arc<Ready<ReadyTask>>,
    mut owners: Vec<Owner<ReadyTask>>,
) -> Result<Vec<AsyncSeat<W>>, NoMemory>
    requires { All (IsOwnerOf (arc_value ready.now)) owners.items }
    ensures seats { IfOk result
        (λ seats. All (IsNewSeatOf (arc_value ready.now)) seats.items) }
    ensures count { IfOk result (λ seats. length seats.items ≡ length owners.items) }
{
    let _ = ready;
    let mut seats = Vec::new(alloc);
    while let Some(owner) = owners.pop() {
        seats.push(AsyncSeat {
            alloc,
            owner,
            last: None,
            patience: Patience::new(),
        })?;
    }
    Ok(seats)
}
