// One deque of a list: each item in it has the list's tag and holds one count.
ghost use Rattle.std.specs.Prelude.{◌≡◌, ◌∷◌, [], None, IfOk, IfErr, IfSome};
ghost use Rattle.crossbeam_deque.specs.Handles.{view, IsPassOf, worker_deque, stealer_deque, worker_flavor, worker_view};
ghost use Rattle.crossbeam_deque.specs.Steals.{MatchSteal};
ghost use Rattle.ready_deques.specs.inside.ListNames.{IsKnown, SameDeque};

use crate::about::About;
use crate::count::Counting;
use crate::tagged::Tagged;
use atomic_table::{Seat, Split};
use crossbeam_deque::protocol::{Outcome, Protocol};
use crossbeam_deque::{Pass, Steal, Stealer, Worker};
use outside_io::NoMemory;
use std::alloc::Global;
use std::marker::{Brand, PhantomData};

/// An item with its count.
#[derive(Drop)]
pub struct Queued<T> {
    pub item: T,
    pub seat: Seat<(), Counting>,
}

/// Each item has the list's tag and holds one count.
pub struct HoldsQueued;

impl<T: Tagged> Protocol<Queued<T>, Option<About>> for HoldsQueued {
    ghost use Rattle.std.specs.Prelude.{None};
    ghost use Rattle.ready_deques.specs.inside.ListNames.{Holding};

    ghost holds = { Holding T.tag };

    ghost first = { None };

    ghost guest = { None };
}

/// What was put in or taken out is of the list, and the view is as it was.
pub struct KeepsName;

impl<T: Tagged> Outcome<Queued<T>, Option<About>> for KeepsName {
    ghost use Rattle.ready_deques.specs.inside.ListNames.{KeepsIt};

    ghost then = { KeepsIt T.tag };
}

/// The name that a deque is given. A step has no parameter, so it comes in by a type.
pub trait Naming {
    ghost use Rattle.ready_deques.specs.declared.about.About.{About};

    ghost name: { About };
}

impl Naming for Brand {
    ghost use Rattle.ready_deques.specs.inside.ListNames.{blank};

    ghost name = { blank };
}

/// A deque without a name is given one.
pub struct GivesName<N> {
    marker: PhantomData<N>,
}

impl<N: Naming> Split<Option<About>> for GivesName<N> {
    ghost use Rattle.std.specs.Prelude.{Some};

    ghost left = { λ _. Some N.name };

    ghost right = { λ _. Some N.name };
}

/// Another pass of the same name.
pub struct Copies;

impl Split<Option<About>> for Copies {
    ghost left = { λ v. v };

    ghost right = { λ v. v };
}

/// The end of a deque at which its owner pushes and pops.
pub type ItemWorker<T> = Worker<Queued<T>, Global, Option<About>, HoldsQueued>;

/// The end of a deque at which others steal.
pub type ItemStealer<T> = Stealer<Queued<T>, Global, Option<About>, HoldsQueued>;

/// What a stealer's caller knows.
pub type StealerPass<T> = Pass<Queued<T>, Option<About>>;

/// An empty deque without a name, with room for so many items at first, whose owner takes the newest.
#[tactic(auto, using(crate::proofs::Holding::begins))]
pub fn unnamed<T: Tagged + Drop>(alloc: Global, room: usize) -> Result<ItemWorker<T>, NoMemory>
    ensures { IfOk result (λ worker. (worker_flavor worker ≡ 1) × (worker_view worker ≡ None)) }
{
    Ok(Worker::lifo_as(alloc, room)?)
}

/// An empty deque without a name, with room for so many items at first, whose owner only pushes. Stealers find it empty
/// only if it is.
#[tactic(auto, using(crate::proofs::Holding::begins))]
pub fn unnamed_queue<T: Tagged + Drop>(
    alloc: Global,
    room: usize,
) -> Result<ItemWorker<T>, NoMemory>
    ensures { IfOk result (λ worker. (worker_flavor worker ≡ 0) × (worker_view worker ≡ None)) }
{
    Ok(Worker::fifo_as(alloc, room)?)
}

pub fn name<T: Tagged + Drop, N: Naming>(worker: &mut ItemWorker<T>)
    requires { worker_view worker.old ≡ None }
    ensures { (worker_view worker.new ≡ Some N.name)
        × (worker_flavor worker.new ≡ worker_flavor worker.old) }
{
    let _ = worker.another::<GivesName<N>>();
}

pub fn stealer_pass<T: Tagged>(worker: &mut ItemWorker<T>) -> StealerPass<T>
    requires { IsKnown T.tag (worker_view worker.old) [] }
    ensures same { (worker_view worker.new ≡ worker_view worker.old)
        × (worker_flavor worker.new ≡ worker_flavor worker.old) }
    ensures pass { IsPassOf (worker_deque worker.old) result
        × (view result ≡ worker_view worker.old) }
{
    worker.another::<Copies>()
}

pub fn push<T: Tagged>(worker: &mut ItemWorker<T>, queued: Queued<T>) -> Result<(), Queued<T>>
    requires { IsKnown T.tag (worker_view worker.old) (queued ∷ []) }
    ensures same { SameDeque worker.old worker.new }
    ensures refused { IfErr result (λ back. back ≡ queued) }
{
    worker.push_as::<KeepsName>(queued)
}

/// The newest item.
pub fn pop<T: Tagged>(worker: &mut ItemWorker<T>) -> Option<Queued<T>>
    ensures same { SameDeque worker.old worker.new }
    ensures taken { IfSome result (λ queued. IsKnown T.tag (worker_view worker.old) (queued ∷ [])) }
{
    worker.pop_as::<KeepsName>()
}

/// The oldest item.
pub fn steal<T: Tagged>(stealer: &ItemStealer<T>, pass: &mut StealerPass<T>) -> Steal<Queued<T>>
    requires { IsPassOf (stealer_deque stealer.now) pass.old }
    ensures same { IsPassOf (stealer_deque stealer.now) pass.new × (view pass.new ≡ view pass.old) }
    ensures taken { MatchSteal result (Unit {0}) (Unit {0})
        (λ queued. IsKnown T.tag (view pass.old) (queued ∷ [])) }
{
    stealer.steal_as::<KeepsName>(pass)
}
