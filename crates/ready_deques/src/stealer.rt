// A stealer of one deque of a list.
ghost use Rattle.std.specs.Prelude.{◌≡◌, ◌∷◌, [], All, Some, IfOk, IfSome};
ghost use Rattle.crossbeam_deque.specs.Handles.{view, IsPassOf, stealer_deque, worker_flavor, worker_view};
ghost use Rattle.ready_deques.specs.inside.ListNames.{IsKnown};
ghost use Rattle.ready_deques.specs.inside.ListParts.{list_name_of};

use crate::deque;
use crate::deque::{ItemStealer, ItemWorker, Queued, StealerPass};
use crate::ready::Ready;
use crate::tagged::Tagged;
use crossbeam_deque::Steal;
use outside_io::NoMemory;

/// A stealer with its pass.
#[derive(Drop)]
pub struct OwnedStealer<T: Tagged> {
    pub stealer: ItemStealer<T>,
    pub pass: StealerPass<T>,
    ghost fits: { IsPassOf (stealer_deque stealer) pass },
}

/// A stealer of this deque.
pub fn stealer_of<T: Tagged + Drop>(worker: &mut ItemWorker<T>) -> Result<OwnedStealer<T>, NoMemory>
    requires { IsKnown T.tag (worker_view worker.old) [] }
    ensures same { (worker_view worker.new ≡ worker_view worker.old)
        × (worker_flavor worker.new ≡ worker_flavor worker.old) }
    ensures named { IfOk result (λ stealer. view stealer.pass ≡ worker_view worker.old) }
{
    let stealer = worker.stealer()?;
    let pass = deque::stealer_pass(worker);
    Ok(OwnedStealer { stealer, pass })
}

impl<T: Tagged> OwnedStealer<T> {
    /// The oldest item there, if it could be taken.
    pub fn steal(&mut self) -> Option<Queued<T>>
        ensures same { view self.new.pass ≡ view self.old.pass }
        ensures taken { IfSome result (λ queued. IsKnown T.tag (view self.old.pass) (queued ∷ [])) }
    {
        match deque::steal(&self.stealer, &mut self.pass) {
            Steal::Success(queued) => Some(queued),
            Steal::Empty => None,
            Steal::Retry => None,
        }
    }
}

/// The oldest item of the first deque that gives one.
pub fn steal_any<T: Tagged>(
    ready: &Ready<T>,
    stealers: &mut Vec<OwnedStealer<T>>,
) -> Option<Queued<T>>
    requires { All (λ stealer. view stealer.pass ≡ Some (list_name_of ready.now))
        stealers.old.items }
    ensures same { All (λ stealer. view stealer.pass ≡ Some (list_name_of ready.now))
        stealers.new.items }
    ensures taken { IfSome result
        (λ queued. IsKnown T.tag (Some (list_name_of ready.now)) (queued ∷ [])) }
{
    for i in 0..stealers.len() {
        match stealers[i].steal() {
            Some(queued) => return Some(queued),
            None => {}
        }
    }
    None
}
