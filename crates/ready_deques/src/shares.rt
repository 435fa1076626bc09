// A new list with its owners.
ghost use Rattle.std.specs.Prelude.{◌≡◌, ◌+◌, ◌<◌, ◌≤◌, [], All, Some, None, IfOk, length};
ghost use Rattle.std.specs.Arc.{arc_value};
ghost use Rattle.crossbeam_deque.specs.Handles.{view, worker_view};
ghost use Rattle.ready_deques.specs.Limits.{max_workers};
ghost use Rattle.ready_deques.specs.Lists.{IsOwnerOf, tag_of};
ghost use Rattle.ready_deques.specs.inside.ListNames.{IsKnown, about};
ghost use Rattle.ready_deques.specs.inside.ListParts.{list_name_of};

use crate::count::{Account, Counter};
use crate::deque;
use crate::deque::{ItemWorker, Naming};
use crate::owner::Owner;
use crate::ready::{Outside, Ready};
use crate::sleepers::Sleepers;
use crate::stealer::{OwnedStealer, stealer_of};
use crate::tagged::{ByTag, Tagged};
use boxcar::tag::Tag;
use crossbeam_utils::sync::{Parker, Unparker};
use keyed_lock::KeyedLock;
use outside_io::NoMemory;
use std::alloc::Global;
use std::marker::Brand;
use std::sync::Arc;
use std::sync::atomic::AtomicBool;

// How many items a deque has room for before it grows.
const ROOM: usize = 64;

/// A list and its owners.
#[derive(Drop)]
pub struct Shares<T: Tagged> {
    pub ready: Arc<Ready<T>>,
    pub owners: Vec<Owner<T>>,
}

impl<T: Tagged + Drop> Ready<T> {
    /// An empty open list for 1 to `MAX_WORKERS` workers, with an owner for each. Its items have the tag of `of`.
    pub fn new<K: Tagged>(alloc: Global, workers: u32, of: &K) -> Result<Shares<T>, NoMemory>
        requires { workers ≤ max_workers }
        ensures tag { IfOk result (λ shares. tag_of (arc_value shares.ready) ≡ K.tag of.now) }
        ensures owners { IfOk result
            (λ shares. All (IsOwnerOf (arc_value shares.ready)) shares.owners.items) }
        ensures count { IfOk result (λ shares. length shares.owners.items ≡ workers) }
    {
        let tag = Tag::of::<K, ByTag>(of);
        let (counter, account) = Counter::new(alloc)?;
        let (parkers, wakers) = new_parkers(alloc, workers)?;
        let mut outside = named_queue(alloc, &tag, &counter)?;
        let stealers = outside_stealers(alloc, &mut outside, workers)?;
        let ready = shared(alloc, tag, counter, outside, Sleepers::new(wakers))?;
        let mut owners = new_owners(alloc, &ready, stealers, account, parkers)?;
        pair_all(&ready, &mut owners)?;
        Ok(Shares { ready, owners })
    }
}

fn new_parkers(alloc: Global, workers: u32) -> Result<(Vec<Parker>, Vec<Unparker>), NoMemory>
    ensures { IfOk result (λ made. length made.0.items ≡ workers) }
{
    let mut parkers = Vec::new(alloc);
    let mut wakers = Vec::new(alloc);
    for _ in 0..workers {
        let parker = Parker::new(alloc)?;
        wakers.push(parker.unparker().clone()?)?;
        parkers.push(parker)?;
    }
    Ok((parkers, wakers))
}

fn name_worker<T: Tagged + Drop, N: Naming>(
    tag: &Tag,
    counter: &Counter,
    worker: &mut ItemWorker<T>,
)
    requires unnamed { worker_view worker.old ≡ None }
    requires name { N.name ≡ about tag.now.numbers counter.now.table.shared.table_id }
    ensures { worker_view worker.new
        ≡ Some (about tag.now.numbers counter.now.table.shared.table_id) }
{
    let _ = tag;
    let _ = counter;
    deque::name::<T, N>(worker);
}

// An empty deque of the list with this tag and this count word.
fn named_worker<T: Tagged + Drop>(
    alloc: Global,
    tag: &Tag,
    counter: &Counter,
) -> Result<ItemWorker<T>, NoMemory>
    ensures { IfOk result (λ worker. worker_view worker
        ≡ Some (about tag.now.numbers counter.now.table.shared.table_id)) }
{
    let mut worker = deque::unnamed(alloc, ROOM)?;
    name_worker::<T, Brand>(tag, counter, &mut worker);
    Ok(worker)
}

// So the one for items from outside.
fn named_queue<T: Tagged + Drop>(
    alloc: Global,
    tag: &Tag,
    counter: &Counter,
) -> Result<ItemWorker<T>, NoMemory>
    ensures { IfOk result (λ worker. worker_view worker
        ≡ Some (about tag.now.numbers counter.now.table.shared.table_id)) }
{
    let mut worker = deque::unnamed_queue(alloc, ROOM)?;
    name_worker::<T, Brand>(tag, counter, &mut worker);
    Ok(worker)
}

// A stealer of the deque for items from outside, for each worker.
fn outside_stealers<T: Tagged + Drop>(
    alloc: Global,
    outside: &mut ItemWorker<T>,
    workers: u32,
) -> Result<Vec<OwnedStealer<T>>, NoMemory>
    requires { IsKnown T.tag (worker_view outside.old) [] }
    ensures outside { worker_view outside.new ≡ worker_view outside.old }
    ensures named { IfOk result (λ stealers. All (λ stealer. view stealer.pass
        ≡ worker_view outside.old) stealers.items) }
    ensures count { IfOk result (λ stealers. length stealers.items ≡ workers) }
{
    let mut stealers = Vec::new(alloc);
    for _ in 0..workers {
        stealers.push(stealer_of(outside)?)?;
    }
    Ok(stealers)
}

// What the owners share.
fn shared<T: Tagged + Drop>(
    alloc: Global,
    tag: Tag,
    counter: Counter,
    outside: ItemWorker<T>,
    sleepers: Sleepers,
) -> Result<Arc<Ready<T>>, NoMemory>
    requires { worker_view outside ≡ Some (about tag.numbers counter.table.shared.table_id) }
    ensures tag { IfOk result (λ ready. tag_of (arc_value ready) ≡ tag.numbers) }
    ensures counts { IfOk result
        (λ ready. (arc_value ready).counter.table.shared.table_id ≡ counter.table.shared.table_id) }
{
    let ready = Ready {
        tag,
        counter,
        outside: KeyedLock::new(alloc, Outside { worker: outside })?,
        sleepers,
        closed: AtomicBool::new(false),
    };
    Ok(Arc::new(alloc, ready)?)
}

fn new_owner<T: Tagged + Drop>(
    alloc: Global,
    ready: &Arc<Ready<T>>,
    outside: OwnedStealer<T>,
    account: &mut Account,
    parker: Parker,
    number: usize,
) -> Result<Owner<T>, NoMemory>
    requires number { number < max_workers }
    requires account { account.old.counts ≡ (arc_value ready.now).counter.table.shared.table_id }
    requires outside { view outside.pass ≡ Some (list_name_of (arc_value ready.now)) }
    ensures account { account.new ≡ account.old }
    ensures owner { IfOk result (IsOwnerOf (arc_value ready.now)) }
{
    let own_account = ready.counter.open(account, number);
    let worker = named_worker(alloc, &ready.tag, &ready.counter)?;
    let bit = 1u64 << number;
    Owner::of(alloc, ready, worker, outside, own_account, parker, bit)
}

fn add_owner<T: Tagged + Drop>(
    alloc: Global,
    ready: &Arc<Ready<T>>,
    outside: OwnedStealer<T>,
    account: &mut Account,
    owners: &mut Vec<Owner<T>>,
    parker: Parker,
    number: usize,
) -> Result<(), NoMemory>
    requires number { number < max_workers }
    requires account { account.old.counts ≡ (arc_value ready.now).counter.table.shared.table_id }
    requires outside { view outside.pass ≡ Some (list_name_of (arc_value ready.now)) }
    requires owners { All (IsOwnerOf (arc_value ready.now)) owners.old.items }
    ensures account { account.new ≡ account.old }
    ensures owners { All (IsOwnerOf (arc_value ready.now)) owners.new.items }
    ensures count { IfOk result (λ _. length owners.new.items ≡ length owners.old.items + 1) }
{
    let owner = new_owner(alloc, ready, outside, account, parker, number)?;
    owners.push(owner)?;
    Ok(())
}

// The last of these stealers.
fn next_outside<T: Tagged + Drop>(
    ready: &Ready<T>,
    stealers: &mut Vec<OwnedStealer<T>>,
) -> OwnedStealer<T>
    requires named { All (λ stealer. view stealer.pass ≡ Some (list_name_of ready.now))
        stealers.old.items }
    requires count { 0 < length stealers.old.items }
    ensures named { All (λ stealer. view stealer.pass ≡ Some (list_name_of ready.now))
        stealers.new.items }
    ensures count { length stealers.old.items ≡ length stealers.new.items + 1 }
    ensures next { view result.pass ≡ Some (list_name_of ready.now) }
{
    let _ = ready;
    let Some(stealer) = stealers.pop() else {
        unreachable!()
    };
    stealer
}

// An owner for each parker. Each has the number of its waker's place.
fn new_owners<T: Tagged + Drop>(
    alloc: Global,
    ready: &Arc<Ready<T>>,
    mut stealers: Vec<OwnedStealer<T>>,
    mut account: Account,
    mut parkers: Vec<Parker>,
) -> Result<Vec<Owner<T>>, NoMemory>
    requires account { account.counts ≡ (arc_value ready.now).counter.table.shared.table_id }
    requires stealers { All (λ stealer. view stealer.pass
        ≡ Some (list_name_of (arc_value ready.now))) stealers.items }
    requires one_each { length stealers.items ≡ length parkers.items }
    requires count { length parkers.items ≤ max_workers }
    ensures owners { IfOk result (λ owners. All (IsOwnerOf (arc_value ready.now)) owners.items) }
    ensures count { IfOk result (λ owners. length owners.items ≡ length parkers.items) }
{
    let mut owners = Vec::new(alloc);
    while let Some(parker) = parkers.pop() {
        let number = parkers.len();
        let outside = next_outside(ready, &mut stealers);
        add_owner(
            alloc,
            ready,
            outside,
            &mut account,
            &mut owners,
            parker,
            number,
        )?;
    }
    Ok(owners)
}

// One owner may steal from another from now on.
fn pair<T: Tagged + Drop>(
    ready: &Ready<T>,
    owners: &mut Vec<Owner<T>>,
    from: usize,
    to: usize,
) -> Result<(), NoMemory>
    requires owners { All (IsOwnerOf ready.now) owners.old.items }
    requires range { (from < length owners.old.items) × (to < length owners.old.items) }
    ensures owners { All (IsOwnerOf ready.now) owners.new.items }
    ensures count { length owners.new.items ≡ length owners.old.items }
{
    let stealer = owners[from].lend()?;
    owners[to].gain(stealer)
}

// One owner may steal from all others, beginning with the next.
fn pair_one<T: Tagged + Drop>(
    ready: &Ready<T>,
    owners: &mut Vec<Owner<T>>,
    to: usize,
) -> Result<(), NoMemory>
    requires owners { All (IsOwnerOf ready.now) owners.old.items }
    requires range { to < length owners.old.items }
    ensures owners { All (IsOwnerOf ready.now) owners.new.items }
    ensures count { length owners.new.items ≡ length owners.old.items }
{
    let count = owners.len();
    for from in to + 1..count {
        pair(ready, owners, from, to)?;
    }
    for from in 0..to {
        pair(ready, owners, from, to)?;
    }
    Ok(())
}

fn pair_all<T: Tagged + Drop>(ready: &Ready<T>, owners: &mut Vec<Owner<T>>) -> Result<(), NoMemory>
    requires owners { All (IsOwnerOf ready.now) owners.old.items }
    ensures owners { All (IsOwnerOf ready.now) owners.new.items }
    ensures count { length owners.new.items ≡ length owners.old.items }
{
    for to in 0..owners.len() {
        pair_one(ready, owners, to)?;
    }
    Ok(())
}
