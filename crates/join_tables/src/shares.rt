// The values of Ends, shared by the journal and the edges.
ghost use Rattle.std.specs.Prelude.{◌≡◌, ◌<◌, ◌++◌, ◌∷◌, IfOk, [], drop, length, take};
ghost use Rattle.std.specs.Arc.{arc_value};
ghost use Rattle.table_steps.specs.ParcelForms.{parcel_in, is_bare, MayBeBare};
ghost use Rattle.join_tables.specs.inside.Sharing.{AddsShare, AreOwnersOf, AreParcelsOf, AreSharesOf, IsOneFewer, IsParcelOf, at_place, count_in, have_no_node, placed};

use crate::turns::NetTable;
use join_words::Given;
use outside_io::NoMemory;
use std::alloc::Global;
use std::collections::LinkedList;
use std::marker::Model;
use std::mem::replace;
use std::sync::Arc;
use table_steps::Parcel;

/// The value of an End, with an owner for the journal and one for each edge that the End gives.
#[derive(Drop)]
pub struct SharedValue<V> {
    pub(crate) value: Arc<V>,
    pub(crate) shares: Shares<V>,
}

impl<V> Model for SharedValue<V> {
    ghost use Rattle.std.specs.Arc.{arc_value};
    ghost use Rattle.join_tables.specs.Shares.{SharedState, shared_state};
    ghost use Rattle.join_tables.specs.inside.Sharing.{AreSharesOf, count_in, have_no_node};

    ghost Value = { SharedState V };

    ghost view = { λ s. shared_state (arc_value s.value) (count_in s.shares) (have_no_node s.shares) };

    ghost invariant = { λ s. AreSharesOf (arc_value s.value) s.shares };
}

/// Owners of a value, one for each edge that is still to be given.
#[derive(Drop)]
pub enum Shares<V> {
    /// For edges that are given one token at most.
    Bare(Vec<Arc<V>>),
    /// In parcels with a node each, so that giving one takes no memory. The place of the End, which isn't drawn yet, is
    /// still to be written on them.
    Linked(LinkedList<Given<V>>),
}

impl<V: Drop> NetTable<V> {
    /// A value for an End that gives this many edges. If an allocation fails, or the value can't have this many owners,
    /// the value is lost.
    pub fn share(&self, alloc: Global, value: V, edges: usize) -> Result<SharedValue<V>, NoMemory>
        ensures value { IfOk result (λ shared. (shared.value ≡ value) × (shared.edges ≡ edges)) }
        ensures room { IfOk result (λ shared. MayBeBare self.now.net shared.bare) }
    {
        let value = Arc::new(alloc, value)?;
        let shares = if self.gives_once {
            Shares::Bare(owners(alloc, &value, edges)?)
        } else {
            Shares::Linked(parcels(alloc, &value, edges)?)
        };
        Ok(SharedValue { value, shares })
    }
}

// This many owners of a value.
fn owners<V: Drop>(alloc: Global, value: &Arc<V>, count: usize) -> Result<Vec<Arc<V>>, NoMemory>
    ensures owners { IfOk result (λ owners. AreOwnersOf (arc_value value.now) owners.items) }
    ensures count { IfOk result (λ owners. length owners.items ≡ count) }
{
    let mut owners = Vec::with_capacity(alloc, count)?;
    for _ in 0..count {
        owners.push_reserved(Arc::try_clone(value)?);
    }
    Ok(owners)
}

// This many parcels with an owner of a value, without their place.
fn parcels<V: Drop>(
    alloc: Global,
    value: &Arc<V>,
    count: usize,
) -> Result<LinkedList<Given<V>>, NoMemory>
    ensures parcels { IfOk result (λ parcels. AreParcelsOf (arc_value value.now) parcels) }
    ensures count { IfOk result (λ parcels. length parcels ≡ count) }
{
    let mut parcels = LinkedList::new(alloc);
    for _ in 0..count {
        add_share(&mut parcels, value)?;
    }
    Ok(parcels)
}

// Adds a parcel with an owner of a value, without its place.
fn add_share<V: Drop>(parcels: &mut LinkedList<Given<V>>, value: &Arc<V>) -> Result<(), NoMemory>
    ensures { IfOk result (λ _. AddsShare (arc_value value.now) parcels.old parcels.new) }
{
    parcels.push_back(Given::Value(0, Arc::try_clone(value)?))?;
    Ok(())
}

impl<V> Shares<V> {
    // Takes an owner off, in a parcel with the place of its End. It takes no memory.
    pub(crate) fn take(&mut self, place: u64) -> Parcel<V>
        requires { 0 < count_in self.old }
        ensures left { IsOneFewer self.old self.new }
        ensures bare { is_bare result ≡ have_no_node self.old }
        ensures taken { (value : V) → AreSharesOf value self.old
            → IsParcelOf value place (parcel_in result) }
    {
        match self {
            Shares::Bare(owners) => Parcel::Bare(Given::Value(place, last_of(owners))),
            Shares::Linked(parcels) => Parcel::Linked(placed(first_of(parcels), place)),
        }
    }
}

// Takes the last owner off.
fn last_of<V>(owners: &mut Vec<Arc<V>>) -> Arc<V>
    requires { 0 < length owners.old.items }
    ensures { owners.old.items ≡ owners.new.items ++ result ∷ [] }
{
    match owners.pop() {
        Some(owner) => owner,
        None => unreachable!(),
    }
}

// Takes the first parcel off, as a list of one. It takes no memory.
fn first_of<V>(parcels: &mut LinkedList<Given<V>>) -> LinkedList<Given<V>>
    requires { 0 < length parcels.old }
    ensures taken { result ≡ take 1 parcels.old }
    ensures others { parcels.new ≡ drop 1 parcels.old }
{
    match parcels.split_off(1) {
        Ok(others) => replace(parcels, others),
        Err(_) => unreachable!(),
    }
}

// The parcel with this place.
fn placed<V>(mut parcel: LinkedList<Given<V>>, place: u64) -> LinkedList<Given<V>>
    ensures { result ≡ placed place parcel }
{
    if let Some(given) = parcel.front_mut() {
        set_place(given, place);
    }
    parcel
}

// Writes the place of an End on its parcel.
fn set_place<V>(given: &mut Given<V>, place: u64)
    ensures { given.new ≡ at_place place given.old }
{
    if let Given::Value(at, _) = given {
        *at = place;
    }
}
