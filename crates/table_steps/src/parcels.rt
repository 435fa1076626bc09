// The parcels in the slot of an edge, and a parcel on its way there.
ghost use Rattle.std.specs.Prelude.{◌≡◌, ◌≢◌, ◌+◌, ◌<◌, ◌++◌, ◌∷◌, ◌↔◌, IsTrue, [], length};
ghost use Rattle.table_steps.specs.ParcelForms.{parcel_in, MayLieBehind};
ghost use Rattle.table_steps.specs.inside.SlotKinds.{IsOldest};

use join_words::Given;
use std::alloc::Global;
use std::collections::LinkedList;
use std::marker::Model;

/// A parcel on its way into the slot of an edge.
#[derive(Drop)]
pub enum Parcel<V> {
    /// One that lies in an empty slot alone.
    Bare(Given<V>),
    /// One with a node of its own, by which it can lie behind others: a list of one.
    Linked(LinkedList<Given<V>>),
}

/// The parcels in the slot of an edge, the oldest first.
#[derive(Drop)]
pub struct Parcels<V> {
    // The oldest, where it came bare.
    first: Option<Given<V>>,
    others: LinkedList<Given<V>>,
}

impl<V> Model for Parcels<V> {
    ghost use Rattle.std.specs.Prelude.{List};
    ghost use Rattle.join_words.specs.declared.ins.Given.{Given};
    ghost use Rattle.table_steps.specs.inside.SlotKinds.{queue_of};

    ghost Value = { List (Given V) };

    ghost view = { λ p. queue_of p.first p.others };
}

impl<V: Drop> Parcels<V> {
    /// No parcel. It takes no memory.
    pub fn new(alloc: Global) -> Parcels<V>
        ensures { result ≡ [] }
    {
        Parcels {
            first: None,
            others: LinkedList::new(alloc),
        }
    }

    /// One parcel. It takes no memory.
    pub fn one(alloc: Global, parcel: Given<V>) -> Parcels<V>
        ensures { result ≡ parcel ∷ [] }
    {
        Parcels {
            first: Some(parcel),
            others: LinkedList::new(alloc),
        }
    }

    /// Whether there is no parcel.
    pub fn is_empty(&self) -> bool
        ensures { IsTrue result ↔ (self.now ≡ []) }
    {
        self.first.is_none() && self.others.is_empty()
    }

    /// Puts a parcel behind the others. It takes no memory.
    pub fn put(&mut self, parcel: Parcel<V>)
        requires fits { MayLieBehind self.old parcel }
        requires few { length self.old + length (parcel_in parcel) < 9223372036854775808 }
        ensures { self.new ≡ self.old ++ parcel_in parcel }
    {
        match parcel {
            Parcel::Bare(given) => self.first = Some(given),
            Parcel::Linked(node) => self.append(node),
        }
    }

    // Appends a list.
    fn append(&mut self, mut list: LinkedList<Given<V>>)
        requires few { length self.old + length list < 9223372036854775808 }
        ensures { self.new ≡ self.old ++ list }
    {
        if self.others.append(&mut list).is_err() {
            unreachable!()
        }
    }

    /// Takes the oldest parcel, or `Nothing` where there is none.
    pub fn take_oldest(&mut self) -> Given<V>
        ensures { IsOldest self.old result self.new }
    {
        if let Some(parcel) = self.first.take() {
            return parcel;
        }
        match self.others.pop_front() {
            Some(parcel) => parcel,
            None => Given::Nothing,
        }
    }
}
