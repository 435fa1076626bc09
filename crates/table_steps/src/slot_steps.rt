// The kinds of step on the slots of edges, each by one seat on one word, and the exchange between them.
ghost use Rattle.std.specs.Prelude.{◌≡◌, ◌+◌, ◌<◌, ◌∷◌, ◌↔◌, ℕ, Bool, true, false, [], length, map};
ghost use Rattle.std.specs.Arc.{arc_value};
ghost use Rattle.atomic_table.specs.Table.{rest};
ghost use Rattle.table_steps.specs.inside.Accounts.{marks_from};
ghost use Rattle.table_steps.specs.inside.SeatViews.{me_of, values_held, StepsKnowing};
ghost use Rattle.task_graph.specs.NetRows.{NetRows};
ghost use Rattle.table_steps.specs.ParcelForms.{parcel_in, is_bare, MayBeBare};
ghost use Rattle.table_steps.specs.Values.{given_part, given_parts, given_values, values_in, Knows};
ghost use Rattle.table_steps.specs.declared.view.Lot.TheVariants.{Ours, Putting, Put, Awaited, Taking, Fetched};
ghost use Rattle.table_steps.specs.inside.Slots.{lot, slot_weigh, relot};
ghost use Rattle.table_steps.specs.inside.SlotKinds.{MayTryPut, MayTryTake, MayTry, TriedSlot, lot_part, HoldsSlot, MayPutBack, put_laid, MayTakeBack, take_laid};

use crate::parcels::{Parcel, Parcels};
use crate::table_seat::{NoteSeat, TableSeat};
use crate::view::SeatView;
use crate::words::Words;
use atomic_table::Play;
use join_words::Given;
use std::hint::spin_loop;
use std::marker::{Brand, PhantomData};

// How often a seat tries again for a slot that another seat holds, which does so for a few instructions: for longer
// than a thread that was put aside has to wait for a processor.
const TRIES: u32 = 1_000_000;

/// A try for the slot of an edge of a net: to put a parcel there, or to take one; and whether it is the last.
pub trait SlotTry {
    ghost net: { NetRows };

    ghost edge: { ℕ };

    ghost puts: { Bool };

    ghost last: { Bool };
}

impl SlotTry for Brand {
    ghost use Rattle.std.specs.Prelude.{false, []};

    ghost net = { record { tasks = []; edges = []; sems = [] } };

    ghost edge = { 0 };

    ghost puts = { false };

    ghost last = { false };
}

pub struct TriesSlot<A> {
    told: PhantomData<A>,
}

impl<V, A: SlotTry> Play<Parcels<V>, SeatView<V>> for TriesSlot<A> {
    ghost then = { λ _ before n after. StepsKnowing
        (λ k m. TriedSlot A.net given_parts A.last A.puts A.edge k (me_of before) m) before n after };
}

/// Of which edge a slot is.
pub trait Edged {
    ghost edge: { ℕ };
}

impl Edged for Brand {
    ghost edge = { 0 };
}

pub struct PutsDown<A> {
    told: PhantomData<A>,
}

impl<V, A: Edged> Play<Parcels<V>, SeatView<V>> for PutsDown<A> {
    ghost then = { λ _ before n after. StepsKnowing
        (λ k m. (m.0 ≡ put_laid A.edge before.0.notes) × (m.1 ≡ rest before.1)) before n after };
}

pub struct LeavesLess<A> {
    told: PhantomData<A>,
}

impl<V, A: Edged> Play<Parcels<V>, SeatView<V>> for LeavesLess<A> {
    ghost then = { λ _ before n after. StepsKnowing
        (λ k m. (m.0 ≡ take_laid A.edge before.0.notes) × (m.1 ≡ rest before.1)) before n after };
}

impl<V> Words<V> {
    // The word of a slot's mark.
    fn mark_word(&self, edge: u32) -> usize
        requires { edge < length (arc_value self.now.net).edges }
        ensures word { result ≡ marks_from (arc_value self.now.net) + edge }
        ensures in_range { result < self.now.table.shared.table_id.words }
    {
        self.first_mark() + edge as usize
    }

    fn try_told<A: SlotTry>(
        &self,
        seat: &mut NoteSeat<V>,
        edge: u32,
        word: usize,
        _puts: bool,
        _last: bool,
    ) -> u64
        requires table { seat.old.table_id ≡ self.now.table.shared.table_id }
        requires ready { MayTry A.puts edge seat.old.me.0.notes }
        requires held { Knows seat.old.me.0.values (values_held seat.old.me.1) }
        requires in_range { edge < length (arc_value self.now.net).edges }
        requires word { word ≡ marks_from (arc_value self.now.net) + edge }
        requires told { (A.edge ≡ edge) × (A.net ≡ arc_value self.now.net) }
        ensures table { seat.new.table_id ≡ seat.old.table_id }
        ensures view { TriedSlot A.net given_parts A.last A.puts A.edge result (me_of seat.old.me)
            (me_of seat.new.me) }
        ensures known { Knows seat.new.me.0.values seat.old.me.0.values }
        ensures held { Knows seat.new.me.0.values (values_held seat.new.me.1) }
    {
        self.table.shared.swap::<TriesSlot<A>>(seat, word, 1)
    }

    // Tries once to take the slot of an edge, to put a parcel there or to take one, and says what its mark was: where
    // that was 0, the seat holds the slot. Else nothing has changed, but after the last try: then the seat gives up.
    fn try_slot(&self, seat: &mut TableSeat<V>, edge: u32, puts: bool, last: bool) -> u64
        requires table { seat.old.table_id ≡ self.now.table.shared.table_id }
        requires ready { MayTry puts edge seat.old.me.0 }
        requires in_range { edge < length (arc_value self.now.net).edges }
        ensures table { seat.new.table_id ≡ seat.old.table_id }
        ensures view { TriedSlot (arc_value self.now.net) given_parts last puts edge result seat.old.me
            seat.new.me }
        ensures known { Knows seat.new.values seat.old.values }
        ensures found { seat.new.found ≡ seat.old.found }
    {
        self.try_told::<Brand>(&mut seat.seat, edge, self.mark_word(edge), puts, last)
    }

    // Takes the slot of an edge, to put a parcel there or to take one, and says what its mark was at the last try:
    // where that was 0, the seat holds the slot. Else another seat held it at each of many tries, and the seat gives
    // up.
    fn hold_slot(&self, seat: &mut TableSeat<V>, edge: u32, puts: bool) -> u64
        requires table { seat.old.table_id ≡ self.now.table.shared.table_id }
        requires ready { MayTry puts edge seat.old.me.0 }
        requires in_range { edge < length (arc_value self.now.net).edges }
        ensures table { seat.new.table_id ≡ seat.old.table_id }
        ensures view { TriedSlot (arc_value self.now.net) given_parts true puts edge result seat.old.me
            seat.new.me }
        ensures known { Knows seat.new.values seat.old.values }
        ensures found { seat.new.found ≡ seat.old.found }
    {
        for _ in 0..TRIES {
            if self.try_slot(seat, edge, puts, false) == 0 {
                return 0;
            }
            spin_loop();
        }
        self.try_slot(seat, edge, puts, true)
    }

    // Exchanges what lies in the slot that the seat holds.
    fn exchange(&self, seat: &mut TableSeat<V>, edge: u32, parcels: Parcels<V>) -> Parcels<V>
        requires table { seat.old.table_id ≡ self.now.table.shared.table_id }
        requires holds { HoldsSlot edge seat.old.me.1 }
        requires knows { Knows seat.old.values (values_in parcels) }
        ensures table { seat.new.table_id ≡ seat.old.table_id }
        ensures lay { seat.old.me.1 ≡ (edge, result) ∷ rest seat.old.me.1 }
        ensures view { seat.new.me ≡ (seat.old.me.0, (edge, parcels) ∷ rest seat.old.me.1) }
        ensures values { seat.new.values ≡ seat.old.values }
        ensures knows_lay { Knows seat.old.values (values_in result) }
        ensures found { seat.new.found ≡ seat.old.found }
    {
        self.table
            .shared
            .exchange(&mut seat.seat, edge as usize, parcels)
    }

    fn put_back_told<A: Edged>(&self, seat: &mut NoteSeat<V>, edge: u32, word: usize)
        requires table { seat.old.table_id ≡ self.now.table.shared.table_id }
        requires ready { MayPutBack given_parts edge (me_of seat.old.me) }
        requires held { Knows seat.old.me.0.values (values_held seat.old.me.1) }
        requires in_range { edge < length (arc_value self.now.net).edges }
        requires word { word ≡ marks_from (arc_value self.now.net) + edge }
        requires told { A.edge ≡ edge }
        ensures table { seat.new.table_id ≡ seat.old.table_id }
        ensures view { (seat.new.me.0.notes ≡ put_laid A.edge seat.old.me.0.notes)
            × (seat.new.me.1 ≡ rest seat.old.me.1) }
        ensures known { Knows seat.new.me.0.values seat.old.me.0.values }
        ensures held { Knows seat.new.me.0.values (values_held seat.new.me.1) }
    {
        self.table.shared.swap::<PutsDown<A>>(seat, word, 0);
    }

    // Gives a slot back in which the seat has put its parcel behind the others.
    fn put_slot_back(&self, seat: &mut TableSeat<V>, edge: u32)
        requires table { seat.old.table_id ≡ self.now.table.shared.table_id }
        requires ready { MayPutBack given_parts edge seat.old.me }
        requires in_range { edge < length (arc_value self.now.net).edges }
        ensures table { seat.new.table_id ≡ seat.old.table_id }
        ensures view { (seat.new.me.0 ≡ put_laid edge seat.old.me.0)
            × (seat.new.me.1 ≡ rest seat.old.me.1) }
        ensures known { Knows seat.new.values seat.old.values }
        ensures found { seat.new.found ≡ seat.old.found }
    {
        self.put_back_told::<Brand>(&mut seat.seat, edge, self.mark_word(edge))
    }

    fn take_back_told<A: Edged>(&self, seat: &mut NoteSeat<V>, edge: u32, word: usize)
        requires table { seat.old.table_id ≡ self.now.table.shared.table_id }
        requires ready { MayTakeBack given_parts edge (me_of seat.old.me) }
        requires held { Knows seat.old.me.0.values (values_held seat.old.me.1) }
        requires in_range { edge < length (arc_value self.now.net).edges }
        requires word { word ≡ marks_from (arc_value self.now.net) + edge }
        requires told { A.edge ≡ edge }
        ensures table { seat.new.table_id ≡ seat.old.table_id }
        ensures view { (seat.new.me.0.notes ≡ take_laid A.edge seat.old.me.0.notes)
            × (seat.new.me.1 ≡ rest seat.old.me.1) }
        ensures known { Knows seat.new.me.0.values seat.old.me.0.values }
        ensures held { Knows seat.new.me.0.values (values_held seat.new.me.1) }
    {
        self.table.shared.swap::<LeavesLess<A>>(seat, word, 0);
    }

    // Gives a slot back from which the seat has taken the oldest parcel, if there was one.
    fn take_slot_back(&self, seat: &mut TableSeat<V>, edge: u32)
        requires table { seat.old.table_id ≡ self.now.table.shared.table_id }
        requires ready { MayTakeBack given_parts edge seat.old.me }
        requires in_range { edge < length (arc_value self.now.net).edges }
        ensures table { seat.new.table_id ≡ seat.old.table_id }
        ensures view { (seat.new.me.0 ≡ take_laid edge seat.old.me.0)
            × (seat.new.me.1 ≡ rest seat.old.me.1) }
        ensures known { Knows seat.new.values seat.old.values }
        ensures found { seat.new.found ≡ seat.old.found }
    {
        self.take_back_told::<Brand>(&mut seat.seat, edge, self.mark_word(edge))
    }
}

impl<V: Drop> Words<V> {
    // Lays parcels into the slot that the seat holds, where nothing lies.
    fn lay_back(&self, seat: &mut TableSeat<V>, edge: u32, parcels: Parcels<V>)
        requires table { seat.old.table_id ≡ self.now.table.shared.table_id }
        requires empty { seat.old.me.1 ≡ (edge, []) ∷ rest seat.old.me.1 }
        requires knows { Knows seat.old.values (values_in parcels) }
        ensures table { seat.new.table_id ≡ seat.old.table_id }
        ensures view { seat.new.me ≡ (seat.old.me.0, (edge, parcels) ∷ rest seat.old.me.1) }
        ensures values { seat.new.values ≡ seat.old.values }
        ensures found { seat.new.found ≡ seat.old.found }
    {
        if !parcels.is_empty() {
            self.exchange(seat, edge, parcels);
        }
    }

    /// Takes the oldest parcel out of the slot of an edge. The seat learns the value that the parcel has. It finds
    /// `Nothing` where the slot is empty, and where other seats hold it at each of a million tries.
    pub fn fetch(&self, seat: &mut TableSeat<V>, edge: u32) -> Given<V>
        requires table { seat.old.table_id ≡ self.now.table.shared.table_id }
        requires home { seat.old.me.1 ≡ [] }
        requires ready { MayTryTake edge seat.old.me.0 }
        requires free { slot_weigh (lot Taking edge) seat.old.me.0 ≡ 0 }
        requires in_range { edge < length (arc_value self.now.net).edges }
        ensures table { seat.new.table_id ≡ seat.old.table_id }
        ensures view { seat.new.me
            ≡ (relot Awaited Fetched (λ p. given_part result) edge seat.old.me.0, []) }
        ensures known { Knows seat.new.values seat.old.values }
        ensures learnt { Knows seat.new.values (given_values result) }
        ensures found { seat.new.found ≡ seat.old.found }
    {
        if self.hold_slot(seat, edge, false) != 0 {
            return Given::Nothing;
        }
        let mut parcels = self.exchange(seat, edge, Parcels::new(self.alloc));
        let oldest = parcels.take_oldest();
        self.lay_back(seat, edge, parcels);
        self.take_slot_back(seat, edge);
        oldest
    }

    /// Puts a parcel behind the others in the slot of an edge. Where other seats hold the slot at each of a million
    /// tries, the parcel is dropped. The seat has to know that the value which the parcel has is that of its End. It
    /// takes no memory.
    pub fn deliver(&self, seat: &mut TableSeat<V>, edge: u32, parcel: Parcel<V>)
        requires table { seat.old.table_id ≡ self.now.table.shared.table_id }
        requires home { seat.old.me.1 ≡ [] }
        requires ready { MayTryPut edge seat.old.me.0 }
        requires free { slot_weigh (lot Putting edge) seat.old.me.0 ≡ 0 }
        requires in_range { edge < length (arc_value self.now.net).edges }
        requires parcel { given_parts (parcel_in parcel) ≡ lot_part Ours edge seat.old.me.0 ∷ [] }
        requires room { MayBeBare (arc_value self.now.net) (is_bare parcel) }
        requires knows { Knows seat.old.values (values_in (parcel_in parcel)) }
        ensures table { seat.new.table_id ≡ seat.old.table_id }
        ensures view { seat.new.me ≡ (relot Ours Put (λ p. p) edge seat.old.me.0, []) }
        ensures known { Knows seat.new.values seat.old.values }
        ensures found { seat.new.found ≡ seat.old.found }
    {
        if self.hold_slot(seat, edge, true) != 0 {
            return;
        }
        let mut parcels = self.exchange(seat, edge, Parcels::new(self.alloc));
        parcels.put(parcel);
        self.exchange(seat, edge, parcels);
        self.put_slot_back(seat, edge);
    }
}
