// The kinds of step of a rest, each by its seat on one word, and how it takes turns in and hands them out.
ghost use Rattle.std.specs.Prelude.{◌≡◌, ◌∷◌, ◌<◌, [], length};
ghost use Rattle.std.specs.Arc.{arc_value};
ghost use Rattle.journal_rules.specs.declared.entry.DropWhy.{DropWhy};
ghost use Rattle.table_steps.specs.inside.Kinds.{IsTurn, left_by};
ghost use Rattle.table_steps.specs.inside.SeatViews.{values_held, with_notes, both_views, nothing_known, StepsKnowing};
ghost use Rattle.table_steps.specs.Values.{Knows};
ghost use Rattle.table_steps.specs.inside.RestKinds.{MayPark, parked, MayHandOut, handed_out, left_behind, live_found, MayLook, looked, MayAskForUnit, with_unit_asked, MayDropLast, last_dropped, MayThin};

use crate::parcels::Parcels;
use crate::table_seat::{NoteSeat, TableSeat};
use crate::unit_steps::Semaphore;
use crate::view::SeatView;
use crate::words::{CLOCK, FIRST_UNIT, HALT, LIVE, Words};
use atomic_table::{Join, Play, Split};
use journal_rules::DropWhy;
use std::marker::{Brand, PhantomData};

/// Why a turn of a rest is dropped.
pub trait Excuses {
    ghost why: { DropWhy };
}

impl Excuses for Brand {
    ghost use Rattle.journal_rules.specs.declared.entry.DropWhy.TheVariants.{Limit};

    ghost why = { Limit };
}

pub struct Parks;

impl<V> Join<SeatView<V>> for Parks {
    ghost both = { both_views parked };

    ghost spent = { nothing_known };
}

pub struct DealsFromRest;

impl<V> Split<SeatView<V>> for DealsFromRest {
    ghost left = { with_notes left_behind };

    ghost right = { with_notes handed_out };
}

pub struct ReadsLive;

impl<V> Play<Parcels<V>, SeatView<V>> for ReadsLive {
    ghost then = { λ _ before n after. StepsKnowing
        (λ k m. (m.0 ≡ live_found k before.0.notes) × (m.1 ≡ before.1)) before n after };
}

pub struct Looks;

impl<V> Play<Parcels<V>, SeatView<V>> for Looks {
    ghost then = { λ _ before n after. StepsKnowing
        (λ k m. (m.0 ≡ looked k before.0.notes) × (m.1 ≡ before.1)) before n after };
}

pub struct Asks<A> {
    told: PhantomData<A>,
}

impl<V, A: Semaphore> Play<Parcels<V>, SeatView<V>> for Asks<A> {
    ghost then = { λ _ before n after. StepsKnowing
        (λ k m. (m.0 ≡ with_unit_asked A.net A.sem k before.0.notes) × (m.1 ≡ before.1)) before n
        after };
}

pub struct DrawsLastDrop<A> {
    told: PhantomData<A>,
}

impl<V, A: Excuses> Play<Parcels<V>, SeatView<V>> for DrawsLastDrop<A> {
    ghost then = { λ _ before n after. StepsKnowing
        (λ k m. (m.0 ≡ last_dropped A.why k before.0.notes) × (m.1 ≡ before.1)) before n after };
}

pub struct Thins;

impl<V> Play<Parcels<V>, SeatView<V>> for Thins {
    ghost then = { λ _ before n after. StepsKnowing
        (λ k m. (m.0 ≡ left_by before.0.notes) × (m.1 ≡ before.1)) before n after };
}

impl<V> Words<V> {
    /// Gives what a turn's seat knows to a rest's, which then knows the values of both.
    pub fn park(&self, seat: &mut TableSeat<V>, other: TableSeat<V>)
        requires table { (seat.old.table_id ≡ self.now.table.shared.table_id)
            × (other.table_id ≡ self.now.table.shared.table_id) }
        requires home { other.me.1 ≡ [] }
        requires ready { MayPark seat.old.me.0 other.me.0 }
        ensures table { seat.new.table_id ≡ seat.old.table_id }
        ensures view { seat.new.me ≡ (parked seat.old.me.0 other.me.0, seat.old.me.1) }
        ensures known { Knows seat.new.values seat.old.values × Knows seat.new.values other.values }
        ensures found { seat.new.found ≡ seat.old.found }
    {
        self.table
            .shared
            .join_seat::<Parks>(&mut seat.seat, other.into_seat());
    }

    /// Deals the last turn of a rest to a new seat, which knows the same values.
    pub fn hand_out(&self, seat: &mut TableSeat<V>) -> TableSeat<V>
        requires table { seat.old.table_id ≡ self.now.table.shared.table_id }
        requires ready { MayHandOut seat.old.me.0 }
        ensures table { (seat.new.table_id ≡ seat.old.table_id)
            × (result.table_id ≡ seat.old.table_id) }
        ensures view { (seat.new.me ≡ (left_behind seat.old.me.0, seat.old.me.1))
            × (result.me ≡ (handed_out seat.old.me.0, [])) }
        ensures values { (seat.new.values ≡ seat.old.values) × (result.values ≡ seat.old.values) }
        ensures found { (seat.new.found ≡ seat.old.found) × (result.found ≡ []) }
    {
        TableSeat::first(
            self.table
                .shared
                .split_seat::<DealsFromRest>(&mut seat.seat),
        )
    }

    /// Loads the live word, which says how many turns there are.
    pub fn load_live(&self, seat: &mut TableSeat<V>) -> u64
        requires table { seat.old.table_id ≡ self.now.table.shared.table_id }
        requires ready { IsTurn seat.old.me.0 }
        ensures table { seat.new.table_id ≡ seat.old.table_id }
        ensures view { (seat.new.me.0 ≡ live_found result seat.old.me.0)
            × (seat.new.me.1 ≡ seat.old.me.1) }
        ensures known { Knows seat.new.values seat.old.values }
        ensures found { seat.new.found ≡ result ∷ seat.old.found }
    {
        let found = self.table.shared.load::<ReadsLive>(&mut seat.seat, LIVE);
        seat.add_found(found);
        found
    }

    /// Loads the halt mark for a rest that is alone. It is 0 where the journal has no Fault.
    pub fn look_for_halt(&self, seat: &mut TableSeat<V>) -> u64
        requires table { seat.old.table_id ≡ self.now.table.shared.table_id }
        requires ready { MayLook seat.old.me.0 }
        ensures table { seat.new.table_id ≡ seat.old.table_id }
        ensures view { (seat.new.me.0 ≡ looked result seat.old.me.0)
            × (seat.new.me.1 ≡ seat.old.me.1) }
        ensures known { Knows seat.new.values seat.old.values }
        ensures found { seat.new.found ≡ result ∷ seat.old.found }
    {
        let found = self.table.shared.load::<Looks>(&mut seat.seat, HALT);
        seat.add_found(found);
        found
    }

    fn ask_told<A: Semaphore>(&self, seat: &mut NoteSeat<V>, sem: u32) -> u64
        requires table { seat.old.table_id ≡ self.now.table.shared.table_id }
        requires ready { MayAskForUnit (arc_value self.now.net) sem seat.old.me.0.notes }
        requires held { Knows seat.old.me.0.values (values_held seat.old.me.1) }
        requires in_range { sem < length (arc_value self.now.net).sems }
        requires told { (A.net ≡ arc_value self.now.net) × (A.sem ≡ sem) }
        ensures table { seat.new.table_id ≡ seat.old.table_id }
        ensures view { (seat.new.me.0.notes
            ≡ with_unit_asked A.net A.sem result seat.old.me.0.notes)
            × (seat.new.me.1 ≡ seat.old.me.1) }
        ensures known { Knows seat.new.me.0.values seat.old.me.0.values }
        ensures held { Knows seat.new.me.0.values (values_held seat.new.me.1) }
    {
        self.table
            .shared
            .load::<Asks<A>>(seat, FIRST_UNIT + sem as usize)
    }

    /// Loads the unit word of a semaphore for a rest that is alone: how many units are taken and not back.
    pub fn load_units(&self, seat: &mut TableSeat<V>, sem: u32) -> u64
        requires table { seat.old.table_id ≡ self.now.table.shared.table_id }
        requires ready { MayAskForUnit (arc_value self.now.net) sem seat.old.me.0 }
        requires in_range { sem < length (arc_value self.now.net).sems }
        ensures table { seat.new.table_id ≡ seat.old.table_id }
        ensures view { (seat.new.me.0
            ≡ with_unit_asked (arc_value self.now.net) sem result seat.old.me.0)
            × (seat.new.me.1 ≡ seat.old.me.1) }
        ensures known { Knows seat.new.values seat.old.values }
        ensures found { seat.new.found ≡ result ∷ seat.old.found }
    {
        let found = self.ask_told::<Brand>(&mut seat.seat, sem);
        seat.add_found(found);
        found
    }

    fn drop_last_told<A: Excuses>(&self, seat: &mut NoteSeat<V>, _why: DropWhy) -> u64
        requires table { seat.old.table_id ≡ self.now.table.shared.table_id }
        requires ready { MayDropLast (arc_value self.now.net) A.why seat.old.me.0.notes }
        requires held { Knows seat.old.me.0.values (values_held seat.old.me.1) }
        ensures table { seat.new.table_id ≡ seat.old.table_id }
        ensures view { (seat.new.me.0.notes ≡ last_dropped A.why result seat.old.me.0.notes)
            × (seat.new.me.1 ≡ seat.old.me.1) }
        ensures known { Knows seat.new.me.0.values seat.old.me.0.values }
        ensures held { Knows seat.new.me.0.values (values_held seat.new.me.1) }
    {
        self.table
            .shared
            .fetch_add::<DrawsLastDrop<A>>(seat, CLOCK, 1)
    }

    /// Draws the place of a Drop of a rest's last turn.
    pub fn draw_last_drop(&self, seat: &mut TableSeat<V>, why: DropWhy) -> u64
        requires table { seat.old.table_id ≡ self.now.table.shared.table_id }
        requires ready { MayDropLast (arc_value self.now.net) why seat.old.me.0 }
        ensures table { seat.new.table_id ≡ seat.old.table_id }
        ensures view { (seat.new.me.0 ≡ last_dropped why result seat.old.me.0)
            × (seat.new.me.1 ≡ seat.old.me.1) }
        ensures known { Knows seat.new.values seat.old.values }
        ensures found { seat.new.found ≡ seat.old.found }
    {
        self.drop_last_told::<Brand>(&mut seat.seat, why)
    }

    /// Takes a turn of a rest off, where the rest has others.
    pub fn thin(&self, seat: &mut TableSeat<V>)
        requires table { seat.old.table_id ≡ self.now.table.shared.table_id }
        requires ready { MayThin seat.old.me.0 }
        ensures table { seat.new.table_id ≡ seat.old.table_id }
        ensures view { (seat.new.me.0 ≡ left_by seat.old.me.0) × (seat.new.me.1 ≡ seat.old.me.1) }
        ensures known { Knows seat.new.values seat.old.values }
        ensures found { seat.new.found ≡ seat.old.found }
    {
        self.table
            .shared
            .fetch_sub::<Thins>(&mut seat.seat, LIVE, 1);
    }
}
