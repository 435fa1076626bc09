// The kinds of step of halts and drops, each by one seat on one word.
ghost use Rattle.std.specs.Prelude.{◌≡◌, ◌∷◌};
ghost use Rattle.std.specs.Arc.{arc_value};
ghost use Rattle.journal_rules.specs.declared.entry.Why.{Why};
ghost use Rattle.table_steps.specs.inside.SeatViews.{values_held, StepsKnowing};
ghost use Rattle.table_steps.specs.Values.{Knows};
ghost use Rattle.table_steps.specs.inside.Halts.{MayAsk, halt_read, MayFault, with_fault_drawn, MayMark, marked, MayDrop, dropped};

use crate::parcels::Parcels;
use crate::table_seat::{NoteSeat, TableSeat};
use crate::view::SeatView;
use crate::words::{CLOCK, HALT, Words};
use atomic_table::Play;
use journal_rules::Why;
use std::marker::{Brand, PhantomData};

/// Why a start faults.
pub trait Blames {
    ghost why: { Why };
}

impl Blames for Brand {
    ghost use Rattle.journal_rules.specs.declared.entry.Why.TheVariants.{Inner};

    ghost why = { Inner };
}

pub struct ReadsHalt;

impl<V> Play<Parcels<V>, SeatView<V>> for ReadsHalt {
    ghost then = { λ _ before n after. StepsKnowing
        (λ k m. (m.0 ≡ halt_read k before.0.notes) × (m.1 ≡ before.1)) before n after };
}

pub struct DrawsFault<A> {
    told: PhantomData<A>,
}

impl<V, A: Blames> Play<Parcels<V>, SeatView<V>> for DrawsFault<A> {
    ghost then = { λ _ before n after. StepsKnowing
        (λ k m. (m.0 ≡ with_fault_drawn A.why k before.0.notes) × (m.1 ≡ before.1)) before n
        after };
}

pub struct SetsHalt;

impl<V> Play<Parcels<V>, SeatView<V>> for SetsHalt {
    ghost then = { λ _ before n after. StepsKnowing
        (λ k m. (m.0 ≡ marked before.0.notes) × (m.1 ≡ before.1)) before n after };
}

pub struct DrawsDrop;

impl<V> Play<Parcels<V>, SeatView<V>> for DrawsDrop {
    ghost then = { λ _ before n after. StepsKnowing
        (λ k m. (m.0 ≡ dropped k before.0.notes) × (m.1 ≡ before.1)) before n after };
}

impl<V> Words<V> {
    /// Loads the halt mark, which is 0 where no turn has set it.
    pub fn load_halt(&self, seat: &mut TableSeat<V>) -> u64
        requires table { seat.old.table_id ≡ self.now.table.shared.table_id }
        requires ready { MayAsk seat.old.me.0 }
        ensures table { seat.new.table_id ≡ seat.old.table_id }
        ensures view { (seat.new.me.0 ≡ halt_read result seat.old.me.0)
            × (seat.new.me.1 ≡ seat.old.me.1) }
        ensures known { Knows seat.new.values seat.old.values }
        ensures found { seat.new.found ≡ result ∷ seat.old.found }
    {
        let found = self.table.shared.load::<ReadsHalt>(&mut seat.seat, HALT);
        seat.add_found(found);
        found
    }

    fn fault_told<A: Blames>(&self, seat: &mut NoteSeat<V>, _why: Why) -> u64
        requires table { seat.old.table_id ≡ self.now.table.shared.table_id }
        requires ready { MayFault (arc_value self.now.net) A.why seat.old.me.0.notes }
        requires held { Knows seat.old.me.0.values (values_held seat.old.me.1) }
        ensures table { seat.new.table_id ≡ seat.old.table_id }
        ensures view { (seat.new.me.0.notes ≡ with_fault_drawn A.why result seat.old.me.0.notes)
            × (seat.new.me.1 ≡ seat.old.me.1) }
        ensures known { Knows seat.new.me.0.values seat.old.me.0.values }
        ensures held { Knows seat.new.me.0.values (values_held seat.new.me.1) }
    {
        self.table.shared.fetch_add::<DrawsFault<A>>(seat, CLOCK, 1)
    }

    /// Draws the place of a Fault.
    pub fn draw_fault(&self, seat: &mut TableSeat<V>, why: Why) -> u64
        requires table { seat.old.table_id ≡ self.now.table.shared.table_id }
        requires ready { MayFault (arc_value self.now.net) why seat.old.me.0 }
        ensures table { seat.new.table_id ≡ seat.old.table_id }
        ensures view { (seat.new.me.0 ≡ with_fault_drawn why result seat.old.me.0)
            × (seat.new.me.1 ≡ seat.old.me.1) }
        ensures known { Knows seat.new.values seat.old.values }
        ensures found { seat.new.found ≡ seat.old.found }
    {
        self.fault_told::<Brand>(&mut seat.seat, why)
    }

    /// Sets the halt mark.
    pub fn set_halt(&self, seat: &mut TableSeat<V>)
        requires table { seat.old.table_id ≡ self.now.table.shared.table_id }
        requires ready { MayMark seat.old.me.0 }
        ensures table { seat.new.table_id ≡ seat.old.table_id }
        ensures view { (seat.new.me.0 ≡ marked seat.old.me.0) × (seat.new.me.1 ≡ seat.old.me.1) }
        ensures known { Knows seat.new.values seat.old.values }
        ensures found { seat.new.found ≡ seat.old.found }
    {
        self.table.shared.swap::<SetsHalt>(&mut seat.seat, HALT, 1);
    }

    /// Draws the place of a Drop.
    pub fn draw_drop(&self, seat: &mut TableSeat<V>) -> u64
        requires table { seat.old.table_id ≡ self.now.table.shared.table_id }
        requires ready { MayDrop seat.old.me.0 }
        ensures table { seat.new.table_id ≡ seat.old.table_id }
        ensures view { (seat.new.me.0 ≡ dropped result seat.old.me.0)
            × (seat.new.me.1 ≡ seat.old.me.1) }
        ensures known { Knows seat.new.values seat.old.values }
        ensures found { seat.new.found ≡ seat.old.found }
    {
        self.table
            .shared
            .fetch_add::<DrawsDrop>(&mut seat.seat, CLOCK, 1)
    }
}
