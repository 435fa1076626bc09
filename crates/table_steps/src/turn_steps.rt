// The kinds of step on the clock and on the words of turns and starts, each by one seat on one word, and how a turn is
// dealt to a new seat and taken into the keeper's.
ghost use Rattle.std.specs.Prelude.{◌≡◌, ◌∷◌, []};
ghost use Rattle.std.specs.Arc.{arc_value};
ghost use Rattle.task_graph.specs.Net.{IsNet};
ghost use Rattle.table_steps.specs.inside.SeatViews.{drawn_values, values_held, with_notes, both_views, nothing_known, StepsKnowing};
ghost use Rattle.table_steps.specs.Values.{ended_with, Knows, HaveOneValueEach};
ghost use Rattle.table_steps.specs.OneJournal.{entries_in, AreInOneJournal};
ghost use Rattle.table_steps.specs.inside.Kinds.{MayAdd, with_turn_added, MayDeal, dealt, kept_back, MayAdmit, admitted, MayDrawStart, with_start_drawn, MayEnd, with_end_drawn, MayLeave, left_by, IsWhole, views_joined};

use crate::parcels::Parcels;
use crate::table_seat::{NoteSeat, TableSeat};
use crate::view::SeatView;
use crate::words::{CLOCK, EndFacts, LIVE, STARTS, StepFacts, Words};
use atomic_table::{Join, Play, Split};
use outside_io::List;
use std::marker::{Brand, PhantomData};
use std::sync::Arc;

pub struct AddsTurn;

impl<V> Play<Parcels<V>, SeatView<V>> for AddsTurn {
    ghost then = { λ _ before n after. StepsKnowing
        (λ k m. (m.0 ≡ with_turn_added before.0.notes) × (m.1 ≡ before.1)) before n after };
}

pub struct Deals;

impl<V> Split<SeatView<V>> for Deals {
    ghost left = { with_notes kept_back };

    ghost right = { with_notes dealt };
}

pub struct DrawsAdmission<A> {
    told: PhantomData<A>,
}

impl<V, A: StepFacts> Play<Parcels<V>, SeatView<V>> for DrawsAdmission<A> {
    ghost then = { λ _ before n after. StepsKnowing
        (λ k m. (m.0 ≡ admitted A.limit k before.0.notes) × (m.1 ≡ before.1)) before n after };
}

pub struct DrawsStart<A> {
    told: PhantomData<A>,
}

impl<V, A: StepFacts> Play<Parcels<V>, SeatView<V>> for DrawsStart<A> {
    ghost then = { λ _ before n after. StepsKnowing
        (λ k m. (m.0 ≡ with_start_drawn A.net k before.0.notes) × (m.1 ≡ before.1) × IsNet A.net)
        before n after };
}

pub struct DrawsEnd<A> {
    told: PhantomData<A>,
}

impl<V, A: EndFacts<V>> Play<Parcels<V>, SeatView<V>> for DrawsEnd<A> {
    ghost then = { λ _ before n after. StepsKnowing
        (λ k m. (m.0 ≡ with_end_drawn A.gives A.inner k before.0.notes) × (m.1 ≡ before.1)) before n
        after × Knows after.0.values (drawn_values n A.values) };
}

pub struct TakesSeatIn;

impl<V> Join<SeatView<V>> for TakesSeatIn {
    ghost both = { both_views views_joined };

    ghost spent = { nothing_known };
}

pub struct Leaves<A> {
    told: PhantomData<A>,
}

impl<V, A: StepFacts> Play<Parcels<V>, SeatView<V>> for Leaves<A> {
    ghost then = { λ _ before n after. StepsKnowing
        (λ k m. (m.0 ≡ left_by before.0.notes) × (m.1 ≡ before.1)
        × (k ≡ 1 → IsWhole A.net A.limit m.0) × AreInOneJournal A.net A.limit (entries_in m.0))
        before n after };
}

impl<V> Words<V> {
    /// Counts the turn of a release that the seat has just made.
    pub fn add_turn(&self, seat: &mut TableSeat<V>)
        requires table { seat.old.table_id ≡ self.now.table.shared.table_id }
        requires ready { MayAdd seat.old.me.0 }
        ensures table { seat.new.table_id ≡ seat.old.table_id }
        ensures view { (seat.new.me.0 ≡ with_turn_added seat.old.me.0)
            × (seat.new.me.1 ≡ seat.old.me.1) }
        ensures known { Knows seat.new.values seat.old.values }
        ensures found { seat.new.found ≡ seat.old.found }
    {
        self.table
            .shared
            .fetch_add::<AddsTurn>(&mut seat.seat, LIVE, 1);
    }

    /// Deals a release with its turn to a new seat, which knows the same values.
    pub fn deal(&self, seat: &mut TableSeat<V>) -> TableSeat<V>
        requires table { seat.old.table_id ≡ self.now.table.shared.table_id }
        requires ready { MayDeal seat.old.id seat.old.me.0 }
        ensures table { (seat.new.table_id ≡ seat.old.table_id) × (seat.new.id ≡ seat.old.id)
            × (result.table_id ≡ seat.old.table_id) }
        ensures view { (seat.new.me ≡ (kept_back seat.old.me.0, seat.old.me.1))
            × (result.me ≡ (dealt seat.old.me.0, [])) }
        ensures values { (seat.new.values ≡ seat.old.values) × (result.values ≡ seat.old.values) }
        ensures found { (seat.new.found ≡ seat.old.found) × (result.found ≡ []) }
    {
        TableSeat::first(self.table.shared.split_seat::<Deals>(&mut seat.seat))
    }

    fn admit_told<A: StepFacts>(&self, seat: &mut NoteSeat<V>) -> u64
        requires table { seat.old.table_id ≡ self.now.table.shared.table_id }
        requires ready { MayAdmit seat.old.me.0.notes }
        requires held { Knows seat.old.me.0.values (values_held seat.old.me.1) }
        requires told { A.limit ≡ self.now.table.shared.key.limit }
        ensures table { seat.new.table_id ≡ seat.old.table_id }
        ensures view { (seat.new.me.0.notes ≡ admitted A.limit result seat.old.me.0.notes)
            × (seat.new.me.1 ≡ seat.old.me.1) }
        ensures known { Knows seat.new.me.0.values seat.old.me.0.values }
        ensures held { Knows seat.new.me.0.values (values_held seat.new.me.1) }
    {
        self.table
            .shared
            .fetch_add::<DrawsAdmission<A>>(seat, STARTS, 1)
    }

    /// Draws an admission, and says how many were drawn before.
    pub fn draw_admission(&self, seat: &mut TableSeat<V>) -> u64
        requires table { seat.old.table_id ≡ self.now.table.shared.table_id }
        requires ready { MayAdmit seat.old.me.0 }
        ensures table { seat.new.table_id ≡ seat.old.table_id }
        ensures view { (seat.new.me.0
            ≡ admitted self.now.table.shared.key.limit result seat.old.me.0)
            × (seat.new.me.1 ≡ seat.old.me.1) }
        ensures known { Knows seat.new.values seat.old.values }
        ensures found { seat.new.found ≡ result ∷ seat.old.found }
    {
        let found = self.admit_told::<Brand>(&mut seat.seat);
        seat.add_found(found);
        found
    }

    fn start_told<A: StepFacts>(&self, seat: &mut NoteSeat<V>) -> u64
        requires table { seat.old.table_id ≡ self.now.table.shared.table_id }
        requires ready { MayDrawStart (arc_value self.now.net) seat.old.me.0.notes }
        requires held { Knows seat.old.me.0.values (values_held seat.old.me.1) }
        requires told { A.net ≡ arc_value self.now.net }
        ensures table { seat.new.table_id ≡ seat.old.table_id }
        ensures view { (seat.new.me.0.notes ≡ with_start_drawn A.net result seat.old.me.0.notes)
            × (seat.new.me.1 ≡ seat.old.me.1) }
        ensures known { Knows seat.new.me.0.values seat.old.me.0.values }
        ensures held { Knows seat.new.me.0.values (values_held seat.new.me.1) }
        ensures net { IsNet A.net }
    {
        self.table.shared.fetch_add::<DrawsStart<A>>(seat, CLOCK, 1)
    }

    /// Draws the place of a Start.
    pub fn draw_start(&self, seat: &mut TableSeat<V>) -> u64
        requires table { seat.old.table_id ≡ self.now.table.shared.table_id }
        requires ready { MayDrawStart (arc_value self.now.net) seat.old.me.0 }
        ensures table { seat.new.table_id ≡ seat.old.table_id }
        ensures view { (seat.new.me.0
            ≡ with_start_drawn (arc_value self.now.net) result seat.old.me.0)
            × (seat.new.me.1 ≡ seat.old.me.1) }
        ensures known { Knows seat.new.values seat.old.values }
        ensures net { IsNet (arc_value self.now.net) }
        ensures found { seat.new.found ≡ seat.old.found }
    {
        self.start_told::<Brand>(&mut seat.seat)
    }

    fn end_told<A: EndFacts<V>>(
        &self,
        seat: &mut NoteSeat<V>,
        _gives: &List<u32>,
        _inner: bool,
        _value: &Arc<V>,
    ) -> u64
        requires table { seat.old.table_id ≡ self.now.table.shared.table_id }
        requires ready { MayEnd (arc_value self.now.net) A.gives A.inner seat.old.me.0.notes }
        requires held { Knows seat.old.me.0.values (values_held seat.old.me.1) }
        ensures table { seat.new.table_id ≡ seat.old.table_id }
        ensures view { (seat.new.me.0.notes
            ≡ with_end_drawn A.gives A.inner result seat.old.me.0.notes)
            × (seat.new.me.1 ≡ seat.old.me.1) }
        ensures told { Knows seat.new.me.0.values (drawn_values result A.values) }
        ensures known { Knows seat.new.me.0.values seat.old.me.0.values }
        ensures held { Knows seat.new.me.0.values (values_held seat.new.me.1) }
    {
        self.table.shared.fetch_add::<DrawsEnd<A>>(seat, CLOCK, 1)
    }

    /// Draws the place of an End that gives these edges and has this value.
    pub fn draw_end(
        &self,
        seat: &mut TableSeat<V>,
        gives: &List<u32>,
        inner: bool,
        value: &Arc<V>,
    ) -> u64
        requires table { seat.old.table_id ≡ self.now.table.shared.table_id }
        requires ready { MayEnd (arc_value self.now.net) gives.now inner seat.old.me.0 }
        ensures table { seat.new.table_id ≡ seat.old.table_id }
        ensures view { (seat.new.me.0 ≡ with_end_drawn gives.now inner result seat.old.me.0)
            × (seat.new.me.1 ≡ seat.old.me.1) }
        ensures known { Knows seat.new.values seat.old.values }
        ensures ended { Knows seat.new.values (ended_with result (arc_value value.now)) }
        ensures found { seat.new.found ≡ seat.old.found }
    {
        self.end_told::<Brand>(&mut seat.seat, gives, inner, value)
    }

    // Gives what a seat knows to the keeper's, which then knows the values of both.
    fn take_in(&self, seat: &mut TableSeat<V>, other: TableSeat<V>)
        requires table { (seat.old.table_id ≡ self.now.table.shared.table_id)
            × (other.table_id ≡ self.now.table.shared.table_id) }
        requires keeper { seat.old.id ≡ 0 }
        requires home { other.me.1 ≡ [] }
        ensures table { (seat.new.table_id ≡ seat.old.table_id) × (seat.new.id ≡ seat.old.id) }
        ensures view { seat.new.me ≡ (views_joined seat.old.me.0 other.me.0, seat.old.me.1) }
        ensures known { Knows seat.new.values seat.old.values × Knows seat.new.values other.values }
        ensures found { seat.new.found ≡ seat.old.found }
    {
        self.table
            .shared
            .join_seat::<TakesSeatIn>(&mut seat.seat, other.into_seat());
    }

    fn leave_told<A: StepFacts>(&self, seat: &mut NoteSeat<V>) -> u64
        requires table { seat.old.table_id ≡ self.now.table.shared.table_id }
        requires keeper { seat.old.id ≡ 0 }
        requires ready { MayLeave seat.old.me.0.notes }
        requires held { Knows seat.old.me.0.values (values_held seat.old.me.1) }
        requires told { (A.net ≡ arc_value self.now.net)
            × (A.limit ≡ self.now.table.shared.key.limit) }
        ensures table { (seat.new.table_id ≡ seat.old.table_id) × (seat.new.id ≡ seat.old.id) }
        ensures view { (seat.new.me.0.notes ≡ left_by seat.old.me.0.notes)
            × (seat.new.me.1 ≡ seat.old.me.1) }
        ensures known { Knows seat.new.me.0.values seat.old.me.0.values }
        ensures held { Knows seat.new.me.0.values (values_held seat.new.me.1) }
        ensures one { HaveOneValueEach seat.new.me.0.values }
        ensures whole { result ≡ 1 → IsWhole A.net A.limit seat.new.me.0.notes }
        ensures journal { AreInOneJournal A.net A.limit (entries_in seat.new.me.0.notes) }
    {
        self.table.shared.fetch_sub::<Leaves<A>>(seat, LIVE, 1)
    }

    // Takes a turn off, and says how many there were. After the last the keeper's seat knows a whole run.
    fn leave(&self, seat: &mut TableSeat<V>) -> u64
        requires table { seat.old.table_id ≡ self.now.table.shared.table_id }
        requires keeper { seat.old.id ≡ 0 }
        requires ready { MayLeave seat.old.me.0 }
        ensures table { (seat.new.table_id ≡ seat.old.table_id) × (seat.new.id ≡ seat.old.id) }
        ensures view { (seat.new.me.0 ≡ left_by seat.old.me.0) × (seat.new.me.1 ≡ seat.old.me.1) }
        ensures known { Knows seat.new.values seat.old.values }
        ensures one { HaveOneValueEach seat.new.values }
        ensures whole { result ≡ 1
            → IsWhole (arc_value self.now.net) self.now.table.shared.key.limit seat.new.me.0 }
        ensures journal { AreInOneJournal (arc_value self.now.net) self.now.table.shared.key.limit
            (entries_in seat.new.me.0) }
        ensures found { seat.new.found ≡ result ∷ seat.old.found }
    {
        let found = self.leave_told::<Brand>(&mut seat.seat);
        seat.add_found(found);
        found
    }

    /// Takes a turn that is done into the keeper's seat, and says how many were live. The keeper then knows the values
    /// that either seat knew, no two of one End. Whatever it finds, the entries that it has are in one journal.
    pub fn settle(&self, seat: &mut TableSeat<V>, spent: TableSeat<V>) -> u64
        requires table { (seat.old.table_id ≡ self.now.table.shared.table_id)
            × (spent.table_id ≡ self.now.table.shared.table_id) }
        requires keeper { seat.old.id ≡ 0 }
        requires home { (seat.old.me.1 ≡ []) × (spent.me.1 ≡ []) }
        requires ready { MayLeave (views_joined seat.old.me.0 spent.me.0) }
        ensures table { (seat.new.table_id ≡ seat.old.table_id) × (seat.new.id ≡ 0) }
        ensures view { (seat.new.me.0 ≡ left_by (views_joined seat.old.me.0 spent.me.0))
            × (seat.new.me.1 ≡ []) }
        ensures known { Knows seat.new.values seat.old.values × Knows seat.new.values spent.values }
        ensures one { HaveOneValueEach seat.new.values }
        ensures all { result ≡ 1 → IsWhole (arc_value self.now.net) self.now.table.shared.key.limit
            seat.new.me.0 }
        ensures journal { AreInOneJournal (arc_value self.now.net) self.now.table.shared.key.limit
            (entries_in seat.new.me.0) }
        ensures found { seat.new.found ≡ result ∷ seat.old.found }
    {
        self.take_in(seat, spent);
        self.leave(seat)
    }
}
