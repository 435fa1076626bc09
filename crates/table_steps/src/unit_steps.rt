// The kinds of step on the units of semaphores, each by one seat on one word.
ghost use Rattle.std.specs.Prelude.{◌≡◌, ◌∷◌, ◌+◌, ◌<◌, ℕ, length};
ghost use Rattle.std.specs.Arc.{arc_value};
ghost use Rattle.task_graph.specs.NetRows.{NetRows};
ghost use Rattle.table_steps.specs.inside.SeatViews.{values_held, StepsKnowing};
ghost use Rattle.table_steps.specs.Values.{Knows};
ghost use Rattle.table_steps.specs.inside.UnitKinds.{MayTake, took_unit, MayUndo, undone, MayPut, put_back, MayReturn, returned};

use crate::parcels::Parcels;
use crate::table_seat::{NoteSeat, TableSeat};
use crate::view::SeatView;
use crate::words::{FIRST_UNIT, Words};
use atomic_table::Play;
use std::marker::{Brand, PhantomData};

/// Of which semaphore a unit is.
pub trait Semaphore {
    ghost net: { NetRows };

    ghost sem: { ℕ };
}

impl Semaphore for Brand {
    ghost use Rattle.std.specs.Prelude.{[]};

    ghost net = { record { tasks = []; edges = []; sems = [] } };

    ghost sem = { 0 };
}

pub struct TakesOneUnit<A> {
    told: PhantomData<A>,
}

impl<V, A: Semaphore> Play<Parcels<V>, SeatView<V>> for TakesOneUnit<A> {
    ghost then = { λ _ before n after. StepsKnowing
        (λ k m. (m.0 ≡ took_unit A.net A.sem k before.0.notes) × (m.1 ≡ before.1)) before n after };
}

pub struct Undoes;

impl<V> Play<Parcels<V>, SeatView<V>> for Undoes {
    ghost then = { λ _ before n after. StepsKnowing
        (λ k m. (m.0 ≡ undone before.0.notes) × (m.1 ≡ before.1)) before n after };
}

pub struct PutsUnitBack<A> {
    told: PhantomData<A>,
}

impl<V, A: Semaphore> Play<Parcels<V>, SeatView<V>> for PutsUnitBack<A> {
    ghost then = { λ _ before n after. StepsKnowing
        (λ k m. (m.0 ≡ put_back A.sem before.0.notes) × (m.1 ≡ before.1)) before n after };
}

pub struct GivesUnitBack<A> {
    told: PhantomData<A>,
}

impl<V, A: Semaphore> Play<Parcels<V>, SeatView<V>> for GivesUnitBack<A> {
    ghost then = { λ _ before n after. StepsKnowing
        (λ k m. (m.0 ≡ returned A.sem before.0.notes) × (m.1 ≡ before.1)) before n after };
}

impl<V> Words<V> {
    fn take_unit_told<A: Semaphore>(&self, seat: &mut NoteSeat<V>, sem: u32) -> u64
        requires table { seat.old.table_id ≡ self.now.table.shared.table_id }
        requires ready { MayTake (arc_value self.now.net) sem seat.old.me.0.notes }
        requires held { Knows seat.old.me.0.values (values_held seat.old.me.1) }
        requires in_range { sem < length (arc_value self.now.net).sems }
        requires told { (A.net ≡ arc_value self.now.net) × (A.sem ≡ sem) }
        ensures table { seat.new.table_id ≡ seat.old.table_id }
        ensures view { (seat.new.me.0.notes ≡ took_unit A.net A.sem result seat.old.me.0.notes)
            × (seat.new.me.1 ≡ seat.old.me.1) }
        ensures known { Knows seat.new.me.0.values seat.old.me.0.values }
        ensures held { Knows seat.new.me.0.values (values_held seat.new.me.1) }
    {
        self.table
            .shared
            .fetch_add::<TakesOneUnit<A>>(seat, FIRST_UNIT + sem as usize, 1)
    }

    /// Takes a unit of a semaphore, and says how many were taken.
    pub fn draw_unit(&self, seat: &mut TableSeat<V>, sem: u32) -> u64
        requires table { seat.old.table_id ≡ self.now.table.shared.table_id }
        requires ready { MayTake (arc_value self.now.net) sem seat.old.me.0 }
        requires in_range { sem < length (arc_value self.now.net).sems }
        ensures table { seat.new.table_id ≡ seat.old.table_id }
        ensures view { (seat.new.me.0 ≡ took_unit (arc_value self.now.net) sem result seat.old.me.0)
            × (seat.new.me.1 ≡ seat.old.me.1) }
        ensures known { Knows seat.new.values seat.old.values }
        ensures found { seat.new.found ≡ result ∷ seat.old.found }
    {
        let found = self.take_unit_told::<Brand>(&mut seat.seat, sem);
        seat.add_found(found);
        found
    }

    /// Undoes a take that found no unit.
    pub fn undo_unit(&self, seat: &mut TableSeat<V>, sem: u32)
        requires table { seat.old.table_id ≡ self.now.table.shared.table_id }
        requires ready { MayUndo (arc_value self.now.net) sem seat.old.me.0 }
        requires in_range { sem < length (arc_value self.now.net).sems }
        ensures table { seat.new.table_id ≡ seat.old.table_id }
        ensures view { (seat.new.me.0 ≡ undone seat.old.me.0) × (seat.new.me.1 ≡ seat.old.me.1) }
        ensures known { Knows seat.new.values seat.old.values }
        ensures found { seat.new.found ≡ seat.old.found }
    {
        self.table
            .shared
            .fetch_sub::<Undoes>(&mut seat.seat, FIRST_UNIT + sem as usize, 1);
    }

    fn put_unit_told<A: Semaphore>(&self, seat: &mut NoteSeat<V>, sem: u32)
        requires table { seat.old.table_id ≡ self.now.table.shared.table_id }
        requires ready { MayPut (arc_value self.now.net) sem seat.old.me.0.notes }
        requires held { Knows seat.old.me.0.values (values_held seat.old.me.1) }
        requires in_range { sem < length (arc_value self.now.net).sems }
        requires told { A.sem ≡ sem }
        ensures table { seat.new.table_id ≡ seat.old.table_id }
        ensures view { (seat.new.me.0.notes ≡ put_back A.sem seat.old.me.0.notes)
            × (seat.new.me.1 ≡ seat.old.me.1) }
        ensures known { Knows seat.new.me.0.values seat.old.me.0.values }
        ensures held { Knows seat.new.me.0.values (values_held seat.new.me.1) }
    {
        self.table
            .shared
            .fetch_sub::<PutsUnitBack<A>>(seat, FIRST_UNIT + sem as usize, 1);
    }

    /// Puts a unit back that a turn holds.
    pub fn put_unit_back(&self, seat: &mut TableSeat<V>, sem: u32)
        requires table { seat.old.table_id ≡ self.now.table.shared.table_id }
        requires ready { MayPut (arc_value self.now.net) sem seat.old.me.0 }
        requires in_range { sem < length (arc_value self.now.net).sems }
        ensures table { seat.new.table_id ≡ seat.old.table_id }
        ensures view { (seat.new.me.0 ≡ put_back sem seat.old.me.0)
            × (seat.new.me.1 ≡ seat.old.me.1) }
        ensures known { Knows seat.new.values seat.old.values }
        ensures found { seat.new.found ≡ seat.old.found }
    {
        self.put_unit_told::<Brand>(&mut seat.seat, sem)
    }

    fn return_told<A: Semaphore>(&self, seat: &mut NoteSeat<V>, sem: u32)
        requires table { seat.old.table_id ≡ self.now.table.shared.table_id }
        requires ready { MayReturn (arc_value self.now.net) sem seat.old.me.0.notes }
        requires held { Knows seat.old.me.0.values (values_held seat.old.me.1) }
        requires in_range { sem < length (arc_value self.now.net).sems }
        requires told { A.sem ≡ sem }
        ensures table { seat.new.table_id ≡ seat.old.table_id }
        ensures view { (seat.new.me.0.notes ≡ returned A.sem seat.old.me.0.notes)
            × (seat.new.me.1 ≡ seat.old.me.1) }
        ensures known { Knows seat.new.me.0.values seat.old.me.0.values }
        ensures held { Knows seat.new.me.0.values (values_held seat.new.me.1) }
    {
        self.table
            .shared
            .fetch_sub::<GivesUnitBack<A>>(seat, FIRST_UNIT + sem as usize, 1);
    }

    /// Gives a unit back that an end owes.
    pub fn give_unit_back(&self, seat: &mut TableSeat<V>, sem: u32)
        requires table { seat.old.table_id ≡ self.now.table.shared.table_id }
        requires ready { MayReturn (arc_value self.now.net) sem seat.old.me.0 }
        requires in_range { sem < length (arc_value self.now.net).sems }
        ensures table { seat.new.table_id ≡ seat.old.table_id }
        ensures view { (seat.new.me.0 ≡ returned sem seat.old.me.0)
            × (seat.new.me.1 ≡ seat.old.me.1) }
        ensures known { Knows seat.new.values seat.old.values }
        ensures found { seat.new.found ≡ seat.old.found }
    {
        self.return_told::<Brand>(&mut seat.seat, sem)
    }
}
