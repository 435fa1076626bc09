// The kinds of step on the credits of semaphores, each by one seat on one word.
ghost use Rattle.std.specs.Prelude.{◌≡◌, ◌∷◌, ◌+◌, ◌<◌, ◌≤◌, ℕ, length};
ghost use Rattle.std.specs.Arc.{arc_value};
ghost use Rattle.task_graph.specs.NetRows.{NetRows};
ghost use Rattle.table_steps.specs.Credits.{first_credit};
ghost use Rattle.table_steps.specs.inside.SeatViews.{values_held, StepsKnowing};
ghost use Rattle.table_steps.specs.Values.{Knows};
ghost use Rattle.table_steps.specs.inside.CreditKinds.{MayCredit, credited, MayClaim, claimed, RefusesClaim, MayUnclaim, unclaimed};

use crate::parcels::Parcels;
use crate::table_seat::{NoteSeat, TableSeat};
use crate::view::SeatView;
use crate::words::{FIRST_UNIT, Words};
use atomic_table::Play;
use std::marker::{Brand, PhantomData};

/// A word of credits at first, so that a claim that is refused wraps nothing.
pub const FIRST_CREDIT: u64 = 1099511627776;

/// Of which semaphore a credit is, and of which run.
pub trait Claimable {
    ghost net: { NetRows };

    ghost limit: { ℕ };

    ghost sem: { ℕ };
}

impl Claimable for Brand {
    ghost use Rattle.std.specs.Prelude.{[]};

    ghost net = { record { tasks = []; edges = []; sems = [] } };

    ghost limit = { 0 };

    ghost sem = { 0 };
}

pub struct Credits<A> {
    told: PhantomData<A>,
}

impl<V, A: Claimable> Play<Parcels<V>, SeatView<V>> for Credits<A> {
    ghost then = { λ _ before n after. StepsKnowing
        (λ k m. (m.0 ≡ credited A.sem before.0.notes) × (m.1 ≡ before.1)) before n after };
}

pub struct Claims<A> {
    told: PhantomData<A>,
}

impl<V, A: Claimable> Play<Parcels<V>, SeatView<V>> for Claims<A> {
    ghost then = { λ _ before n after. StepsKnowing
        (λ k m. (m.0 ≡ claimed A.sem k before.0.notes) × (m.1 ≡ before.1)
        × (k ≤ first_credit → RefusesClaim A.net A.limit A.sem before.0.notes)) before n after };
}

pub struct Unclaims;

impl<V> Play<Parcels<V>, SeatView<V>> for Unclaims {
    ghost then = { λ _ before n after. StepsKnowing
        (λ k m. (m.0 ≡ unclaimed before.0.notes) × (m.1 ≡ before.1)) before n after };
}

impl<V> Words<V> {
    fn credit_told<A: Claimable>(&self, seat: &mut NoteSeat<V>, sem: u32, word: usize)
        requires table { seat.old.table_id ≡ self.now.table.shared.table_id }
        requires ready { MayCredit (arc_value self.now.net) sem seat.old.me.0.notes }
        requires held { Knows seat.old.me.0.values (values_held seat.old.me.1) }
        requires in_range { sem < length (arc_value self.now.net).sems }
        requires word { word ≡ 40 + length (arc_value self.now.net).sems + sem }
        requires told { A.sem ≡ sem }
        ensures table { seat.new.table_id ≡ seat.old.table_id }
        ensures view { (seat.new.me.0.notes ≡ credited A.sem seat.old.me.0.notes)
            × (seat.new.me.1 ≡ seat.old.me.1) }
        ensures known { Knows seat.new.me.0.values seat.old.me.0.values }
        ensures held { Knows seat.new.me.0.values (values_held seat.new.me.1) }
    {
        self.table.shared.fetch_add::<Credits<A>>(seat, word, 1);
    }

    /// Adds a credit of a unit that a start took and doesn't put.
    pub fn add_credit(&self, seat: &mut TableSeat<V>, sem: u32)
        requires table { seat.old.table_id ≡ self.now.table.shared.table_id }
        requires ready { MayCredit (arc_value self.now.net) sem seat.old.me.0 }
        requires in_range { sem < length (arc_value self.now.net).sems }
        ensures table { seat.new.table_id ≡ seat.old.table_id }
        ensures view { (seat.new.me.0 ≡ credited sem seat.old.me.0)
            × (seat.new.me.1 ≡ seat.old.me.1) }
        ensures known { Knows seat.new.values seat.old.values }
        ensures found { seat.new.found ≡ seat.old.found }
    {
        self.credit_told::<Brand>(&mut seat.seat, sem, self.credit_word(sem))
    }

    // The word of a semaphore's credits.
    fn credit_word(&self, sem: u32) -> usize
        requires { sem < length (arc_value self.now.net).sems }
        ensures { result ≡ 40 + length (arc_value self.now.net).sems + sem }
    {
        FIRST_UNIT + self.net.sems().len() + sem as usize
    }

    fn claim_told<A: Claimable>(&self, seat: &mut NoteSeat<V>, sem: u32, word: usize) -> u64
        requires table { seat.old.table_id ≡ self.now.table.shared.table_id }
        requires ready { MayClaim (arc_value self.now.net) sem seat.old.me.0.notes }
        requires held { Knows seat.old.me.0.values (values_held seat.old.me.1) }
        requires in_range { sem < length (arc_value self.now.net).sems }
        requires word { word ≡ 40 + length (arc_value self.now.net).sems + sem }
        requires told { (A.net ≡ arc_value self.now.net)
            × (A.limit ≡ self.now.table.shared.key.limit) × (A.sem ≡ sem) }
        ensures table { seat.new.table_id ≡ seat.old.table_id }
        ensures view { (seat.new.me.0.notes ≡ claimed A.sem result seat.old.me.0.notes)
            × (seat.new.me.1 ≡ seat.old.me.1) }
        ensures known { Knows seat.new.me.0.values seat.old.me.0.values }
        ensures held { Knows seat.new.me.0.values (values_held seat.new.me.1) }
        ensures refused { result ≤ first_credit
            → RefusesClaim A.net A.limit A.sem seat.old.me.0.notes }
    {
        self.table.shared.fetch_sub::<Claims<A>>(seat, word, 1)
    }

    /// Claims a credit of a unit that a start puts and didn't take, and says what it found in the credit word. Where
    /// that is no more than was there at first, the claim is refused.
    pub fn draw_claim(&self, seat: &mut TableSeat<V>, sem: u32) -> u64
        requires table { seat.old.table_id ≡ self.now.table.shared.table_id }
        requires ready { MayClaim (arc_value self.now.net) sem seat.old.me.0 }
        requires in_range { sem < length (arc_value self.now.net).sems }
        ensures table { seat.new.table_id ≡ seat.old.table_id }
        ensures view { (seat.new.me.0 ≡ claimed sem result seat.old.me.0)
            × (seat.new.me.1 ≡ seat.old.me.1) }
        ensures known { Knows seat.new.values seat.old.values }
        ensures refused { result ≤ first_credit
            → RefusesClaim (arc_value self.now.net) self.now.table.shared.key.limit sem
            seat.old.me.0 }
        ensures found { seat.new.found ≡ result ∷ seat.old.found }
    {
        let found = self.claim_told::<Brand>(&mut seat.seat, sem, self.credit_word(sem));
        seat.add_found(found);
        found
    }

    /// Undoes a claim that was refused.
    pub fn undo_claim(&self, seat: &mut TableSeat<V>, sem: u32)
        requires table { seat.old.table_id ≡ self.now.table.shared.table_id }
        requires ready { MayUnclaim (arc_value self.now.net) sem seat.old.me.0 }
        requires in_range { sem < length (arc_value self.now.net).sems }
        ensures table { seat.new.table_id ≡ seat.old.table_id }
        ensures view { (seat.new.me.0 ≡ unclaimed seat.old.me.0) × (seat.new.me.1 ≡ seat.old.me.1) }
        ensures known { Knows seat.new.values seat.old.values }
        ensures found { seat.new.found ≡ seat.old.found }
    {
        let word = self.credit_word(sem);
        self.table
            .shared
            .fetch_add::<Unclaims>(&mut seat.seat, word, 1);
    }
}
