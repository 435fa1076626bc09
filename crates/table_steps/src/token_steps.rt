// The kinds of step on the words of tokens and on join words, each by one seat on one word.
ghost use Rattle.std.specs.Prelude.{◌≡◌, ◌∷◌, ◌+◌, ◌<◌, length};
ghost use Rattle.std.specs.Arc.{arc_value};
ghost use Rattle.table_steps.specs.inside.Accounts.{tokens_from};
ghost use Rattle.task_graph.specs.Net.{strong_in};
ghost use Rattle.table_steps.specs.inside.SeatViews.{values_held, StepsKnowing};
ghost use Rattle.table_steps.specs.Values.{Knows};
ghost use Rattle.table_steps.specs.inside.Kinds.{MayReset, taken_up, TakesNextToken, took, OwesNext, gave, CountsNext, counted_one, AreNoneLeft, others_of};

use crate::parcels::Parcels;
use crate::table_seat::{NoteSeat, TableSeat};
use crate::view::SeatView;
use crate::words::{StepFacts, TakesUp, Words};
use atomic_table::Play;
use std::marker::{Brand, PhantomData};

pub struct TakesOneToken;

impl<V> Play<Parcels<V>, SeatView<V>> for TakesOneToken {
    ghost then = { λ _ before n after. StepsKnowing
        (λ k m. (m.0 ≡ took k before.0.notes) × (m.1 ≡ before.1)) before n after };
}

pub struct GivesOneToken<A> {
    told: PhantomData<A>,
}

impl<V, A: StepFacts> Play<Parcels<V>, SeatView<V>> for GivesOneToken<A> {
    ghost then = { λ _ before n after. StepsKnowing
        (λ k m. (m.0 ≡ gave A.net A.edge k before.0.notes) × (m.1 ≡ before.1)) before n after };
}

pub struct CountsOneEdge<A> {
    told: PhantomData<A>,
}

impl<V, A: StepFacts> Play<Parcels<V>, SeatView<V>> for CountsOneEdge<A> {
    ghost then = { λ _ before n after. StepsKnowing
        (λ k m. (m.0 ≡ counted_one A.task k before.0.notes) × (m.1 ≡ before.1)
        × (k ≡ 1 → AreNoneLeft A.task (others_of before.0.notes))) before n after };
}

impl<V> Words<V> {
    fn reset_told<A: StepFacts>(&self, seat: &mut NoteSeat<V>, task: u32, word: usize, edges: u64)
        requires table { seat.old.table_id ≡ self.now.table.shared.table_id }
        requires ready { MayReset (arc_value self.now.net) task seat.old.me.0.notes }
        requires held { Knows seat.old.me.0.values (values_held seat.old.me.1) }
        requires in_range { task < length (arc_value self.now.net).tasks }
        requires word { word ≡ tokens_from (arc_value self.now.net) + length
            (arc_value self.now.net).edges + task }
        requires edges { edges ≡ length (strong_in (arc_value self.now.net) task) }
        requires told { A.net ≡ arc_value self.now.net }
        ensures table { seat.new.table_id ≡ seat.old.table_id }
        ensures view { (seat.new.me.0.notes ≡ taken_up A.net seat.old.me.0.notes)
            × (seat.new.me.1 ≡ seat.old.me.1) }
        ensures known { Knows seat.new.me.0.values seat.old.me.0.values }
        ensures held { Knows seat.new.me.0.values (values_held seat.new.me.1) }
    {
        self.table.shared.fetch_add::<TakesUp<A>>(seat, word, edges);
    }

    /// Sets a task's join word again, and takes up its release.
    pub fn reset_join(&self, seat: &mut TableSeat<V>, task: u32)
        requires table { seat.old.table_id ≡ self.now.table.shared.table_id }
        requires ready { MayReset (arc_value self.now.net) task seat.old.me.0 }
        requires in_range { task < length (arc_value self.now.net).tasks }
        ensures table { seat.new.table_id ≡ seat.old.table_id }
        ensures view { (seat.new.me.0 ≡ taken_up (arc_value self.now.net) seat.old.me.0)
            × (seat.new.me.1 ≡ seat.old.me.1) }
        ensures known { Knows seat.new.values seat.old.values }
        ensures found { seat.new.found ≡ seat.old.found }
    {
        let edges = self.net.strong_in(task).len() as u64;
        self.reset_told::<Brand>(&mut seat.seat, task, self.join_word(task), edges)
    }

    /// Takes a token from the next edge of a release, and says how many were there.
    pub fn take_token(&self, seat: &mut TableSeat<V>, edge: u32) -> u64
        requires table { seat.old.table_id ≡ self.now.table.shared.table_id }
        requires ready { TakesNextToken (arc_value self.now.net) edge seat.old.me.0 }
        requires in_range { edge < length (arc_value self.now.net).edges }
        ensures table { seat.new.table_id ≡ seat.old.table_id }
        ensures view { (seat.new.me.0 ≡ took result seat.old.me.0)
            × (seat.new.me.1 ≡ seat.old.me.1) }
        ensures known { Knows seat.new.values seat.old.values }
        ensures found { seat.new.found ≡ result ∷ seat.old.found }
    {
        let found = self
            .table
            .shared
            .fetch_sub::<TakesOneToken>(&mut seat.seat, self.edge_word(edge), 1);
        seat.add_found(found);
        found
    }

    fn give_told<A: StepFacts>(&self, seat: &mut NoteSeat<V>, edge: u32) -> u64
        requires table { seat.old.table_id ≡ self.now.table.shared.table_id }
        requires ready { OwesNext (arc_value self.now.net) edge seat.old.me.0.notes }
        requires held { Knows seat.old.me.0.values (values_held seat.old.me.1) }
        requires in_range { edge < length (arc_value self.now.net).edges }
        requires told { (A.net ≡ arc_value self.now.net) × (A.edge ≡ edge) }
        ensures table { seat.new.table_id ≡ seat.old.table_id }
        ensures view { (seat.new.me.0.notes ≡ gave A.net A.edge result seat.old.me.0.notes)
            × (seat.new.me.1 ≡ seat.old.me.1) }
        ensures known { Knows seat.new.me.0.values seat.old.me.0.values }
        ensures held { Knows seat.new.me.0.values (values_held seat.new.me.1) }
    {
        self.table
            .shared
            .fetch_add::<GivesOneToken<A>>(seat, self.edge_word(edge), 1)
    }

    /// Gives a token of the next edge that is owed, and says how many were there.
    pub fn give_token(&self, seat: &mut TableSeat<V>, edge: u32) -> u64
        requires table { seat.old.table_id ≡ self.now.table.shared.table_id }
        requires ready { OwesNext (arc_value self.now.net) edge seat.old.me.0 }
        requires in_range { edge < length (arc_value self.now.net).edges }
        ensures table { seat.new.table_id ≡ seat.old.table_id }
        ensures view { (seat.new.me.0 ≡ gave (arc_value self.now.net) edge result seat.old.me.0)
            × (seat.new.me.1 ≡ seat.old.me.1) }
        ensures known { Knows seat.new.values seat.old.values }
        ensures found { seat.new.found ≡ result ∷ seat.old.found }
    {
        let found = self.give_told::<Brand>(&mut seat.seat, edge);
        seat.add_found(found);
        found
    }

    fn count_told<A: StepFacts>(
        &self,
        seat: &mut NoteSeat<V>,
        task: u32,
        edge: u32,
        word: usize,
    ) -> u64
        requires table { seat.old.table_id ≡ self.now.table.shared.table_id }
        requires ready { CountsNext (arc_value self.now.net) task edge seat.old.me.0.notes }
        requires held { Knows seat.old.me.0.values (values_held seat.old.me.1) }
        requires in_range { task < length (arc_value self.now.net).tasks }
        requires word { word ≡ tokens_from (arc_value self.now.net) + length
            (arc_value self.now.net).edges + task }
        requires told { A.task ≡ task }
        ensures table { seat.new.table_id ≡ seat.old.table_id }
        ensures view { (seat.new.me.0.notes ≡ counted_one A.task result seat.old.me.0.notes)
            × (seat.new.me.1 ≡ seat.old.me.1) }
        ensures known { Knows seat.new.me.0.values seat.old.me.0.values }
        ensures held { Knows seat.new.me.0.values (values_held seat.new.me.1) }
        ensures last { result ≡ 1 → AreNoneLeft A.task (others_of seat.old.me.0.notes) }
    {
        self.table
            .shared
            .fetch_sub::<CountsOneEdge<A>>(seat, word, 1)
    }

    /// Counts an edge with a token at its target, and says what the join word was.
    pub fn count_edge(&self, seat: &mut TableSeat<V>, task: u32, edge: u32) -> u64
        requires table { seat.old.table_id ≡ self.now.table.shared.table_id }
        requires ready { CountsNext (arc_value self.now.net) task edge seat.old.me.0 }
        requires in_range { task < length (arc_value self.now.net).tasks }
        ensures table { seat.new.table_id ≡ seat.old.table_id }
        ensures view { (seat.new.me.0 ≡ counted_one task result seat.old.me.0)
            × (seat.new.me.1 ≡ seat.old.me.1) }
        ensures known { Knows seat.new.values seat.old.values }
        ensures last { result ≡ 1 → AreNoneLeft task (others_of seat.old.me.0) }
        ensures found { seat.new.found ≡ result ∷ seat.old.found }
    {
        let found = self.count_told::<Brand>(&mut seat.seat, task, edge, self.join_word(task));
        seat.add_found(found);
        found
    }
}
