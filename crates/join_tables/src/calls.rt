// The calls that take a release to its start, and a start to its end and the releases that follow. None waits, and only
// `room_for` takes memory.
ghost use Rattle.std.specs.Prelude.{◌≡◌, ◌≢◌, ◌<◌, ◌≤◌, ◌+◌, ◌∷◌, ℕ, List, IfOk, IfSome, IsTrue, is_some, [], length, slice_get};
ghost use Rattle.std.specs.Arc.{arc_value};
ghost use Rattle.task_graph.specs.Net.{is_weak};
ghost use Rattle.join_tables.specs.Inputs.{given_in, parts_found, room_in};
ghost use Rattle.journal_rules.specs.DataRule.{edges_of};
ghost use Rattle.journal_rules.specs.declared.entry.Cause.TheVariants.{Strong};
ghost use Rattle.join_tables.specs.Findings.{CountsEdge, TakesToken, GivesToken};
ghost use Rattle.table_steps.specs.OneJournal.{AreInOneJournal};
ghost use Rattle.table_steps.specs.Releases.{MayBeReleased};
ghost use Rattle.table_steps.specs.ParcelForms.{MayBeBare};
ghost use Rattle.table_steps.specs.Values.{Knows, ended_with, values_in};
ghost use Rattle.join_tables.specs.Parts.{parts_in};
ghost use Rattle.join_tables.specs.States.{fresh_state, collecting_state, running_state};
ghost use Rattle.join_tables.specs.declared.fates.Fate.TheVariants.{Ended};
ghost use Rattle.join_tables.specs.Keeping.{entries_of, start_of, with_places};
ghost use Rattle.join_tables.specs.Turns.{CollectsFrom, GivesNext, EndedAs, release_cause};
ghost use Rattle.table_steps.specs.Giving.{MayEndGiving, target};
ghost use Rattle.table_steps.specs.Holding.{HoldsEachUnit, PutsAll};
ghost use Rattle.join_tables.specs.Claims.{BeginsUnits, HasAllUnits, HasCredited, HasClaimed};
ghost use Rattle.table_steps.specs.inside.Kinds.{CountsNext, AreNoneLeft, others_of, kept_back, without_count};
ghost use Rattle.join_tables.specs.inside.Seated.{OwesFirst, OwesToken, paid, paid_token, HasMade, collecting_view, taken_in, left_in};
ghost use Rattle.join_tables.specs.inside.Collects.{CollectsOne};
ghost use Rattle.join_tables.specs.inside.Sharing.{IsOneFewer, KnowsShares, count_in, have_no_node};

use crate::fates::Fate;
use crate::parts::Inputs;
use crate::shares::{SharedValue, Shares};
use crate::turns::{
    Collected, Collecting, EndedStart, Fresh, Gave, NetTable, Owing, Running, Spent, StartTicket,
    Turn,
};
use journal_rules::Cause;
use outside_io::{List, NoMemory};
use std::alloc::Global;
use table_steps::TableSeat;

// What collecting from one edge led to: that no edge was left, or that a token was taken, with the release that this
// made, if it made one, and whether it was the last edge.
enum Step<V> {
    NoneLeft,
    Taken(Option<Fresh<V>>, bool),
}

// The task in which an edge ends, and whether the edge is weak.
#[derive(Clone, Copy)]
struct Target {
    task: u32,
    weak: bool,
}

impl<V: Drop> NetTable<V> {
    /// Takes up a release, and sets its task's join word again where its strong in-edges released it.
    /// `inputs` has nothing yet, and room for what is found at each of its edges.
    #[tactic(auto, using(table_steps::proofs::Values::knows_none))]
    pub fn reset(&self, fresh: Fresh<V>, inputs: Inputs<V>) -> Collecting<V>
        requires table { fresh.table ≡ self.now.table }
        requires empty { given_in inputs ≡ [] }
        requires room { length (edges_of self.now.net fresh.task fresh.cause) ≤ room_in inputs }
        ensures { result ≡ collecting_state self.now.table fresh.task fresh.cause
            (edges_of self.now.net fresh.task fresh.cause) [] }
    {
        let Fresh {
            mut seat,
            task,
            cause,
        } = fresh;
        self.words.learn(&mut seat);
        match cause {
            Cause::Strong => self.words.reset_join(&mut seat, task),
            Cause::Source | Cause::Weak(_) => self.words.take_up(&mut seat),
        }
        Collecting {
            seat,
            task,
            cause,
            next: 0,
            inputs,
        }
    }

    /// Nothing found yet, and room for what is found at each edge of a release.
    pub fn room_for(&self, alloc: Global, fresh: &mut Fresh<V>) -> Result<Inputs<V>, NoMemory>
        requires { fresh.old.table ≡ self.now.table }
        ensures same { fresh.new ≡ fresh.old }
        ensures room { IfOk result
            (λ inputs. (given_in inputs ≡ [])
            × (length (edges_of self.now.net fresh.old.task fresh.old.cause) ≤ room_in inputs)) }
    {
        self.words.learn(&mut fresh.seat);
        let edges = match fresh.cause {
            Cause::Source => 0,
            Cause::Strong => self.words.net.strong_in(fresh.task).len(),
            Cause::Weak(_) => 1,
        };
        Inputs::with_room(alloc, edges)
    }

    /// Starts the task: draws the place of its Start, which is then in a journal that is legal as far as the net
    /// decides. The task is one of the net's, the cause may release it, and the start has found a part at each edge of
    /// its release. Of the units that the turn holds, the start gives those back at its end that the task puts too. The
    /// others are to be credited, and what the task puts besides is to be claimed.
    pub fn start(&self, ticket: StartTicket<V>) -> Running<V>
        requires table { ticket.table ≡ self.now.table }
        requires units { HoldsEachUnit self.now.net ticket.task ticket.held }
        ensures state { result ≡ running_state self.now.table ticket.task ticket.cause result.place
            result.ins result.units ticket.found }
        ensures release { MayBeReleased self.now.net ticket.task ticket.cause }
        ensures journal { AreInOneJournal self.now.net self.now.limit
            (with_places (start_of result.place ticket.task ticket.cause
            (parts_in result.ins) ∷ [])) }
        ensures parts { length (parts_in result.ins)
            ≡ length (edges_of self.now.net ticket.task ticket.cause) }
        ensures units { BeginsUnits self.now.net ticket.task result.units }
        ensures same { PutsAll self.now.net ticket.task
            → HasAllUnits self.now.net ticket.task ticket.held result.units }
    {
        let StartTicket {
            mut seat,
            task,
            cause,
            inputs,
        } = ticket;
        self.words.learn(&mut seat);
        let place = self.words.draw_start(&mut seat);
        self.words.learn(&mut seat);
        Running {
            seat,
            task,
            cause,
            place,
            inputs,
        }
    }

    /// Ends a start that has credited and claimed all units that it had to: draws the place of its End, which has this
    /// value and gives these edges. Its Start and its End are then in a journal that is legal as far as the net
    /// decides. `inner` says that its work was a run of its own.
    pub fn end(
        &self,
        running: Running<V>,
        gives: List<u32>,
        value: SharedValue<V>,
        inner: bool,
    ) -> Owing<V>
        requires table { running.table ≡ self.now.table }
        requires fits { MayEndGiving self.now.net running.task gives inner }
        requires shares { value.edges ≡ length gives }
        requires room { MayBeBare self.now.net value.bare }
        requires credits { HasCredited self.now.net running.task running.units }
        requires claims { HasClaimed self.now.net running.task running.units }
        ensures table { result.table ≡ self.now.table }
        ensures ended { EndedAs running gives value.value inner result.ended }
        ensures journal { AreInOneJournal self.now.net self.now.limit
            (with_places (entries_of (Ended result.ended))) }
        ensures left { result.left ≡ gives }
        ensures units { result.units ≡ running.units.back }
        ensures found { result.found ≡ running.found }
        ensures room { MayBeBare self.now.net result.bare }
    {
        let Running {
            mut seat,
            task,
            cause,
            place: start,
            inputs,
        } = running;
        let SharedValue { value, shares } = value;
        let found = inputs.without_values();
        let place = self.words.draw_end(&mut seat, &gives, inner, &value);
        self.words.learn(&mut seat);
        let ended = EndedStart {
            task,
            cause,
            start,
            found,
            value,
            place,
            gives,
            inner,
        };
        Owing {
            seat,
            ended,
            next: 0,
            shares,
        }
    }

    /// Takes the oldest parcel from the slot of the next edge of a release, and then a token from the edge. Where other
    /// turns hold the slot at each of a million tries, nothing is found there. Where the edge is a strong one with
    /// another token, it counts it again. For a release without edges it changes no word and finds no number.
    #[tactic(auto, using(table_steps::proofs::Values::knows_again))]
    pub fn collect(&self, collecting: Collecting<V>) -> Collected<V>
        requires { collecting.table ≡ self.now.table }
        ensures { CollectsFrom collecting collecting.left result }
    {
        let Collecting {
            mut seat,
            task,
            cause,
            next,
            mut inputs,
        } = collecting;
        let (made, is_last) = match self.collect_one(&mut seat, task, cause, next, &mut inputs) {
            Step::NoneLeft => (None, true),
            Step::Taken(made, is_last) => (made, is_last),
        };
        if !is_last {
            return Collected::More(Collecting {
                seat,
                task,
                cause,
                next: next + 1,
                inputs,
            });
        }
        let turn = Turn {
            seat,
            task,
            cause,
            inputs,
        };
        match made {
            Some(fresh) => Collected::LastAgain(turn, fresh),
            None => Collected::Last(turn),
        }
    }

    /// Puts an owner of the End's value behind those in the slot of the next edge that it owes, and then gives the edge
    /// a token. Where other turns hold the slot at each of a million tries, the value is left away. It counts the token
    /// at its target where it is the first of a strong edge.
    #[tactic(auto, using(table_steps::proofs::Values::knows_again))]
    pub fn give(&self, owing: Owing<V>) -> Gave<V>
        requires table { owing.table ≡ self.now.table }
        requires no_unit { owing.units ≡ [] }
        requires room { MayBeBare self.now.net owing.bare }
        ensures { GivesNext self.now.net owing owing.left result }
    {
        let Owing {
            mut seat,
            ended,
            next,
            mut shares,
        } = owing;
        let Some(edge) = ended.gives.get(next).copied() else {
            let fate = Fate::Ended(ended);
            return Gave::Finished(Spent { seat, fate });
        };
        let made = self.give_edge(&mut seat, edge, ended.place, &mut shares);
        let owing = Owing {
            seat,
            ended,
            next: next + 1,
            shares,
        };
        match made {
            Some(fresh) => Gave::Released(owing, fresh),
            None => Gave::Next(owing),
        }
    }

    // Gives an edge the value of the End at this place and a token, and deals out the release that this makes, if it
    // makes one.
    #[tactic(auto, using(table_steps::proofs::Values::knows_again))]
    fn give_edge(
        &self,
        seat: &mut TableSeat<V>,
        edge: u32,
        place: u64,
        shares: &mut Shares<V>,
    ) -> Option<Fresh<V>>
        requires table { seat.old.table_id ≡ self.now.table }
        requires home { seat.old.me.1 ≡ [] }
        requires ready { OwesFirst edge place seat.old.me.0 }
        requires some { 0 < count_in shares.old }
        requires knows { KnowsShares place shares.old seat.old.values }
        requires room { MayBeBare self.now.net (have_no_node shares.old) }
        ensures shares { IsOneFewer shares.old shares.new }
        ensures table { seat.new.table_id ≡ seat.old.table_id }
        ensures view { seat.new.me ≡ (paid seat.old.me.0, []) }
        ensures known { Knows seat.new.values seat.old.values }
        ensures fresh { IfSome result
            (λ fresh. fresh
            ≡ fresh_state self.now.table (target self.now.net edge)
            (release_cause self.now.net edge)) }
        ensures found { GivesToken (is_weak self.now.net edge) (is_some result) seat.old.found
            seat.new.found }
    {
        self.words.learn(seat);
        self.words.deliver(seat, edge, shares.take(place));
        self.give_token(seat, edge)
    }

    // Gives an edge a token whose parcel is put, and deals out the release that this makes, if it makes one.
    #[tactic(auto, using(table_steps::proofs::Values::knows_again))]
    fn give_token(&self, seat: &mut TableSeat<V>, edge: u32) -> Option<Fresh<V>>
        requires table { seat.old.table_id ≡ self.now.table }
        requires home { seat.old.me.1 ≡ [] }
        requires ready { OwesToken edge seat.old.me.0 }
        ensures table { seat.new.table_id ≡ seat.old.table_id }
        ensures view { seat.new.me ≡ (paid_token seat.old.me.0, []) }
        ensures known { Knows seat.new.values seat.old.values }
        ensures fresh { IfSome result
            (λ fresh. fresh
            ≡ fresh_state self.now.table (target self.now.net edge)
            (release_cause self.now.net edge)) }
        ensures found { GivesToken (is_weak self.now.net edge) (is_some result) seat.old.found
            seat.new.found }
    {
        self.words.learn(seat);
        let Target { task, weak } = self.target(edge);
        let found = self.words.give_token(seat, edge);
        if weak {
            Some(self.deal_fresh(seat, task, Cause::Weak(edge)))
        } else if found == 0 {
            self.count(seat, task, edge)
        } else {
            None
        }
    }

    // Counts an edge at its target, and deals out the release that this makes, if it makes one.
    #[tactic(auto, using(table_steps::proofs::Values::knows_again))]
    fn count(&self, seat: &mut TableSeat<V>, task: u32, edge: u32) -> Option<Fresh<V>>
        requires table { seat.old.table_id ≡ self.now.table }
        requires home { seat.old.me.1 ≡ [] }
        requires ready { CountsNext self.now.net task edge seat.old.me.0 }
        requires in_range { task < length self.now.net.tasks }
        ensures table { seat.new.table_id ≡ seat.old.table_id }
        ensures view { seat.new.me ≡ (others_of seat.old.me.0, []) }
        ensures known { Knows seat.new.values seat.old.values }
        ensures fresh { IfSome result (λ fresh. fresh ≡ fresh_state self.now.table task Strong) }
        ensures last { IsTrue (is_some result) → AreNoneLeft task (others_of seat.old.me.0) }
        ensures found { CountsEdge (is_some result) seat.old.found seat.new.found }
    {
        let found = self.words.count_edge(seat, task, edge);
        if found == 1 {
            Some(self.deal_fresh(seat, task, Cause::Strong))
        } else {
            None
        }
    }

    // Counts the turn of a release that the seat has just made, and deals it out.
    #[tactic(auto, using(table_steps::proofs::Values::knows_again))]
    fn deal_fresh(&self, seat: &mut TableSeat<V>, task: u32, cause: Cause) -> Fresh<V>
        requires table { seat.old.table_id ≡ self.now.table }
        requires home { seat.old.me.1 ≡ [] }
        requires made { HasMade task cause seat.old.me.0 }
        ensures table { seat.new.table_id ≡ seat.old.table_id }
        ensures view { seat.new.me ≡ (kept_back seat.old.me.0, []) }
        ensures known { Knows seat.new.values seat.old.values }
        ensures fresh { result ≡ fresh_state self.now.table task cause }
        ensures found { seat.new.found ≡ seat.old.found }
    {
        self.words.add_turn(seat);
        let seat = self.words.deal(seat);
        Fresh { seat, task, cause }
    }

    // Takes the parcel and a token from the next edge of a release, and counts the edge again where a token remains.
    #[tactic(auto, using(table_steps::proofs::Values::knows_again))]
    fn collect_one(
        &self,
        seat: &mut TableSeat<V>,
        task: u32,
        cause: Cause,
        next: usize,
        inputs: &mut Inputs<V>,
    ) -> Step<V>
        requires table { seat.old.table_id ≡ self.now.table }
        requires view { seat.old.me
            ≡ (
              collecting_view task cause (taken_in seat.old.me.0) (parts_found inputs.old)
                  (left_in seat.old.me.0),
              [],
            ) }
        requires known { Knows seat.old.values (values_in (given_in inputs.old)) }
        requires next { next ≡ length (taken_in seat.old.me.0) }
        requires parts { length (parts_found inputs.old) ≡ length (taken_in seat.old.me.0) }
        requires room { length (parts_found inputs.old) + length (left_in seat.old.me.0)
            ≤ room_in inputs.old }
        ensures table { seat.new.table_id ≡ seat.old.table_id }
        ensures home { seat.new.me.1 ≡ [] }
        ensures known { Knows seat.new.values (values_in (given_in inputs.new)) }
        ensures few { next < 4294967296 }
        ensures step { CollectsOne self.now.table task cause (taken_in seat.old.me.0)
            (left_in seat.old.me.0) inputs.old seat.old.found result seat.new.me.0 inputs.new
            seat.new.found }
    {
        self.words.learn(seat);
        let Some(edge) = self.edge_at(task, cause, next) else {
            return Step::NoneLeft;
        };
        let is_last = self.edge_at(task, cause, next + 1).is_none();
        inputs.add(self.words.fetch(seat, edge));
        let found = self.words.take_token(seat, edge);
        let made = self.count_again(seat, task, cause, edge, found);
        Step::Taken(made, is_last)
    }

    // Counts an edge again where it is a strong one and had another token.
    #[tactic(auto, using(table_steps::proofs::Values::knows_again))]
    fn count_again(
        &self,
        seat: &mut TableSeat<V>,
        task: u32,
        cause: Cause,
        edge: u32,
        found: u64,
    ) -> Option<Fresh<V>>
        requires table { seat.old.table_id ≡ self.now.table }
        requires home { seat.old.me.1 ≡ [] }
        requires ready { cause ≡ Strong → 1 < found
            → CountsNext self.now.net task edge seat.old.me.0 }
        requires in_range { cause ≡ Strong → task < length self.now.net.tasks }
        requires weak { cause ≢ Strong → without_count seat.old.me.0 ≡ seat.old.me.0 }
        requires few { found ≤ 1 → without_count seat.old.me.0 ≡ seat.old.me.0 }
        ensures table { seat.new.table_id ≡ seat.old.table_id }
        ensures view { seat.new.me ≡ (without_count seat.old.me.0, []) }
        ensures known { Knows seat.new.values seat.old.values }
        ensures fresh { IfSome result (λ fresh. fresh ≡ fresh_state self.now.table task Strong) }
        ensures last { IsTrue (is_some result) → AreNoneLeft task (without_count seat.old.me.0)
            × (cause ≡ Strong) }
        ensures found { (before : List ℕ) → seat.old.found ≡ found ∷ before
            → TakesToken cause (is_some result) before seat.new.found }
    {
        if cause != Cause::Strong || found <= 1 {
            return None;
        }
        self.count(seat, task, edge)
    }

    // Where an edge ends, and how.
    fn target(&self, edge: u32) -> Target
        requires { edge < length self.now.net.edges }
        ensures task { result.task ≡ target self.now.net edge }
        ensures in_range { result.task < length self.now.net.tasks }
        ensures weak { result.weak ≡ is_weak self.now.net edge }
    {
        let task = self.words.net.edges()[edge as usize].to;
        let weak = self.words.net.is_weak(edge);
        Target { task, weak }
    }

    // The edge of a release at a place.
    fn edge_at(&self, task: u32, cause: Cause, place: usize) -> Option<u32>
        requires { MayBeReleased self.now.net task cause }
        ensures { result ≡ slice_get (edges_of self.now.net task cause) place }
    {
        match cause {
            Cause::Source => None,
            Cause::Strong => self.words.net.strong_in(task).get(place).copied(),
            Cause::Weak(edge) => { if place == 0 { Some(edge) } else { None } }
        }
    }
}
