// The words of a table, where each of them is, and the kinds of step that load the one to which nothing is written.
ghost use Rattle.std.specs.Prelude.{◌≡◌, ◌+◌, ◌<◌, ℕ, List, Bool, length};
ghost use Rattle.std.specs.Arc.{arc_value};
ghost use Rattle.task_graph.specs.NetRows.{NetRows};
ghost use Rattle.table_steps.specs.inside.Accounts.{AllFitNotes, tokens_from, marks_from};
ghost use Rattle.table_steps.specs.inside.SeatViews.{values_held, StepsKnowing};
ghost use Rattle.table_steps.specs.Values.{Knows, HaveOneValueEach};
ghost use Rattle.table_steps.specs.OneJournal.{entries_in, AreInOneJournal};
ghost use Rattle.table_steps.specs.inside.Kinds.{MayTakeUp, taken_up};

use crate::parcels::Parcels;
use crate::table_seat::{NoteSeat, TableSeat};
use crate::view::{AccountsHold, LimitedNet, SeatView};
use atomic_table::{Play, Table};
use std::alloc::Global;
use std::marker::{Brand, PhantomData};
use std::sync::Arc;
use task_graph::Net;

// The words of the table. Each of the first five has a cache line to itself, since eight words fill one: the others lie
// eight apart. Nothing is ever written to word 0, which splits and joins read, and a turn that asks for what the net
// says of it.
const UNWRITTEN: usize = 0;

pub const CLOCK: usize = 8;

pub const LIVE: usize = 16;

pub const STARTS: usize = 24;

pub const HALT: usize = 32;

// From here on each semaphore has a word of units taken, then each a word of credits, then each edge the mark of its
// slot, then each a word of tokens, and each task its join word.
pub const FIRST_UNIT: usize = 40;

/// The words of a table, with its net.
#[derive(Drop)]
pub struct Words<V> {
    pub table: Table<Parcels<V>, SeatView<V>, LimitedNet, AccountsHold, Global>,
    pub net: Arc<Net>,
    pub limit: u64,
    // For lists without a parcel, which take no memory.
    pub alloc: Global,
    ghost same_limit: { limit ≡ table.shared.key.limit },
    ghost same_net: { arc_value net ≡ arc_value table.shared.key.net },
    ghost sized: { table.shared.table_id.words
        ≡ tokens_from (arc_value net) + length (arc_value net).edges + length
        (arc_value net).tasks },
}

/// What a step depends on besides.
pub trait StepFacts {
    ghost net: { NetRows };

    ghost limit: { ℕ };

    ghost edge: { ℕ };

    ghost task: { ℕ };
}

impl StepFacts for Brand {
    ghost use Rattle.std.specs.Prelude.{[]};

    ghost net = { record { tasks = []; edges = []; sems = [] } };

    ghost limit = { 0 };

    ghost edge = { 0 };

    ghost task = { 0 };
}

/// What an End is drawn with: the edges that it gives, whether it has an inner run, and its value, in a list of one.
pub trait EndFacts<V> {
    ghost gives: { List ℕ };

    ghost inner: { Bool };

    ghost values: { List V };
}

impl<V> EndFacts<V> for Brand {
    ghost use Rattle.std.specs.Prelude.{[], false};

    ghost gives = { [] };

    ghost inner = { false };

    ghost values = { [] };
}

struct Learns<A> {
    told: PhantomData<A>,
}

impl<V, A: StepFacts> Play<Parcels<V>, SeatView<V>> for Learns<A> {
    ghost then = { λ _ before n after. StepsKnowing
        (λ k m. (m.0 ≡ before.0.notes) × (m.1 ≡ before.1) × AllFitNotes A.net before.0.notes
        × (length A.net.edges < 4294967296)
        × AreInOneJournal A.net A.limit (entries_in before.0.notes)) before n after };
}

pub struct TakesUp<A> {
    told: PhantomData<A>,
}

impl<V, A: StepFacts> Play<Parcels<V>, SeatView<V>> for TakesUp<A> {
    ghost then = { λ _ before n after. StepsKnowing
        (λ k m. (m.0 ≡ taken_up A.net before.0.notes) × (m.1 ≡ before.1)) before n after };
}

impl<V> Words<V> {
    fn learn_told<A: StepFacts>(&self, seat: &mut NoteSeat<V>)
        requires table { seat.old.table_id ≡ self.now.table.shared.table_id }
        requires held { Knows seat.old.me.0.values (values_held seat.old.me.1) }
        requires told { (A.net ≡ arc_value self.now.net)
            × (A.limit ≡ self.now.table.shared.key.limit) }
        ensures table { (seat.new.table_id ≡ seat.old.table_id) × (seat.new.id ≡ seat.old.id) }
        ensures view { (seat.new.me.0.notes ≡ seat.old.me.0.notes)
            × (seat.new.me.1 ≡ seat.old.me.1) }
        ensures known { Knows seat.new.me.0.values seat.old.me.0.values }
        ensures held { Knows seat.new.me.0.values (values_held seat.new.me.1) }
        ensures one { HaveOneValueEach seat.new.me.0.values }
        ensures fits { AllFitNotes A.net seat.old.me.0.notes }
        ensures few { length A.net.edges < 4294967296 }
        ensures journal { AreInOneJournal A.net A.limit (entries_in seat.old.me.0.notes) }
    {
        self.table.shared.load::<Learns<A>>(seat, UNWRITTEN);
    }

    /// Learns that what the seat knows fits the net, and that the entries that it has are in one journal.
    pub fn learn(&self, seat: &mut TableSeat<V>)
        requires table { seat.old.table_id ≡ self.now.table.shared.table_id }
        ensures table { (seat.new.table_id ≡ seat.old.table_id) × (seat.new.id ≡ seat.old.id) }
        ensures view { (seat.new.me.0 ≡ seat.old.me.0) × (seat.new.me.1 ≡ seat.old.me.1) }
        ensures known { Knows seat.new.values seat.old.values }
        ensures one { HaveOneValueEach seat.new.values }
        ensures fits { AllFitNotes (arc_value self.now.net) seat.old.me.0 }
        ensures few { length (arc_value self.now.net).edges < 4294967296 }
        ensures journal { AreInOneJournal (arc_value self.now.net) self.now.table.shared.key.limit
            (entries_in seat.old.me.0) }
        ensures found { seat.new.found ≡ seat.old.found }
    {
        self.learn_told::<Brand>(&mut seat.seat)
    }

    fn take_up_told<A: StepFacts>(&self, seat: &mut NoteSeat<V>)
        requires table { seat.old.table_id ≡ self.now.table.shared.table_id }
        requires ready { MayTakeUp seat.old.me.0.notes }
        requires held { Knows seat.old.me.0.values (values_held seat.old.me.1) }
        requires told { A.net ≡ arc_value self.now.net }
        ensures table { seat.new.table_id ≡ seat.old.table_id }
        ensures view { (seat.new.me.0.notes ≡ taken_up A.net seat.old.me.0.notes)
            × (seat.new.me.1 ≡ seat.old.me.1) }
        ensures known { Knows seat.new.me.0.values seat.old.me.0.values }
        ensures held { Knows seat.new.me.0.values (values_held seat.new.me.1) }
    {
        self.table.shared.load::<TakesUp<A>>(seat, UNWRITTEN);
    }

    /// Takes up a release of a source task or by a weak edge.
    pub fn take_up(&self, seat: &mut TableSeat<V>)
        requires table { seat.old.table_id ≡ self.now.table.shared.table_id }
        requires ready { MayTakeUp seat.old.me.0 }
        ensures table { seat.new.table_id ≡ seat.old.table_id }
        ensures view { (seat.new.me.0 ≡ taken_up (arc_value self.now.net) seat.old.me.0)
            × (seat.new.me.1 ≡ seat.old.me.1) }
        ensures known { Knows seat.new.values seat.old.values }
        ensures found { seat.new.found ≡ seat.old.found }
    {
        self.take_up_told::<Brand>(&mut seat.seat)
    }

    /// How many starts the table may have.
    pub fn limit(&self) -> u64
        ensures { result ≡ self.now.table.shared.key.limit }
    {
        self.limit
    }

    // Where the join word of a task is.
    pub(crate) fn join_word(&self, task: u32) -> usize
        requires { task < length (arc_value self.now.net).tasks }
        ensures { result ≡ tokens_from (arc_value self.now.net) + length
            (arc_value self.now.net).edges + task }
    {
        self.first_edge() + self.net.edges().len() + task as usize
    }

    // Where the words of tokens begin.
    fn first_edge(&self) -> usize
        ensures place { result ≡ tokens_from (arc_value self.now.net) }
        ensures few { length (arc_value self.now.net).sems < 4294967296 }
        ensures room { length (arc_value self.now.net).edges < 9223372036854775808 }
    {
        self.first_mark() + self.net.edges().len()
    }

    // Where the marks of slots begin.
    pub(crate) fn first_mark(&self) -> usize
        ensures place { result ≡ marks_from (arc_value self.now.net) }
        ensures few { length (arc_value self.now.net).sems < 4294967296 }
    {
        FIRST_UNIT + self.net.sems().len() + self.net.sems().len()
    }

    // Where the word of an edge is.
    pub(crate) fn edge_word(&self, edge: u32) -> usize
        requires { edge < length (arc_value self.now.net).edges }
        ensures { result ≡ tokens_from (arc_value self.now.net) + edge }
    {
        self.first_edge() + edge as usize
    }
}
