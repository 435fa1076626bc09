// The turns of a table, by what they have still to do. Each knows it by a seat, which has no bytes. The seat has the
// numbers too that its steps found, of which contracts speak, and knows values of Ends.
ghost use Rattle.std.specs.Prelude.{◌≡◌};

use crate::fates::Fate;
use crate::parts::{FoundParts, Inputs};
use crate::shares::Shares;
use join_words::Ins;
use journal_rules::Cause;
use keyed_lock::Keyed;
use outside_io::List;
use std::marker::Model;
use std::sync::Arc;
use table_steps::{TableSeat, Words};

/// The words of a run's net, which many threads step at once.
pub struct NetTable<V> {
    pub(crate) words: Words<V>,
    // Whether each edge is given one token at most, since none is weak and none begins with one.
    pub(crate) gives_once: bool,
}

// Written out, so that it is proved here alone and not in each crate above.
impl<V: Drop> Drop for NetTable<V> {
    fn drop(self) {
        let NetTable {
            words,
            gives_once: _,
        } = self;
        drop(words);
    }
}

impl<V> Model for NetTable<V> {
    ghost use Rattle.std.specs.Prelude.{IsTrue};
    ghost use Rattle.std.specs.Arc.{arc_value};
    ghost use Rattle.journal_rules.specs.OnceNets.{IsOnceNet};
    ghost use Rattle.join_tables.specs.States.{TableState};

    ghost Value = { TableState };

    ghost view = { λ t. record {
      table = t.words.table.shared.table_id;
      net = arc_value t.words.net;
      limit
          = t.words.table.shared.key.limit;
    } };

    ghost invariant = { λ t. IsTrue t.gives_once → IsOnceNet (arc_value t.words.net) };
}

impl<V> Keyed for NetTable<V> {
    ghost use Rattle.atomic_table.specs.Seated.{TableId};

    ghost Key = { TableId };

    ghost key = { λ t. t.table };
}

/// A release of a task, whose join word is not set again.
#[derive(Drop)]
pub struct Fresh<V> {
    pub(crate) seat: TableSeat<V>,
    pub(crate) task: u32,
    pub(crate) cause: Cause,
}

impl<V> Model for Fresh<V> {
    ghost use Rattle.std.specs.Prelude.{◌≡◌, []};
    ghost use Rattle.join_tables.specs.States.{FreshState, fresh_state};
    ghost use Rattle.join_tables.specs.inside.Seated.{fresh_view};

    ghost Value = { FreshState };

    ghost view = { λ f. fresh_state f.seat.table_id f.task f.cause };

    ghost invariant = { λ f. (f.seat.me ≡ (fresh_view f.task f.cause, [])) × (f.seat.found ≡ []) };
}

/// A release that collects a token of each of its edges.
#[derive(Drop)]
pub struct Collecting<V> {
    pub(crate) seat: TableSeat<V>,
    pub(crate) task: u32,
    pub(crate) cause: Cause,
    pub(crate) next: usize,
    pub(crate) inputs: Inputs<V>,
}

impl<V> Model for Collecting<V> {
    ghost use Rattle.std.specs.Prelude.{◌≡◌, ◌+◌, ◌≤◌, [], length};
    ghost use Rattle.table_steps.specs.Values.{Knows, values_in};
    ghost use Rattle.join_tables.specs.Inputs.{given_in, parts_found, room_in};
    ghost use Rattle.join_tables.specs.States.{CollectingState, collecting_state};
    ghost use Rattle.join_tables.specs.inside.Seated.{collecting_view, taken_in, left_in};

    ghost Value = { CollectingState };

    ghost view = { λ c. collecting_state c.seat.table_id c.task c.cause (left_in c.seat.me.0)
        c.seat.found };

    ghost invariant = { λ c. (c.seat.me
        ≡ (
          collecting_view c.task c.cause (taken_in c.seat.me.0) (parts_found c.inputs)
              (left_in c.seat.me.0),
          [],
        )) × (c.next ≡ length (taken_in c.seat.me.0))
        × (length (parts_found c.inputs) ≡ length (taken_in c.seat.me.0))
        × (length (parts_found c.inputs) + length (left_in c.seat.me.0) ≤ room_in c.inputs)
        × Knows c.seat.values (values_in (given_in c.inputs)) };
}

/// A release that has collected all its tokens.
#[derive(Drop)]
pub struct Turn<V> {
    pub(crate) seat: TableSeat<V>,
    pub(crate) task: u32,
    pub(crate) cause: Cause,
    pub(crate) inputs: Inputs<V>,
}

impl<V> Model for Turn<V> {
    ghost use Rattle.std.specs.Prelude.{◌≡◌, [], length};
    ghost use Rattle.table_steps.specs.Values.{Knows, values_in};
    ghost use Rattle.join_tables.specs.Inputs.{given_in, parts_found};
    ghost use Rattle.join_tables.specs.States.{TurnState, turn_with};
    ghost use Rattle.join_tables.specs.inside.Seated.{turn_view, taken_in, refusal_of, held_of};

    ghost Value = { TurnState };

    ghost view = { λ t. turn_with t.seat.table_id t.task t.cause (refusal_of t.seat.me.0)
        (held_of t.seat.me.0) t.seat.found };

    ghost invariant = { λ t. (t.seat.me
        ≡ (
          turn_view t.task t.cause (taken_in t.seat.me.0) (parts_found t.inputs)
              (refusal_of t.seat.me.0) (held_of t.seat.me.0),
          [],
        ))
        × (length (parts_found t.inputs) ≡ length (taken_in t.seat.me.0))
        × Knows t.seat.values (values_in (given_in t.inputs)) };
}

impl<V> Keyed for Turn<V> {
    ghost use Rattle.atomic_table.specs.Seated.{TableId};

    ghost Key = { TableId };

    ghost key = { λ t. t.table };
}

/// A release that may start its task.
#[derive(Drop)]
pub struct StartTicket<V> {
    pub(crate) seat: TableSeat<V>,
    pub(crate) task: u32,
    pub(crate) cause: Cause,
    pub(crate) inputs: Inputs<V>,
}

impl<V> Model for StartTicket<V> {
    ghost use Rattle.std.specs.Prelude.{◌≡◌, [], length};
    ghost use Rattle.table_steps.specs.Values.{Knows, values_in};
    ghost use Rattle.join_tables.specs.Inputs.{given_in, parts_found};
    ghost use Rattle.join_tables.specs.States.{AdmittedState, admitted_state};
    ghost use Rattle.join_tables.specs.inside.Seated.{ticket_view, taken_in, held_of};

    ghost Value = { AdmittedState };

    ghost view = { λ t. admitted_state t.seat.table_id t.task t.cause (held_of t.seat.me.0)
        t.seat.found };

    ghost invariant = { λ t. (t.seat.me
        ≡ (
          ticket_view t.task t.cause (taken_in t.seat.me.0) (parts_found t.inputs)
              (held_of t.seat.me.0),
          [],
        ))
        × (length (parts_found t.inputs) ≡ length (taken_in t.seat.me.0))
        × Knows t.seat.values (values_in (given_in t.inputs)) };
}

/// A start that runs.
#[derive(Drop)]
pub struct Running<V> {
    pub(crate) seat: TableSeat<V>,
    pub(crate) task: u32,
    pub(crate) cause: Cause,
    pub(crate) place: u64,
    pub(crate) inputs: Inputs<V>,
}

impl<V> Model for Running<V> {
    ghost use Rattle.std.specs.Prelude.{◌≡◌, []};
    ghost use Rattle.table_steps.specs.Values.{Knows, values_in};
    ghost use Rattle.join_tables.specs.Inputs.{given_in, parts_found};
    ghost use Rattle.join_tables.specs.States.{RunningState, running_state};
    ghost use Rattle.join_tables.specs.inside.Seated.{running_view, shares_of, units_in};

    ghost Value = { RunningState V };

    ghost view = { λ r. running_state r.seat.table_id r.task r.cause r.place r.inputs.ins
        (units_in (shares_of r.seat.me.0)) r.seat.found };

    ghost invariant = { λ r. (r.seat.me
        ≡ (running_view r.task r.cause r.place (parts_found r.inputs) (shares_of r.seat.me.0), []))
        × Knows r.seat.values (values_in (given_in r.inputs)) };
}

/// A start of a task and its end: their places in the journal, what the start found, the value of the end, and the
/// edges that it gives.
#[derive(Drop)]
pub struct EndedStart<V> {
    pub task: u32,
    pub cause: Cause,
    pub start: u64,
    pub found: FoundParts<V>,
    pub value: Arc<V>,
    pub place: u64,
    pub gives: List<u32>,
    pub inner: bool,
}

/// A run that ended, and owes tokens.
#[derive(Drop)]
pub struct Owing<V> {
    pub(crate) seat: TableSeat<V>,
    pub(crate) ended: EndedStart<V>,
    pub(crate) next: usize,
    // An owner of its value for each edge that it has still to give.
    pub(crate) shares: Shares<V>,
}

impl<V> Model for Owing<V> {
    ghost use Rattle.std.specs.Prelude.{◌≡◌, [], drop, length};
    ghost use Rattle.std.specs.Arc.{arc_value};
    ghost use Rattle.table_steps.specs.Values.{Knows};
    ghost use Rattle.join_tables.specs.Values.{own_values};
    ghost use Rattle.join_tables.specs.States.{OwingState, owing_state};
    ghost use Rattle.join_tables.specs.inside.Seated.{owing_view, units_of};
    ghost use Rattle.join_tables.specs.inside.Sharing.{AreSharesOf, count_in, have_no_node};

    ghost Value = { OwingState V };

    ghost view = { λ o. owing_state o.seat.table_id o.ended (drop o.next o.ended.gives)
        (units_of o.seat.me.0) o.seat.found (have_no_node o.shares) };

    ghost invariant = { λ o. (o.seat.me
        ≡ (owing_view o.ended (drop o.next o.ended.gives) (units_of o.seat.me.0), []))
        × Knows o.seat.values (own_values o.ended)
        × (count_in o.shares ≡ length (drop o.next o.ended.gives))
        × AreSharesOf (arc_value o.ended.value) o.shares };
}

/// A turn that is done and owes nothing.
#[derive(Drop)]
pub struct Spent<V> {
    pub(crate) seat: TableSeat<V>,
    pub(crate) fate: Fate<V>,
}

impl<V> Model for Spent<V> {
    ghost use Rattle.std.specs.Prelude.{◌≡◌, []};
    ghost use Rattle.join_tables.specs.States.{SpentState, spent_state};
    ghost use Rattle.table_steps.specs.Values.{Knows};
    ghost use Rattle.join_tables.specs.Values.{known_values};
    ghost use Rattle.join_tables.specs.Keeping.{entries_of};
    ghost use Rattle.join_tables.specs.inside.Seated.{IsSpent};

    ghost Value = { SpentState V };

    ghost view = { λ s. spent_state s.seat.table_id s.fate };

    ghost invariant = { λ s. IsSpent (entries_of s.fate) s.seat.me.0 × (s.seat.me.1 ≡ [])
        × Knows s.seat.values (known_values s.fate) };
}

/// What collecting from one edge led to.
#[derive(Drop)]
pub enum Collected<V> {
    /// An edge is left.
    More(Collecting<V>),
    /// None is left.
    Last(Turn<V>),
    /// None is left, and tokens that are still there release the task again.
    LastAgain(Turn<V>, Fresh<V>),
}

/// What an admission led to.
#[derive(Drop)]
pub enum Admitted<V> {
    /// The task may start.
    Go(StartTicket<V>),
    /// All starts were admitted.
    Over(Turn<V>),
    /// A start of the run has faulted.
    Halted(Turn<V>),
}

/// What taking a unit led to.
#[derive(Drop)]
pub enum UnitTake<V> {
    /// The turn has the unit.
    Got(Turn<V>),
    /// There was none.
    NoUnit(Turn<V>),
}

/// What claiming a unit led to.
#[derive(Drop)]
pub enum Claim<V> {
    /// The start gives the unit back at its end.
    Granted(Running<V>),
    /// The unit isn't out.
    Refused(Running<V>),
}

/// What giving one edge led to.
#[derive(Drop)]
pub enum Gave<V> {
    /// An edge was given.
    Next(Owing<V>),
    /// An edge was given, and its target is released.
    Released(Owing<V>, Fresh<V>),
    /// No edge was left.
    Finished(Spent<V>),
}

impl<V: Drop> Fresh<V> {
    /// The task.
    pub fn task(&self) -> u32
        ensures { result ≡ self.now.task }
    {
        self.task
    }

    /// What released it.
    pub fn cause(&self) -> Cause
        ensures { result ≡ self.now.cause }
    {
        self.cause
    }
}

impl<V: Drop> Turn<V> {
    /// The task.
    pub fn task(&self) -> u32
        ensures { result ≡ self.now.task }
    {
        self.task
    }

    /// What released it.
    pub fn cause(&self) -> Cause
        ensures { result ≡ self.now.cause }
    {
        self.cause
    }
}

impl<V: Drop> Running<V> {
    /// The task.
    pub fn task(&self) -> u32
        ensures { result ≡ self.now.task }
    {
        self.task
    }

    /// The place of its Start in the journal.
    pub fn place(&self) -> u64
        ensures { result ≡ self.now.place }
    {
        self.place
    }

    /// What it found at its edges, in their order.
    pub fn ins(&self) -> &Ins<V>
        ensures { result.now ≡ self.now.ins }
    {
        &self.inputs.ins
    }
}

impl<V: Drop> Spent<V> {
    /// What became of the release, with the places of its entries in the journal.
    pub fn fate(&self) -> &Fate<V>
        ensures { result.now ≡ self.now.fate }
    {
        &self.fate
    }
}

impl<V: Drop> Owing<V> {
    /// The place of its End in the journal.
    pub fn place(&self) -> u64
        ensures { result ≡ self.now.ended.place }
    {
        self.ended.place
    }
}
