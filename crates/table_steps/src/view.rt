// What the seats of a table know, and its rule.
ghost use Rattle.std.specs.Arc.{arc_value};

use crate::parcels::Parcels;
use atomic_table::TableRule;
use journal_rules::{Cause, Entry, Part};
use outside_io::List;
use std::sync::Arc;
use task_graph::Net;

/// What a seat knows of its turn, or has still to do. No value of it is made.
pub enum TurnDuty {
    /// It drew this place, for this entry.
    Told(u64, Entry),
    /// It holds a release of a task that is not set again.
    Fresh(u32, Cause),
    /// It holds a release of a task: it has taken the tokens of the first edges, and those of the others not yet.
    Collecting(u32, Cause, List<u32>, List<u32>),
    /// It may start one task.
    Ticket,
    /// The start that it drew at this place, of this task, runs.
    Open(u64, u32),
    /// It owes these edges a token each.
    Owes(List<u32>),
    /// This edge has a token that is not counted yet.
    Counting(u32),
}

/// What a list of semaphores is.
pub enum SemaphoreRole {
    /// Units that a turn has taken for a start.
    Held,
    /// A take that found no unit, to be undone.
    Undo,
    /// Units that an end gives back.
    Owed,
    /// Taken and put by a start, not credited.
    Both,
    /// Taken and not put, not credited.
    Credit,
    /// Taken and not put, credited.
    Credited,
    /// Put, and still to be claimed.
    Claim,
    /// Put, and claimed.
    Granted,
    /// A claim that was refused, to be undone.
    Refusing,
    /// A claim that was refused and undone.
    Denied,
    /// Without a unit, as a rest knows.
    Full,
}

/// What a seat knows besides.
pub enum SeatMark {
    /// A live turn.
    Live,
    /// A turn that is not counted yet.
    New,
    /// A turn that was refused at the limit.
    Over,
    /// A Fault is drawn, and the halt mark is to be set.
    ToMark,
    /// The journal has a Fault.
    Halted,
    /// The seat has all live turns.
    Alone,
    /// Besides, the journal has no Fault.
    Quiet,
    /// Besides, the journal has a Drop for want of a unit.
    Sticking,
    /// It has looked at the halt mark, which wasn't set, and may draw an admission.
    Asked,
}

/// What a turn has to do with the parcel of an edge.
pub enum Lot {
    /// It owes the edge, and has the parcel still to put.
    Ours,
    /// The same, and it holds the edge's slot.
    Putting,
    /// It owes the edge's token alone: the parcel is put, or left away.
    Put,
    /// It has to collect from the edge, and to take a parcel first.
    Awaited,
    /// The same, and it holds the edge's slot.
    Taking,
    /// It has taken the parcel, and the token not yet.
    Fetched,
    /// It has collected the token too.
    Found,
}

/// One of the facts of which a seat's view is the list. No value of it is made.
pub enum Note {
    /// What it knows of its turn, or has still to do.
    Duty(TurnDuty),
    /// Semaphores, and what they are to it.
    Sems(SemaphoreRole, List<u32>),
    /// What it knows besides.
    Has(SeatMark),
    /// The start at this place, of this task, would give back a unit of this semaphore that isn't out.
    Unfit(u32, u64, u32),
    /// What it has to do with the parcel of this edge, and which that is.
    Lies(Lot, u32, Part),
    /// It holds the slot of this edge, in which these parcels lay, the oldest first.
    Queued(u32, List<Part>),
}

/// The End at this place has this value. No value of it is made.
pub struct EndValue<V> {
    pub place: u64,
    pub value: V,
}

/// What a seat knows: its notes, and the values of Ends. No value of it is made.
pub struct SeatView<V> {
    pub notes: List<Note>,
    pub values: List<EndValue<V>>,
}

/// The net and the limit of a table.
#[derive(Drop)]
pub struct LimitedNet {
    pub net: Arc<Net>,
    pub limit: u64,
}

/// The accounts hold between any two steps, and no End has two values.
pub struct AccountsHold;

impl<V> TableRule<Parcels<V>, SeatView<V>, LimitedNet> for AccountsHold {
    ghost use Rattle.std.specs.Prelude.{[]};
    ghost use Rattle.table_steps.specs.inside.Accounts.{opening_notes};
    ghost use Rattle.table_steps.specs.inside.ValueAccounts.{KeepsTable};

    ghost holds = { λ limited. KeepsTable (arc_value limited.net) limited.limit };

    ghost first = { λ limited. record
        { notes = opening_notes (arc_value limited.net) limited.limit; values = [] } };
}
