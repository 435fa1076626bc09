//! The words of a table that releases the tasks of a net without a lock, and the kinds of step on them.
//!
//! The words are one table of `atomic_table`, which many threads step at once. Each kind of step is one operation on
//! one word, made by a seat; no step waits or takes memory.
//!
//! # The words
//!
//! - The clock: the entries drawn so far. A Start or an End is one step on it, and the number that it finds is the
//!   entry's place in the journal.
//! - The live turns, and the starts that were admitted.
//! - The halt mark, which is set once a start has faulted.
//! - Each semaphore's units that are taken, and its credits. These begin at 2^40, so that a claim that is refused wraps
//!   nothing.
//! - The mark of each edge's slot, which is set while a seat holds the slot.
//! - Each edge's tokens, and for each task its join word: how many of its strong in-edges are not counted at it.
//!
//! The hot words have a cache line each. Nothing is written to the first word, which splits and joins read, and a turn
//! that asks for what the net says of it.
//!
//! # The slots
//!
//! Each edge has a slot, a queue of parcels: what its starts will find there (`Given` of `join_words`). A seat takes
//! the slot, exchanges the queue for an empty one, puts a parcel behind the others or takes the oldest, lays what is
//! there then into the slot, and gives it back (`slot_steps.rt`). So parcels are found in the order in which they were
//! put, each once. A seat knows by its notes what it has still to do with a parcel (`Lot`): a release that is taken up
//! has one to fetch of each of its edges, and an end has one to deliver to each edge that it gives. A token is taken
//! after its parcel, and given after it. A seat that finds the slot held tries again, up to a bound (`TRIES`) that is
//! longer than a thread that was put aside waits for a processor. Only if the slot is held at each try does it give up:
//! then `Nothing` is fetched, or the parcel is dropped. On a calm edge no other seat holds the slot.
//!
//! # The values of Ends
//!
//! An End is drawn with its value, and a seat knows the values of some Ends (`EndValue`). The rule of the table is that
//! no End has two values: what the seats know of values, and the parcels in each slot, agree. So a seat learns a value
//! from a parcel that it fetches, and delivers a parcel only where it knows its value (`Knows`). It forgets none: a
//! seat that is split off knows the same values, and one that is joined with another knows those of both. The keeper's
//! seat, which takes in all turns, learns at each of them that it knows no two values of one End (`HaveOneValueEach`).
//! So where a start found the value of an End, it is the value with which that End was drawn.
//!
//! # What steps found
//!
//! A seat has the numbers that its steps found, the newest first (`TableSeat`). They have no bytes. Only this crate can
//! add one, and a function here adds the number that its own operation returned, where an answer of `join_tables`
//! depends on it: a load of the halt mark, of the live word or of a unit word, an admission, a token taken or given, a
//! count, a unit taken, a claim, and a turn taken off by the keeper. The others add none: what they find is among the
//! notes, or is of no use. A seat that is split off begins without a number, and one that is joined to another is gone
//! with its own.
//!
//! # Turns that are done
//!
//! What a turn that owes nothing knows goes to the keeper's seat, and its turn is taken off (`settle`): who finds one
//! live turn there has taken in the last. Or another turn that is done takes it in, and one of the two is taken off
//! (`gather`). The other stays live, so this is never the last, and needs no keeper.
//!
//! # What holds between any two steps
//!
//! The rule of a table is a record of accounts over the words, the seats and one journal: the entries that the seats
//! drew are those of a journal that is legal as far as the net decides (`ShapeLegal`), and whose starts find what they
//! may (`MeetsDataRule`); for each edge, the tokens given are those used, those in its word, those owed and those
//! collected; each release that is left is the duty of just one seat; the numbers admitted are the starts, the tickets
//! and the refusals; a unit word is the units that are out, held, owed or to be undone; a credit word is 2^40 and the
//! units that were credited and not claimed, less the refused claims that are to be undone; the live word is the number
//! of turns that are counted. So when the last turn is taken off, the journal is complete (`Complete`), and the keeper
//! has all of it. A rest that is alone has all live turns: so it knows that nothing runs, that no unit will be given
//! back, and, where it found no halt mark, that no start has faulted. Where a release was dropped for want of a unit,
//! one seat knows it, and that seat has all live turns.
//!
//! Of the journal this is said in public: in each state that the rule allows, the entries that the seats have are one
//! journal, each once (`one_journal_at_every_step`). By a step nobody learns more than what concerns its own seat:
//! `learn` says it of the entries of any live turn, and `settle` of all of the keeper's, whatever number it found
//! (`AreInOneJournal`).
//!
//! What a seat knows is a list of notes; each account is an equation between a word, counts of the journal and totals
//! of weights over all notes. A slot is home where its mark is clear, and else one seat holds it. The account of
//! parcels (`SlotPart`) says of each edge: each parcel is the token with which the edge begins, or that of an end that
//! gave it, and none is there twice, in the slot, with the seat that holds it, or with others; they are no more than
//! the tokens that were given. On a calm edge there is no parcel but the last one, which is with the seat that owes it,
//! in the slot, or with the seat that collects it.
//!
//! # Where its definitions are
//!
//! `join_tables`, above this crate, makes turns of the seats: a turn's type says what its seat's notes are, and each
//! call makes the steps that are due. It may know what `specs/` says, which its own contracts cite too: what an end may
//! give, which units a task holds, when a claim is refused, by which causes a task may be released, and what is known
//! of the journal between any two steps. It relies on the notes, the accounts and the kinds of step too, which are in
//! `specs/inside/`: a function here asks for what its kind of step asks of the seat's notes (`MayTake`, `MayEnd`), and
//! ensures what the kind leaves of them. `proofs/` shows that each kind keeps each account.
#![tactic(auto)]

mod credit_steps;
mod gather_steps;
mod halt_steps;
mod laws;
mod opening;
mod parcels;
mod rest_steps;
mod slot_steps;
mod table_seat;
mod token_steps;
mod turn_steps;
mod unit_steps;
mod view;
mod words;

pub use credit_steps::FIRST_CREDIT;
pub use laws::one_journal_at_every_step;
pub use opening::table_of;
pub use parcels::{Parcel, Parcels};
pub use table_seat::TableSeat;
pub use view::{
    AccountsHold, EndValue, LimitedNet, Lot, Note, SeatMark, SeatView, SemaphoreRole, TurnDuty,
};
pub use words::{FIRST_UNIT, LIVE, Words};
