//! Tables of atomic words that release the tasks of a net without a lock.
//!
//! Each edge of a net holds tokens, and a task is released when each of its strong in-edges holds one, or a weak edge
//! into it does. A table counts them in words of `atomic_table`, which many threads step at once; no call waits.
//! Whoever gives the last token that a task needs gets the release, and nobody else does.
//!
//! # The turns
//!
//! A turn knows what it has still to do by a seat, which has no bytes: `Fresh` is a release, `Collecting` one whose
//! tokens are being collected, `Turn` one that has all of them, `StartTicket` one that may start, `Running` a start
//! that runs, `Owing` an end that owes tokens, and `Spent` a turn that owes none. Each call takes the turn and gives
//! the next one, so no step can be made twice. A `Rest` has turns that wait for a unit, and a `SpentBatch` turns that
//! owe none and are not yet with the keeper.
//!
//! # Memory
//!
//! Only `new`, `absorb`, `finish` and the calls that make what a turn needs take memory: `room_for` makes room for what
//! the turn will find (`Inputs`), `share` an owner of its value for each edge that it will give,
//! `SpentBatch::make_room` room for its fate, and `Rest::with_room` room for turns that wait. So from `reset` to
//! `gather` no call can be refused.
//!
//! An owner comes in a parcel with a node, by which it can lie behind others in a slot. In a net without weak edges and
//! starting tokens each edge is given one token at most (`IsOnceNet`), so that nothing lies there yet: its owners go
//! into the slots bare.
//!
//! # The kinds of step
//!
//! - `reset` raises a task's join word by its strong in-edges (set again). It is made before the turn's tokens are
//!   given, so that in a cycle the tokens of the next round are counted afresh.
//! - `collect` takes the oldest parcel from an edge's slot (slot taken, slot given back), and then a token off the edge
//!   (token taken). Where a strong edge has another token, it is counted again at once (edge counted), which may
//!   release the task once more.
//! - `admit` reads the halt mark (halt load) and, where it isn't set, draws a number (admission drawn). `start` and
//!   `end` draw a place (Start drawn, End drawn).
//! - `take_unit` takes a unit of a semaphore (unit taken). Where it finds none it undoes its step (take undone).
//!   `put_unit` puts back a unit that a turn holds, and `return_unit` one that an end owes (unit back). A task's units
//!   go back after its End is drawn; a Fault gives none back.
//! - `credit` adds a credit of a unit that a start took and its task doesn't put (credit added), and `claim` takes one
//!   for a unit that the task puts and doesn't take (credit claimed). Where `claim` finds none the unit isn't out: it
//!   undoes its step (claim undone), and the start may fault with an over-release. A unit that a task takes and puts
//!   needs neither.
//! - `fault` draws a place and then sets the mark (Fault drawn, halt mark). A release that `admit` refused, at the
//!   limit or after a Fault, is used up by `drop_turn`, which draws a place (Drop drawn).
//! - `give` puts its End's value behind those in the edge's slot (slot taken, slot given back), and then adds a token
//!   to the edge (token given). A token of a weak edge is a release. The first token of a strong edge lowers its
//!   target's join word (edge counted), and who finds one there has made the last count: that is the release. A release
//!   is counted among the live turns (turn added), then goes to a seat of its own (split).
//! - `gather` gives what a turn knows to another one's seat, that of a batch (join), and takes one of the two off the
//!   live turns (turn taken off). It touches neither keeper nor lock, and never takes off the last.
//! - `absorb` gives what the turns of a batch know to the keeper (join), and takes the one that is live off (turn taken
//!   off). Who finds one live turn there has taken in the last. `finish` then puts each entry at its place.
//! - `rest_add` gives what a turn knows to a rest (join), and `rest_pop` hands the last one out again (split).
//!   `rest_check` reads the live turns (live load): a rest that finds the number of its own is alone, and then reads
//!   the halt mark (halt load). `rest_full` reads for it how many units of a semaphore are taken (unit load).
//! - `rest_drop` draws a place for the last turn of a rest that is alone (Drop drawn), after a Fault or for want of a
//!   unit, and takes it off the live turns where it isn't the only one (turn taken off). The last one's entries, and
//!   those of the others, go to the keeper.
//!
//! # What the steps found
//!
//! A turn has the numbers that its steps found, the newest first, and each answer says which numbers its call added.
//! They are in its seat, where no code here can put them: the step that finds a number adds it. A place that a step
//! drew is known by its entry in place of a number. A release that was dealt out, or handed out of a rest, begins
//! without a number. A rest has those of its seat, which is that of the first turn that it took in.
//!
//! # The values
//!
//! The value of an End is shared, never copied: `end` takes its owners, which were made before, `give` puts one of them
//! behind those in the slot of each edge that the End gives, and `collect` takes out the oldest that lies there. So a
//! start finds at an edge the value of an End that gave it or the token with which the edge began, in the order in
//! which they were put, or nothing where the slot was held at each of many tries (`Ins`). When it has ended only the
//! parts are left of what it found (`FoundParts`), and contracts alone still know the values. The keeper has the value
//! of each End that it took in.
//!
//! # The journal
//!
//! Nobody has the journal while a run goes on: each turn knows its own entries, and the keeper those of the turns that
//! it took in. But there is one at each moment. `start`, `end`, `fault` and `drop_turn` ensure that the turn's entries
//! are in one journal that is legal as far as the net decides and whose starts find what they may (`AreInOneJournal`),
//! and `absorb` ensures it, where it takes the turns in, of all entries that the keeper has, the Drops of a rest among
//! them.
//!
//! # Where its definitions are
//!
//! The words, the accounts that hold between any two steps on them, and the kinds of step are those of `table_steps`,
//! below this crate. `specs/` says what contracts cite, `specs/inside/` what the seat of each turn knows. Whoever uses
//! a table may know what a turn's state says and what each call answers; a journal that the keeper hands out is legal
//! as far as the net decides, its starts find what they may, and it is complete. An entry of a start names the Ends
//! whose values it found, by their places.
#![tactic(auto)]

mod batch;
mod calls;
mod credit_calls;
mod entry_row;
mod fates;
mod halts;
mod keeper;
mod merge;
mod opening;
mod parts;
mod releases;
mod rests;
mod shares;
mod turns;
mod unit_calls;

pub use batch::SpentBatch;
pub use fates::{Dropping, Failure, Fate};
pub use keeper::{FinishedRun, Keeper, Recorded, RecordedValue, Remaining};
pub use opening::Opening;
pub use parts::{FoundParts, Inputs};
pub use rests::{Checked, Parked, Rest, RestDrop, UnitLook};
pub use shares::SharedValue;
pub use turns::{
    Admitted, Claim, Collected, Collecting, EndedStart, Fresh, Gave, NetTable, Owing, Running,
    Spent, StartTicket, Turn, UnitTake,
};
