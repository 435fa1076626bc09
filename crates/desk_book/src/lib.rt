//! The books of a desk of which several threads ask for runs of the same graphs, and whose turn it is: in Taskflow runs
//! of one graph that several threads submit take turns.
//!
//! A caller asks for so many rounds of a graph and gets the ask's number. Whoever serves takes the first ask whose turn
//! has come, has its rounds run elsewhere (`run_desk`), and hands them in. What happened is the desk's history: each
//! ask, and where it was taken and where it ended (`DeskEntry`).
//!
//! # The books and their changes
//!
//! A `DeskBook` has the history, how far each ask is, and for each graph the ask whose turn has come. Its type's
//! invariant is that the history is right (`IsDeskHistory`): an ask is taken once, when each earlier ask of its graph
//! has ended, and it ends once, after it was taken. So no two asks of one graph are taken at once, and they are taken
//! in their order; an ask of a graph that is busy is passed over for one of another. A `DeskState` has the books and
//! the rounds of each ask that has ended, which are those that were asked for (`RunsFit`). It is changed by `ask_in`,
//! `take_in` and `end_in`, and each says exactly what it does.
//!
//! To take an ask costs as much as there are graphs. An ask, and an end, look for the ask of the same graph next to it;
//! together they look at no more asks than there are, for each graph. The memory for the entries that are to come of an
//! ask is taken by the ask: three entries for each (`entries_left`).
//!
//! # Tickets
//!
//! What is outstanding is in a book of `tickets` under the lock: each ask that was taken and has not ended, and each
//! caller's pass. Whoever comes back with the ticket of an ask learns that it has not ended. Whoever comes back with
//! the ticket of a pass learns that what the pass has seen is a prefix of the history, and that it has seen all asks of
//! its caller.
//!
//! # The desk
//!
//! A `Desk` has the state in a `KeyedLock`, and the jobs. `ask`, `take` and `end` take the lock with a caller's
//! `DeskPass`, which has then seen the whole history, and their answers are told in terms of it. No lock is held
//! between `take` and `end`. `finish` gives the history and all rounds if each ask has ended. Since a pass has seen all
//! asks of its caller, and is given back there, the asks of each caller are just those that its pass has kept.
//!
//! Not proved: that an ask is ever taken, and that a call returns.
#![tactic(auto)]

mod book;
mod desk;
mod desk_error;
mod desk_run;
mod entry;
mod finish;
mod laws;
mod looks;
mod opening;
mod outstanding;
mod parts;
mod pass;
mod state;
mod take_answer;
mod taken;
mod turn;

pub use book::DeskBook;
pub use desk::{Desk, MAX_TIMES};
pub use desk_error::DeskError;
pub use desk_run::DeskRun;
pub use entry::{Ask, DeskEntry};
pub use finish::DeskEnd;
pub use laws::takes_turns;
pub use opening::Opening;
pub use outstanding::Outstanding;
pub use parts::{DeskParts, MAX_CALLERS, MAX_GRAPHS};
pub use pass::DeskPass;
pub use state::{DeskState, MAX_ASKS};
pub use take_answer::TakeAnswer;
pub use taken::Taken;
pub use turn::Turn;
