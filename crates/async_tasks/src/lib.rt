//! Tasks that are added while others run, each after some of those added before: Taskflow's dependent async tasks.
//!
//! A caller adds a piece of work (`AsyncWork`) together with tasks that were added earlier, after which it runs, and
//! gets the task's number. Workers take ready tasks one by one. What was added and what happened is the book's history:
//! its rows, one for each add, and its events, the start and the end of each task.
//!
//! # The state and its changes
//!
//! A `BookState` has the rows, the events, the work of each task and how far it is. It is changed by `add_in`,
//! `start_in` and `end_in`, and each says exactly what it does. Its type's invariant is that the history is right
//! (`IsHistory`): a task starts once, after its row was added and after all that it names ended, and it ends once,
//! after its start. It finds the values of the tasks that it names, in the order in which they are named, and its value
//! is one to which its work may come on them.
//!
//! Whether a task may start is looked up where it starts, by one look at each task that it names. `Links` only says
//! when a start is tried: it counts how many tasks each one waits for, and has a stack of those that are ready. An add
//! costs as much as it names tasks, and so does a start; an end costs as much as tasks name the one that ends. The
//! memory for the two events of a task and for its value is taken by its add.
//!
//! # Tickets
//!
//! What is outstanding is in a book of `tickets` under the lock: each open start, each caller's pass, and each end that
//! was recorded. Whoever comes back with the ticket of a start learns that the start is still open, and that its task's
//! work and inputs are what it took along. Whoever comes back with the ticket of a pass learns that what the pass has
//! seen is a prefix of the rows, and that it has seen all rows of its caller. A seat has the ticket of the end of the
//! task that it ran last, and takes it back where the next one ends: so it learns that the next end comes later.
//!
//! # The book, its callers and its workers
//!
//! An `AsyncBook` has the state in a `KeyedLock` and a list of ready tasks of `ready_deques`. `add` takes the lock with
//! a caller's `Pass`: it looks into the book, so that the pass has seen all of its rows, and adds the task. A worker's
//! `AsyncSeat` takes a ready task in `step`: it starts it under the lock, does its work without the lock, and ends it
//! under the lock. It names the task whose end it was given there. What becomes ready by that is put into the worker's
//! deque in the same call. Where memory for that is refused the task goes back to the stack of the state, and a later
//! call queues it.
//!
//! Little is done while the lock is held: the state lies in a box, which is all that the lock moves, and the list of
//! the tasks that an add names is made before. Of the tasks that become ready one is queued after; where an end makes
//! several ready, the others are queued under the lock. The work that ended and its inputs are dropped after. So the
//! book calls `add_in` and `end_in` by forms of them that are given the list, and that give back what is to be dropped.
//!
//! Calls come to the lock through a gate, one at a time (`LockGate`), and a call that finds it closed keeps away from
//! it for some microseconds: the state, which is in the cache of one processor, goes to another the less often. A seat
//! that finds nothing to do again and again sleeps between its looks (`Patience`). No proof rests on either.
//!
//! `finish` gives the run where each task ended. Since a pass has seen all rows of its caller, and is given back there,
//! the rows of each caller are just those that its pass has kept.
//!
//! Not proved: that a task that became ready is queued, that a seat is served, and that a call returns.
#![tactic(auto)]

mod book;
mod finish;
mod history;
mod inputs;
mod links;
mod lock_gate;
mod opening;
mod outstanding;
mod parts;
mod pass;
mod patience;
mod ready_task;
mod recorded_end;
mod run;
mod seat;
mod shelved;
mod stage;
mod started;
mod state;
mod work;

pub use book::AsyncBook;
pub use finish::Finished;
pub use history::{AddRow, TaskEvent};
pub use opening::Opening;
pub use outstanding::Outstanding;
pub use parts::{AsyncParts, MAX_CALLERS};
pub use pass::Pass;
pub use recorded_end::RecordedEnd;
pub use run::AsyncRun;
pub use seat::{AsyncSeat, AsyncStep};
pub use stage::Stage;
pub use started::Started;
pub use state::{AddError, BookState, MAX_AFTER, MAX_TASKS};
pub use work::AsyncWork;
