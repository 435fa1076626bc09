//! A run of a job over a table of atomic words: what becomes of one release.
//!
//! A `TableRun` is a job with the table of its net. Whoever has a release takes it through the calls below, and others
//! may do so with other releases of the run at the same time. Each call takes what the one before it has returned; none
//! waits or takes a lock.
//!
//! - `take_up` collects the tokens of the release, unless it was parked and has them. Where the task's edges hold more
//!   tokens, it is released again.
//! - `take_units` takes a unit of each semaphore that the task takes. Where one has none, `park` looks once more and
//!   parks the turn in a yard, which the caller has under a lock (`semaphore_turns`).
//! - `attempt` starts the task and does its work, where it may start. Of an `Attempt` at most the Start is in the
//!   journal yet.
//! - `conclude` draws the End, Fault or Drop, and makes the releases that follow, for which the caller has made room
//!   (`Attempt::room`). It takes no memory, so it can't be refused.
//! - `gather` adds the turn, which is done then, to others, among which there is room for it (`DoneTurns`), and `keep`
//!   gives these to the keeper.
//!
//! `settle` decides what becomes of the parked turns where nothing else is left to do.
//!
//! A task's work may be a job of its own. Then `attempt` begins a run of that job, with a table of its own, and the
//! start stays open (`InnerBegun`, `OpenStart`); only a run in which nothing is to be done is over at once. Its
//! releases are the caller's affair. When the run is over `resume` comes in place of `attempt`: the run is gathered
//! into the value of the start's End, or is a Fault if it was cut short.
//!
//! A `RunKeeper` has the keeper of a run, and the runs that were made inside it. All that it took in is allowed by the
//! job, so that the run that it hands out may be kept (`finish`).
//!
//! A start with its End or Fault is a span (`count_spans`, `span_of`). A run that is handed out has as many spans as
//! its keeper took in, with those of the runs inside it. A run may have a book of spans (`span_book`), which the runs
//! inside it share; here it is only known by its name.
//!
//! # Where its definitions are
//!
//! The layer above knows a run by the name of its table and its job (`specs/RunKeys.antt`). What the job allows to
//! become of a release is in `specs/AllowedFates.antt`, which releases follow in `specs/StepReleases.antt`, and what is
//! known of the journal in `specs/JournalFacts.antt`. `specs/Begins.antt` says how a run begins,
//! `specs/CollectedRelease.antt` what is taken up, `specs/Attempts.antt` what a release has come to before it is
//! concluded, `specs/Openings.antt` what `attempt` answers, `specs/OpenStarts.antt` for which run a start is open, and
//! `specs/Runs.antt` and `specs/DoneTurns.antt` which turns are done, and `specs/Spans.antt` counts their spans. Which
//! edges made no release is known to the table alone.
#![tactic(auto)]

mod attempt;
mod done_turns;
mod gives;
mod open_start;
mod run_closing;
mod run_keeper;
mod run_work;
mod spans;
mod table_run;

pub use attempt::{Attempt, Ending, InnerBegun, Outcome, Tried};
pub use done_turns::{DoneTurn, DoneTurns};
pub use open_start::OpenStart;
pub use run_keeper::RunKeeper;
pub use spans::{count_spans, span_of};
pub use table_run::{Begun, TableRun, TakenUp, add_again};
