//! Rounds: a job that the same workers run again and again, each time with what the run before came to.
//!
//! A `Team` is the caller's thread alone, or a crew (`worker_seat`) whose seats are entered anew for each run.
//! `run_times` and `run_until` have it run a job, then the job that follows (`Recurs`), until there were as many rounds
//! as asked for, an `Until` is met, or something was cut short in a run. A round that was run to its end is kept, also
//! where an allocation fails later.
//!
//! The layer above sees the rounds as a list of runs, by `AreAllRounds` and `AreFirstRounds` of `nested_runs`; of a
//! team its watchers and whether it may run a job (`specs/Teams.antt`); and what watchers were told
//! (`specs/Told.antt`). It is not proved that a run is ever closed.
#![tactic(auto)]

mod rounds;
mod team;
mod until;

pub use rounds::{Short, run_times, run_until};
pub use team::Team;
pub use until::Until;
