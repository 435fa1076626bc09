//! Jobs whose values are numbers, and runs of them by crews. They are no part of a program: they serve tests of runs
//! and measurements.
//!
//! A task counts one more than the first number that it finds, so that a value says how many starts led to it, and
//! a task that chooses goes by that number. A Nested task may answer a job of another net, whose run is gathered to the
//! number of its entries.
#![tactic(auto)]

mod crews;
mod job;

pub use crews::run_by_workers;
pub use job::{NumberJob, START_LIMIT};
