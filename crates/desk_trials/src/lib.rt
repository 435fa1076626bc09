//! A job whose tasks count, and a desk of two graphs with two callers; workers for a desk, and a desk of which some
//! threads ask while others serve it. They are no part of a program: they serve tests of desks and measurements.
#![tactic(auto)]

mod tick_desk;
mod tick_job;
mod trial;
mod workers;

pub use tick_desk::{Said, TwoCallers, callers_of, end, finish, take, two_callers};
pub use tick_job::TickJob;
pub use trial::{Demand, run_of_callers};
pub use workers::{ByThreads, team};
