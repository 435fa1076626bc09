//! Journals of runs: what an entry is, the rules of journals, and what the rules count in one, kept entry by entry.
//!
//! A net is a marked graph (a Petri net) with weak edges. Ends put tokens on edges, and a release of a task uses them:
//! each of its strong in-edges gives one, or one weak edge alone, or a source is released once. So a token on each edge
//! generalises Taskflow's join counter, one number for each task. The journal is the run's trace: it lists what
//! happened, in order: starts, ends, faults, and releases that were dropped.
//!
//! `Counts` has in a few numbers what the rules say of the next entry: `rounds` of tokens, `releases` used, `units` of
//! semaphores, `open_starts`. A token costs constant time: of each task they have the least number of tokens that its
//! strong in-edges were given, and how many of these edges were given no more. Only where the last of them gets a token
//! are they all walked.
//!
//! The rules are in `specs/`, one a file. What the counts count is in `specs/inside/`: of the crates above only the
//! machine, the judge and lemmas cite it.
#![tactic(auto)]

mod counts;
mod entry;
mod laws;
mod limits;
mod once_nets;
mod open_starts;
mod releases;
mod rounds;
mod slots;
mod span;
mod units;

pub use counts::Counts;
pub use entry::{Cause, DropWhy, Entry, Journal, Part, Why};
pub use laws::{releases_left_are_allowed, what_waits_after_an_entry};
pub use limits::MAX_LIMIT;
pub use once_nets::is_once_net;
pub use open_starts::OpenStarts;
pub use releases::Releases;
pub use rounds::{Round, Rounds};
pub use span::Span;
pub use units::{UnitCount, Units, has_unit, is_listed, task_row};
