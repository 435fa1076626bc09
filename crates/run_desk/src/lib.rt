//! A desk for many callers: several threads ask for runs of the same graphs, and runs of one graph take turns.
//!
//! A caller asks the `Desk` for so many rounds of a graph. Whoever serves (`serve`) takes the first ask whose turn has
//! come, has its rounds run by a `Team` of its own, and hands them in: asks of a graph of which a run is under way are
//! passed over. Several callers may serve, each with its own team, so that graphs run side by side. No lock is held
//! while a graph runs.
//!
//! The desk, its passes and what finishing it comes to are those of `desk_book`, and are handed on here. It is not
//! proved that an ask is ever served, nor that a run is ever closed.
#![tactic(auto)]

mod service;

pub use desk_book::{
    Ask, Desk, DeskEnd, DeskEntry, DeskError, DeskParts, DeskPass, DeskRun, MAX_ASKS, MAX_CALLERS,
    MAX_GRAPHS, MAX_TIMES,
};
pub use service::{Served, serve};
