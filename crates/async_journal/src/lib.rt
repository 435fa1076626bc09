//! A run of async tasks as a run of a net: the net that its adds make, and the journal of its events.
//!
//! Each add is a plain task of the net, with an edge from each task that it names, in the order named. Each event is an
//! entry of the journal, at the same index: a start finds the values of the ends of the tasks named, and an end gives
//! the edges to all tasks that name it, those that were added after it too. The journal of a finished run is legal and
//! complete. So a run of async tasks can be judged and printed as any other.
#![tactic(auto)]

mod journal;
mod net;
mod places;

pub use journal::journal_of_events;
pub use net::net_of_adds;
