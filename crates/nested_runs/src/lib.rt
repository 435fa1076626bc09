//! What runs inside runs amount to: why a run came to its end, and how many starts and spans it has with those inside
//! it. The net of a run that is spread over parts. And which runs are rounds, one after another.
//!
//! The layer above sees the reason of a run as a function of the run, `run_reason` in `specs/Reasons.antt`, and so its
//! totals (`specs/Totals.antt`). Rounds are a list of runs: `AreFirstRounds` and `AreAllRounds` in `specs/Rounds.antt`.
//! How rounds come about is another crate's affair (`topology_runs`).
#![tactic(auto)]

mod faults;
mod reasons;
mod rounds;
mod spread;
mod totals;

pub use faults::Faulted;
pub use reasons::{Reason, reason_of};
pub use rounds::Recurs;
pub use spread::{MAX_PARTS, SpreadError, spread_net};
pub use totals::{inner_starts, spans, starts};
