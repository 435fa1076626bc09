//! How a call of the program ends, and how that is reported on standard error.
//!
//! The layer above sees the statuses with their exit codes (`Status`), the reasons to stop before what was to be done
//! (`Stop`), and `put_note`, which writes the line of a status. It also finds here what its own output shares with that
//! line: the text for the reason of a run, and writes that are flushed. The definitions are in `specs/`: `Codes` has
//! the exit codes, `Statuses` which status reports what, `Stopping` how a call ends before what it was to do, `Reasons`
//! how the reason of a run is reported, with the names of tasks in `Paths`, `Notes` the line of a status, and
//! `Delivery` what becomes of bytes that are written and flushed.
#![tactic(auto)]

mod delivery;
mod note;
mod paths;
mod reasons;
mod status;
mod stop;

pub use delivery::{deliver, flushed};
pub use note::put_note;
pub use reasons::add_reason_line;
pub use status::{Noted, Status};
pub use stop::{Stop, graph_refusal};
