//! A machine of one thread that keeps a legal journal of a run: a reference interpreter of a net.
//!
//! A `Machine` decides on no order: whoever leads it asks for a step, and it appends the entry where the rules allow
//! it, and else answers which rule would be broken, the first one in the order of `legal_run`. Beside the journal it
//! keeps what the rules count there, so that a step costs time in proportion to the edges and semaphores of its task.
//! The program doesn't use it: tests hold the judge and the engine against it, and benchmarks measure it.
//!
//! - `machine` checks an entry, appends and counts it. `waiting` has what its starts find.
//!
//! The layer above sees a machine as a `MachineState`: the net, the limit of starts and the journal. `specs/` has what
//! the calls do: `Machine.antt` says what a step does, `Ready.antt` which releases are left. Invariants are in
//! `specs/inside/`.
#![tactic(auto)]

mod machine;
mod machine_error;
mod ready;
mod waiting;

pub use machine::Machine;
pub use machine_error::MachineError;
pub use ready::ReadyRelease;
