//! What a run without conditions computes, whatever the number of workers and the order in which they start and end
//! tasks.
//!
//! There is no code here but laws, each the contract of an empty function, and what the laws of the crates above stand
//! on.
//!
//! - Runs (`laws.rt`): `one_thread_value` works the values of a net's tasks out by a recursion over the net, with no
//!   journal and no order of tasks. The laws say when the values in a run's journal are these. A journal is steady
//!   where no token is overtaken (`specs/Steady.antt`), and each journal of some nets is, that of a pipeline
//!   (`pipe_lines`) among them. The definitions are in `specs/`, in this order: `OneThreadValue`, `Starts`,
//!   `OneAnswer`, `Ends`, `Steady`, `Graphs`, `Rings`, `Cycles`, `Laws`.
//! - Jobs: what jobs come to whose tasks each come to one thing, with runs inside runs. The definitions, in this order:
//!   `PlainJobs`, `PlainLaws`; `TextAnswers` (what the tasks of text jobs come to). `report_laws` stands on this.
//! - The judge (`judge.rt`, `JudgeLaw`): it finds the journal of each kept run complete.
//!
//! The layer above cites these words in its clauses.
#![tactic(auto)]

mod examples;
mod judge;
mod laws;

pub use examples::{small_values, steady_runs, unsteady_runs};
pub use judge::judged_complete;
pub use laws::{
    all_values_of_steady_runs, graph_runs_are_decided, nets_of_rings_are_steady,
    once_nets_are_steady, pipe_nets_are_steady, pipe_nets_go_round, rings_go_round, values_grow,
    values_of_steady_runs,
};
