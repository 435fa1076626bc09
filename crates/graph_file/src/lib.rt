//! Graph files: the JSON text of a task graph, and the plan that it stands for.
//!
//! Files have two versions, which differ in how tasks name their semaphores. `read_graph` gives the plan that bytes of
//! either version stand for, or the first reason why they stand for none. `graph_drafts` reads the fields; here names
//! are looked up, and what keeps a file from being a plan is refused. The layer above knows the plan as its rows
//! (`plan_rows` of `graph_plans`), by one definition: `read_plan` in `specs/PlanText.antt` is a walk over the file that
//! gives the plan or the first refusal.
#![tactic(auto)]

mod cycles;
mod graphs;
mod limits;
mod lookups;
mod nets;
mod numbers;
mod pipelines;
mod reader;
mod repeats;
mod rules;
mod texts;
mod uses;

pub use graph_drafts::{GraphError, Kind};
pub use numbers::TaskNumbers;
pub use reader::read_graph;
