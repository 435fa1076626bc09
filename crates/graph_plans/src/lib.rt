//! Plans: what a graph file stands for, without a word on how a file writes it.
//!
//! A plan has the graphs of a file, what their tasks do, and the names of the texts that they read. The layers above
//! see it as its rows (`plan_rows`) and know that a plan that was read keeps the rules of `IsPlan`. The definitions
//! are in `specs/`: `Operations` says of which shape the task of an operation is and what an operation may name,
//! `PlanEdges` what an edge is in a net, `PlanRows` has the rows of a plan with their rules and limits, `ModuleUses`
//! says which modules use which and what a chain of uses and a cycle are, and `Sources` says which plans have no task
//! to begin with.
#![tactic(auto)]

mod edges;
mod ops;
mod pipes;
mod plans;
mod sources;
mod spots;

pub use edges::{Edge, add_edges};
pub use ops::{Op, TextOp};
pub use pipes::{LineOp, PipePlan};
pub use plans::{Graph, Plan};
pub use sources::no_source;
pub use spots::Spot;
