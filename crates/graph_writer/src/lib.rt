//! Graph files as they are written.
//!
//! `write_graph` gives bytes of the second version that stand for a plan, for each plan that some file stands for.
//! `WrittenPlan` says which bytes. What is written is read as the same plan, by the definition of what is read in
//! `graph_file`.
#![tactic(auto)]

mod op_writer;
mod pipe_writer;
mod writer;

pub use writer::write_graph;
