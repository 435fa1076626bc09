//! The check of task graphs with conditions: how a graph can go wrong whatever its tasks do, found by its shape alone.
//!
//! The layer above calls `check` on a net whose edges begin without tokens and knows that the findings are exactly the
//! pitfalls of the net, in a fixed order. The check takes time and memory in proportion to tasks and edges, and no call
//! calls itself. The definitions are in `specs/`: `Walks` says what a walk reaches, `Pitfalls` what each finding says
//! of a net, and `Findings` in which order they come. They are computed on small nets in the crate `test_nets`, which
//! also holds the check against plain loops.
//!
//! Tasks on cycles are found by Kosaraju's two passes: a depth-first search along the strong edges notes the order in
//! which it finishes tasks, and from the last one on marks spread against the strong edges, one for each component. A
//! task is on a cycle exactly where a strong edge out of it leads to a task with its mark.
#![tactic(auto)]

mod chooses;
mod components;
mod conditions;
mod ends;
mod ends_by_task;
mod finding;
mod findings;
mod progress;
mod reach;
mod search;
mod spread;
mod way;

pub use finding::Finding;
pub use findings::check;
