//! Task graphs: nets of tasks and edges, and the builder that makes them.
//!
//! A net is a marked graph with choices. Its edges hold tokens: a task is released when each of its strong in-edges
//! holds one, or when a weak edge into it holds one; an edge is weak where the task that it leaves chooses among its
//! successors. The tokens of each edge take the place of Taskflow's one join counter a task. Each task's out-edges,
//! strong and weak in-edges are compressed sparse rows (CSR): one list of all edges by task, and one of bounds.
//!
//! The layer above sees a `Net` as its three lists of rows (`NetRows`), knows that they are well formed (`IsNet`), and
//! looks up a task's edges in constant time. The definitions are in `specs/`: `NetRows` has the rows, `Net` weak and
//! strong edges and the lists of a task's edges, `Sources` in which nets nothing can begin, `Chosen` which edges an
//! answer chooses, and `NetBuilder` what the builder adds and what it refuses. They are computed on small nets in
//! `proofs/WorkedNets.antt`.
#![tactic(auto)]

mod builder;
mod choice;
mod counting_sort;
mod groups;
mod index;
mod net;
mod semaphores;
mod side;
mod sources;

pub use builder::{BuildError, MAX_NET_EDGES, MAX_NET_TASKS, MAX_SEMAPHORES, NetBuilder};
pub use net::{EdgeRow, Net, Shape, TaskRow};
pub use sources::has_no_source;
