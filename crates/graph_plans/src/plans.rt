// The plan that a graph file stands for.
use crate::ops::Op;
use outside_io::{Bytes, List};
use std::sync::Arc;
use task_graph::Net;

/// A graph: what its tasks do, and the net that says in which order.
#[derive(Drop)]
pub struct Graph {
    /// Empty for the top graph.
    pub name: Bytes,
    /// The tasks' names, by their numbers in the net.
    pub names: List<Bytes>,
    /// What the tasks do, by their numbers.
    pub ops: List<Op>,
    /// The semaphores' names, by their numbers.
    pub sem_names: List<Bytes>,
    pub net: Arc<Net>,
}

/// What a graph file stands for.
#[derive(Drop)]
pub struct Plan {
    pub top: Graph,
    /// The graphs of tasks that are modules, by their numbers.
    pub modules: List<Graph>,
    /// The names of the texts that the tasks read, each once, in the order in which they are first mentioned.
    pub texts: List<Bytes>,
}
