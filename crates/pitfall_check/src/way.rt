// The ways in which marks spread.
ghost use Rattle.std.specs.Prelude.{◌≡◌, ◌<◌, IfOk, length, Some};
ghost use Rattle.pitfall_check.specs.inside.Steps.{AreEndsByEdge, edges_by, end_by};

use crate::ends::{edge_from, edge_to};
use outside_io::NoMemory;
use std::alloc::Global;
use task_graph::Net;

/// A way to go from a task to others.
#[derive(Clone, Copy)]
pub enum Way {
    /// Along each edge out of the task.
    Ahead,
    /// Against each strong edge into it.
    StrongBack,
}

impl Way {
    /// The edges of a task that the way follows.
    pub fn edges(self, net: &Net, task: u32) -> &[u32]
        requires { task < length net.now.tasks }
        ensures { result.now ≡ edges_by self net.now task }
    {
        match self {
            Way::Ahead => net.out_edges(task),
            Way::StrongBack => net.strong_in(task),
        }
    }

    /// Of each edge the task at its end. They lie side by side, so that a look-up reads less than the edge's row.
    pub fn ends(self, alloc: Global, net: &Net) -> Result<Vec<u32>, NoMemory>
        ensures { IfOk result (λ ends. AreEndsByEdge self net.now ends.items) }
    {
        let count = net.edges().len();
        let mut ends = Vec::with_capacity(alloc, count)?;
        for edge in 0..count as u32 {
            ends.push(self.end(net, edge))?;
        }
        Ok(ends)
    }

    // The task at the end of an edge.
    fn end(self, net: &Net, edge: u32) -> u32
        requires { edge < length net.now.edges }
        ensures end { end_by self net.now edge ≡ Some result }
        ensures in_range { result < length net.now.tasks }
    {
        match self {
            Way::Ahead => edge_to(net, edge),
            Way::StrongBack => edge_from(net, edge),
        }
    }
}
