// Tasks whose in-edges don't fit together.
ghost use Rattle.std.specs.Prelude.{◌↔◌, ◌<◌, IsTrue, length};
ghost use Rattle.pitfall_check.specs.Pitfalls.{IsMixed, HasManyConditions};

use crate::ends::edge_from;
use task_graph::Net;

/// Whether a task has strong and weak in-edges.
pub fn is_mixed(net: &Net, task: u32) -> bool
    requires { task < length net.now.tasks }
    ensures { IsTrue result ↔ IsMixed net.now task }
{
    !net.strong_in(task).is_empty() && !net.weak_in(task).is_empty()
}

/// Whether a task has weak in-edges from two different tasks.
pub fn has_many_conditions(net: &Net, task: u32) -> bool
    requires { task < length net.now.tasks }
    ensures { IsTrue result ↔ HasManyConditions net.now task }
{
    let edges = net.weak_in(task);
    for edge in edges {
        if edge_from(net, *edge) != edge_from(net, edges[0]) {
            return true;
        }
    }
    false
}
