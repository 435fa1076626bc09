// Whether a net has a task to begin with.
ghost use Rattle.std.specs.Prelude.{◌↔◌, IsTrue, MatchBool, SomeIndex, EachIndex};
ghost use Rattle.task_graph.specs.Net.{IsSource};
ghost use Rattle.task_graph.specs.Sources.{HasNoSource};

use crate::net::Net;

/// Whether there are tasks, each with an in-edge.
pub fn has_no_source(net: &Net) -> bool
    ensures { IsTrue result ↔ HasNoSource net.now }
{
    !net.tasks().is_empty() && !has_source(net)
}

// Whether a task has no in-edge.
fn has_source(net: &Net) -> bool
    ensures { MatchBool result (SomeIndex net.now.tasks (IsSource net.now))
        (EachIndex net.now.tasks (λ t. ¬ IsSource net.now t)) }
{
    let count = net.tasks().len() as u32;
    for task in 0..count {
        if net.is_source(task) {
            return true;
        }
    }
    false
}
