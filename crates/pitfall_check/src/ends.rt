// The ends of an edge.
ghost use Rattle.std.specs.Prelude.{◌≡◌, ◌<◌, length, Some};
ghost use Rattle.pitfall_check.specs.Pitfalls.{edge_from};
ghost use Rattle.pitfall_check.specs.inside.Steps.{edge_to};

use task_graph::Net;

/// The task that an edge leaves.
#[tactic(auto, using(crate::proofs::EdgeLemmas::ends_in_range))]
pub fn edge_from(net: &Net, edge: u32) -> u32
    requires { edge < length net.now.edges }
    ensures source { edge_from net.now edge ≡ Some result }
    ensures in_range { result < length net.now.tasks }
{
    net.edges()[edge as usize].from
}

/// The task that an edge leads to.
#[tactic(auto, using(crate::proofs::EdgeLemmas::ends_in_range))]
pub fn edge_to(net: &Net, edge: u32) -> u32
    requires { edge < length net.now.edges }
    ensures target { edge_to net.now edge ≡ Some result }
    ensures in_range { result < length net.now.tasks }
{
    net.edges()[edge as usize].to
}
