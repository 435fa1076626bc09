// Whether a net is one in which each edge is given one token at most.
ghost use Rattle.std.specs.Prelude.{◌≡◌, ◌↔◌, ◌<◌, false, length, IsTrue};
ghost use Rattle.task_graph.specs.Net.{is_weak};
ghost use Rattle.journal_rules.specs.Counts.{first_tokens};
ghost use Rattle.journal_rules.specs.OnceNets.{IsOnceNet};

use task_graph::Net;

/// Whether no edge is weak and none begins with a token. In a run on such a net each edge is given one token at most,
/// and each task is started once at most. It walks the edges once.
pub fn is_once_net(net: &Net) -> bool
    ensures { IsTrue result ↔ IsOnceNet net.now }
{
    for edge in 0..net.edges().len() as u32 {
        if !is_once_edge(net, edge) {
            return false;
        }
    }
    true
}

// Whether an edge is strong and begins without a token.
fn is_once_edge(net: &Net, edge: u32) -> bool
    requires { edge < length net.now.edges }
    ensures { IsTrue result
        ↔ ((is_weak net.now edge ≡ false) × (first_tokens net.now edge ≡ 0)) }
{
    !net.is_weak(edge) && !net.edges()[edge as usize].start
}
