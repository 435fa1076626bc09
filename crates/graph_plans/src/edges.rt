// The edges of graphs.
ghost use Rattle.std.specs.Prelude.{◌≡◌, ◌+◌, ◌<◌, ◌≤◌, ◌++◌, All, OnOk, length, map};
ghost use Rattle.task_graph.specs.NetBuilder.{edge_limit, task_limit, with_edge};
ghost use Rattle.graph_plans.specs.PlanEdges.{IsAmong, edge_row};

use outside_io::NoMemory;
use task_graph::{BuildError, NetBuilder};

/// An edge by the numbers of its tasks. In a net it begins without a token (`edge_row`).
#[derive(Clone, Copy, Drop)]
pub struct Edge {
    pub from: usize,
    pub to: usize,
}

/// Adds edges between tasks of a net at its end, in this order. `Err`: an allocation failed, and the net may have the
/// first ones.
pub fn add_edges(builder: &mut NetBuilder, edges: &[Edge]) -> Result<(), NoMemory>
    requires tasks { length builder.old.tasks ≤ task_limit }
    requires room { length builder.old.edges + length edges.now ≤ edge_limit }
    requires among { All (IsAmong (length builder.old.tasks)) (map edge_row edges.now) }
    ensures { OnOk result (builder.new ≡ record builder.old
        { edges = builder.old.edges ++ map edge_row edges.now }) }
{
    for edge in edges {
        add_edge(builder, *edge)?;
    }
    Ok(())
}

fn add_edge(builder: &mut NetBuilder, edge: Edge) -> Result<(), NoMemory>
    requires tasks { length builder.old.tasks ≤ task_limit }
    requires room { length builder.old.edges < edge_limit }
    requires among { IsAmong (length builder.old.tasks) (edge_row edge) }
    ensures { OnOk result (builder.new ≡ with_edge builder.old (edge_row edge)) }
{
    match builder.edge(edge.from as u32, edge.to as u32, false) {
        Ok(_) => Ok(()),
        Err(BuildError::NoMemory) => Err(NoMemory),
        Err(_) => unreachable!(),
    }
}
