// The net of a generated graph.
ghost use Rattle.std.specs.Prelude.{◌≡◌, ◌≤◌, ◌<◌, [], All, IfOk, OnOk, length, map};
ghost use Rattle.task_graph.specs.NetBuilder.{empty_net, with_task};
ghost use Rattle.graph_plans.specs.PlanEdges.{IsAmong, edge_row};
ghost use Rattle.graph_plans.specs.PlanRows.{file_edge_limit, file_task_limit};
ghost use Rattle.graph_generator.specs.GeneratedPlan.{generated_row};

use graph_plans::{Edge, Op, add_edges};
use outside_io::{List, NoMemory};
use std::alloc::Global;
use task_graph::{BuildError, Net, NetBuilder};

/// The net of tasks with these operations and of these edges.
pub(crate) fn net_of(alloc: Global, ops: &[Op], edges: &[Edge]) -> Result<Net, NoMemory>
    requires tasks { length ops.now ≤ file_task_limit }
    requires edges { length edges.now ≤ file_edge_limit }
    requires among { All (IsAmong (length ops.now)) (map edge_row edges.now) }
    ensures { IfOk result (λ net. net
        ≡ record { tasks = map generated_row ops.now; edges = map edge_row edges.now; sems = [] }) }
{
    let mut builder = NetBuilder::new(alloc);
    add_tasks(alloc, &mut builder, ops)?;
    add_edges(&mut builder, edges)?;
    Ok(builder.finish())
}

fn add_tasks(alloc: Global, builder: &mut NetBuilder, ops: &[Op]) -> Result<(), NoMemory>
    requires empty { builder.old ≡ empty_net }
    requires room { length ops.now ≤ file_task_limit }
    ensures { OnOk result (builder.new ≡ record empty_net { tasks = map generated_row ops.now }) }
{
    for op in ops {
        add_task(alloc, builder, op)?;
    }
    Ok(())
}

fn add_task(alloc: Global, builder: &mut NetBuilder, op: &Op) -> Result<(), NoMemory>
    requires room { length builder.old.tasks < file_task_limit }
    requires none { builder.old.sems ≡ [] }
    ensures { OnOk result (builder.new ≡ with_task builder.old (generated_row op.now)) }
{
    match builder.task(op.shape(), List::new(alloc), List::new(alloc)) {
        Ok(_) => Ok(()),
        Err(BuildError::NoMemory) => Err(NoMemory),
        Err(_) => unreachable!(),
    }
}
