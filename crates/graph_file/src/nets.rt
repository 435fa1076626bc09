// The net of a graph file.
ghost use Rattle.std.specs.Prelude.{◌≡◌, ◌<◌, ◌≤◌, ◌^◌, ◌++◌, [], All, IfOk, OnOk, length, map};
ghost use Rattle.graph_plans.specs.PlanEdges.{IsAmong, edge_row};
ghost use Rattle.graph_plans.specs.PlanRows.{file_edge_limit, file_semaphore_limit, file_task_limit};
ghost use Rattle.task_graph.specs.NetBuilder.{empty_net, with_semaphore, with_task};
ghost use Rattle.graph_file.specs.PlanText.{edge_to, edges_from, task_row};
ghost use Rattle.graph_file.specs.inside.Drafts.{AreIds, NamesOnce, net_with, with_sems};

use crate::numbers::TaskNumbers;
use graph_plans::{Edge, Op, add_edges};
use outside_io::{List, NoMemory};
use std::alloc::Global;
use task_graph::{BuildError, Net, NetBuilder};

/// The edges of the tasks of a graph, in file order.
pub(crate) fn edges_of(alloc: Global, tasks: &[TaskNumbers]) -> Result<List<Edge>, NoMemory>
    ensures { IfOk result (λ edges. map edge_row edges ≡ edges_from 0 tasks.now) }
{
    let mut edges = List::with_room(alloc, tasks.len())?;
    for (from, task) in tasks.iter().enumerate() {
        put_edges(from, task.to.as_slice(), &mut edges)?;
    }
    Ok(edges)
}

// Puts the edges out of a task at the end.
fn put_edges(from: usize, to: &[usize], edges: &mut List<Edge>) -> Result<(), NoMemory>
    ensures { OnOk result (map edge_row edges.new
        ≡ map edge_row edges.old ++ map (edge_to from) to.now) }
{
    for task in to {
        edges.push(Edge { from, to: *task })?;
    }
    Ok(())
}

/// The net of semaphores with these maxima, of tasks with these operations that name what has these numbers, and of
/// these edges.
pub(crate) fn net_with(
    alloc: Global,
    sems: &[u32],
    ops: &[Op],
    tasks: &[TaskNumbers],
    edges: &[Edge],
) -> Result<Net, NoMemory>
    requires sems { All (λ max. 1 ≤ max) sems.now }
    requires sem_count { length sems.now ≤ file_semaphore_limit }
    requires tasks { length ops.now ≤ file_task_limit }
    requires each { length tasks.now ≡ length ops.now }
    requires units { All (NamesOnce (length sems.now)) tasks.now }
    requires edges { length edges.now ≤ file_edge_limit }
    requires among { All (IsAmong (length ops.now)) (map edge_row edges.now) }
    ensures { IfOk result (λ net. net
        ≡ net_with sems.now ops.now tasks.now (map edge_row edges.now)) }
{
    let mut builder = NetBuilder::new(alloc);
    add_semaphores(&mut builder, sems)?;
    add_tasks(alloc, &mut builder, ops, tasks)?;
    add_edges(&mut builder, edges)?;
    Ok(builder.finish())
}

fn add_semaphores(builder: &mut NetBuilder, sems: &[u32]) -> Result<(), NoMemory>
    requires empty { builder.old ≡ empty_net }
    requires maxima { All (λ max. 1 ≤ max) sems.now }
    requires room { length sems.now ≤ file_semaphore_limit }
    ensures { OnOk result (builder.new ≡ with_sems sems.now) }
{
    for max in sems {
        add_semaphore(builder, *max)?;
    }
    Ok(())
}

fn add_semaphore(builder: &mut NetBuilder, max: u32) -> Result<(), NoMemory>
    requires positive { 1 ≤ max }
    requires room { length builder.old.sems < file_semaphore_limit }
    ensures { OnOk result (builder.new ≡ with_semaphore builder.old max) }
{
    match builder.semaphore(max) {
        Ok(_) => Ok(()),
        Err(BuildError::NoMemory) => Err(NoMemory),
        Err(_) => unreachable!(),
    }
}

fn add_tasks(
    alloc: Global,
    builder: &mut NetBuilder,
    ops: &[Op],
    tasks: &[TaskNumbers],
) -> Result<(), NoMemory>
    requires empty { builder.old ≡ with_sems builder.old.sems }
    requires sem_count { length builder.old.sems ≤ file_semaphore_limit }
    requires room { length ops.now ≤ file_task_limit }
    requires each { length tasks.now ≡ length ops.now }
    requires units { All (NamesOnce (length builder.old.sems)) tasks.now }
    ensures { OnOk result (builder.new ≡ net_with builder.old.sems ops.now tasks.now []) }
{
    for (number, op) in ops.iter().enumerate() {
        add_task(alloc, builder, op, &tasks[number])?;
    }
    Ok(())
}

fn add_task(
    alloc: Global,
    builder: &mut NetBuilder,
    op: &Op,
    task: &TaskNumbers,
) -> Result<(), NoMemory>
    requires sem_count { length builder.old.sems ≤ file_semaphore_limit }
    requires room { length builder.old.tasks < file_task_limit }
    requires units { NamesOnce (length builder.old.sems) task.now }
    ensures { OnOk result (builder.new
        ≡ with_task builder.old (task_row (length builder.old.sems) op.now task.now)) }
{
    let takes = ids_of(alloc, task.takes.as_slice())?;
    let puts = ids_of(alloc, task.puts.as_slice())?;
    match builder.task(op.shape(), takes, puts) {
        Ok(_) => Ok(()),
        Err(BuildError::NoMemory) => Err(NoMemory),
        Err(_) => unreachable!(),
    }
}

// The numbers of semaphores, as a net has them.
fn ids_of(alloc: Global, numbers: &[usize]) -> Result<List<u32>, NoMemory>
    requires { All (λ id. id < 2 ^ 32) numbers.now }
    ensures { IfOk result (λ ids. ids ≡ numbers.now) }
{
    let mut ids = List::with_room(alloc, numbers.len())?;
    for number in numbers {
        ids.push(*number as u32)?;
    }
    Ok(ids)
}
