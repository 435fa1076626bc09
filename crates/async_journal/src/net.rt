// The net of a run of async tasks.
ghost use Rattle.std.specs.Prelude.{◌≡◌, ◌≤◌, ◌+◌, [], false, length, map, IfErr, IfOk, OnOk};
ghost use Rattle.std.specs.List.{flat_map, AllByRecursion};
ghost use Rattle.task_graph.specs.declared.builder.BuildError.TheVariants.{NoMemory};
ghost use Rattle.task_graph.specs.NetBuilder.{edge_limit, task_limit};
ghost use Rattle.async_journal.specs.RunNets.{edges_into, edges_of_add, run_net, with_edge_rows, with_plain_tasks, FitsBuilder, JoinsTasks};
ghost use Rattle.async_journal.specs.WholeJournals.{AreBookAdds};

use async_tasks::AddRow;
use outside_io::List;
use std::alloc::Global;
use task_graph::{BuildError, Net, NetBuilder, Shape};

/// The net of these adds: a plain task for each, and an edge from each task that it names, in the order named. An
/// `Err` is that of the builder: of the adds of a finished run, which are within the limits of a book, it is returned
/// only where an allocation fails.
#[tactic(auto, using(crate::proofs::Refusing::adds_refused, crate::proofs::Refusing::joins_refused, crate::proofs::BookAdds::book_adds_refused))]
pub fn net_of_adds(alloc: Global, adds: &[AddRow]) -> Result<Net, BuildError>
    ensures net { IfOk result (λ net. net ≡ run_net adds.now) }
    ensures refused { IfErr result (λ error. FitsBuilder adds.now → error ≡ NoMemory) }
    ensures book { IfErr result (λ error. AreBookAdds adds.now → error ≡ NoMemory) }
{
    let mut builder = NetBuilder::new(alloc);
    add_tasks(alloc, &mut builder, adds.len())?;
    add_edges(&mut builder, adds)?;
    Ok(builder.finish())
}

// Adds so many plain tasks to a net without semaphores.
#[tactic(auto, using(crate::proofs::Building::no_tasks, crate::proofs::Building::one_task, crate::proofs::Refusing::tasks_refused))]
fn add_tasks(alloc: Global, builder: &mut NetBuilder, count: usize) -> Result<(), BuildError>
    requires { builder.old.sems ≡ [] }
    ensures ok { OnOk result (builder.new ≡ with_plain_tasks builder.old count) }
    ensures refused { IfErr result
        (λ error. length builder.old.tasks + count ≤ task_limit → error ≡ NoMemory) }
{
    for _number in 0..count {
        builder.task(Shape::Plain, List::new(alloc), List::new(alloc))?;
    }
    Ok(())
}

// Adds the edges of all adds.
fn add_edges(builder: &mut NetBuilder, adds: &[AddRow]) -> Result<(), BuildError>
    ensures ok { OnOk result (builder.new ≡ with_edge_rows builder.old (flat_map edges_of_add adds.now)) }
    ensures refused { IfErr result (λ error.
        length builder.old.edges + length (flat_map edges_of_add adds.now) ≤ edge_limit
        → AllByRecursion (JoinsTasks (length builder.old.tasks)) (flat_map edges_of_add adds.now)
        → error ≡ NoMemory) }
{
    for row in adds {
        add_edges_into(builder, row.id, row.after.as_slice())?;
    }
    Ok(())
}

// Adds an edge from each of these tasks to another.
fn add_edges_into(builder: &mut NetBuilder, task: u32, before: &[u32]) -> Result<(), BuildError>
    ensures ok { OnOk result (builder.new ≡ with_edge_rows builder.old (edges_into task before.now)) }
    ensures refused { IfErr result (λ error.
        length builder.old.edges + length (edges_into task before.now) ≤ edge_limit
        → AllByRecursion (JoinsTasks (length builder.old.tasks)) (edges_into task before.now)
        → error ≡ NoMemory) }
{
    for from in before {
        builder.edge(*from, task, false)?;
    }
    Ok(())
}
