// The semaphores of a task.
ghost use Rattle.std.specs.Prelude.{◌≡◌};
ghost use Rattle.task_graph.specs.Net.{AreSemaphoresOf};
ghost use Rattle.semaphore_turns.specs.Semaphores.{put_by, taken_by};

use task_graph::Net;

/// The semaphores of which a task takes a unit, by rising number; none where there is no such task.
pub fn takes_of(net: &Net, task: u32) -> &[u32]
    ensures list { result.now ≡ taken_by net.now task }
    ensures sems { AreSemaphoresOf net.now result.now }
{
    match net.tasks().get(task as usize) {
        Some(row) => row.takes.as_slice(),
        None => &[],
    }
}

/// The semaphores of which a task puts a unit, by rising number; none where there is no such task.
pub fn puts_of(net: &Net, task: u32) -> &[u32]
    ensures list { result.now ≡ put_by net.now task }
    ensures sems { AreSemaphoresOf net.now result.now }
{
    match net.tasks().get(task as usize) {
        Some(row) => row.puts.as_slice(),
        None => &[],
    }
}
