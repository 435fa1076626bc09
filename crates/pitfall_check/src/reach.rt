// Which tasks are reached from where a net begins.
ghost use Rattle.std.specs.Prelude.{◌+◌, ◌<◌, IfOk, OnOk, length};
ghost use Rattle.pitfall_check.specs.inside.ReachMarks.{MarksReached};
ghost use Rattle.pitfall_check.specs.inside.EndLists.{AreListed};

use crate::ends_by_task::EndsByTask;
use crate::spread::spread;
use crate::way::Way;
use outside_io::NoMemory;
use std::alloc::Global;
use task_graph::Net;

/// A mark for each task: 0 where no walk leads from a source to it, and 1 elsewhere.
pub fn mark_reached(alloc: Global, net: &Net, heads: &EndsByTask) -> Result<Vec<u32>, NoMemory>
    requires { AreListed Way.Ahead net.now heads.now }
    ensures { IfOk result (λ marks. MarksReached net.now marks.items (length net.now.tasks)) }
{
    let count = net.tasks().len();
    let mut marks = vec![in alloc; 0u32; count]?;
    let mut queue = Vec::new(alloc);
    for task in 0..count as u32 {
        mark_from(net, heads, task, &mut marks, &mut queue)?;
    }
    Ok(marks)
}

// Marks what is reached from the next task where it is a source.
fn mark_from(
    net: &Net,
    heads: &EndsByTask,
    task: u32,
    marks: &mut [u32],
    queue: &mut Vec<u32>,
) -> Result<(), NoMemory>
    requires heads { AreListed Way.Ahead net.now heads.now }
    requires task { task < length net.now.tasks }
    requires marks { MarksReached net.now marks.old task }
    ensures { OnOk result (MarksReached net.now marks.new (task + 1)) }
{
    if !net.is_source(task) || marks[task as usize] != 0 {
        return Ok(());
    }
    spread(net, Way::Ahead, heads, task, 1, marks, queue)?;
    Ok(())
}
