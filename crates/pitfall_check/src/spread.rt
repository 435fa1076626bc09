// Marks that spread over a net.
ghost use Rattle.std.specs.Prelude.{◌≡◌, ◌≢◌, ◌<◌, [], length, slice_index, Contains, OnOk};
ghost use Rattle.pitfall_check.specs.inside.Steps.{StepsBy};
ghost use Rattle.pitfall_check.specs.inside.EndLists.{AreListed};
ghost use Rattle.pitfall_check.specs.inside.MarkSpread.{Adds, EndsAreMarked, IsSpread};

use crate::ends_by_task::EndsByTask;
use crate::way::Way;
use outside_io::NoMemory;
use task_graph::Net;

/// Gives a mark to the root, and to each task to which the way leads from it through tasks without a mark, by
/// the ends of its edges. What was in the queue is cleared.
pub fn spread(
    net: &Net,
    way: Way,
    ends: &EndsByTask,
    root: u32,
    mark: u32,
    marks: &mut [u32],
    queue: &mut Vec<u32>,
) -> Result<(), NoMemory>
    requires ends { AreListed way net.now ends.now }
    requires root { root < length net.now.tasks }
    requires size { length marks.old ≡ length net.now.tasks }
    requires unmarked { slice_index marks.old root ≡ 0 }
    requires mark { 0 < mark }
    ensures { OnOk result (IsSpread way net.now root mark marks.old marks.new) }
{
    queue.clear();
    mark_task(root, mark, marks, queue)?;
    let mut next = 0;
    while next < queue.len() {
        mark_ends(net, way, ends, queue[next], mark, marks, queue)?;
        next += 1;
    }
    Ok(())
}

// Marks the tasks at the ends of a task's edges that have no mark yet.
fn mark_ends(
    net: &Net,
    way: Way,
    ends: &EndsByTask,
    task: u32,
    mark: u32,
    marks: &mut [u32],
    queue: &mut Vec<u32>,
) -> Result<(), NoMemory>
    requires ends { AreListed way net.now ends.now }
    requires task { task < length net.now.tasks }
    requires size { length marks.old ≡ length net.now.tasks }
    requires mark { 0 < mark }
    ensures adds { OnOk result
        (Adds (StepsBy way net.now task) mark marks.old queue.old.items marks.new queue.new.items) }
    ensures closed { OnOk result (EndsAreMarked way net.now marks.new task) }
{
    for end in ends.of(task) {
        mark_task(*end, mark, marks, queue)?;
    }
    Ok(())
}

// Marks a task that has no mark yet.
fn mark_task(task: u32, mark: u32, marks: &mut [u32], queue: &mut Vec<u32>) -> Result<(), NoMemory>
    requires task { task < length marks.old }
    requires mark { 0 < mark }
    ensures adds { OnOk result
        (Adds (λ t. t ≡ task) mark marks.old queue.old.items marks.new queue.new.items) }
    ensures marked { OnOk result (slice_index marks.new task ≢ 0) }
{
    if marks[task as usize] == 0 {
        marks[task as usize] = mark;
        queue.push(task)?;
    }
    Ok(())
}
