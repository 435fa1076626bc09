// The tasks at the ends of edges, task by task.
ghost use Rattle.std.specs.Prelude.{◌≡◌, ◌+◌, ◌<◌, ◌∷◌, [], IfOk, OnOk, length};
ghost use Rattle.pitfall_check.specs.inside.EndLists.{AddsEndsOf};
ghost use Rattle.pitfall_check.specs.inside.Steps.{AreEndsByEdge};

use crate::way::Way;
use outside_io::NoMemory;
use std::alloc::Global;
use task_graph::Net;

/// For each task the tasks at the ends of the edges that a way follows from it. The ends of one task's edges lie side
/// by side, so that a search reads them one behind the other and looks up no edge by its number.
#[derive(Drop)]
pub struct EndsByTask {
    // The ends of task t lie from the bound at place t up to the next bound.
    bounds: Vec<usize>,
    ends: Vec<u32>,
}

impl EndsByTask {
    ghost use Rattle.pitfall_check.specs.inside.EndLists.{AreListed, AreListedBelow, IsListed, ends_of};

    /// The ends of each task's edges that a way follows.
    pub fn new(alloc: Global, net: &Net, way: Way) -> Result<EndsByTask, NoMemory>
        ensures { IfOk result (AreListed way net.now) }
    {
        let by_edge = way.ends(alloc, net)?;
        let mut lists = EndsByTask::empty(alloc, net.edges().len())?;
        for task in 0..net.tasks().len() as u32 {
            lists.add(net, way, by_edge.as_slice(), task)?;
        }
        Ok(lists)
    }

    /// The ends of a task's edges, in the order of the edges.
    pub fn of(&self, task: u32) -> &[u32]
        requires { IsListed self.now task }
        ensures { result.now ≡ ends_of self.now task }
    {
        let place = task as usize;
        &self.ends[self.bounds[place]..self.bounds[place + 1]]
    }

    // The lists of no task, with room for so many ends.
    fn empty(alloc: Global, count: usize) -> Result<EndsByTask, NoMemory>
        ensures bounds { IfOk result (λ lists. lists.bounds.items ≡ 0 ∷ []) }
        ensures ends { IfOk result (λ lists. lists.ends.items ≡ []) }
    {
        let ends = Vec::with_capacity(alloc, count)?;
        let mut bounds = Vec::new(alloc);
        bounds.push(0)?;
        Ok(EndsByTask { bounds, ends })
    }

    // Adds the ends of the next task's edges.
    fn add(&mut self, net: &Net, way: Way, by_edge: &[u32], task: u32) -> Result<(), NoMemory>
        requires by_edge { AreEndsByEdge way net.now by_edge.now }
        requires task { task < length net.now.tasks }
        requires lists { AreListedBelow way net.now self.old task }
        ensures { OnOk result (AreListedBelow way net.now self.new (task + 1)) }
    {
        add_ends(net, way, by_edge, task, &mut self.ends)?;
        self.bounds.push(self.ends.len())?;
        Ok(())
    }
}

// Puts the ends of a task's edges at the end of a list.
fn add_ends(
    net: &Net,
    way: Way,
    by_edge: &[u32],
    task: u32,
    ends: &mut Vec<u32>,
) -> Result<(), NoMemory>
    requires by_edge { AreEndsByEdge way net.now by_edge.now }
    requires task { task < length net.now.tasks }
    ensures { OnOk result (AddsEndsOf way net.now task ends.old.items ends.new.items) }
{
    for edge in way.edges(net, task) {
        ends.push(by_edge[*edge as usize])?;
    }
    Ok(())
}
