// The lists of each task's edges: those out of it, and the strong and the weak ones into it.
ghost use Rattle.std.specs.Prelude.{◌<◌, ◌^◌, ℕ, OnOk, All, length};
ghost use Rattle.task_graph.specs.inside.EdgeIndex.{IsEdgeIndexOf, HasRoomFor, EndsIn};

use crate::groups::Groups;
use crate::net::{EdgeRow, TaskRow};
use crate::side::Side;
use outside_io::NoMemory;
use std::alloc::Global;

/// For each task its out-edges, its strong in-edges and its weak in-edges.
#[derive(Drop)]
pub struct EdgeIndex {
    /// The edges out of a task.
    pub out: Groups,
    /// The strong edges into it.
    pub strong: Groups,
    /// The weak edges into it.
    pub weak: Groups,
}

impl EdgeIndex {
    /// An index without room. It takes no memory.
    pub fn new(alloc: Global) -> EdgeIndex
        ensures { HasRoomFor result 0 0 }
    {
        EdgeIndex {
            out: Groups::new(alloc),
            strong: Groups::new(alloc),
            weak: Groups::new(alloc),
        }
    }

    /// Takes the memory for the lists of so many tasks and edges. After an `Err` the room that there was is
    /// still there.
    pub fn make_room(&mut self, tasks: usize, edges: usize) -> Result<(), NoMemory>
        requires few { tasks < 2 ^ 63 }
        ensures ok { OnOk result (HasRoomFor self.new tasks edges) }
        ensures keeps { (t e : ℕ) → HasRoomFor self.old t e → HasRoomFor self.new t e }
    {
        self.out.make_room(tasks, edges)?;
        self.strong.make_room(tasks, edges)?;
        self.weak.make_room(tasks, edges)
    }

    /// Lists the edges of each task.
    pub fn fill(&mut self, tasks: &[TaskRow], edges: &[EdgeRow])
        requires room { HasRoomFor self.old (length tasks.now) (length edges.now) }
        requires ends { All (EndsIn tasks.now) edges.now }
        requires few { length edges.now < 2 ^ 32 }
        ensures { IsEdgeIndexOf self.new tasks.now edges.now }
    {
        self.out.fill(Side::Out, tasks, edges);
        self.strong.fill(Side::StrongIn, tasks, edges);
        self.weak.fill(Side::WeakIn, tasks, edges);
    }
}
