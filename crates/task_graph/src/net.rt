// Nets: the rows of tasks, edges and semaphores, and the lists of each task's edges.
ghost use Rattle.std.specs.Prelude.{◌≡◌, ◌↔◌, ◌<◌, IfOk, IsTrue, length};
ghost use Rattle.task_graph.specs.Chosen.{IsAnswerFor, chosen_edges};
ghost use Rattle.task_graph.specs.inside.EdgeIndex.{IsEdgeIndexOf};
ghost use Rattle.task_graph.specs.Net.{IsNet, IsSource, chooses, is_weak, out_edges, strong_in, weak_in};

use crate::choice::choose;
use crate::index::EdgeIndex;
use outside_io::{List, NoMemory};
use std::alloc::Global;
use std::marker::Model;

/// How a task ends.
#[derive(Clone, Copy, Debug, PartialEq, Eq)]
pub enum Shape {
    /// It gives all its out-edges, or none.
    Plain,
    /// It chooses one successor, or none.
    Choice,
    /// It chooses several successors, or none.
    Many,
    /// Its work is a graph of its own. It gives all its out-edges, or none.
    Nested,
}

impl Shape {
    // Whether tasks of this shape choose among their successors.
    pub(crate) fn chooses(self) -> bool
        ensures { result ≡ chooses self }
    {
        match self {
            Shape::Plain | Shape::Nested => false,
            Shape::Choice | Shape::Many => true,
        }
    }
}

/// A task: its shape, and the semaphores of which it takes a unit before it starts and puts a unit back
/// after its end, each list rising.
#[derive(Drop)]
pub struct TaskRow {
    pub shape: Shape,
    pub takes: List<u32>,
    pub puts: List<u32>,
}

/// An edge from one task to another. One with `start` carries a token at the beginning.
#[derive(Clone, Copy, Debug, PartialEq, Eq)]
pub struct EdgeRow {
    pub from: u32,
    pub to: u32,
    pub start: bool,
}

/// A net. Its tasks, edges and semaphores are numbered from 0 in the order of their making.
///
/// Contracts see it as its rows. Beside them it keeps, for each task, the lists of its out-edges and of its
/// strong and weak in-edges, so that each look-up takes no walk.
#[derive(Drop)]
pub struct Net {
    tasks: List<TaskRow>,
    edges: List<EdgeRow>,
    sems: List<u32>,
    index: EdgeIndex,
}

impl Model for Net {
    ghost use Rattle.task_graph.specs.NetRows.{NetRows};

    ghost Value = { NetRows };

    ghost use Rattle.task_graph.specs.inside.NetState.{net_rows, IsIndexed};

    ghost view = { net_rows };

    ghost invariant = { IsIndexed };
}

impl Net {
    // The net of these rows, of which the index lists each task's edges.
    pub(crate) fn with_index(
        tasks: List<TaskRow>,
        edges: List<EdgeRow>,
        sems: List<u32>,
        index: EdgeIndex,
    ) -> Net
        requires rows { IsNet (record { tasks = tasks; edges = edges; sems = sems }) }
        requires index { IsEdgeIndexOf index tasks edges }
        ensures { result ≡ record { tasks = tasks; edges = edges; sems = sems } }
    {
        Net {
            tasks,
            edges,
            sems,
            index,
        }
    }

    /// The tasks' rows.
    pub fn tasks(&self) -> &[TaskRow]
        ensures rows { result.now ≡ self.now.tasks }
        ensures well_formed { IsNet self.now }
    {
        self.tasks.as_slice()
    }

    /// The edges' rows.
    pub fn edges(&self) -> &[EdgeRow]
        ensures rows { result.now ≡ self.now.edges }
        ensures well_formed { IsNet self.now }
    {
        self.edges.as_slice()
    }

    /// The semaphores' maxima.
    pub fn sems(&self) -> &[u32]
        ensures rows { result.now ≡ self.now.sems }
        ensures well_formed { IsNet self.now }
    {
        self.sems.as_slice()
    }

    /// The edges out of a task, by rising number.
    pub fn out_edges(&self, task: u32) -> &[u32]
        requires { task < length self.now.tasks }
        ensures { result.now ≡ out_edges self.now task }
    {
        self.index.out.get(task)
    }

    /// The strong edges into a task, by rising number.
    pub fn strong_in(&self, task: u32) -> &[u32]
        requires { task < length self.now.tasks }
        ensures { result.now ≡ strong_in self.now task }
    {
        self.index.strong.get(task)
    }

    /// The weak edges into a task, by rising number.
    pub fn weak_in(&self, task: u32) -> &[u32]
        requires { task < length self.now.tasks }
        ensures { result.now ≡ weak_in self.now task }
    {
        self.index.weak.get(task)
    }

    /// Whether an edge is weak, as it leaves a task that chooses among its successors.
    pub fn is_weak(&self, edge: u32) -> bool
        requires { edge < length self.now.edges }
        ensures { result ≡ is_weak self.now edge }
    {
        let edge = self.edges.as_slice()[edge as usize];
        self.tasks.as_slice()[edge.from as usize].shape.chooses()
    }

    /// The edges that a choosing task signals where its work answers these indices among its successors: those
    /// at the indices that are in range, each once, in the order in which they are first named. A Choice
    /// answers one index, a Many any number.
    pub fn chosen(&self, alloc: Global, task: u32, answer: &[i64]) -> Result<List<u32>, NoMemory>
        requires task { task < length self.now.tasks }
        requires answer { IsAnswerFor self.now task (length answer.now) }
        ensures { IfOk result (λ edges. edges ≡ chosen_edges (out_edges self.now task) answer.now) }
    {
        choose(alloc, self.out_edges(task), answer)
    }

    /// Whether no edge leads into a task.
    pub fn is_source(&self, task: u32) -> bool
        requires { task < length self.now.tasks }
        ensures { IsTrue result ↔ IsSource self.now task }
    {
        self.strong_in(task).is_empty() && self.weak_in(task).is_empty()
    }
}
