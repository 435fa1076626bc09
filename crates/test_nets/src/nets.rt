// Small nets as rows.
use outside_io::{List, NoMemory};
use std::alloc::Global;
use std::sync::Arc;
use std::test::Fail;
use task_graph::{BuildError, Net, NetBuilder, Shape};

/// What a task does with the one semaphore of its net.
#[derive(Clone, Copy, PartialEq, Eq)]
pub(crate) enum Units {
    /// Nothing.
    None,
    /// It takes a unit, and keeps it.
    Taken,
    /// It puts a unit that it didn't take.
    Put,
    /// It takes a unit and puts it back.
    Held,
}

/// A task: its shape, and what it does with units.
#[derive(Clone, Copy)]
pub(crate) struct Task {
    pub(crate) shape: Shape,
    pub(crate) units: Units,
}

impl Task {
    /// Whether it takes a unit.
    pub(crate) fn takes(&self) -> bool {
        matches!(self.units, Units::Taken | Units::Held)
    }

    /// Whether it puts one.
    pub(crate) fn puts(&self) -> bool {
        matches!(self.units, Units::Put | Units::Held)
    }
}

/// Tasks of each shape that need no unit.
pub(crate) const PLAIN: Task = Task {
    shape: Shape::Plain,
    units: Units::None,
};

pub(crate) const CHOICE: Task = Task {
    shape: Shape::Choice,
    units: Units::None,
};

pub(crate) const MANY: Task = Task {
    shape: Shape::Many,
    units: Units::None,
};

/// Plain tasks that take a unit, put one, or hold one as they run.
pub(crate) const TAKER: Task = Task {
    shape: Shape::Plain,
    units: Units::Taken,
};

pub(crate) const PUTTER: Task = Task {
    shape: Shape::Plain,
    units: Units::Put,
};

pub(crate) const HOLDER: Task = Task {
    shape: Shape::Plain,
    units: Units::Held,
};

/// The rows of a net with one semaphore, of one unit: its tasks, its edges, and those after them that begin with a
/// token.
#[derive(Clone, Copy)]
pub(crate) struct NetCase<'r> {
    pub(crate) tasks: &'r [Task],
    pub(crate) edges: &'r [(u32, u32)],
    pub(crate) rings: &'r [(u32, u32)],
}

/// The net of these rows.
pub(crate) fn built(alloc: Global, rows: NetCase<'_>) -> Result<Arc<Net>, Fail> {
    let mut builder = NetBuilder::new(alloc);
    add_rows(alloc, &mut builder, rows)?;
    Ok(Arc::new(alloc, builder.finish())?)
}

// Adds the one semaphore, the tasks and the edges.
fn add_rows(alloc: Global, builder: &mut NetBuilder, rows: NetCase<'_>) -> Result<(), BuildError> {
    builder.semaphore(1)?;
    for task in rows.tasks {
        add_task(alloc, builder, *task)?;
    }
    add_edges(builder, rows.edges, false)?;
    add_edges(builder, rows.rings, true)
}

fn add_task(alloc: Global, builder: &mut NetBuilder, task: Task) -> Result<u32, BuildError> {
    let takes = semaphores(alloc, task.takes())?;
    let puts = semaphores(alloc, task.puts())?;
    builder.task(task.shape, takes, puts)
}

// The one semaphore, or none.
fn semaphores(alloc: Global, one: bool) -> Result<List<u32>, NoMemory> {
    let numbers: &[u32] = if one { &[0] } else { &[] };
    List::from_slice(alloc, numbers)
}

fn add_edges(
    builder: &mut NetBuilder,
    edges: &[(u32, u32)],
    token: bool,
) -> Result<(), BuildError> {
    for (from, to) in edges {
        builder.edge(*from, *to, token)?;
    }
    Ok(())
}
