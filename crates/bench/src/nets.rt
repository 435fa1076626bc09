// The nets that are measured.
ghost use Rattle.std.specs.Prelude.{◌<◌};

use outside_io::List;
use std::alloc::{AllocError, Global};
use std::io;
use std::sync::Arc;
use task_graph::{BuildError, Net, NetBuilder, Shape};

/// Where the edges of a net lead.
#[derive(Clone, Copy, PartialEq, Eq)]
pub enum NetKind {
    /// From each task to the next.
    Chain,
    /// From the first task to all others.
    Fan,
    /// From all tasks to the last one.
    Join,
    /// From each task to later ones, at most ten tasks on.
    Later,
    /// From each task to the next eight, and past the last one to the first.
    Ring,
    /// From the first task to the second, and from there on round, to conditions alone.
    Loop,
    /// From any task to any task.
    Random,
    /// The same, and each third task is a condition.
    Conditions,
    /// From any task to itself or a later one.
    RandomLater,
}

/// A net of so many tasks, two at least, and of so many edges.
pub fn net_of(alloc: Global, kind: NetKind, tasks: u32, edges: u32) -> io::Result<Arc<Net>> {
    if tasks < 2 {
        return Err(AllocError.into());
    }
    match built(alloc, kind, tasks, edges) {
        Ok(net) => Ok(Arc::new(alloc, net)?),
        Err(_) => Err(AllocError.into()),
    }
}

fn built(alloc: Global, kind: NetKind, tasks: u32, edges: u32) -> Result<Net, BuildError>
    requires { 1 < tasks }
{
    let mut builder = NetBuilder::new(alloc);
    for task in 0..tasks {
        builder.task(shape_of(kind, task), List::new(alloc), List::new(alloc))?;
    }
    let mut state = 1;
    for edge in 0..edges {
        let (from, to) = ends_of(kind, tasks, edge, &mut state);
        builder.edge(from, to, false)?;
    }
    Ok(builder.finish())
}

fn shape_of(kind: NetKind, task: u32) -> Shape {
    match kind {
        NetKind::Loop if task > 0 => Shape::Choice,
        NetKind::Conditions if task % 3 == 0 => Shape::Choice,
        _ => Shape::Plain,
    }
}

// The tasks from which and to which an edge leads. The numbers at random go by a state.
fn ends_of(kind: NetKind, tasks: u32, edge: u32, state: &mut u64) -> (u32, u32)
    requires { 1 < tasks }
{
    let from = edge % tasks;
    let next = from.saturating_add(1) % tasks;
    match kind {
        NetKind::Chain => (from, next),
        NetKind::Fan => (0, next),
        NetKind::Join => (from, tasks - 1),
        NetKind::Later => {
            let from = edge % (tasks - 1);
            let on = (edge / tasks).saturating_add(1);
            (from, from.saturating_add(on).min(tasks - 1))
        }
        NetKind::Ring => (from, next.saturating_add(edge / tasks) % tasks),
        NetKind::Loop if next == 0 => (from, 1),
        NetKind::Loop => (from, next),
        NetKind::Random | NetKind::Conditions => (below(tasks, state), below(tasks, state)),
        NetKind::RandomLater => {
            let (one, other) = (below(tasks, state), below(tasks, state));
            (one.min(other), one.max(other))
        }
    }
}

// A number at random, by a linear congruence.
fn below(tasks: u32, state: &mut u64) -> u32
    requires { 0 < tasks }
{
    *state = state
        .wrapping_mul(6_364_136_223_846_793_005)
        .wrapping_add(1_442_695_040_888_963_407);
    ((*state >> 33) % tasks as u64) as u32
}
