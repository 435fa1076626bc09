// Which tasks of a net of at most three lead to which, decided by looking through its edges.
use crate::nets::NetCase;
use outside_io::NoMemory;
use std::alloc::Global;
use task_graph::Shape;

/// The weak edges of a net, which lead from conditions, or the strong ones.
pub(crate) fn edges_of_kind(
    alloc: Global,
    rows: NetCase<'_>,
    weak: bool,
) -> Result<Vec<(u32, u32)>, NoMemory> {
    let mut edges = Vec::new(alloc);
    for (from, to) in rows.edges {
        if let Some(task) = rows.tasks.get(*from as usize) {
            if matches!(task.shape, Shape::Choice | Shape::Many) == weak {
                edges.push((*from, *to))?;
            }
        }
    }
    Ok(edges)
}

/// Whether a walk of one edge or more, and of at most so many, leads from a task to a task.
pub(crate) fn has_walk(edges: &[(u32, u32)], from: u32, to: u32, most: u8) -> bool {
    for (start, end) in edges {
        if *start == from && (*end == to || most > 1 && has_walk(edges, *end, to, most - 1)) {
            return true;
        }
    }
    false
}

/// From how many tasks an edge leads to this one.
pub(crate) fn count_into(edges: &[(u32, u32)], task: u32) -> u32 {
    u32::from(has_walk(edges, 0, task, 1))
        + u32::from(has_walk(edges, 1, task, 1))
        + u32::from(has_walk(edges, 2, task, 1))
}

/// Whether a task is a source or a walk leads to it from one of these tasks that is a source.
pub(crate) fn is_reached(edges: &[(u32, u32)], tasks: &[u32], task: u32) -> bool {
    for source in tasks {
        let is_source = count_into(edges, *source) == 0;
        if is_source && (*source == task || has_walk(edges, *source, task, 3)) {
            return true;
        }
    }
    false
}
