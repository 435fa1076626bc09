// Calls of a net's builder, what a net lists, and what a task chooses, with the answers that were worked out by hand.
ghost use Rattle.std.specs.Prelude.{◌<◌, length, IsTrue};
ghost use Rattle.task_graph.specs.Chosen.{AnswersSoMany, IsAnswerFor};

use crate::nets::{CHOICE, MANY, NetCase, PLAIN, built};
use outside_io::{List, NoMemory};
use std::alloc::Global;
use std::test::Fail;
use task_graph::{BuildError, MAX_SEMAPHORES, Net, NetBuilder, Shape, TaskRow};

// Whether the edge from task 0 to task 1 that is there twice is listed twice at both.
fn is_listed_twice(alloc: Global) -> Result<bool, Fail> {
    let rows = NetCase {
        tasks: &[PLAIN; 3],
        edges: &[(0, 1), (1, 2), (0, 1)],
        rings: &[],
    };
    let net = built(alloc, rows)?;
    if net.tasks().len() != 3 {
        return Ok(false);
    }
    let leads_out = net.out_edges(0) == [0, 2].as_slice();
    let leads_in = net.strong_in(1) == [0, 2].as_slice() && net.weak_in(1).is_empty();
    let begins = net.is_source(0) && !net.is_source(1);
    Ok(leads_out && leads_in && begins && net.strong_in(2) == [1].as_slice())
}

#[test]
fn a_double_edge_is_listed_twice(rt: HostRuntime) -> Result<(), Fail> {
    assert!(rt; is_listed_twice(rt.alloc())?);
    Ok(())
}

// Edges that are added in turn to a plain task 0 and a choice 1, and what the builder answers.
const EDGES: [(u32, u32, bool, Result<u32, BuildError>); 7] = [
    (0, 2, false, Err(BuildError::NoSuchTask(2))),
    (3, 2, false, Err(BuildError::NoSuchTask(3))),
    (0, 0, false, Ok(0)),
    (1, 2, true, Err(BuildError::NoSuchTask(2))),
    (1, 0, true, Err(BuildError::WeakStart)),
    (0, 1, true, Ok(1)),
    (1, 0, false, Ok(2)),
];

// Whether the builder gives each of them its answer.
fn are_edges_answered(alloc: Global) -> Result<bool, BuildError> {
    let mut builder = NetBuilder::new(alloc);
    add_ends(alloc, &mut builder)?;
    let answers = adds_or_refuses_edges(&mut builder);
    let net = builder.finish();
    Ok(answers && net.edges().len() == 3)
}

// Adds the two tasks.
fn add_ends(alloc: Global, builder: &mut NetBuilder) -> Result<u32, BuildError> {
    builder.task(Shape::Plain, List::new(alloc), List::new(alloc))?;
    builder.task(Shape::Choice, List::new(alloc), List::new(alloc))
}

fn adds_or_refuses_edges(builder: &mut NetBuilder) -> bool {
    for (from, to, token, answer) in &EDGES {
        if builder.edge(*from, *to, *token) != *answer {
            return false;
        }
    }
    true
}

#[test]
fn edges_are_added_or_refused(rt: HostRuntime) -> Result<(), Fail> {
    assert!(rt; are_edges_answered(rt.alloc())?);
    Ok(())
}

// The semaphores that a task takes and puts, and what the builder answers.
struct Holder {
    takes: &'static [u32],
    puts: &'static [u32],
    answer: Result<u32, BuildError>,
}

const HOLDERS: [Holder; 5] = [
    Holder {
        takes: &[7, 300, 7, 299],
        puts: &[256],
        answer: Err(BuildError::NoSuchSemaphore(300)),
    },
    Holder {
        takes: &[7, 7],
        puts: &[256],
        answer: Err(BuildError::NoSuchSemaphore(256)),
    },
    Holder {
        takes: &[9, 7, 7, 9],
        puts: &[3, 3],
        answer: Err(BuildError::Repeated(7)),
    },
    Holder {
        takes: &[9, 7],
        puts: &[3, 3],
        answer: Err(BuildError::Repeated(3)),
    },
    Holder {
        takes: &[9, 255, 0],
        puts: &[0],
        answer: Ok(0),
    },
];

// Whether the builder gives each task with such semaphores its answer, and the last one its list in order.
fn are_holders_answered(alloc: Global) -> Result<bool, NoMemory> {
    let mut builder = NetBuilder::new(alloc);
    let answers = has_all_semaphores(&mut builder) && adds_or_refuses_holders(alloc, &mut builder)?;
    let net = builder.finish();
    Ok(answers && keeps_last_holder(net.tasks()))
}

fn keeps_last_holder(tasks: &[TaskRow]) -> bool {
    matches!(tasks, [row] if row.takes.as_slice() == [0, 9, 255].as_slice())
}

fn adds_or_refuses_holders(alloc: Global, builder: &mut NetBuilder) -> Result<bool, NoMemory> {
    for holder in &HOLDERS {
        let takes = List::from_slice(alloc, holder.takes)?;
        let puts = List::from_slice(alloc, holder.puts)?;
        if builder.task(Shape::Plain, takes, puts) != holder.answer {
            return Ok(false);
        }
    }
    Ok(true)
}

// Whether as many semaphores are added as there may be, and no more.
fn has_all_semaphores(builder: &mut NetBuilder) -> bool {
    if builder.semaphore(0) != Err(BuildError::ZeroCount) {
        return false;
    }
    for id in 0..MAX_SEMAPHORES {
        if builder.semaphore(1) != Ok(id) {
            return false;
        }
    }
    builder.semaphore(1) == Err(BuildError::TooMany(256))
}

#[test]
fn semaphores_are_kept_in_order_or_refused(rt: HostRuntime) -> Result<(), Fail> {
    assert!(rt; are_holders_answered(rt.alloc())?);
    Ok(())
}

// The Many 1 has the out-edges 4, 7 and 9.
const BY_MANY: NetCase<'static> = NetCase {
    tasks: &[PLAIN, MANY],
    edges: &[
        (0, 1),
        (0, 1),
        (0, 1),
        (0, 1),
        (1, 0),
        (0, 1),
        (0, 1),
        (1, 0),
        (0, 1),
        (1, 0),
    ],
    rings: &[],
};

// A Choice with two edges may choose nothing.
const BY_CHOICE: NetCase<'static> = NetCase {
    tasks: &[CHOICE, PLAIN],
    edges: &[(0, 1), (0, 1)],
    rings: &[],
};

// A net, a task, the indices by which it chooses, and the edges that it chooses by them.
type Chosen = (NetCase<'static>, u32, &'static [i64], &'static [u32]);

const CHOSEN: [Chosen; 6] = [
    (BY_MANY, 1, &[1, 1, 0, 7, -1], &[7, 4]),
    (BY_MANY, 1, &[2, 0, 1, 2], &[9, 4, 7]),
    (BY_MANY, 1, &[3, -3], &[]),
    (BY_MANY, 1, &[], &[]),
    (BY_CHOICE, 0, &[1], &[1]),
    (BY_CHOICE, 0, &[3], &[]),
];

// Whether the task chooses these edges.
fn is_chosen(alloc: Global, case: &Chosen) -> Result<bool, Fail> {
    let (rows, task, indices, edges) = case;
    let net = built(alloc, *rows)?;
    if !may_answer(&net, *task, indices.len()) {
        return Ok(false);
    }
    let chosen = net.chosen(alloc, *task, *indices)?;
    Ok(chosen.as_slice() == *edges)
}

#[test]
fn each_index_in_range_chooses_an_edge_once(rt: HostRuntime) -> Result<(), Fail> {
    for case in &CHOSEN {
        assert!(rt; is_chosen(rt.alloc(), case)?);
    }
    Ok(())
}

// Whether a task may answer so many indices.
fn may_answer(net: &Net, task: u32, count: usize) -> bool
    ensures there { IsTrue result → task < length net.now.tasks }
    ensures fits { IsTrue result → IsAnswerFor net.now task count }
{
    match net.tasks().get(task as usize) {
        Some(row) => fits_shape(row.shape, count),
        None => false,
    }
}

// Whether a task of this shape may answer so many indices.
fn fits_shape(shape: Shape, count: usize) -> bool
    ensures { IsTrue result → AnswersSoMany shape count }
{
    match shape {
        Shape::Plain => false,
        Shape::Choice => count == 1,
        Shape::Many => true,
        Shape::Nested => false,
    }
}
