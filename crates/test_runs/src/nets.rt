// Nets as texts.
//
// The first word of a text is the semaphores and the tasks of a net, or `-` for none. A digit is a semaphore of so many
// units. A letter is a task: `p` is a plain one, `c` a choice and `m` a choice of many, which need no unit, `t` takes a
// unit, `g` gives one back, `u` does both, `d` is a choice that does both, `v` takes a unit of the second semaphore,
// `w` gives one back, `h` takes and gives back a unit of each of the two, `n` has an inner graph, and `k` has one and
// takes and gives back a unit.
//
// Each further word of two letters is an edge, from the task that it leaves to the one that it leads to, where `a` is
// the first; with a star behind them it begins with a token. `+300` is three hundred plain tasks more, each of which
// follows the first task and precedes the second.
//
// So `1pdp ab bb* bc` has a semaphore of one unit and three tasks in a row, of which the middle one holds the unit, and
// chooses between itself and the last one.
use outside_io::List;
use std::alloc::Global;
use std::sync::Arc;
use std::test::Fail;
use task_graph::{BuildError, Net, NetBuilder, Shape};

/// The net of a text.
pub(crate) fn net_of(alloc: Global, text: &str) -> Result<Arc<Net>, Fail> {
    let (tasks, edges) = text.split_once(' ').unwrap_or((text, ""));
    let mut builder = NetBuilder::new(alloc);
    add_tasks(alloc, &mut builder, tasks.as_bytes())?;
    add_edges(alloc, &mut builder, edges)?;
    Ok(Arc::new(alloc, builder.finish())?)
}

// The shape of the task of a letter.
fn shape_of(letter: u8) -> Shape {
    match letter {
        b'c' | b'd' => Shape::Choice,
        b'm' => Shape::Many,
        b'n' | b'k' => Shape::Nested,
        _ => Shape::Plain,
    }
}

// The semaphores of which it takes a unit.
fn takes_of(letter: u8) -> &'static [u32] {
    match letter {
        b't' | b'u' | b'd' | b'k' => &[0],
        b'v' => &[1],
        b'h' => &[0, 1],
        _ => &[],
    }
}

// The semaphores of which it gives back a unit.
fn puts_of(letter: u8) -> &'static [u32] {
    match letter {
        b'g' | b'u' | b'd' | b'k' => &[0],
        b'w' => &[1],
        b'h' => &[0, 1],
        _ => &[],
    }
}

// Adds what each of these signs stands for.
fn add_tasks(alloc: Global, builder: &mut NetBuilder, signs: &[u8]) -> Result<(), BuildError> {
    for sign in signs {
        match *sign {
            b'-' => 0,
            b'0'..=b'9' => builder.semaphore(u32::from(*sign - b'0'))?,
            letter => add_task(alloc, builder, letter)?,
        };
    }
    Ok(())
}

// The number of a new task.
fn add_task(alloc: Global, builder: &mut NetBuilder, letter: u8) -> Result<u32, BuildError> {
    let takes = List::from_slice(alloc, takes_of(letter))?;
    let puts = List::from_slice(alloc, puts_of(letter))?;
    builder.task(shape_of(letter), takes, puts)
}

// Adds the edge, or the tasks and edges, of each of these words.
fn add_edges(alloc: Global, builder: &mut NetBuilder, words: &str) -> Result<(), BuildError> {
    for word in words.split(' ') {
        match word.as_bytes() {
            [from, to] => add_edge(builder, *from, *to, false)?,
            [from, to, b'*'] => add_edge(builder, *from, *to, true)?,
            _ => add_branches(alloc, builder, word)?,
        }
    }
    Ok(())
}

// An edge between the tasks of two letters.
fn add_edge(builder: &mut NetBuilder, from: u8, to: u8, token: bool) -> Result<(), BuildError> {
    let from = u32::from(from.wrapping_sub(b'a'));
    builder.edge(from, u32::from(to.wrapping_sub(b'a')), token)?;
    Ok(())
}

// Adds as many tasks between the first two as the word says, if it does.
fn add_branches(alloc: Global, builder: &mut NetBuilder, word: &str) -> Result<(), BuildError> {
    let (_, count) = word.split_once('+').unwrap_or(("", ""));
    for _ in 0..count.parse::<u32>().unwrap_or(0) {
        let task = add_task(alloc, builder, b'p')?;
        builder.edge(0, task, false)?;
        builder.edge(task, 1, false)?;
    }
    Ok(())
}
