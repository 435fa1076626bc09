// The tasks of a path, as text.
ghost use Rattle.std.specs.Prelude.{◌≡◌, ◌++◌, OnOk, map};
ghost use Rattle.std.specs.Option.{option_copied, option_map};
ghost use Rattle.graph_plans.specs.PlanRows.{graph_rows, plan_rows};
ghost use Rattle.call_status.specs.Paths.{among_behind, among_run, cell_text, path_from, path_text, task_text, tasks};
ghost use Rattle.call_status.specs.inside.Amongs.{among_of};

use graph_plans::{Graph, Op, Plan};
use outside_io::{Bytes, NoMemory, add_numbered};

// What the next task of a path is one of.
#[derive(Clone, Copy)]
enum Among<'p> {
    // The tasks of a graph.
    Tasks(&'p Graph),
    // Parts that are worked on side by side.
    Parts,
    // The cells of a pipeline of so many pipes.
    Cells(usize),
}

/// Adds the tasks of a path that begins in the top graph, with a slash between two: a task of a graph by its name, a
/// part of a spread by its number, and a cell of a pipeline by the numbers of its line and its pipe with a point
/// between them. Without a plan each goes by its number.
pub(crate) fn add_path(line: &mut Bytes, plan: Option<&Plan>, path: &[u32]) -> Result<(), NoMemory>
    ensures { OnOk result (line.new
        ≡ line.old ++ path_text (option_map plan_rows (option_copied plan.entry)) path.now) }
{
    match plan {
        Some(plan) => add_path_from(line, plan.modules.as_slice(), Among::Tasks(&plan.top), path),
        None => add_path_from(line, &[], Among::Parts, path),
    }
}

// Adds the tasks of a path that begins among these.
fn add_path_from(
    line: &mut Bytes,
    modules: &[Graph],
    among: Among<'_>,
    path: &[u32],
) -> Result<(), NoMemory>
    ensures { OnOk result (line.new
        ≡ line.old ++ path_from (map graph_rows modules.now) (among_of among.entry) path.now) }
{
    match path {
        [] => Ok(()),
        [task] => add_task(line, among, *task),
        [task, rest @ ..] => {
            add_task(line, among, *task)?;
            line.add_all(b"/")?;
            add_path_from(line, modules, among_behind(modules, among, *task), rest)
        }
    }
}

// Adds a task by what it goes by.
fn add_task(line: &mut Bytes, among: Among<'_>, task: u32) -> Result<(), NoMemory>
    ensures { OnOk result (line.new ≡ line.old ++ task_text (among_of among.entry) task) }
{
    match among {
        Among::Tasks(graph) => line.add_all(name_of(graph, task)),
        Among::Parts => add_numbered(line, b"", u64::from(task)),
        Among::Cells(pipes) => add_cell(line, pipes, task),
    }
}

// Adds the line and the pipe of a cell.
fn add_cell(line: &mut Bytes, pipes: usize, task: u32) -> Result<(), NoMemory>
    ensures { OnOk result (line.new ≡ line.old ++ cell_text pipes task) }
{
    let cell = task as usize;
    if pipes == 0 {
        return add_numbered(line, b"", cell as u64);
    }
    add_numbered(line, b"", (cell / pipes) as u64)?;
    add_numbered(line, b".", (cell % pipes) as u64)
}

// The name of a task of a graph.
fn name_of(graph: &Graph, task: u32) -> &[u8]
    ensures { result.now ≡ task_text (tasks (graph_rows graph.now)) task }
{
    match graph.names.get(task as usize) {
        Some(name) => name.as_slice(),
        None => &[],
    }
}

// What a path goes on among behind a task.
fn among_behind<'p>(modules: &'p [Graph], among: Among<'p>, task: u32) -> Among<'p>
    ensures { among_of result ≡ among_behind (map graph_rows modules.now) (among_of among.entry) task }
{
    match among {
        Among::Tasks(graph) => match graph.ops.get(task as usize) {
            Some(op) => among_run(modules, op),
            None => Among::Parts,
        },
        _ => Among::Parts,
    }
}

// What the run of an operation's task consists of.
fn among_run<'p>(modules: &'p [Graph], op: &Op) -> Among<'p>
    ensures { among_of result ≡ among_run (map graph_rows modules.now) op.now }
{
    match op {
        Op::Module(module) => match modules.get(*module as usize) {
            Some(graph) => Among::Tasks(graph),
            None => Among::Parts,
        },
        Op::Pipe(plan) => Among::Cells(plan.spec.serial.len()),
        _ => Among::Parts,
    }
}
