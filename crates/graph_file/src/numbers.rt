// The numbers of what tasks name.
ghost use Rattle.std.specs.Prelude.{◌≡◌, ◌++◌, ◌∷◌, [], true, codes, map, IfOk, OnOk};
ghost use Rattle.graph_file.specs.PlanText.{add_graph_numbers, add_numbers, file_numbers, graph_numbers, names_of_modules, runs_one_of, task_names};
ghost use Rattle.graph_drafts.specs.Steps.{passed, walk};
ghost use Rattle.graph_file.specs.inside.Lookups.{HasPlaces, IsIndex, OccurOnce};
ghost use Rattle.graph_drafts.specs.inside.Reading.{Leads, Reads, ReadsAs, draft_rows, file_op_row, file_rows, strings, task_text};
ghost use Rattle.graph_file.specs.inside.Reader.{numbers_rows, put_place};

use crate::lookups::{Index, Places, names_of_tasks, places_and_once, places_of};
use graph_drafts::{
    Draft, FileDraft, FileOp, FileTask, GraphError, no_such_name, puts_field, takes_field,
    task_spot,
};
use graph_plans::Spot;
use outside_io::{List, NoMemory};
use std::alloc::Global;

/// A task, by the numbers of the tasks and semaphores that it names: its edges lead to the tasks in `to`, the others
/// are semaphores.
#[derive(Drop)]
pub struct TaskNumbers {
    pub to: List<usize>,
    pub takes: List<usize>,
    pub puts: List<usize>,
}

/// The numbers of what the tasks of the top graph and of each module name.
#[derive(Drop)]
pub(crate) struct Numbers {
    pub top: List<TaskNumbers>,
    pub modules: Vec<List<TaskNumbers>>,
    /// Whether each task of the top graph is known to have a name of its own.
    pub once: bool,
}

/// The numbers of what each task of a file names.
pub(crate) fn numbers_of(
    alloc: Global,
    file: &FileDraft<'_>,
    modules: &Index<'_>,
) -> Result<Numbers, GraphError>
    requires index { IsIndex modules.now }
    requires modules { strings modules.now.names ≡ names_of_modules (file_rows file.now) }
    ensures numbers { ReadsAs numbers_rows result (file_numbers (file_rows file.now)) }
    ensures once { IfOk result (λ numbers. numbers.once ≡ true
        → OccurOnce (task_names (file_rows file.now).top)) }
{
    let (top, once) = numbers_in(alloc, &file.top, modules)?;
    let mut numbers = Vec::new(alloc);
    add_graphs(alloc, file.modules.as_slice(), modules, &mut numbers)?;
    Ok(Numbers {
        top,
        modules: numbers,
        once,
    })
}

fn add_graphs(
    alloc: Global,
    drafts: &[Draft<'_>],
    modules: &Index<'_>,
    numbers: &mut Vec<List<TaskNumbers>>,
) -> Result<(), GraphError>
    requires { IsIndex modules.now }
    ensures { Leads result numbers.new.items
        (walk (add_graph_numbers (strings modules.now.names)) numbers.old.items
        (map draft_rows drafts.now)) }
{
    for draft in drafts {
        if let Err(refusal) = add_graph(alloc, draft, modules, numbers) {
            return Err(refusal);
        }
    }
    Ok(())
}

// The same of a module more.
fn add_graph(
    alloc: Global,
    draft: &Draft<'_>,
    modules: &Index<'_>,
    numbers: &mut Vec<List<TaskNumbers>>,
) -> Result<(), GraphError>
    requires { IsIndex modules.now }
    ensures { Leads result numbers.new.items
        (add_graph_numbers (strings modules.now.names) numbers.old.items
        (draft_rows draft.now)) }
{
    let (found, _) = numbers_in(alloc, draft, modules)?;
    Ok(put_numbers(found, numbers)?)
}

fn put_numbers(
    found: List<TaskNumbers>,
    numbers: &mut Vec<List<TaskNumbers>>,
) -> Result<(), NoMemory>
    ensures { OnOk result (numbers.new.items ≡ numbers.old.items ++ found ∷ []) }
{
    numbers.push(found)?;
    Ok(())
}

// The numbers of what each task of a graph names, and whether each task is known to have a name of its own.
fn numbers_in(
    alloc: Global,
    draft: &Draft<'_>,
    modules: &Index<'_>,
) -> Result<(List<TaskNumbers>, bool), GraphError>
    requires { IsIndex modules.now }
    ensures numbers { ReadsAs (λ found. found.0) result
        (graph_numbers (strings modules.now.names) (draft_rows draft.now)) }
    ensures once { IfOk result (λ found. found.1 ≡ true
        → OccurOnce (task_names (draft_rows draft.now))) }
{
    let names = names_of_tasks(alloc, draft.tasks.as_slice())?;
    let (tasks, once) = places_and_once(alloc, names.as_slice())?;
    let sems = places_of(alloc, draft.sem_names.as_slice())?;
    let mut numbers = List::with_room(alloc, draft.tasks.len())?;
    add_all(alloc, draft, modules, &tasks, &sems, &mut numbers)?;
    Ok((numbers, once))
}

fn add_all(
    alloc: Global,
    draft: &Draft<'_>,
    modules: &Index<'_>,
    tasks: &Places<'_>,
    sems: &Places<'_>,
    numbers: &mut List<TaskNumbers>,
) -> Result<(), GraphError>
    requires modules { IsIndex modules.now }
    requires tasks { HasPlaces tasks.now (task_names (draft_rows draft.now)) }
    requires sems { HasPlaces sems.now (draft_rows draft.now).sem_names }
    ensures { Leads result numbers.new
        (walk (add_numbers (strings modules.now.names) (draft_rows draft.now)) numbers.old
        (map task_text draft.now.tasks.items)) }
{
    for task in &draft.tasks {
        if let Err(refusal) = add_numbers(alloc, draft, modules, tasks, sems, task, numbers) {
            return Err(refusal);
        }
    }
    Ok(())
}

#[tactic(auto, using(crate::proofs::NumberLemmas::numbers_found))]
fn add_numbers(
    alloc: Global,
    draft: &Draft<'_>,
    modules: &Index<'_>,
    tasks: &Places<'_>,
    sems: &Places<'_>,
    task: &FileTask<'_>,
    numbers: &mut List<TaskNumbers>,
) -> Result<(), GraphError>
    requires modules { IsIndex modules.now }
    requires tasks { HasPlaces tasks.now (task_names (draft_rows draft.now)) }
    requires sems { HasPlaces sems.now (draft_rows draft.now).sem_names }
    ensures { Leads result numbers.new
        (add_numbers (strings modules.now.names) (draft_rows draft.now) numbers.old
        (task_text task.now)) }
{
    let spot = task_spot(draft.scope, numbers.len());
    check_module(alloc, modules, spot, &task.op)?;
    let to = found_in(alloc, tasks, spot, "to", task.names.to.as_slice())?;
    let takes = found_in(
        alloc,
        sems,
        spot,
        takes_field(draft.version),
        task.names.takes.as_slice(),
    )?;
    let puts = found_in(
        alloc,
        sems,
        spot,
        puts_field(draft.version),
        task.names.puts.as_slice(),
    )?;
    numbers.push(TaskNumbers { to, takes, puts })?;
    Ok(())
}

// That the module that an operation runs is there.
fn check_module(
    alloc: Global,
    modules: &Index<'_>,
    spot: Spot,
    op: &FileOp<'_>,
) -> Result<(), GraphError>
    requires { IsIndex modules.now }
    ensures { Reads result
        (passed (runs_one_of (strings modules.now.names) (file_op_row op.now))
        (GraphError.NoSuchName spot (codes "module"))) }
{
    if runs_one_of(modules, op) {
        Ok(())
    } else {
        Err(no_such_name(alloc, spot, "module"))
    }
}

fn runs_one_of(modules: &Index<'_>, op: &FileOp<'_>) -> bool
    requires { IsIndex modules.now }
    ensures { result ≡ runs_one_of (strings modules.now.names) (file_op_row op.now) }
{
    match op {
        FileOp::Runs(name) => modules.places.contains_key(name.as_bytes()),
        FileOp::Reads(_) | FileOp::Does(_) => true,
    }
}

// The numbers of the names in a field.
fn found_in(
    alloc: Global,
    places: &Places<'_>,
    spot: Spot,
    field: &str,
    names: &[&str],
) -> Result<List<usize>, GraphError>
    ensures { ReadsAs (λ numbers. numbers) result
        (walk (put_place places.now (GraphError.NoSuchName spot field.now)) []
        (strings names.now)) }
{
    let mut numbers = List::with_room(alloc, names.len())?;
    for name in names {
        find_in(alloc, places, spot, field, name, &mut numbers)?;
    }
    Ok(numbers)
}

fn find_in(
    alloc: Global,
    places: &Places<'_>,
    spot: Spot,
    field: &str,
    name: &str,
    numbers: &mut List<usize>,
) -> Result<(), GraphError>
    ensures { Leads result numbers.new
        (put_place places.now (GraphError.NoSuchName spot field.now) numbers.old name.now) }
{
    let Some(number) = places.get(name.as_bytes()) else {
        return Err(no_such_name(alloc, spot, field));
    };
    numbers.push(*number)?;
    Ok(())
}
