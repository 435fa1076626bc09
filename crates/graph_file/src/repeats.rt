// Names that occur twice.
ghost use Rattle.std.specs.Prelude.{◌≡◌, ◌||◌, ℕ, [], true, false, is_none, IfOk, OnOk, codes, map};
ghost use Rattle.graph_drafts.specs.Fields.{sem_spot};
ghost use Rattle.graph_file.specs.PlanText.{add_module_name, add_name, add_task_name, file_names, graph_names, names_of_modules, task_names};
ghost use Rattle.graph_drafts.specs.Steps.{walk};
ghost use Rattle.graph_drafts.specs.inside.Reading.{Leads, draft_rows, file_rows, named_task, strings};
ghost use Rattle.graph_file.specs.inside.Lookups.{KeepsPlace, OccurOnce, place_in};
ghost use Rattle.graph_file.specs.inside.Reader.{once_module, once_or, unless_repeated};

use crate::lookups::{Places, keep_place};
use graph_drafts::{
    Draft, FileDraft, FileTask, GraphError, NamedTask, Scope, graph_spot, puts_field, repeated,
    sem_spot, takes_field, task_spot,
};
use graph_plans::Spot;
use outside_io::NoMemory;
use std::alloc::Global;
use std::collections::HashMap;

/// That no module, and no semaphore or task of a graph, has the name of an earlier one, and that no task has a
/// semaphore twice in a list. With `once` each name of a task of the top graph is known to occur once.
pub(crate) fn check_names(alloc: Global, file: &FileDraft<'_>, once: bool) -> Result<(), GraphError>
    requires { once ≡ true → OccurOnce (task_names (file_rows file.now).top) }
    ensures { Leads result (names_of_modules (file_rows file.now))
        (file_names (file_rows file.now)) }
{
    if let Err(refusal) = check_graph(alloc, &file.top, once) {
        return Err(refusal);
    }
    check_modules(alloc, file.modules.as_slice())
}

// That no module has the name of an earlier one, and the same of what is in them.
fn check_modules(alloc: Global, modules: &[Draft<'_>]) -> Result<(), GraphError>
    ensures { Leads result (map (λ draft. draft.name.now) modules.now)
        (walk add_module_name [] (map draft_rows modules.now)) }
{
    let mut places = HashMap::new(alloc);
    for (place, draft) in modules.iter().enumerate() {
        let new = keep_place(&mut places, draft.name.as_bytes(), place)?;
        if let Err(refusal) = check_module(alloc, place, new, draft) {
            return Err(refusal);
        }
    }
    Ok(())
}

// The same of the module of this number, whose name is new or not.
fn check_module(
    alloc: Global,
    number: usize,
    new: bool,
    draft: &Draft<'_>,
) -> Result<(), GraphError>
    ensures { Leads result number (once_module number new (draft_rows draft.now)) }
{
    if !new {
        return Err(repeated(alloc, graph_spot(Scope::Module(number)), "name"));
    }
    check_graph(alloc, draft, false)
}

// That no semaphore and no task of a graph has the name of an earlier one, or a semaphore twice in a list. With `once`
// each name of a task is known to occur once.
fn check_graph(alloc: Global, draft: &Draft<'_>, once: bool) -> Result<(), GraphError>
    requires { once ≡ true → OccurOnce (task_names (draft_rows draft.now)) }
    ensures { Leads result (task_names (draft_rows draft.now)) (graph_names (draft_rows draft.now)) }
{
    if let Err(refusal) = check_semaphores(alloc, draft.scope, draft.sem_names.as_slice()) {
        return Err(refusal);
    }
    check_tasks(
        alloc,
        draft.scope,
        draft.version,
        draft.tasks.as_slice(),
        once,
    )
}

// That no semaphore has the name of an earlier one.
fn check_semaphores(alloc: Global, scope: Scope, names: &[&str]) -> Result<(), GraphError>
    ensures { Leads result (strings names.now)
        (walk (add_name (λ s. GraphError.Repeated (sem_spot scope s) (codes "name"))) []
        (strings names.now)) }
{
    match first_repeated(alloc, names)? {
        Some(sem) => Err(repeated(alloc, sem_spot(scope, sem), "name")),
        None => Ok(()),
    }
}

// That no task has the name of an earlier one, or a semaphore twice in a list. With `once` each name is known to stand
// once.
fn check_tasks(
    alloc: Global,
    scope: Scope,
    version: u64,
    tasks: &[FileTask<'_>],
    once: bool,
) -> Result<(), GraphError>
    requires { once ≡ true → OccurOnce (map (λ task. task.names.name.now) tasks.now) }
    ensures { Leads result (map (λ task. task.names.name.now) tasks.now)
        (walk (add_task_name scope version) [] (map (λ task. named_task task.names) tasks.now)) }
{
    let mut places = HashMap::new(alloc);
    for (place, task) in tasks.iter().enumerate() {
        let new = is_new(&mut places, once, task.names.name.as_bytes(), place)?;
        if let Err(refusal) = check_task(alloc, scope, version, place, new, &task.names) {
            return Err(refusal);
        }
    }
    Ok(())
}

// Whether a name is new: known where each occurs once, or else seen by the places of those before, among which it gets
// its own.
fn is_new<'n>(
    places: &mut Places<'n>,
    once: bool,
    name: &'n [u8],
    place: usize,
) -> Result<bool, NoMemory>
    ensures new { IfOk result (λ new. new ≡ (once || is_none (place_in places.old name.now))) }
    ensures kept { OnOk result (once ≡ false → KeepsPlace places.old name.now place places.new) }
{
    if once {
        return Ok(true);
    }
    keep_place(places, name, place)
}

// The same of the task of this number, whose name is new or not.
fn check_task(
    alloc: Global,
    scope: Scope,
    version: u64,
    number: usize,
    new: bool,
    task: &NamedTask<'_>,
) -> Result<(), GraphError>
    ensures { Leads result number (once_or scope version number new (named_task task.now)) }
{
    let spot = task_spot(scope, number);
    if !new {
        return Err(repeated(alloc, spot, "name"));
    }
    if let Err(refusal) = check_list(alloc, spot, takes_field(version), task.takes.as_slice()) {
        return Err(refusal);
    }
    check_list(alloc, spot, puts_field(version), task.puts.as_slice())
}

// That no name occurs twice in the list of a field.
#[tactic(auto, using(crate::proofs::NameLemmas::few_names))]
fn check_list(alloc: Global, spot: Spot, field: &str, names: &[&str]) -> Result<(), GraphError>
    ensures { Leads result (strings names.now)
        (walk (add_name (λ k. GraphError.Repeated spot field.now)) [] (strings names.now)) }
{
    if names.len() < 2 {
        return Ok(());
    }
    match first_repeated(alloc, names)? {
        Some(_) => Err(repeated(alloc, spot, field)),
        None => Ok(()),
    }
}

// The place of the first name that stood before.
fn first_repeated(alloc: Global, names: &[&str]) -> Result<Option<usize>, NoMemory>
    ensures { IfOk result (λ found. (refusal : ℕ → GraphError)
        → walk (add_name refusal) [] (strings names.now)
        ≡ unless_repeated refusal (strings names.now) found) }
{
    let mut places = HashMap::new(alloc);
    for (place, name) in names.iter().enumerate() {
        if !keep_place(&mut places, name.as_bytes(), place)? {
            return Ok(Some(place));
        }
    }
    Ok(None)
}
