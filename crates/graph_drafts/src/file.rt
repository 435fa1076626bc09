// A graph file: its own fields, its graph and its modules.
ghost use Rattle.std.specs.Prelude.{◌≡◌, [], ◌++◌, ◌∷◌, codes, map, IfOk, OnOk};
ghost use Rattle.json_values.specs.inside.View.{view};
ghost use Rattle.graph_plans.specs.declared.spots.Spot.TheVariants.{File};
ghost use Rattle.graph_drafts.specs.Contents.{whole_of};
ghost use Rattle.graph_drafts.specs.Fields.{allowed};
ghost use Rattle.graph_drafts.specs.FileText.{add_module, empty_draft, file_in, graph_in, module_in};
ghost use Rattle.graph_drafts.specs.Steps.{walk};
ghost use Rattle.graph_drafts.specs.inside.Reading.{Leads, Reads, ReadsAs, draft_rows, file_rows};

use crate::bad_fields::bad_field;
use crate::contents::whole_of;
use crate::draft::{Draft, FileDraft};
use crate::fields::{objects_in, read_name, some_objects_in};
use crate::refusals::GraphError;
use crate::scopes::{Scope, graph_spot};
use crate::semaphores::read_semaphores;
use crate::tasks::read_tasks;
use crate::unknown::check_fields;
use graph_plans::Spot;
use json_values::Value;
use outside_io::{List, NoMemory};
use std::alloc::Global;

/// The graphs of a file.
pub fn read_file<'v>(alloc: Global, file: &Value<'v>) -> Result<FileDraft<'v>, GraphError>
    ensures { ReadsAs file_rows result (file_in (view file.now)) }
{
    let version = read_version(alloc, file)?;
    let Some(tasks) = objects_in(file, "tasks") else {
        return Err(bad_field(alloc, Spot::File, "tasks"));
    };
    let Some(sems) = some_objects_in(file, "semaphores") else {
        return Err(bad_field(alloc, Spot::File, "semaphores"));
    };
    let Some(modules) = some_objects_in(file, "modules") else {
        return Err(bad_field(alloc, Spot::File, "modules"));
    };
    let fields = &["version", "tasks", "semaphores", "modules"];
    check_fields(alloc, Spot::File, file, fields, &[])?;
    let top = read_draft(
        alloc,
        empty_draft(alloc, Scope::Top, version, ""),
        sems,
        tasks,
    )?;
    let modules = read_modules(alloc, version, modules)?;
    Ok(FileDraft { top, modules })
}

fn read_version(alloc: Global, file: &Value<'_>) -> Result<u64, GraphError>
    ensures { Reads result (allowed 1 (whole_of 1 2) File (codes "version") (view file.now)) }
{
    let Some(version) = file.get("version") else {
        return Ok(1);
    };
    match whole_of(version, 1, 2) {
        Some(version) => Ok(version),
        None => Err(bad_field(alloc, Spot::File, "version")),
    }
}

fn empty_draft<'v>(alloc: Global, scope: Scope, version: u64, name: &'v str) -> Draft<'v>
    ensures { draft_rows result ≡ empty_draft scope version name.now }
{
    Draft {
        scope,
        version,
        name,
        sem_names: List::new(alloc),
        sems: List::new(alloc),
        tasks: Vec::new(alloc),
    }
}

// The graph of a draft, with these semaphores and tasks.
#[tactic(auto, using(crate::proofs::TaskLemmas::walk_steps))]
fn read_draft<'v>(
    alloc: Global,
    mut draft: Draft<'v>,
    sems: &[Value<'v>],
    tasks: &[Value<'v>],
) -> Result<Draft<'v>, GraphError>
    ensures { ReadsAs draft_rows result
        (graph_in (draft_rows draft.entry) (map view sems.now) (map view tasks.now)) }
{
    read_semaphores(alloc, sems, &mut draft)?;
    read_tasks(alloc, tasks, &mut draft)?;
    Ok(draft)
}

// The modules of a file.
fn read_modules<'v>(
    alloc: Global,
    version: u64,
    values: &[Value<'v>],
) -> Result<Vec<Draft<'v>>, GraphError>
    ensures { ReadsAs (λ modules. map draft_rows modules.items) result
        (walk (add_module version) [] (map view values.now)) }
{
    let mut modules = Vec::new(alloc);
    for value in values {
        add_module(alloc, version, value, &mut modules)?;
    }
    Ok(modules)
}

// Puts a module at the end.
fn add_module<'v>(
    alloc: Global,
    version: u64,
    value: &Value<'v>,
    modules: &mut Vec<Draft<'v>>,
) -> Result<(), GraphError>
    ensures { Leads result (map draft_rows modules.new.items)
        (add_module version (map draft_rows modules.old.items) (view value.now)) }
{
    let draft = read_module(alloc, Scope::Module(modules.len()), version, value)?;
    Ok(put_module(draft, modules)?)
}

fn put_module<'v>(draft: Draft<'v>, modules: &mut Vec<Draft<'v>>) -> Result<(), NoMemory>
    ensures { OnOk result (map draft_rows modules.new.items
        ≡ map draft_rows modules.old.items ++ draft_rows draft.entry ∷ []) }
{
    modules.push(draft)?;
    Ok(())
}

fn read_module<'v>(
    alloc: Global,
    scope: Scope,
    version: u64,
    object: &Value<'v>,
) -> Result<Draft<'v>, GraphError>
    ensures { ReadsAs draft_rows result (module_in scope version (view object.now)) }
{
    let spot = graph_spot(scope);
    let name = read_name(alloc, spot, object)?;
    let Some(tasks) = objects_in(object, "tasks") else {
        return Err(bad_field(alloc, spot, "tasks"));
    };
    let Some(sems) = some_objects_in(object, "semaphores") else {
        return Err(bad_field(alloc, spot, "semaphores"));
    };
    check_fields(alloc, spot, object, &["name", "tasks", "semaphores"], &[])?;
    read_draft(alloc, empty_draft(alloc, scope, version, name), sems, tasks)
}
