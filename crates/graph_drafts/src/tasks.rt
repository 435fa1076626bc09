// The tasks in a graph file.
ghost use Rattle.std.specs.Prelude.{◌≡◌, ◌++◌, ◌∷◌, [], codes, map, OnOk};
ghost use Rattle.json_values.specs.inside.View.{view};
ghost use Rattle.graph_drafts.specs.Fields.{only};
ghost use Rattle.graph_drafts.specs.FileText.{puts_field, takes_field, task_fields, with_task_text};
ghost use Rattle.graph_drafts.specs.Steps.{walk};
ghost use Rattle.graph_drafts.specs.inside.Reading.{Leads, Reads, ReadsAs, draft_rows, named_task, task_text};
ghost use Rattle.graph_drafts.specs.inside.Reader.{add_task_steps, lists_in};

use crate::draft::{Draft, FileTask, NamedTask};
use crate::fields::{read_name, read_names};
use crate::ops::read_op;
use crate::refusals::GraphError;
use crate::scopes::task_spot;
use crate::unknown::check_fields;
use graph_plans::Spot;
use json_values::Value;
use outside_io::NoMemory;
use std::alloc::Global;

/// The field with the semaphores that a task takes, in a file of this version.
pub fn takes_field(version: u64) -> &'static str
    ensures { result.now ≡ takes_field version }
{
    if version == 1 { "holds" } else { "acquire" }
}

/// The field with those that it puts, in version 1 the same one.
pub fn puts_field(version: u64) -> &'static str
    ensures { result.now ≡ puts_field version }
{
    if version == 1 { "holds" } else { "release" }
}

/// Puts the tasks of a graph into the draft.
pub(crate) fn read_tasks<'v>(
    alloc: Global,
    tasks: &[Value<'v>],
    draft: &mut Draft<'v>,
) -> Result<(), GraphError>
    ensures { Leads result (draft_rows draft.new)
        (walk add_task_steps (draft_rows draft.old) (map view tasks.now)) }
{
    for task in tasks {
        read_task(alloc, task, draft)?;
    }
    Ok(())
}

// Puts a task at the end of those of the draft.
fn read_task<'v>(alloc: Global, task: &Value<'v>, draft: &mut Draft<'v>) -> Result<(), GraphError>
    ensures { Leads result (draft_rows draft.new)
        (add_task_steps (draft_rows draft.old) (view task.now)) }
{
    let spot = task_spot(draft.scope, draft.tasks.len());
    let name = read_name(alloc, spot, task)?;
    let found = read_op(alloc, spot, task)?;
    let names = read_lists(alloc, draft.version, spot, name, task)?;
    check_task_fields(alloc, draft.version, spot, task, found.fields)?;
    Ok(put_task(
        FileTask {
            names,
            op: found.op,
        },
        draft,
    )?)
}

fn put_task<'v>(task: FileTask<'v>, draft: &mut Draft<'v>) -> Result<(), NoMemory>
    ensures { OnOk result
        (draft_rows draft.new ≡ with_task_text (draft_rows draft.old) (task_text task.entry)) }
{
    draft.tasks.push(task)?;
    Ok(())
}

// A task of this name, with its lists of names.
fn read_lists<'v>(
    alloc: Global,
    version: u64,
    spot: Spot,
    name: &'v str,
    task: &Value<'v>,
) -> Result<NamedTask<'v>, GraphError>
    ensures { ReadsAs named_task result (lists_in version spot name.now (view task.now)) }
{
    let to = read_names(alloc, spot, "to", task)?;
    let takes = read_names(alloc, spot, takes_field(version), task)?;
    let puts = read_names(alloc, spot, puts_field(version), task)?;
    Ok(NamedTask {
        name,
        to,
        takes,
        puts,
    })
}

// That a task has no field but those of every task and these.
fn check_task_fields(
    alloc: Global,
    version: u64,
    spot: Spot,
    task: &Value<'_>,
    own: &[&str],
) -> Result<(), GraphError>
    ensures { Reads result (only (task_fields version ++ map (λ s. s.now) own.now) spot
        (view task.now)) }
{
    let fields = &[
        "name",
        "op",
        "to",
        takes_field(version),
        puts_field(version),
    ];
    check_fields(alloc, spot, task, fields, own)
}
