// The semaphores in a graph file.
ghost use Rattle.std.specs.Prelude.{◌≡◌, codes, map};
ghost use Rattle.json_values.specs.inside.View.{view};
ghost use Rattle.graph_plans.specs.PlanRows.{maximum_limit};
ghost use Rattle.graph_drafts.specs.Contents.{whole_of};
ghost use Rattle.graph_drafts.specs.Fields.{needed, sem_spot};
ghost use Rattle.graph_drafts.specs.FileText.{add_semaphore, with_semaphore};
ghost use Rattle.graph_drafts.specs.Steps.{walk};
ghost use Rattle.graph_drafts.specs.inside.Reading.{Leads, Reads, draft_rows};

use crate::bad_fields::bad_field;
use crate::contents::whole_of;
use crate::draft::Draft;
use crate::fields::read_name;
use crate::refusals::GraphError;
use crate::scopes::sem_spot;
use crate::unknown::check_fields;
use graph_plans::Spot;
use json_values::Value;
use std::alloc::Global;

const MAX_MAXIMUM: u64 = 1_000_000;

/// Puts the semaphores of a graph into the draft.
pub(crate) fn read_semaphores<'v>(
    alloc: Global,
    sems: &[Value<'v>],
    draft: &mut Draft<'v>,
) -> Result<(), GraphError>
    ensures { Leads result (draft_rows draft.new)
        (walk add_semaphore (draft_rows draft.old) (map view sems.now)) }
{
    for sem in sems {
        read_semaphore(alloc, sem, draft)?;
    }
    Ok(())
}

// Puts a semaphore at the end of those of the draft.
fn read_semaphore<'v>(
    alloc: Global,
    sem: &Value<'v>,
    draft: &mut Draft<'v>,
) -> Result<(), GraphError>
    ensures { Leads result (draft_rows draft.new)
        (add_semaphore (draft_rows draft.old) (view sem.now)) }
{
    let spot = sem_spot(draft.scope, draft.sem_names.len());
    let name = read_name(alloc, spot, sem)?;
    let max = read_maximum(alloc, spot, sem)?;
    check_fields(alloc, spot, sem, &["name", "max"], &[])?;
    draft.sem_names.push(name)?;
    draft.sems.push(max)?;
    Ok(())
}

// How many units a semaphore has.
fn read_maximum(alloc: Global, spot: Spot, sem: &Value<'_>) -> Result<u32, GraphError>
    ensures { Reads result (needed (whole_of 1 maximum_limit) spot (codes "max") (view sem.now)) }
{
    let Some(max) = sem.get("max").and_then(maximum_of) else {
        return Err(bad_field(alloc, spot, "max"));
    };
    Ok(max)
}

fn maximum_of(value: &Value<'_>) -> Option<u32>
    ensures { result ≡ whole_of 1 maximum_limit (view value.now) }
{
    let max = whole_of(value, 1, MAX_MAXIMUM)?;
    Some(max as u32)
}
