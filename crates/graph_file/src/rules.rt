// The graphs of a file taken together: names looked up, and limits.
ghost use Rattle.graph_file.specs.PlanText.{plan_of};
ghost use Rattle.graph_plans.specs.PlanRows.{plan_rows};
ghost use Rattle.graph_file.specs.inside.Drafts.{IsFile};
ghost use Rattle.graph_drafts.specs.inside.Reading.{ReadsAs, file_rows};

use crate::graphs::plan_with;
use crate::limits::check_limits;
use crate::lookups::{index_of, names_of_graphs};
use crate::numbers::numbers_of;
use crate::pipelines::check_pipelines;
use crate::repeats::check_names;
use crate::texts::texts_of;
use graph_drafts::{FileDraft, GraphError};
use graph_plans::Plan;
use std::alloc::Global;

/// The plan of these graphs.
pub(crate) fn plan_of(alloc: Global, file: FileDraft<'_>) -> Result<Plan, GraphError>
    requires { IsFile (file_rows file) }
    ensures { ReadsAs plan_rows result (plan_of (file_rows file.entry)) }
{
    let names = names_of_graphs(alloc, file.modules.as_slice())?;
    let modules = index_of(alloc, names)?;
    let numbers = numbers_of(alloc, &file, &modules)?;
    check_names(alloc, &file, numbers.once)?;
    let texts = texts_of(alloc, &file)?;
    check_limits(alloc, &file, &numbers, &modules, texts.names.len())?;
    check_pipelines(&file)?;
    Ok(plan_with(alloc, file, &numbers, &modules, &texts)?)
}
