// The reading of graph files.
ghost use Rattle.std.specs.Prelude.{◌≡◌, ◌≢◌, IfErr, IfOk};
ghost use Rattle.json_values.specs.inside.View.{view};
ghost use Rattle.graph_plans.specs.PlanRows.{IsPlan, plan_rows};
ghost use Rattle.graph_file.specs.PlanText.{IsRefused, PlanText, json_in, read_plan};
ghost use Rattle.graph_drafts.specs.inside.Reading.{ReadsAs};

use crate::rules::plan_of;
use graph_drafts::{GraphError, read_file};
use graph_plans::Plan;
use json::Scratch;
use json_values::{Unread, Value};
use std::alloc::Global;

/// The plan that the bytes stand for, or the first refusal.
///
/// `NotJson`: they are no JSON text in UTF-8, or one that nests too deep. `BadField`: a field is missing where it must
/// stand, is unknown, or has a content that it may not have; the file's own fields come first, then those of each
/// semaphore and each task in turn, then those of each module, its semaphores and its tasks. `NoSuchName`: a name in
/// `module` that no module has, one in `to` that no task of the graph has, or one in `holds`, `acquire` or `release`
/// that no semaphore of the graph has. `Repeated`: a name of a semaphore or task that an earlier one of the graph has,
/// or of a module that an earlier one has, or one that occurs twice in `holds`, `acquire` or `release`. `ModuleCycle`:
/// the module of this name runs itself, directly or through others, and no module before it in the file does.
/// `TooMany`: more than 10,000 tasks, 100,000 edges or 256 semaphores in all graphs together, 64 modules, a chain of 8
/// modules from the top graph on of which each runs the next, or 1,024 different texts. These classes are tried in this
/// order, and `NoMemory`, which says nothing of the bytes, may come in place of any answer. It comes for more than
/// 4,000,000 modules or 8,000,000 tasks that run one, too.
pub fn read_graph(alloc: Global, bytes: &[u8]) -> Result<Plan, GraphError>
    ensures plan { IfOk result (λ plan. PlanText bytes.now (plan_rows plan)) }
    ensures rules { IfOk result (λ plan. IsPlan (plan_rows plan)) }
    ensures refusal { IfErr result
        (λ error. error ≢ GraphError.NoMemory → IsRefused bytes.now error) }
{
    read_by_steps(alloc, bytes)
}

fn read_by_steps(alloc: Global, bytes: &[u8]) -> Result<Plan, GraphError>
    ensures { ReadsAs plan_rows result (read_plan bytes.now) }
{
    let mut scratch = Scratch::new(alloc);
    let file = read_json(alloc, bytes, &mut scratch)?;
    let draft = read_file(alloc, &file)?;
    plan_of(alloc, draft)
}

fn read_json<'v>(
    alloc: Global,
    bytes: &'v [u8],
    scratch: &'v mut Scratch,
) -> Result<Value<'v>, GraphError>
    ensures { ReadsAs view result (json_in bytes.now) }
{
    match Value::from_slice(alloc, bytes, scratch) {
        Ok(file) => Ok(file),
        Err(unread) => Err(unread_refusal(unread)),
    }
}

fn unread_refusal(unread: Unread) -> GraphError
    ensures { result ≢ GraphError.NoMemory
        → (unread ≡ Unread.NotJson) × (result ≡ GraphError.NotJson) }
{
    match unread {
        Unread::NotJson => GraphError::NotJson,
        Unread::NoMemory => GraphError::NoMemory,
    }
}
