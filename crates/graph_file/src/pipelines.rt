// Whether the pipes of tasks are pipelines.
ghost use Rattle.std.specs.Prelude.{◌≡◌, map};
ghost use Rattle.graph_drafts.specs.Steps.{walk};
ghost use Rattle.graph_file.specs.PlanText.{add_graph_pipelines, file_op_fault, file_pipelines, pipe_fault};
ghost use Rattle.graph_drafts.specs.inside.Reading.{Reads, draft_rows, file_op_row, file_rows};

use graph_drafts::{Draft, FileDraft, FileOp, GraphError, task_spot};
use graph_plans::Op;
use pipe_lines::{PipeError, spec_fault};

/// That the pipes of each task of a file are a pipeline.
pub(crate) fn check_pipelines(file: &FileDraft<'_>) -> Result<(), GraphError>
    ensures { Reads result (file_pipelines (file_rows file.now)) }
{
    check_graph(&file.top)?;
    check_graphs(file.modules.as_slice())
}

fn check_graphs(drafts: &[Draft<'_>]) -> Result<(), GraphError>
    ensures { Reads result (walk add_graph_pipelines tt (map draft_rows drafts.now)) }
{
    for draft in drafts {
        check_graph(draft)?;
    }
    Ok(())
}

// That those of each task of a graph are.
fn check_graph(draft: &Draft<'_>) -> Result<(), GraphError>
    ensures { Reads result (add_graph_pipelines tt (draft_rows draft.now)) }
{
    for (task, found) in draft.tasks.iter().enumerate() {
        if let Some(error) = file_op_fault(&found.op) {
            return Err(GraphError::BadPipe(task_spot(draft.scope, task), error));
        }
    }
    Ok(())
}

// Why the pipes of an operation are no pipeline.
fn file_op_fault(op: &FileOp<'_>) -> Option<PipeError>
    ensures { result ≡ file_op_fault (file_op_row op.now) }
{
    match op {
        FileOp::Does(op) => pipe_fault(op),
        _ => None,
    }
}

fn pipe_fault(op: &Op) -> Option<PipeError>
    ensures { result ≡ pipe_fault op.now }
{
    match op {
        Op::Pipe(plan) => spec_fault(&plan.spec),
        _ => None,
    }
}
