// Why a task's work comes to nothing.
ghost use Rattle.std.specs.Prelude.{◌≡◌};

use journal_rules::Why;
use nested_runs::SpreadError;
use outside_io::NoMemory;
use run_frame::JobError;
use std::alloc::{AllocError, AllocFailed};
use text_ops::ApplyError;

// Why a task's work comes to nothing.
#[derive(Clone, Copy, Debug, PartialEq, Eq)]
pub(crate) enum TaskError {
    // Its value, or the text of the run in its place, would have so many bytes, which are too many.
    Long(u64),
    // The run in its place would have so many parts, which are too many.
    Wide(u64),
    // The token, the least of those that are left, never passes.
    Unmet(u64),
    // An allocation failed.
    NoMemory,
}

impl From<NoMemory> for TaskError {
    ghost use Rattle.text_tasks.specs.declared.task_error.TaskError.TheVariants.{NoMemory as NoMemoryToTask};

    ghost from_gives = { λ _ error. error ≡ NoMemoryToTask };

    fn from(_: NoMemory) -> Self {
        TaskError::NoMemory
    }
}

impl From<AllocError> for TaskError {
    ghost use Rattle.text_tasks.specs.declared.task_error.TaskError.TheVariants.{NoMemory as NoMemoryToTask};

    ghost from_gives = { λ _ error. error ≡ NoMemoryToTask };

    fn from(_: AllocError) -> Self {
        TaskError::NoMemory
    }
}

impl<T: Drop> From<AllocFailed<T>> for TaskError {
    ghost use Rattle.text_tasks.specs.declared.task_error.TaskError.TheVariants.{NoMemory as NoMemoryToTask};

    ghost from_gives = { λ _ error. error ≡ NoMemoryToTask };

    fn from(_: AllocFailed<T>) -> Self {
        TaskError::NoMemory
    }
}

impl From<ApplyError> for TaskError {
    ghost use Rattle.text_tasks.specs.inside.Working.{error_of_apply};

    ghost from_gives = { λ apply error. error ≡ error_of_apply apply };

    fn from(error: ApplyError) -> Self {
        match error {
            ApplyError::Long(bytes) => TaskError::Long(bytes),
            ApplyError::NoMemory => TaskError::NoMemory,
        }
    }
}

impl From<SpreadError> for TaskError {
    ghost use Rattle.text_tasks.specs.inside.Working.{error_of_spread};

    ghost from_gives = { λ spread error. error ≡ error_of_spread spread };

    fn from(error: SpreadError) -> Self {
        match error {
            SpreadError::TooWide(parts) => TaskError::Wide(parts),
            SpreadError::NoMemory => TaskError::NoMemory,
        }
    }
}

impl From<TaskError> for JobError {
    ghost use Rattle.text_tasks.specs.inside.Working.{job_error};

    ghost from_gives = { λ task error. error ≡ job_error task };

    fn from(error: TaskError) -> Self {
        match error {
            TaskError::Long(bytes) => JobError::Fault(Why::Long(bytes)),
            TaskError::Wide(parts) => JobError::Fault(Why::Wide(parts)),
            TaskError::Unmet(token) => JobError::Fault(Why::Unmet(token)),
            TaskError::NoMemory => JobError::NoMemory,
        }
    }
}
