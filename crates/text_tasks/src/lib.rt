//! The tasks of graph files: what they find, what they make of it, and the jobs that do it.
//!
//! The layer above sees a job by its meaning (`text_job`). The definitions are in `specs/`. `OpMeaning` has a row for
//! each operation, with the value that its task hands on and the successors that get it, or the job that is run in the
//! task's place. `CellMeaning` says what the cells of a pipeline do with the token that they meet, and `Cells` which
//! token that is. `JobMeaning` says what a task answers, when it faults, and to what the run in a task's place is
//! gathered; `Sinks` and `PipeEnds` say which texts those are. `FoundTexts` says what the text of a task is, and
//! `GraphWork`, `PartsWork` and `PipeWork` what a job consists of. What the operations make of texts is in `text_ops`,
//! the shape of each operation's task in `graph_plans`, and the order in which tokens pass in `pipe_lines`.
#![tactic(auto)]

mod cell_inputs;
mod feedback_text;
mod found;
mod gathered;
mod graph_job;
mod item;
mod job;
mod line_ops;
mod next_round;
mod one_by_one;
mod parts_job;
mod pipe_job;
mod pipe_text;
mod table;
mod task_error;
mod work;

pub use feedback_text::{feedback, feedback_has};
pub use graph_job::GraphJob;
pub use item::{CellItem, Item};
pub use job::{TextJob, first_job};
pub use parts_job::PartsJob;
pub use pipe_job::PipeJob;
pub use table::TextTable;
pub use work::apply;
